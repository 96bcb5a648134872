//! Watches of a script's lines and of its nodes' steps.

use scp_report::below::script::Command;
use scp_turn::{Event, KvDriver, Node, Reply, Watch};

/// A watch that sees each line of a script that is played, and each step of its nodes. It can't refuse a line: a watch that is out of memory
/// remembers that, and says so at the end.
pub trait LineWatch: Watch<KvDriver> {
    ghost use Rattle.std.specs.Prelude.{ℕ, Bool};
    ghost use Rattle.scp_turn.specs.Heard.{Nodes};
    ghost use Rattle.scp_report.specs.scp_script.specs.declared.command.Command.{Command};
    ghost use Rattle.scp_report.specs.scp_script.specs.Nodes.{NamesNodes};
    ghost use Rattle.scp_line.specs.Player.{ArePlaying};

    /// What it notes before a line: from the line's number, its command and the nodes.
    ghost notes_begin: { Self → ℕ → Command → Nodes → Self → Type 0 };

    /// What it notes after a line that was done: from the line's number, its command, whether the nodes came to rest, and the nodes.
    ghost notes_end: { Self → ℕ → Command → Bool → Nodes → Self → Type 0 };

    /// Called before the line of this number is done by these nodes.
    fn begin_line(&mut self, line: usize, command: &Command, nodes: &[Node])
        ensures { notes_begin self.old line command.now nodes.now self.new };

    /// Called after the line of this number was done, with the nodes. `calm` says whether they came to rest where the line brought them to
    /// it.
    fn end_line(&mut self, line: usize, command: &Command, calm: bool, nodes: &[Node])
        requires names { NamesNodes command.now }
        requires playing { ArePlaying nodes.now }
        ensures { notes_end self.old line command.now calm nodes.now self.new };
}

/// A watch that notes nothing, neither lines nor steps.
#[derive(Drop)]
pub struct Nobody;

impl Watch<KvDriver> for Nobody {
    ghost use Rattle.std.specs.Prelude.{◌≡◌};

    ghost notes_before = { λ old _ _ _ new. new ≡ old };

    ghost notes_after = { λ old _ _ _ new. new ≡ old };

    fn before(&mut self, _number: u8, _event: &Event, _node: &Node) {}

    fn after(&mut self, _number: u8, _reply: &Reply, _node: &Node) {}
}

impl LineWatch for Nobody {
    ghost use Rattle.std.specs.Prelude.{◌≡◌};

    ghost notes_begin = { λ old _ _ _ new. new ≡ old };

    ghost notes_end = { λ old _ _ _ _ new. new ≡ old };

    fn begin_line(&mut self, _line: usize, _command: &Command, _nodes: &[Node]) {}

    fn end_line(&mut self, _line: usize, _command: &Command, _calm: bool, _nodes: &[Node]) {}
}

/// A watch that shows another one the steps of nodes, and notes nothing of lines.
#[derive(Drop)]
pub struct Steps<W> {
    pub watch: W,
}

impl<W: Watch<KvDriver>> Watch<KvDriver> for Steps<W> {
    ghost notes_before = { λ old number event node new. W.notes_before old.watch number event node new.watch };

    ghost notes_after = { λ old number reply node new. W.notes_after old.watch number reply node new.watch };

    fn before(&mut self, number: u8, event: &Event, node: &Node) {
        self.watch.before(number, event, node);
    }

    fn after(&mut self, number: u8, reply: &Reply, node: &Node) {
        self.watch.after(number, reply, node);
    }
}

impl<W: Watch<KvDriver>> LineWatch for Steps<W> {
    ghost use Rattle.std.specs.Prelude.{◌≡◌};

    ghost notes_begin = { λ old _ _ _ new. new ≡ old };

    ghost notes_end = { λ old _ _ _ _ new. new ≡ old };

    fn begin_line(&mut self, _line: usize, _command: &Command, _nodes: &[Node]) {}

    fn end_line(&mut self, _line: usize, _command: &Command, _calm: bool, _nodes: &[Node]) {}
}

/// Two watches that both see everything: one play is enough for both.
#[derive(Drop)]
pub struct Both<A, B> {
    pub first: A,
    pub second: B,
}

impl<A: Watch<KvDriver>, B: Watch<KvDriver>> Watch<KvDriver> for Both<A, B> {
    ghost notes_before = { λ old number event node new. A.notes_before old.first number event node new.first × B.notes_before old.second number event node new.second };

    ghost notes_after = { λ old number reply node new. A.notes_after old.first number reply node new.first × B.notes_after old.second number reply node new.second };

    fn before(&mut self, number: u8, event: &Event, node: &Node) {
        self.first.before(number, event, node);
        self.second.before(number, event, node);
    }

    fn after(&mut self, number: u8, reply: &Reply, node: &Node) {
        self.first.after(number, reply, node);
        self.second.after(number, reply, node);
    }
}

impl<A: LineWatch, B: LineWatch> LineWatch for Both<A, B> {
    ghost notes_begin = { λ old line command nodes new. A.notes_begin old.first line command nodes new.first × B.notes_begin old.second line command nodes new.second };

    ghost notes_end = { λ old line command calm nodes new. A.notes_end old.first line command calm nodes new.first × B.notes_end old.second line command calm nodes new.second };

    fn begin_line(&mut self, line: usize, command: &Command, nodes: &[Node]) {
        self.first.begin_line(line, command, nodes);
        self.second.begin_line(line, command, nodes);
    }

    fn end_line(&mut self, line: usize, command: &Command, calm: bool, nodes: &[Node]) {
        self.first.end_line(line, command, calm, nodes);
        self.second.end_line(line, command, calm, nodes);
    }
}
