//! The watch that notes what would otherwise pass in silence.
ghost use Rattle.std.specs.Prelude.{◌≡◌, [], false};
ghost use Rattle.scp_notices.specs.inside.Watching.{Adds, fates_told};

use crate::commands::Told;
use scp_line::LineWatch;
use scp_line::below::node::{CommandFate, Event, KvDriver, Node, Reply};
use scp_line::below::script::Command;
use scp_line::below::turn::Watch;
use std::alloc::Global;
use std::marker::Model;

/// Notes what the slot stages report of the commands that they take, in the order of the steps, and the lines in which the nodes don't come
/// to rest.
#[derive(Drop)]
pub struct CommandWatch {
    told: Vec<Told>,
    cut: Vec<usize>,
    /// Whether the last step that it saw is one of a slot stage.
    is_slot_take: bool,
    /// Whether it ran out of memory for something.
    lacks_memory: bool,
}

impl Model for CommandWatch {
    ghost use Rattle.scp_notices.specs.inside.Watching.{WatchView};

    ghost Value = { WatchView };

    ghost view = { λ w. record { told = w.told.items; cut = w.cut.items; is_slot_take = w.is_slot_take; lacks_memory = w.lacks_memory } };
}

impl CommandWatch {
    /// A watch that noted nothing.
    pub fn new(alloc: Global) -> CommandWatch
        ensures { result ≡ record { told = []; cut = []; is_slot_take = false; lacks_memory = false } }
    {
        CommandWatch {
            told: Vec::new(alloc),
            cut: Vec::new(alloc),
            is_slot_take: false,
            lacks_memory: false,
        }
    }

    /// What the slot stages reported.
    pub fn told(&self) -> &[Told]
        ensures { result.now ≡ self.now.told }
    {
        self.told.as_slice()
    }

    /// The lines in which the nodes didn't come to rest.
    pub fn cut(&self) -> &[usize]
        ensures { result.now ≡ self.now.cut }
    {
        self.cut.as_slice()
    }

    /// Whether it ran out of memory for something.
    pub fn lacks_memory(&self) -> bool
        ensures { result ≡ self.now.lacks_memory }
    {
        self.lacks_memory
    }

    /// Notes what became of a command that the node of this number took, if it took one.
    fn note(&mut self, number: u8, fate: Option<CommandFate>)
        ensures { Adds self.old (fates_told number fate) self.new }
    {
        let Some(fate) = fate else {
            return;
        };
        if self.told.push(Told { node: number, fate }).is_err() {
            self.lacks_memory = true;
        }
    }
}

impl Watch<KvDriver> for CommandWatch {
    ghost use Rattle.std.specs.Prelude.{◌≡◌};
    ghost use Rattle.scp_notices.specs.inside.Watching.{is_slot_take, notes_step};

    ghost notes_before = { λ old _ event _ new. new ≡ record old { is_slot_take = is_slot_take event } };

    ghost notes_after = { notes_step };

    fn before(&mut self, _number: u8, event: &Event, _node: &Node) {
        self.is_slot_take = matches!(event, Event::SlotTake);
    }

    fn after(&mut self, number: u8, reply: &Reply, node: &Node) {
        if self.is_slot_take && matches!(reply, Reply::Moved) {
            self.note(number, node.last_command());
        }
    }
}

impl LineWatch for CommandWatch {
    ghost use Rattle.std.specs.Prelude.{◌≡◌};
    ghost use Rattle.scp_notices.specs.inside.Watching.{notes_line};

    ghost notes_begin = { λ old _ _ _ new. new ≡ old };

    ghost notes_end = { notes_line };

    fn begin_line(&mut self, _line: usize, _command: &Command, _nodes: &[Node]) {}

    fn end_line(&mut self, line: usize, _command: &Command, calm: bool, _nodes: &[Node]) {
        if !calm && self.cut.push(line).is_err() {
            self.lacks_memory = true;
        }
    }
}
