//! What is known of a script that is being read, after some of its commands.
ghost use Rattle.std.specs.Prelude.{◌≡◌, ◌++◌, ◌∷◌, ◌↔◌, ◌||◌, [], List, IsTrue, false};
ghost use Rattle.scp_script.specs.declared.command.Command.{Command};
ghost use Rattle.scp_script.specs.declared.command.Command.TheVariants.{Open};
ghost use Rattle.scp_script.specs.Script.{counted, begins, Admits};
ghost use Rattle.scp_script.specs.Nodes.{NamesNodes};
ghost use Rattle.scp_script.specs.Reading.{KnowsLinks, Knows};

use crate::command::Command;
use crate::links::{Link, Links};
use scp_wire::below::types::LIFE_LIMIT;

/// What is known of a script that is being read.
#[derive(Drop)]
pub struct Known {
    /// How many nodes there are: none before the `nodes` line.
    pub count: u8,
    /// Whether a line came that is neither `caps` nor `nodes` nor `set`.
    pub has_begun: bool,
    pub links: Links,
}

impl Known {
    /// Nothing was read.
    pub fn new() -> Known
        ensures { Knows result [] }
    {
        Known {
            count: 0,
            has_begun: false,
            links: Links::new(),
        }
    }

    /// Whether the link may be opened here.
    fn admits_open(&self, from: u8, to: u8) -> bool
        requires names { NamesNodes (Open from to) }
        ensures { (before : List Command) → Knows self.now before → (IsTrue result ↔ Admits before (Open from to)) }
    {
        let link = self.links.get(from, to);
        from <= self.count && to <= self.count && !link.is_open && link.lives < LIFE_LIMIT
    }

    /// Whether the command may stand here.
    fn admits(&self, command: &Command) -> bool
        requires names { NamesNodes command.now }
        ensures { (before : List Command) → Knows self.now before → (IsTrue result ↔ Admits before command.now) }
    {
        match command {
            Command::Caps(_) | Command::Nodes { .. } => self.count == 0,
            Command::Set { node, set } => *node <= self.count && !self.has_begun && set.is_sane(),
            Command::Open { from, to } => self.admits_open(*from, *to),
            Command::Close { from, to } | Command::Send { from, to, .. } => {
                self.links.get(*from, *to).is_open
            }
            Command::Ask { from, to, .. } => *from <= self.count && *to <= self.count,
            Command::Propose { node, .. }
            | Command::Round { node, .. }
            | Command::Timer { node, .. }
            | Command::Tick(node)
            | Command::Wait { node, .. }
            | Command::Report(node) => *node <= self.count,
            Command::Settle => 0 < self.count,
        }
    }

    /// Records in the table what the command does to its link.
    fn note_link(&mut self, command: &Command)
        requires names { NamesNodes command.now }
        ensures links { (before : List Command) → KnowsLinks self.old.links before → Admits before command.now → KnowsLinks self.new.links (before ++ command.now ∷ []) }
        ensures rest { self.new ≡ record self.old { links = self.new.links } }
    {
        match command {
            Command::Open { from, to } => {
                // A link that may be opened has fewer than `LIFE_LIMIT`.
                let lives = self.links.get(*from, *to).lives.saturating_add(1);
                let link = Link {
                    is_open: true,
                    lives,
                };
                self.links.put(*from, *to, link);
            }
            Command::Close { from, to } => {
                let lives = self.links.get(*from, *to).lives;
                let link = Link {
                    is_open: false,
                    lives,
                };
                self.links.put(*from, *to, link);
            }
            _ => {}
        }
    }

    /// Records how many nodes there are, and whether a line came that is neither `caps` nor `nodes` nor `set`.
    fn note(&mut self, command: &Command)
        ensures count { self.new.count ≡ counted self.old.count command.now }
        ensures begun { self.new.has_begun ≡ (self.old.has_begun || begins command.now) }
        ensures rest { self.new ≡ record self.old { count = self.new.count; has_begun = self.new.has_begun } }
    {
        match command {
            Command::Nodes { count, .. } => self.count = *count,
            Command::Caps(_) | Command::Set { .. } => {}
            _ => self.has_begun = true,
        }
    }

    /// Takes in a command, and returns whether it may stand here. If it may not, nothing changes.
    pub fn take(&mut self, command: &Command) -> bool
        requires names { NamesNodes command.now }
        ensures good { (before : List Command) → Knows self.old before → (IsTrue result ↔ Admits before command.now) }
        ensures known { (before : List Command) → Knows self.old before → IsTrue result → Knows self.new (before ++ command.now ∷ []) }
        ensures same { result ≡ false → self.new ≡ self.old }
    {
        if !self.admits(command) {
            return false;
        }
        self.note(command);
        self.note_link(command);
        true
    }
}
