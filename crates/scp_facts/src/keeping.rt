//! A watch that keeps what happens at nodes, for their accounts.
//!
//! What it keeps is no function of the facts: an account lists what came over a link in its order, with each opening and closing at its
//! place, and the facts tell these only when the stages take them. Nor are the facts a function of what is kept, which has nothing of what the
//! stages made of a message. So there are two watches.
ghost use Rattle.std.specs.Prelude.{◌≡◌, [], false, true, IfOk};
ghost use Rattle.scp_facts.specs.Kept.{taken_by};
ghost use Rattle.scp_facts.specs.Keeping.{awaited, happens};
ghost use Rattle.scp_facts.specs.inside.Keeping.{Adds};

use crate::before::command_in;
use crate::happening::{Happening, Kept};
use scp_turn::below::types::Fault;
use scp_turn::{Command, Event, KvDriver, Node, Reply, Watch};
use std::alloc::Global;
use std::marker::Model;

/// What is known of a step before it is done.
#[derive(Drop)]
pub enum Awaited {
    /// Nothing is kept of it.
    Nothing,
    /// This happens if the event is accepted.
    AtTail(Happening),
    /// It drains this link.
    Drain(u8),
    /// The slot stage takes something, which may be this command. The journal has this number of entries.
    Take(usize, Option<Command>),
}

/// A watch that keeps what happens at nodes, in the order of the steps.
pub struct KeepingWatch {
    kept: Vec<Kept>,
    awaited: Awaited,
    /// Whether it ran out of memory for what happened.
    lacks_memory: bool,
}

// (written out, so that whoever drops one has one call to prove)
impl Drop for KeepingWatch {
    fn drop(self) {
        let KeepingWatch {
            kept: _,
            awaited: _,
            lacks_memory: _,
        } = self;
    }
}

impl Model for KeepingWatch {
    ghost use Rattle.scp_facts.specs.Keeping.{WatchView};

    ghost Value = { WatchView };

    ghost view = { λ w. record { kept = w.kept.items; awaited = w.awaited; lacks_memory = w.lacks_memory } };
}

/// What is known of a step before it is done. The only refusal is `NoMemory`.
fn awaited_of(event: &Event, node: &Node) -> Result<Awaited, Fault>
    ensures { IfOk result (λ found. found ≡ awaited event.now node.now) }
{
    Ok(match event {
        Event::Open(link) => Awaited::AtTail(Happening::Opened(*link)),
        Event::Send(link, bytes) => Awaited::AtTail(Happening::Came(*link, bytes.copy()?)),
        Event::Close(link) => Awaited::AtTail(Happening::Closed(*link)),
        Event::Local(command) => Awaited::AtTail(Happening::Given(command.copy()?)),
        Event::Drain(link) => Awaited::Drain(*link),
        Event::SlotTake => Awaited::Take(node.journal().len(), command_in(node.next_ready())?),
        _ => Awaited::Nothing,
    })
}

/// What the slot stage took, which may be this command. The journal had this number of entries before.
fn taken(entries: usize, command: Option<Command>, node: &Node) -> Option<Happening>
    ensures { result ≡ taken_by entries command node.now }
{
    if entries < node.journal().len() {
        return Some(Happening::Entered);
    }
    match (command, node.last_command()) {
        (Some(command), Some(fate)) => Some(Happening::Obeyed(command, fate)),
        _ => None,
    }
}

/// What happened in a step. The only refusal is `NoMemory`.
fn happening_of(awaited: Awaited, reply: &Reply, node: &Node) -> Result<Option<Happening>, Fault>
    ensures { IfOk result (λ found. found ≡ happens awaited reply.now node.now) }
{
    Ok(match (awaited, reply) {
        (Awaited::AtTail(happening), Reply::Accepted) => Some(happening),
        (Awaited::Drain(link), Reply::Sent(bytes)) => Some(Happening::Sent(link, bytes.copy()?)),
        (Awaited::Take(entries, command), Reply::Moved) => taken(entries, command, node),
        _ => None,
    })
}

impl KeepingWatch {
    /// A watch that kept nothing.
    pub fn new(alloc: Global) -> KeepingWatch
        ensures { result ≡ record { kept = []; awaited = Awaited.Nothing; lacks_memory = false } }
    {
        KeepingWatch {
            kept: Vec::new(alloc),
            awaited: Awaited::Nothing,
            lacks_memory: false,
        }
    }

    /// Whether it ran out of memory for what happened.
    pub fn lacks_memory(&self) -> bool
        ensures { result ≡ self.now.lacks_memory }
    {
        self.lacks_memory
    }

    /// What was kept.
    pub fn into_kept(self) -> Vec<Kept>
        ensures { result.items ≡ self.kept }
    {
        let KeepingWatch {
            kept,
            awaited: _,
            lacks_memory: _,
        } = self;
        kept
    }

    /// Keeps what happened at the node of this number, if anything did.
    fn keep(&mut self, number: u8, happening: Option<Happening>)
        ensures { Adds self.old number happening self.new }
    {
        let Some(happening) = happening else {
            return;
        };
        let node = number;
        if self.kept.push(Kept { node, happening }).is_err() {
            self.lacks_memory = true;
        }
    }
}

impl Watch<KvDriver> for KeepingWatch {
    ghost use Rattle.scp_facts.specs.Keeping.{Awaits, KeepsStep};

    ghost notes_before = { Awaits };

    ghost notes_after = { KeepsStep };

    fn before(&mut self, _number: u8, event: &Event, node: &Node) {
        match awaited_of(event, node) {
            Ok(awaited) => self.awaited = awaited,
            Err(_) => self.lacks_memory = true,
        }
    }

    fn after(&mut self, number: u8, reply: &Reply, node: &Node) {
        let awaited = std::mem::replace(&mut self.awaited, Awaited::Nothing);
        match happening_of(awaited, reply, node) {
            Ok(happening) => self.keep(number, happening),
            Err(_) => self.lacks_memory = true,
        }
    }
}
