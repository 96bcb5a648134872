//! Who tells what happens at nodes.
ghost use Rattle.std.specs.Prelude.{◌≡◌, ◌++◌, [], false, true, IfOk, OnOk, map};
ghost use Rattle.scp_facts.specs.Telling.{of_node};
ghost use Rattle.scp_facts.specs.Watching.{awaited as awaited_by, happens, BeginsLine};
ghost use Rattle.scp_facts.specs.inside.Adding.{Adds};

use crate::before::{asked_in, command_in, conn_of_bytes, conn_on, none, one, pending_tells};
use crate::behind::{applier_tells, discarded, drained, offered, slot_tells};
use crate::fact::{Fact, FactList, Telling, Told};
use scp_turn::below::types::{ConnId, Fault, Slot};
use scp_turn::{Command, Event, KvDriver, Node, Reply, Watch};
use std::alloc::Global;
use std::marker::Model;

/// What is known of a step before it is done.
#[derive(Drop)]
pub enum Awaited {
    /// It tells nothing.
    Nothing,
    /// This is told where it is accepted.
    Offer(FactList),
    /// The reader of this link takes something, which may be bytes of this connection.
    Read(u8, Option<ConnId>),
    /// This is told where it moves something.
    Move(FactList),
    /// The slot stage takes something, which may be this command; there are so many entries and decisions.
    Decide(usize, usize, Option<Command>),
    /// The applier takes something, which may be this request; so much is applied.
    Apply(usize, Option<(u8, Slot)>),
    /// It drains this link.
    Drain(u8),
}

/// Tells what happens at nodes, in the order of the steps, and which line is done.
#[derive(Drop)]
pub struct FactWatch {
    alloc: Global,
    tellings: Vec<Telling>,
    awaited: Awaited,
    /// Whether there was no memory for what happened.
    lacks_memory: bool,
}

impl Model for FactWatch {
    ghost use Rattle.std.specs.Coded.{codes};
    ghost use Rattle.scp_turn.specs.scp_xdr.specs.inside.TreeModel.{coded_row};
    ghost use Rattle.scp_turn.specs.scp_quorum.specs.inside.QuorumTree.{coded_level};
    ghost use Rattle.scp_facts.specs.Watching.{WatchView};

    ghost Value = { WatchView };

    ghost coded = { Prim.hlevel (codes, coded_row coded_level) };

    ghost view = { λ w. record { tellings = w.tellings.items; awaited = w.awaited; lacks_memory = w.lacks_memory } };
}

/// What is known of a step before it is done: bytes and messages are copied. The one refusal is want of memory.
fn awaited_of(alloc: Global, event: &Event, node: &Node) -> Result<Awaited, Fault>
    ensures { IfOk result (λ found. found ≡ awaited_by event.now node.now) }
{
    Ok(match event {
        Event::Open(_) | Event::Close(_) => Awaited::Offer(none(alloc)),
        Event::Send(link, bytes) => {
            let conn = conn_on(node, *link);
            Awaited::Offer(one(alloc, Fact::Came(conn, bytes.copy()?))?)
        }
        Event::Local(command) => Awaited::Offer(one(alloc, Fact::Given(command.copy()?))?),
        Event::ReaderTake(link) => Awaited::Read(*link, conn_of_bytes(node.next_item(*link))),
        Event::PendTake => Awaited::Move(pending_tells(alloc, node)?),
        Event::SlotTake => {
            let command = command_in(node.next_ready())?;
            Awaited::Decide(node.journal().len(), node.decisions().len(), command)
        }
        Event::ApplyTake => Awaited::Apply(node.applied().len(), asked_in(node.next_onward())),
        Event::Drain(link) => Awaited::Drain(*link),
        Event::ReaderPut(_) | Event::PendPut | Event::SlotPut => Awaited::Nothing,
    })
}

/// What happened in a step. The one refusal is want of memory.
fn facts_of(alloc: Global, awaited: Awaited, reply: &Reply, node: &Node) -> Result<Vec<Fact>, Fault>
    ensures { IfOk result (λ facts. facts.items ≡ happens awaited reply.now node.now) }
{
    match (awaited, reply) {
        (Awaited::Offer(facts), _) => offered(alloc, facts, reply),
        (Awaited::Drain(link), _) => drained(alloc, link, reply),
        (Awaited::Read(link, conn), Reply::Moved) => discarded(alloc, conn, node.has_read(link)),
        (Awaited::Move(facts), Reply::Moved) => Ok(facts.into_vec()),
        (Awaited::Decide(entries, decisions, command), Reply::Moved) => {
            slot_tells(alloc, entries, decisions, command, node)
        }
        (Awaited::Apply(before, asked), Reply::Moved) => applier_tells(alloc, before, asked, node),
        _ => Ok(Vec::new(alloc)),
    }
}

/// Adds these facts, as of the node of this number.
fn add_all(tellings: &mut Vec<Telling>, number: u8, facts: Vec<Fact>) -> Result<(), Fault>
    ensures { OnOk result (tellings.new.items ≡ tellings.old.items ++ map (of_node number) facts.items) }
{
    for fact in facts {
        let node = number;
        tellings.push(Telling::Of(Told { node, fact }))?;
    }
    Ok(())
}

impl FactWatch {
    /// A watch that told nothing.
    pub fn new(alloc: Global) -> FactWatch
        ensures { result ≡ record { tellings = []; awaited = Awaited.Nothing; lacks_memory = false } }
    {
        FactWatch {
            alloc,
            tellings: Vec::new(alloc),
            awaited: Awaited::Nothing,
            lacks_memory: false,
        }
    }

    /// Whether there was no memory for what happened.
    pub fn lacks_memory(&self) -> bool
        ensures { result ≡ self.now.lacks_memory }
    {
        self.lacks_memory
    }

    /// What was told.
    pub fn into_tellings(self) -> Vec<Telling>
        ensures { result.items ≡ self.tellings }
    {
        self.tellings
    }

    /// Tells that the line of this number is done next.
    pub fn begin_line(&mut self, line: usize)
        ensures { BeginsLine self.old line self.new }
    {
        if self.tellings.push(Telling::Line(line)).is_err() {
            self.lacks_memory = true;
        }
    }

    /// Tells what happened at the node of this number.
    fn tell(&mut self, number: u8, facts: Vec<Fact>)
        ensures { Adds self.old number facts.items self.new }
    {
        if add_all(&mut self.tellings, number, facts).is_err() {
            self.lacks_memory = true;
        }
    }
}

impl Watch<KvDriver> for FactWatch {
    ghost use Rattle.scp_facts.specs.Watching.{Awaits, TellsStep};

    ghost notes_before = { Awaits };

    ghost notes_after = { TellsStep };

    fn before(&mut self, _number: u8, event: &Event, node: &Node) {
        match awaited_of(self.alloc, event, node) {
            Ok(awaited) => self.awaited = awaited,
            Err(_) => self.lacks_memory = true,
        }
    }

    fn after(&mut self, number: u8, reply: &Reply, node: &Node) {
        let awaited = std::mem::replace(&mut self.awaited, Awaited::Nothing);
        match facts_of(self.alloc, awaited, reply, node) {
            Ok(facts) => self.tell(number, facts),
            Err(_) => self.lacks_memory = true,
        }
    }
}
