//! The outboxes of a node.
ghost use Rattle.std.specs.Prelude.{◌≡◌, ◌<◌, length, IfOk, OnOk, IsOkUnless, IfSome, replicate};
ghost use Rattle.scp_wire.specs.Fitting.{IsFitting};
ghost use Rattle.scp_outbox.specs.Outbox.{Puts};
ghost use Rattle.scp_outbox.specs.Handing.{empty_outbox, HandsOut, to_link, to_each, GivesNext, GivesAt, waiting_at, overwritten_at};
ghost use Rattle.scp_outbox.specs.inside.Putting.{PutsAt};

use crate::{Out, Outbox};
use scp_wire::below::types::Fault;
use scp_wire::{FittingMessage, Message};
use std::alloc::Global;
use std::marker::Model;

/// The outbox of a live link in which no mark waits.
#[derive(Drop)]
struct LiveOutbox {
    outbox: Outbox,
}

impl Model for LiveOutbox {
    ghost use Rattle.scp_outbox.specs.Outbox.{OutboxView};

    ghost Value = { OutboxView };

    ghost use Rattle.std.specs.Coded.{codes};
    ghost use Rattle.scp_wire.specs.scp_xdr.specs.inside.TreeModel.{coded_row};
    ghost use Rattle.scp_wire.specs.scp_quorum.specs.inside.QuorumTree.{coded_level};

    ghost coded = { Prim.hlevel (codes, coded_row coded_level) };

    ghost view = { λ a. a.outbox };

    ghost use Rattle.scp_outbox.specs.inside.Putting.{IsLive};

    ghost invariant = { λ a. IsLive a.outbox };
}

impl LiveOutbox {
    fn new(alloc: Global) -> Result<LiveOutbox, Fault>
        ensures empty { IfOk result (λ o. o ≡ empty_outbox) }
        ensures only_memory { IsOkUnless result Fault.NoMemory }
    {
        let outbox = Outbox::new(alloc, true)?;
        Ok(LiveOutbox { outbox })
    }

    /// Lets a message wait.
    fn put(&mut self, message: FittingMessage)
        ensures { Puts self.old message self.new }
    {
        self.outbox.put(message);
    }

    /// The message that is next, if there is one.
    fn next(&mut self) -> Option<Message>
        ensures gives { GivesNext self.old result self.new }
        ensures fits { IfSome result IsFitting }
    {
        match self.outbox.next() {
            Out::Message(message) => Some(message),
            Out::Mark(_) => None,
            Out::Nothing => None,
        }
    }
}

/// An outbox for each link of a node; all links are live. Contracts see the list of what waits in each.
#[derive(Drop)]
pub struct Outboxes(Vec<LiveOutbox>);

impl Model for Outboxes {
    ghost use Rattle.std.specs.Prelude.{List};
    ghost use Rattle.scp_outbox.specs.Outbox.{OutboxView};

    ghost Value = { List OutboxView };

    ghost use Rattle.std.specs.Coded.{codes};
    ghost use Rattle.scp_wire.specs.scp_xdr.specs.inside.TreeModel.{coded_row};
    ghost use Rattle.scp_wire.specs.scp_quorum.specs.inside.QuorumTree.{coded_level};

    ghost coded = { Prim.hlevel (codes, coded_row coded_level) };

    ghost view = { λ a. a.0.items };
}

impl Outboxes {
    /// `count` outboxes, in which nothing waits. They take all the memory that they ever need. The only refusal is
    /// `Fault::NoMemory`.
    pub fn new(alloc: Global, count: usize) -> Result<Outboxes, Fault>
        // Nothing waits.
        ensures made { IfOk result (λ outboxes. outboxes ≡ replicate count empty_outbox) }
        // The only refusal is `NoMemory`.
        ensures only_memory { IsOkUnless result Fault.NoMemory }
    {
        Ok(Outboxes(new_outboxes(alloc, count)?))
    }

    /// How many there are.
    pub fn len(&self) -> usize
        ensures { result ≡ length self.now }
    {
        self.0.len()
    }

    /// How many messages wait for a link; 0 for a link that isn't there.
    pub fn waiting(&self, link: u8) -> usize
        ensures { result ≡ waiting_at self.now link }
    {
        match self.0.get(link as usize) {
            Some(outbox) => outbox.outbox.len(),
            None => 0,
        }
    }

    /// How many own statements for a link were lost before they were given, as `Outbox::overwritten` counts them; 0 for a link
    /// that isn't there.
    pub fn overwritten(&self, link: u8) -> u64
        ensures { result ≡ overwritten_at self.now link }
    {
        match self.0.get(link as usize) {
            Some(outbox) => outbox.outbox.overwritten(),
            None => 0,
        }
    }

    /// Puts a message for one link into that link's outbox; if there is no such link, the message is dropped. Is never
    /// refused, takes no memory and waits for nobody. Costs what `Outbox::put` costs.
    pub fn put(&mut self, link: u8, message: FittingMessage)
        // It is put there, and the other outboxes stay.
        ensures puts { HandsOut self.old (to_link link message) self.new }
    {
        // by its type it fits
        let _ = message.get();
        put_at(&mut self.0, link, message);
    }

    /// Puts copies of a message for all links. The only refusal is `Fault::NoMemory`, of a copy; then some outboxes have
    /// the message, and others don't.
    pub fn put_all(&mut self, message: &FittingMessage) -> Result<(), Fault>
        // It is put into each outbox.
        ensures puts { OnOk result (HandsOut self.old (to_each message.now) self.new) }
        // The only refusal is `NoMemory`.
        ensures only_memory { IsOkUnless result Fault.NoMemory }
    {
        put_each(&mut self.0, message)
    }

    /// What is next at the link, out of its outbox: a message that fits a link, or none; a link that isn't there gives none.
    /// Takes no memory.
    pub fn next(&mut self, link: u8) -> Option<Message>
        // It is what that outbox gives.
        ensures gives { GivesAt self.old link result self.new }
        // It fits a link.
        ensures fits { IfSome result IsFitting }
    {
        next_at(&mut self.0, link)
    }
}

fn put_at(outboxes: &mut Vec<LiveOutbox>, link: u8, message: FittingMessage)
    ensures { PutsAt outboxes.old.items link message outboxes.new.items }
{
    if let Some(outbox) = outboxes.get_mut(link as usize) {
        outbox.put(message);
    }
}

fn put_each(outboxes: &mut Vec<LiveOutbox>, message: &FittingMessage) -> Result<(), Fault>
    ensures puts { OnOk result (HandsOut outboxes.old.items (to_each message.now) outboxes.new.items) }
    ensures only_memory { IsOkUnless result Fault.NoMemory }
{
    // by its type it fits
    let _ = message.get();
    for outbox in outboxes.iter_mut() {
        outbox.put(copy(message)?);
    }
    Ok(())
}

fn copy(message: &FittingMessage) -> Result<FittingMessage, Fault>
    ensures same { IfOk result (λ copied. copied ≡ message.now) }
    ensures only_memory { IsOkUnless result Fault.NoMemory }
{
    Ok(FittingMessage::of(message.get().copy()?))
}

fn next_at(outboxes: &mut Vec<LiveOutbox>, link: u8) -> Option<Message>
    ensures gives { GivesAt outboxes.old.items link result outboxes.new.items }
    ensures fits { IfSome result IsFitting }
{
    outboxes.get_mut(link as usize)?.next()
}

fn new_outboxes(alloc: Global, count: usize) -> Result<Vec<LiveOutbox>, Fault>
    ensures made { IfOk result (λ outboxes. outboxes.items ≡ replicate count empty_outbox) }
    ensures only_memory { IsOkUnless result Fault.NoMemory }
{
    let mut outboxes = Vec::new(alloc);
    for _ in 0..count {
        outboxes.push(LiveOutbox::new(alloc)?)?;
    }
    Ok(outboxes)
}
