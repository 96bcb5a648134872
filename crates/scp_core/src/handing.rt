//! What stages hand out for links, put into the outboxes, and what is sent out of them.
ghost use Rattle.std.specs.Prelude.{◌≡◌, ◌∷◌, [], ◌++◌, IfOk, OnOk, OnErr, All, Any, IfSome};
ghost use Rattle.scp_theorem.specs.scp_wire.specs.Fitting.{IsFitting};
ghost use Rattle.scp_theorem.specs.scp_ledger.specs.Fitting.{FitsOut};
ghost use Rattle.scp_theorem.specs.scp_ledger.specs.Journals.{IsToAll};
ghost use Rattle.scp_core.specs.Node.{Hands, HandsOne, HandsEach, said_by, said_in as said_among};
ghost use Rattle.scp_core.specs.inside.Draining.{Draws, IsSpelt, empty_reply};

use crate::event::Reply;
use crate::said::SaidList;
use scp_theorem::below::envelope::SharedEnvelope;
use scp_theorem::below::ledger::{Outgoing, OutgoingList};
use scp_theorem::below::outbox::Outboxes;
use scp_theorem::below::types::Fault;
use scp_theorem::below::wire::{BoxedEnvelope, Bytes, FittingMessage, Message, encode};
use std::alloc::Global;

/// Puts a stage's answer for a link into that link's outbox.
pub fn hand_out(outboxes: &mut Outboxes, answer: Option<(u8, Message)>)
    requires fits { IfSome answer (λ sent. IsFitting sent.1) }
    ensures { Hands outboxes.old answer outboxes.new }
{
    match answer {
        Some((link, message)) => hand(outboxes, link, message),
        None => {}
    }
}

fn hand(outboxes: &mut Outboxes, link: u8, message: Message)
    requires fits { IsFitting message }
    ensures { HandsOne outboxes.old (Outgoing.To link message) outboxes.new }
{
    outboxes.put(link, FittingMessage::of(message));
}

/// Puts all that goes out into the outboxes, in order, and gives the own statements among it. If a copy of what goes to all peers is refused,
/// some outboxes have it and others don't.
pub fn hand_out_all(outboxes: &mut Outboxes, outgoing: OutgoingList) -> Result<SaidList, Fault>
    ensures said { IfOk result (λ said. said ≡ said_among outgoing) }
    ensures hands { OnOk result (HandsEach outboxes.old outgoing outboxes.new) }
    ensures to_all { OnErr result (Any IsToAll outgoing) }
{
    let outgoing = outgoing.into_vec();
    let alloc = *outgoing.allocator();
    match said_in(alloc, outgoing.as_slice()) {
        Ok(said) => match hand_out_rest(outboxes, outgoing) {
            Ok(()) => Ok(said),
            Err(fault) => Err(fault),
        },
        Err(fault) => Err(fault),
    }
}

/// The own statements for all peers among what goes out, in order, each shared, so nothing is copied. Refused only if there is such a statement.
fn said_in(alloc: Global, outgoing: &[Outgoing]) -> Result<SaidList, Fault>
    ensures said { IfOk result (λ said. said ≡ said_among outgoing.now) }
    ensures to_all { OnErr result (Any IsToAll outgoing.now) }
{
    let mut said = Vec::new(alloc);
    for one in outgoing {
        if let Err(fault) = add_said(&mut said, one) {
            return Err(fault);
        }
    }
    Ok(SaidList::new(said))
}

/// Adds the own statement, if this goes to all peers.
fn add_said(said: &mut Vec<SharedEnvelope>, outgoing: &Outgoing) -> Result<(), Fault>
    ensures adds { OnOk result (said.new.items ≡ said.old.items ++ said_by outgoing.now) }
    ensures to_all { OnErr result (IsToAll outgoing.now) }
{
    match outgoing {
        Outgoing::ToAll(envelope) => add_shared(said, envelope),
        Outgoing::To(..) => Ok(()),
    }
}

/// Adds the statement, shared.
fn add_shared(said: &mut Vec<SharedEnvelope>, envelope: &SharedEnvelope) -> Result<(), Fault>
    ensures { OnOk result (said.new.items ≡ said.old.items ++ envelope.now ∷ []) }
{
    said.push(envelope.share()?)?;
    Ok(())
}

/// The same for a list, whose last element comes last.
fn hand_out_rest(outboxes: &mut Outboxes, outgoing: Vec<Outgoing>) -> Result<(), Fault>
    requires fits { All FitsOut outgoing.items }
    ensures hands { OnOk result (HandsEach outboxes.old outgoing.items outboxes.new) }
    ensures to_all { OnErr result (Any IsToAll outgoing.items) }
{
    let mut rest = outgoing;
    let Some(last) = rest.pop() else {
        return Ok(());
    };
    match hand_out_rest(outboxes, rest) {
        Ok(()) => hand_out_one(outboxes, last),
        Err(fault) => Err(fault),
    }
}

fn hand_out_one(outboxes: &mut Outboxes, outgoing: Outgoing) -> Result<(), Fault>
    requires fits { FitsOut outgoing }
    ensures hands { OnOk result (HandsOne outboxes.old outgoing outboxes.new) }
    ensures to_all { OnErr result (IsToAll outgoing) }
{
    match outgoing {
        Outgoing::ToAll(envelope) => hand_to_all(outboxes, envelope),
        Outgoing::To(link, message) => {
            hand(outboxes, link, message);
            Ok(())
        }
    }
}

fn hand_to_all(outboxes: &mut Outboxes, envelope: SharedEnvelope) -> Result<(), Fault>
    requires fits { FitsOut (Outgoing.ToAll envelope) }
    ensures hands { OnOk result (HandsOne outboxes.old (Outgoing.ToAll envelope) outboxes.new) }
{
    let boxed = BoxedEnvelope::from_shared(envelope);
    let fitting = FittingMessage::of(Message::Envelope(boxed));
    outboxes.put_all(&fitting)
}

/// What is next in the link's outbox, as bytes.
pub fn draw(alloc: Global, outboxes: &mut Outboxes, link: u8) -> Reply
    ensures { Draws outboxes.old link result outboxes.new }
{
    match outboxes.next(link) {
        Some(message) => spell(alloc, &message),
        None => empty(outboxes.len(), link),
    }
}

fn spell(alloc: Global, message: &Message) -> Reply
    ensures { IsSpelt message.now result }
{
    match encode(alloc, message) {
        Ok(bytes) => Reply::Sent(Bytes::new(bytes)),
        Err(_) => Reply::NoMemory,
    }
}

/// Why a link gives nothing: nothing waits, or there is no such link.
fn empty(count: usize, link: u8) -> Reply
    ensures { result ≡ empty_reply count link }
{
    if (link as usize) < count {
        Reply::Idle
    } else {
        Reply::NoLink
    }
}
