//! What stages hand out for links, put into the links' outboxes.
ghost use Rattle.std.specs.Prelude.{◌≡◌, [], ◌∷◌, IfSome, OnOk};
ghost use Rattle.scp_theorem.specs.scp_wire.specs.Fitting.{IsFitting};
ghost use Rattle.scp_theorem.specs.scp_ledger.specs.Fitting.{FitsOut};
ghost use Rattle.scp_theorem.specs.Handed.{out_of};
ghost use Rattle.scp_workers.specs.Handing.{FitsOuts, outgoing_of};
ghost use Rattle.scp_workers.specs.Working.{AreSameOutlets};
ghost use Rattle.scp_workers.specs.inside.Handing.{PutsOut, PutsAt};

use crate::stage::Outs;
use scp_shared_outbox::Putter;
use scp_theorem::below::envelope::SharedEnvelope;
use scp_theorem::below::ledger::{Outgoing, OutgoingList};
use scp_theorem::below::types::Fault;
use scp_theorem::below::wire::{BoxedEnvelope, FittingMessage, Message};
use std::sync::Wait;

/// An answer for a link, or none.
pub(crate) fn answered(answer: Option<(u8, Message)>) -> Outs
    requires { IfSome answer (λ sent. IsFitting sent.1) }
    ensures fits { FitsOuts result }
    ensures made { outgoing_of result ≡ out_of answer }
{
    match answer {
        Some((link, message)) => Outs::Answer(link, message),
        None => Outs::Nothing,
    }
}

/// Puts what a stage hands out into the links' outboxes, in order: a message into that of its link, and what is for all into each. What is
/// for a link that isn't there is dropped. If memory for sharing what is for all runs out, some links have it and others don't.
pub(crate) fn hand_out<R: Wait>(rt: &R, outlets: &mut Vec<Putter>, outs: Outs) -> Result<(), Fault>
    requires fits { FitsOuts outs }
    ensures same { AreSameOutlets outlets.old.items outlets.new.items }
    ensures puts { OnOk result (PutsOut (outgoing_of outs) outlets.old.items outlets.new.items) }
{
    match outs {
        Outs::Nothing => Ok(()),
        Outs::Answer(link, message) => {
            hand(rt, outlets, link, message);
            Ok(())
        }
        Outs::All(outgoing) => hand_out_all(rt, outlets, outgoing),
    }
}

/// Puts a message into the outbox of one link.
fn hand<R: Wait>(rt: &R, outlets: &mut Vec<Putter>, link: u8, message: Message)
    requires fits { IsFitting message }
    ensures same { AreSameOutlets outlets.old.items outlets.new.items }
    ensures puts { PutsOut (Outgoing.To link message ∷ []) outlets.old.items outlets.new.items }
{
    put_at(rt, outlets, link, FittingMessage::of(message));
}

fn put_at<R: Wait>(rt: &R, outlets: &mut Vec<Putter>, link: u8, message: FittingMessage)
    ensures { PutsAt outlets.old.items link message outlets.new.items }
{
    if let Some(outlet) = outlets.get_mut(link as usize) {
        outlet.put(rt, message);
    }
}

/// Puts all that goes out, in order.
fn hand_out_all<R: Wait>(
    rt: &R,
    outlets: &mut Vec<Putter>,
    outgoing: OutgoingList,
) -> Result<(), Fault>
    ensures same { AreSameOutlets outlets.old.items outlets.new.items }
    ensures puts { OnOk result (PutsOut outgoing outlets.old.items outlets.new.items) }
{
    for one in outgoing.into_vec() {
        hand_out_one(rt, outlets, one)?;
    }
    Ok(())
}

fn hand_out_one<R: Wait>(rt: &R, outlets: &mut Vec<Putter>, outgoing: Outgoing) -> Result<(), Fault>
    requires fits { FitsOut outgoing }
    ensures same { AreSameOutlets outlets.old.items outlets.new.items }
    ensures puts { OnOk result (PutsOut (outgoing ∷ []) outlets.old.items outlets.new.items) }
{
    match outgoing {
        Outgoing::ToAll(envelope) => hand_to_all(rt, outlets, &envelope),
        Outgoing::To(link, message) => {
            hand(rt, outlets, link, message);
            Ok(())
        }
    }
}

/// Puts an own statement into the outbox of each link, shared.
fn hand_to_all<R: Wait>(
    rt: &R,
    outlets: &mut Vec<Putter>,
    envelope: &SharedEnvelope,
) -> Result<(), Fault>
    requires fits { FitsOut (Outgoing.ToAll envelope.now) }
    ensures same { AreSameOutlets outlets.old.items outlets.new.items }
    ensures puts { OnOk result (PutsOut (Outgoing.ToAll envelope.now ∷ []) outlets.old.items outlets.new.items) }
{
    for outlet in outlets.iter_mut() {
        let boxed = BoxedEnvelope::from_shared(envelope.share()?);
        outlet.put(rt, FittingMessage::of(Message::Envelope(boxed)));
    }
    Ok(())
}
