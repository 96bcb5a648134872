//! Messages that fit a link.
ghost use Rattle.std.specs.Prelude.{◌≡◌, ◌↔◌, ◌≤◌, length, IfOk, IfErr, IsOk, IsTrue};
ghost use Rattle.scp_quorum.specs.scp_xdr.specs.Kind.{Fits, numbered, spelling};
ghost use Rattle.scp_quorum.specs.scp_xdr.specs.Length.{spelled_len};
ghost use Rattle.scp_quorum.specs.scp_xdr.specs.Shared.{value_kind};
ghost use Rattle.scp_quorum.specs.scp_xdr.specs.Words.{Leaves};
ghost use Rattle.scp_wire.specs.Fitting.{IsFitting};

use crate::codec::BATCH_LIMIT;
use crate::message::Message;
use scp_quorum::below::types::{VALUE_LIMIT, Value};
use scp_quorum::below::xdr::{Xdr, numbered_fits, spend_array, spend_u64};
use std::marker::Model;

/// The most bytes of an envelope, a quorum set or a batch in a link message: 65,536 without the 4 of its kind (this project's
/// profile).
const PART_LIMIT: usize = 65_532;

/// A message that breaks no limit of a link message: `encode` never refuses it as too long. Contracts see the message.
#[derive(Drop)]
pub struct FittingMessage {
    message: Message,
}

impl Model for FittingMessage {
    ghost use Rattle.std.specs.Coded.{codes};
    ghost use Rattle.scp_quorum.specs.scp_xdr.specs.inside.TreeModel.{coded_row};
    ghost use Rattle.scp_quorum.specs.inside.QuorumTree.{coded_level};
    ghost use Rattle.scp_wire.specs.declared.message.Message.{Message};
    ghost use Rattle.scp_wire.specs.Fitting.{IsFitting};

    ghost Value = { Message };

    ghost coded = { Prim.hlevel (codes, coded_row coded_level) };

    ghost view = { λ m. m.message };

    ghost invariant = { λ m. IsFitting m.message };
}

impl FittingMessage {
    /// The message, if it fits: a record's value has at most 4,096 bytes, and an envelope, a quorum set or a batch keeps its
    /// own limits and has at most 65,532 bytes. Else the message is handed back. Takes no memory, and time in proportion to the
    /// message.
    pub fn new(message: Message) -> Result<FittingMessage, Message>
        // It is made exactly where the message fits.
        ensures exact { IsOk result ↔ IsFitting message }
        // It is this message.
        ensures same { IfOk result (λ made. made ≡ message) }
        // Else the message comes back.
        ensures handed_back { IfErr result (λ back. back ≡ message) }
    {
        if is_fitting(&message) {
            Ok(FittingMessage { message })
        } else {
            Err(message)
        }
    }

    /// The message, for a caller that knows that it fits: nothing is tested.
    pub fn of(message: Message) -> FittingMessage
        requires fits { IsFitting message }
        ensures same { result ≡ message }
    {
        FittingMessage { message }
    }

    /// The message.
    pub fn get(&self) -> &Message
        ensures same { result.now ≡ self.now }
        // It breaks no limit.
        ensures fits { IsFitting self.now }
    {
        &self.message
    }

    /// The message. Takes no memory.
    pub fn into_inner(self) -> Message
        ensures same { result ≡ self }
        // It breaks no limit.
        ensures fits { IsFitting self }
    {
        self.message
    }
}

/// Whether the message breaks no limit.
fn is_fitting(message: &Message) -> bool
    ensures { IsTrue result ↔ IsFitting message.now }
{
    match message {
        Message::Envelope(envelope) => is_part(envelope.get()),
        Message::Set(set) => is_part(set),
        Message::Record(_, value) => value.as_slice().len() <= VALUE_LIMIT,
        Message::Records { first, values } => is_batch(first.0, values.as_slice()),
        Message::GetSet(_) | Message::NoSet(_) | Message::GetRecord(_) => true,
    }
}

/// Whether the value keeps the limits of its kind, and has few enough bytes.
fn is_part<T: Xdr>(part: &T) -> bool
    ensures { IsTrue result ↔ (Fits T.kind (T.value part.now) × (length (spelling T.kind (T.value part.now)) ≤ PART_LIMIT)) }
{
    part.fits() && part.spend(PART_LIMIT).is_some()
}

/// Whether the batch keeps its limits, and has few enough bytes.
#[tactic(auto, using(crate::proofs::Room::within_room))]
fn is_batch(first: u64, values: &[Value]) -> bool
    ensures { IsTrue result ↔ (Fits (numbered BATCH_LIMIT value_kind) (first, values.now) × (length (spelling (numbered BATCH_LIMIT value_kind) (first, values.now)) ≤ PART_LIMIT)) }
{
    numbered_fits(BATCH_LIMIT, first, values) && spend_batch(first, values, PART_LIMIT).is_some()
}

/// Takes the length of the batch's encoding off the room.
fn spend_batch(first: u64, values: &[Value], room: usize) -> Option<usize>
    ensures { Leaves room result (spelled_len (numbered BATCH_LIMIT value_kind) (first, values.now)) }
{
    let _number = first;
    spend_array(values, spend_u64(room)?)
}
