//! A parked message.
ghost use Rattle.std.specs.Prelude.{◌≡◌, ◌∷◌, [], IfOk, IsOkUnless, IfSome, Some, None, true, option_map};
ghost use Rattle.scp_pending.specs.Rules.{is_given_up};
ghost use Rattle.scp_wire.specs.scp_quorum.specs.QuorumKind.{set_hash};
ghost use Rattle.scp_pending.specs.Queues.{named as named_by, hash_of, is_hash, waits_for as waits, waited_by, waits as is_waiting_one, lane_of, is_at, seq_of, resolved_one, lost_by, with_set};
ghost use Rattle.scp_wire.specs.Lanes.{slot_of};
ghost use Rattle.scp_pending.specs.Messages.{IsParkedAs};
ghost use Rattle.scp_pending.specs.inside.Outcome.{outcome_of, HasHash};

use crate::ready::{Delivery, DropCause};
use scp_fetch::Fetcher;
use scp_wire::below::quorum::SaneSet;
use scp_wire::below::types::{ConnId, Fault, Hash, NodeId, Seq, Slot};
use scp_wire::{Carried, FittingMessage, Message};
use std::sync::Arc;

/// A parked message. It leaves once it waits for nothing and nothing of its lane stays before it; or with all that is parked of
/// its connection, when that ends.
#[derive(Drop)]
pub(crate) enum Parked {
    /// An envelope whose quorum set is unknown.
    Waits(Carried),
    /// It waits for nothing.
    Free(Delivery),
    /// It will be dropped, for this cause.
    Lost(Carried, DropCause),
}

/// What becomes of the envelopes that wait for a hash.
#[derive(Drop)]
pub(crate) enum Outcome {
    /// This is their quorum set.
    Has(Arc<SaneSet>),
    /// They are lost.
    Lost(DropCause),
}

/// The hash of the quorum set that an envelope names; no other message names one.
pub(crate) fn named(message: &Message) -> Option<Hash>
    ensures { result ≡ named_by message.now }
{
    match message {
        Message::Envelope(envelope) => Some(envelope.set_hash()),
        _ => None,
    }
}

/// Whether the message names a quorum set with this hash.
fn names(message: &Message, hash: &Hash) -> bool
    ensures { result ≡ is_hash hash.now (named_by message.now) }
{
    match named(message) {
        Some(other) => *hash == other,
        None => false,
    }
}

/// The slot that a carried message names; a side message names none.
pub(crate) fn slot_in(message: &Message) -> Slot
    ensures { result.0 ≡ slot_of message.now }
{
    match message {
        Message::Envelope(envelope) => envelope.get().statement.slot,
        Message::GetRecord(slot) => *slot,
        Message::Record(slot, _) => *slot,
        Message::GetSet(_) | Message::Set(_) | Message::NoSet(_) | Message::Records { .. } => Slot(
            0,
        ),
    }
}

impl Parked {
    /// A filler, for the place from which a message was taken out. Takes no memory.
    pub(crate) fn nothing() -> Parked {
        let nobody = NodeId([0; 32]);
        Parked::Lost(
            Carried {
                conn: ConnId {
                    from: nobody,
                    to: nobody,
                    life: 0,
                },
                seq: Seq(0),
                message: FittingMessage::of(Message::GetRecord(Slot(0))),
            },
            DropCause::Closed,
        )
    }

    /// The message. Takes no memory.
    pub(crate) fn into_message(self) -> Carried
        ensures { IsParkedAs self result }
    {
        match self {
            Parked::Waits(carried) => carried,
            Parked::Free(delivery) => delivery.into_carried(),
            Parked::Lost(carried, _cause) => carried,
        }
    }

    /// The slot that it names, which with its connection is its lane.
    pub(crate) fn slot(&self) -> Slot
        ensures { result.0 ≡ lane_of self.now }
    {
        match self {
            Parked::Waits(carried) => slot_in(carried.message.get()),
            Parked::Free(delivery) => slot_in(delivery.message()),
            Parked::Lost(carried, _) => slot_in(carried.message.get()),
        }
    }

    pub(crate) fn is_at(&self, slot: Slot) -> bool
        ensures { result ≡ is_at slot.0 self.now }
    {
        self.slot() == slot
    }

    pub(crate) fn seq(&self) -> Seq
        ensures { result ≡ seq_of self.now }
    {
        match self {
            Parked::Waits(carried) => carried.seq,
            Parked::Free(delivery) => delivery.seq(),
            Parked::Lost(carried, _) => carried.seq,
        }
    }

    /// Whether it waits for its quorum set.
    pub(crate) fn waits(&self) -> bool
        ensures { result ≡ is_waiting_one self.now }
    {
        match self {
            Parked::Waits(_) => true,
            Parked::Free(_) | Parked::Lost(..) => false,
        }
    }

    /// The hash that it waits for.
    pub(crate) fn waited(&self) -> Option<Hash>
        ensures { result ≡ waited_by self.now }
    {
        match self {
            Parked::Waits(carried) => named(carried.message.get()),
            Parked::Free(_) | Parked::Lost(..) => None,
        }
    }

    /// Whether it waits for a quorum set with this hash.
    pub(crate) fn waits_for(&self, hash: &Hash) -> bool
        ensures { result ≡ waits hash.now self.now }
    {
        match self {
            Parked::Waits(carried) => names(carried.message.get(), hash),
            Parked::Free(_) | Parked::Lost(..) => false,
        }
    }
}

impl Parked {
    /// What it becomes when those that wait for the hash have their outcome. The only refusal is `NoMemory`.
    pub(crate) fn settled(self, hash: &Hash, outcome: &Outcome) -> Result<Parked, Fault>
        requires hash { HasHash (Some hash.now) outcome.now }
        ensures { IfOk result (λ parked. parked ≡ resolved_one (is_hash hash.now) (outcome_of outcome.now) self) }
    {
        let Parked::Waits(carried) = self else {
            return Ok(self);
        };
        if names(carried.message.get(), hash) {
            outcome.of(carried)
        } else {
            Ok(Parked::Waits(carried))
        }
    }

    /// What it becomes when those are lost whose hashes one more miss gives up.
    pub(crate) fn given_up(self, fetcher: &Fetcher) -> Parked
        ensures { result ≡ resolved_one (is_given_up fetcher.now) (lost_by DropCause.GaveUp) self }
    {
        let Parked::Waits(carried) = self else {
            return self;
        };
        match named(carried.message.get()) {
            Some(hash) if fetcher.is_at_last_miss(&hash) => {
                Parked::Lost(carried, DropCause::GaveUp)
            }
            _ => Parked::Waits(carried),
        }
    }
}

impl Outcome {
    /// What becomes of an envelope.
    fn of(&self, carried: Carried) -> Result<Parked, Fault>
        requires named { HasHash (named_by carried.message) self.now }
        ensures made { IfOk result (λ parked. parked ≡ outcome_of self.now carried) }
        ensures only_memory { IsOkUnless result Fault.NoMemory }
    {
        match self {
            Outcome::Has(set) => Ok(Parked::Free(Delivery::with_set(
                carried,
                Arc::try_clone(set)?,
            ))),
            Outcome::Lost(cause) => Ok(Parked::Lost(carried, *cause)),
        }
    }
}
