//! The journal's entries, and the decisions that they make.

use crate::quorum::Quorum;
use scp_pending::DropCause;
use scp_pending::below::wire::{Cause, Message};
use scp_slot::below::envelope::SharedEnvelope;
use scp_slot::below::quorum::SaneSet;
use scp_slot::below::types::{ConnId, Seq, Slot, Value};
use std::cmp::Ordering;
use std::sync::Arc;

/// The most entries that a journal may have (this project's profile).
pub const JOURNAL_LIMIT: usize = 1_000_000;

/// What the slot stage found of a message or a command that it took.
#[derive(Clone, Copy, PartialEq, Eq)]
pub enum Verdict {
    /// The slot of an envelope or a command is below the lowest undecided one.
    OldSlot,
    /// The slot is above 4,294,967,295, or 16 or more above the lowest undecided one.
    FarSlot,
    /// The slot has a decision. For a record or an ask also: it is below the lowest undecided one.
    Already,
    /// A record came over a link that wasn't asked for its slot.
    Unasked,
    /// The envelope's statement is the node's own.
    Own,
    /// The envelope's statement isn't sane.
    BadStatement,
    /// A ballot statement has an invalid value, or a proposal isn't fully validated.
    BadValue,
    /// The envelope isn't newer than the last fresh one of its node, slot and kind.
    Stale,
    /// A command changed nothing, or the link had been asked for the slot before.
    Idle,
    /// An envelope is newer than all earlier fresh ones of its node, slot and kind. Of a command: it
    /// changed something. Of an ask: its link is asked for the slot now.
    Fresh,
    /// A request for a record goes on to the applier.
    Forwarded,
    /// A record decided its slot.
    Decided,
}

/// An entry of the journal: what became of a carried message, or the end of a connection.
#[derive(Drop)]
pub enum Fate {
    /// The message of this number on its connection was taken.
    Taken {
        conn: ConnId,
        seq: Seq,
        message: Message,
        /// The quorum set that an envelope names; other messages have none.
        set: Option<Arc<SaneSet>>,
        verdict: Verdict,
    },
    /// The message of this number on its connection was dropped.
    Dropped {
        conn: ConnId,
        seq: Seq,
        cause: DropCause,
    },
    /// The connection ended.
    Closed {
        conn: ConnId,
        cause: Cause,
    },
}

/// What a decision rests on.
#[derive(Drop)]
pub enum Origin {
    /// This node's machine of the slot: the counter of the commit, a quorum that accepts it, and the own EXTERNALIZE.
    Machine {
        n: u32,
        quorum: Quorum,
        own: SharedEnvelope,
    },
    /// The record of this number on this connection named the value.
    Named {
        conn: ConnId,
        seq: Seq,
    },
}

/// The value of a slot, and what the decision rests on.
#[derive(Drop)]
pub struct Decision {
    pub slot: Slot,
    pub value: Value,
    pub origin: Origin,
}

/// A link that was asked for the record of a slot. Higher slots come first, so what is looked for is near the front.
#[derive(Clone, Copy, PartialEq, Eq)]
pub struct Asking {
    pub slot: Slot,
    pub link: u8,
}

impl PartialOrd for Asking {
    ghost use Rattle.std.specs.Ordering.{nat_cmp, on, flip_args, then_cmp, as_partial_cmp};
    ghost use Rattle.std.specs.Cmp.{partial_order_from_own_ties};
    ghost use Rattle.std.specs.Cmp.Rules.{comparing};
    ghost use Rattle.std.proofs.Common.{rules};

    ghost partial_cmp = { as_partial_cmp (then_cmp (flip_args (on (λ a. a.slot.0) nat_cmp)) (on (λ a. a.link) nat_cmp)) };

    ghost laws = { partial_order_from_own_ties (Prim.search (comparing, rules)) (Prim.search (comparing, rules)) };

    fn partial_cmp(&self, other: &Asking) -> Option<Ordering> {
        Some(self.cmp(other))
    }
}

impl Ord for Asking {
    ghost use Rattle.std.specs.Ordering.{nat_cmp, on, flip_args, then_cmp};
    ghost use Rattle.std.specs.Cmp.Rules.{comparing};
    ghost use Rattle.std.proofs.Common.{rules};

    ghost cmp = { then_cmp (flip_args (on (λ a. a.slot.0) nat_cmp)) (on (λ a. a.link) nat_cmp) };

    ghost total = { Prim.search (comparing, rules) };

    ghost matches_partial_cmp = { Prim.search (comparing, rules) };

    ghost matches_eq = { Prim.search (comparing, rules) };

    fn cmp(&self, other: &Asking) -> Ordering {
        other.slot.cmp(&self.slot).then(self.link.cmp(&other.link))
    }
}
