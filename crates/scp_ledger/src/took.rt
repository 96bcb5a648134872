//! What a ledger answers.

use crate::journal::Verdict;
use crate::shared::SharedDecision;
use scp_pending::below::wire::Message;
use scp_slot::below::envelope::SharedEnvelope;
use scp_slot::below::types::Slot;
use std::marker::Model;

/// What goes on to the applier.
#[derive(Drop)]
pub enum Onward {
    /// A slot was decided.
    Decided(SharedDecision),
    /// The sender of this link asks for the slot's record. A sender that is no peer is given as the number of peers.
    Asked { link: u8, slot: Slot },
}

/// What goes out to peers.
#[derive(Drop)]
pub enum Outgoing {
    /// An own statement, for each peer.
    ToAll(SharedEnvelope),
    /// A message for the link of this number.
    To(u8, Message),
}

/// What goes out, in order. Each message fits a link. Contracts see the list.
#[derive(Drop)]
pub struct OutgoingList(Vec<Outgoing>);

impl Model for OutgoingList {
    ghost use Rattle.std.specs.Coded.{codes};
    ghost use Rattle.scp_slot.specs.scp_xdr.specs.inside.TreeModel.{coded_row};
    ghost use Rattle.scp_slot.specs.scp_quorum.specs.inside.QuorumTree.{coded_level};
    ghost use Rattle.std.specs.Prelude.{List};
    ghost use Rattle.scp_ledger.specs.declared.took.Outgoing.{Outgoing};
    ghost use Rattle.std.specs.Prelude.{All};
    ghost use Rattle.scp_ledger.specs.Fitting.{FitsOut};

    ghost Value = { List Outgoing };

    ghost coded = { Prim.hlevel (codes, coded_row coded_level) };

    ghost view = { λ o. o.0.items };

    ghost invariant = { λ o. All FitsOut o.0.items };
}

impl OutgoingList {
    ghost use Rattle.std.specs.Prelude.{◌≡◌, All};
    ghost use Rattle.scp_ledger.specs.Fitting.{FitsOut};

    /// The list of these. Moves them and takes no memory.
    pub(crate) fn new(outgoing: Vec<Outgoing>) -> OutgoingList
        requires fits { All FitsOut outgoing.items }
        ensures { result ≡ outgoing.items }
    {
        OutgoingList(outgoing)
    }

    /// Gives the list back. Takes no memory.
    pub fn into_vec(self) -> Vec<Outgoing>
        ensures same { result.items ≡ self }
        ensures fits { All FitsOut self }
    {
        let OutgoingList(inside) = self;
        inside
    }

    /// What goes out, as a slice.
    pub fn as_slice(&self) -> &[Outgoing]
        ensures same { result.now ≡ self.now }
        ensures fits { All FitsOut self.now }
    {
        self.0.as_slice()
    }
}

/// What became of a command.
#[derive(Clone, Copy, PartialEq, Eq)]
pub enum CommandFate {
    /// Its slot is below the lowest undecided one.
    OldSlot,
    /// Its slot is above 4,294,967,295, or 16 or more above the lowest undecided one.
    FarSlot,
    /// Its slot has a decision. For an ask also: it is below the lowest undecided one.
    Decided,
    /// The proposal isn't fully validated.
    BadValue,
    /// A proposal for the slot was kept before.
    ProposedBefore,
    /// The proposal is kept.
    Proposed,
    /// All rounds of nomination are used up.
    NoRoundLeft,
    /// A round of nomination was added.
    RoundAdded,
    /// The timer ran out, and there is no ballot yet.
    NoBallot,
    /// The timer ran out and no own ballot statement goes out, though there is a ballot; for instance, its counter is at the maximum.
    BallotStays,
    /// The timer ran out, and an own ballot statement goes out.
    BallotMoved,
    /// The link was asked for the slot before.
    AskedBefore,
    /// The link is asked for the slot.
    Asked,
}

/// What came of a thing that was taken.
#[derive(Drop)]
pub struct Took {
    /// The verdict on a message or a command. A Tick has none, and nothing else has one.
    pub verdict: Option<Verdict>,
    /// What became of a command. A Tick has none, and nothing else has one.
    pub command: Option<CommandFate>,
    /// What goes on to the applier, if anything does.
    pub onward: Option<Onward>,
    /// What goes out to peers: own statements for all of them, and a fresh ask's request for its link.
    pub outgoing: OutgoingList,
}
