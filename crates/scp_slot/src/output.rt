//! What goes into the machine of a slot, and what comes out of it.
ghost use Rattle.std.specs.Prelude.{◌≡◌};
ghost use Rattle.scp_slot.specs.Takes.{quiet};

use scp_ballot::Certified;
use scp_nominate::below::envelope::SharedEnvelope;
use scp_nominate::below::quorum::SaneSet;
use scp_nominate::below::types::Value;
use std::sync::Arc;

/// What the machine of a slot takes.
#[derive(Drop)]
pub enum SlotInput {
    /// This node proposes a value.
    Propose(Value),
    /// One more round of nomination.
    Round,
    /// The ballot timer ran out.
    Timer,
    /// An envelope of the slot, with the quorum set that it names.
    Envelope(SharedEnvelope, Arc<SaneSet>),
}

/// What was found about an input.
#[derive(Clone, Copy, PartialEq, Eq)]
pub enum Verdict {
    /// It was taken in.
    Fresh,
    /// An envelope that isn't newer than the newest of its node and kind.
    Stale,
    /// An envelope of this node itself.
    Own,
    /// An envelope whose statement isn't sane.
    BadStatement,
    /// A ballot statement with an invalid value, or a proposal that isn't fully validated.
    BadValue,
    /// A proposal or a round that changed nothing, a timer after which nothing is emitted, or an input after the decision.
    Idle,
}

/// The own statements that changed, without signatures; the nomination statement comes first.
#[derive(Drop)]
pub struct Emitted {
    pub nomination: Option<SharedEnvelope>,
    pub ballot: Option<SharedEnvelope>,
}

/// What comes out of an input.
#[derive(Drop)]
pub struct SlotOutput {
    pub verdict: Verdict,
    pub emitted: Emitted,
    /// The decision, at the input that makes the own ballot statement an EXTERNALIZE.
    pub decided: Option<Certified>,
    /// Whether the last call of the ballots stopped its rules at their limit; false before the first call.
    pub more: bool,
}

impl SlotOutput {
    /// Only the verdict, and nothing else.
    pub(crate) fn quiet(verdict: Verdict, more: bool) -> SlotOutput
        ensures { result ≡ quiet verdict more }
    {
        SlotOutput {
            verdict,
            emitted: Emitted {
                nomination: None,
                ballot: None,
            },
            decided: None,
            more,
        }
    }
}
