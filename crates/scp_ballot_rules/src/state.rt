//! The state of a node's ballots.
ghost use Rattle.std.specs.Prelude.{◌≡◌, IfOk, IsOkUnless, None};

use crate::own::{copy_some, share_value};
use scp_vote::below::types::{Ballot, Fault, SharedValue};

/// How far the ballots of a slot have come.
#[derive(Clone, Copy, PartialEq, Eq)]
pub enum Phase {
    Prepare,
    Confirm,
    Externalize,
}

/// What a node keeps of its ballots besides the board (the SCP draft).
#[derive(Drop)]
pub struct State {
    pub phase: Phase,
    /// The current ballot.
    pub present: Option<Ballot>,
    /// The highest ballot that is accepted as prepared.
    pub prepared: Option<Ballot>,
    /// The highest ballot below `prepared`, and incompatible with it, that is accepted as prepared.
    pub prime: Option<Ballot>,
    /// The highest ballot that is confirmed as prepared.
    pub confirmed: Option<Ballot>,
    /// The high end of the range of commit.
    pub high: Option<Ballot>,
    /// The low end of the range of commit.
    pub low: Option<Ballot>,
    /// The composite that nomination gave.
    pub composite: Option<SharedValue>,
}

impl State {
    ghost use Rattle.scp_ballot_rules.specs.Own.{IsBlank};

    /// The state before any input.
    pub fn blank() -> State
        ensures blank { IsBlank result }
        ensures composite { result.composite ≡ None }
    {
        State {
            phase: Phase::Prepare,
            present: None,
            prepared: None,
            prime: None,
            confirmed: None,
            high: None,
            low: None,
            composite: None,
        }
    }

    /// Another state with the same fields, which shares their values. The only refusal is `Fault::NoMemory`.
    pub fn copy(&self) -> Result<State, Fault>
        ensures same { IfOk result (λ copied. copied ≡ self.now) }
        ensures only_memory { IsOkUnless result Fault.NoMemory }
    {
        Ok(State {
            phase: self.phase,
            present: copy_some(&self.present)?,
            prepared: copy_some(&self.prepared)?,
            prime: copy_some(&self.prime)?,
            confirmed: copy_some(&self.confirmed)?,
            high: copy_some(&self.high)?,
            low: copy_some(&self.low)?,
            composite: share_value(&self.composite)?,
        })
    }
}
