//! The machine's inputs.
ghost use Rattle.std.specs.Prelude.{◌≡◌, ◌≢◌, ◌+◌, ◌⊎◌, ◌↔◌, None, Some, IsSome, IsSomeAnd, IsTrue, IfOk, IfSome, IfNone, OnOk, IsOkUnless};
ghost use Rattle.scp_ballot_rules.specs.Own.{counter_of};
ghost use Rattle.scp_ballot_rules.specs.Ready.{IsReady};
ghost use Rattle.scp_ballot_rules.specs.inside.Rules.{Composes, IsChange};
ghost use Rattle.scp_ballot_rules.specs.Steps.{Answers};
ghost use Rattle.scp_ballot_rules.specs.Inputs.{Time};
ghost use Rattle.scp_ballot_rules.specs.Told.{ballots_on};
ghost use Rattle.scp_ballot_rules.specs.declared.state.Phase.TheVariants.{Prepare};
ghost use Rattle.scp_ballot_rules.specs.scp_vote.specs.Board.{kind_of_pledges};
ghost use Rattle.scp_ballot_rules.specs.scp_vote.specs.declared.claim.StatementKind.TheVariants.{Balloting};
ghost use Rattle.scp_ballot.specs.inside.Machine.{IsAtRest};
ghost use Rattle.scp_ballot.specs.inside.Inputs.{Times, CannotRaise};

use crate::balloted::Balloted;
use crate::machine::Machine;
use crate::raise::{raise_confirming, raise_preparing};
use scp_ballot_rules::below::envelope::{Envelope, SharedEnvelope};
use scp_ballot_rules::below::quorum::SaneSet;
use scp_ballot_rules::below::types::{Ballot, Fault, SharedValue, Value};
use scp_ballot_rules::below::vote::{StatementKind, kind_of_pledges};
use scp_ballot_rules::{Phase, State, counter, me_of, put_ballot};
use std::sync::Arc;

/// The current ballot; if there is none, the first one, of this value.
fn first_ballot(present: &Option<Ballot>, value: &SharedValue) -> Result<Option<Ballot>, Fault>
    ensures first { IfOk result (λ first. ((first ≡ present.now) × IsSome present.now) ⊎ ((present.now ≡ None) × (first ≡ Some (record { counter = 1; value = value.now })))) }
    ensures only_memory { IsOkUnless result Fault.NoMemory }
{
    match present {
        Some(present) => {
            let copied = present.copy()?;
            Ok(Some(copied))
        }
        None => {
            let value = value.share()?;
            Ok(Some(Ballot { counter: 1, value }))
        }
    }
}

/// In the phase Prepare: the state with this composite, and with a first ballot of it if there was none.
fn compose(state: &State, value: SharedValue) -> Result<State, Fault>
    ensures composes { IfOk result (λ next. Composes value state.now next) }
    ensures only_memory { IsOkUnless result Fault.NoMemory }
{
    let present = first_ballot(&state.present, &value)?;
    let copied = state.copy()?;
    Ok(State {
        present,
        composite: Some(value),
        ..copied
    })
}

/// What a composite makes of the state; `None` in the later phases, which have no use for it.
fn composed(state: &State, value: SharedValue) -> Result<Option<State>, Fault>
    ensures composes { IfOk result (λ found. IfSome found (λ next. (state.now.phase ≡ Prepare) × Composes value state.now next)) }
    ensures none { IfOk result (λ found. IfNone found (state.now.phase ≡ Prepare → ⊥)) }
    ensures only_memory { IsOkUnless result Fault.NoMemory }
{
    match state.phase {
        Phase::Prepare => {
            let next = compose(state, value)?;
            Ok(Some(next))
        }
        _ => Ok(None),
    }
}

/// What a timer makes of the state: a counter one higher, unless it is the greatest or there is no value for a ballot.
fn timed(state: &State) -> Result<Option<State>, Fault>
    ensures raises { IfOk result (λ found. IfSome found (λ next. Times state.now next)) }
    ensures none { IfOk result (λ found. IfNone found (CannotRaise state.now)) }
    ensures exact { IfOk result (λ found. Answers (λ s t. Time s t) state.now found) }
    ensures only_memory { IsOkUnless result Fault.NoMemory }
{
    let counter = counter(&state.present);
    if counter == u32::MAX {
        return Ok(None);
    }
    match state.phase {
        Phase::Prepare => match raise_preparing(state, counter + 1)? {
            Some(next) => Ok(Some(next)),
            None => Ok(None),
        },
        Phase::Confirm => match raise_confirming(state, counter + 1)? {
            Some(next) => Ok(Some(next)),
            None => Ok(None),
        },
        Phase::Externalize => Ok(None),
    }
}

/// Whether it is a ballot statement.
fn is_ballot(envelope: &Envelope) -> bool
    ensures { IsTrue result ↔ (kind_of_pledges envelope.now.statement.pledges ≡ Balloting) }
{
    kind_of_pledges(&envelope.statement.pledges) == StatementKind::Balloting
}

impl Machine {
    ghost use Rattle.scp_ballot.specs.inside.Inputs.{TakesComposite, TakesTimer, IsHeardBy, HearsOne, TakesStatement};
    ghost use Rattle.scp_ballot.specs.inside.Gives.{Gives};

    /// Takes a composite from nomination.
    pub(crate) fn candidate(&mut self, value: Value) -> Result<Balloted, Fault>
        requires rest { IsAtRest self.old }
        ensures takes { IfOk result (λ given. TakesComposite value self.old self.new given) }
        ensures only_memory { IsOkUnless result Fault.NoMemory }
    {
        let value = SharedValue::new(self.alloc, value)?;
        let first = composed(&self.state, value)?;
        let given = self.advance(first)?;
        Ok(given)
    }

    /// A timer went off.
    pub(crate) fn timer(&mut self) -> Result<Balloted, Fault>
        requires rest { IsAtRest self.old }
        ensures takes { IfOk result (λ given. TakesTimer self.old self.new given) }
        ensures only_memory { IsOkUnless result Fault.NoMemory }
    {
        let first = timed(&self.state)?;
        let given = self.advance(first)?;
        Ok(given)
    }

    /// Whether the statement is put on the board: it is another node's ballot statement of this slot, and nothing
    /// is externalized yet.
    fn is_heard(&self, envelope: &Envelope) -> bool
        ensures { IsTrue result ↔ IsHeardBy self.now envelope.now }
    {
        envelope.statement.node != me_of(&self.board)
            && envelope.statement.slot == self.slot
            && is_ballot(envelope)
            && self.state.phase != Phase::Externalize
    }

    /// Puts such a statement on the board, and ignores any other.
    fn hear(&mut self, envelope: SharedEnvelope, delivered: Arc<SaneSet>) -> Result<(), Fault>
        ensures hears { OnOk result (HearsOne self.old self.new envelope delivered.value) }
        ensures only_memory { IsOkUnless result Fault.NoMemory }
    {
        if !self.is_heard(envelope.get()) {
            return Ok(());
        }
        put_ballot(&mut self.board, envelope, delivered)?;
        Ok(())
    }

    /// Takes another node's statement, with the quorum set that was delivered with it.
    pub(crate) fn take(
        &mut self,
        envelope: SharedEnvelope,
        delivered: Arc<SaneSet>,
    ) -> Result<Balloted, Fault>
        requires rest { IsAtRest self.old }
        ensures takes { IfOk result (λ given. TakesStatement envelope delivered.value self.old self.new given) }
        ensures only_memory { IsOkUnless result Fault.NoMemory }
    {
        self.hear(envelope, delivered)?;
        let given = self.advance(None)?;
        Ok(given)
    }
}
