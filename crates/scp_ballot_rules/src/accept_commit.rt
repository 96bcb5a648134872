//! Rule 3: what is accepted as committed.
ghost use Rattle.std.specs.Prelude.{◌≡◌, ◌≢◌, ◌<◌, ◌≤◌, ◌⊎◌, ◌↔◌, Contains, Some, None, Option, IsSomeAnd, IsTrue, IfOk, IfSome, IfNone, IsOkUnless};
ghost use Rattle.std.specs.Option.{ForSome};
ghost use Rattle.scp_vote.specs.scp_types.specs.declared.ballot.Ballot.{Ballot};
ghost use Rattle.scp_vote.specs.Board.{Accepted};
ghost use Rattle.scp_ballot_rules.specs.Order.{AtMost};
ghost use Rattle.scp_ballot_rules.specs.Ready.{IsConfirming};
ghost use Rattle.scp_ballot_rules.specs.Rules.{AcceptsCommit, Grows};
ghost use Rattle.scp_ballot_rules.specs.Rests.{CommitsNone, CommitsNoHigher};
ghost use Rattle.scp_ballot_rules.specs.declared.state.Phase.TheVariants.{Confirm};
ghost use Rattle.scp_ballot_rules.specs.Told.{ballots_on};
ghost use Rattle.scp_ballot_rules.specs.Finding.{AreBoundaries};
ghost use Rattle.scp_ballot_rules.specs.inside.Finding.{IsReachedRange, IsExactRange, KeepsHeld, Reaches};
ghost use Rattle.scp_ballot_rules.specs.declared.finding.Bound.TheVariants.{Of};
ghost use Rattle.scp_ballot_rules.specs.AcceptCommit.{IsHeldOf, AcceptCommit};
ghost use Rattle.scp_ballot_rules.specs.Steps.{Answers};
ghost use Rattle.scp_ballot_rules.specs.declared.state.Phase.TheVariants.{Prepare};
ghost use Rattle.scp_ballot_rules.specs.declared.told.Stage.TheVariants.{Acceptance};

use crate::finding::{Bound, is_less};
use crate::range::{Range, reached_range};
use crate::told::Stage;
use crate::{Phase, State, copy_some, counter};
use scp_vote::Board;
use scp_vote::below::types::{Ballot, Fault, SharedValue};

/// A copy of the ballot if it has the value.
fn copy_of_value(ballot: &Option<Ballot>, value: &SharedValue) -> Result<Option<Ballot>, Fault>
    ensures copied { IfOk result (λ copied. (IsSomeAnd ballot.now (λ x. x.value ≡ value.now) × (copied ≡ ballot.now)) ⊎ ((copied ≡ None) × ForSome ballot.now (λ x. x.value ≢ value.now))) }
    ensures only_memory { IsOkUnless result Fault.NoMemory }
{
    match ballot {
        Some(ballot) if ballot.value == *value => {
            let copied = ballot.copy()?;
            Ok(Some(copied))
        }
        _ => Ok(None),
    }
}

/// The higher of the accepted ballots that have the value.
fn held_of(state: &State, value: &SharedValue) -> Result<Option<Ballot>, Fault>
    ensures kept { IfOk result (λ held. KeepsHeld state.now value.now held) }
    ensures exact { IfOk result (λ held. IsHeldOf value.now state.now held) }
    ensures only_memory { IsOkUnless result Fault.NoMemory }
{
    let held = copy_of_value(&state.prepared, value)?;
    if held.is_some() {
        return Ok(held);
    }
    let prime = copy_of_value(&state.prime, value)?;
    Ok(prime)
}

/// The current ballot; or the high end, if the current one is absent, less or incompatible with it.
fn at_least(present: &Option<Ballot>, high: &Ballot) -> Result<Ballot, Fault>
    ensures reaches { IfOk result (λ new. Reaches present.now high.now new) }
    ensures only_memory { IsOkUnless result Fault.NoMemory }
{
    match present {
        Some(present) if !is_less(present, high) && present.value == high.value => {
            let copied = present.copy()?;
            Ok(copied)
        }
        _ => {
            let copied = high.copy()?;
            Ok(copied)
        }
    }
}

/// The state in the phase Confirm with this range, and this ballot as the highest accepted as prepared.
fn with_range(state: &State, range: Range, prepared: Option<Ballot>) -> Result<State, Fault>
    ensures made { IfOk result (λ next. IsSomeAnd next.present (λ p. Reaches state.now.present range.high p) × (next ≡ record state.now { phase = Confirm; present = next.present; prepared = prepared; prime = None; high = Some range.high; low = Some range.low })) }
    ensures only_memory { IsOkUnless result Fault.NoMemory }
{
    let Range { low, high } = range;
    let present = at_least(&state.present, &high)?;
    let copied = state.copy()?;
    Ok(State {
        phase: Phase::Confirm,
        present: Some(present),
        prepared,
        prime: None,
        high: Some(high),
        low: Some(low),
        ..copied
    })
}

/// In the phase Prepare: the state with the first range of commit that is accepted, or `None` if there is none.
pub fn accept_commit(
    board: &Board,
    state: &State,
    boundaries: &[Ballot],
) -> Result<Option<State>, Fault>
    requires all { AreBoundaries (ballots_on board.now) boundaries.now }
    ensures step { IfOk result (λ next. IfSome next (λ next. AcceptsCommit (ballots_on board.now) state.now next)) }
    ensures rests { IfOk result (λ next. IfNone next (CommitsNone (ballots_on board.now))) }
    ensures exact { state.now.phase ≡ Prepare → IfOk result (λ next. Answers (AcceptCommit Prepare (ballots_on board.now)) state.now next) }
    ensures only_memory { IsOkUnless result Fault.NoMemory }
{
    match reached_range(board, Stage::Acceptance, &Bound::Any, 0, boundaries)? {
        Some(range) => {
            let held = held_of(state, &range.high.value)?;
            let next = with_range(state, range, held)?;
            Ok(Some(next))
        }
        None => Ok(None),
    }
}

/// The accepted range of this low end's value that reaches above the high end, if there is one.
fn higher_range(
    board: &Board,
    state: &State,
    boundaries: &[Ballot],
    low: &Ballot,
) -> Result<Option<Range>, Fault>
    requires counted { (x : Ballot) → Contains boundaries.now x → x.counter ≢ 0 }
    ensures range { IfOk result (λ found. IfSome found (λ range. IsReachedRange Acceptance (ballots_on board.now) range × (counter_of state.now.high < range.high.counter) × (range.high.value ≡ low.now.value))) }
    ensures exact { IfOk result (λ found. IfSome found (λ range. IsExactRange Acceptance (ballots_on board.now) (Of low.now.value) (counter_of state.now.high) boundaries.now range)) }
    ensures none { IfOk result (λ found. IfNone found ((x : Ballot) → Contains boundaries.now x → counter_of state.now.high < x.counter → x.value ≡ low.now.value → Accepted (ballots_on board.now) (Committed x.counter x.counter x.value) → ⊥)) }
    ensures only_memory { IsOkUnless result Fault.NoMemory }
{
    let bound = Bound::Of(low.value.share()?);
    let floor = counter(&state.high);
    let found = reached_range(board, Stage::Acceptance, &bound, floor, boundaries)?;
    Ok(found)
}

/// In the phase Confirm: the state with the accepted range of the same value that reaches above the high end, or `None`
/// if there is none.
pub fn accept_higher(
    board: &Board,
    state: &State,
    boundaries: &[Ballot],
) -> Result<Option<State>, Fault>
    requires all { AreBoundaries (ballots_on board.now) boundaries.now }
    requires ready { IsConfirming state.now }
    ensures step { IfOk result (λ next. IfSome next (λ next. AcceptsCommit (ballots_on board.now) state.now next × Grows state.now next)) }
    ensures rests { IfOk result (λ next. IfNone next (CommitsNoHigher (ballots_on board.now) state.now)) }
    ensures exact { IfOk result (λ next. Answers (AcceptCommit Confirm (ballots_on board.now)) state.now next) }
    ensures only_memory { IsOkUnless result Fault.NoMemory }
{
    match &state.low {
        Some(low) => match higher_range(board, state, boundaries, low)? {
            Some(range) => {
                let prepared = copy_some(&state.prepared)?;
                let next = with_range(state, range, prepared)?;
                Ok(Some(next))
            }
            None => Ok(None),
        },
        None => Ok(None),
    }
}

ghost use Rattle.scp_ballot_rules.specs.Own.{counter_of};
ghost use Rattle.scp_vote.specs.declared.claim.Claim.TheVariants.{Committed};
