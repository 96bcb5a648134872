//! Rule 2: what is confirmed as prepared, and the vote to commit it.
ghost use Rattle.std.specs.Prelude.{◌≡◌, ◌≢◌, ◌⊎◌, ◌↔◌, Contains, Some, None, Option, IsSomeAnd, IsTrue, IfOk, IfSome, IfNone, IsOkUnless};
ghost use Rattle.std.specs.Option.{ForSome};
ghost use Rattle.scp_vote.specs.scp_types.specs.declared.ballot.Ballot.{Ballot};
ghost use Rattle.scp_vote.specs.declared.claim.Claim.TheVariants.{Prepared};
ghost use Rattle.scp_vote.specs.Board.{Confirmed};
ghost use Rattle.scp_ballot_rules.specs.Order.{IsAbove, AtMost};
ghost use Rattle.scp_ballot_rules.specs.Ready.{NoneOver};
ghost use Rattle.scp_ballot_rules.specs.Rules.{ConfirmsPrepared};
ghost use Rattle.scp_ballot_rules.specs.Rests.{ConfirmsNoMore};
ghost use Rattle.scp_ballot_rules.specs.Told.{ballots_on};
ghost use Rattle.scp_ballot_rules.specs.Finding.{AreCandidates};
ghost use Rattle.scp_ballot_rules.specs.inside.Finding.{Revises, JoinsState, KeepsLow, MayVote};
ghost use Rattle.scp_ballot_rules.specs.Greatest.{IsGreatestOf};
ghost use Rattle.scp_ballot_rules.specs.ConfirmPrepared.{IsConfirmedCandidate, ConfirmsInPrepare};
ghost use Rattle.scp_ballot_rules.specs.Steps.{Answers};
ghost use Rattle.scp_ballot_rules.specs.inside.Finding.{RevisesLow};

use crate::finding::{Bound, greatest, is_less, is_over, is_same};
use crate::told::Stage;
use crate::{State, copy_some};
use scp_vote::Board;
use scp_vote::below::types::{Ballot, Fault};

/// The greatest ballot that is confirmed as prepared, if it is greater than the one before.
fn newly_confirmed(
    board: &Board,
    state: &State,
    candidates: &[Ballot],
) -> Result<Option<Ballot>, Fault>
    requires all { AreCandidates (ballots_on board.now) candidates.now }
    ensures found { IfOk result (λ found. IfSome found (λ x. (x.counter ≢ 0) × Confirmed (ballots_on board.now) (Prepared x) × IsAbove x state.now.confirmed)) }
    ensures greatest { IfOk result (λ found. IfSome found (λ x. IsGreatestOf (λ y. IsConfirmedCandidate (ballots_on board.now) y) (Some x))) }
    ensures none { IfOk result (λ found. IfNone found (ConfirmsNoMore (ballots_on board.now) state.now)) }
    ensures only_memory { IsOkUnless result Fault.NoMemory }
{
    let floor = &state.confirmed;
    let best = greatest(board, Stage::Confirmation, &Bound::Any, candidates, floor)?;
    if is_same(&best, &state.confirmed) {
        return Ok(None);
    }
    Ok(best)
}

/// The state in which the newly confirmed ballot is the current one and the high end.
fn raise_to(state: &State, ballot: &Ballot) -> Result<State, Fault>
    ensures made { IfOk result (λ next. next ≡ record state.now { present = Some ballot.now; confirmed = Some ballot.now; high = Some ballot.now }) }
    ensures only_memory { IsOkUnless result Fault.NoMemory }
{
    let confirmed = Some(ballot.copy()?);
    let present = Some(ballot.copy()?);
    let high = Some(ballot.copy()?);
    let copied = state.copy()?;
    Ok(State {
        present,
        confirmed,
        high,
        ..copied
    })
}

/// The state with the newly confirmed ballot, which is the high end if it is compatible with the current one.
fn confirm_below(state: &State, present: &Ballot, ballot: &Ballot) -> Result<State, Fault>
    ensures made { IfOk result (λ next. ((present.now.value ≡ ballot.now.value) × (next ≡ record state.now { confirmed = Some ballot.now; high = Some ballot.now })) ⊎ ((present.now.value ≢ ballot.now.value) × (next ≡ record state.now { confirmed = Some ballot.now }))) }
    ensures only_memory { IsOkUnless result Fault.NoMemory }
{
    let confirmed = Some(ballot.copy()?);
    if present.value != ballot.value {
        let copied = state.copy()?;
        return Ok(State {
            confirmed,
            ..copied
        });
    }
    let high = Some(ballot.copy()?);
    let copied = state.copy()?;
    Ok(State {
        confirmed,
        high,
        ..copied
    })
}

/// The state with the newly confirmed ballot. It becomes the current one if that is less, and else the high end if it is
/// compatible with the current one.
fn join_present(state: &State, present: &Ballot, ballot: &Ballot) -> Result<State, Fault>
    requires present { state.now.present ≡ Some present.now }
    ensures joins { IfOk result (λ next. JoinsState ballot.now state.now next) }
    ensures only_memory { IsOkUnless result Fault.NoMemory }
{
    if is_less(present, ballot) {
        let next = raise_to(state, ballot)?;
        return Ok(next);
    }
    let next = confirm_below(state, present, ballot)?;
    Ok(next)
}

/// The state with the newly confirmed ballot. It becomes the current one if that is absent or less, and else the high end if
/// it is compatible with the current one.
fn join(state: &State, ballot: &Ballot) -> Result<State, Fault>
    ensures joins { IfOk result (λ next. JoinsState ballot.now state.now next) }
    ensures only_memory { IsOkUnless result Fault.NoMemory }
{
    match &state.present {
        Some(present) => join_present(state, present, ballot),
        None => {
            let next = raise_to(state, ballot)?;
            Ok(next)
        }
    }
}

/// Whether there is a current ballot that has the low end's value.
fn keeps_low(state: &State) -> bool
    ensures { IsTrue result ↔ KeepsLow state.now }
{
    match &state.low {
        Some(low) => match &state.present {
            Some(present) => low.value == present.value,
            None => false,
        },
        None => false,
    }
}

/// Whether the current ballot is the high end, and no accepted ballot is over it.
fn may_vote(state: &State) -> bool
    ensures { IsTrue result ↔ MayVote state.now }
{
    match &state.high {
        Some(high) => is_present(state, high) && none_over(state, high),
        None => false,
    }
}

/// Whether the ballot is the current one.
fn is_present(state: &State, ballot: &Ballot) -> bool
    ensures { IsTrue result ↔ (state.now.present ≡ Some ballot.now) }
{
    match &state.present {
        Some(present) => present.counter == ballot.counter && present.value == ballot.value,
        None => false,
    }
}

/// Whether neither accepted ballot is over this one.
fn none_over(state: &State, ballot: &Ballot) -> bool
    ensures { IsTrue result ↔ NoneOver state.now ballot.now }
{
    !is_over(&state.prepared, ballot) && !is_over(&state.prime, ballot)
}

/// The low end if it is compatible with the current ballot; else the current ballot if it may be voted for; else none.
fn revised_low(state: &State) -> Result<Option<Ballot>, Fault>
    ensures low { IfOk result (λ low. Revises state.now low) }
    ensures only_memory { IsOkUnless result Fault.NoMemory }
{
    if keeps_low(state) {
        return copy_some(&state.low);
    }
    if may_vote(state) {
        return copy_some(&state.present);
    }
    Ok(None)
}

/// The state with this low end.
fn with_low(state: &State, low: Option<Ballot>) -> Result<State, Fault>
    ensures made { IfOk result (λ next. next ≡ record state.now { low = low }) }
    ensures only_memory { IsOkUnless result Fault.NoMemory }
{
    let copied = state.copy()?;
    Ok(State { low, ..copied })
}

/// The state with the newly confirmed ballot, and with its low end revised.
fn confirm(board: &Board, state: &State, ballot: &Ballot) -> Result<State, Fault>
    requires confirmed { (ballot.now.counter ≢ 0) × Confirmed (ballots_on board.now) (Prepared ballot.now) × IsAbove ballot.now state.now.confirmed }
    requires greatest { IsGreatestOf (λ y. IsConfirmedCandidate (ballots_on board.now) y) (Some ballot.now) }
    ensures step { IfOk result (λ next. ConfirmsPrepared (ballots_on board.now) state.now next) }
    ensures exact { IfOk result (λ next. Answers (ConfirmsInPrepare (ballots_on board.now)) state.now (Some next)) }
    ensures only_memory { IsOkUnless result Fault.NoMemory }
{
    let joined = join(state, ballot)?;
    let low = revised_low(&joined)?;
    let next = with_low(&joined, low)?;
    Ok(next)
}

/// The state with its low end revised, or `None` if that changes nothing.
fn revise(state: &State) -> Result<Option<State>, Fault>
    ensures revised { IfOk result (λ next. IfSome next (λ next. (next ≡ record state.now { low = next.low }) × Revises state.now next.low)) }
    ensures exact { IfOk result (λ next. Answers RevisesLow state.now next) }
    ensures only_memory { IsOkUnless result Fault.NoMemory }
{
    let low = revised_low(state)?;
    if is_same(&low, &state.low) {
        return Ok(None);
    }
    let next = with_low(state, low)?;
    Ok(Some(next))
}

/// In the phase Prepare: the state that holds what is confirmed as prepared now and votes to commit it, or `None` if that changes nothing.
pub fn confirm_prepared(
    board: &Board,
    state: &State,
    candidates: &[Ballot],
) -> Result<Option<State>, Fault>
    requires all { AreCandidates (ballots_on board.now) candidates.now }
    ensures step { IfOk result (λ next. IfSome next (λ next. ConfirmsPrepared (ballots_on board.now) state.now next)) }
    ensures rests { IfOk result (λ next. IfNone next (ConfirmsNoMore (ballots_on board.now) state.now)) }
    ensures exact { IfOk result (λ next. Answers (ConfirmsInPrepare (ballots_on board.now)) state.now next) }
    ensures only_memory { IsOkUnless result Fault.NoMemory }
{
    match newly_confirmed(board, state, candidates)? {
        Some(ballot) => {
            let next = confirm(board, state, &ballot)?;
            Ok(Some(next))
        }
        None => match revise(state)? {
            Some(next) => Ok(Some(next)),
            None => Ok(None),
        },
    }
}
