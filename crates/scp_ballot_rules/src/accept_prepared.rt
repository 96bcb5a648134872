//! Rule 1: what is accepted as prepared.
ghost use Rattle.std.specs.Prelude.{◌≡◌, ◌≢◌, ◌⊎◌, ◌↔◌, Contains, Some, None, Option, IsSomeAnd, IsTrue, IfOk, IfSome, IfNone, IsOkUnless};
ghost use Rattle.std.specs.Option.{ForSome};
ghost use Rattle.scp_vote.specs.scp_types.specs.declared.ballot.Ballot.{Ballot};
ghost use Rattle.scp_vote.specs.declared.claim.Claim.TheVariants.{Prepared};
ghost use Rattle.scp_vote.specs.Board.{Accepted};
ghost use Rattle.scp_ballot_rules.specs.Order.{IsAbove, IsOver, FitsUnder};
ghost use Rattle.scp_ballot_rules.specs.Rules.{AcceptsPrepared, AcceptsMore};
ghost use Rattle.scp_ballot_rules.specs.Rests.{AcceptsNoMore};
ghost use Rattle.scp_ballot_rules.specs.Told.{ballots_on};
ghost use Rattle.scp_ballot_rules.specs.Finding.{AreCandidates};
ghost use Rattle.scp_ballot_rules.specs.inside.Finding.{Keeps, Clears, IsPrimeUnder, IsPrimeOf};
ghost use Rattle.scp_ballot_rules.specs.AcceptPrepared.{AcceptsInPrepare, AcceptsInConfirm};
ghost use Rattle.scp_ballot_rules.specs.Steps.{Answers};

use crate::finding::{Bound, greatest, is_above, is_over, is_same, is_within};
use crate::told::Stage;
use crate::{State, copy_some};
use scp_vote::Board;
use scp_vote::below::types::{Ballot, Fault};

/// The ballot if it counts and is greater than the best so far, else the best so far.
fn higher(
    bound: &Bound,
    ballot: &Option<Ballot>,
    best: Option<Ballot>,
) -> Result<Option<Ballot>, Fault>
    ensures higher { IfOk result (λ new. Keeps bound.now ballot.now best new) }
    ensures only_memory { IsOkUnless result Fault.NoMemory }
{
    match ballot {
        Some(ballot) if is_within(ballot, bound) && is_above(ballot, &best) => {
            let copied = ballot.copy()?;
            Ok(Some(copied))
        }
        _ => Ok(best),
    }
}

/// The greatest ballot that is less than the highest accepted one and incompatible with it, among those that are accepted
/// now or were before.
fn prime_under(
    board: &Board,
    state: &State,
    candidates: &[Ballot],
    prepared: &Option<Ballot>,
) -> Result<Option<Ballot>, Fault>
    ensures prime { IfOk result (λ prime. IsPrimeUnder (ballots_on board.now) state.now prepared.now prime) }
    ensures exact { IfOk result (λ prime. IsPrimeOf (ballots_on board.now) candidates.now state.now prepared.now prime) }
    ensures only_memory { IsOkUnless result Fault.NoMemory }
{
    match prepared {
        Some(prepared) => {
            let bound = Bound::Under(prepared.copy()?);
            let held = higher(&bound, &state.prime, None)?;
            let held = higher(&bound, &state.prepared, held)?;
            let prime = greatest(board, Stage::Acceptance, &bound, candidates, &held)?;
            Ok(prime)
        }
        None => Ok(None),
    }
}

/// The low end; none if an accepted ballot is over the high end.
fn low_unless_over(
    state: &State,
    prepared: &Option<Ballot>,
    prime: &Option<Ballot>,
) -> Result<Option<Ballot>, Fault>
    ensures low { IfOk result (λ low. Clears state.now.high state.now.low prepared.now prime.now low) }
    ensures only_memory { IsOkUnless result Fault.NoMemory }
{
    match &state.high {
        Some(high) if is_over(prepared, high) || is_over(prime, high) => Ok(None),
        _ => copy_some(&state.low),
    }
}

/// Whether the state holds exactly these.
fn is_held(
    state: &State,
    prepared: &Option<Ballot>,
    prime: &Option<Ballot>,
    low: &Option<Ballot>,
) -> bool
    ensures { IsTrue result ↔ ((prepared.now ≡ state.now.prepared) × (prime.now ≡ state.now.prime) × (low.now ≡ state.now.low)) }
{
    is_same(prepared, &state.prepared) && is_same(prime, &state.prime) && is_same(low, &state.low)
}

/// The state with these in place of its own.
fn holding(
    state: &State,
    prepared: Option<Ballot>,
    prime: Option<Ballot>,
    low: Option<Ballot>,
) -> Result<State, Fault>
    ensures made { IfOk result (λ next. next ≡ record state.now { prepared = prepared; prime = prime; low = low }) }
    ensures only_memory { IsOkUnless result Fault.NoMemory }
{
    let copied = state.copy()?;
    Ok(State {
        prepared,
        prime,
        low,
        ..copied
    })
}

/// In the phase Prepare: the state that holds what is accepted as prepared now, or `None` if that changes nothing.
pub fn accept_prepared(
    board: &Board,
    state: &State,
    candidates: &[Ballot],
) -> Result<Option<State>, Fault>
    requires all { AreCandidates (ballots_on board.now) candidates.now }
    ensures step { IfOk result (λ next. IfSome next (λ next. AcceptsPrepared (ballots_on board.now) state.now next)) }
    ensures rests { IfOk result (λ next. IfNone next (AcceptsNoMore (ballots_on board.now) state.now)) }
    ensures exact { IfOk result (λ next. Answers (AcceptsInPrepare (ballots_on board.now)) state.now next) }
    ensures only_memory { IsOkUnless result Fault.NoMemory }
{
    let floor = &state.prepared;
    let prepared = greatest(board, Stage::Acceptance, &Bound::Any, candidates, floor)?;
    let prime = prime_under(board, state, candidates, &prepared)?;
    let low = low_unless_over(state, &prepared, &prime)?;
    if is_held(state, &prepared, &prime, &low) {
        return Ok(None);
    }
    let next = holding(state, prepared, prime, low)?;
    Ok(Some(next))
}

/// The state with this as its highest ballot that is accepted as prepared.
fn with_prepared(state: &State, prepared: Option<Ballot>) -> Result<State, Fault>
    ensures made { IfOk result (λ next. next ≡ record state.now { prepared = prepared }) }
    ensures only_memory { IsOkUnless result Fault.NoMemory }
{
    let copied = state.copy()?;
    Ok(State { prepared, ..copied })
}

/// In the phase Confirm, with this low end: the state that holds the greatest ballot of its value that is accepted as
/// prepared, or `None` if that changes nothing.
fn accept_of(
    board: &Board,
    state: &State,
    candidates: &[Ballot],
    low: &Ballot,
) -> Result<Option<State>, Fault>
    requires all { AreCandidates (ballots_on board.now) candidates.now }
    requires low { state.now.low ≡ Some low.now }
    ensures step { IfOk result (λ next. IfSome next (λ next. AcceptsMore (ballots_on board.now) state.now next)) }
    ensures exact { IfOk result (λ next. Answers (AcceptsInConfirm (ballots_on board.now)) state.now next) }
    ensures only_memory { IsOkUnless result Fault.NoMemory }
{
    let bound = Bound::Of(low.value.share()?);
    let prepared = greatest(
        board,
        Stage::Acceptance,
        &bound,
        candidates,
        &state.prepared,
    )?;
    if is_same(&prepared, &state.prepared) {
        return Ok(None);
    }
    let next = with_prepared(state, prepared)?;
    Ok(Some(next))
}

/// In the phase Confirm: the state that holds the greatest ballot of the range's value that is accepted as prepared, or
/// `None` if that changes nothing.
pub fn accept_more(
    board: &Board,
    state: &State,
    candidates: &[Ballot],
) -> Result<Option<State>, Fault>
    requires all { AreCandidates (ballots_on board.now) candidates.now }
    ensures step { IfOk result (λ next. IfSome next (λ next. AcceptsMore (ballots_on board.now) state.now next)) }
    ensures exact { IfOk result (λ next. Answers (AcceptsInConfirm (ballots_on board.now)) state.now next) }
    ensures only_memory { IsOkUnless result Fault.NoMemory }
{
    match &state.low {
        Some(low) => accept_of(board, state, candidates, low),
        None => Ok(None),
    }
}
