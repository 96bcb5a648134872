//! The greatest candidate ballot that has reached a stage of voting.
ghost use Rattle.std.specs.Prelude.{◌≡◌, ◌⊎◌, ◌↔◌, Contains, Some, Option, IsSomeAnd, IsTrue, IfOk, IsOkUnless};
ghost use Rattle.std.specs.Option.{ForSome};
ghost use Rattle.scp_vote.specs.scp_types.specs.declared.ballot.Ballot.{Ballot};
ghost use Rattle.scp_vote.specs.declared.claim.Claim.TheVariants.{Prepared};
ghost use Rattle.scp_vote.specs.scp_envelope.specs.Ballots.{IsLess};
ghost use Rattle.scp_ballot_rules.specs.Order.{IsAbove, IsOver, FitsUnder};
ghost use Rattle.scp_ballot_rules.specs.Told.{ballots_on};
ghost use Rattle.scp_ballot_rules.specs.inside.Told.{Reached};
ghost use Rattle.scp_ballot_rules.specs.inside.Finding.{IsWithin, IsGreatest, Betters};

use crate::copy_some;
use crate::told::{Stage, reached_prepared};
use scp_vote::Board;
use scp_vote::below::types::{Ballot, Fault, SharedValue};

/// Which ballots count.
#[derive(Drop)]
pub(crate) enum Bound {
    Any,
    /// Those less than the ballot and incompatible with it.
    Under(Ballot),
    /// Those of the value.
    Of(SharedValue),
}

/// Whether the first ballot is less than the second.
pub(crate) fn is_less(ballot: &Ballot, other: &Ballot) -> bool
    ensures { IsTrue result ↔ IsLess ballot.now other.now }
{
    ballot < other
}

/// Whether the ballot is greater than the other, if there is one.
pub(crate) fn is_above(ballot: &Ballot, other: &Option<Ballot>) -> bool
    ensures { IsTrue result ↔ IsAbove ballot.now other.now }
{
    match other {
        Some(other) => is_less(other, ballot),
        None => true,
    }
}

/// Whether the ballot is less than the other and incompatible with it.
fn fits_under(ballot: &Ballot, other: &Ballot) -> bool
    ensures { IsTrue result ↔ FitsUnder ballot.now other.now }
{
    is_less(ballot, other) && ballot.value != other.value
}

/// Whether there is a ballot that is greater than the other and incompatible with it.
pub(crate) fn is_over(ballot: &Option<Ballot>, other: &Ballot) -> bool
    ensures { IsTrue result ↔ IsOver ballot.now other.now }
{
    match ballot {
        Some(ballot) => fits_under(other, ballot),
        None => false,
    }
}

/// Whether the two are the same ballot, or both are absent.
pub(crate) fn is_same(ballot: &Option<Ballot>, other: &Option<Ballot>) -> bool
    ensures { IsTrue result ↔ (ballot.now ≡ other.now) }
{
    match ballot {
        Some(ballot) => is_ballot(ballot, other),
        None => other.is_none(),
    }
}

fn is_ballot(ballot: &Ballot, other: &Option<Ballot>) -> bool
    ensures { IsTrue result ↔ (Some ballot.now ≡ other.now) }
{
    match other {
        Some(other) => ballot.counter == other.counter && ballot.value == other.value,
        None => false,
    }
}

/// Whether the ballot is within the bound.
pub(crate) fn is_within(ballot: &Ballot, bound: &Bound) -> bool
    ensures { IsTrue result ↔ IsWithin bound.now ballot.now }
{
    match bound {
        Bound::Any => true,
        Bound::Under(other) => fits_under(ballot, other),
        Bound::Of(value) => ballot.value == *value,
    }
}

/// Whether the ballot is within the bound and greater than the best so far, and its `prepare` has reached the stage.
fn is_better(
    board: &Board,
    stage: Stage,
    bound: &Bound,
    ballot: &Ballot,
    best: &Option<Ballot>,
) -> Result<bool, Fault>
    ensures exact { IfOk result (λ yes. IsTrue yes ↔ (IsAbove ballot.now best.now × IsWithin bound.now ballot.now × Reached stage (ballots_on board.now) (Prepared ballot.now))) }
    ensures only_memory { IsOkUnless result Fault.NoMemory }
{
    if !is_above(ballot, best) || !is_within(ballot, bound) {
        return Ok(false);
    }
    reached_prepared(board, stage, ballot)
}

/// The ballot if it is better, else the best so far.
fn better(
    board: &Board,
    stage: Stage,
    bound: &Bound,
    ballot: &Ballot,
    best: Option<Ballot>,
) -> Result<Option<Ballot>, Fault>
    ensures better { IfOk result (λ new. Betters (λ x. IsWithin bound.now x × Reached stage (ballots_on board.now) (Prepared x)) ballot.now best new) }
    ensures only_memory { IsOkUnless result Fault.NoMemory }
{
    if is_better(board, stage, bound, ballot, &best)? {
        Ok(Some(ballot.copy()?))
    } else {
        Ok(best)
    }
}

/// The greatest of the floor and of those ballots of the list that are within the bound and whose `prepare` has reached
/// the stage. Tests a ballot only if it is greater than the best so far.
pub(crate) fn greatest(
    board: &Board,
    stage: Stage,
    bound: &Bound,
    list: &[Ballot],
    floor: &Option<Ballot>,
) -> Result<Option<Ballot>, Fault>
    ensures greatest { IfOk result (λ best. IsGreatest (λ x. IsWithin bound.now x × Reached stage (ballots_on board.now) (Prepared x)) list.now floor.now best) }
    ensures only_memory { IsOkUnless result Fault.NoMemory }
{
    let mut best = copy_some(floor)?;
    for ballot in list {
        best = better(board, stage, bound, ballot, best)?;
    }
    Ok(best)
}
