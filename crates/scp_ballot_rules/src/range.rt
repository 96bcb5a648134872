//! The range of commit that has reached a stage of voting.
ghost use Rattle.std.specs.Prelude.{◌≡◌, ◌≢◌, ◌<◌, ◌≤◌, ◌⊎◌, ◌↔◌, Contains, Some, None, Option, IsSomeAnd, IsTrue, IfOk, IfSome, IfNone, IsOkUnless};
ghost use Rattle.std.specs.Option.{ForSome};
ghost use Rattle.scp_vote.specs.scp_types.specs.declared.ballot.Ballot.{Ballot};
ghost use Rattle.scp_vote.specs.declared.claim.Claim.TheVariants.{Committed};
ghost use Rattle.scp_ballot_rules.specs.Told.{ballots_on};
ghost use Rattle.scp_ballot_rules.specs.inside.Told.{Reached};
ghost use Rattle.scp_ballot_rules.specs.inside.Finding.{IsWithin, IsReachedRange, GoesBefore, Leads, IsFirst, Lowers, IsLeastOf, IsExactRange};

use crate::finding::{Bound, is_within};
use crate::told::{Stage, reached_commit};
use scp_vote::Board;
use scp_vote::below::types::{Ballot, Fault};

/// A range of commit: its ends have the same value.
#[derive(Drop)]
pub(crate) struct Range {
    pub(crate) low: Ballot,
    pub(crate) high: Ballot,
}

/// Whether the boundary goes before the best so far: the values ascend, and for one value the greatest counter comes first.
fn goes_before(boundary: &Ballot, best: &Option<Ballot>) -> bool
    ensures { IsTrue result ↔ GoesBefore boundary.now best.now }
{
    match best {
        Some(best) if boundary.value == best.value => best.counter < boundary.counter,
        Some(best) => boundary.value < best.value,
        None => true,
    }
}

/// Whether the boundary is within the bound and above the floor.
fn counts(bound: &Bound, floor: u32, boundary: &Ballot) -> bool
    ensures { IsTrue result ↔ ((floor < boundary.now.counter) × IsWithin bound.now boundary.now) }
{
    floor < boundary.counter && is_within(boundary, bound)
}

/// Whether the boundary is within the bound and above the floor, and its commit has reached the stage.
fn is_reached(
    board: &Board,
    stage: Stage,
    bound: &Bound,
    floor: u32,
    boundary: &Ballot,
) -> Result<bool, Fault>
    ensures exact { IfOk result (λ yes. IsTrue yes ↔ (((floor < boundary.now.counter) × IsWithin bound.now boundary.now) × Reached stage (ballots_on board.now) (Committed boundary.now.counter boundary.now.counter boundary.now.value))) }
    ensures only_memory { IsOkUnless result Fault.NoMemory }
{
    if !counts(bound, floor, boundary) {
        return Ok(false);
    }
    let counter = boundary.counter;
    let yes = reached_commit(board, stage, counter, counter, &boundary.value)?;
    Ok(yes)
}

/// The boundary if it is reached and goes before the best so far, else the best so far.
fn first(
    board: &Board,
    stage: Stage,
    bound: &Bound,
    floor: u32,
    boundary: &Ballot,
    best: Option<Ballot>,
) -> Result<Option<Ballot>, Fault>
    ensures leads { IfOk result (λ new. Leads (λ x. ((floor < x.counter) × IsWithin bound.now x) × Reached stage (ballots_on board.now) (Committed x.counter x.counter x.value)) boundary.now best new) }
    ensures only_memory { IsOkUnless result Fault.NoMemory }
{
    if !goes_before(boundary, &best) {
        return Ok(best);
    }
    if is_reached(board, stage, bound, floor, boundary)? {
        Ok(Some(boundary.copy()?))
    } else {
        Ok(best)
    }
}

/// The first of the boundaries that are within the bound and above the floor, and whose commit has reached the stage: of
/// those with the least value, the one with the greatest counter.
fn highest(
    board: &Board,
    stage: Stage,
    bound: &Bound,
    floor: u32,
    boundaries: &[Ballot],
) -> Result<Option<Ballot>, Fault>
    ensures first { IfOk result (λ best. IsFirst (λ x. ((floor < x.counter) × IsWithin bound.now x) × Reached stage (ballots_on board.now) (Committed x.counter x.counter x.value)) boundaries.now best) }
    ensures only_memory { IsOkUnless result Fault.NoMemory }
{
    let mut best = None;
    for boundary in boundaries {
        best = first(board, stage, bound, floor, boundary, best)?;
    }
    Ok(best)
}

/// The boundary's counter, if it has the high end's value and is below the least so far, and the range from it has reached the stage; else the least.
fn lower(
    board: &Board,
    stage: Stage,
    high: &Ballot,
    boundary: &Ballot,
    least: u32,
) -> Result<u32, Fault>
    ensures lower { IfOk result (λ new. Lowers (λ n. Reached stage (ballots_on board.now) (Committed n high.now.counter high.now.value)) high.now.value boundary.now least new) }
    ensures only_memory { IsOkUnless result Fault.NoMemory }
{
    let counter = boundary.counter;
    if counter >= least || boundary.value != high.value {
        return Ok(least);
    }
    if reached_commit(board, stage, counter, high.counter, &high.value)? {
        Ok(counter)
    } else {
        Ok(least)
    }
}

/// The least counter of a boundary of the high end's value from which the range to the high end has reached the stage.
fn lowest(board: &Board, stage: Stage, boundaries: &[Ballot], high: &Ballot) -> Result<u32, Fault>
    requires counted { (x : Ballot) → Contains boundaries.now x → x.counter ≢ 0 }
    requires high { high.now.counter ≢ 0 }
    requires there { Contains boundaries.now high.now }
    requires reached { Reached stage (ballots_on board.now) (Committed high.now.counter high.now.counter high.now.value) }
    ensures counted { IfOk result (λ low. low ≢ 0) }
    ensures ascends { IfOk result (λ low. low ≤ high.now.counter) }
    ensures least { IfOk result (λ low. IsLeastOf (λ n. Reached stage (ballots_on board.now) (Committed n high.now.counter high.now.value)) high.now.value boundaries.now low) }
    ensures only_memory { IsOkUnless result Fault.NoMemory }
{
    let mut least = high.counter;
    for boundary in boundaries {
        least = lower(board, stage, high, boundary, least)?;
    }
    Ok(least)
}

/// The range that has reached the stage. Its high end is the first boundary within the bound and above the floor, its
/// low end the least of that value from which the range is reached. `None` exactly where there is no such high end.
pub(crate) fn reached_range(
    board: &Board,
    stage: Stage,
    bound: &Bound,
    floor: u32,
    boundaries: &[Ballot],
) -> Result<Option<Range>, Fault>
    requires counted { (x : Ballot) → Contains boundaries.now x → x.counter ≢ 0 }
    ensures range { IfOk result (λ found. IfSome found (λ range. IsReachedRange stage (ballots_on board.now) range)) }
    ensures exact { IfOk result (λ found. IfSome found (λ range. IsExactRange stage (ballots_on board.now) bound.now floor boundaries.now range)) }
    ensures within { IfOk result (λ found. IfSome found (λ range. (floor < range.high.counter) × IsWithin bound.now range.high)) }
    ensures none { IfOk result (λ found. IfNone found ((x : Ballot) → Contains boundaries.now x → floor < x.counter → IsWithin bound.now x → Reached stage (ballots_on board.now) (Committed x.counter x.counter x.value) → ⊥)) }
    ensures only_memory { IsOkUnless result Fault.NoMemory }
{
    match highest(board, stage, bound, floor, boundaries)? {
        Some(high) => {
            let counter = lowest(board, stage, boundaries, &high)?;
            let value = high.value.share()?;
            let low = Ballot { counter, value };
            Ok(Some(Range { low, high }))
        }
        None => Ok(None),
    }
}
