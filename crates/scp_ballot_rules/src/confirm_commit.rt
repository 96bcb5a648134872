//! Rule 4: what is confirmed as committed.
ghost use Rattle.std.specs.Prelude.{◌≡◌, ◌≢◌, ◌<◌, ◌≤◌, ◌⊎◌, Contains, Some, None, Option, IsSomeAnd, IsTrue, IfOk, IfSome, IfNone, IsOkUnless};
ghost use Rattle.scp_vote.specs.scp_types.specs.declared.ballot.Ballot.{Ballot};
ghost use Rattle.scp_vote.specs.declared.claim.Claim.TheVariants.{Committed};
ghost use Rattle.scp_vote.specs.Board.{Confirmed};
ghost use Rattle.scp_ballot_rules.specs.Rules.{ConfirmsCommit};
ghost use Rattle.scp_ballot_rules.specs.Rests.{ConfirmsNone};
ghost use Rattle.scp_ballot_rules.specs.declared.state.Phase.TheVariants.{Externalize};
ghost use Rattle.scp_ballot_rules.specs.Told.{ballots_on};
ghost use Rattle.scp_ballot_rules.specs.Finding.{AreBoundaries};
ghost use Rattle.scp_ballot_rules.specs.inside.Finding.{IsReachedRange};
ghost use Rattle.scp_ballot_rules.specs.declared.told.Stage.TheVariants.{Confirmation};
ghost use Rattle.scp_ballot_rules.specs.declared.finding.Bound.TheVariants.{Of};
ghost use Rattle.scp_ballot_rules.specs.inside.Finding.{IsExactRange};
ghost use Rattle.scp_ballot_rules.specs.ConfirmCommit.{ConfirmCommit};
ghost use Rattle.scp_ballot_rules.specs.Steps.{Answers};
ghost use Rattle.scp_ballot_rules.specs.declared.state.Phase.TheVariants.{Confirm};

use crate::finding::Bound;
use crate::range::{Range, reached_range};
use crate::told::Stage;
use crate::{Phase, State};
use scp_vote::Board;
use scp_vote::below::types::{Ballot, Fault};

/// The state in the phase Externalize with this range.
fn externalized(state: &State, range: Range) -> Result<State, Fault>
    ensures made { IfOk result (λ next. next ≡ record state.now { phase = Externalize; high = Some range.high; low = Some range.low }) }
    ensures only_memory { IsOkUnless result Fault.NoMemory }
{
    let Range { low, high } = range;
    let copied = state.copy()?;
    Ok(State {
        phase: Phase::Externalize,
        high: Some(high),
        low: Some(low),
        ..copied
    })
}

/// The confirmed range of this low end's value, if there is one.
fn confirmed_range(
    board: &Board,
    boundaries: &[Ballot],
    low: &Ballot,
) -> Result<Option<Range>, Fault>
    requires counted { (x : Ballot) → Contains boundaries.now x → x.counter ≢ 0 }
    ensures range { IfOk result (λ found. IfSome found (λ range. IsReachedRange Confirmation (ballots_on board.now) range)) }
    ensures exact { IfOk result (λ found. IfSome found (λ range. IsExactRange Confirmation (ballots_on board.now) (Of low.now.value) 0 boundaries.now range)) }
    ensures none { IfOk result (λ found. IfNone found ((x : Ballot) → Contains boundaries.now x → 0 < x.counter → x.value ≡ low.now.value → Confirmed (ballots_on board.now) (Committed x.counter x.counter x.value) → ⊥)) }
    ensures only_memory { IsOkUnless result Fault.NoMemory }
{
    let bound = Bound::Of(low.value.share()?);
    let found = reached_range(board, Stage::Confirmation, &bound, 0, boundaries)?;
    Ok(found)
}

/// In the phase Confirm: the state that externalizes the range's value, or `None` if no commit of it is confirmed.
pub fn confirm_commit(
    board: &Board,
    state: &State,
    boundaries: &[Ballot],
) -> Result<Option<State>, Fault>
    requires all { AreBoundaries (ballots_on board.now) boundaries.now }
    ensures step { IfOk result (λ next. IfSome next (λ next. ConfirmsCommit (ballots_on board.now) state.now next)) }
    ensures rests { IfOk result (λ next. IfNone next (ConfirmsNone (ballots_on board.now) state.now)) }
    ensures exact { state.now.phase ≡ Confirm → IfOk result (λ next. Answers (ConfirmCommit Confirm (ballots_on board.now)) state.now next) }
    ensures only_memory { IsOkUnless result Fault.NoMemory }
{
    match &state.low {
        Some(low) => match confirmed_range(board, boundaries, low)? {
            Some(range) => {
                let next = externalized(state, range)?;
                Ok(Some(next))
            }
            None => Ok(None),
        },
        None => Ok(None),
    }
}
