//! The rules in their order.
ghost use Rattle.std.specs.Prelude.{◌≡◌, ◌⊎◌, IfOk, IfSome, IfNone, IsOkUnless};
ghost use Rattle.scp_ballot_rules.specs.declared.state.Phase.TheVariants.{Prepare, Confirm, Externalize};
ghost use Rattle.scp_ballot_rules.specs.Ready.{IsReady, IsConfirming};
ghost use Rattle.scp_ballot_rules.specs.inside.Rules.{IsStep, CatchesUp, RaisesMore};
ghost use Rattle.scp_ballot_rules.specs.Rules.{AcceptsPrepared, ConfirmsPrepared, AcceptsCommit, AcceptsMore, Grows, ConfirmsCommit};
ghost use Rattle.scp_ballot_rules.specs.inside.Rests.{Rests, RestsInPrepare, RestsInConfirm, RaisesNone};
ghost use Rattle.scp_ballot_rules.specs.Rests.{CommitsNone, CommitsNoHigher, ConfirmsNone, AcceptsNoMore, ConfirmsNoMore};
ghost use Rattle.scp_ballot_rules.specs.Told.{ballots_on};
ghost use Rattle.scp_ballot_rules.specs.AcceptPrepared.{AcceptPrepared};
ghost use Rattle.scp_ballot_rules.specs.ConfirmPrepared.{ConfirmPrepared};
ghost use Rattle.scp_ballot_rules.specs.AcceptCommit.{AcceptCommit};
ghost use Rattle.scp_ballot_rules.specs.ConfirmCommit.{ConfirmCommit};
ghost use Rattle.scp_ballot_rules.specs.RaiseCounter.{RaiseCounter};
ghost use Rattle.scp_ballot_rules.specs.Steps.{Answers, OrElse, Step};

use crate::raise::{catch_up, catch_up_more};
use scp_ballot_rules::accept_commit::{accept_commit, accept_higher};
use scp_ballot_rules::accept_prepared::{accept_more, accept_prepared};
use scp_ballot_rules::below::types::Fault;
use scp_ballot_rules::below::vote::Board;
use scp_ballot_rules::boundaries::boundaries;
use scp_ballot_rules::candidates::candidates;
use scp_ballot_rules::confirm_commit::confirm_commit;
use scp_ballot_rules::confirm_prepared::confirm_prepared;
use scp_ballot_rules::{Phase, State};
use std::alloc::Global;

/// Rules 1 and 2, in the phase Prepare.
fn prepare_next(alloc: Global, board: &Board, state: &State) -> Result<Option<State>, Fault>
    ensures step { IfOk result (λ next. IfSome next (λ next. AcceptsPrepared (ballots_on board.now) state.now next ⊎ ConfirmsPrepared (ballots_on board.now) state.now next)) }
    ensures rests { IfOk result (λ next. IfNone next (AcceptsNoMore (ballots_on board.now) state.now × ConfirmsNoMore (ballots_on board.now) state.now)) }
    ensures exact { IfOk result (λ next. Answers (OrElse (AcceptPrepared Prepare (ballots_on board.now)) (ConfirmPrepared Prepare (ballots_on board.now))) state.now next) }
    ensures only_memory { IsOkUnless result Fault.NoMemory }
{
    let named = candidates(alloc, board)?;
    let list = named.as_slice();
    match accept_prepared(board, state, list)? {
        Some(next) => Ok(Some(next)),
        None => match confirm_prepared(board, state, list)? {
            Some(next) => Ok(Some(next)),
            None => Ok(None),
        },
    }
}

/// Rules 3 and 5, in the phase Prepare.
fn commit_next(alloc: Global, board: &Board, state: &State) -> Result<Option<State>, Fault>
    ensures step { IfOk result (λ next. IfSome next (λ next. AcceptsCommit (ballots_on board.now) state.now next ⊎ CatchesUp (ballots_on board.now) state.now next)) }
    ensures rests { IfOk result (λ next. IfNone next (CommitsNone (ballots_on board.now) × RaisesNone (ballots_on board.now) state.now)) }
    ensures exact { state.now.phase ≡ Prepare → IfOk result (λ next. Answers (OrElse (AcceptCommit Prepare (ballots_on board.now)) (RaiseCounter (ballots_on board.now))) state.now next) }
    ensures only_memory { IsOkUnless result Fault.NoMemory }
{
    let ends = boundaries(alloc, board)?;
    let list = ends.as_slice();
    match accept_commit(board, state, list)? {
        Some(next) => Ok(Some(next)),
        None => match catch_up(alloc, board, state)? {
            Some(next) => Ok(Some(next)),
            None => Ok(None),
        },
    }
}

/// The rules in the phase Prepare.
fn next_preparing(alloc: Global, board: &Board, state: &State) -> Result<Option<State>, Fault>
    requires phase { state.now.phase ≡ Prepare }
    ensures step { IfOk result (λ next. IfSome next (λ next. IsStep (ballots_on board.now) state.now next)) }
    ensures rests { IfOk result (λ next. IfNone next (RestsInPrepare (ballots_on board.now) state.now)) }
    ensures exact { IfOk result (λ next. Answers (Step (ballots_on board.now)) state.now next) }
    ensures only_memory { IsOkUnless result Fault.NoMemory }
{
    match prepare_next(alloc, board, state)? {
        Some(next) => Ok(Some(next)),
        None => match commit_next(alloc, board, state)? {
            Some(next) => Ok(Some(next)),
            None => Ok(None),
        },
    }
}

/// Rule 1, in the phase Confirm.
fn accept_next(alloc: Global, board: &Board, state: &State) -> Result<Option<State>, Fault>
    ensures step { IfOk result (λ next. IfSome next (λ next. AcceptsMore (ballots_on board.now) state.now next)) }
    ensures exact { IfOk result (λ next. Answers (AcceptPrepared Confirm (ballots_on board.now)) state.now next) }
    ensures only_memory { IsOkUnless result Fault.NoMemory }
{
    let named = candidates(alloc, board)?;
    let list = named.as_slice();
    let next = accept_more(board, state, list)?;
    Ok(next)
}

/// Rules 3 and 4, in the phase Confirm.
fn range_next(alloc: Global, board: &Board, state: &State) -> Result<Option<State>, Fault>
    requires ready { IsConfirming state.now }
    ensures step { IfOk result (λ next. IfSome next (λ next. (AcceptsCommit (ballots_on board.now) state.now next × Grows state.now next) ⊎ ConfirmsCommit (ballots_on board.now) state.now next)) }
    ensures rests { IfOk result (λ next. IfNone next (CommitsNoHigher (ballots_on board.now) state.now × ConfirmsNone (ballots_on board.now) state.now)) }
    ensures exact { state.now.phase ≡ Confirm → IfOk result (λ next. Answers (OrElse (AcceptCommit Confirm (ballots_on board.now)) (ConfirmCommit Confirm (ballots_on board.now))) state.now next) }
    ensures only_memory { IsOkUnless result Fault.NoMemory }
{
    let ends = boundaries(alloc, board)?;
    let list = ends.as_slice();
    match accept_higher(board, state, list)? {
        Some(next) => Ok(Some(next)),
        None => match confirm_commit(board, state, list)? {
            Some(next) => Ok(Some(next)),
            None => Ok(None),
        },
    }
}

/// Rules 3, 4 and 5, in the phase Confirm.
fn later_next(alloc: Global, board: &Board, state: &State) -> Result<Option<State>, Fault>
    requires ready { IsConfirming state.now }
    ensures step { IfOk result (λ next. IfSome next (λ next. (AcceptsCommit (ballots_on board.now) state.now next × Grows state.now next) ⊎ ConfirmsCommit (ballots_on board.now) state.now next ⊎ RaisesMore state.now next)) }
    ensures rests { IfOk result (λ next. IfNone next (RestsInConfirm (ballots_on board.now) state.now)) }
    ensures exact { state.now.phase ≡ Confirm → IfOk result (λ next. Answers (OrElse (OrElse (AcceptCommit Confirm (ballots_on board.now)) (ConfirmCommit Confirm (ballots_on board.now))) (RaiseCounter (ballots_on board.now))) state.now next) }
    ensures only_memory { IsOkUnless result Fault.NoMemory }
{
    match range_next(alloc, board, state)? {
        Some(next) => Ok(Some(next)),
        None => match catch_up_more(alloc, board, state)? {
            Some(next) => Ok(Some(next)),
            None => Ok(None),
        },
    }
}

/// The rules in the phase Confirm.
fn next_confirming(alloc: Global, board: &Board, state: &State) -> Result<Option<State>, Fault>
    requires phase { state.now.phase ≡ Confirm }
    requires ready { IsConfirming state.now }
    ensures step { IfOk result (λ next. IfSome next (λ next. IsStep (ballots_on board.now) state.now next)) }
    ensures rests { IfOk result (λ next. IfNone next (RestsInConfirm (ballots_on board.now) state.now)) }
    ensures exact { IfOk result (λ next. Answers (Step (ballots_on board.now)) state.now next) }
    ensures only_memory { IsOkUnless result Fault.NoMemory }
{
    match accept_next(alloc, board, state)? {
        Some(next) => Ok(Some(next)),
        None => match later_next(alloc, board, state)? {
            Some(next) => Ok(Some(next)),
            None => Ok(None),
        },
    }
}

/// The state that the first rule which changes the state makes of it; `None` if no rule changes it.
pub(crate) fn next(alloc: Global, board: &Board, state: &State) -> Result<Option<State>, Fault>
    requires ready { IsReady state.now }
    ensures step { IfOk result (λ next. IfSome next (λ next. IsStep (ballots_on board.now) state.now next)) }
    ensures rests { IfOk result (λ next. IfNone next (Rests (ballots_on board.now) state.now)) }
    ensures exact { IfOk result (λ next. Answers (Step (ballots_on board.now)) state.now next) }
    ensures only_memory { IsOkUnless result Fault.NoMemory }
{
    match state.phase {
        Phase::Prepare => match next_preparing(alloc, board, state)? {
            Some(next) => Ok(Some(next)),
            None => Ok(None),
        },
        Phase::Confirm => match next_confirming(alloc, board, state)? {
            Some(next) => Ok(Some(next)),
            None => Ok(None),
        },
        Phase::Externalize => Ok(None),
    }
}
