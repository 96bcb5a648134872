//! What ballots need.
ghost use Rattle.std.specs.Prelude.{◌≡◌, ℕ, List, Some, Contains, IfOk, OnOk, IsOkUnless};
ghost use Rattle.std.specs.Option.{unwrap_or};
ghost use Rattle.std.specs.BTreeMap as tree;
ghost use Rattle.scp_ballot_rules.specs.scp_envelope.specs.Ballots.{value_cmp};
ghost use Rattle.scp_ballot_rules.specs.scp_envelope.specs.declared.statement.Pledges.TheVariants.{Confirm as Confirming};
ghost use Rattle.scp_ballot_rules.specs.Greatest.{ballot_at};
ghost use Rattle.scp_ballot_rules.specs.Owed.{IsCandidate, IsBoundary};
ghost use Rattle.scp_ballot_rules.specs.scp_vote.specs.declared.claim.Claim.TheVariants.{Prepared, Committed};
ghost use Rattle.scp_ballot_rules.specs.scp_vote.specs.declared.claim.StatementKind.TheVariants.{Balloting};
ghost use Rattle.scp_ballot_rules.specs.scp_vote.specs.Seen.{seen};
ghost use Rattle.scp_stand_needs.specs.declared.steps.Step.TheVariants.{AcceptPrepared, ConfirmPrepared, AcceptCommit};
ghost use Rattle.scp_stand_needs.specs.Needs.{IsPreparing, IsTopBallot, IsBallotDue, AreBallotNeeds};
ghost use Rattle.scp_stand_needs.specs.inside.Found.{IsGreatest, Raises, IsNeedOf, IsNext, IsNeedFor};

use crate::steps::{Need, Step, add, need_unless_reached, next};
use scp_ballot_rules::below::envelope::{Confirm, Pledges};
use scp_ballot_rules::below::vote::{Board, Claim, StatementKind};
use scp_ballot_rules::boundaries::boundaries;
use scp_ballot_rules::candidates::candidates;
use scp_kv::below::types::{Ballot, Fault, NodeId, SharedValue, Value};
use std::alloc::Global;
use std::collections::BTreeMap;

/// The counter of a value.
fn counter_of(counters: &BTreeMap<Value, u32>, value: &Value) -> Option<u32>
    ensures { result ≡ tree.get value_cmp counters.now value.now }
{
    counters.get(value).copied()
}

/// Sets the counter of the ballot's value to the ballot's own, unless the present one is greater.
fn raise(counters: &mut BTreeMap<Value, u32>, ballot: &Ballot) -> Result<(), Fault>
    ensures raised { OnOk result (Raises ballot.now counters.old counters.new) }
    ensures only_memory { IsOkUnless result Fault.NoMemory }
{
    let value = ballot.value.get();
    let before = counter_of(counters, value).unwrap_or(0);
    counters.insert(value.copy()?, ballot.counter.max(before))?;
    Ok(())
}

/// The greatest counter of the ballots of each value.
fn greatest(alloc: Global, ballots: &[Ballot]) -> Result<BTreeMap<Value, u32>, Fault>
    ensures greatest { IfOk result (λ counters. (v : List ℕ) → IsGreatest (λ n. Contains ballots.now (ballot_at n v)) (tree.get value_cmp counters v)) }
    ensures only_memory { IsOkUnless result Fault.NoMemory }
{
    let mut counters = BTreeMap::new(alloc);
    for ballot in ballots {
        raise(&mut counters, ballot)?;
    }
    Ok(counters)
}

/// For each value, the counter of its greatest candidate ballot.
fn top_ballots(alloc: Global, board: &Board) -> Result<BTreeMap<Value, u32>, Fault>
    ensures greatest { IfOk result (λ counters. (v : List ℕ) → IsGreatest (λ n. IsCandidate (seen Balloting board.now) (ballot_at n v)) (tree.get value_cmp counters v)) }
    ensures only_memory { IsOkUnless result Fault.NoMemory }
{
    let list = candidates(alloc, board)?;
    greatest(alloc, list.as_slice())
}

/// For each value, its greatest boundary.
fn top_boundaries(alloc: Global, board: &Board) -> Result<BTreeMap<Value, u32>, Fault>
    ensures greatest { IfOk result (λ counters. (v : List ℕ) → IsGreatest (IsBoundary (seen Balloting board.now) v) (tree.get value_cmp counters v)) }
    ensures only_memory { IsOkUnless result Fault.NoMemory }
{
    let list = boundaries(alloc, board)?;
    greatest(alloc, list.as_slice())
}

/// What a ballot needs to be accepted as prepared, or to be confirmed so.
fn of_prepared(
    alloc: Global,
    members: &[NodeId],
    board: &Board,
    counter: u32,
    value: SharedValue,
) -> Result<Option<Need>, Fault>
    ensures next { IfOk result (IsNext board.now members.now AcceptPrepared ConfirmPrepared (Prepared (ballot_at counter value))) }
    ensures only_memory { IsOkUnless result Fault.NoMemory }
{
    let claim = Claim::Prepared(Ballot { counter, value });
    next(
        alloc,
        members,
        board,
        Step::AcceptPrepared,
        Step::ConfirmPrepared,
        claim,
    )
}

/// What the commit of a value at one counter needs to be accepted or to be confirmed.
fn of_commit(
    alloc: Global,
    members: &[NodeId],
    board: &Board,
    step: Step,
    counter: u32,
    value: SharedValue,
) -> Result<Option<Need>, Fault>
    ensures need { IfOk result (IsNeedOf board.now members.now step (Committed counter counter value)) }
    ensures only_memory { IsOkUnless result Fault.NoMemory }
{
    let claim = Claim::Committed(counter, counter, value);
    need_unless_reached(alloc, members, board, step, claim)
}

/// What the greatest ballot of a value needs: first to be confirmed as prepared, and then a commit at the greatest boundary.
fn of_value(
    alloc: Global,
    members: &[NodeId],
    board: &Board,
    counter: u32,
    value: &Value,
    bound: Option<u32>,
) -> Result<Option<Need>, Fault>
    requires preparing { IsPreparing ((seen Balloting board.now).statement (seen Balloting board.now).me) }
    requires top { IsTopBallot (seen Balloting board.now) (ballot_at counter value.now) }
    requires bound { IsGreatest (IsBoundary (seen Balloting board.now) value.now) bound }
    ensures next { IfOk result (IsNeedFor board.now members.now (IsBallotDue (seen Balloting board.now)) value.now) }
    ensures only_memory { IsOkUnless result Fault.NoMemory }
{
    let shared = SharedValue::new(alloc, value.copy()?)?;
    let need = of_prepared(alloc, members, board, counter, shared.share()?)?;
    if need.is_some() {
        return Ok(need);
    }
    match bound {
        Some(end) => of_commit(alloc, members, board, Step::AcceptCommit, end, shared),
        None => Ok(None),
    }
}

/// What ballots need before this node accepts a commit.
fn preparing(alloc: Global, members: &[NodeId], board: &Board) -> Result<Vec<Need>, Fault>
    requires preparing { IsPreparing ((seen Balloting board.now).statement (seen Balloting board.now).me) }
    ensures needs { IfOk result (λ needs. AreBallotNeeds board.now members.now needs.items) }
    ensures only_memory { IsOkUnless result Fault.NoMemory }
{
    let counters = top_ballots(alloc, board)?;
    let bounds = top_boundaries(alloc, board)?;
    let mut needs = Vec::new(alloc);
    for (value, counter) in &counters {
        let bound = counter_of(&bounds, value);
        let need = of_value(alloc, members, board, *counter, value, bound)?;
        add(&mut needs, need)?;
    }
    Ok(needs)
}

/// What the accepted commit needs to be confirmed, if it isn't confirmed yet.
fn confirming(
    alloc: Global,
    members: &[NodeId],
    board: &Board,
    confirm: &Confirm,
) -> Result<Vec<Need>, Fault>
    requires own { (seen Balloting board.now).statement (seen Balloting board.now).me ≡ Some (Confirming confirm.now) }
    ensures needs { IfOk result (λ needs. AreBallotNeeds board.now members.now needs.items) }
    ensures only_memory { IsOkUnless result Fault.NoMemory }
{
    let mut needs = Vec::new(alloc);
    let value = confirm.ballot.value.share()?;
    let need = of_commit(
        alloc,
        members,
        board,
        Step::ConfirmCommit,
        confirm.n_high,
        value,
    )?;
    add(&mut needs, need)?;
    Ok(needs)
}

/// What ballots need. For each value, this is what its greatest ballot needs, and then a commit at its greatest boundary. Once this node
/// accepted a commit, it is what that commit needs.
pub fn needs_of_ballots(
    alloc: Global,
    members: &[NodeId],
    board: &Board,
) -> Result<Vec<Need>, Fault>
    ensures needs { IfOk result (λ needs. AreBallotNeeds board.now members.now needs.items) }
    ensures only_memory { IsOkUnless result Fault.NoMemory }
{
    match board.own(StatementKind::Balloting) {
        Some(own) => match &own.get().statement.pledges {
            Pledges::Prepare(_) => preparing(alloc, members, board),
            Pledges::Confirm(confirm) => confirming(alloc, members, board, confirm),
            Pledges::Externalize(_) => Ok(Vec::new(alloc)),
            Pledges::Nominate(_) => Ok(Vec::new(alloc)),
        },
        None => preparing(alloc, members, board),
    }
}
