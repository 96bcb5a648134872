//! Rule 5: a higher counter if the other nodes are ahead.
ghost use Rattle.std.specs.Prelude.{◌≡◌, ◌≢◌, ◌<◌, ◌≤◌, ◌⊎◌, ℕ, IsSomeAnd, ◌↔◌, None, Some, IsSome, IsTrue, IfOk, IfSome, IfNone, IsOkUnless};
ghost use Rattle.std.specs.Option.{ForSome};
ghost use Rattle.scp_ballot_rules.specs.scp_types.specs.declared.names.NodeId.{NodeId};
ghost use Rattle.scp_ballot_rules.specs.scp_quorum.specs.NodeSet.{is_in};
ghost use Rattle.scp_ballot_rules.specs.Own.{counter_of};
ghost use Rattle.scp_ballot_rules.specs.Ready.{HasValue};
ghost use Rattle.scp_ballot_rules.specs.inside.Rules.{Raises, CatchesUp, RaisesMore};
ghost use Rattle.scp_ballot_rules.specs.Rules.{raised_value};
ghost use Rattle.scp_ballot_rules.specs.inside.Rests.{RaisesNone};
ghost use Rattle.scp_ballot_rules.specs.Owed.{AreAheadOf, counter_in};
ghost use Rattle.scp_ballot_rules.specs.Told.{ballots_on};
ghost use Rattle.scp_ballot.specs.inside.Ahead.{IsAhead, PicksAhead, or_floor, Lessens, IsLeastOfStatement};
ghost use Rattle.scp_ballot_rules.specs.Greatest.{Where};
ghost use Rattle.scp_ballot_rules.specs.RaiseCounter.{IsLeastFree, Raised, RaiseTo, RaiseCounter};
ghost use Rattle.scp_ballot_rules.specs.Steps.{Answers};
ghost use Rattle.scp_ballot_rules.specs.declared.state.Phase.TheVariants.{Prepare, Confirm};

use scp_ballot_rules::below::quorum::blocked;
use scp_ballot_rules::below::types::{Ballot, Fault, NodeId, SharedValue};
use scp_ballot_rules::below::vote::{Board, Entry, StatementKind};
use scp_ballot_rules::{State, copy_some, counter, counter_of_pledges, local_set, me_of};
use std::alloc::{AllocError, Global};
use std::collections::BTreeSet;

/// Whether the node is another one, with a counter above n.
fn is_ahead(me: NodeId, node: &NodeId, entry: &Entry, n: u32) -> bool
    ensures { IsTrue result ↔ ((node.now ≢ me) × (n < counter_in entry.now.envelope.statement.pledges)) }
{
    *node != me && n < counter_of_pledges(&entry.envelope.get().statement.pledges)
}

/// The other nodes whose counters are above n.
fn nodes_ahead(alloc: Global, board: &Board, n: u32) -> Result<BTreeSet<NodeId>, AllocError>
    ensures { IfOk result (λ nodes. PicksAhead (ballots_on board.now) n (is_in nodes)) }
{
    let me = me_of(board);
    let mut nodes = BTreeSet::new(alloc);
    for (node, entry) in board.statements(StatementKind::Balloting) {
        if is_ahead(me, node, entry, n) {
            nodes.insert(*node)?;
        }
    }
    Ok(nodes)
}

/// Whether the other nodes whose counters are above n block the local set.
fn are_ahead(alloc: Global, board: &Board, n: u32) -> Result<bool, Fault>
    ensures exact { IfOk result (λ yes. IsTrue yes ↔ AreAheadOf (ballots_on board.now) n) }
    ensures someone { IfOk result (λ yes. IsTrue yes → ((v : NodeId) → IsAhead (ballots_on board.now) n v → ⊥) → ⊥) }
    ensures nobody { IfOk result (λ _. (m : ℕ) → ((v : NodeId) → IsAhead (ballots_on board.now) m v → ⊥) → AreAheadOf (ballots_on board.now) m → ⊥) }
    ensures only_memory { IsOkUnless result Fault.NoMemory }
{
    let nodes = nodes_ahead(alloc, board, n)?;
    let set = local_set(board);
    let yes = blocked(set, &nodes);
    Ok(yes)
}

/// The greater of the greatest counter so far and a counter above n.
fn greater(top: Option<u32>, counter: u32, n: u32) -> Option<u32>
    requires above { n < counter }
    requires top { ForSome top (λ t. n < t) }
    ensures above { IfSome result (λ t. n < t) }
    ensures highest { IfSome result (λ t. (counter ≤ t) × (or_floor n top ≤ t)) }
    ensures some { result ≡ None → ⊥ }
{
    match top {
        Some(top) if counter < top => Some(top),
        _ => Some(counter),
    }
}

/// The greatest counter of another node that is above n, if there is one.
fn highest_above(board: &Board, n: u32) -> Option<u32>
    ensures above { IfSome result (λ top. n < top) }
    ensures highest { IfSome result (λ top. (v : NodeId) → IsAhead (ballots_on board.now) top v → ⊥) }
    ensures none { result ≡ None → (v : NodeId) → IsAhead (ballots_on board.now) n v → ⊥ }
{
    let me = me_of(board);
    let mut top = None;
    for (node, entry) in board.statements(StatementKind::Balloting) {
        if is_ahead(me, node, entry, n) {
            let counter = counter_of_pledges(&entry.envelope.get().statement.pledges);
            top = greater(top, counter, n);
        }
    }
    top
}

/// The counter, if it is above n and below the least so far and the nodes above it don't block the local set; else the least.
fn lesser(alloc: Global, board: &Board, n: u32, counter: u32, least: u32) -> Result<u32, Fault>
    requires above { n < least }
    ensures above { IfOk result (λ new. n < new) }
    ensures lessens { IfOk result (λ new. Lessens (ballots_on board.now) n counter least new) }
    ensures only_memory { IsOkUnless result Fault.NoMemory }
{
    if counter <= n || counter >= least {
        return Ok(least);
    }
    if are_ahead(alloc, board, counter)? {
        Ok(least)
    } else {
        Ok(counter)
    }
}

/// The least counter above n, and at most `top`, for which the nodes with a counter above it don't block the local set.
fn least_counter(alloc: Global, board: &Board, n: u32, top: u32) -> Result<u32, Fault>
    requires above { n < top }
    requires free { ¬ (AreAheadOf (ballots_on board.now) top) }
    ensures above { IfOk result (λ new. n < new) }
    ensures free { IfOk result (λ new. ¬ (AreAheadOf (ballots_on board.now) new)) }
    ensures least { IfOk result (λ new. (v : NodeId) → IsLeastOfStatement (ballots_on board.now) n new v) }
    ensures only_memory { IsOkUnless result Fault.NoMemory }
{
    let mut least = top;
    for (node, entry) in board.statements(StatementKind::Balloting) {
        let _ = node;
        let counter = counter_of_pledges(&entry.envelope.get().statement.pledges);
        least = lesser(alloc, board, n, counter, least)?;
    }
    Ok(least)
}

/// The counter to raise to, if the other nodes whose counters are above n block the local set: the least one for which those
/// above it don't.
fn raised_counter(alloc: Global, board: &Board, n: u32) -> Result<Option<u32>, Fault>
    ensures above { IfOk result (λ found. IfSome found (λ new. n < new)) }
    ensures ahead { IfOk result (λ found. IfSome found (λ _. AreAheadOf (ballots_on board.now) n)) }
    ensures least { IfOk result (λ found. IfSome found (λ new. IsLeastFree (ballots_on board.now) new)) }
    ensures none { IfOk result (λ found. IfNone found (AreAheadOf (ballots_on board.now) n → ⊥)) }
    ensures only_memory { IsOkUnless result Fault.NoMemory }
{
    if !are_ahead(alloc, board, n)? {
        return Ok(None);
    }
    match highest_above(board, n) {
        Some(top) => {
            let least = least_counter(alloc, board, n, top)?;
            Ok(Some(least))
        }
        None => Ok(None),
    }
}

/// The value for a raised ballot, in the phase Prepare.
fn share_raised_value(state: &State) -> Result<Option<SharedValue>, Fault>
    ensures value { IfOk result (λ value. value ≡ raised_value state.now.confirmed state.now.composite state.now.prepared) }
    ensures only_memory { IsOkUnless result Fault.NoMemory }
{
    if let Some(confirmed) = &state.confirmed {
        return Ok(Some(confirmed.value.share()?));
    }
    if let Some(composite) = &state.composite {
        return Ok(Some(composite.share()?));
    }
    match &state.prepared {
        Some(prepared) => Ok(Some(prepared.value.share()?)),
        None => Ok(None),
    }
}

/// A copy of the low end if it has this value.
fn copy_compatible(low: &Option<Ballot>, value: &SharedValue) -> Result<Option<Ballot>, Fault>
    ensures kept { IfOk result (λ kept. (kept ≡ None) ⊎ ((kept ≡ low.now) × ForSome low.now (λ c. c.value ≡ value.now))) }
    ensures exact { IfOk result (λ kept. Where (IsSomeAnd low.now (λ c. c.value ≢ value.now)) None low.now kept) }
    ensures only_memory { IsOkUnless result Fault.NoMemory }
{
    match low {
        Some(ballot) if ballot.value == *value => Ok(Some(ballot.copy()?)),
        _ => Ok(None),
    }
}

/// A copy of the confirmed ballot; if there is none, of the high end.
fn copy_high(state: &State) -> Result<Option<Ballot>, Fault>
    ensures exact { IfOk result (λ high. Where (IsSome state.now.confirmed) state.now.confirmed state.now.high high) }
    ensures high { IfOk result (λ high. (IfSome state.now.confirmed (λ w. high ≡ state.now.confirmed)) × (state.now.confirmed ≡ None → high ≡ state.now.high)) }
    ensures only_memory { IsOkUnless result Fault.NoMemory }
{
    match &state.confirmed {
        Some(confirmed) => Ok(Some(confirmed.copy()?)),
        None => copy_some(&state.high),
    }
}

/// In the phase Prepare: the state with a current ballot of this counter; `None` if there is no value for it.
#[tactic(auto, using(scp_ballot_rules::proofs::Raised::raised, scp_ballot_rules::proofs::Raised::no_value))]
pub(crate) fn raise_preparing(state: &State, counter: u32) -> Result<Option<State>, Fault>
    requires higher { counter_of state.now.present < counter }
    ensures raised { IfOk result (λ next. IfSome next (λ next. Raises state.now next × (counter_of next.present ≡ counter))) }
    ensures exact { state.now.phase ≡ Prepare → IfOk result (λ next. Answers (RaiseTo counter) state.now next) }
    ensures none { IfOk result (λ next. IfNone next (HasValue state.now → ⊥)) }
    ensures only_memory { IsOkUnless result Fault.NoMemory }
{
    match share_raised_value(state)? {
        Some(value) => {
            let low = copy_compatible(&state.low, &value)?;
            let high = copy_high(state)?;
            let copied = state.copy()?;
            Ok(Some(State {
                present: Some(Ballot { counter, value }),
                high,
                low,
                ..copied
            }))
        }
        None => Ok(None),
    }
}

/// The state with a current ballot of this counter and value.
fn with_present(state: &State, counter: u32, value: SharedValue) -> Result<State, Fault>
    ensures made { IfOk result (λ next. next ≡ record state.now { present = Some (record { counter = counter; value = value }) }) }
    ensures only_memory { IsOkUnless result Fault.NoMemory }
{
    let copied = state.copy()?;
    Ok(State {
        present: Some(Ballot { counter, value }),
        ..copied
    })
}

/// In the phase Confirm: the state with a current ballot of this counter; `None` if there is no low end.
pub(crate) fn raise_confirming(state: &State, counter: u32) -> Result<Option<State>, Fault>
    requires higher { counter_of state.now.present < counter }
    ensures raised { IfOk result (λ next. IfSome next (λ next. RaisesMore state.now next × (counter_of next.present ≡ counter))) }
    ensures exact { state.now.phase ≡ Confirm → IfOk result (λ next. Answers (RaiseTo counter) state.now next) }
    ensures none { IfOk result (λ next. IfNone next (state.now.low ≡ None)) }
    ensures only_memory { IsOkUnless result Fault.NoMemory }
{
    match &state.low {
        Some(low) => {
            let value = low.value.share()?;
            let next = with_present(state, counter, value)?;
            Ok(Some(next))
        }
        None => Ok(None),
    }
}

/// Whether there is a value for a raised ballot, in the phase Prepare.
fn has_value(state: &State) -> bool
    ensures { IsTrue result ↔ HasValue state.now }
{
    state.confirmed.is_some() || state.composite.is_some() || state.prepared.is_some()
}

/// In the phase Prepare: the state raised to where the others aren't ahead, if they are ahead now and there is a value.
pub(crate) fn catch_up(alloc: Global, board: &Board, state: &State) -> Result<Option<State>, Fault>
    ensures step { IfOk result (λ next. IfSome next (λ next. CatchesUp (ballots_on board.now) state.now next)) }
    ensures rests { IfOk result (λ next. IfNone next (RaisesNone (ballots_on board.now) state.now)) }
    ensures exact { state.now.phase ≡ Prepare → IfOk result (λ next. Answers (RaiseCounter (ballots_on board.now)) state.now next) }
    ensures only_memory { IsOkUnless result Fault.NoMemory }
{
    if !has_value(state) {
        return Ok(None);
    }
    match raised_counter(alloc, board, counter(&state.present))? {
        Some(n) => match raise_preparing(state, n)? {
            Some(next) => Ok(Some(next)),
            None => Ok(None),
        },
        None => Ok(None),
    }
}

/// In the phase Confirm: the state raised to where the others aren't ahead, if they are ahead now.
pub(crate) fn catch_up_more(
    alloc: Global,
    board: &Board,
    state: &State,
) -> Result<Option<State>, Fault>
    requires low { IsSome state.now.low }
    ensures step { IfOk result (λ next. IfSome next (λ next. RaisesMore state.now next)) }
    ensures rests { IfOk result (λ next. IfNone next (AreAheadOf (ballots_on board.now) (counter_of state.now.present) → ⊥)) }
    ensures exact { state.now.phase ≡ Confirm → IfOk result (λ next. Answers (RaiseCounter (ballots_on board.now)) state.now next) }
    ensures only_memory { IsOkUnless result Fault.NoMemory }
{
    match raised_counter(alloc, board, counter(&state.present))? {
        Some(n) => match raise_confirming(state, n)? {
            Some(next) => Ok(Some(next)),
            None => Ok(None),
        },
        None => Ok(None),
    }
}
