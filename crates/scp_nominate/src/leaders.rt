//! Votes for what other leaders name.
ghost use Rattle.std.specs.Prelude.{◌≡◌, ◌≢◌, ◌⊎◌, ℕ, List, Contains, IfOk, OnOk, IsOkUnless};
ghost use Rattle.scp_vote.specs.scp_types.specs.declared.names.NodeId.{NodeId};
ghost use Rattle.scp_driver.specs.Driver.{IsFull};
ghost use Rattle.scp_nominate.specs.Heard.{heard};
ghost use Rattle.scp_vote.specs.scp_envelope.specs.Claims.{VotesValue, AcceptsValue};
ghost use Rattle.scp_nominate.specs.Values.{Has};
ghost use Rattle.scp_nominate.specs.inside.Values.{items};
ghost use Rattle.scp_nominate.specs.inside.Steps.{More, MoreVotes, IsTried};
ghost use Rattle.scp_nominate.specs.Owed.{Names, Gives, Suggests};
ghost use Rattle.scp_nominate.specs.InTurn.{InTurn};
ghost use Rattle.scp_nominate.specs.Voting.{VotesNamed, AreNamedBy, VotesAfter};

use crate::heard::{me_of, statement_of};
use crate::lists::vote;
use crate::values::ValueSet;
use scp_driver::{Driver, Level};
use scp_vote::Board;
use scp_vote::below::envelope::Pledges;
use scp_vote::below::types::{Fault, NodeId, Slot, Value};
use std::alloc::Global;

/// Adds the value to the set, if it isn't there.
#[tactic(auto, using(crate::proofs::Growing::more_added, crate::proofs::Growing::added_has))]
pub(crate) fn add(set: &mut ValueSet, value: &Value) -> Result<(), Fault>
    ensures more { OnOk result (More set.old set.new) }
    ensures added { OnOk result (Has set.new value.now) }
    ensures only { OnOk result ((v : List ℕ) → Has set.new v → Has set.old v ⊎ (value.now ≡ v)) }
    ensures only_memory { IsOkUnless result Fault.NoMemory }
{
    set.insert(value.copy()?)
}

/// Adds the values to the set.
fn add_all(set: &mut ValueSet, values: &[Value]) -> Result<(), Fault>
    ensures more { OnOk result (More set.old set.new) }
    ensures added { OnOk result ((v : List ℕ) → Contains values.now v → Has set.new v) }
    ensures only { OnOk result ((v : List ℕ) → Has set.new v → Has set.old v ⊎ Contains values.now v) }
    ensures only_memory { IsOkUnless result Fault.NoMemory }
{
    for value in values {
        add(set, value)?;
    }
    Ok(())
}

/// Votes for the value if it is fully validated, else for what the driver takes from it, if anything.
fn vote_of<D: Driver>(
    driver: &D,
    alloc: Global,
    slot: Slot,
    value: &Value,
    votes: &mut ValueSet,
) -> Result<(), Fault>
    ensures more { OnOk result (MoreVotes votes.old votes.new) }
    ensures tried { OnOk result (IsFull (D.says.level driver.now) slot.0 value.now → IsTried votes.new value.now) }
    ensures only { OnOk result ((v : List ℕ) → Has votes.new v → Has votes.old v ⊎ Gives (IsFull (D.says.level driver.now) slot.0) (D.says.extracted driver.now slot.0) value.now v) }
    ensures exact { OnOk result (VotesNamed (IsFull (D.says.level driver.now) slot.0) (D.says.extracted driver.now slot.0) value.now (items votes.old) (items votes.new)) }
    ensures only_memory { IsOkUnless result Fault.NoMemory }
{
    if driver.validate(slot, value) == Level::FullyValidated {
        return vote(votes, value);
    }
    match driver.extract(alloc, slot, value)? {
        Some(found) => vote(votes, &found),
        None => Ok(()),
    }
}

/// Votes for each value as `vote_of` does, in order.
fn vote_all<D: Driver>(
    driver: &D,
    alloc: Global,
    slot: Slot,
    values: &[Value],
    votes: &mut ValueSet,
) -> Result<(), Fault>
    ensures more { OnOk result (MoreVotes votes.old votes.new) }
    ensures tried { OnOk result ((v : List ℕ) → Contains values.now v → IsFull (D.says.level driver.now) slot.0 v → IsTried votes.new v) }
    ensures only { OnOk result ((v : List ℕ) → Has votes.new v → Has votes.old v ⊎ ((w : List ℕ) × Contains values.now w × Gives (IsFull (D.says.level driver.now) slot.0) (D.says.extracted driver.now slot.0) w v)) }
    ensures exact { OnOk result (InTurn (λ v s t. VotesNamed (IsFull (D.says.level driver.now) slot.0) (D.says.extracted driver.now slot.0) v s t) values.now (items votes.old) (items votes.new)) }
    ensures only_memory { IsOkUnless result Fault.NoMemory }
{
    for value in values {
        vote_of(driver, alloc, slot, value, votes)?;
    }
    Ok(())
}

/// The values of both lists.
fn both(alloc: Global, votes: &[Value], accepted: &[Value]) -> Result<ValueSet, Fault>
    ensures all { IfOk result (λ set. (v : List ℕ) → Contains votes.now v ⊎ Contains accepted.now v → Has set v) }
    ensures only { IfOk result (λ set. (v : List ℕ) → Has set v → Contains votes.now v ⊎ Contains accepted.now v) }
    ensures only_memory { IsOkUnless result Fault.NoMemory }
{
    let mut set = ValueSet::new(alloc);
    add_all(&mut set, votes)?;
    add_all(&mut set, accepted)?;
    Ok(set)
}

/// The values that the pledges vote for or accept.
pub(crate) fn named(alloc: Global, pledges: &Pledges) -> Result<ValueSet, Fault>
    ensures all { IfOk result (λ set. (v : List ℕ) → VotesValue pledges.now v ⊎ AcceptsValue pledges.now v → Has set v) }
    ensures only { IfOk result (λ set. (v : List ℕ) → Has set v → VotesValue pledges.now v ⊎ AcceptsValue pledges.now v) }
    ensures only_memory { IsOkUnless result Fault.NoMemory }
{
    match pledges {
        Pledges::Nominate(nominate) => both(
            alloc,
            nominate.votes.as_slice(),
            nominate.accepted.as_slice(),
        ),
        _ => Ok(ValueSet::new(alloc)),
    }
}

/// Votes for what the leader's statement on the board names.
fn vote_leader<D: Driver>(
    driver: &D,
    alloc: Global,
    slot: Slot,
    board: &Board,
    leader: &NodeId,
    votes: &mut ValueSet,
) -> Result<(), Fault>
    ensures more { OnOk result (MoreVotes votes.old votes.new) }
    ensures tried { OnOk result ((v : List ℕ) → IsFull (D.says.level driver.now) slot.0 v → Names (heard board.now) leader.now v → IsTried votes.new v) }
    ensures only { OnOk result ((v : List ℕ) → Has votes.new v → Has votes.old v ⊎ ((w : List ℕ) × Names (heard board.now) leader.now w × Gives (IsFull (D.says.level driver.now) slot.0) (D.says.extracted driver.now slot.0) w v)) }
    ensures exact { OnOk result ((values : List (List ℕ)) × AreNamedBy (heard board.now) leader.now values × InTurn (λ v s t. VotesNamed (IsFull (D.says.level driver.now) slot.0) (D.says.extracted driver.now slot.0) v s t) values (items votes.old) (items votes.new)) }
    ensures only_memory { IsOkUnless result Fault.NoMemory }
{
    match statement_of(board, leader) {
        Some(envelope) => {
            let values = named(alloc, &envelope.get().statement.pledges)?;
            vote_all(driver, alloc, slot, values.as_slice(), votes)
        }
        None => Ok(()),
    }
}

/// Votes for what the leader's statement names, unless the leader is this node.
fn vote_other<D: Driver>(
    driver: &D,
    alloc: Global,
    slot: Slot,
    board: &Board,
    leader: &NodeId,
    votes: &mut ValueSet,
) -> Result<(), Fault>
    ensures more { OnOk result (MoreVotes votes.old votes.new) }
    ensures tried { OnOk result (leader.now ≢ (heard board.now).me → (v : List ℕ) → IsFull (D.says.level driver.now) slot.0 v → Names (heard board.now) leader.now v → IsTried votes.new v) }
    ensures only { OnOk result ((v : List ℕ) → Has votes.new v → Has votes.old v ⊎ Suggests (IsFull (D.says.level driver.now) slot.0) (D.says.extracted driver.now slot.0) (heard board.now) leader.now v) }
    ensures exact { OnOk result (VotesAfter (IsFull (D.says.level driver.now) slot.0) (D.says.extracted driver.now slot.0) (heard board.now) leader.now (items votes.old) (items votes.new)) }
    ensures only_memory { IsOkUnless result Fault.NoMemory }
{
    if *leader == me_of(board) {
        return Ok(());
    }
    vote_leader(driver, alloc, slot, board, leader, votes)
}

/// Votes for what the statements of the leaders name, in their order, leaving out this node.
pub(crate) fn vote_leaders<D: Driver>(
    driver: &D,
    alloc: Global,
    slot: Slot,
    board: &Board,
    leaders: &[NodeId],
    votes: &mut ValueSet,
) -> Result<(), Fault>
    ensures more { OnOk result (MoreVotes votes.old votes.new) }
    ensures tried { OnOk result ((node : NodeId) → Contains leaders.now node → node ≢ (heard board.now).me → (v : List ℕ) → IsFull (D.says.level driver.now) slot.0 v → Names (heard board.now) node v → IsTried votes.new v) }
    ensures only { OnOk result ((v : List ℕ) → Has votes.new v → Has votes.old v ⊎ ((node : NodeId) × Contains leaders.now node × Suggests (IsFull (D.says.level driver.now) slot.0) (D.says.extracted driver.now slot.0) (heard board.now) node v)) }
    ensures exact { OnOk result (InTurn (λ node s t. VotesAfter (IsFull (D.says.level driver.now) slot.0) (D.says.extracted driver.now slot.0) (heard board.now) node s t) leaders.now (items votes.old) (items votes.new)) }
    ensures only_memory { IsOkUnless result Fault.NoMemory }
{
    for leader in leaders {
        vote_other(driver, alloc, slot, board, leader, votes)?;
    }
    Ok(())
}
