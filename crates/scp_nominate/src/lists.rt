//! A node's own lists, and the steps that make them grow.
ghost use Rattle.std.specs.Prelude.{◌≡◌, ◌⊎◌, ◌↔◌, ℕ, List, IfOk, IsTrue, OnOk, IsOkUnless};
ghost use Rattle.scp_vote.specs.Board.{Accepted, Confirmed};
ghost use Rattle.scp_nominate.specs.Heard.{heard};
ghost use Rattle.scp_vote.specs.declared.claim.Claim.TheVariants.{Nominated};
ghost use Rattle.scp_nominate.specs.Values.{Has};
ghost use Rattle.scp_nominate.specs.inside.Values.{items};
ghost use Rattle.scp_nominate.specs.inside.Steps.{MoreVotes, IsTried, HasRoom, IsTaken, Accepts, Confirms};
ghost use Rattle.scp_nominate.specs.Steps.{own_lists};
ghost use Rattle.scp_nominate.specs.InTurn.{InTurn};
ghost use Rattle.scp_nominate.specs.Places.{VotesOne};
ghost use Rattle.scp_nominate.specs.Taking.{TakesOne};

use crate::values::ValueSet;
use scp_vote::below::types::{Fault, Value};
use scp_vote::{Board, Claim};

/// The most values of an own list (this project's profile).
const LIMIT: usize = 7;

/// What a node votes for and accepts, and which values it found confirmed.
#[derive(Drop)]
pub(crate) struct Lists {
    pub(crate) votes: ValueSet,
    pub(crate) accepted: ValueSet,
    pub(crate) candidates: ValueSet,
}

/// Votes for the value, unless the votes are full.
#[tactic(auto, using(crate::proofs::Growing::voted, crate::proofs::Growing::added_has))]
pub(crate) fn vote(votes: &mut ValueSet, value: &Value) -> Result<(), Fault>
    ensures more { OnOk result (MoreVotes votes.old votes.new) }
    ensures tried { OnOk result (IsTried votes.new value.now) }
    ensures room { OnOk result (HasRoom votes.old value.now → Has votes.new value.now) }
    ensures only { OnOk result ((v : List ℕ) → Has votes.new v → Has votes.old v ⊎ (value.now ≡ v)) }
    ensures exact { OnOk result (VotesOne value.now (items votes.old) (items votes.new)) }
    ensures only_memory { IsOkUnless result Fault.NoMemory }
{
    if votes.contains(value) || votes.len() >= LIMIT {
        return Ok(());
    }
    votes.insert(value.copy()?)
}

/// Whether the value is voted for, or there is room for one more vote.
fn has_room(votes: &ValueSet, value: &Value) -> bool
    ensures { IsTrue result ↔ HasRoom votes.now value.now }
{
    votes.contains(value) || votes.len() < LIMIT
}

/// Whether the nomination of the value is accepted on the board.
fn is_accepted(board: &Board, value: &Value) -> Result<bool, Fault>
    ensures exact { IfOk result (λ yes. IsTrue yes ↔ Accepted (heard board.now) (Nominated value.now)) }
    ensures only_memory { IsOkUnless result Fault.NoMemory }
{
    let claim = Claim::Nominated(value.copy()?);
    board.accepted(&claim)
}

/// Whether the nomination of the value is confirmed on the board.
fn is_confirmed(board: &Board, value: &Value) -> Result<bool, Fault>
    ensures exact { IfOk result (λ yes. IsTrue yes ↔ Confirmed (heard board.now) (Nominated value.now)) }
    ensures only_memory { IsOkUnless result Fault.NoMemory }
{
    let claim = Claim::Nominated(value.copy()?);
    board.confirmed(&claim)
}

/// Accepts the value if it is accepted on the board and there is room for it.
#[tactic(auto, using(crate::proofs::Growing::accepts_none, crate::proofs::Growing::no_room, crate::proofs::Growing::accepts_one))]
fn accept_one(board: &Board, value: &Value, lists: &mut Lists) -> Result<(), Fault>
    ensures accepts { OnOk result (Accepts (λ v. value.now ≡ v) (heard board.now) lists.old lists.new) }
    ensures taken { OnOk result (Accepted (heard board.now) (Nominated value.now) → IsTaken lists.new value.now) }
    ensures exact { OnOk result (TakesOne (heard board.now) value.now (own_lists lists.old) (own_lists lists.new)) }
    ensures only_memory { IsOkUnless result Fault.NoMemory }
{
    if lists.accepted.contains(value) {
        return Ok(());
    }
    if !has_room(&lists.votes, value) {
        return Ok(());
    }
    if !is_accepted(board, value)? {
        return Ok(());
    }
    vote(&mut lists.votes, value)?;
    lists.accepted.insert(value.copy()?)?;
    Ok(())
}

/// Accepts each known value that is accepted on the board, in order, while there is room for it.
pub(crate) fn accept(board: &Board, known: &ValueSet, lists: &mut Lists) -> Result<(), Fault>
    ensures accepts { OnOk result (Accepts (λ v. Has known.now v) (heard board.now) lists.old lists.new) }
    ensures taken { OnOk result ((v : List ℕ) → Has known.now v → Accepted (heard board.now) (Nominated v) → IsTaken lists.new v) }
    ensures exact { OnOk result (InTurn (λ v s t. TakesOne (heard board.now) v s t) (items known.now) (own_lists lists.old) (own_lists lists.new)) }
    ensures only_memory { IsOkUnless result Fault.NoMemory }
{
    for value in known.as_slice() {
        accept_one(board, value, lists)?;
    }
    Ok(())
}

#[tactic(auto, using(crate::proofs::Growing::confirms_none, crate::proofs::Growing::confirms_one))]
/// Makes the value a candidate if it is confirmed on the board.
fn confirm_one(board: &Board, value: &Value, candidates: &mut ValueSet) -> Result<(), Fault>
    ensures confirms { OnOk result (Confirms (λ v. value.now ≡ v) (heard board.now) candidates.old candidates.new) }
    ensures done { OnOk result (Confirmed (heard board.now) (Nominated value.now) → Has candidates.new value.now) }
    ensures only_memory { IsOkUnless result Fault.NoMemory }
{
    if candidates.contains(value) {
        return Ok(());
    }
    if !is_confirmed(board, value)? {
        return Ok(());
    }
    candidates.insert(value.copy()?)?;
    Ok(())
}

/// Makes each accepted value that is confirmed on the board a candidate.
pub(crate) fn confirm(
    board: &Board,
    accepted: &ValueSet,
    candidates: &mut ValueSet,
) -> Result<(), Fault>
    ensures confirms { OnOk result (Confirms (λ v. Has accepted.now v) (heard board.now) candidates.old candidates.new) }
    ensures done { OnOk result ((v : List ℕ) → Has accepted.now v → Confirmed (heard board.now) (Nominated v) → Has candidates.new v) }
    ensures only_memory { IsOkUnless result Fault.NoMemory }
{
    for value in accepted.as_slice() {
        confirm_one(board, value, candidates)?;
    }
    Ok(())
}
