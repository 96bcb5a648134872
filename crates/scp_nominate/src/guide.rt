//! What the steps of nomination read, and the steps.
ghost use Rattle.std.specs.Prelude.{◌≡◌, ◌↔◌, ◌⊎◌, IsTrue, [], ℕ, List, Some, Contains, OnOk, IsOkUnless};
ghost use Rattle.std.specs.Option.{ForSome};
ghost use Rattle.scp_vote.specs.scp_types.specs.declared.names.NodeId.{NodeId};
ghost use Rattle.scp_driver.specs.Driver.{IsFull};
ghost use Rattle.scp_nominate.specs.Heard.{heard};
ghost use Rattle.scp_nominate.specs.inside.Own.{IsVoting, IsVoted, Passes};
ghost use Rattle.scp_nominate.specs.Own.{IsKnown};
ghost use Rattle.scp_nominate.specs.Owed.{OwesNothing, MayVote, VotesFor};
ghost use Rattle.scp_nominate.specs.inside.Steps.{MoreVotes, IsTried};
ghost use Rattle.scp_nominate.specs.Steps.{own_lists};
ghost use Rattle.scp_nominate.specs.Values.{Has};
ghost use Rattle.scp_nominate.specs.inside.Values.{items};
ghost use Rattle.scp_nominate.specs.Voting.{VotesOwn, VotesFirst};
ghost use Rattle.scp_nominate.specs.Repeating.{StepsOnce};
ghost use Rattle.std.specs.List.Sorted.{IsStrictlySortedBy};
ghost use Rattle.scp_vote.specs.scp_quorum.specs.NodeSet.{node_cmp};

use crate::heard::me_of;
use crate::leaders::vote_leaders;
use crate::lists::{Lists, accept, confirm, vote};
use crate::values::ValueSet;
use scp_driver::Driver;
use scp_vote::Board;
use scp_vote::below::types::{Fault, NodeId, Slot, Value};
use std::alloc::Global;

/// What the steps read: the driver, the slot, the leaders so far, ascending, and this node's proposal.
#[derive(Drop)]
pub(crate) struct Guide<D: Driver> {
    pub(crate) driver: D,
    pub(crate) slot: Slot,
    pub(crate) leaders: Vec<NodeId>,
    pub(crate) proposal: Option<Value>,
}

/// Whether the node is among the nodes.
fn has_node(nodes: &[NodeId], node: &NodeId) -> bool
    ensures { IsTrue result ↔ Contains nodes.now node.now }
{
    nodes.contains(node)
}

impl<D: Driver> Guide<D> {
    /// Votes for the proposal, if this node leads.
    #[tactic(auto, using(crate::proofs::Leading::tried_some, crate::proofs::Leading::tried_none))]
    fn vote_own(&self, me: NodeId, votes: &mut ValueSet) -> Result<(), Fault>
        ensures more { OnOk result (MoreVotes votes.old votes.new) }
        ensures tried { OnOk result (Contains self.now.leaders.items me → ForSome self.now.proposal (λ v. IsTried votes.new v)) }
        ensures only { OnOk result ((v : List ℕ) → Has votes.new v → Has votes.old v ⊎ (Contains self.now.leaders.items me × (self.now.proposal ≡ Some v))) }
        ensures exact { OnOk result (VotesOwn (Contains self.now.leaders.items me) self.now.proposal (items votes.old) (items votes.new)) }
        ensures only_memory { IsOkUnless result Fault.NoMemory }
    {
        if !has_node(self.leaders.as_slice(), &me) {
            return Ok(());
        }
        let Some(value) = &self.proposal else {
            return Ok(());
        };
        vote(votes, value)?;
        Ok(())
    }

    /// Step 1: if there is no candidate, votes for the proposal and for what other leaders name.
    fn vote_first(&self, alloc: Global, board: &Board, lists: &mut Lists) -> Result<(), Fault>
        requires ascending { IsStrictlySortedBy node_cmp self.now.leaders.items }
        ensures voting { OnOk result (IsVoting lists.old lists.new) }
        ensures voted { OnOk result (lists.old.candidates.values.items ≡ [] → IsVoted (IsFull (D.says.level self.now.driver) self.now.slot.0) (λ node. Contains self.now.leaders.items node) self.now.proposal (heard board.now) lists.new) }
        ensures only { OnOk result (VotesFor (MayVote (IsFull (D.says.level self.now.driver) self.now.slot.0) (D.says.extracted self.now.driver self.now.slot.0) (λ node. Contains self.now.leaders.items node) self.now.proposal (heard board.now)) (own_lists lists.old) (own_lists lists.new)) }
        ensures exact { OnOk result (VotesFirst (IsFull (D.says.level self.now.driver) self.now.slot.0) (D.says.extracted self.now.driver self.now.slot.0) (λ node. Contains self.now.leaders.items node) self.now.proposal (heard board.now) (own_lists lists.old) (own_lists lists.new)) }
        ensures only_memory { IsOkUnless result Fault.NoMemory }
    {
        if lists.candidates.len() > 0 {
            return Ok(());
        }
        self.vote_own(me_of(board), &mut lists.votes)?;
        let leaders = self.leaders.as_slice();
        vote_leaders(
            &self.driver,
            alloc,
            self.slot,
            board,
            leaders,
            &mut lists.votes,
        )?;
        Ok(())
    }

    /// Steps 1 to 3 on the board as it is: votes, then accepts, then finds candidates. `known` are the fully validated
    /// values on the board.
    pub(crate) fn pass(
        &self,
        alloc: Global,
        board: &Board,
        known: &ValueSet,
        lists: &mut Lists,
    ) -> Result<(), Fault>
        requires known { IsKnown (IsFull (D.says.level self.now.driver) self.now.slot.0) (heard board.now) known.now }
        requires ascending { IsStrictlySortedBy node_cmp self.now.leaders.items }
        ensures passes { OnOk result (Passes (IsFull (D.says.level self.now.driver) self.now.slot.0) (heard board.now) lists.old lists.new) }
        ensures owed { OnOk result (OwesNothing (IsFull (D.says.level self.now.driver) self.now.slot.0) (λ node. Contains self.now.leaders.items node) self.now.proposal (heard board.now) (own_lists lists.new)) }
        ensures votes { OnOk result (VotesFor (MayVote (IsFull (D.says.level self.now.driver) self.now.slot.0) (D.says.extracted self.now.driver self.now.slot.0) (λ node. Contains self.now.leaders.items node) self.now.proposal (heard board.now)) (own_lists lists.old) (own_lists lists.new)) }
        ensures exact { OnOk result (StepsOnce (record { full = IsFull (D.says.level self.now.driver) self.now.slot.0; extracted = D.says.extracted self.now.driver self.now.slot.0; leads = λ node. Contains self.now.leaders.items node; proposal = self.now.proposal }) (heard board.now) (own_lists lists.old) (own_lists lists.new)) }
        ensures only_memory { IsOkUnless result Fault.NoMemory }
    {
        self.vote_first(alloc, board, lists)?;
        accept(board, known, lists)?;
        confirm(board, &lists.accepted, &mut lists.candidates)?;
        Ok(())
    }
}
