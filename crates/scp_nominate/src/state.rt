//! A node's board, its lists, and the loop over the steps.
ghost use Rattle.std.specs.Prelude.{◌≡◌, ◌≤◌, ◌+◌, ◌⊎◌, ℕ, List, Option, length, Contains, OnOk, IfOk, IsOkUnless, is_some, IsSome, ◌↔◌, ◌<◌};
ghost use Rattle.scp_vote.specs.Board.{kind_of_pledges};
ghost use Rattle.scp_vote.specs.declared.claim.StatementKind.TheVariants.{Nomination};
ghost use Rattle.scp_nominate.specs.Heard.{heard};
ghost use Rattle.std.specs.Option.{ForSome};
ghost use Rattle.scp_vote.specs.scp_types.specs.declared.names.NodeId.{NodeId};
ghost use Rattle.scp_driver.specs.Driver.{IsFull};
ghost use Rattle.scp_nominate.specs.Owed.{OwesNothing, MayVote, VotesFor};
ghost use Rattle.scp_nominate.specs.Steps.{own_lists};
ghost use Rattle.scp_nominate.specs.Repeating.{LeadsTo};
ghost use Rattle.std.specs.List.Sorted.{IsStrictlySortedBy};
ghost use Rattle.scp_vote.specs.scp_quorum.specs.NodeSet.{node_cmp};

use crate::guide::Guide;
use crate::heard::{local_of, me_of, new_board, put_nominate};
use crate::known::know;
use crate::leaders::named;
use crate::lists::Lists;
use crate::nominated::Nominated;
use crate::values::ValueSet;
use scp_driver::Driver;
use scp_vote::Board;
use scp_vote::below::envelope::{
    Envelope, Nominate, Pledges, SharedEnvelope, Signature, Statement,
};
use scp_vote::below::quorum::SaneSet;
use scp_vote::below::types::{Fault, Hash, NodeId, Slot, Value};
use std::alloc::Global;
use std::sync::Arc;

/// The board, this node's lists, and the fully validated values on the board.
#[derive(Drop)]
pub(crate) struct State {
    pub(crate) alloc: Global,
    pub(crate) hash: Hash,
    pub(crate) board: Board,
    pub(crate) known: ValueSet,
    pub(crate) lists: Lists,
}

impl State {
    ghost use Rattle.scp_nominate.specs.State.{IsAtRest};
    ghost use Rattle.scp_nominate.specs.inside.State.{IsSettling, IsOwnOf, Renews, HearsOne, StateBegins};

    /// An empty board for this node and its set, and empty lists.
    pub(crate) fn new(alloc: Global, me: NodeId, local: Arc<SaneSet>) -> Result<State, Fault>
        ensures begins { IfOk result (λ made. StateBegins me local.value made) }
        ensures only_memory { IsOkUnless result Fault.NoMemory }
    {
        let hash = local.hash();
        let lists = Lists {
            votes: ValueSet::new(alloc),
            accepted: ValueSet::new(alloc),
            candidates: ValueSet::new(alloc),
        };
        Ok(State {
            alloc,
            hash,
            board: new_board(alloc, me, local),
            known: ValueSet::new(alloc),
            lists,
        })
    }

    /// How many values the votes and the accepted values are together.
    fn size(&self) -> usize
        requires few { length self.now.lists.votes.values.items + length self.now.lists.accepted.values.items ≤ 14 }
        ensures { result ≡ length self.now.lists.votes.values.items + length self.now.lists.accepted.values.items }
    {
        self.lists.votes.len() + self.lists.accepted.len()
    }

    /// The own statement of the lists, without a signature.
    fn own(&self, slot: Slot) -> Result<Envelope, Fault>
        ensures own { IfOk result (λ e. IsOwnOf self.now slot.0 e) }
        ensures only_memory { IsOkUnless result Fault.NoMemory }
    {
        let pledges = Pledges::Nominate(Nominate {
            set_hash: self.hash,
            votes: self.lists.votes.copy_list(self.alloc)?,
            accepted: self.lists.accepted.copy_list(self.alloc)?,
        });
        let statement = Statement {
            node: me_of(&self.board),
            slot,
            pledges,
        };
        Ok(Envelope {
            statement,
            signature: Signature::new(Vec::new(self.alloc)),
        })
    }

    /// Puts the own statement of the lists on the board.
    fn renew<D: Driver>(&mut self, guide: &Guide<D>) -> Result<(), Fault>
        ensures renews { OnOk result (Renews (IsFull (D.says.level guide.now.driver) guide.now.slot.0) self.old self.new) }
        ensures only_memory { IsOkUnless result Fault.NoMemory }
    {
        let envelope = SharedEnvelope::new(self.alloc, self.own(guide.slot)?)?;
        let votes = self.lists.votes.as_slice();
        know(&guide.driver, guide.slot, votes, &mut self.known)?;
        let local = local_of(&self.board).clone()?;
        put_nominate(&mut self.board, envelope, local)?;
        Ok(())
    }

    /// Repeats the steps until they leave the own lists as they are; these are then on the board. Returns whether the own statement changed.
    fn settle<D: Driver>(&mut self, guide: &Guide<D>) -> Result<bool, Fault>
        requires rest { IsAtRest (IsFull (D.says.level guide.now.driver) guide.now.slot.0) self.old }
        requires ascending { IsStrictlySortedBy node_cmp guide.now.leaders.items }
        ensures settled { IfOk result (λ renewed. IsSettling (IsFull (D.says.level guide.now.driver) guide.now.slot.0) self.old self.new renewed) }
        ensures owed { OnOk result (OwesNothing (IsFull (D.says.level guide.now.driver) guide.now.slot.0) (λ node. Contains guide.now.leaders.items node) guide.now.proposal (heard self.new.board) (own_lists self.new.lists)) }
        ensures votes { OnOk result (VotesFor (MayVote (IsFull (D.says.level guide.now.driver) guide.now.slot.0) (D.says.extracted guide.now.driver guide.now.slot.0) (λ node. Contains guide.now.leaders.items node) guide.now.proposal (heard self.new.board)) (own_lists self.old.lists) (own_lists self.new.lists)) }
        ensures exact { OnOk result (LeadsTo (record { full = IsFull (D.says.level guide.now.driver) guide.now.slot.0; extracted = D.says.extracted guide.now.driver guide.now.slot.0; leads = λ node. Contains guide.now.leaders.items node; proposal = guide.now.proposal }) self.old.hash (heard self.old.board) (own_lists self.old.lists) (heard self.new.board) (own_lists self.new.lists)) }
        ensures only_memory { IsOkUnless result Fault.NoMemory }
    {
        let mut renewed = false;
        loop {
            let before = self.size();
            guide.pass(self.alloc, &self.board, &self.known, &mut self.lists)?;
            if self.size() == before {
                return Ok(renewed);
            }
            self.renew(guide)?;
            renewed = true;
        }
    }

    /// The own statement, if it is to be emitted.
    fn emitted(&self, slot: Slot, renewed: bool) -> Result<Option<SharedEnvelope>, Fault>
        ensures exactly { IfOk result (λ found. is_some found ≡ renewed) }
        ensures own { IfOk result (λ found. ForSome found (λ e. IsOwnOf self.now slot.0 e)) }
        ensures only_memory { IsOkUnless result Fault.NoMemory }
    {
        if renewed {
            let own = self.own(slot)?;
            Ok(Some(SharedEnvelope::new(self.alloc, own)?))
        } else {
            Ok(None)
        }
    }

    /// The composite of all candidates, if there are more than `before`.
    fn composite<D: Driver>(&self, guide: &Guide<D>, before: usize) -> Result<Option<Value>, Fault>
        ensures more { IfOk result (λ found. IsSome found ↔ (before < length self.now.lists.candidates.values.items)) }
        ensures all { IfOk result (λ found. ForSome found (λ v. v ≡ D.says.combined guide.now.driver guide.now.slot.0 self.now.lists.candidates.values.items)) }
        ensures only_memory { IsOkUnless result Fault.NoMemory }
    {
        let candidates = self.lists.candidates.as_slice();
        if candidates.len() <= before {
            return Ok(None);
        }
        let all = guide.driver.combine(self.alloc, guide.slot, candidates)?;
        Ok(Some(all))
    }

    /// Repeats the steps after an input. Returns what the input gives.
    pub(crate) fn advance<D: Driver>(&mut self, guide: &Guide<D>) -> Result<Nominated, Fault>
        requires rest { IsAtRest (IsFull (D.says.level guide.now.driver) guide.now.slot.0) self.old }
        requires ascending { IsStrictlySortedBy node_cmp guide.now.leaders.items }
        ensures settled { IfOk result (λ given. IsSettling (IsFull (D.says.level guide.now.driver) guide.now.slot.0) self.old self.new (is_some given.statement)) }
        ensures owed { OnOk result (OwesNothing (IsFull (D.says.level guide.now.driver) guide.now.slot.0) (λ node. Contains guide.now.leaders.items node) guide.now.proposal (heard self.new.board) (own_lists self.new.lists)) }
        ensures votes { OnOk result (VotesFor (MayVote (IsFull (D.says.level guide.now.driver) guide.now.slot.0) (D.says.extracted guide.now.driver guide.now.slot.0) (λ node. Contains guide.now.leaders.items node) guide.now.proposal (heard self.new.board)) (own_lists self.old.lists) (own_lists self.new.lists)) }
        ensures exact { OnOk result (LeadsTo (record { full = IsFull (D.says.level guide.now.driver) guide.now.slot.0; extracted = D.says.extracted guide.now.driver guide.now.slot.0; leads = λ node. Contains guide.now.leaders.items node; proposal = guide.now.proposal }) self.old.hash (heard self.old.board) (own_lists self.old.lists) (heard self.new.board) (own_lists self.new.lists)) }
        ensures own { IfOk result (λ given. ForSome given.statement (λ e. IsOwnOf self.new guide.now.slot.0 e)) }
        ensures more { IfOk result (λ given. IsSome given.composite ↔ (length self.old.lists.candidates.values.items < length self.new.lists.candidates.values.items)) }
        ensures all { IfOk result (λ given. ForSome given.composite (λ v. v ≡ D.says.combined guide.now.driver guide.now.slot.0 self.new.lists.candidates.values.items)) }
        ensures only_memory { IsOkUnless result Fault.NoMemory }
    {
        let before = self.lists.candidates.len();
        let renewed = self.settle(guide)?;
        let statement = self.emitted(guide.slot, renewed)?;
        let composite = self.composite(guide, before)?;
        Ok(Nominated {
            statement,
            composite,
        })
    }

    /// Puts another node's NOMINATE on the board.
    pub(crate) fn hear<D: Driver>(
        &mut self,
        guide: &Guide<D>,
        envelope: SharedEnvelope,
        delivered: Arc<SaneSet>,
    ) -> Result<(), Fault>
        requires nominate { kind_of_pledges envelope.statement.pledges ≡ Nomination }
        ensures heard { OnOk result (HearsOne (IsFull (D.says.level guide.now.driver) guide.now.slot.0) self.old self.new envelope.statement.node envelope.statement.pledges delivered.value) }
        ensures only_memory { IsOkUnless result Fault.NoMemory }
    {
        let values = named(self.alloc, &envelope.get().statement.pledges)?;
        know(
            &guide.driver,
            guide.slot,
            values.as_slice(),
            &mut self.known,
        )?;
        put_nominate(&mut self.board, envelope, delivered)?;
        Ok(())
    }
}
