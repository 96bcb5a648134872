//! Each node's newest statement of one kind, with the quorum set that counts for it.
ghost use Rattle.std.specs.Prelude.{◌≡◌, get_or, false};

use crate::claim::{Claim, Support, stands, stands_too};
use crate::table::{Table, mark};
use scp_envelope::{Envelope, Pledges, SharedEnvelope};
use scp_quorum::below::types::{Fault, NodeId};
use scp_quorum::{Marked, Nodes, SaneSet, greatest_quorum_among};
use std::alloc::{AllocError, Global};
use std::collections::BTreeSet;
use std::sync::Arc;

/// A node's statement with the set that counts for it.
#[derive(Drop)]
pub struct Entry {
    pub envelope: SharedEnvelope,
    pub counted: Arc<SaneSet>,
    /// The place of the node's seat: so a walk over the entries needs no look-up.
    pub(crate) place: usize,
}

/// What a node sees of the statements of one kind: each node's newest.
#[derive(Clone, Copy, Drop)]
pub(crate) struct Side<'a> {
    pub(crate) alloc: Global,
    pub(crate) me: NodeId,
    pub(crate) local: &'a Arc<SaneSet>,
    pub(crate) table: &'a Table,
}

/// Which seats belong to nodes that support a claim.
#[derive(Drop)]
struct Standing {
    supporting: Vec<bool>,
    accepting: Vec<bool>,
}

impl Side<'_> {
    ghost use Rattle.std.specs.Prelude.{◌≡◌, ◌↔◌, Bool, true, false, length, IsTrue, IfOk, IfSome, IfNone, IsOkUnless};
    ghost use Rattle.std.specs.Bool.{OnFalse, OnTrue};
    ghost use Rattle.scp_quorum.specs.scp_types.specs.declared.names.NodeId.{NodeId};
    ghost use Rattle.scp_quorum.specs.NodeSet.{is_in};
    ghost use Rattle.scp_quorum.specs.Satisfies.{Blocks, Satisfies};
    ghost use Rattle.scp_quorum.specs.Quorum.{IsGreatestQuorum, HasNoQuorum};
    ghost use Rattle.scp_quorum.specs.Places.{marked, only};
    ghost use Rattle.scp_vote.specs.Claims.{Stands};
    ghost use Rattle.scp_vote.specs.Board.{Has, Accepted, Confirmed, IsGreatestWhere, IsCounted, KeepsOwn};
    ghost use Rattle.scp_vote.specs.inside.Statements.{PicksNodes};
    ghost use Rattle.scp_vote.specs.inside.Seats.{place_in};
    ghost use Rattle.scp_vote.specs.inside.Side.{side};
    ghost use Rattle.scp_vote.specs.declared.claim.Support.TheVariants.{VotesOrAccepts, Accepts};

    /// Marks for the seats, none of them marked.
    fn no_marks(&self) -> Result<Vec<bool>, AllocError>
        ensures none { IfOk result (λ marks. (v : NodeId) → marked (place_in self.now.table.now.entries) marks.items v ≡ false) }
        ensures len { IfOk result (λ marks. length marks.items ≡ length self.now.table.now.seats.items) }
    {
        vec![in self.alloc; false; self.table.seats.len()]
    }

    /// Which nodes vote for or accept the claim, and which accept it. Looks at each statement once.
    fn standing(&self, claim: &Claim) -> Result<Standing, AllocError>
        ensures supporting { IfOk result (λ s. PicksNodes (Has (side self.now) (Stands VotesOrAccepts claim.now)) (marked (place_in self.now.table.now.entries) s.supporting.items)) }
        ensures accepting { IfOk result (λ s. PicksNodes (Has (side self.now) (Stands Accepts claim.now)) (marked (place_in self.now.table.now.entries) s.accepting.items)) }
    {
        let mut supporting = self.no_marks()?;
        let mut accepting = self.no_marks()?;
        for (_, entry) in &self.table.entries {
            let statement = &entry.envelope.get().statement;
            let accepts = stands(Support::Accepts, claim, statement);
            let supports = stands_too(claim, statement, accepts);
            mark(&mut supporting, entry.place, supports);
            mark(&mut accepting, entry.place, accepts);
        }
        Ok(Standing {
            supporting,
            accepting,
        })
    }

    /// Which nodes accept the claim. Looks at each statement once.
    fn accepting(&self, claim: &Claim) -> Result<Vec<bool>, AllocError>
        ensures { IfOk result (λ marks. PicksNodes (Has (side self.now) (Stands Accepts claim.now)) (marked (place_in self.now.table.now.entries) marks.items)) }
    {
        let mut accepting = self.no_marks()?;
        for (_, entry) in &self.table.entries {
            let accepts = stands(Support::Accepts, claim, &entry.envelope.get().statement);
            mark(&mut accepting, entry.place, accepts);
        }
        Ok(accepting)
    }

    /// Whether the marked nodes contain a quorum at this node; if so, exactly those of the greatest stay marked. Answers false
    /// without looking at groups if this node isn't marked, or the marked nodes don't satisfy the local set. If all nodes
    /// share one set, that test decides.
    fn has_quorum(&self, marks: &mut [bool]) -> Result<bool, Fault>
        requires { KeepsOwn (side self.now) }
        ensures found { IfOk result (λ yes. OnTrue yes (IsGreatestQuorum (only (marked (place_in self.now.table.now.entries) marks.old) (side self.now).counted) (side self.now).me (marked (place_in self.now.table.now.entries) marks.new))) }
        ensures none { IfOk result (λ yes. OnFalse yes (HasNoQuorum (only (marked (place_in self.now.table.now.entries) marks.old) (side self.now).counted) (side self.now).me)) }
        ensures len { length marks.new ≡ length marks.old }
        ensures only_memory { IsOkUnless result Fault.NoMemory }
    {
        if !self.may_have_quorum(marks) {
            return Ok(false);
        }
        let Table { seats, sets, .. } = self.table;
        if sets.len() < 2 {
            return Ok(true);
        }
        greatest_quorum_among(self.alloc, self.table, seats, sets, &self.me, marks)
    }

    /// Whether this node is marked, and the marked nodes satisfy the local set. A quorum at this node needs both.
    fn may_have_quorum(&self, marks: &[bool]) -> bool
        requires { KeepsOwn (side self.now) }
        ensures none { OnFalse result (HasNoQuorum (only (marked (place_in self.now.table.now.entries) marks.now) (side self.now).counted) (side self.now).me) }
        ensures both { OnTrue result ((marked (place_in self.now.table.now.entries) marks.now self.now.me ≡ true) × Satisfies (marked (place_in self.now.table.now.entries) marks.now) (side self.now).local) }
    {
        let nodes = Marked {
            places: self.table,
            marks,
        };
        nodes.has(&self.me) && self.local.set().is_satisfied_by(&nodes)
    }

    /// Whether the marked nodes block the local set.
    fn is_blocked_by(&self, marks: &[bool]) -> bool
        ensures { IsTrue result ↔ Blocks (marked (place_in self.now.table.now.entries) marks.now) (side self.now).local }
    {
        let nodes = Marked {
            places: self.table,
            marks,
        };
        self.local.set().is_blocked_by(&nodes)
    }

    /// The nodes that are marked.
    fn nodes_at(&self, marks: &[bool]) -> Result<BTreeSet<NodeId>, AllocError>
        ensures { IfOk result (λ nodes. PicksNodes (λ v. marked (place_in self.now.table.now.entries) marks.now v ≡ true) (is_in nodes)) }
    {
        let mut nodes = BTreeSet::new(self.alloc);
        for (node, entry) in &self.table.entries {
            if is_marked(marks, entry.place) {
                nodes.insert(*node)?;
            }
        }
        Ok(nodes)
    }

    /// Whether the nodes that vote for or accept the claim contain a quorum at this node, or those that accept it block the
    /// local set (the SCP draft). The only refusal is `Fault::NoMemory`.
    pub(crate) fn accepted(&self, claim: &Claim) -> Result<bool, Fault>
        requires { KeepsOwn (side self.now) }
        ensures exact { IfOk result (λ yes. IsTrue yes ↔ Accepted (side self.now) claim.now) }
        ensures only_memory { IsOkUnless result Fault.NoMemory }
    {
        let mut standing = self.standing(claim)?;
        if self.is_blocked_by(&standing.accepting) {
            return Ok(true);
        }
        self.has_quorum(&mut standing.supporting)
    }

    /// Whether the nodes that accept the claim contain a quorum at this node (the SCP draft). The only refusal
    /// is `Fault::NoMemory`.
    pub(crate) fn confirmed(&self, claim: &Claim) -> Result<bool, Fault>
        requires { KeepsOwn (side self.now) }
        ensures exact { IfOk result (λ yes. IsTrue yes ↔ Confirmed (side self.now) claim.now) }
        ensures only_memory { IsOkUnless result Fault.NoMemory }
    {
        let mut accepting = self.accepting(claim)?;
        self.has_quorum(&mut accepting)
    }

    /// The greatest quorum at this node inside the nodes that accept the claim; `None` exactly where the claim isn't
    /// confirmed. The only refusal is `Fault::NoMemory`.
    pub(crate) fn certificate(&self, claim: &Claim) -> Result<Option<BTreeSet<NodeId>>, Fault>
        requires { KeepsOwn (side self.now) }
        ensures found { IfOk result (λ found. IfSome found (λ nodes. IsGreatestWhere (side self.now) (Stands Accepts claim.now) (is_in nodes))) }
        ensures none { IfOk result (λ found. IfNone found (Confirmed (side self.now) claim.now → ⊥)) }
        ensures only_memory { IsOkUnless result Fault.NoMemory }
    {
        let mut accepting = self.accepting(claim)?;
        if !self.has_quorum(&mut accepting)? {
            return Ok(None);
        }
        Ok(Some(self.nodes_at(&accepting)?))
    }

    /// The set that counts for the envelope's node.
    pub(crate) fn counted(
        &self,
        envelope: &Envelope,
        delivered: Arc<SaneSet>,
    ) -> Result<Arc<SaneSet>, Fault>
        ensures set { IfOk result (λ set. IsCounted (side self.now) envelope.now.statement.node envelope.now.statement.pledges delivered.value set.value) }
        ensures only_memory { IsOkUnless result Fault.NoMemory }
    {
        if envelope.statement.node == self.me {
            return Ok(self.local.clone()?);
        }
        match &envelope.statement.pledges {
            Pledges::Externalize(_) => {
                let alone = SaneSet::alone(self.alloc, envelope.statement.node)?;
                Ok(Arc::new(self.alloc, alone)?)
            }
            _ => Ok(delivered),
        }
    }
}

/// Whether the place is marked.
fn is_marked(marks: &[bool], place: usize) -> bool
    ensures { result ≡ get_or marks.now place false }
{
    *marks.get(place).unwrap_or(&false)
}
