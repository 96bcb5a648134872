//! The voting board: each node's newest statement of each kind, and which claims are accepted and confirmed on it.
ghost use Rattle.std.specs.Prelude.{◌≡◌, ◌≢◌, ◌↔◌, IsTrue, IfOk, IfSome, IfNone, OnOk, OnErr, IsOkUnless, Option, Some, None, cond};
ghost use Rattle.std.specs.Option.{option_map, ForSome};
ghost use Rattle.std.specs.BTreeMap as node_map;
ghost use Rattle.std.specs.BTreeMap.{is_at};
ghost use Rattle.scp_quorum.specs.scp_types.specs.declared.names.NodeId.{NodeId};
ghost use Rattle.scp_quorum.specs.NodeSet.{is_in, node_cmp};
ghost use Rattle.scp_vote.specs.Board.{kind_of, kind_of_pledges, Accepted, Confirmed, Certificate, PutsCounted, IsNewBoard, KeepsOwn};
ghost use Rattle.scp_vote.specs.declared.claim.StatementKind.{StatementKind};

use crate::claim::{Claim, StatementKind, kind_of_pledges};
use crate::statements::{Entry, Side};
use crate::table::Table;
use scp_envelope::SharedEnvelope;
use scp_quorum::SaneSet;
use scp_quorum::below::types::{Fault, NodeId};
use std::alloc::Global;
use std::collections::{BTreeMap, BTreeSet};
use std::sync::Arc;

/// Each node's newest statement of each kind, with the quorum set that counts for it. For this node that is the local
/// set, for another node's EXTERNALIZE that node alone, and else the set that was delivered with the statement.
#[derive(Drop)]
pub struct Board {
    alloc: Global,
    me: NodeId,
    local: Arc<SaneSet>,
    nominations: Table,
    ballots: Table,
    pub ghost own_nomination: { ForSome (node_map.get node_cmp nominations.entries me) (λ e. e.counted.value ≡ local.value) },
    pub ghost own_ballot: { ForSome (node_map.get node_cmp ballots.entries me) (λ e. e.counted.value ≡ local.value) },
}

impl Board {
    ghost use Rattle.scp_vote.specs.Seen.{seen, envelope_at};
    ghost use Rattle.scp_vote.specs.inside.Side.{side};
    ghost use Rattle.scp_vote.specs.Statements.{seen_in};

    /// A board without statements, for this node and its set.
    pub fn new(alloc: Global, me: NodeId, local: Arc<SaneSet>) -> Board
        ensures empty { (kind : StatementKind) → IsNewBoard me local.value (seen kind result) }
        ensures no_envelope { (kind : StatementKind) (v : NodeId) → envelope_at kind result v ≡ None }
    {
        Board {
            alloc,
            me,
            local,
            nominations: Table::new(alloc),
            ballots: Table::new(alloc),
        }
    }

    /// Puts the envelope in the place of its node's last one of that kind; all other statements stay. For this node the
    /// local set counts, for another node's EXTERNALIZE that node alone, and else the delivered set (the SCP draft, in
    /// this project's profile). The only refusal is `Fault::NoMemory`, and it leaves the board as it was.
    pub fn put(&mut self, envelope: SharedEnvelope, delivered: Arc<SaneSet>) -> Result<(), Fault>
        ensures put { OnOk result (PutsCounted (seen (kind_of_pledges envelope.statement.pledges) self.old) (seen (kind_of_pledges envelope.statement.pledges) self.new) envelope.statement.node envelope.statement.pledges delivered.value) }
        ensures other_kind { (kind : StatementKind) → kind ≢ kind_of_pledges envelope.statement.pledges → seen kind self.new ≡ seen kind self.old }
        ensures refused { OnErr result ((kind : StatementKind) → seen kind self.new ≡ seen kind self.old) }
        ensures envelope { OnOk result ((v : NodeId) → envelope_at (kind_of_pledges envelope.statement.pledges) self.new v ≡ cond (is_at (node_cmp envelope.statement.node) v) (Some envelope) (envelope_at (kind_of_pledges envelope.statement.pledges) self.old v)) }
        ensures other_envelopes { (kind : StatementKind) → kind ≢ kind_of_pledges envelope.statement.pledges → (v : NodeId) → envelope_at kind self.new v ≡ envelope_at kind self.old v }
        ensures envelopes_stay { OnErr result ((kind : StatementKind) (v : NodeId) → envelope_at kind self.new v ≡ envelope_at kind self.old v) }
        ensures only_memory { IsOkUnless result Fault.NoMemory }
    {
        let kind = kind_of_pledges(&envelope.get().statement.pledges);
        let counted = self.of(kind).counted(envelope.get(), delivered)?;
        let alloc = self.alloc;
        match kind {
            StatementKind::Nomination => self.nominations.put(alloc, envelope, counted)?,
            StatementKind::Balloting => self.ballots.put(alloc, envelope, counted)?,
        }
        Ok(())
    }

    /// Whether the nodes that vote for or accept the claim contain a quorum at this node, or those that accept it block the
    /// local set (the SCP draft). The only refusal is `Fault::NoMemory`.
    pub fn accepted(&self, claim: &Claim) -> Result<bool, Fault>
        ensures exact { IfOk result (λ yes. IsTrue yes ↔ Accepted (seen (kind_of claim.now) self.now) claim.now) }
        ensures only_memory { IsOkUnless result Fault.NoMemory }
    {
        self.of(claim.kind()).accepted(claim)
    }

    /// Whether the nodes that accept the claim contain a quorum at this node (the SCP draft). The only refusal
    /// is `Fault::NoMemory`.
    pub fn confirmed(&self, claim: &Claim) -> Result<bool, Fault>
        ensures exact { IfOk result (λ yes. IsTrue yes ↔ Confirmed (seen (kind_of claim.now) self.now) claim.now) }
        ensures only_memory { IsOkUnless result Fault.NoMemory }
    {
        self.of(claim.kind()).confirmed(claim)
    }

    /// The greatest quorum at this node inside the nodes that accept the claim; `None` exactly where the claim isn't
    /// confirmed. The only refusal is `Fault::NoMemory`.
    pub fn certificate(&self, claim: &Claim) -> Result<Option<BTreeSet<NodeId>>, Fault>
        ensures found { IfOk result (λ found. IfSome found (λ nodes. Certificate (seen (kind_of claim.now) self.now) claim.now (is_in nodes))) }
        ensures none { IfOk result (λ found. IfNone found (Confirmed (seen (kind_of claim.now) self.now) claim.now → ⊥)) }
        ensures only_memory { IsOkUnless result Fault.NoMemory }
    {
        self.of(claim.kind()).certificate(claim)
    }

    /// The node's newest statement of this kind.
    pub fn statement(&self, kind: StatementKind, node: &NodeId) -> Option<&SharedEnvelope>
        ensures pledges { option_map (λ e. e.now.statement.pledges) result ≡ (seen kind self.now).statement node.now }
        ensures envelope { option_map (λ e. e.now) result ≡ envelope_at kind self.now node.now }
    {
        self.statements(kind).get(node).map(|entry| &entry.envelope)
    }

    /// This node's own newest statement of this kind.
    pub fn own(&self, kind: StatementKind) -> Option<&SharedEnvelope>
        ensures pledges { option_map (λ e. e.now.statement.pledges) result ≡ (seen kind self.now).statement (seen kind self.now).me }
        ensures envelope { option_map (λ e. e.now) result ≡ envelope_at kind self.now (seen kind self.now).me }
    {
        self.statement(kind, &self.me)
    }

    /// The statements of this kind, with the sets that count for them, ascending by node.
    pub fn statements(&self, kind: StatementKind) -> &BTreeMap<NodeId, Entry>
        ensures pledges { (v : NodeId) → option_map (λ e. e.envelope.statement.pledges) (node_map.get node_cmp result.now v) ≡ (seen kind self.now).statement v }
        ensures counted { (v : NodeId) → option_map (λ e. e.counted.value) (node_map.get node_cmp result.now v) ≡ (seen kind self.now).counted v }
        ensures envelopes { (v : NodeId) → option_map (λ e. e.envelope) (node_map.get node_cmp result.now v) ≡ envelope_at kind self.now v }
    {
        match kind {
            StatementKind::Nomination => &self.nominations.entries,
            StatementKind::Balloting => &self.ballots.entries,
        }
    }

    /// This node.
    pub fn me(&self) -> NodeId
        ensures me { (kind : StatementKind) → (seen kind self.now).me ≡ result }
        ensures own { (kind : StatementKind) → KeepsOwn (seen kind self.now) }
    {
        self.me
    }

    /// This node's quorum set.
    pub fn local(&self) -> &Arc<SaneSet>
        ensures set { (kind : StatementKind) → (seen kind self.now).local ≡ result.now.value }
    {
        &self.local
    }

    /// What this node sees of the statements of this kind.
    fn of(&self, kind: StatementKind) -> Side<'_>
        ensures same { side result ≡ seen kind self.now }
        ensures own { KeepsOwn (side result) }
    {
        match kind {
            StatementKind::Nomination => self.side(&self.nominations),
            StatementKind::Balloting => self.side(&self.ballots),
        }
    }

    /// What this node sees of these statements.
    fn side<'a>(&'a self, table: &'a Table) -> Side<'a>
        ensures { side result ≡ seen_in self.now.me self.now.local.value table.now.entries }
    {
        Side {
            alloc: self.alloc,
            me: self.me,
            local: &self.local,
            table,
        }
    }
}
