//! What a step of a claim needs.
ghost use Rattle.std.specs.Prelude.{◌≡◌, ◌↔◌, ◌⊎◌, ◌++◌, true, false, option_to_list, Contains, IsTrue, IfOk, OnOk, IsOkUnless};
ghost use Rattle.scp_kv.specs.scp_types.specs.declared.names.NodeId.{NodeId};
ghost use Rattle.scp_ballot_rules.specs.scp_quorum.specs.NodeSet.{is_in};
ghost use Rattle.scp_ballot_rules.specs.scp_vote.specs.declared.claim.StatementKind.TheVariants.{Balloting};
ghost use Rattle.scp_ballot_rules.specs.scp_vote.specs.Board.{Has, kind_of};
ghost use Rattle.scp_ballot_rules.specs.scp_vote.specs.Seen.{seen};
ghost use Rattle.scp_stand_needs.specs.Needs.{confirms as is_confirming, IsOwed, SettlesElse, IsAgainst, IsLacking, IsOpposed, AreMembers, AreThese, IsShort, counted_by, IsNeed};
ghost use Rattle.scp_stand_needs.specs.inside.Found.{IsReached, IsNeedOf, IsNext};

use crate::standing::{add_if, standing};
use scp_ballot_rules::below::envelope::Pledges;
use scp_ballot_rules::below::quorum::satisfied;
use scp_ballot_rules::below::vote::{Board, Claim, StatementKind, Support};
use scp_kv::below::types::{Fault, NodeId, Value};
use std::alloc::{AllocError, Global};
use std::collections::BTreeSet;

/// The next step of a claim.
#[derive(Clone, Copy, PartialEq, Eq)]
pub enum Step {
    AcceptNominated,
    ConfirmNominated,
    AcceptPrepared,
    ConfirmPrepared,
    AcceptCommit,
    ConfirmCommit,
}

impl Step {
    /// Whether the step counts only nodes that accept the claim. Otherwise it counts those that vote for it, too.
    fn confirms(self) -> bool
        ensures { result ≡ is_confirming self }
    {
        match self {
            Step::ConfirmNominated | Step::ConfirmPrepared | Step::ConfirmCommit => true,
            _ => false,
        }
    }
}

/// What is missing for a step.
#[derive(Drop)]
pub struct Need {
    pub step: Step,
    pub claim: Claim,
    /// The nodes that vote for the claim or accept it, and those that accept it, each list ascending.
    pub votes: Vec<NodeId>,
    pub accepts: Vec<NodeId>,
    /// The members that the step could still count, and those that it can't, because they confirm or externalize another value.
    pub lacks: Vec<NodeId>,
    pub against: Vec<NodeId>,
    /// The counted nodes whose own sets the counted nodes don't satisfy.
    pub short: Vec<NodeId>,
}

/// Whether the statement confirms or externalizes another value.
fn settles_else(pledges: &Pledges, value: &Value) -> bool
    ensures { IsTrue result ↔ SettlesElse value.now pledges.now }
{
    match pledges {
        Pledges::Confirm(confirm) => *confirm.ballot.value.get() != *value,
        Pledges::Externalize(externalize) => *externalize.commit.value.get() != *value,
        _ => false,
    }
}

/// Whether the node's ballot statement confirms or externalizes another value.
fn is_elsewhere(board: &Board, node: &NodeId, value: &Value) -> bool
    ensures { IsTrue result ↔ Has (seen Balloting board.now) (SettlesElse value.now) node.now }
{
    match board.statement(StatementKind::Balloting, node) {
        Some(envelope) => settles_else(&envelope.get().statement.pledges, value),
        None => false,
    }
}

/// Whether the node can't come to support a claim, because its statement confirms or externalizes another value.
fn is_against(board: &Board, node: &NodeId, claim: &Claim) -> bool
    ensures { IsTrue result ↔ IsAgainst (seen (kind_of claim.now) board.now) claim.now node.now }
{
    match claim {
        Claim::Prepared(ballot) => is_elsewhere(board, node, ballot.value.get()),
        Claim::Committed(_, _, value) => is_elsewhere(board, node, value.get()),
        Claim::Nominated(_) => false,
    }
}

/// Whether the node is among the nodes.
fn has_node(nodes: &[NodeId], node: &NodeId) -> bool
    ensures { IsTrue result ↔ Contains nodes.now node.now }
{
    nodes.contains(node)
}

/// Whether the node isn't counted, and may still come to support the claim.
fn is_lacking(board: &Board, claim: &Claim, counted: &[NodeId], node: &NodeId) -> bool
    ensures { IsTrue result ↔ IsLacking (seen (kind_of claim.now) board.now) claim.now counted.now node.now }
{
    !has_node(counted, node) && !is_against(board, node, claim)
}

/// Whether the node isn't counted, and can't come to support the claim.
fn is_opposed(board: &Board, claim: &Claim, counted: &[NodeId], node: &NodeId) -> bool
    ensures { IsTrue result ↔ IsOpposed (seen (kind_of claim.now) board.now) claim.now counted.now node.now }
{
    !has_node(counted, node) && is_against(board, node, claim)
}

/// The members that aren't counted and may still come to support the claim.
fn lacking(
    alloc: Global,
    members: &[NodeId],
    board: &Board,
    claim: &Claim,
    counted: &[NodeId],
) -> Result<Vec<NodeId>, AllocError>
    ensures { IfOk result (λ nodes. AreMembers (IsLacking (seen (kind_of claim.now) board.now) claim.now counted.now) members.now nodes.items) }
{
    let mut nodes = Vec::new(alloc);
    for node in members {
        add_if(&mut nodes, *node, is_lacking(board, claim, counted, node))?;
    }
    Ok(nodes)
}

/// The members that aren't counted and can't come to support the claim.
fn opposed(
    alloc: Global,
    members: &[NodeId],
    board: &Board,
    claim: &Claim,
    counted: &[NodeId],
) -> Result<Vec<NodeId>, AllocError>
    ensures { IfOk result (λ nodes. AreMembers (IsOpposed (seen (kind_of claim.now) board.now) claim.now counted.now) members.now nodes.items) }
{
    let mut nodes = Vec::new(alloc);
    for node in members {
        add_if(&mut nodes, *node, is_opposed(board, claim, counted, node))?;
    }
    Ok(nodes)
}

/// Adds the node to the set.
fn add_node(set: &mut BTreeSet<NodeId>, node: NodeId) -> Result<(), AllocError>
    ensures { OnOk result ((v : NodeId) → (is_in set.new v ≡ true) ↔ ((is_in set.old v ≡ true) ⊎ (node ≡ v))) }
{
    set.insert(node)?;
    Ok(())
}

/// The nodes as a set.
fn set_of(alloc: Global, nodes: &[NodeId]) -> Result<BTreeSet<NodeId>, AllocError>
    ensures { IfOk result (λ set. AreThese nodes.now (is_in set)) }
{
    let mut set = BTreeSet::new(alloc);
    for node in nodes {
        add_node(&mut set, *node)?;
    }
    Ok(set)
}

/// Whether the quorum set that counts for the node isn't satisfied by the counted nodes.
fn is_short(
    board: &Board,
    kind: StatementKind,
    all: &BTreeSet<NodeId>,
    counted: &[NodeId],
    node: &NodeId,
) -> bool
    requires all { AreThese counted.now (is_in all.now) }
    ensures { IsTrue result ↔ IsShort (seen kind board.now) counted.now node.now }
{
    match board.statements(kind).get(node) {
        Some(entry) => !satisfied(entry.counted.set(), all),
        None => false,
    }
}

/// The counted nodes whose own sets the counted nodes don't satisfy.
fn short(
    alloc: Global,
    board: &Board,
    claim: &Claim,
    counted: &[NodeId],
) -> Result<Vec<NodeId>, AllocError>
    ensures { IfOk result (λ nodes. AreMembers (IsShort (seen (kind_of claim.now) board.now) counted.now) counted.now nodes.items) }
{
    let all = set_of(alloc, counted)?;
    let mut nodes = Vec::new(alloc);
    for node in counted {
        let is_one = is_short(board, claim.kind(), &all, counted, node);
        add_if(&mut nodes, *node, is_one)?;
    }
    Ok(nodes)
}

/// The nodes that a step counts.
fn counted<'a>(step: Step, votes: &'a Vec<NodeId>, accepts: &'a Vec<NodeId>) -> &'a [NodeId]
    ensures { result.now ≡ counted_by (is_confirming step) votes.now.items accepts.now.items }
{
    if step.confirms() {
        accepts.as_slice()
    } else {
        votes.as_slice()
    }
}

/// What a step of a claim needs that the board doesn't have, for a node whose members are itself and the nodes of its set.
fn need_of(
    alloc: Global,
    members: &[NodeId],
    board: &Board,
    step: Step,
    claim: Claim,
) -> Result<Need, AllocError>
    requires owed { IsOwed (is_confirming step) (seen (kind_of claim) board.now) claim }
    ensures need { IfOk result (IsNeed board.now members.now) }
    ensures claim { IfOk result (λ need. need.claim ≡ claim) }
    ensures step { IfOk result (λ need. need.step ≡ step) }
{
    let votes = standing(alloc, board, &claim, Support::VotesOrAccepts)?;
    let accepts = standing(alloc, board, &claim, Support::Accepts)?;
    let counted = counted(step, &votes, &accepts);
    let lacks = lacking(alloc, members, board, &claim, counted)?;
    let against = opposed(alloc, members, board, &claim, counted)?;
    let short = short(alloc, board, &claim, counted)?;
    Ok(Need {
        step,
        claim,
        votes,
        accepts,
        lacks,
        against,
        short,
    })
}

/// Whether the board allows the step: the claim is confirmed, or, for a step that accepts, accepted.
fn is_reached(board: &Board, step: Step, claim: &Claim) -> Result<bool, Fault>
    ensures exact { IfOk result (λ yes. IsTrue yes ↔ IsReached (is_confirming step) (seen (kind_of claim.now) board.now) claim.now) }
    ensures only_memory { IsOkUnless result Fault.NoMemory }
{
    if step.confirms() {
        board.confirmed(claim)
    } else {
        board.accepted(claim)
    }
}

/// What a step of a claim needs, unless the board already allows it.
pub fn need_unless_reached(
    alloc: Global,
    members: &[NodeId],
    board: &Board,
    step: Step,
    claim: Claim,
) -> Result<Option<Need>, Fault>
    ensures need { IfOk result (IsNeedOf board.now members.now step claim) }
    ensures only_memory { IsOkUnless result Fault.NoMemory }
{
    let reached = is_reached(board, step, &claim)?;
    if reached {
        return Ok(None);
    }
    let need = need_of(alloc, members, board, step, claim)?;
    Ok(Some(need))
}

/// The next step of a claim with its need: first to be accepted, then to be confirmed. Nothing once the claim is confirmed.
pub fn next(
    alloc: Global,
    members: &[NodeId],
    board: &Board,
    accept: Step,
    confirm: Step,
    claim: Claim,
) -> Result<Option<Need>, Fault>
    requires accept { is_confirming accept ≡ false }
    requires confirm { is_confirming confirm ≡ true }
    ensures next { IfOk result (IsNext board.now members.now accept confirm claim) }
    ensures only_memory { IsOkUnless result Fault.NoMemory }
{
    let reached = is_reached(board, accept, &claim)?;
    if !reached {
        let need = need_of(alloc, members, board, accept, claim)?;
        return Ok(Some(need));
    }
    need_unless_reached(alloc, members, board, confirm, claim)
}

/// Adds a need, if there is one.
pub fn add(needs: &mut Vec<Need>, need: Option<Need>) -> Result<(), AllocError>
    ensures { OnOk result (needs.new.items ≡ needs.old.items ++ option_to_list need) }
{
    let Some(need) = need else {
        return Ok(());
    };
    needs.push(need)?;
    Ok(())
}
