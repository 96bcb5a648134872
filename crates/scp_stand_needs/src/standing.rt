//! The nodes whose statements support a claim.
ghost use Rattle.std.specs.Prelude.{◌≡◌, ◌↔◌, ◌++◌, ◌∷◌, [], true, if◌then◌else◌, is_some, Contains, IsTrue, IfOk, OnOk};
ghost use Rattle.std.specs.List.Sorted.{IsStrictlySortedBy};
ghost use Rattle.scp_kv.specs.scp_types.specs.declared.names.NodeId.{NodeId};
ghost use Rattle.scp_ballot_rules.specs.scp_quorum.specs.NodeSet.{node_cmp};
ghost use Rattle.scp_ballot_rules.specs.scp_vote.specs.Board.{Has, kind_of};
ghost use Rattle.scp_ballot_rules.specs.scp_vote.specs.Claims.{Stands};
ghost use Rattle.scp_ballot_rules.specs.scp_vote.specs.Seen.{seen};
ghost use Rattle.scp_stand_needs.specs.Needs.{AreStanding};

use scp_ballot_rules::below::vote::{Board, Claim, StatementKind, Support, stands};
use scp_kv::below::types::NodeId;
use std::alloc::{AllocError, Global};

/// Adds the node, if it is one of those.
pub fn add_if(nodes: &mut Vec<NodeId>, node: NodeId, is_one: bool) -> Result<(), AllocError>
    ensures { OnOk result (nodes.new.items ≡ (if is_one then nodes.old.items ++ node ∷ [] else nodes.old.items)) }
{
    if !is_one {
        return Ok(());
    }
    nodes.push(node)?;
    Ok(())
}

/// The nodes whose statements support a claim in this way, ascending.
pub fn standing(
    alloc: Global,
    board: &Board,
    claim: &Claim,
    support: Support,
) -> Result<Vec<NodeId>, AllocError>
    ensures { IfOk result (λ nodes. AreStanding (seen (kind_of claim.now) board.now) support claim.now nodes.items) }
{
    standing_in(alloc, board, claim.kind(), claim, support)
}

/// The nodes that have a statement of this kind, ascending.
fn speakers(alloc: Global, board: &Board, kind: StatementKind) -> Result<Vec<NodeId>, AllocError>
    ensures these { IfOk result (λ nodes. (v : NodeId) → Contains nodes.items v ↔ (is_some ((seen kind board.now).statement v) ≡ true)) }
    ensures ascending { IfOk result (λ nodes. IsStrictlySortedBy node_cmp nodes.items) }
{
    let nodes: Vec<NodeId> = board.statements(kind).keys().copied().collect(alloc)?;
    Ok(nodes)
}

/// Whether the node's statement of this kind supports the claim.
fn is_standing(
    board: &Board,
    kind: StatementKind,
    claim: &Claim,
    support: Support,
    node: &NodeId,
) -> bool
    ensures { IsTrue result ↔ Has (seen kind board.now) (Stands support claim.now) node.now }
{
    match board.statement(kind, node) {
        Some(envelope) => stands(support, claim, &envelope.get().statement),
        None => false,
    }
}

/// The nodes among the speakers whose statements support the claim.
fn standing_in(
    alloc: Global,
    board: &Board,
    kind: StatementKind,
    claim: &Claim,
    support: Support,
) -> Result<Vec<NodeId>, AllocError>
    ensures { IfOk result (λ nodes. AreStanding (seen kind board.now) support claim.now nodes.items) }
{
    let speakers = speakers(alloc, board, kind)?;
    let mut nodes = Vec::new(alloc);
    for node in speakers.as_slice() {
        add_if(
            &mut nodes,
            *node,
            is_standing(board, kind, claim, support, node),
        )?;
    }
    Ok(nodes)
}
