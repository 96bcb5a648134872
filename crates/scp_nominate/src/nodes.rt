//! The nodes that lead in turn.
ghost use Rattle.std.specs.Prelude.{◌≡◌, ◌≤◌, IfOk, IfErr, OnOk, IsOkUnless, ◌⊎◌, ◌↔◌, Contains, length, slice_get, Some};
ghost use Rattle.scp_vote.specs.scp_types.specs.declared.names.NodeId.{NodeId};
ghost use Rattle.std.specs.List.Sorted.{IsStrictlySortedBy};
ghost use Rattle.scp_vote.specs.scp_quorum.specs.NodeSet.{node_cmp};
ghost use Rattle.scp_nominate.specs.Turns.{AreInTurn};
ghost use Rattle.scp_nominate.specs.inside.Turns.{IsNodeGap};

use scp_driver::Driver;
use scp_vote::below::quorum::QuorumSet;
use scp_vote::below::types::{Fault, NodeId, Slot};

/// This node and the nodes of its set, ascending, each once. The only refusal is `NoMemory`.
pub fn nodes_with(me: NodeId, set: &QuorumSet) -> Result<Vec<NodeId>, Fault>
    ensures nodes { IfOk result (λ nodes. AreInTurn me set.now nodes.items) }
    ensures only_memory { IsOkUnless result Fault.NoMemory }
{
    let mut nodes = set.nodes()?;
    nodes.push(me)?;
    nodes.sort()?;
    nodes.dedup();
    Ok(nodes)
}

/// The place of the node, or else the place where it would go.
fn place_in(nodes: &[NodeId], node: &NodeId) -> Result<usize, usize>
    requires ascending { IsStrictlySortedBy node_cmp nodes.now }
    ensures found { IfOk result (λ at. Contains nodes.now node.now) }
    ensures within { IfErr result (λ at. at ≤ length nodes.now) }
    ensures gap { IfErr result (λ at. IsNodeGap nodes.now node.now at) }
{
    nodes.binary_search(node)
}

/// Adds the node, if it isn't there.
fn add_node(nodes: &mut Vec<NodeId>, node: NodeId) -> Result<(), Fault>
    requires ascending { IsStrictlySortedBy node_cmp nodes.old.items }
    ensures added { OnOk result ((v : NodeId) → Contains nodes.new.items v ↔ (Contains nodes.old.items v ⊎ (node ≡ v))) }
    ensures ascending { OnOk result (IsStrictlySortedBy node_cmp nodes.new.items) }
    ensures only_memory { IsOkUnless result Fault.NoMemory }
{
    match place_in(nodes.as_slice(), &node) {
        Ok(_) => Ok(()),
        Err(at) => Ok(nodes.insert(at, node)?),
    }
}

/// Adds the leader of the round.
pub(crate) fn add_leader<D: Driver>(
    driver: &D,
    slot: Slot,
    round: u64,
    nodes: &[NodeId],
    leaders: &mut Vec<NodeId>,
) -> Result<(), Fault>
    requires round { 1 ≤ round }
    requires some { 1 ≤ length nodes.now }
    requires ascending { IsStrictlySortedBy node_cmp leaders.old.items }
    ensures added { OnOk result ((v : NodeId) → Contains leaders.new.items v ↔ (Contains leaders.old.items v ⊎ (slice_get nodes.now (D.says.place driver.now slot.0 round (length nodes.now)) ≡ Some v))) }
    ensures ascending { OnOk result (IsStrictlySortedBy node_cmp leaders.new.items) }
    ensures only_memory { IsOkUnless result Fault.NoMemory }
{
    let place = driver.leader(slot, round, nodes.len());
    add_node(leaders, nodes[place])?;
    Ok(())
}
