//! The nodes that lead in turn.
ghost use Rattle.std.specs.Prelude.{◌≡◌, ◌≤◌, [], All, IfOk, IsOkUnless};
ghost use Rattle.scp_script.specs.Script.{AreAdmitted, node_count};
ghost use Rattle.scp_script.specs.Nodes.{NamesNodes};
ghost use Rattle.scp_nominate.specs.Turns.{AreInTurn};
ghost use Rattle.scp_script_check.specs.Warnings.{AreTurns, has_node as holds_node, leader_of, leads_in, turn_of};

use scp_nominate::below::driver::place_of;
use scp_nominate::below::quorum::QuorumSet;
use scp_nominate::below::types::{Fault, NodeId, Slot};
use scp_nominate::nodes_with;
use scp_script::{Command, id_from, set_of_node};
use std::alloc::Global;
use std::marker::Model;

/// The nodes that lead in turn as one node sees them, ascending.
#[derive(Drop)]
pub struct Turn(Vec<NodeId>);

impl Model for Turn {
    ghost use Rattle.std.specs.Prelude.{List};
    ghost use Rattle.scp_nominate.specs.scp_types.specs.declared.names.NodeId.{NodeId};

    ghost Value = { List NodeId };

    ghost view = { λ t. t.0.items };
}

impl Turn {
    /// This node and the nodes of its set, ascending, each once.
    fn of(me: NodeId, set: &QuorumSet) -> Result<Turn, Fault>
        ensures turn { IfOk result (AreInTurn me set.now) }
        ensures only_memory { IsOkUnless result Fault.NoMemory }
    {
        Ok(Turn(nodes_with(me, set)?))
    }

    /// The nodes as a slice.
    pub fn as_slice(&self) -> &[NodeId]
        ensures { result.now ≡ self.now }
    {
        self.0.as_slice()
    }
}

/// For each node, from node 1 on, the nodes that lead in turn as it sees them. The only error is `NoMemory`.
pub fn turns(alloc: Global, commands: &[Command], count: u8) -> Result<Vec<Turn>, Fault>
    requires names { All NamesNodes commands.now }
    requires admitted { AreAdmitted [] commands.now }
    requires count { count ≡ node_count commands.now }
    ensures turns { IfOk result (λ turns. AreTurns commands.now turns.items) }
    ensures only_memory { IsOkUnless result Fault.NoMemory }
{
    let mut turns = Vec::new(alloc);
    for index in 0..count {
        let number = index + 1;
        let set = set_of_node(alloc, commands, number)?;
        turns.push(Turn::of(id_from(number), &set)?)?;
    }
    Ok(turns)
}

/// The nodes that lead in turn as a node sees them; none for a node that doesn't exist.
pub fn turn_at(turns: &[Turn], node: u8) -> &[NodeId]
    ensures { 1 ≤ node → result.now ≡ turn_of turns.now node }
{
    if node == 0 {
        return &[];
    }
    match turns.get(usize::from(node - 1)) {
        Some(turn) => turn.as_slice(),
        None => &[],
    }
}

/// The leader of a round of a slot; if there are no nodes, an id that no node has.
pub fn leader(nodes: &[NodeId], slot: u64, round: u64) -> NodeId
    requires round { 1 ≤ round }
    ensures { result ≡ leader_of nodes.now slot round }
{
    if nodes.is_empty() {
        return id_from(0);
    }
    nodes[place_of(Slot(slot), round, nodes.len())]
}

/// Whether a node leads one of the first `rounds` rounds of a slot.
#[tactic(auto, using(crate::proofs::Turning::leads_more, crate::proofs::Turning::leads_there))]
pub fn leads(nodes: &[NodeId], me: NodeId, slot: u64, rounds: u64) -> bool
    ensures { result ≡ leads_in nodes.now slot rounds me }
{
    for index in 0..rounds {
        if leader(nodes, slot, index + 1) == me {
            return true;
        }
    }
    false
}

/// Whether the node is among the nodes.
pub fn has_node(nodes: &[NodeId], node: NodeId) -> bool
    ensures { result ≡ holds_node nodes.now node }
{
    for other in nodes {
        if *other == node {
            return true;
        }
    }
    false
}
