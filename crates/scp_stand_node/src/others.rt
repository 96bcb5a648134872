//! The links of a node, and the nodes at their other ends.
ghost use Rattle.std.specs.Prelude.{◌≡◌, ◌++◌, [], ◌∷◌, false, OnOk, IsOkUnless, if◌then◌else◌, string_bytes};
ghost use Rattle.scp_turn.specs.Turn.{links_of};
ghost use Rattle.scp_turn.specs.scp_core.specs.History.{peer_at};
ghost use Rattle.scp_stand_slot.specs.Names.{node_name};
ghost use Rattle.scp_stand_node.specs.Links.{conn_on};

use scp_stand_slot::Names;
use scp_turn::below::node::Node;
use scp_turn::below::types::{ConnId, Fault, LINK_LIMIT, NodeId};

/// The number of links.
pub fn links(node: &Node) -> u8
    ensures { result ≡ links_of node.now }
{
    node.peers().len().min(LINK_LIMIT as usize) as u8
}

/// The node at the other end of a link. If there is no such link, the node itself.
pub fn peer_of(node: &Node, link: u8) -> NodeId
    ensures { result ≡ peer_at node.now.config link }
{
    match node.peers().get(link as usize) {
        Some(peer) => *peer,
        None => node.me(),
    }
}

/// The connection of this life on a link.
pub fn conn_of(node: &Node, link: u8, life: u32) -> ConnId
    ensures { result ≡ conn_on node.now link life }
{
    ConnId {
        from: peer_of(node, link),
        to: node.me(),
        life,
    }
}

/// The lowest slot without a decision.
pub fn lowest_of(node: &Node) -> u64
    requires runs { node.now.failed ≡ false }
    ensures { result ≡ node.now.ledger.lowest }
{
    node.ledger().lowest()
}

/// Adds the node, if it is meant.
pub fn add_if(nodes: &mut Vec<NodeId>, is_meant: bool, node: NodeId) -> Result<(), Fault>
    ensures added { OnOk result (nodes.new.items ≡ nodes.old.items ++ (if is_meant then node ∷ [] else [])) }
    ensures only_memory { IsOkUnless result Fault.NoMemory }
{
    if is_meant {
        nodes.push(node)?;
    }
    Ok(())
}

/// Adds the name of the node at the other end of a link.
pub fn write_peer(out: &mut String, names: &Names, node: &Node, link: u8) -> Result<(), Fault>
    ensures added { OnOk result (string_bytes out.new ≡ string_bytes out.old ++ node_name names.now (peer_at node.now.config link)) }
    ensures only_memory { IsOkUnless result Fault.NoMemory }
{
    names.write_node(out, &peer_of(node, link))
}

/// Adds the name of the node itself.
pub fn write_me(out: &mut String, names: &Names, node: &Node) -> Result<(), Fault>
    ensures added { OnOk result (string_bytes out.new ≡ string_bytes out.old ++ node_name names.now node.now.config.me) }
    ensures only_memory { IsOkUnless result Fault.NoMemory }
{
    names.write_node(out, &node.me())
}
