//! What the nodes of a network are linked to.
ghost use Rattle.std.specs.Prelude.{◌≡◌, ◌<◌, ◌↔◌, ℕ, length, IsTrue};
ghost use Rattle.scp_turn.specs.Linked.{ids_of, HasOthers, IsNetwork};

use crate::Node;
use scp_core::below::types::{NETWORK_LIMIT, NodeId};

/// The most nodes, as the length of a list.
pub const SIDE: usize = NETWORK_LIMIT as usize;

/// Whether these are the ids of the nodes.
fn are_ids(nodes: &[Node], ids: &[NodeId]) -> bool
    ensures { IsTrue result ↔ (ids.now ≡ ids_of nodes.now) }
{
    match (nodes.split_first(), ids.split_first()) {
        (None, None) => true,
        (Some((node, nodes)), Some((id, ids))) => node.me() == *id && are_ids(nodes, ids),
        _ => false,
    }
}

/// Whether the peers of the node at a place are the others, in order.
fn has_others(nodes: &[Node], place: usize) -> bool
    requires place { place < length nodes.now }
    ensures { IsTrue result ↔ HasOthers nodes.now place }
{
    let peers = nodes[place].peers();
    if peers.len() < place {
        return false;
    }
    let (before, behind) = peers.split_at(place);
    are_ids(&nodes[..place], before) && are_ids(&nodes[place + 1..], behind)
}

/// Whether the peers of each node are the others.
fn are_linked(nodes: &[Node]) -> bool
    ensures { IsTrue result ↔ ((place : ℕ) → HasOthers nodes.now place) }
{
    for place in 0..nodes.len() {
        if !has_others(nodes, place) {
            return false;
        }
    }
    true
}

/// Whether there are at most 101 nodes, and the peers of each are the others.
pub fn is_network(nodes: &[Node]) -> bool
    ensures { IsTrue result ↔ IsNetwork nodes.now }
{
    nodes.len() <= SIDE && are_linked(nodes)
}
