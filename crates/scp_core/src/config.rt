//! What a node is made of.
ghost use Rattle.std.specs.Prelude.{◌≡◌};
ghost use Rattle.scp_theorem.specs.Fates.{is_among};
ghost use Rattle.scp_core.specs.Config.{are_apart};

use scp_theorem::below::quorum::QuorumSet;
use scp_theorem::below::types::{Capacities, NodeId};
use std::marker::Model;

/// The nodes at the other ends of a node's links, in the order of the links.
#[derive(Drop)]
pub struct Peers(Vec<NodeId>);

impl Model for Peers {
    ghost use Rattle.std.specs.Prelude.{List};
    ghost use Rattle.scp_theorem.specs.scp_types.specs.declared.names.NodeId.{NodeId};

    ghost Value = { List NodeId };

    ghost view = { λ p. p.0.items };
}

impl Peers {
    /// The list of these peers.
    pub fn new(nodes: Vec<NodeId>) -> Peers
        ensures { result ≡ nodes.items }
    {
        Peers(nodes)
    }

    /// The peers as a slice.
    pub fn as_slice(&self) -> &[NodeId]
        ensures { result.now ≡ self.now }
    {
        self.0.as_slice()
    }
}

/// Who a node is, what it is linked to, and what its queues hold.
#[derive(Drop)]
pub struct Config {
    /// The node itself.
    pub me: NodeId,
    /// Its quorum set, which is sane.
    pub set: QuorumSet,
    /// Its peers, none twice: at most seven other nodes, or a hundred where it is made by `Node::of_many`.
    pub peers: Peers,
    /// What its queues hold.
    pub capacities: Capacities,
}

/// Whether no peer is in the list twice.
pub fn are_peers_apart(peers: &[NodeId]) -> bool
    ensures { result ≡ are_apart peers.now }
{
    match peers.split_first() {
        None => true,
        Some((first, rest)) => !has_peer(rest, first) && are_peers_apart(rest),
    }
}

/// Whether the node is among the peers.
pub fn has_peer(peers: &[NodeId], node: &NodeId) -> bool
    ensures { result ≡ is_among node.now peers.now }
{
    peers.iter().any(|peer| *peer == *node)
}
