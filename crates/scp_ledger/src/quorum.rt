//! The nodes of a certificate.
ghost use Rattle.std.specs.Prelude.{◌≡◌, IfOk, length};
ghost use Rattle.std.specs.BTreeSet.{keys};
ghost use Rattle.scp_ledger.specs.Certificate.{has_node};

use scp_slot::below::types::NodeId;
use std::alloc::{AllocError, Global};
use std::collections::BTreeSet;
use std::marker::Model;

/// Nodes that are a quorum, ascending. Contracts see the list.
#[derive(Drop)]
pub struct Quorum(BTreeSet<NodeId>);

impl Model for Quorum {
    ghost use Rattle.std.specs.Prelude.{List};
    ghost use Rattle.scp_slot.specs.scp_types.specs.declared.names.NodeId.{NodeId};

    ghost Value = { List NodeId };

    ghost view = { λ q. q.0.keys };
}

impl Quorum {
    /// The set of these nodes. Takes no memory.
    pub(crate) fn new(nodes: BTreeSet<NodeId>) -> Quorum
        ensures { result ≡ keys nodes }
    {
        Quorum(nodes)
    }

    /// Whether the node is one of them. The time grows with the logarithm of their number.
    pub fn contains(&self, node: NodeId) -> bool
        ensures { result ≡ has_node self.now node }
    {
        self.0.contains(&node)
    }

    /// How many nodes there are.
    pub fn count(&self) -> usize
        ensures { result ≡ length self.now }
    {
        self.0.len()
    }

    /// The nodes, ascending.
    pub fn nodes(&self, alloc: Global) -> Result<Vec<NodeId>, AllocError>
        ensures { IfOk result (λ nodes. nodes.items ≡ self.now) }
    {
        let mut nodes = Vec::new(alloc);
        for node in &self.0 {
            nodes.push(*node)?;
        }
        Ok(nodes)
    }
}
