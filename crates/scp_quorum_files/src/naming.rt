//! Nodes that are asked for by their names.
ghost use Rattle.std.specs.Prelude.{◌≡◌, ◌↔◌, Some, true, map, IfOk, IfErr};
ghost use Rattle.std.specs.List.{Any};
ghost use Rattle.scp_quorum_search.specs.scp_types.specs.declared.names.NodeId.{NodeId};
ghost use Rattle.scp_quorum_search.specs.scp_quorum.specs.NodeSet.{is_in};
ghost use Rattle.scp_quorum_files.specs.Naming.{node_named, IsNamingFault};

use crate::network::Named;
use scp_quorum_search::below::types::NodeId;
use std::alloc::{AllocError, AllocFailed, Global};
use std::collections::BTreeSet;

/// Why names aren't those of nodes. A place counts from 0.
#[derive(Clone, Copy, Debug, Drop)]
pub enum NamingFault {
    /// Memory ran out.
    NoMemory,
    /// No node has the name at this place.
    NoNode(usize),
}

impl From<AllocError> for NamingFault {
    ghost use Rattle.std.specs.Prelude.{◌≡◌};
    ghost use Rattle.scp_quorum_files.specs.declared.naming.NamingFault.TheVariants.{NoMemory};

    ghost from_gives = { λ _ e. e ≡ NoMemory };

    fn from(_e: AllocError) -> NamingFault {
        NamingFault::NoMemory
    }
}

impl<T: Drop> From<AllocFailed<T>> for NamingFault {
    ghost use Rattle.std.specs.Prelude.{◌≡◌};
    ghost use Rattle.scp_quorum_files.specs.declared.naming.NamingFault.TheVariants.{NoMemory};

    ghost from_gives = { λ _ e. e ≡ NoMemory };

    fn from(_e: AllocFailed<T>) -> NamingFault {
        NamingFault::NoMemory
    }
}

/// The id of the node with this name, if there is one.
fn node_named(nodes: &[Named], name: &str) -> Option<NodeId>
    ensures { result ≡ node_named nodes.now name.now }
{
    for node in nodes {
        if node.name.as_str() == name {
            return Some(node.id);
        }
    }
    None
}

/// The nodes with these names.
pub fn nodes_named(
    alloc: Global,
    nodes: &[Named],
    names: &[&str],
) -> Result<BTreeSet<NodeId>, NamingFault>
    ensures found { IfOk result (λ found. (v : NodeId) → (is_in found v ≡ true) ↔ Any (λ name. node_named nodes.now name.now ≡ Some v) names.now) }
    ensures refused { IfErr result (IsNamingFault nodes.now (map (λ name. name.now) names.now)) }
{
    let mut found = BTreeSet::new(alloc);
    for (place, name) in names.iter().enumerate() {
        match node_named(nodes, *name) {
            Some(node) => found.insert(node)?,
            None => return Err(NamingFault::NoNode(place)),
        };
    }
    Ok(found)
}
