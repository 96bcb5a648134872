//! The nodes that are heard of.
ghost use Rattle.std.specs.Prelude.{◌≡◌, map, IfOk, IsOkUnless};
ghost use Rattle.std.specs.BTreeSet.{keys};
ghost use Rattle.scp_history.specs.scp_judged.specs.Verdicts.{heard_of};
ghost use Rattle.scp_shown.specs.Spoken.{nodes_heard};

use scp_history::below::judged::Said;
use scp_history::below::types::{Fault, NodeId};
use std::alloc::{AllocError, Global};
use std::collections::BTreeSet;

/// The nodes of a set, ascending.
pub(crate) fn list_of(alloc: Global, nodes: &BTreeSet<NodeId>) -> Result<Vec<NodeId>, AllocError>
    ensures { IfOk result (λ list. list.items ≡ keys nodes.now) }
{
    let mut list = Vec::new(alloc);
    for node in nodes {
        list.push(*node)?;
    }
    Ok(list)
}

/// The nodes of these statements.
fn set_of_nodes(alloc: Global, joined: &[Said]) -> Result<BTreeSet<NodeId>, Fault>
    ensures nodes { IfOk result (λ nodes. keys nodes ≡ nodes_heard (map heard_of joined.now)) }
    ensures only_memory { IsOkUnless result Fault.NoMemory }
{
    let mut nodes = BTreeSet::new(alloc);
    for said in joined {
        nodes.insert(said.envelope.get().statement.node)?;
    }
    Ok(nodes)
}

/// The nodes of these statements, ascending, each once. The only refusal is `Fault::NoMemory`.
pub(crate) fn nodes_of(alloc: Global, joined: &[Said]) -> Result<Vec<NodeId>, Fault>
    ensures nodes { IfOk result (λ nodes. nodes.items ≡ nodes_heard (map heard_of joined.now)) }
    ensures only_memory { IsOkUnless result Fault.NoMemory }
{
    let nodes = set_of_nodes(alloc, joined)?;
    let list = list_of(alloc, &nodes)?;
    Ok(list)
}
