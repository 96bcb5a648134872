use scp_slot::below::quorum::{QuorumSet, SaneSet, greatest_quorum};
use scp_slot::below::types::{Fault, NodeId};
use std::alloc::{AllocError, Global};
use std::collections::BTreeMap;
use std::sync::Arc;

/// How often the greatest quorum is asked for.
const CALLS: u32 = 1_000;

/// How many nodes a set of a node's own names.
const OWN: u32 = 100;

/// Who has which quorum set.
#[derive(Clone, Copy)]
pub enum Shape {
    /// All nodes share one set, of two thirds of them and one more.
    Shared,
    /// Each node has a set of its own, of two thirds and one more of the 100 nodes that follow it in a ring.
    Own,
    /// Each node needs the next, and the last needs one that has no set: one falls after the other.
    Chain,
    /// All nodes share one set that needs all of them, and one has no set.
    Missing,
}

type Sets = BTreeMap<NodeId, Arc<SaneSet>>;

/// The node of this number.
pub fn node(number: u32) -> NodeId {
    let [a, b, c, d] = number.to_be_bytes();
    let mut id = [0; 32];
    id[0] = a;
    id[1] = b;
    id[2] = c;
    id[3] = d;
    NodeId(id)
}

/// A set of so many of these nodes, which are as many as `len` from the first on, in a ring of `ring` nodes.
pub fn set_of(
    alloc: Global,
    threshold: u32,
    first: u32,
    len: u32,
    ring: u32,
) -> Result<Arc<SaneSet>, Fault> {
    let mut validators = Vec::with_capacity(alloc, len as usize)?;
    for step in 0..len {
        let number = first.wrapping_add(step);
        let number = if ring > 0 { number % ring } else { number };
        validators.push(node(number))?;
    }
    match QuorumSet::of_nodes(threshold, validators).into_sane() {
        Ok(set) => Ok(Arc::new(alloc, set)?),
        Err((fault, _)) => Err(fault),
    }
}

/// Two thirds, and one more.
pub fn two_thirds(nodes: u32) -> u32 {
    nodes - nodes / 3
}

/// The first so many nodes, each with this set.
fn sharing(alloc: Global, nodes: u32, set: &Arc<SaneSet>) -> Result<Sets, AllocError> {
    let mut sets = BTreeMap::new(alloc);
    for number in 0..nodes {
        sets.insert(node(number), Arc::try_clone(set)?)?;
    }
    Ok(sets)
}

/// So many nodes, each with a set of its own of the nodes that follow it.
fn apart(alloc: Global, nodes: u32, len: u32, ring: u32) -> Result<Sets, Fault> {
    let mut sets = BTreeMap::new(alloc);
    for number in 0..nodes {
        let set = set_of(alloc, two_thirds(len), number.wrapping_add(1), len, ring)?;
        sets.insert(node(number), set)?;
    }
    Ok(sets)
}

fn sets(alloc: Global, shape: Shape, nodes: u32) -> Result<Sets, Fault> {
    match shape {
        Shape::Shared => {
            let set = set_of(alloc, two_thirds(nodes), 0, nodes, 0)?;
            Ok(sharing(alloc, nodes, &set)?)
        }
        Shape::Own => apart(alloc, nodes, nodes.min(OWN), nodes),
        Shape::Chain => apart(alloc, nodes, 1, 0),
        Shape::Missing => {
            let set = set_of(alloc, nodes, 0, nodes, 0)?;
            Ok(sharing(alloc, nodes.saturating_sub(1), &set)?)
        }
    }
}

/// Asks again and again for the greatest quorum at node 0 among so many nodes, at most 1,000 where they share a set.
pub fn find_quorums(alloc: Global, shape: Shape, nodes: u32) -> Result<String, Fault> {
    let sets = sets(alloc, shape, nodes)?;
    let mut found: u64 = 0;
    let mut members: u64 = 0;
    for _ in 0..CALLS {
        if let Some(quorum) = greatest_quorum(alloc, node(0), &sets)? {
            found = found.wrapping_add(1);
            members = members.wrapping_add(quorum.len() as u64);
        }
    }
    Ok(format!(in alloc; "calls {CALLS} found {found} members {members}")?)
}
