//! The greatest quorum against the plain program, on maps of pseudo-random sets.
use super::greatest::{Sets, give};
use super::{deep_set, node};
use scp_quorum::below::types::{Fault, NodeId};
use scp_quorum::{QuorumSet, greatest_quorum, greatest_quorum_by_passes};
use std::alloc::Global;
use std::collections::BTreeMap;
use std::sync::Arc;
use std::test::*;

/// How many nodes there are to name.
const NODES: u32 = 9;

/// A linear congruential generator: the same numbers in each run.
#[derive(Drop)]
struct Random(u64);

impl Random {
    fn below(&mut self, bound: u32) -> u32 {
        if bound == 0 {
            return 0;
        }
        self.0 = self
            .0
            .wrapping_mul(6_364_136_223_846_793_005)
            .wrapping_add(1_442_695_040_888_963_407);
        ((self.0 >> 33) % u64::from(bound)) as u32
    }

    /// A threshold from 1 to the number of entries, mostly a high one.
    fn threshold(&mut self, entries: usize) -> u32 {
        let most = u32::try_from(entries).unwrap_or(u32::MAX);
        let less = self.below(most);
        most.saturating_sub(self.below(less.saturating_add(1)))
    }
}

/// Adds a set of these nodes, if there are any, with this many sets around it.
fn push_inner(
    random: &mut Random,
    inner_sets: &mut Vec<QuorumSet>,
    nodes: Vec<NodeId>,
    levels: u32,
) -> Result<(), Fault> {
    if nodes.is_empty() {
        return Ok(());
    }
    let alloc = *nodes.allocator();
    let set = QuorumSet::of_nodes(random.threshold(nodes.len()), nodes);
    inner_sets.push(deep_set(alloc, set, levels)?)?;
    Ok(())
}

/// A set that has each node at most once: at the top, in an inner set, or in an inner set of a second one.
fn random_set(alloc: Global, random: &mut Random) -> Result<QuorumSet, Fault> {
    let mut top = Vec::new(alloc);
    let mut first = Vec::new(alloc);
    let mut second = Vec::new(alloc);
    for number in 0..NODES {
        match random.below(6) {
            0 => top.push(node(number))?,
            1 => first.push(node(number))?,
            2 => second.push(node(number))?,
            _ => {}
        }
    }
    let mut inner_sets = Vec::new(alloc);
    push_inner(random, &mut inner_sets, first, 0)?;
    push_inner(random, &mut inner_sets, second, 1)?;
    let entries = top.len().saturating_add(inner_sets.len());
    QuorumSet::new(random.threshold(entries), top, inner_sets)
}

/// Gives the node the set of node 0, an equal one of its own, another, or none.
fn give_any(alloc: Global, random: &mut Random, sets: &mut Sets, number: u32) -> Result<(), Fault> {
    match (random.below(4), sets.get(&node(0))) {
        (0, Some(first)) => {
            let first = Arc::clone(first)?;
            sets.insert(node(number), first)?;
            Ok(())
        }
        (1, Some(first)) => {
            let own = first.set().copy()?;
            give(alloc, sets, number, own)
        }
        (2, _) => give(alloc, sets, number, random_set(alloc, random)?),
        _ => Ok(()),
    }
}

/// Some nodes with sets.
fn random_map(alloc: Global, random: &mut Random) -> Result<Sets, Fault> {
    let mut sets = BTreeMap::new(alloc);
    give(alloc, &mut sets, 0, random_set(alloc, random)?)?;
    for number in 1..NODES {
        give_any(alloc, random, &mut sets, number)?;
    }
    Ok(sets)
}

/// At how many nodes there is a quorum; `None` if the programs differ.
fn quorums(alloc: Global, sets: &Sets) -> Result<Option<u32>, Fault> {
    let mut count = 0u32;
    for number in 0..NODES {
        let found = greatest_quorum(alloc, node(number), sets)?;
        if found != greatest_quorum_by_passes(alloc, node(number), sets)? {
            return Ok(None);
        }
        if found.is_some() {
            count = count.saturating_add(1);
        }
    }
    Ok(Some(count))
}

#[test]
fn the_greatest_quorum_is_that_of_the_plain_program(rt: HostRuntime) -> Result<(), Fail> {
    let mut random = Random(1);
    let mut some = 0u32;
    let mut none = 0u32;
    for _ in 0..300 {
        let sets = random_map(rt.alloc(), &mut random)?;
        match quorums(rt.alloc(), &sets)? {
            Some(0) => none = none.saturating_add(1),
            Some(_) => some = some.saturating_add(1),
            None => panic!(rt; "the programs differ"),
        }
    }
    assert!(rt; some > 30, "{some} maps have a quorum");
    assert!(rt; none > 30, "{none} maps have none");
    Ok(())
}
