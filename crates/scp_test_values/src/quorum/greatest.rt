//! The greatest quorum at a node.
use super::{Flat, flat, node};
use crate::twice::is_right_or_out_of_memory;
use scp_quorum::below::types::{Fault, NodeId};
use scp_quorum::{QuorumSet, SaneSet, greatest_quorum};
use std::alloc::Global;
use std::collections::BTreeMap;
use std::sync::Arc;
use std::test::*;

pub(super) type Sets = BTreeMap<NodeId, Arc<SaneSet>>;

/// The node has this set from now on, if it is sane.
pub(super) fn give(
    alloc: Global,
    sets: &mut Sets,
    number: u32,
    set: QuorumSet,
) -> Result<(), Fault> {
    match set.into_sane() {
        Ok(sane) => {
            sets.insert(node(number), Arc::new(alloc, sane)?)?;
            Ok(())
        }
        Err((Fault::Insane, _)) => Ok(()),
        Err((fault, _)) => Err(fault),
    }
}

/// A node with its set.
type Given = (u32, Flat);

/// Each of the nodes has its set.
fn sets_of(alloc: Global, given: &[Given]) -> Result<Sets, Fault> {
    let mut sets = BTreeMap::new(alloc);
    for (number, level) in given {
        give(alloc, &mut sets, *number, flat(alloc, *level)?)?;
    }
    Ok(sets)
}

/// Whether the greatest quorum at the node has exactly these nodes, ascending; no nodes mean that there is none.
fn is_quorum(alloc: Global, sets: &Sets, number: u32, numbers: &[u32]) -> Result<bool, Fault> {
    let found = greatest_quorum(alloc, node(number), sets)?;
    Ok(match &found {
        Some(found) => {
            !numbers.is_empty()
                && found.len() == numbers.len()
                && found
                    .iter()
                    .zip(numbers)
                    .all(|(found, number)| *found == node(*number))
        }
        None => numbers.is_empty(),
    })
}

/// Nodes that need each other, or drop out one after the other: their sets, and the greatest quorum at some of them.
const QUORUMS: [(&[Given], &[(u32, &[u32])]); 4] = [
    (&[(1, (2, &[1, 2])), (2, (2, &[2, 3]))], &[(1, &[])]),
    (
        &[(1, (2, &[1, 2])), (2, (2, &[2, 3])), (3, (1, &[3]))],
        &[(1, &[1, 2, 3]), (4, &[])],
    ),
    (
        &[
            (1, (1, &[1])),
            (2, (1, &[3])),
            (3, (1, &[4])),
            (4, (1, &[5])),
            (5, (1, &[6])),
            (6, (1, &[7])),
            (7, (1, &[8])),
            (8, (1, &[9])),
        ],
        &[(1, &[1]), (2, &[])],
    ),
    (
        &[
            (1, (2, &[1, 2])),
            (2, (1, &[1, 9])),
            (3, (2, &[1, 4])),
            (4, (1, &[5])),
            (5, (1, &[6])),
        ],
        &[(1, &[1, 2]), (3, &[])],
    ),
];

/// A quorum asks for the set of each node. If memory runs out, it is looked for again.
#[test]
fn the_greatest_quorum_is_found(rt: HostRuntime) -> Result<(), Fail> {
    for (given, quorums) in QUORUMS {
        let sets = sets_of(rt.alloc(), given)?;
        for (number, numbers) in quorums {
            assert!(rt;
                is_right_or_out_of_memory(is_quorum(rt.alloc(), &sets, *number, numbers)),
                "at {number} of {given:?}"
            );
            assert!(rt;
                is_quorum(rt.alloc(), &sets, *number, numbers)?,
                "at {number} of {given:?}"
            );
        }
    }
    Ok(())
}

/// How many nodes there are, each with a set of its own, of itself alone.
const NODES: u32 = 1_200;

fn each_alone(alloc: Global) -> Result<Sets, Fault> {
    let mut sets = BTreeMap::new(alloc);
    for number in 0..NODES {
        let alone = SaneSet::alone(alloc, node(number))?;
        sets.insert(node(number), Arc::new(alloc, alone)?)?;
    }
    Ok(sets)
}

/// How many nodes the greatest quorum at the node has.
fn count_at(alloc: Global, sets: &Sets, number: u32) -> Result<Option<usize>, Fault> {
    Ok(match &greatest_quorum(alloc, node(number), sets)? {
        Some(nodes) => Some(nodes.len()),
        None => None,
    })
}

#[test]
fn a_thousand_nodes_alone(rt: HostRuntime) -> Result<(), Fail> {
    let sets = each_alone(rt.alloc())?;
    for number in [0, 599, 999, 1_000, NODES - 1] {
        assert_eq!(rt;
            count_at(rt.alloc(), &sets, number)?,
            Some(1_200),
            "at {number}"
        );
    }
    assert_eq!(rt; count_at(rt.alloc(), &sets, NODES)?, None);
    Ok(())
}
