mod greatest;
mod random;

use crate::twice::is_right_or_out_of_memory;
use scp_quorum::below::types::{Fault, Hash, NodeId};
use scp_quorum::*;
use sha2::{Digest, Sha256};
use std::alloc::Global;
use std::collections::BTreeSet;
use std::test::*;

/// The node whose 32 bytes are a number, big-endian.
fn node(number: u32) -> NodeId {
    let [first, second, third, fourth] = number.to_be_bytes();
    let mut bytes = [0; 32];
    bytes[28] = first;
    bytes[29] = second;
    bytes[30] = third;
    bytes[31] = fourth;
    NodeId(bytes)
}

/// A threshold, and nodes by their numbers.
type Flat = (u32, &'static [u32]);

/// The quorum set of this threshold and these nodes alone.
fn flat(alloc: Global, level: Flat) -> Result<QuorumSet, Fault> {
    let (threshold, numbers) = level;
    let mut validators = Vec::new(alloc);
    for number in numbers {
        validators.push(node(*number))?;
    }
    Ok(QuorumSet::of_nodes(threshold, validators))
}

/// A quorum set: a threshold, nodes, and inner sets.
#[derive(Clone, Copy, Debug)]
struct Shape(u32, &'static [u32], &'static [Flat]);

fn set_of(alloc: Global, shape: Shape) -> Result<QuorumSet, Fault> {
    let Shape(threshold, numbers, inner) = shape;
    let mut inner_sets = Vec::new(alloc);
    for level in inner {
        inner_sets.push(flat(alloc, *level)?)?;
    }
    let mut validators = Vec::new(alloc);
    for number in numbers {
        validators.push(node(*number))?;
    }
    QuorumSet::new(threshold, validators, inner_sets)
}

/// The set, with this many sets around it.
fn deep_set(alloc: Global, inner: QuorumSet, levels: u32) -> Result<QuorumSet, Fault> {
    let mut set = inner;
    for _ in 0..levels {
        let mut inner_sets = Vec::new(alloc);
        inner_sets.push(set)?;
        set = QuorumSet::new(1, Vec::new(alloc), inner_sets)?;
    }
    Ok(set)
}

/// Whether the nodes have these numbers, in this order.
fn are_nodes(nodes: &[NodeId], numbers: &[u32]) -> bool {
    nodes.len() == numbers.len()
        && nodes
            .iter()
            .zip(numbers)
            .all(|(found, number)| *found == node(*number))
}

/// Whether the set has the threshold, the nodes and this many inner sets.
fn has_parts(set: &QuorumSet, shape: Shape) -> bool {
    let Shape(threshold, numbers, inner) = shape;
    set.threshold() == threshold
        && are_nodes(set.validators(), numbers)
        && set.inner_sets().len() == inner.len()
}

/// Whether the set's copy is encoded as these bytes, and has these nodes in all its levels.
fn is_copied(set: &QuorumSet, bytes: &[u8], numbers: &[u32]) -> Result<bool, Fault> {
    let copy = set.copy()?;
    if copy.encode()?.as_slice() != bytes {
        return Ok(false);
    }
    Ok(are_nodes(&copy.nodes()?, numbers))
}

/// Sets with the nodes of all their levels, and whether they are sane.
const SHAPES: [(Shape, &[u32], bool); 11] = [
    (Shape(0, &[], &[]), &[], false),
    (Shape(1, &[], &[]), &[], false),
    (Shape(u32::MAX, &[], &[]), &[], false),
    (Shape(0, &[1], &[]), &[1], false),
    (Shape(u32::MAX, &[0], &[]), &[0], false),
    (Shape(1, &[3, 3], &[]), &[3, 3], false),
    (Shape(2, &[255, 0], &[]), &[255, 0], true),
    (Shape(3, &[9, 9, 9], &[]), &[9, 9, 9], false),
    (Shape(2, &[1, 2, 3], &[]), &[1, 2, 3], true),
    (Shape(2, &[1], &[(1, &[2, 3])]), &[1, 2, 3], true),
    (
        Shape(3, &[4], &[(2, &[1, 2, 3]), (1, &[5])]),
        &[4, 1, 2, 3, 5],
        true,
    ),
];

/// Sane or not, a set has its parts and is copied, and so is one around it. A copy that is refused is made again.
#[test]
fn sets_of_each_shape_are_copied(rt: HostRuntime) -> Result<(), Fail> {
    for (shape, numbers, is_sane) in SHAPES {
        let set = set_of(rt.alloc(), shape)?;
        assert!(rt;
            has_parts(&set, shape) && set.is_sane() == is_sane,
            "{shape:?}"
        );
        let set = deep_set(rt.alloc(), set, 2)?;
        let bytes = set.encode()?;
        assert!(rt;
            is_right_or_out_of_memory(is_copied(&set, &bytes, numbers)),
            "{shape:?}"
        );
        assert!(rt; is_copied(&set, &bytes, numbers)?, "{shape:?}");
    }
    Ok(())
}

/// Whether the set is refused as insane, and the set that is handed back has these bytes.
fn is_handed_back(set: QuorumSet, bytes: &[u8]) -> Result<bool, Fault> {
    match set.into_sane() {
        Ok(_taken) => Ok(false),
        Err((fault, back)) => Ok(fault == Fault::Insane && back.encode()?.as_slice() == bytes),
    }
}

/// Thresholds out of range, and sets with a node twice, at one level and at two.
const INSANE: [Shape; 6] = [
    Shape(0, &[], &[]),
    Shape(2, &[1], &[]),
    Shape(u32::MAX, &[1], &[]),
    Shape(1, &[1, 1], &[]),
    Shape(0, &[1], &[]),
    Shape(1, &[1], &[(1, &[1])]),
];

#[test]
fn insane_sets_are_handed_back(rt: HostRuntime) -> Result<(), Fail> {
    for shape in INSANE {
        let set = set_of(rt.alloc(), shape)?;
        let bytes = set.encode()?;
        assert!(rt; is_handed_back(set, &bytes)?, "{shape:?}");
    }
    Ok(())
}

/// 2 of {node 1, node 2, node 3}, and the SHA-256 of its 120 bytes as `sha256sum` gives it.
const WORKED: Shape = Shape(2, &[1, 2, 3], &[]);

const WORKED_HASH: [u8; 32] = [
    0x20, 0x5f, 0xaf, 0x60, 0xa9, 0x29, 0xc3, 0x50, 0x5e, 0x1a, 0x45, 0xf3, 0xc0, 0x7c, 0xd6, 0xde,
    0x3f, 0x8e, 0x90, 0x43, 0xc2, 0x82, 0xb8, 0x34, 0x6b, 0xf3, 0xd6, 0xce, 0x37, 0x5c, 0x4a, 0x92,
];

/// Whether the set is the worked one.
fn is_worked(set: &QuorumSet) -> Result<bool, Fault> {
    Ok(has_parts(set, WORKED) && set.hash()? == Hash(WORKED_HASH))
}

/// If memory runs out, the set is handed back, and is handed in again.
#[test]
fn a_refused_sane_set_is_handed_in_again(rt: HostRuntime) -> Result<(), Fail> {
    let back = match set_of(rt.alloc(), WORKED)?.into_sane() {
        Ok(sane) => sane.set().copy()?,
        Err((fault, back)) => {
            assert_eq!(rt; fault, Fault::NoMemory);
            back
        }
    };
    match back.into_sane() {
        Ok(sane) => {
            assert_eq!(rt; sane.hash(), Hash(WORKED_HASH));
            assert!(rt; is_worked(sane.set())?);
            Ok(())
        }
        Err((fault, back)) => {
            assert!(rt; has_parts(&back, WORKED));
            Err(Fail::from(fault))
        }
    }
}

/// Whether the set of the node alone is 1 of it, and has the hash of that.
fn is_alone(alloc: Global, node: NodeId) -> Result<bool, Fault> {
    let alone = SaneSet::alone(alloc, node)?;
    let set = alone.set();
    Ok(
        set.threshold() == 1
            && set.validators() == [node].as_slice()
            && set.inner_sets().is_empty()
            && set.hash()? == alone.hash(),
    )
}

/// Each node is as good as any other. A set that is refused is made again.
#[test]
fn any_node_is_alone(rt: HostRuntime) -> Result<(), Fail> {
    for node in [node(7), NodeId([0; 32]), NodeId([255; 32])] {
        assert!(rt;
            is_right_or_out_of_memory(is_alone(rt.alloc(), node)),
            "{node:?}"
        );
        assert!(rt; is_alone(rt.alloc(), node)?, "{node:?}");
    }
    Ok(())
}

/// Whether node 1 satisfies the set, and blocks it.
fn is_up_to_node_1(alloc: Global, set: &QuorumSet) -> Result<bool, Fault> {
    let mut given = BTreeSet::new(alloc);
    given.insert(node(1))?;
    Ok(satisfied(set, &given) && blocked(set, &given))
}

/// Whether the set is insane and too long to be encoded, and all its levels are copied, listed and asked.
fn is_too_deep(alloc: Global, set: &QuorumSet) -> Result<bool, Fault> {
    if set.is_sane()
        || set.encode().err() != Some(Fault::TooLong)
        || set.hash().err() != Some(Fault::TooLong)
    {
        return Ok(false);
    }
    let copy = set.copy()?;
    Ok(are_nodes(&copy.nodes()?, &[1]) && is_up_to_node_1(alloc, &copy)?)
}

/// A set has at most five levels of inner sets, one more than can be encoded.
#[test]
fn no_set_has_a_sixth_inner_level(rt: HostRuntime) -> Result<(), Fail> {
    let alloc = rt.alloc();
    let deepest = deep_set(alloc, flat(alloc, (1, &[1]))?, 5)?;
    assert!(rt; is_too_deep(alloc, &deepest)?);
    assert_eq!(rt; deep_set(alloc, deepest, 1).err(), Some(Fault::TooLong));
    Ok(())
}

/// A set is as deep as the deepest of its inner sets, whichever that is.
#[test]
fn the_deepest_inner_set_counts(rt: HostRuntime) -> Result<(), Fail> {
    let alloc = rt.alloc();
    let mut inner_sets = Vec::new(alloc);
    inner_sets.push(flat(alloc, (1, &[2]))?)?;
    inner_sets.push(deep_set(alloc, flat(alloc, (1, &[1]))?, 5)?)?;
    inner_sets.push(flat(alloc, (1, &[3]))?)?;
    let made = QuorumSet::new(1, Vec::new(alloc), inner_sets);
    assert_eq!(rt; made.err(), Some(Fault::TooLong));
    Ok(())
}

/// The SHA-256 of the bytes.
fn sha256_of(bytes: &[u8]) -> [u8; 32] {
    let mut hasher = Sha256::new();
    hasher.update(bytes);
    hasher.finalize()
}

#[test]
fn sha256_is_that_of_the_standard(rt: HostRuntime) {
    let abc = [
        0xba, 0x78, 0x16, 0xbf, 0x8f, 0x01, 0xcf, 0xea, 0x41, 0x41, 0x40, 0xde, 0x5d, 0xae, 0x22,
        0x23, 0xb0, 0x03, 0x61, 0xa3, 0x96, 0x17, 0x7a, 0x9c, 0xb4, 0x10, 0xff, 0x61, 0xf2, 0x00,
        0x15, 0xad,
    ];
    let none = [
        0xe3, 0xb0, 0xc4, 0x42, 0x98, 0xfc, 0x1c, 0x14, 0x9a, 0xfb, 0xf4, 0xc8, 0x99, 0x6f, 0xb9,
        0x24, 0x27, 0xae, 0x41, 0xe4, 0x64, 0x9b, 0x93, 0x4c, 0xa4, 0x95, 0x99, 0x1b, 0x78, 0x52,
        0xb8, 0x55,
    ];
    assert_eq!(rt; sha256_of(b"abc"), abc);
    assert_eq!(rt; sha256_of(&[]), none);
}
