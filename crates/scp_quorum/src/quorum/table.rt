//! Nodes in a table, in which most of them are found with one comparison.
//!
//! The table only says where to look: what is there is compared, and a node that isn't found there is looked for in another
//! way. So ids that were chosen to collide in it cost time, but change no answer. (The hash of a `HashMap` has a fixed seed
//! here: whoever chooses ids could make each look-up as long as the map.)
ghost use Rattle.std.specs.Prelude.{◌≡◌, IfOk, IfSome, IsTrue};
ghost use Rattle.std.specs.Bool.{OnTrue};
ghost use Rattle.std.specs.List.{All, Contains};
ghost use Rattle.scp_quorum.specs.NodeSet.{is_in};

use crate::quorum_set::Nodes;
use scp_xdr::below::types::NodeId;
use std::alloc::{AllocError, Global};
use std::collections::BTreeSet;
use std::marker::Model;
use std::simd::prelude::*;

/// What a slot holds that belongs to no node.
const NONE: u32 = u32::MAX;

/// 2^64 divided by the golden ratio, made odd: multiplying by it carries all bits into the upper ones.
const MIX: u64 = 0x9e37_79b9_7f4a_7c15;

/// Nodes in ascending order, and a table of their places.
#[derive(Drop)]
pub(crate) struct NodeTable {
    nodes: Vec<NodeId>,
    /// For each slot a place in the list. The slots are a power of two, four to eight for each node.
    places: Vec<u32>,
    /// How many of 64 bits are dropped to get a slot.
    shift: u32,
}

impl NodeTable {
    /// A table of these nodes.
    pub(crate) fn of(alloc: Global, nodes: &BTreeSet<NodeId>) -> Result<NodeTable, AllocError>
        ensures { IfOk result (λ table. All (λ v. IsTrue (is_in nodes.now v)) table.nodes.items) }
    {
        let nodes: Vec<NodeId> = nodes.iter().copied().collect(alloc)?;
        let shift = nodes.len().leading_zeros().saturating_sub(2);
        let places = places_of(alloc, &nodes, shift)?;
        Ok(NodeTable {
            nodes,
            places,
            shift,
        })
    }

    /// How many nodes there are.
    pub(crate) fn len(&self) -> usize {
        self.nodes.len()
    }

    /// The place of the node.
    pub(crate) fn place_of(&self, node: &NodeId) -> Option<usize> {
        self.slotted_place_of(node)
            .or_else(|| self.nodes.binary_search(node).ok())
    }

    /// The place of the node, if a slot has it.
    fn slotted_place_of(&self, node: &NodeId) -> Option<usize>
        ensures { IfSome result (λ _. Contains self.now.nodes.items node.now) }
    {
        let slot = slot_of(node, self.shift);
        let first = self.place_in(slot);
        if self.is_at(first, node) {
            return Some(first);
        }
        let second = self.place_in(slot ^ 1);
        if self.is_at(second, node) {
            return Some(second);
        }
        None
    }

    fn place_in(&self, slot: usize) -> usize {
        *self.places.get(slot).unwrap_or(&NONE) as usize
    }

    fn is_at(&self, place: usize, node: &NodeId) -> bool
        ensures { OnTrue result (Contains self.now.nodes.items node.now) }
    {
        match self.nodes.get(place) {
            Some(found) => found == node,
            None => false,
        }
    }
}

/// For each slot a place in the list. If a node's slot is taken, it gets the neighbouring slot.
fn places_of(alloc: Global, nodes: &[NodeId], shift: u32) -> Result<Vec<u32>, AllocError> {
    let slots = usize::MAX.wrapping_shr(shift).saturating_add(1);
    let mut places = vec![in alloc; NONE; slots]?;
    for (place, node) in nodes.iter().enumerate() {
        let slot = slot_of(node, shift);
        let slot = if places.get(slot) == Some(&NONE) {
            slot
        } else {
            slot ^ 1
        };
        if let Some(entry) = places.get_mut(slot) {
            *entry = u32::try_from(place).unwrap_or(NONE);
        }
    }
    Ok(places)
}

/// The upper bits of a number on which all bits of the id have an influence.
fn slot_of(node: &NodeId, shift: u32) -> usize {
    let words = u64x4::from_le_bytes(u8x32::from_array(node.0));
    words.reduce_xor().wrapping_mul(MIX).wrapping_shr(shift) as usize
}

/// Nodes with a table of them. Contracts see the nodes.
#[derive(Drop)]
pub(crate) struct KnownNodes<'a> {
    nodes: &'a BTreeSet<NodeId>,
    table: NodeTable,
}

impl<'a> Model for KnownNodes<'a> {
    ghost use Rattle.std.specs.Prelude.{IsTrue};
    ghost use Rattle.std.specs.List.{All};
    ghost use Rattle.std.specs.BTreeSet.{BTreeSet};
    ghost use Rattle.scp_xdr.specs.scp_types.specs.declared.names.NodeId.{NodeId};
    ghost use Rattle.scp_quorum.specs.NodeSet.{is_in};

    ghost Value = { BTreeSet NodeId };

    ghost view = { λ a. a.nodes.now };

    ghost invariant = { λ a. All (λ v. IsTrue (is_in a.nodes.now v)) a.table.nodes.items };
}

impl<'a> KnownNodes<'a> {
    /// These nodes.
    pub(crate) fn of(
        alloc: Global,
        nodes: &'a BTreeSet<NodeId>,
    ) -> Result<KnownNodes<'a>, AllocError>
        ensures { IfOk result (λ known. known ≡ nodes.entry.now) }
    {
        let table = NodeTable::of(alloc, nodes)?;
        Ok(KnownNodes { nodes, table })
    }
}

impl Nodes for KnownNodes<'_> {
    ghost members = { λ known. is_in known };

    fn has(&self, node: &NodeId) -> bool {
        self.table.slotted_place_of(node).is_some() || self.nodes.contains(node)
    }
}
