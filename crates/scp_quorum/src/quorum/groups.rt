//! The nodes that share a quorum set.
ghost use Rattle.std.specs.Prelude.{◌≡◌, ◌<◌, IfOk, OnOk, IsSome, IsTrue, Option, Some, false};
ghost use Rattle.std.specs.Bool.{OnFalse, OnTrue};
ghost use Rattle.std.specs.List.{All, Contains};
ghost use Rattle.std.specs.BTreeSet.{btree_set_len};
ghost use Rattle.scp_xdr.specs.scp_types.specs.declared.names.NodeId.{NodeId};
ghost use Rattle.scp_quorum.specs.NodeSet.{is_in};
ghost use Rattle.scp_quorum.specs.QuorumTree.{QuorumTree};
ghost use Rattle.scp_quorum.specs.Quorum.{set_of, IsWithin};
ghost use Rattle.scp_quorum.specs.inside.Groups.{HasOneSet, IsGrouped};

use crate::sane_set::SaneSet;
use scp_xdr::below::types::{Hash, NodeId};
use std::alloc::{AllocError, Global};
use std::collections::{BTreeMap, BTreeSet};
use std::sync::Arc;

/// Nodes that share a quorum set.
#[derive(Drop)]
pub(crate) struct Group<'a> {
    pub(crate) set: &'a SaneSet,
    pub(crate) members: Vec<NodeId>,
}

/// The nodes, grouped by their sets.
pub(crate) fn group_nodes(
    alloc: Global,
    sets: &BTreeMap<NodeId, Arc<SaneSet>>,
) -> Result<Vec<Group<'_>>, AllocError>
    ensures one_set { IfOk result (λ groups. All (HasOneSet (set_of sets.now)) groups.items) }
    ensures all { IfOk result (λ groups. (v : NodeId) → IsSome (set_of sets.now v) → IsGrouped groups.items v) }
{
    let mut groups = Vec::new(alloc);
    let mut places = BTreeMap::new(alloc);
    for (node, set) in sets {
        join_group(alloc, *node, set, &mut groups, &mut places)?;
    }
    Ok(groups)
}

/// Adds a node to the group of its set, or else to a new one. Groups are found by the set's hash; of
/// two sets with one hash, the first is found.
fn join_group<'a>(
    alloc: Global,
    node: NodeId,
    set: &'a SaneSet,
    groups: &mut Vec<Group<'a>>,
    places: &mut BTreeMap<Hash, usize>,
) -> Result<(), AllocError>
    ensures one_set { OnOk result ((sets : NodeId → Option QuorumTree) → sets node ≡ Some set.now → All (HasOneSet sets) groups.old.items → All (HasOneSet sets) groups.new.items) }
    ensures joined { OnOk result (IsGrouped groups.new.items node) }
    ensures others { OnOk result ((v : NodeId) → IsGrouped groups.old.items v → IsGrouped groups.new.items v) }
{
    let place = *places.entry(set.hash())?.or_insert(groups.len());
    if let Some(group) = groups.get_mut(place)
        && is_same_set(group.set, set)
    {
        group.members.push(node)?;
        return Ok(());
    }
    let mut members = Vec::with_capacity(alloc, 1)?;
    members.push(node)?;
    groups.push(Group { set, members })?;
    Ok(())
}

/// Whether two sets are known to be equal. Equal hashes alone don't show it.
fn is_same_set(a: &SaneSet, b: &SaneSet) -> bool
    ensures { OnTrue result (a.now ≡ b.now) }
{
    a.set().is_same(b.set())
}

/// Whether one of the members is among the nodes.
pub(crate) fn has_member(group: &Group<'_>, nodes: &BTreeSet<NodeId>) -> bool
    ensures { OnFalse result ((v : NodeId) → Contains group.now.members.items v → is_in nodes.now v ≡ false) }
{
    group.members.iter().any(|member| nodes.contains(member))
}

/// Removes the members from the nodes. Returns whether there were any.
pub(crate) fn remove_members(group: &Group<'_>, nodes: &mut BTreeSet<NodeId>) -> bool
    ensures within { IsWithin (is_in nodes.new) (is_in nodes.old) }
    ensures others { (v : NodeId) → IsTrue (is_in nodes.old v) → (Contains group.now.members.items v → ⊥) → IsTrue (is_in nodes.new v) }
    ensures fewer { OnTrue result (btree_set_len nodes.new < btree_set_len nodes.old) }
    ensures same { OnFalse result (nodes.new ≡ nodes.old) }
    ensures none { OnFalse result ((v : NodeId) → Contains group.now.members.items v → is_in nodes.old v ≡ false) }
{
    let mut removed = false;
    for member in &group.members {
        if nodes.remove(member) {
            removed = true;
        }
    }
    removed
}
