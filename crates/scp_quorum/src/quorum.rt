//! The greatest quorum inside given nodes.
mod counts;
mod groups;
mod passes;
mod places;
mod table;

ghost use Rattle.std.specs.Prelude.{◌≡◌, ◌↔◌, ◌<◌, ◌≤◌, IfOk, IfNone, IfSome, OnOk, IsTrue, IsOkUnless, Option};
ghost use Rattle.std.specs.Bool.{OnFalse, OnTrue};
ghost use Rattle.std.specs.List.{All};
ghost use Rattle.std.specs.BTreeMap.{keys};
ghost use Rattle.std.specs.BTreeSet.{btree_set_len, IsFromIterResult};
ghost use Rattle.scp_xdr.specs.scp_types.specs.declared.names.NodeId.{NodeId};
ghost use Rattle.scp_quorum.specs.NodeSet.{is_in, node_cmp};
ghost use Rattle.scp_quorum.specs.QuorumTree.{QuorumTree};
ghost use Rattle.scp_quorum.specs.Quorum.{set_of, IsGreatestQuorum, IsInSomeQuorum, HasNoQuorum, IsWithin, SatisfyThemselves};
ghost use Rattle.scp_quorum.specs.inside.Quorum.{AllHaveSets, KeepsQuorums};
ghost use Rattle.scp_quorum.specs.inside.Groups.{HasOneSet, IsSettled};

use crate::quorum_set::satisfied;
use crate::sane_set::SaneSet;
use counts::Counts;
use groups::{Group, group_nodes, has_member, remove_members};
pub use passes::greatest_quorum_by_passes;
pub use places::{Marked, Places, Seat, greatest_quorum_among};
use scp_xdr::below::types::{Fault, NodeId};
use std::alloc::{AllocError, Global};
use std::collections::{BTreeMap, BTreeSet};
use std::sync::Arc;
use table::KnownNodes;

/// The union of the quorums at `me` inside the nodes that have a set here (the SCP draft), itself a
/// quorum. `None` exactly where there is none. Takes memory for these nodes and for what names them;
/// the only refusal is `Fault::NoMemory`. Costs at most one table look-up for each node of each set.
/// If a set isn't satisfied, it adds a few look-ups for each node, and for each node of each distinct
/// set. No more are made where many nodes share a set, or one removal leads to the next.
pub fn greatest_quorum(
    alloc: Global,
    me: NodeId,
    sets: &BTreeMap<NodeId, Arc<SaneSet>>,
) -> Result<Option<BTreeSet<NodeId>>, Fault>
    ensures found { IfOk result (λ found. IfSome found (λ nodes. IsGreatestQuorum (set_of sets.now) me (is_in nodes))) }
    ensures union { IfOk result (λ found. IfSome found (λ nodes. (v : NodeId) → IsTrue (is_in nodes v) ↔ IsInSomeQuorum (set_of sets.now) me v)) }
    ensures none { IfOk result (λ found. IfNone found (HasNoQuorum (set_of sets.now) me)) }
    ensures only_memory { IsOkUnless result Fault.NoMemory }
{
    let mut remaining = known_nodes(alloc, sets)?;
    settle(alloc, sets, &mut remaining)?;
    if remaining.contains(&me) {
        Ok(Some(remaining))
    } else {
        Ok(None)
    }
}

/// Removes nodes that are in no quorum, until those that remain satisfy each other's sets.
fn settle(
    alloc: Global,
    sets: &BTreeMap<NodeId, Arc<SaneSet>>,
    remaining: &mut BTreeSet<NodeId>,
) -> Result<(), AllocError>
    requires { AllHaveSets (set_of sets.now) (is_in remaining.old) }
    ensures kept { OnOk result (KeepsQuorums (set_of sets.now) (is_in remaining.old) (is_in remaining.new)) }
    ensures settled { OnOk result (SatisfyThemselves (set_of sets.now) (is_in remaining.new)) }
{
    let known = KnownNodes::of(alloc, remaining)?;
    if are_all_satisfied(sets, &known) {
        return Ok(());
    }
    drop(known);
    let groups = group_nodes(alloc, sets)?;
    while remove_unsatisfied(&groups, remaining) {
        follow_counts(alloc, &groups, remaining)?;
    }
    Ok(())
}

/// Whether these nodes satisfy each set, so that nothing has to be grouped or removed; false means nothing.
/// The nodes of a set aren't looked up if it begins with nodes that were enough for an earlier one.
fn are_all_satisfied(sets: &BTreeMap<NodeId, Arc<SaneSet>>, nodes: &KnownNodes<'_>) -> bool
    requires { AllHaveSets (set_of sets.now) (is_in nodes.now) }
    ensures { OnTrue result (SatisfyThemselves (set_of sets.now) (is_in nodes.now)) }
{
    let mut head: &[NodeId] = &[];
    let mut threshold = 0;
    for (_, set) in sets {
        let set = set.set();
        if set.threshold() <= threshold && set.begins_with(head) {
            continue;
        }
        if let Some(found) = set.enough_of(nodes) {
            head = found;
            threshold = set.threshold();
        } else if !set.is_satisfied_by(nodes) {
            return false;
        }
    }
    true
}

/// Goes over the groups once, and removes the members of each whose set the remaining nodes don't
/// satisfy. Returns whether any was removed.
fn remove_unsatisfied(groups: &[Group<'_>], remaining: &mut BTreeSet<NodeId>) -> bool
    ensures within { IsWithin (is_in remaining.new) (is_in remaining.old) }
    ensures kept { (sets : NodeId → Option QuorumTree) → All (HasOneSet sets) groups.now → KeepsQuorums sets (is_in remaining.old) (is_in remaining.new) }
    ensures fewer { OnTrue result (btree_set_len remaining.new < btree_set_len remaining.old) }
    ensures settled { OnFalse result (All (IsSettled (is_in remaining.new)) groups.now) }
{
    let mut removed = false;
    for group in groups {
        if remove_if_unsatisfied(group, remaining) {
            removed = true;
        }
    }
    removed
}

/// Removes the members of a group whose set the remaining nodes don't satisfy. Returns whether any was removed.
fn remove_if_unsatisfied(group: &Group<'_>, remaining: &mut BTreeSet<NodeId>) -> bool
    ensures within { IsWithin (is_in remaining.new) (is_in remaining.old) }
    ensures kept { (sets : NodeId → Option QuorumTree) → HasOneSet sets group.now → KeepsQuorums sets (is_in remaining.old) (is_in remaining.new) }
    ensures fewer { OnTrue result (btree_set_len remaining.new < btree_set_len remaining.old) }
    ensures same { OnFalse result (remaining.new ≡ remaining.old) }
    ensures settled { OnFalse result (IsSettled (is_in remaining.new) group.now) }
{
    if !has_member(group, remaining) || satisfied(group.set.set(), remaining) {
        return false;
    }
    remove_members(group, remaining)
}

/// Removes one group after another, as the counts show whose set isn't satisfied any more.
fn follow_counts(
    alloc: Global,
    groups: &[Group<'_>],
    remaining: &mut BTreeSet<NodeId>,
) -> Result<(), AllocError>
    ensures within { IsWithin (is_in remaining.new) (is_in remaining.old) }
    ensures kept { (sets : NodeId → Option QuorumTree) → All (HasOneSet sets) groups.now → KeepsQuorums sets (is_in remaining.old) (is_in remaining.new) }
    ensures no_more { btree_set_len remaining.new ≤ btree_set_len remaining.old }
{
    let mut counts = Counts::of(alloc, groups, remaining)?;
    for _ in 0..groups.len() {
        let Some(index) = counts.next_fallen() else {
            break;
        };
        follow_one(index, groups, &mut counts, remaining)?;
    }
    Ok(())
}

/// Removes the members of the group at this place, if the remaining nodes don't satisfy its set:
/// what a count says is tested.
fn follow_one(
    index: usize,
    groups: &[Group<'_>],
    counts: &mut Counts,
    remaining: &mut BTreeSet<NodeId>,
) -> Result<(), AllocError>
    ensures within { IsWithin (is_in remaining.new) (is_in remaining.old) }
    ensures kept { (sets : NodeId → Option QuorumTree) → All (HasOneSet sets) groups.now → KeepsQuorums sets (is_in remaining.old) (is_in remaining.new) }
    ensures no_more { btree_set_len remaining.new ≤ btree_set_len remaining.old }
{
    let Some(group) = groups.get(index) else {
        return Ok(());
    };
    if remove_if_unsatisfied(group, remaining) {
        counts.lower_for_all(&group.members)?;
    }
    Ok(())
}

/// The nodes that have a set.
fn known_nodes(
    alloc: Global,
    sets: &BTreeMap<NodeId, Arc<SaneSet>>,
) -> Result<BTreeSet<NodeId>, AllocError>
    ensures { IfOk result (IsFromIterResult node_cmp (keys sets.now)) }
{
    sets.keys().copied().collect(alloc)
}
