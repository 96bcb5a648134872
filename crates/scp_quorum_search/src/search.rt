//! The search for two quorums without a common node.
//!
//! It goes from chosen nodes, and those that are left, to fewer that are left: a quorum is sought that has all the chosen ones, and besides
//! them only nodes that are left, and to which another quorum lies apart. It is begun with none chosen, and all left.
ghost use Rattle.std.specs.Prelude.{◌≡◌, ◌+◌, ◌^◌, ◌<◌, ◌≤◌, ◌⊎◌, Bool, true, false, IfOk, OnOk, length};
ghost use Rattle.std.specs.Bool.{OnFalse, OnTrue};
ghost use Rattle.std.specs.List.{All, Contains};
ghost use Rattle.scp_quorum.specs.scp_types.specs.declared.names.NodeId.{NodeId};
ghost use Rattle.scp_quorum.specs.NodeSet.{is_in};
ghost use Rattle.scp_quorum.specs.Quorum.{IsWithin};
ghost use Rattle.scp_quorum.specs.Satisfies.{AreDisjoint};
ghost use Rattle.scp_quorum_search.specs.inside.Search.{AreListed, IsQuorumIn, IsLook, Finds, MaySwap, is_or_in};

use crate::meeting::Meeting;
use crate::quest::{Look, Quest};
use crate::settle::settle;
use crate::sides::may_swap;
use crate::tries::{Tries, try_once};
use scp_quorum::below::types::NodeId;
use std::alloc::{AllocError, Global};
use std::collections::BTreeSet;

/// A copy of the set of nodes.
pub fn copy_of(nodes: &BTreeSet<NodeId>) -> Result<BTreeSet<NodeId>, AllocError>
    ensures { IfOk result (λ copied. copied ≡ nodes.now) }
{
    nodes.clone()
}

/// Whether there is no node.
pub fn has_none(nodes: &BTreeSet<NodeId>) -> bool
    ensures none { OnTrue result ((v : NodeId) → is_in nodes.now v ≡ false) }
    ensures some { OnFalse result ((v : NodeId) × (is_in nodes.now v ≡ true)) }
{
    match nodes.first() {
        Some(_) => false,
        None => true,
    }
}

/// The chosen nodes and those that are left.
pub fn inside(chosen: &BTreeSet<NodeId>, left: &[NodeId]) -> Result<BTreeSet<NodeId>, AllocError>
    ensures chosen { IfOk result (λ nodes. IsWithin (is_in chosen.now) (is_in nodes)) }
    ensures left { IfOk result (λ nodes. All (λ v. is_in nodes v ≡ true) left.now) }
{
    let mut nodes = copy_of(chosen)?;
    for node in left {
        nodes.insert(*node)?;
    }
    Ok(nodes)
}

/// All the nodes but the chosen ones.
pub fn outside(
    alloc: Global,
    all: &[NodeId],
    chosen: &BTreeSet<NodeId>,
) -> Result<BTreeSet<NodeId>, AllocError>
    ensures listed { IfOk result (λ nodes. AreListed all.now (is_in nodes)) }
    ensures apart { IfOk result (λ nodes. AreDisjoint (is_in nodes) (is_in chosen.now)) }
    ensures rest { IfOk result (λ nodes. All (λ v. is_in chosen.now v ≡ false → is_in nodes v ≡ true) all.now) }
{
    let mut nodes = BTreeSet::new(alloc);
    for node in all {
        if !chosen.contains(node) {
            nodes.insert(*node)?;
        }
    }
    Ok(nodes)
}

/// Those of the nodes that are in a set, in their order.
fn those_in(
    alloc: Global,
    left: &[NodeId],
    nodes: &BTreeSet<NodeId>,
) -> Result<Vec<NodeId>, AllocError>
    ensures each { IfOk result (λ found. All (Contains left.now) found.items) }
    ensures all { IfOk result (λ found. All (λ v. is_in nodes.now v ≡ true → Contains found.items v) left.now) }
    ensures no_more { IfOk result (λ found. length found.items ≤ length left.now) }
{
    let mut found = Vec::new(alloc);
    for node in left {
        if nodes.contains(node) {
            found.push(*node)?;
        }
    }
    Ok(found)
}

/// One look at chosen nodes, and at those that are left. Asks for at most three greatest quorums.
fn look(
    alloc: Global,
    quest: &Quest<'_>,
    chosen: &BTreeSet<NodeId>,
    left: &[NodeId],
) -> Result<Look, AllocError>
    requires { AreListed quest.now.all.now (is_in chosen.now) }
    ensures { IfOk result (IsLook quest.now (is_in chosen.now) left.now) }
{
    let mut most = inside(chosen, left)?;
    settle(quest.members, quest.liars, &mut most);
    if has_none(&most) {
        return Ok(Look::Dead);
    }
    if !chosen.is_subset(&most) {
        return Ok(Look::Dead);
    }
    let mut others = outside(alloc, quest.all, chosen)?;
    settle(quest.members, quest.liars, &mut others);
    if has_none(&others) {
        return Ok(Look::Dead);
    }
    let mut least = copy_of(chosen)?;
    settle(quest.members, quest.liars, &mut least);
    if !has_none(&least) {
        return Ok(Look::Apart(least, others));
    }
    let left = those_in(alloc, left, &most)?;
    Ok(Look::Left(left))
}

/// The chosen nodes and one more.
pub fn with(chosen: &BTreeSet<NodeId>, node: NodeId) -> Result<BTreeSet<NodeId>, AllocError>
    ensures { IfOk result (λ more. (v : NodeId) → is_in more v ≡ is_or_in node (is_in chosen.now) v) }
{
    let mut more = copy_of(chosen)?;
    more.insert(node)?;
    Ok(more)
}

/// Those of the nodes that may not change places with this one, in their order.
pub fn without_alike(
    alloc: Global,
    quest: &Quest<'_>,
    node: &NodeId,
    left: &[NodeId],
) -> Result<Vec<NodeId>, AllocError>
    ensures each { IfOk result (λ found. All (Contains left.now) found.items) }
    ensures all { IfOk result (λ found. All (λ v. Contains found.items v ⊎ MaySwap (is_in quest.now.liars.now) quest.now.members.now node.now v) left.now) }
    ensures no_more { IfOk result (λ found. length found.items ≤ length left.now) }
{
    let mut found = Vec::new(alloc);
    for other in left {
        if !may_swap(quest.members, quest.liars, node, other) {
            found.push(*other)?;
        }
    }
    Ok(found)
}

/// Searches between chosen nodes and those that are left.
#[cycle(searching)]
pub fn search(
    alloc: Global,
    quest: &Quest<'_>,
    chosen: &BTreeSet<NodeId>,
    left: &[NodeId],
    tries: &mut Tries,
) -> Result<Meeting, AllocError>
    requires chosen { AreListed quest.now.all.now (is_in chosen.now) }
    requires left { All (Contains quest.now.all.now) left.now }
    ensures finds { IfOk result (Finds quest.now (is_in chosen.now) left.now tries.new) }
    ensures few { OnOk result (tries.new.made < tries.old.made + 2 ^ (length left.now + 1)) }
    ensures limit { tries.new.limit ≡ tries.old.limit }
{
    if !try_once(tries) {
        return Ok(Meeting::Unknown);
    }
    let seen = look(alloc, quest, chosen, left)?;
    match seen {
        Look::Dead => Ok(Meeting::Intersect),
        Look::Apart(one, other) => Ok(Meeting::Disjoint(one, other)),
        Look::Left(next) => search_left(alloc, quest, chosen, next.as_slice(), tries),
    }
}

/// Searches between chosen nodes, inside which there is no quorum, and those that are left. First one more node is chosen. If no quorum
/// with it will do, none with a node that may change places with it will, so neither is left any more.
#[cycle(searching)]
fn search_left(
    alloc: Global,
    quest: &Quest<'_>,
    chosen: &BTreeSet<NodeId>,
    left: &[NodeId],
    tries: &mut Tries,
) -> Result<Meeting, AllocError>
    requires chosen { AreListed quest.now.all.now (is_in chosen.now) }
    requires left { All (Contains quest.now.all.now) left.now }
    requires none { (us : NodeId → Bool) → IsQuorumIn quest.now us → IsWithin us (is_in chosen.now) → ⊥ }
    ensures finds { IfOk result (Finds quest.now (is_in chosen.now) left.now tries.new) }
    ensures few { OnOk result (tries.new.made + 1 < tries.old.made + 2 ^ (length left.now + 1)) }
    ensures limit { tries.new.limit ≡ tries.old.limit }
{
    let Some((node, rest)) = left.split_first() else {
        return Ok(Meeting::Intersect);
    };
    let more = with(chosen, *node)?;
    let found = search(alloc, quest, &more, rest, tries)?;
    match found {
        Meeting::Disjoint(one, other) => Ok(Meeting::Disjoint(one, other)),
        Meeting::Unknown => Ok(Meeting::Unknown),
        Meeting::Intersect => {
            let others = without_alike(alloc, quest, node, rest)?;
            search(alloc, quest, chosen, others.as_slice(), tries)
        }
    }
}
