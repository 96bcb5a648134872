//! In which order nodes are chosen. Those that more quorum sets name come first, since more depends on them. Any order is right.
ghost use Rattle.std.specs.Prelude.{◌≡◌, ◌≤◌, IfOk, OnOk, false, length, map};
ghost use Rattle.std.specs.List.{All, Any, Contains};
ghost use Rattle.scp_quorum.specs.NodeSet.{is_in};

use crate::member::Member;
use scp_quorum::below::types::NodeId;
use std::alloc::{AllocError, Global};
use std::collections::BTreeSet;

/// A node and its rank: the lowest is chosen first.
#[derive(Drop)]
pub struct Ranked {
    pub node: NodeId,
    pub rank: usize,
}

/// Adds the nodes of the member's quorum set.
fn add_named(named: &mut Vec<NodeId>, member: &Member) -> Result<(), AllocError> {
    let Ok(nodes) = member.set.nodes() else {
        return Err(AllocError);
    };
    named.extend_from_slice(&nodes)
}

/// The nodes of all quorum sets, each as often as it is named.
fn named_by(alloc: Global, members: &[Member]) -> Result<Vec<NodeId>, AllocError> {
    let mut named = Vec::new(alloc);
    for member in members {
        add_named(&mut named, member)?;
    }
    Ok(named)
}

/// The members that don't lie, each with its rank.
fn rank_all(
    alloc: Global,
    members: &[Member],
    liars: &BTreeSet<NodeId>,
) -> Result<Vec<Ranked>, AllocError>
    ensures each { IfOk result (λ found. All (λ r. Any (λ m. m.node ≡ r.node) members.now) found.items) }
    ensures honest { IfOk result (λ found. All (λ r. is_in liars.now r.node ≡ false) found.items) }
    ensures all { IfOk result (λ found. All (λ m. is_in liars.now m.node ≡ false → Any (λ r. r.node ≡ m.node) found.items) members.now) }
    ensures no_more { IfOk result (λ found. length found.items ≤ length members.now) }
{
    let named = named_by(alloc, members)?;
    let mut found = Vec::new(alloc);
    for member in members {
        if !liars.contains(&member.node) {
            let node = member.node;
            let times = named.iter().filter(|other| **other == node).count();
            found.push(Ranked {
                node,
                rank: usize::MAX - times,
            })?;
        }
    }
    Ok(found)
}

/// The nodes of these, in their order.
fn nodes_of(alloc: Global, ranked: &[Ranked]) -> Result<Vec<NodeId>, AllocError>
    ensures { IfOk result (λ nodes. nodes.items ≡ map (λ r. r.node) ranked.now) }
{
    let mut nodes = Vec::with_capacity(alloc, ranked.len())?;
    for one in ranked {
        nodes.push(one.node)?;
    }
    Ok(nodes)
}

/// The members that don't lie, in the order in which they are chosen.
pub fn in_order(
    alloc: Global,
    members: &[Member],
    liars: &BTreeSet<NodeId>,
) -> Result<Vec<NodeId>, AllocError>
    ensures each { IfOk result (λ nodes. All (λ v. Any (λ m. m.node ≡ v) members.now) nodes.items) }
    ensures honest { IfOk result (λ nodes. All (λ v. is_in liars.now v ≡ false) nodes.items) }
    ensures all { IfOk result (λ nodes. All (λ m. is_in liars.now m.node ≡ false → Contains nodes.items m.node) members.now) }
    ensures no_more { IfOk result (λ nodes. length nodes.items ≤ length members.now) }
{
    let mut found = rank_all(alloc, members, liars)?;
    found.sort_by_key(|one| one.rank)?;
    let nodes = nodes_of(alloc, found.as_slice())?;
    Ok(nodes)
}
