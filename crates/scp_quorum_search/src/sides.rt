//! Which nodes may change places.
ghost use Rattle.std.specs.Prelude.{◌≡◌, count_by, IfSome};
ghost use Rattle.std.specs.Bool.{OnTrue};
ghost use Rattle.std.specs.List.{All, Any};
ghost use Rattle.scp_quorum.specs.scp_xdr.specs.Kind.{Spells};
ghost use Rattle.scp_quorum.specs.NodeSet.{is_in};
ghost use Rattle.scp_quorum.specs.QuorumKind.{set_kind, set_value};
ghost use Rattle.scp_quorum_search.specs.inside.Search.{MaySwap, is_node};
ghost use Rattle.scp_quorum_search.specs.inside.Sides.{StandTogether, HaveOneSet};

use crate::member::Member;
use scp_quorum::below::types::NodeId;
use scp_quorum::below::xdr::no_spelling_begins_another;
use scp_quorum::{QuorumSet, a_quorum_set_is_its_value};
use std::collections::BTreeSet;

/// How often a node is among these.
fn count_of(nodes: &[NodeId], node: &NodeId) -> usize
    ensures { result ≡ count_by (is_node node.now) nodes.now }
{
    nodes.iter().filter(|other| **other == *node).count()
}

/// Whether two nodes are side by side in a quorum set: each of its levels has one as often as the other.
fn stand_together(set: &QuorumSet, a: &NodeId, b: &NodeId) -> bool
    ensures { OnTrue result (StandTogether a.now b.now set.now) }
{
    let validators = set.validators();
    let one = count_of(validators, a);
    let other = count_of(validators, b);
    if one != other {
        return false;
    }
    for inner in set.inner_sets() {
        if !stand_together(inner, a, b) {
            return false;
        }
    }
    true
}

/// Whether two nodes are side by side in the quorum set of each member.
fn stand_together_in_all(members: &[Member], a: &NodeId, b: &NodeId) -> bool
    ensures { OnTrue result (All (λ m. StandTogether a.now b.now m.set) members.now) }
{
    for member in members {
        if !stand_together(&member.set, a, b) {
            return false;
        }
    }
    true
}

/// The encoding of a quorum set, if it has one and there is memory for it.
fn encoded(set: &QuorumSet) -> Option<Vec<u8>>
    ensures { IfSome result (λ bytes. Spells set_kind bytes.items (set_value set.now)) }
{
    match set.encode() {
        Ok(bytes) => Some(bytes),
        Err(_) => None,
    }
}

/// Whether two quorum sets are the same, by their encodings. False also if one can't be encoded.
fn are_same(one: &QuorumSet, other: &QuorumSet) -> bool
    ensures { OnTrue result (one.now ≡ other.now) }
{
    no_spelling_begins_another();
    a_quorum_set_is_its_value();
    match (encoded(one), encoded(other)) {
        (Some(bytes), Some(others)) => bytes.as_slice() == others.as_slice(),
        _ => false,
    }
}

/// Whether a member has this node and this quorum set.
fn is_member_with(member: &Member, node: &NodeId, set: &QuorumSet) -> bool
    ensures { OnTrue result ((member.now.node ≡ node.now) × (member.now.set ≡ set.now)) }
{
    if member.node != *node {
        return false;
    }
    are_same(&member.set, set)
}

/// Whether a member with this node has this quorum set.
fn has_set(members: &[Member], node: &NodeId, set: &QuorumSet) -> bool
    ensures { OnTrue result (Any (λ m. (m.node ≡ node.now) × (m.set ≡ set.now)) members.now) }
{
    for member in members {
        if is_member_with(member, node, set) {
            return true;
        }
    }
    false
}

/// Whether a member with the first node has a quorum set of the second.
fn has_one_set_with(members: &[Member], member: &Member, a: &NodeId, b: &NodeId) -> bool
    ensures { OnTrue result (member.now.node ≡ a.now → Any (λ m. (m.node ≡ b.now) × (m.set ≡ member.now.set)) members.now) }
{
    if member.node != *a {
        return true;
    }
    has_set(members, b, &member.set)
}

/// Whether each quorum set of the first node is one of the second.
fn have_one_set(members: &[Member], a: &NodeId, b: &NodeId) -> bool
    ensures { OnTrue result (HaveOneSet members.now a.now b.now) }
{
    for member in members {
        if !has_one_set_with(members, member, a, b) {
            return false;
        }
    }
    true
}

/// How many members have this node.
fn times(members: &[Member], node: &NodeId) -> usize
    ensures { result ≡ count_by (λ m. is_node node.now m.node) members.now }
{
    members.iter().filter(|member| member.node == *node).count()
}

/// Whether two nodes may change places: they have one quorum set, and are side by side in each.
pub fn may_swap(members: &[Member], liars: &BTreeSet<NodeId>, a: &NodeId, b: &NodeId) -> bool
    ensures { OnTrue result (MaySwap (is_in liars.now) members.now a.now b.now) }
{
    if liars.contains(a) {
        return false;
    }
    if liars.contains(b) {
        return false;
    }
    if !have_one_set(members, a, b) {
        return false;
    }
    if !have_one_set(members, b, a) {
        return false;
    }
    let one = times(members, a);
    let other = times(members, b);
    if one != other {
        return false;
    }
    stand_together_in_all(members, a, b)
}
