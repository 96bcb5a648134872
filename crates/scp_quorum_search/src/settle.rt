//! The greatest quorum inside given nodes, beside nodes that lie.
ghost use Rattle.std.specs.Prelude.{◌≡◌, ◌↔◌, ◌<◌, Bool, true, IsTrue};
ghost use Rattle.std.specs.Bool.{OnFalse, OnTrue};
ghost use Rattle.std.specs.BTreeSet.{btree_set_len};
ghost use Rattle.scp_quorum.specs.scp_types.specs.declared.names.NodeId.{NodeId};
ghost use Rattle.scp_quorum.specs.NodeSet.{is_in};
ghost use Rattle.scp_quorum.specs.Quorum.{IsWithin};
ghost use Rattle.scp_quorum.specs.Satisfies.{Satisfies};
ghost use Rattle.scp_quorum_search.specs.Beside.{either, SatisfyBeside};

use crate::member::Member;
use scp_quorum::Nodes;
use scp_quorum::below::types::NodeId;
use std::collections::BTreeSet;

/// The liars, and these nodes.
#[derive(Drop)]
struct Either<'a> {
    liars: &'a BTreeSet<NodeId>,
    nodes: &'a BTreeSet<NodeId>,
}

impl Nodes for Either<'_> {
    ghost members = { λ both. either (is_in both.liars.now) (is_in both.nodes.now) };

    fn has(&self, node: &NodeId) -> bool {
        self.liars.contains(node) || self.nodes.contains(node)
    }
}

/// Whether the nodes, with the liars, satisfy the quorum set of a member.
fn is_satisfied(member: &Member, liars: &BTreeSet<NodeId>, nodes: &BTreeSet<NodeId>) -> bool
    ensures { IsTrue result ↔ Satisfies (either (is_in liars.now) (is_in nodes.now)) member.now.set }
{
    member.set.is_satisfied_by(&Either { liars, nodes })
}

/// Removes a member from the nodes if they, with the liars, don't satisfy its quorum set. Returns whether it was removed.
fn remove_if_unsatisfied(
    member: &Member,
    liars: &BTreeSet<NodeId>,
    nodes: &mut BTreeSet<NodeId>,
) -> bool
    ensures within { IsWithin (is_in nodes.new) (is_in nodes.old) }
    ensures kept { (us : NodeId → Bool) → (us member.now.node ≡ true → Satisfies (either (is_in liars.now) us) member.now.set) → IsWithin us (is_in nodes.old) → IsWithin us (is_in nodes.new) }
    ensures fewer { OnTrue result (btree_set_len nodes.new < btree_set_len nodes.old) }
    ensures same { OnFalse result (nodes.new ≡ nodes.old) }
    ensures settled { OnFalse result (is_in nodes.old member.now.node ≡ true → Satisfies (either (is_in liars.now) (is_in nodes.old)) member.now.set) }
{
    if !nodes.contains(&member.node) || is_satisfied(member, liars, nodes) {
        return false;
    }
    nodes.remove(&member.node);
    true
}

/// Goes over the members once, and removes each whose quorum set the remaining nodes, with the liars, don't satisfy. Returns whether any
/// was removed.
fn remove_unsatisfied(
    members: &[Member],
    liars: &BTreeSet<NodeId>,
    nodes: &mut BTreeSet<NodeId>,
) -> bool
    ensures within { IsWithin (is_in nodes.new) (is_in nodes.old) }
    ensures kept { (us : NodeId → Bool) → SatisfyBeside (is_in liars.now) members.now us → IsWithin us (is_in nodes.old) → IsWithin us (is_in nodes.new) }
    ensures fewer { OnTrue result (btree_set_len nodes.new < btree_set_len nodes.old) }
    ensures settled { OnFalse result (SatisfyBeside (is_in liars.now) members.now (is_in nodes.new)) }
{
    let mut removed = false;
    for member in members {
        if remove_if_unsatisfied(member, liars, nodes) {
            removed = true;
        }
    }
    removed
}

/// Removes nodes until those that remain, with the liars, satisfy each other's quorum sets. What remains is the greatest quorum inside the
/// nodes, or nothing if there is none.
pub fn settle(members: &[Member], liars: &BTreeSet<NodeId>, nodes: &mut BTreeSet<NodeId>)
    ensures within { IsWithin (is_in nodes.new) (is_in nodes.old) }
    ensures kept { (us : NodeId → Bool) → SatisfyBeside (is_in liars.now) members.now us → IsWithin us (is_in nodes.old) → IsWithin us (is_in nodes.new) }
    ensures settled { SatisfyBeside (is_in liars.now) members.now (is_in nodes.new) }
{
    while remove_unsatisfied(members, liars, nodes) {}
}
