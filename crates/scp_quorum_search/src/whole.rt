//! The searches without a limit of tries, so that nothing stays unknown.
ghost use Rattle.std.specs.Prelude.{Bool, IfOk, IfNone, IfSome};
ghost use Rattle.std.specs.List.{All};
ghost use Rattle.scp_quorum.specs.scp_types.specs.declared.names.NodeId.{NodeId};
ghost use Rattle.scp_quorum.specs.NodeSet.{is_in};
ghost use Rattle.scp_quorum.specs.Satisfies.{AreDisjoint};
ghost use Rattle.scp_quorum_search.specs.Quorums.{IsQuorumOf, Intersect, IsListed, IsSmallestHalting, IsGreatestSurvived};

use crate::disjoint::disjoint_within;
use crate::halting::{Halting, halting_within};
use crate::meeting::Meeting;
use crate::member::Member;
use crate::surviving::{Survival, survived_within};
use crate::tries::Tries;
use scp_quorum::below::types::NodeId;
use std::alloc::{AllocError, Global};
use std::collections::BTreeSet;

/// Two quorums of the members without a common node; `None` exactly if each two have one. Takes as many tries as it needs.
pub fn disjoint_quorums(
    alloc: Global,
    members: &[Member],
) -> Result<Option<(BTreeSet<NodeId>, BTreeSet<NodeId>)>, AllocError>
    // Two that are shown are quorums.
    ensures one { IfOk result (λ found. IfSome found (λ two. IsQuorumOf members.now (is_in two.0))) }
    ensures other { IfOk result (λ found. IfSome found (λ two. IsQuorumOf members.now (is_in two.1))) }
    // They have no common node.
    ensures disjoint { IfOk result (λ found. IfSome found (λ two. AreDisjoint (is_in two.0) (is_in two.1))) }
    // None are shown only if each two quorums have a common node.
    ensures none { IfOk result (λ found. IfNone found (Intersect members.now)) }
{
    let mut tries = Tries::new(None);
    match disjoint_within(alloc, members, &mut tries)? {
        Meeting::Disjoint(one, other) => Ok(Some((one, other))),
        Meeting::Intersect => Ok(None),
        // This can't happen: there is no limit.
        Meeting::Unknown => Err(AllocError),
    }
}

/// The smallest sets of other members whose loss halts a node: no smaller part of such a set halts it. A loss of other members halts the
/// node exactly if it contains one of these sets. Takes as many tries as it needs.
pub fn smallest_halting(
    alloc: Global,
    members: &[Member],
    at: &NodeId,
) -> Result<Vec<BTreeSet<NodeId>>, AllocError>
    // Each set that is found is a smallest one.
    ensures each { IfOk result (λ found. All (λ lost. IsSmallestHalting members.now at.now (is_in lost)) found.items) }
    // Each smallest set is found.
    ensures all { IfOk result (λ found. (lost : NodeId → Bool) → IsSmallestHalting members.now at.now lost → IsListed found.items lost) }
{
    let mut tries = Tries::new(None);
    match halting_within(alloc, members, at, &mut tries)? {
        Halting::All(found) => Ok(found),
        // This can't happen: there is no limit.
        Halting::Some(_) => Err(AllocError),
    }
}

/// The greatest number of lost members, less than all, that is survived: whichever they are, each other one is in a quorum without them.
/// `None` if a member is in no quorum at all, or if there are no members. Takes as many tries as it needs.
pub fn survived(alloc: Global, members: &[Member]) -> Result<Option<usize>, AllocError>
    ensures { IfOk result (IsGreatestSurvived members.now) }
{
    let mut tries = Tries::new(None);
    match survived_within(alloc, members, &mut tries)? {
        Survival::Most(count) => Ok(Some(count)),
        Survival::None => Ok(None),
        // This can't happen: there is no limit.
        Survival::Unknown(_) => Err(AllocError),
    }
}
