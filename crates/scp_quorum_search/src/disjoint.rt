//! Two quorums without a common node, or that there are none.
ghost use Rattle.std.specs.Prelude.{◌≡◌, ◌+◌, ◌^◌, ◌<◌, IfOk, OnOk, length};
ghost use Rattle.scp_quorum.specs.NodeSet.{is_in};
ghost use Rattle.scp_quorum_search.specs.Meeting.{Shows, ShowsBeside};

use crate::meeting::Meeting;
use crate::member::Member;
use crate::order::in_order;
use crate::quest::Quest;
use crate::search::search;
use crate::tries::Tries;
use scp_quorum::below::types::NodeId;
use std::alloc::{AllocError, Global};
use std::collections::BTreeSet;

/// Two quorums of the members beside these liars without a common node, or that each two have one. It is unknown only where the tries are
/// used up. With n members at most 2^(n+1) - 1 tries are made, each for at most three greatest quorums. Most often they are far fewer: a
/// try ends where no quorum lies outside the chosen nodes, and nodes that may change places are tried in one order.
pub fn disjoint_beside(
    alloc: Global,
    members: &[Member],
    liars: &BTreeSet<NodeId>,
    tries: &mut Tries,
) -> Result<Meeting, AllocError>
    ensures shows { IfOk result (ShowsBeside (is_in liars.now) members.now tries.new) }
    ensures few { OnOk result (tries.new.made < tries.old.made + 2 ^ (length members.now + 1)) }
    ensures limit { tries.new.limit ≡ tries.old.limit }
{
    let all = in_order(alloc, members, liars)?;
    let all = all.as_slice();
    let quest = Quest {
        members,
        liars,
        all,
    };
    let chosen = BTreeSet::new(alloc);
    let found = search(alloc, &quest, &chosen, all, tries)?;
    Ok(found)
}

/// The same where none lies.
pub fn disjoint_within(
    alloc: Global,
    members: &[Member],
    tries: &mut Tries,
) -> Result<Meeting, AllocError>
    ensures shows { IfOk result (Shows members.now tries.new) }
    ensures few { OnOk result (tries.new.made < tries.old.made + 2 ^ (length members.now + 1)) }
    ensures limit { tries.new.limit ≡ tries.old.limit }
{
    let none = BTreeSet::new(alloc);
    let found = disjoint_beside(alloc, members, &none, tries)?;
    Ok(found)
}
