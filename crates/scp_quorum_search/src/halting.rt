//! The smallest sets of nodes whose loss halts another one.
ghost use Rattle.std.specs.Prelude.{◌≡◌, ◌+◌, ◌^◌, ◌<◌, ◌≤◌, Bool, false, IfOk, OnOk, length};
ghost use Rattle.std.specs.Bool.{OnFalse, OnTrue};
ghost use Rattle.std.specs.List.{All, Contains};
ghost use Rattle.scp_quorum.specs.scp_types.specs.declared.names.NodeId.{NodeId};
ghost use Rattle.scp_quorum.specs.NodeSet.{is_in};
ghost use Rattle.scp_quorum_search.specs.Quorums.{IsListed};
ghost use Rattle.scp_quorum_search.specs.Meeting.{IsSpent};
ghost use Rattle.scp_quorum_search.specs.Losses.{ShowsHalting};
ghost use Rattle.scp_quorum_search.specs.inside.Search.{AreListed};
ghost use Rattle.scp_quorum_search.specs.inside.Losses.{AreOthers, AreSmallest, AllGathered, IsHaltingIn, IsSmallestIn};

use crate::going::{goes_on, is_smallest};
use crate::member::Member;
use crate::order::in_order;
use crate::quest::Quest;
use crate::search::{copy_of, inside, with};
use crate::tries::{Tries, try_once};
use scp_quorum::below::types::NodeId;
use std::alloc::{AllocError, Global};
use std::collections::BTreeSet;

/// The smallest sets of other nodes whose loss halts a node.
#[derive(Drop)]
pub enum Halting {
    /// All of them.
    All(Vec<BTreeSet<NodeId>>),
    /// Some of them: the tries were used up before all were known.
    Some(Vec<BTreeSet<NodeId>>),
}

/// Adds lost nodes that halt a node, if they are a smallest set of such nodes.
fn add_if_smallest(
    alloc: Global,
    quest: &Quest<'_>,
    at: &NodeId,
    lost: &BTreeSet<NodeId>,
    found: &mut Vec<BTreeSet<NodeId>>,
) -> Result<(), AllocError>
    requires { IsHaltingIn quest.now at.now (is_in lost.now) }
    ensures each { OnOk result (AreSmallest quest.now at.now found.old.items → AreSmallest quest.now at.now found.new.items) }
    ensures kept { OnOk result ((us : NodeId → Bool) → IsListed found.old.items us → IsListed found.new.items us) }
    ensures added { OnOk result (IsSmallestIn quest.now at.now (is_in lost.now) → IsListed found.new.items (is_in lost.now)) }
{
    if !is_smallest(alloc, quest, at, lost)? {
        return Ok(());
    }
    let copied = copy_of(lost)?;
    found.push(copied)?;
    Ok(())
}

/// Gathers the smallest sets, between lost nodes and those that are left, whose loss halts a node. False if the tries are used up before
/// all are gathered.
fn gather(
    alloc: Global,
    quest: &Quest<'_>,
    at: &NodeId,
    lost: &BTreeSet<NodeId>,
    left: &[NodeId],
    found: &mut Vec<BTreeSet<NodeId>>,
    tries: &mut Tries,
) -> Result<bool, AllocError>
    requires lost { AreListed quest.now.all.now (is_in lost.now) }
    requires kept { is_in lost.now at.now ≡ false }
    requires left { All (Contains quest.now.all.now) left.now }
    requires others { AreOthers at.now left.now }
    ensures each { OnOk result (AreSmallest quest.now at.now found.old.items → AreSmallest quest.now at.now found.new.items) }
    ensures kept { OnOk result ((us : NodeId → Bool) → IsListed found.old.items us → IsListed found.new.items us) }
    ensures all { IfOk result (λ done. OnTrue done (AllGathered quest.now at.now (is_in lost.now) left.now found.new.items)) }
    ensures spent { IfOk result (λ done. OnFalse done (IsSpent tries.new)) }
    ensures few { OnOk result (tries.new.made < tries.old.made + 2 ^ (length left.now + 1)) }
    ensures limit { tries.new.limit ≡ tries.old.limit }
{
    if !try_once(tries) {
        return Ok(false);
    }
    let goes = goes_on(alloc, quest, at, lost)?;
    if !goes {
        add_if_smallest(alloc, quest, at, lost, found)?;
        return Ok(true);
    }
    let most = inside(lost, left)?;
    let goes_without_all = goes_on(alloc, quest, at, &most)?;
    if goes_without_all {
        return Ok(true);
    }
    let Some((node, rest)) = left.split_first() else {
        return Ok(true);
    };
    let more = with(lost, *node)?;
    let done = gather(alloc, quest, at, &more, rest, found, tries)?;
    if !done {
        return Ok(false);
    }
    let all = gather(alloc, quest, at, lost, rest, found, tries)?;
    Ok(all)
}

/// These nodes but one.
pub fn others_of(alloc: Global, all: &[NodeId], at: &NodeId) -> Result<Vec<NodeId>, AllocError>
    ensures each { IfOk result (λ others. All (Contains all.now) others.items) }
    ensures others { IfOk result (λ others. AreOthers at.now others.items) }
    ensures all { IfOk result (λ others. All (λ v. (v ≡ at.now → ⊥) → Contains others.items v) all.now) }
    ensures no_more { IfOk result (λ others. length others.items ≤ length all.now) }
{
    let mut others = Vec::new(alloc);
    for node in all {
        if *node != *at {
            others.push(*node)?;
        }
    }
    Ok(others)
}

/// The smallest sets of other members whose loss halts a node: no smaller part of such a set halts it. All are found, unless the tries are
/// used up before. With n members at most 2^(n+1) - 1 tries are made.
pub fn halting_within(
    alloc: Global,
    members: &[Member],
    at: &NodeId,
    tries: &mut Tries,
) -> Result<Halting, AllocError>
    ensures shows { IfOk result (ShowsHalting members.now at.now tries.new) }
    ensures few { OnOk result (tries.new.made < tries.old.made + 2 ^ (length members.now + 1)) }
    ensures limit { tries.new.limit ≡ tries.old.limit }
{
    let liars = BTreeSet::new(alloc);
    let all = in_order(alloc, members, &liars)?;
    let all = all.as_slice();
    let quest = Quest {
        members,
        liars: &liars,
        all,
    };
    let lost = BTreeSet::new(alloc);
    let left = others_of(alloc, all, at)?;
    let mut found = Vec::new(alloc);
    match gather(alloc, &quest, at, &lost, left.as_slice(), &mut found, tries)? {
        true => Ok(Halting::All(found)),
        false => Ok(Halting::Some(found)),
    }
}
