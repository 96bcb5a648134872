//! Whether few nodes, lost, halt another one.
ghost use Rattle.std.specs.Prelude.{◌≡◌, ◌+◌, ◌^◌, ◌<◌, false, IfOk, OnOk, count_by, length};
ghost use Rattle.std.specs.List.{All, Contains};
ghost use Rattle.scp_quorum.specs.NodeSet.{is_in};
ghost use Rattle.scp_quorum_search.specs.inside.Search.{AreListed};
ghost use Rattle.scp_quorum_search.specs.inside.Losses.{AreOthers, ShowsFew};

use crate::going::goes_on;
use crate::member::Member;
use crate::quest::Quest;
use crate::search::{inside, with, without_alike};
use crate::tries::{Tries, try_once};
use scp_quorum::below::types::NodeId;
use std::alloc::{AllocError, Global};
use std::collections::BTreeSet;

/// Whether the loss of at most so many nodes halts another one.
#[derive(Drop)]
pub enum Few {
    /// It does.
    Halt,
    /// It doesn't, whichever nodes they are.
    Survive,
    /// The tries were used up before either was known.
    Unknown,
}

/// How many of the members are lost.
fn count_lost(members: &[Member], lost: &BTreeSet<NodeId>) -> usize
    ensures { result ≡ count_by (λ m. is_in lost.now m.node) members.now }
{
    members
        .iter()
        .filter(|member| lost.contains(&member.node))
        .count()
}

/// Searches between lost nodes and those that are left for at most `count` nodes whose loss halts a node. Nodes that may change places are
/// tried in one order.
pub fn few_halt(
    alloc: Global,
    quest: &Quest<'_>,
    at: &NodeId,
    count: usize,
    lost: &BTreeSet<NodeId>,
    left: &[NodeId],
    tries: &mut Tries,
) -> Result<Few, AllocError>
    requires lost { AreListed quest.now.all.now (is_in lost.now) }
    requires kept { is_in lost.now at.now ≡ false }
    requires left { All (Contains quest.now.all.now) left.now }
    requires others { AreOthers at.now left.now }
    ensures shows { IfOk result (ShowsFew quest.now at.now count (is_in lost.now) left.now tries.new) }
    ensures few { OnOk result (tries.new.made < tries.old.made + 2 ^ (length left.now + 1)) }
    ensures limit { tries.new.limit ≡ tries.old.limit }
{
    if !try_once(tries) {
        return Ok(Few::Unknown);
    }
    if count_lost(quest.members, lost) > count {
        return Ok(Few::Survive);
    }
    let goes = goes_on(alloc, quest, at, lost)?;
    if !goes {
        return Ok(Few::Halt);
    }
    let most = inside(lost, left)?;
    let goes_without_all = goes_on(alloc, quest, at, &most)?;
    if goes_without_all {
        return Ok(Few::Survive);
    }
    let Some((node, rest)) = left.split_first() else {
        return Ok(Few::Survive);
    };
    let more = with(lost, *node)?;
    let found = few_halt(alloc, quest, at, count, &more, rest, tries)?;
    match found {
        Few::Halt => Ok(Few::Halt),
        Few::Unknown => Ok(Few::Unknown),
        Few::Survive => {
            let others = without_alike(alloc, quest, node, rest)?;
            few_halt(alloc, quest, at, count, lost, others.as_slice(), tries)
        }
    }
}
