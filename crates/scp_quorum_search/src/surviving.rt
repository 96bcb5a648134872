//! How many nodes may be lost, whichever they are.
ghost use Rattle.std.specs.Prelude.{◌≡◌, ◌+◌, ◌*◌, ◌^◌, ◌<◌, ◌≤◌, [], ◌∷◌, IfOk, OnOk, length};
ghost use Rattle.scp_quorum_search.specs.Losses.{ShowsSurvived};
ghost use Rattle.scp_quorum_search.specs.inside.Losses.{ShowsFewOfAll};

use crate::few::{Few, few_halt};
use crate::halting::others_of;
use crate::member::Member;
use crate::order::in_order;
use crate::quest::Quest;
use crate::tries::Tries;
use scp_quorum::below::types::NodeId;
use std::alloc::{AllocError, Global};
use std::collections::BTreeSet;

/// How many members may be lost, whichever they are.
#[derive(Drop)]
pub enum Survival {
    /// The greatest number, less than all, with which each other member is in a quorum without the lost ones.
    Most(usize),
    /// There is no such number: a member is in no quorum at all, or there are no members.
    None,
    /// The tries were used up. Each number below this one is survived.
    Unknown(usize),
}

/// Whether the loss of at most `count` other members halts a node.
fn few_halt_one(
    alloc: Global,
    quest: &Quest<'_>,
    at: &NodeId,
    count: usize,
    tries: &mut Tries,
) -> Result<Few, AllocError>
    ensures shows { IfOk result (ShowsFewOfAll quest.now (at.now ∷ []) count tries.new) }
    ensures few { OnOk result (tries.new.made < tries.old.made + 2 ^ (length quest.now.all.now + 1)) }
    ensures limit { tries.new.limit ≡ tries.old.limit }
{
    let lost = BTreeSet::new(alloc);
    let left = others_of(alloc, quest.all, at)?;
    few_halt(alloc, quest, at, count, &lost, left.as_slice(), tries)
}

/// Whether the loss of at most `count` nodes halts any other one.
fn few_halt_any(
    alloc: Global,
    quest: &Quest<'_>,
    count: usize,
    tries: &mut Tries,
) -> Result<Few, AllocError>
    ensures shows { IfOk result (ShowsFewOfAll quest.now quest.now.all.now count tries.new) }
    ensures few { OnOk result (tries.new.made ≤ tries.old.made + length quest.now.all.now * 2 ^ (length quest.now.all.now + 1)) }
    ensures limit { tries.new.limit ≡ tries.old.limit }
{
    for at in quest.all {
        match few_halt_one(alloc, quest, at, count, tries)? {
            Few::Survive => {}
            Few::Halt => return Ok(Few::Halt),
            Few::Unknown => return Ok(Few::Unknown),
        }
    }
    Ok(Few::Survive)
}

/// The greatest number of lost members, less than all, that is survived: whichever they are, each other one is in a quorum without them. If
/// the tries are used up before it is known, a number below which all are survived.
pub fn survived_within(
    alloc: Global,
    members: &[Member],
    tries: &mut Tries,
) -> Result<Survival, AllocError>
    ensures shows { IfOk result (ShowsSurvived members.now tries.new) }
    ensures few { OnOk result (tries.new.made ≤ tries.old.made + length members.now * (length members.now * 2 ^ (length members.now + 1))) }
    ensures limit { tries.new.limit ≡ tries.old.limit }
{
    let liars = BTreeSet::new(alloc);
    let all = in_order(alloc, members, &liars)?;
    let quest = Quest {
        members,
        liars: &liars,
        all: all.as_slice(),
    };
    let mut most = Survival::None;
    for count in 0..members.len() {
        match few_halt_any(alloc, &quest, count, tries)? {
            Few::Survive => most = Survival::Most(count),
            Few::Halt => return Ok(most),
            Few::Unknown => return Ok(Survival::Unknown(count)),
        }
    }
    Ok(most)
}
