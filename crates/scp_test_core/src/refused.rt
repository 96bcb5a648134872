//! Runs in which any allocation may be refused, alone or with all later ones. The first answer is the right one, or out of memory; the
//! second is the right one, or the test ends out of memory. No assertion fails then.
use crate::parts::Act::*;
use crate::parts::Seen::*;
use crate::parts::{Act, MANY, Said, Seen, is_failed, is_so, outcome, play};
use scp_core::below::types::Fault;
use scp_core::{Fate, Node, Verdict};
use std::alloc::Global;
use std::process::Abort;
use std::test::*;

/// A run: the set of the node, by its number, what happens, and what the node shows in the end: its journal, and how many slots
/// are applied.
#[derive(Clone, Copy)]
struct Story<'a> {
    set: u8,
    acts: &'a [(u32, Act)],
    journal: &'a [Seen],
    applied: usize,
}

/// Whether the journal begins with these, or is a beginning of them.
fn agrees(journal: &[Fate], wanted: &[Seen]) -> bool {
    journal
        .iter()
        .zip(wanted)
        .all(|(fate, wanted)| outcome(fate) == *wanted)
}

/// Whether the node shows this, and its state can be read.
fn is_whole(node: &Node, story: &Story<'_>) -> bool {
    node.journal().len() == story.journal.len()
        && agrees(node.journal(), story.journal)
        && node.applied().len() == story.applied
        && node.state().is_some()
}

/// Whether a node that ran out of memory shows a beginning of this, and its state can't be read.
fn is_part(node: &mut Node, story: &Story<'_>) -> bool {
    node.journal().len() <= story.journal.len()
        && agrees(node.journal(), story.journal)
        && node.applied().len() <= story.applied
        && is_failed(node)
}

/// Whether the node shows what it should after these acts; if a step runs out of memory, it shows a beginning of that, and has failed.
fn tells(alloc: Global, node: &mut Node, story: &Story<'_>) -> Result<bool, Fault> {
    match play(alloc, node, story.acts)? {
        Said::Idle => Ok(is_whole(node, story)),
        Said::NoMemory if is_part(node, story) => Err(Fault::NoMemory),
        _ => Ok(false),
    }
}

/// Whether a new node does so.
fn is_right(alloc: Global, story: &Story<'_>) -> Result<bool, Fault> {
    is_so(alloc, story.set, MANY, |node| tells(alloc, node, story))
}

/// The first answer is right or out of memory, and the second is right.
fn expect_right(rt: &impl Abort, alloc: Global, story: &Story<'_>) -> Result<(), Fault> {
    match is_right(alloc, story) {
        Ok(is_right) => assert!(rt; is_right),
        Err(fault) => assert_eq!(rt; fault, Fault::NoMemory),
    }
    assert!(rt; is_right(alloc, story)?);
    Ok(())
}

const A_RECORD_IS_APPLIED: Story<'static> = Story {
    set: 1,
    acts: &[(1, Open(0)), (1, Ask(1)), (1, Record(1))],
    journal: &[Taken(0, Verdict::Decided)],
    applied: 1,
};

const A_BATCH_IS_APPLIED: Story<'static> = Story {
    set: 1,
    acts: &[
        (1, Open(0)),
        (1, Ask(1)),
        (1, Ask(2)),
        (1, Ask(3)),
        (1, Records(1)),
    ],
    journal: &[
        Taken(0, Verdict::Decided),
        Taken(1, Verdict::Decided),
        Taken(2, Verdict::Decided),
    ],
    applied: 3,
};

const BOTH_ARE_TAKEN_ONCE_THE_SET_CAME: Story<'static> = Story {
    set: 1,
    acts: &[(1, Open(0)), (1, Names(2)), (1, Names(1)), (1, Set(2))],
    journal: &[Taken(0, Verdict::Fresh), Taken(1, Verdict::Stale)],
    applied: 0,
};

const A_NODE_ALONE_DECIDES_ITS_PROPOSAL: Story<'static> = Story {
    set: 3,
    acts: &[(1, Propose(1))],
    journal: &[],
    applied: 1,
};

const AN_EXTERNALIZE_DECIDES: Story<'static> = Story {
    set: 1,
    acts: &[(1, Open(0)), (1, Externalizes)],
    journal: &[Taken(0, Verdict::Fresh)],
    applied: 1,
};

#[test]
fn runs_that_were_refused_are_made_again(rt: HostRuntime) -> Result<(), Fail> {
    for story in [
        A_RECORD_IS_APPLIED,
        A_BATCH_IS_APPLIED,
        BOTH_ARE_TAKEN_ONCE_THE_SET_CAME,
        A_NODE_ALONE_DECIDES_ITS_PROPOSAL,
        AN_EXTERNALIZE_DECIDES,
    ] {
        expect_right(&rt, rt.alloc(), &story)?;
    }
    Ok(())
}
