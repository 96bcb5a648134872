//! What a node reports of itself.
use crate::parts::Act::*;
use crate::parts::Seen::*;
use crate::parts::{Act, CONN, MANY, bring, is_so, outcome};
use scp_core::below::types::Fault;
use scp_core::{CommandFate, Node, Verdict};
use std::alloc::Global;
use std::process::Abort;
use std::test::*;

/// What happens, what became of the last command by then, and how many own statements for link 0 were replaced before they were sent.
const TOLD: [(Act, Option<CommandFate>, u64); 10] = [
    (Propose(1), Some(CommandFate::Proposed), 0),
    (Propose(1), Some(CommandFate::ProposedBefore), 0),
    (Propose(17), Some(CommandFate::FarSlot), 0),
    // A Tick never comes to the slot stage.
    (Tick, Some(CommandFate::FarSlot), 0),
    (Ask(2), Some(CommandFate::Asked), 0),
    (Ask(2), Some(CommandFate::AskedBefore), 0),
    // Neither does the opening of a link, but a message does.
    (Open(0), Some(CommandFate::AskedBefore), 0),
    (Record(2), None, 0),
    (Ask(2), Some(CommandFate::Decided), 0),
    // Node 2 votes for the same, while the node's own vote waits to be sent.
    (Names(1), None, 1),
];

/// Whether a node reports this after each act, and nothing before the first, nor of a link that isn't there.
fn reports(alloc: Global, node: &mut Node) -> Result<bool, Fault> {
    let mut is_so = node.last_command().is_none();
    for (act, command, replaced) in TOLD {
        bring(alloc, node, &[(1, act)])?;
        is_so = is_so && node.last_command() == command && node.overwritten(0) == replaced;
    }
    Ok(is_so && node.overwritten(1) == 0)
}

#[test]
fn the_last_command_and_replaced_statements(rt: HostRuntime) -> Result<(), Fail> {
    let alloc = rt.alloc();
    assert!(rt; is_so(alloc, 1, MANY, |node| reports(alloc, node))?);
    Ok(())
}

/// Whether the node holds two messages until the first one's set comes, and then none. Link 0 was opened once, and has room.
fn holds(alloc: Global, node: &mut Node) -> Result<bool, Fault> {
    bring(alloc, node, &[(1, Open(0)), (1, Names(2)), (1, Names(1))])?;
    let is_parked = node.parked(&CONN) == 2 && node.journal().is_empty();
    bring(alloc, node, &[(1, Set(2))])?;
    let are_taken = match node.journal() {
        [first, second] => {
            outcome(first) == Taken(0, Verdict::Fresh)
                && outcome(second) == Taken(1, Verdict::Stale)
        }
        _ => false,
    };
    Ok(
        is_parked
            && are_taken
            && node.parked(&CONN) == 0
            && (node.lives(0), node.room(0)) == (1, 64)
            && (node.lives(1), node.room(1)) == (0, 0),
    )
}

#[test]
fn messages_are_held_until_the_set_comes(rt: HostRuntime) -> Result<(), Fail> {
    let alloc = rt.alloc();
    assert!(rt; is_so(alloc, 1, MANY, |node| holds(alloc, node))?);
    Ok(())
}
