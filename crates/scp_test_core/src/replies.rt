//! The reply to each event, configurations that are refused, and a full journal.
use crate::parts::Act::*;
use crate::parts::{
    Act, MANY, ME, ONE, PEER, Said, bring, config, is_failed, is_so, kind_of, play, reply, round,
};
use scp_core::below::types::{Fault, NodeId};
use scp_core::{Capacities, Event, KvDriver, Node, Reply, run};
use std::alloc::Global;
use std::process::Abort;
use std::test::*;

/// An event, and its reply.
type Row = (Act, Said);

/// Whether the reply is the wanted one. `NoMemory` if the step ran out of memory.
fn is_it(said: Said, wanted: Said) -> Result<bool, Fault> {
    match said {
        Said::NoMemory => Err(Fault::NoMemory),
        _ => Ok(said == wanted),
    }
}

/// Whether a node replies so to each event.
fn answers(alloc: Global, node: &mut Node, rows: &[Row]) -> Result<bool, Fault> {
    for (act, wanted) in rows {
        if !is_it(reply(alloc, node, *act)?, *wanted)? {
            return Ok(false);
        }
    }
    Ok(true)
}

/// Events that are refused, and full queues.
const AT_ONE: [Row; 20] = [
    (Open(1), Said::NoLink),
    (AskNobody, Said::NoLink),
    (Record(1), Said::NotOpen),
    (Close(0), Said::NotOpen),
    (ReaderTake(0), Said::Idle),
    (Open(0), Said::Accepted),
    (Open(0), Said::AlreadyOpen),
    (Record(1), Said::Full),
    (ReaderTake(0), Said::Moved),
    (Record(1), Said::Accepted),
    (Record(2), Said::Full),
    (Close(0), Said::Full),
    (ReaderTake(0), Said::Blocked),
    (ReaderPut(0), Said::Moved),
    (ReaderPut(0), Said::Idle),
    (ReaderTake(0), Said::Moved),
    (ReaderPut(0), Said::Blocked),
    (Tick, Said::Full),
    (Ask(1), Said::Full),
    (AskNobody, Said::NoLink),
];

/// A hand blocks until the next queue has room.
const HANDS: [Row; 29] = [
    (PendTake, Said::Idle),
    (Open(0), Said::Accepted),
    (ReaderTake(0), Said::Moved),
    (ReaderPut(0), Said::Moved),
    (PendTake, Said::Moved),
    (PendPut, Said::Idle),
    (GetRecord, Said::Accepted),
    (ReaderTake(0), Said::Moved),
    (ReaderPut(0), Said::Moved),
    (PendTake, Said::Moved),
    (PendTake, Said::Blocked),
    (PendPut, Said::Moved),
    (GetRecord, Said::Accepted),
    (ReaderTake(0), Said::Moved),
    (ReaderPut(0), Said::Moved),
    (PendTake, Said::Moved),
    (PendPut, Said::Blocked),
    (SlotPut, Said::Idle),
    (SlotTake, Said::Moved),
    (SlotTake, Said::Blocked),
    (SlotPut, Said::Moved),
    (SlotTake, Said::Idle),
    (PendPut, Said::Moved),
    (SlotTake, Said::Moved),
    (SlotPut, Said::Blocked),
    (ApplyTake, Said::Moved),
    (ApplyTake, Said::Idle),
    (SlotPut, Said::Moved),
    (ApplyTake, Said::Moved),
];

/// The records of a batch leave the reader one by one. It takes no item before the last has left.
const BATCH: [Row; 18] = [
    (Open(0), Said::Accepted),
    (ReaderTake(0), Said::Moved),
    (ReaderPut(0), Said::Moved),
    (PendTake, Said::Moved),
    (Records(1), Said::Accepted),
    (ReaderTake(0), Said::Moved),
    (ReaderPut(0), Said::Moved),
    (ReaderTake(0), Said::Blocked),
    (ReaderPut(0), Said::Blocked),
    (PendTake, Said::Moved),
    (ReaderPut(0), Said::Moved),
    (ReaderTake(0), Said::Blocked),
    (PendTake, Said::Blocked),
    (PendPut, Said::Moved),
    (PendTake, Said::Moved),
    (ReaderPut(0), Said::Moved),
    (ReaderPut(0), Said::Idle),
    (ReaderTake(0), Said::Idle),
];

/// A drain needs a link.
const DRAINS: [Row; 2] = [(Drain(0), Said::Idle), (Drain(1), Said::NoLink)];

#[test]
fn each_event_has_its_reply(rt: HostRuntime) -> Result<(), Fail> {
    let alloc = rt.alloc();
    for rows in [
        AT_ONE.as_slice(),
        HANDS.as_slice(),
        BATCH.as_slice(),
        DRAINS.as_slice(),
    ] {
        assert!(rt;
            is_so(alloc, 1, ONE, |node| answers(alloc, node, rows))?,
            "{} events",
            rows.len()
        );
    }
    Ok(())
}

/// The events of these rows, this many times.
fn events(alloc: Global, times: usize, rows: &[Row]) -> Result<Vec<Event>, Fault> {
    let mut events = Vec::new(alloc);
    for _ in 0..times {
        for (act, _) in rows {
            events.push(act.event(alloc)?)?;
        }
    }
    Ok(events)
}

/// Whether the replies are those of the rows, over and over.
fn are_those(replies: &[Reply], rows: &[Row]) -> Result<bool, Fault> {
    for (place, given) in replies.iter().enumerate() {
        let Some((_, wanted)) = rows.get(place % rows.len().max(1)) else {
            return Ok(false);
        };
        if !is_it(kind_of(given), *wanted)? {
            return Ok(false);
        }
    }
    Ok(true)
}

/// Whether a run of these events, this many times over, gets these replies and leaves this many entries.
fn runs(alloc: Global, times: usize, rows: &[Row], entries: usize) -> Result<bool, Fault> {
    let events = events(alloc, times, rows)?;
    let config = config(alloc, 1, &[PEER], ONE)?;
    let run = run(alloc, config, KvDriver, events.as_slice())?;
    let is_whole = run.replies.len() == times.saturating_mul(rows.len())
        && run.node.journal().len() == entries;
    let answered = are_those(run.replies.as_slice(), rows);
    answered.map(|are_those| are_those && is_whole)
}

/// A request for a record, up to the slot stage.
const REQUEST: [Row; 11] = [
    (Open(0), Said::Accepted),
    (GetRecord, Said::Full),
    (ReaderTake(0), Said::Moved),
    (GetRecord, Said::Accepted),
    (ReaderPut(0), Said::Moved),
    (ReaderTake(0), Said::Moved),
    (PendTake, Said::Moved),
    (ReaderPut(0), Said::Moved),
    (PendTake, Said::Moved),
    (PendPut, Said::Moved),
    (SlotTake, Said::Moved),
];

/// A tick that is taken at once.
const TICKS: [Row; 2] = [(Tick, Said::Accepted), (PendTake, Said::Moved)];

/// No list of events is too long for a run.
#[test]
fn a_run_replies_to_none_a_few_and_70_000_events(rt: HostRuntime) -> Result<(), Fail> {
    assert!(rt; runs(rt.alloc(), 0, &[], 0)?);
    assert!(rt; runs(rt.alloc(), 1, &REQUEST, 1)?);
    assert!(rt; runs(rt.alloc(), 35_000, &TICKS, 0)?);
    Ok(())
}

const MOST: Capacities = Capacities {
    link: 1_024,
    inbox: 1_024,
    ready: 1_024,
    decided: 1_024,
};

/// Nodes 2 to 9.
const OTHERS: [NodeId; 8] = [
    PEER,
    NodeId([3; 32]),
    NodeId([4; 32]),
    NodeId([5; 32]),
    NodeId([6; 32]),
    NodeId([7; 32]),
    NodeId([8; 32]),
    NodeId([9; 32]),
];

/// Whether the node is refused because of its configuration.
fn is_refused(
    alloc: Global,
    number: u8,
    peers: &[NodeId],
    capacities: Capacities,
) -> Result<bool, Fault> {
    match Node::new(alloc, config(alloc, number, peers, capacities)?, KvDriver) {
        Ok(_) => Ok(false),
        Err(Fault::BadConfig) => Ok(true),
        Err(fault) => Err(fault),
    }
}

#[test]
fn configurations_are_refused(rt: HostRuntime) -> Result<(), Fail> {
    let table: [(u8, &[NodeId], Capacities, bool); 10] = [
        (1, &[], ONE, false),
        (1, &OTHERS[..7], MOST, false),
        (1, &OTHERS, MANY, true),
        (1, &[PEER, OTHERS[1], PEER], MANY, true),
        (1, &[PEER, ME], MANY, true),
        (0, &[PEER], MANY, true),
        (1, &[PEER], Capacities { link: 0, ..MANY }, true),
        (
            1,
            &[PEER],
            Capacities {
                inbox: 1_025,
                ..MANY
            },
            true,
        ),
        (1, &[PEER], Capacities { ready: 0, ..MANY }, true),
        (
            1,
            &[PEER],
            Capacities {
                decided: 1_025,
                ..MANY
            },
            true,
        ),
    ];
    for (number, peers, capacities, wanted) in table {
        assert_eq!(rt;
            is_refused(rt.alloc(), number, peers, capacities)?,
            wanted,
            "set {number} and {} peers",
            peers.len()
        );
    }
    Ok(())
}

/// Whether `Node::of_many` refuses this many peers.
fn is_refused_of_many(alloc: Global, count: u8) -> Result<bool, Fault> {
    let mut peers = Vec::new(alloc);
    for number in 0..count {
        peers.push(NodeId([number.saturating_add(2); 32]))?;
    }
    match Node::of_many(alloc, config(alloc, 1, peers.as_slice(), ONE)?, KvDriver) {
        Ok(_) => Ok(false),
        Err(Fault::BadConfig) => Ok(true),
        Err(fault) => Err(fault),
    }
}

#[test]
fn a_hundred_peers_are_the_most(rt: HostRuntime) -> Result<(), Fail> {
    for (count, wanted) in [(7, false), (8, false), (100, false), (101, true)] {
        assert_eq!(rt;
            is_refused_of_many(rt.alloc(), count)?,
            wanted,
            "{count} peers"
        );
    }
    Ok(())
}

/// Sends this many requests, each of which goes through every stage.
fn fill(alloc: Global, node: &mut Node, count: u32) -> Result<(), Fault> {
    for _ in 0..count {
        let _ = reply(alloc, node, GetRecord)?;
        match round(alloc, node)? {
            Said::Moved => {}
            Said::NoMemory => return Err(Fault::NoMemory),
            _ => return Err(Fault::Failed),
        }
    }
    Ok(())
}

/// Whether the next entry is refused, and the node has failed from then on.
fn is_full(alloc: Global, node: &mut Node, entries: usize) -> Result<bool, Fault> {
    match play(alloc, node, &[(1, GetRecord)])? {
        Said::JournalFull => Ok(node.journal().len() == entries && is_failed(node)),
        Said::NoMemory => Err(Fault::NoMemory),
        _ => Ok(false),
    }
}

#[test]
fn a_full_journal_fails_the_node(rt: HostRuntime) -> Result<(), Fail> {
    let alloc = rt.alloc();
    assert!(rt;
        is_so(alloc, 1, ONE, |node| {
            bring(alloc, node, &[(1, Open(0))])?;
            fill(alloc, node, 1_000_000)?;
            is_full(alloc, node, 1_000_000)
        })?
    );
    Ok(())
}
