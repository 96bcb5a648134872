//! A close is put between any two events, the steps of each stage among them. The journal follows what was sent before it, and accounts for
//! all of it. The check knows only what was accepted and what the journal shows.
use crate::parts::Act::*;
use crate::parts::Seen::*;
use crate::parts::{Act, CONN, MANY, ONE, STAGES, Said, is_so, outcome, reply, settle};
use scp_core::below::types::{ConnId, Fault};
use scp_core::below::wire::encode;
use scp_core::{Capacities, Cause, Event, Fate, Node};
use std::alloc::Global;
use std::process::Abort;
use std::test::*;

/// A message that was accepted: its life and number, the slot that it names, what was sent, and whether the journal has shown its fate.
#[derive(Clone, Copy)]
struct Sending {
    life: u32,
    seq: u64,
    slot: u64,
    act: Act,
    is_shown: bool,
}

/// What was accepted on link 0: its messages, and the lives that were closed; and the lives that have ended in the journal.
#[derive(Drop)]
struct Heard {
    sent: Vec<Sending>,
    closed: Vec<u32>,
    ended: Vec<u32>,
}

/// Two envelopes of one slot, the second of which waits behind the first, and the set that the first waits for.
const ONE_LANE: [Act; 4] = [Open(0), Names(2), Names(1), Set(2)];

/// The same, among messages of other slots, which don't wait.
const LANES: [Act; 7] = [
    Open(0),
    Record(2),
    Names(2),
    Record(3),
    GetRecord,
    Record(2),
    Set(2),
];

/// Each act, with three steps of each stage after it.
fn step_by_step(alloc: Global, acts: &[Act]) -> Result<Vec<Act>, Fault> {
    let mut events = Vec::new(alloc);
    for act in acts {
        events.push(*act)?;
        for _ in 0..3 {
            events.extend_from_slice(&STAGES)?;
        }
    }
    Ok(events)
}

/// How many messages were accepted on the life.
fn count_of(sent: &[Sending], life: u32) -> usize {
    sent.iter().filter(|it| it.life == life).count()
}

/// Notes what was accepted while the link had this life.
fn note(heard: &mut Heard, life: u32, act: Act) -> Result<(), Fault> {
    let slot = match act {
        Record(slot) => slot,
        Names(_) | GetRecord => 1,
        Close(_) => return Ok(heard.closed.push(life)?),
        _ => return Ok(()),
    };
    let seq = count_of(heard.sent.as_slice(), life) as u64;
    heard.sent.push(Sending {
        life,
        seq,
        slot,
        act,
        is_shown: false,
    })?;
    Ok(())
}

/// The acts happen, and each is noted if it is accepted.
fn happen(alloc: Global, node: &mut Node, heard: &mut Heard, acts: &[Act]) -> Result<(), Fault> {
    for act in acts {
        match reply(alloc, node, *act)? {
            Said::Accepted => note(heard, node.lives(0), *act)?,
            Said::NoMemory => return Err(Fault::NoMemory),
            Said::Failed | Said::JournalFull | Said::NoLink => return Err(Fault::Failed),
            _ => {}
        }
    }
    Ok(())
}

fn life_of(fate: &Fate) -> u32 {
    match fate {
        Fate::Taken { conn, .. } | Fate::Dropped { conn, .. } | Fate::Closed { conn, .. } => {
            conn.life
        }
    }
}

/// Marks a message's fate as shown, and gives what was sent; `None` if it isn't the first of its lane whose fate is missing.
fn tell(sent: &mut [Sending], life: u32, seq: u64) -> Option<Act> {
    let place = sent.iter().position(|it| it.life == life && it.seq == seq)?;
    let slot = sent.get(place)?.slot;
    let first = sent
        .iter()
        .position(|it| it.life == life && it.slot == slot && !it.is_shown)?;
    if first != place {
        return None;
    }
    let it = sent.get_mut(place)?;
    it.is_shown = true;
    Some(it.act)
}

/// Whether the message that was taken is the one that was sent.
fn is_what_was_sent(alloc: Global, fate: &Fate, act: Act) -> Result<bool, Fault> {
    match (fate, act.event(alloc)?) {
        (Fate::Taken { message, .. }, Event::Send(_, bytes)) => {
            Ok(encode(alloc, message)?.as_slice() == bytes.as_slice())
        }
        _ => Ok(true),
    }
}

/// Whether the journal follows what was sent. In each lane its fates are those of the first messages, each once and in order. Each taken
/// message is the one that was sent. A connection ends by its link, with nothing after its end.
fn follows(alloc: Global, journal: &[Fate], heard: &mut Heard) -> Result<bool, Fault> {
    for fate in journal {
        let life = life_of(fate);
        if heard.ended.contains(&life) {
            return Ok(false);
        }
        let seq = match outcome(fate) {
            Taken(seq, _) | Dropped(seq, _) => seq,
            Closed(Cause::Link) => {
                heard.ended.push(life)?;
                continue;
            }
            Closed(_) => return Ok(false),
        };
        let Some(act) = tell(heard.sent.as_mut_slice(), life, seq) else {
            return Ok(false);
        };
        if !is_what_was_sent(alloc, fate, act)? {
            return Ok(false);
        }
    }
    Ok(true)
}

/// Whether each message of the life has a fate, or waits while the life isn't closed.
fn accounts(node: &Node, heard: &Heard, life: u32) -> bool {
    let waiting = node.parked(&ConnId { life, ..CONN });
    let untold = heard
        .sent
        .iter()
        .filter(|it| it.life == life && !it.is_shown)
        .count();
    let is_closed = heard.closed.contains(&life);
    waiting == untold && heard.ended.contains(&life) == is_closed && (waiting == 0 || !is_closed)
}

/// These happen, one part after the other, and the node comes to rest.
fn hear(alloc: Global, node: &mut Node, parts: &[&[Act]]) -> Result<Heard, Fault> {
    let mut heard = Heard {
        sent: Vec::new(alloc),
        closed: Vec::new(alloc),
        ended: Vec::new(alloc),
    };
    for acts in parts {
        happen(alloc, node, &mut heard, acts)?;
    }
    match settle(alloc, node)? {
        Said::Idle => Ok(heard),
        Said::NoMemory => Err(Fault::NoMemory),
        _ => Err(Fault::Failed),
    }
}

/// Whether the node's journal then follows and accounts.
fn is_followed(alloc: Global, node: &mut Node, parts: &[&[Act]]) -> Result<bool, Fault> {
    let mut heard = hear(alloc, node, parts)?;
    Ok(
        follows(alloc, node.journal(), &mut heard)?
            && accounts(node, &heard, 1)
            && accounts(node, &heard, 2),
    )
}

/// Whether a new node's journal does so, wherever the others happen.
fn are_followed(
    alloc: Global,
    capacities: Capacities,
    acts: &[Act],
    others: &[Act],
) -> Result<bool, Fault> {
    let events = step_by_step(alloc, acts)?;
    for place in 0..events.len() {
        let (before, after) = events.as_slice().split_at(place);
        if !is_so(alloc, 1, capacities, |node| {
            is_followed(alloc, node, &[before, others, after])
        })? {
            return Ok(false);
        }
    }
    Ok(true)
}

/// A close alone, and a close that is followed by the next life.
const CLOSE: [Act; 1] = [Close(0)];

const CLOSE_AND_OPEN: [Act; 2] = [Close(0), Open(0)];

#[test]
fn a_close_between_any_two_events(rt: HostRuntime) -> Result<(), Fail> {
    for (acts, capacities) in [
        (ONE_LANE.as_slice(), ONE),
        (ONE_LANE.as_slice(), MANY),
        (LANES.as_slice(), ONE),
        (LANES.as_slice(), MANY),
    ] {
        assert!(rt; are_followed(rt.alloc(), capacities, acts, &CLOSE)?);
        assert!(rt; are_followed(rt.alloc(), capacities, acts, &CLOSE_AND_OPEN)?);
    }
    Ok(())
}

/// Whether the check refuses the node's journal if messages are left out of what was sent, and if one more was sent.
fn is_checked(alloc: Global, node: &mut Node) -> Result<bool, Fault> {
    let events = step_by_step(alloc, &ONE_LANE)?;
    let mut heard = hear(alloc, node, &[events.as_slice()])?;
    let is_right = follows(alloc, node.journal(), &mut heard)? && accounts(node, &heard, 1);
    note(&mut heard, 1, GetRecord)?;
    let is_more = accounts(node, &heard, 1);
    heard.sent.clear();
    let is_less = follows(alloc, node.journal(), &mut heard)?;
    Ok(is_right && !is_more && !is_less)
}

#[test]
fn the_check_of_journals_refuses(rt: HostRuntime) -> Result<(), Fail> {
    let alloc = rt.alloc();
    assert!(rt; is_so(alloc, 1, MANY, |node| is_checked(alloc, node))?);
    Ok(())
}
