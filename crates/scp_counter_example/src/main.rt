//! A library example: three nodes count together. They are of `Counter`, an application that isn't keys and values; each has a host
//! that tells it what its peers say and when its timers run out. What is decided and counted is printed, and then what node 1 comes
//! to when it is made again from what it was told.
//!
//! What is promised: it is safe and returns, the counter keeps what an application owes (`Driver`, `Application`), and the count of a
//! node is what its applied numbers make of 0. What it prints is its stored output.
#![tactic(auto)]

mod counter;
mod host;

use counter::{Counter, number_of, value_of};
use host::Host;
use scp_turn::Sending;
use scp_turn::below::node::{Application, Bytes, Command, Event};
use scp_turn::below::types::{Fault, Slot};
use std::alloc::Global;
use std::collections::VecDeque;

/// The most messages that are carried, and the most timers that run out, for a slot: so it ends whatever the nodes do.
const MOST: u32 = 1_000;

/// What each of the nodes proposes, slot by slot.
const PROPOSED: [[u64; 3]; 3] = [[5, 7, 9], [8, 3, 6], [12, 11, 10]];

/// A message on its way: the place of the node that hears it, the link there, and its bytes.
#[derive(Drop)]
struct Underway {
    to: usize,
    link: u8,
    bytes: Bytes,
}

/// Puts on the line what the node at this place says. The peers of a node are the others, in their order.
fn put(line: &mut VecDeque<Underway>, from: usize, sent: Vec<Sending>) -> Result<(), Fault> {
    for Sending { link, bytes } in sent {
        let far = usize::from(link);
        let to = if far < from { far } else { far + 1 };
        let link = if from < to { from } else { from - 1 };
        line.push_back(Underway {
            to,
            link: u8::try_from(link).unwrap_or(u8::MAX),
            bytes,
        })?;
    }
    Ok(())
}

/// Tells the node at this place an event, and puts on the line what it says.
fn tell(
    hosts: &mut [Host],
    at: usize,
    event: Event,
    line: &mut VecDeque<Underway>,
) -> Result<(), Fault> {
    match hosts.get_mut(at) {
        Some(host) => {
            let sent = host.tell(event)?;
            put(line, at, sent)
        }
        None => Ok(()),
    }
}

/// Carries what is on the line, until nothing is.
fn carry(hosts: &mut [Host], line: &mut VecDeque<Underway>) -> Result<(), Fault> {
    for _ in 0..MOST {
        let Some(Underway { to, link, bytes }) = line.pop_front() else {
            return Ok(());
        };
        if let Some(host) = hosts.get_mut(to) {
            let sent = host.hear(link, bytes)?;
            put(line, to, sent)?;
        }
    }
    Ok(())
}

/// At each node the first timer that should run runs out, and what is said is carried.
fn wait(hosts: &mut [Host], line: &mut VecDeque<Underway>) -> Result<(), Fault> {
    for at in 0..hosts.len() {
        if let Some(host) = hosts.get_mut(at) {
            let sent = host.time()?;
            put(line, at, sent)?;
        }
        carry(hosts, line)?;
    }
    Ok(())
}

/// Whether each node applied a slot behind this one.
fn have_applied(hosts: &[Host], known: Slot) -> bool {
    hosts
        .iter()
        .all(|host| !host.applied_since(known).is_empty())
}

/// Each node proposes its number for the slot behind this one; then messages are carried and timers run out, until each applied it.
fn close(
    alloc: Global,
    hosts: &mut [Host],
    line: &mut VecDeque<Underway>,
    known: Slot,
    numbers: &[u64; 3],
) -> Result<(), Fault> {
    let slot = Slot(known.0.saturating_add(1));
    for (at, number) in numbers.iter().enumerate() {
        let value = value_of(alloc, *number)?;
        tell(hosts, at, Event::Local(Command::Propose(slot, value)), line)?;
    }
    carry(hosts, line)?;
    for _ in 0..MOST {
        if have_applied(hosts, known) {
            return Ok(());
        }
        wait(hosts, line)?;
    }
    Ok(())
}

/// Adds what became of the slot behind this one at a node, whose count was that before it.
fn write_slot(text: &mut String, host: &Host, known: Slot, before: u64) -> Result<(), Fault> {
    let Some(decision) = host.applied_since(known).first() else {
        writeln!(text, "a slot isn't applied")?;
        return Ok(());
    };
    let slot = decision.get().slot.0;
    let value = &decision.get().value;
    let number = number_of(value).unwrap_or(0);
    let refused = if Counter::refuses(&before, value) {
        ", which is refused"
    } else {
        ""
    };
    let count = host.count().unwrap_or(0);
    writeln!(
        text,
        "slot {slot} is closed with {number}{refused}: the count is {count}"
    )?;
    Ok(())
}

/// Adds what a node comes to that is made again from what it was told.
fn write_again(text: &mut String, host: &Host) -> Result<(), Fault> {
    let again = host.again()?;
    let events = again.events();
    let slots = again.applied_since(Slot(0)).len();
    let count = again.count().unwrap_or(0);
    writeln!(
        text,
        "node 1 again, by {events} events: {slots} slots, the count is {count}"
    )?;
    Ok(())
}

/// Three nodes, of which each heard that its links are open.
fn hosts_of(alloc: Global, line: &mut VecDeque<Underway>) -> Result<Vec<Host>, Fault> {
    let mut hosts = Vec::new(alloc);
    for number in 1..4 {
        hosts.push(Host::new(alloc, number)?)?;
    }
    for at in 0..3 {
        tell(&mut hosts, at, Event::Open(0), line)?;
        tell(&mut hosts, at, Event::Open(1), line)?;
    }
    Ok(hosts)
}

/// The count of the first node.
fn count_of(hosts: &[Host]) -> u64 {
    match hosts.first() {
        Some(host) => host.count().unwrap_or(0),
        None => 0,
    }
}

/// What the nodes count, and what node 1 comes to again.
fn counted(alloc: Global) -> Result<String, Fault> {
    let mut text = String::new(alloc);
    let mut line = VecDeque::new(alloc);
    let mut hosts = hosts_of(alloc, &mut line)?;
    for (known, numbers) in PROPOSED.iter().enumerate() {
        let known = Slot(known as u64);
        let before = count_of(&hosts);
        close(alloc, &mut hosts, &mut line, known, numbers)?;
        if let Some(host) = hosts.first() {
            write_slot(&mut text, host, known, before)?;
        }
    }
    if let Some(host) = hosts.first() {
        write_again(&mut text, host)?;
    }
    Ok(text)
}

fn main(rt: HostRuntime) -> anyhow::Result<()> {
    let text = counted(rt.alloc())?;
    print!(rt; "{text}")?;
    Ok(())
}
