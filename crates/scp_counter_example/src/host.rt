//! The host of a node: it tells the node what comes, and carries what goes out.
ghost use Rattle.std.specs.Prelude.{◌≡◌, true};
ghost use Rattle.scp_turn.specs.scp_core.specs.Headline.{state_shown};
ghost use Rattle.scp_turn.specs.Episode.{IsOfHost};
ghost use Rattle.scp_counter_example.specs.inside.Counter.{after_number, count_in};

use crate::counter::Counter;
use scp_turn::below::node::{
    Bytes, Capacities, Command, Config, Event, Node, Peers, SharedDecision, Timer,
};
use scp_turn::below::quorum::QuorumSet;
use scp_turn::below::types::{Fault, NodeId, Slot};
use scp_turn::{Sending, play};
use std::alloc::Global;

/// Room in each queue.
const ROOM: Capacities = Capacities {
    link: 64,
    inbox: 64,
    ready: 64,
    decided: 64,
};

/// The node of a number from 1 to 3, with the other two as its peers: any two of the three are a quorum.
fn config_of(alloc: Global, number: u8) -> Result<Config, Fault> {
    let mut all = Vec::new(alloc);
    let mut peers = Vec::new(alloc);
    for other in 1..4 {
        all.push(NodeId([other; 32]))?;
        if other != number {
            peers.push(NodeId([other; 32]))?;
        }
    }
    Ok(Config {
        me: NodeId([number; 32]),
        set: QuorumSet::of_nodes(2, all),
        peers: Peers::new(peers),
        capacities: ROOM,
    })
}

/// Whether it is an event that a host tells: at the tail of a link, or a command.
fn is_of_host(event: &Event) -> bool
    ensures { result ≡ true → IsOfHost event.now }
{
    match event {
        Event::Open(_) | Event::Send(..) | Event::Close(_) | Event::Local(_) => true,
        _ => false,
    }
}

/// A node with all that its host told it, so that it can be made again.
pub struct Host {
    alloc: Global,
    number: u8,
    node: Node<Counter>,
    told: Vec<Event>,
}

// (written out, so that whoever lets one go has one call to prove, and not each part of a node)
impl Drop for Host {
    fn drop(self) {
        let Host {
            alloc: _,
            number: _,
            node: _,
            told: _,
        } = self;
    }
}

impl Host {
    /// The host of a node that has heard nothing.
    pub fn new(alloc: Global, number: u8) -> Result<Host, Fault> {
        Ok(Host {
            alloc,
            number,
            node: Node::new(alloc, config_of(alloc, number)?, Counter)?,
            told: Vec::new(alloc),
        })
    }

    /// Tells the node an event, and gives what goes out then: of each message the link and its bytes.
    pub fn tell(&mut self, event: Event) -> Result<Vec<Sending>, Fault> {
        if !is_of_host(&event) {
            return Ok(Vec::new(self.alloc));
        }
        self.told.push(event.copy()?)?;
        let played = play(self.alloc, &mut self.node, event)?;
        Ok(played.sent)
    }

    /// A peer said this over its link. What isn't accepted is lost: a host with sockets doesn't read from them meanwhile.
    pub fn hear(&mut self, link: u8, bytes: Bytes) -> Result<Vec<Sending>, Fault> {
        if !self.node.accepts(link) {
            return Ok(Vec::new(self.alloc));
        }
        self.tell(Event::Send(link, bytes))
    }

    /// The first timer that should run runs out; nothing happens where none should. A host with a clock waits for it.
    pub fn time(&mut self) -> Result<Vec<Sending>, Fault> {
        let timers = self.node.timers(self.alloc)?;
        match timers.as_slice().first() {
            Some(Timer::Round(slot, _)) => self.tell(Event::Local(Command::Round(*slot))),
            Some(Timer::Ballot(slot, _)) => self.tell(Event::Local(Command::Timer(*slot))),
            None => Ok(Vec::new(self.alloc)),
        }
    }

    /// The node made again, by all that it was told: what a restart does with its log.
    pub fn again(&self) -> Result<Host, Fault> {
        let mut host = Host::new(self.alloc, self.number)?;
        for event in self.told.as_slice() {
            host.tell(event.copy()?)?;
        }
        Ok(host)
    }

    /// How many events the node was told.
    pub fn events(&self) -> usize {
        self.told.len()
    }

    /// The decisions that were applied of the slots behind this one.
    pub fn applied_since(&self, slot: Slot) -> &[SharedDecision] {
        self.node.applied_since(slot)
    }

    /// The count: what the applied numbers make, one after another, of the count with which the node began, 0 where it began with none. None of a node that failed.
    pub fn count(&self) -> Option<u64>
        ensures { result ≡ state_shown (count_in self.now.node.applier.base) after_number self.now.node }
    {
        self.node.state().copied()
    }
}
