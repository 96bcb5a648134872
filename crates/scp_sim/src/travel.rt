//! Messages on their way: lost, delayed, or doubled.

use crate::chance::{happens, within};
use crate::due::Due;
use crate::world::{SimFault, World};
use scp_again::below::node::Event;
use scp_again::below::wire::Bytes;
use scp_line::below::script::Command;
use scp_line::below::turn::link_of;

impl<'a> World<'a> {
    /// Sends a message from one node to another. It is lost, or arrives once or twice.
    pub fn post(&mut self, from: u8, to: u8, bytes: Bytes) -> Result<(), SimFault> {
        self.counts.sent = self.counts.sent.saturating_add(1);
        if happens(&mut self.rng, self.plan.drop) {
            self.counts.lost = self.counts.lost.saturating_add(1);
            return Ok(());
        }
        if happens(&mut self.rng, self.plan.duplicate) {
            self.counts.doubled = self.counts.doubled.saturating_add(1);
            let copy = bytes.copy()?;
            self.travel(from, to, copy)?;
        }
        self.travel(from, to, bytes)
    }

    /// Sends a message that isn't lost. It arrives at some later time.
    fn travel(&mut self, from: u8, to: u8, bytes: Bytes) -> Result<(), SimFault> {
        let mut link = self.links.get(from, to);
        let mut time = self
            .now
            .saturating_add(within(&mut self.rng, self.plan.delay));
        if !self.plan.reorder && time < link.last {
            time = link.last;
        }
        link.last = time;
        self.links.put(from, to, link);
        let life = link.life;
        self.agenda.put(
            time,
            Due::Arrives {
                from,
                to,
                life,
                bytes,
            },
        )?;
        Ok(())
    }

    /// A message arrives at a node, unless its link was closed.
    pub fn arrive(&mut self, from: u8, to: u8, life: u64, bytes: Bytes) -> Result<(), SimFault> {
        let mut link = self.links.get(from, to);
        if !link.is_open || link.life != life {
            self.counts.lost = self.counts.lost.saturating_add(1);
            return Ok(());
        }
        link.is_used = true;
        self.links.put(from, to, link);
        let event = Event::Send(link_of(from, to), bytes.copy()?);
        self.tell_twins(to, &event)?;
        self.act(Command::Send { from, to, bytes })
    }
}
