//! What is sent: what nodes say, what they send once more, and what a flood consists of.

use crate::due::Due;
use crate::world::{FLOOD, SimFault, World};
use rand_core::Rng;
use scp_again::below::node::{Event, Reply};
use scp_again::below::wire::{Bytes, encode};
use scp_again::messages_again;
use scp_line::below::text::message_of;
use scp_line::below::turn::link_of;
use scp_sim_options::is_marked;

impl<'a> World<'a> {
    /// A node sends to another node once more what a lost connection may have lost.
    pub fn say_again(&mut self, from: u8, to: u8) -> Result<(), SimFault> {
        if is_marked(&self.plan.silent, from) || !self.links.get(from, to).is_open {
            return Ok(());
        }
        let Some(place) = usize::from(from).checked_sub(1) else {
            return Ok(());
        };
        let messages = match self.network.nodes().get(place) {
            Some(node) => messages_again(self.alloc, node.ledger(), link_of(to, from))?,
            None => return Ok(()),
        };
        for message in messages.as_slice() {
            self.post(from, to, Bytes::new(encode(self.alloc, message)?))?;
        }
        Ok(())
    }

    /// A statement of a node with the hash of a quorum set that no node has.
    fn strange(&mut self, node: u8) -> Result<Option<Bytes>, SimFault> {
        let mut hash = [0; 32];
        self.rng.fill_bytes(&mut hash);
        let digits = hex::encode(self.alloc, &hash)?;
        let slot = self.applied_of(node).saturating_add(1);
        let mut text = String::new(self.alloc);
        write!(
            text,
            "nominate {node} {slot} {} votes(ops(put(flood,{node}))) accepted()",
            digits.as_str()
        )?;
        match message_of(self.alloc, text.as_bytes()) {
            Ok(message) => Ok(Some(Bytes::new(encode(self.alloc, &message)?))),
            Err(_) => Err(SimFault::NoMemory),
        }
    }

    /// A node sends once more what it sent before, and messages that can't be judged.
    pub fn flood(&mut self, node: u8) -> Result<(), SimFault> {
        self.agenda
            .put(self.now.saturating_add(FLOOD), Due::Floods { node })?;
        if self.is_down(node) {
            return Ok(());
        }
        for to in 1..=self.plan.nodes {
            if to != node {
                self.say_again(node, to)?;
                if self.links.get(node, to).is_open {
                    if let Some(bytes) = self.strange(node)? {
                        self.post(node, to, bytes)?;
                    }
                }
            }
        }
        Ok(())
    }

    /// Sends what an actor has to say to a node.
    fn hand_out(&mut self, who: usize, to: u8) -> Result<(), SimFault> {
        let number = match self.actors.as_slice().get(who) {
            Some(actor) => actor.number,
            None => return Ok(()),
        };
        for _ in 0..1_000 {
            let event = Event::Drain(link_of(to, number));
            let reply = match self.actors.as_mut_slice().get_mut(who) {
                Some(actor) => match &mut actor.twin {
                    Some(twin) => twin.step(event),
                    None => match self.network.offer(number, event) {
                        Some(reply) => reply,
                        None => return Ok(()),
                    },
                },
                None => return Ok(()),
            };
            match reply {
                Reply::Sent(bytes) => self.post(number, to, bytes)?,
                _ => return Ok(()),
            }
        }
        Ok(())
    }

    /// Whether an actor speaks to a node, over an open link. A silent node speaks to none. A node that equivocates speaks to the first
    /// half of all nodes, and its twin to the second half.
    fn speaks(&self, who: usize, to: u8) -> bool {
        let Some(actor) = self.actors.as_slice().get(who) else {
            return false;
        };
        if actor.number == to || is_marked(&self.plan.silent, actor.number) {
            return false;
        }
        if !self.links.get(actor.number, to).is_open {
            return false;
        }
        if !is_marked(&self.plan.equivocating, actor.number) {
            return true;
        }
        actor.twin.is_some() == (to > self.plan.nodes / 2)
    }

    /// Sends what all actors have to say.
    pub fn hand_out_all(&mut self) -> Result<(), SimFault> {
        for who in 0..self.actors.len() {
            for to in 1..=self.plan.nodes {
                if self.speaks(who, to) {
                    self.hand_out(who, to)?;
                }
            }
        }
        Ok(())
    }
}
