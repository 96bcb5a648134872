//! Which nodes are linked now, as partitions and stops come and go.

use crate::world::{SimFault, World};
use scp_again::below::node::Event;
use scp_line::below::script::Command;
use scp_line::below::turn::link_of;
use scp_sim_options::parts;

impl<'a> World<'a> {
    /// Whether a node is stopped.
    pub fn is_down(&self, node: u8) -> bool {
        for crash in self.plan.crashes.as_slice() {
            if crash.node == node && crash.span.from <= self.now && self.now < crash.span.to {
                return true;
            }
        }
        false
    }

    /// Whether two nodes should be linked now.
    fn are_linked(&self, one: u8, other: u8) -> bool {
        for partition in self.plan.partitions.as_slice() {
            if partition.span.from <= self.now
                && self.now < partition.span.to
                && parts(partition, one, other)
            {
                return false;
            }
        }
        !self.is_down(one) && !self.is_down(other)
    }

    /// Whether the plan changes any link later than now.
    pub fn is_to_change(&self) -> bool {
        for partition in self.plan.partitions.as_slice() {
            if self.now < partition.span.to {
                return true;
            }
        }
        for crash in self.plan.crashes.as_slice() {
            if self.now < crash.span.to {
                return true;
            }
        }
        false
    }

    /// Opens or closes the link from one node to another, as the plan says for now.
    fn relink(&mut self, from: u8, to: u8) -> Result<(), SimFault> {
        let mut link = self.links.get(from, to);
        let is_linked = self.are_linked(from, to);
        if link.is_open == is_linked {
            return Ok(());
        }
        link.is_open = is_linked;
        let event = if is_linked {
            link.life = link.life.saturating_add(1);
            Event::Open(link_of(from, to))
        } else {
            Event::Close(link_of(from, to))
        };
        self.links.put(from, to, link);
        self.tell_twins(to, &event)?;
        if is_linked {
            self.act(Command::Open { from, to })?;
            self.say_again(from, to)
        } else {
            self.act(Command::Close { from, to })
        }
    }

    /// Opens and closes all links, as the plan says for now. Stops the timers of nodes that are stopped.
    pub fn relink_all(&mut self) -> Result<(), SimFault> {
        for from in 1..=self.plan.nodes {
            for to in 1..=self.plan.nodes {
                if from != to {
                    self.relink(from, to)?;
                }
            }
        }
        for number in 1..=self.plan.nodes {
            if self.is_down(number) {
                self.disarm(number);
            }
        }
        Ok(())
    }
}
