//! What a node does that makes no progress: it sends its messages again, and asks for records and quorum sets.

use crate::due::Due;
use crate::world::{SECOND, STALLED, SimFault, World};
use scp_again::below::types::WINDOW;
use scp_line::below::script::Command;

impl<'a> World<'a> {
    /// A node asks another one that applied more slots for the records of the next slots.
    fn ask(&mut self, node: u8, of: u8) -> Result<bool, SimFault> {
        let (here, there) = (self.applied_of(node), self.applied_of(of));
        let is_linked = self.links.get(node, of).is_open && self.links.get(of, node).is_open;
        if !is_linked || there <= here {
            return Ok(false);
        }
        let last = there.min(here.saturating_add(WINDOW as usize));
        for slot in here..last {
            self.counts.asked = self.counts.asked.saturating_add(1);
            self.act(Command::Ask {
                from: node,
                to: of,
                slot: (slot as u64).saturating_add(1),
            })?;
        }
        Ok(true)
    }

    /// A node checks whether there is any progress. If it applied no slot for a while, it sends its messages again, and asks for records
    /// and quorum sets.
    pub fn look(&mut self, node: u8) -> Result<(), SimFault> {
        self.agenda
            .put(self.now.saturating_add(SECOND), Due::Looks { node })?;
        let Some(place) = usize::from(node).checked_sub(1) else {
            return Ok(());
        };
        let is_stalled = match self.actors.as_slice().get(place) {
            Some(actor) => self.now.saturating_sub(actor.moved) >= STALLED,
            None => false,
        };
        if self.is_down(node) || !is_stalled || self.is_over(node) {
            return Ok(());
        }
        self.propose_anew(node);
        let count = self.plan.nodes;
        for to in 1..=count {
            if to != node {
                self.say_again(node, to)?;
            }
        }
        self.act(Command::Tick(node))?;
        for of in 1..=count {
            if of != node && self.ask(node, of)? {
                return Ok(());
            }
        }
        Ok(())
    }
}
