//! Slots: what is proposed for them, and how far the nodes are.

use crate::chance::{happens, within};
use crate::due::Due;
use crate::world::{SimFault, World};
use scp_again::below::driver::place_of;
use scp_again::below::node::Command as LocalCommand;
use scp_again::below::types::{Slot, Value};
use scp_line::below::text::value_of;
use scp_sim_options::Proposers;

impl<'a> World<'a> {
    /// The value that an actor proposes for a slot.
    fn value(&self, who: usize, slot: Slot) -> Result<Option<Value>, SimFault> {
        let Some(actor) = self.actors.as_slice().get(who) else {
            return Ok(None);
        };
        let mut text = String::new(self.alloc);
        let kind = if actor.twin.is_some() { "twin" } else { "node" };
        write!(
            text,
            "ops(put(slot,{}),put({kind},{}))",
            slot.0, actor.number
        )?;
        match value_of(self.alloc, text.as_bytes()) {
            Ok(value) => Ok(Some(value)),
            Err(_) => Err(SimFault::NoMemory),
        }
    }

    /// Whether an actor proposed a value for the slot.
    fn has_proposal(&self, who: usize, slot: Slot) -> bool {
        match self.node_of(who) {
            Some(node) => match node.ledger().machine(slot) {
                Some(machine) => machine.nominator().has_proposal(),
                None => false,
            },
            None => true,
        }
    }

    /// An actor proposes a value for a slot.
    pub fn propose(&mut self, who: usize, slot: Slot) -> Result<(), SimFault> {
        if self.has_proposal(who, slot) {
            return Ok(());
        }
        match self.value(who, slot)? {
            Some(value) => self.command(who, LocalCommand::Propose(slot, value)),
            None => Ok(()),
        }
    }

    /// Whether a node is to propose a value for a slot.
    fn proposes(&mut self, number: u8, slot: u64) -> bool {
        let count = usize::from(self.plan.nodes);
        match self.plan.propose {
            Proposers::All => true,
            Proposers::Random => happens(&mut self.rng, 500),
            Proposers::Leader => {
                count > 0 && place_of(Slot(slot), 1, count).saturating_add(1) == usize::from(number)
            }
        }
    }

    /// How many slots the node with this number applied.
    pub fn applied_of(&self, number: u8) -> usize {
        match usize::from(number).checked_sub(1) {
            Some(place) => match self.network.nodes().get(place) {
                Some(node) => node.applied().len(),
                None => 0,
            },
            None => 0,
        }
    }

    /// Whether a node applied all slots.
    pub fn is_over(&self, node: u8) -> bool {
        self.applied_of(node) as u64 >= self.plan.slots
    }

    /// Notes how many slots an actor has applied, and plans its proposal for the next slot, if it has one to make.
    pub fn go_on(&mut self, who: usize) -> Result<(), SimFault> {
        let applied = match self.node_of(who) {
            Some(node) => node.applied().len(),
            None => return Ok(()),
        };
        let now = self.now;
        let slot = (applied as u64).saturating_add(1);
        let mut is_new = false;
        let (number, is_due) = match self.actors.as_mut_slice().get_mut(who) {
            Some(actor) => {
                if actor.applied < applied {
                    actor.applied = applied;
                    actor.moved = now;
                    is_new = actor.twin.is_none();
                }
                let is_due = actor.proposed < slot && slot <= self.plan.slots;
                if is_due {
                    actor.proposed = slot;
                }
                (actor.number, is_due)
            }
            None => return Ok(()),
        };
        if is_new && self.is_judged(number) {
            self.moved = now;
        }
        if is_due && self.proposes(number, slot) {
            let time = now.saturating_add(within(&mut self.rng, self.plan.delay));
            self.agenda.put(
                time,
                Due::Proposes {
                    who,
                    slot: Slot(slot),
                },
            )?;
        }
        Ok(())
    }

    /// If no value is proposed for the slot that makes no progress, the node may propose one.
    pub fn propose_anew(&mut self, number: u8) {
        let now = self.now;
        for actor in self.actors.as_mut_slice() {
            if actor.number == number {
                actor.moved = now;
                actor.proposed = actor.applied as u64;
            }
        }
    }
}
