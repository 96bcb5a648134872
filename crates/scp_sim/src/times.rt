//! One point in time after the other: what happens at it, and then how the nodes come to rest.

use crate::due::Due;
use crate::world::{PATIENCE, SimFault, World};
use scp_line::below::script::Command;
use scp_sim_options::is_marked;

impl<'a> World<'a> {
    /// Plays one thing that is due.
    fn happen(&mut self, due: Due) -> Result<(), SimFault> {
        match due {
            Due::Arrives {
                from,
                to,
                life,
                bytes,
            } => self.arrive(from, to, life, bytes),
            Due::Rings { who, timer } => self.ring(who, timer),
            Due::Proposes { who, slot } => self.propose(who, slot),
            Due::Looks { node } => self.look(node),
            Due::Relinks => self.relink_all(),
            Due::Floods { node } => self.flood(node),
        }
    }

    /// Brings all actors to rest, and sends what they have to say.
    fn rest(&mut self) -> Result<(), SimFault> {
        self.act(Command::Settle)?;
        for actor in self.actors.as_mut_slice() {
            if let Some(twin) = &mut actor.twin {
                scp_line::below::turn::settle(twin);
            }
        }
        self.hand_out_all()?;
        for who in 0..self.actors.len() {
            let number = match self.actors.as_slice().get(who) {
                Some(actor) => actor.number,
                None => 0,
            };
            if !self.is_down(number) {
                self.arm(who)?;
                self.compare(who);
                self.go_on(who)?;
            }
        }
        Ok(())
    }

    /// Whether a node is judged: it neither equivocates nor floods.
    pub fn is_judged(&self, node: u8) -> bool {
        !is_marked(&self.plan.equivocating, node) && !is_marked(&self.plan.flooding, node)
    }

    /// Whether the run is over: all judged nodes applied all slots, or there is no more progress.
    fn has_ended(&self) -> bool {
        let is_stuck = self.now.saturating_sub(self.moved) > PATIENCE && !self.is_to_change();
        is_stuck || self.is_all_over()
    }

    /// Whether all judged nodes applied all slots.
    fn is_all_over(&self) -> bool {
        for number in 1..=self.plan.nodes {
            if self.is_judged(number) && !self.is_over(number) {
                return false;
            }
        }
        true
    }

    /// Plays all that happens at the next point in time, unless the plan ends the run before it. Returns whether anything more is due.
    pub fn next(&mut self) -> Result<bool, SimFault> {
        let Some(time) = self.agenda.next_time() else {
            return Ok(false);
        };
        if time > self.plan.until {
            self.is_cut = true;
            return Ok(false);
        }
        self.now = time;
        for _ in 0..1_000_000 {
            match self.agenda.next_at(time) {
                Some(due) => self.happen(due)?,
                None => break,
            }
        }
        self.rest()?;
        Ok(!self.has_ended())
    }
}
