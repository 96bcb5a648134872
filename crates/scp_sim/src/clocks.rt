//! Timers: started as the SCP draft says, and fired.

use crate::actor::Armed;
use crate::due::Due;
use crate::world::{SECOND, SimFault, World};
use scp_again::below::node::{Command as LocalCommand, Node, Timer, timers};

impl<'a> World<'a> {
    /// Stops the timers of a node.
    pub fn disarm(&mut self, number: u8) {
        for actor in self.actors.as_mut_slice() {
            if actor.number == number {
                actor.armed.clear();
            }
        }
    }

    /// Removes a timer that fires now from those that run, and returns the number of its node.
    fn take_timer(&mut self, who: usize, timer: Timer) -> Option<u8> {
        let now = self.now;
        let actor = self.actors.as_mut_slice().get_mut(who)?;
        let here = actor
            .armed
            .iter()
            .position(|armed| armed.timer == timer && armed.time == now)?;
        if here < actor.armed.len() {
            actor.armed.remove(here);
        }
        Some(actor.number)
    }

    /// Fires a timer.
    pub fn ring(&mut self, who: usize, timer: Timer) -> Result<(), SimFault> {
        if self.take_timer(who, timer).is_none() {
            return Ok(());
        }
        match timer {
            Timer::Round(slot, _) => {
                self.counts.rounds = self.counts.rounds.saturating_add(1);
                self.command(who, LocalCommand::Round(slot))
            }
            Timer::Ballot(slot, _) => {
                self.counts.ballots = self.counts.ballots.saturating_add(1);
                self.command(who, LocalCommand::Timer(slot))
            }
        }
    }

    /// The node of an actor, as it is now.
    pub fn node_of(&self, who: usize) -> Option<&Node> {
        let actor = self.actors.as_slice().get(who)?;
        match &actor.twin {
            Some(twin) => Some(twin),
            None => self
                .network
                .nodes()
                .get(usize::from(actor.number).checked_sub(1)?),
        }
    }

    /// Starts each timer that should run now and doesn't run yet. Stops those that should no longer run.
    pub fn arm(&mut self, who: usize) -> Result<(), SimFault> {
        let running = match self.node_of(who) {
            Some(node) => timers(self.alloc, node.ledger())?,
            None => return Ok(()),
        };
        let mut armed = Vec::new(self.alloc);
        for timer in running.as_slice() {
            let before = match self.actors.as_slice().get(who) {
                Some(actor) => actor
                    .armed
                    .iter()
                    .find(|armed| armed.timer == *timer)
                    .copied(),
                None => None,
            };
            match before {
                Some(before) => armed.push(before)?,
                None => {
                    let seconds = match timer {
                        Timer::Round(_, round) => *round,
                        Timer::Ballot(_, counter) => u64::from(*counter).saturating_add(1),
                    };
                    let time = self.now.saturating_add(seconds.saturating_mul(SECOND));
                    armed.push(Armed {
                        timer: *timer,
                        time,
                    })?;
                    self.agenda.put(time, Due::Rings { who, timer: *timer })?;
                }
            }
        }
        if let Some(actor) = self.actors.as_mut_slice().get_mut(who) {
            actor.armed = armed;
        }
        Ok(())
    }
}
