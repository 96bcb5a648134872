//! What nodes are given to do, line by line, and the script that records it.

use crate::actor::tell;
use crate::named::is_named;
use crate::world::{SimFault, World};
use scp_again::below::node::{Command as LocalCommand, Event};
use scp_line::act;
use scp_line::below::script::Command;

impl<'a> World<'a> {
    /// Plays a command and records its line, if it names only nodes that a script can have.
    pub fn act(&mut self, command: Command) -> Result<(), SimFault> {
        if is_named(&command) {
            self.happened.add(self.alloc, &command)?;
            act(&mut self.network, &command)?;
        }
        Ok(())
    }

    /// Gives an event to the twins of a node, too.
    pub fn tell_twins(&mut self, number: u8, event: &Event) -> Result<(), SimFault> {
        for actor in self.actors.as_mut_slice() {
            if actor.number == number {
                if let Some(twin) = &mut actor.twin {
                    tell(twin, event.copy()?);
                }
            }
        }
        Ok(())
    }

    /// Plays a local command of a node or of a twin.
    pub fn command(&mut self, who: usize, command: LocalCommand) -> Result<(), SimFault> {
        let (number, is_twin) = match self.actors.as_slice().get(who) {
            Some(actor) => (actor.number, actor.twin.is_some()),
            None => return Ok(()),
        };
        if self.is_down(number) {
            return Ok(());
        }
        if is_twin {
            if let Some(actor) = self.actors.as_mut_slice().get_mut(who) {
                if let Some(twin) = &mut actor.twin {
                    tell(twin, Event::Local(command));
                }
            }
            return Ok(());
        }
        match command {
            LocalCommand::Round(slot) => self.act(Command::Round {
                node: number,
                slot: slot.0,
            }),
            LocalCommand::Timer(slot) => self.act(Command::Timer {
                node: number,
                slot: slot.0,
            }),
            LocalCommand::Propose(slot, value) => self.act(Command::Propose {
                node: number,
                slot: slot.0,
                value,
            }),
            LocalCommand::Tick | LocalCommand::Ask(..) => Ok(()),
        }
    }
}
