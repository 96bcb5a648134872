//! What is due to happen, and when.

use scp_again::below::node::Timer;
use scp_again::below::types::{Fault, Slot};
use scp_again::below::wire::Bytes;
use std::alloc::Global;
use std::collections::BTreeMap;

/// What is due. An actor is given by its index: first the nodes in their order, and then the twins of those that equivocate.
#[derive(Drop)]
pub enum Due {
    /// A message that was sent in this life of its link arrives at its receiver.
    Arrives {
        from: u8,
        to: u8,
        life: u64,
        bytes: Bytes,
    },
    /// A timer fires.
    Rings {
        who: usize,
        timer: Timer,
    },
    /// A value is proposed.
    Proposes {
        who: usize,
        slot: Slot,
    },
    /// A node checks whether there is any progress.
    Looks {
        node: u8,
    },
    /// Links are opened and closed, as the plan says for this time.
    Relinks,
    /// A node sends once more what it sent before, and messages that can't be judged.
    Floods {
        node: u8,
    },
}

/// All that is due, ordered by time. What is due at the same time keeps the order in which it was added.
#[derive(Drop)]
pub struct Agenda {
    dues: BTreeMap<(u64, u64), Due>,
    count: u64,
}

impl Agenda {
    /// An empty agenda.
    pub fn new(alloc: Global) -> Agenda {
        Agenda {
            dues: BTreeMap::new(alloc),
            count: 0,
        }
    }

    /// Adds something that is due at this time.
    pub fn put(&mut self, time: u64, due: Due) -> Result<(), Fault> {
        self.dues.insert((time, self.count), due)?;
        self.count = self.count.saturating_add(1);
        Ok(())
    }

    /// The time of the next thing that is due.
    pub fn next_time(&self) -> Option<u64> {
        match self.dues.first_key_value() {
            Some((key, _)) => Some(key.0),
            None => None,
        }
    }

    /// Takes out the next thing that is due, if it is due at this time.
    pub fn next_at(&mut self, time: u64) -> Option<Due> {
        if self.next_time()? != time {
            return None;
        }
        match self.dues.pop_first() {
            Some((_, due)) => Some(due),
            None => None,
        }
    }
}
