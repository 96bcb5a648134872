//! What the queues of a node hold.
ghost use Rattle.std.specs.Prelude.{◌≤◌, ◌↔◌, IsTrue};
ghost use Rattle.scp_types.specs.Range.{IsInRange, AreInRange};

use crate::limits::CAPACITY_LIMIT;

/// The most items that each queue of a node holds: each link's queue, the inbox, the ready and the decided queue. Each number is 1 to 1,024.
#[derive(Clone, Copy, PartialEq, Eq)]
pub struct Capacities {
    /// What travels over one link.
    pub link: u16,
    /// What was read and waits for the pending stage.
    pub inbox: u16,
    /// What is ready for the slot stage.
    pub ready: u16,
    /// Decisions that wait for the applier.
    pub decided: u16,
}

impl Capacities {
    /// Whether each is 1 to 1,024.
    pub fn are_in_range(&self) -> bool
        ensures { IsTrue result ↔ AreInRange self.now }
    {
        is_in_range(self.link)
            && is_in_range(self.inbox)
            && is_in_range(self.ready)
            && is_in_range(self.decided)
    }
}

fn is_in_range(capacity: u16) -> bool
    ensures { IsTrue result ↔ IsInRange capacity }
{
    capacity >= 1 && capacity <= CAPACITY_LIMIT
}
