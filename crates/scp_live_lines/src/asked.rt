//! What a line asks for.

use scp_core::Event;
use scp_core::below::types::Slot;

/// What a line of a host asks for.
#[derive(Drop)]
pub enum Asked {
    /// This event happens at the node.
    Event(Event),
    /// The node's own newest statements are written once more for the peer on this link.
    Again(u8),
    /// The node's state: its slots, links and timers.
    State,
    /// The node's report.
    Report,
    /// The node's status in each slot.
    Stand,
    /// What was applied from this slot on.
    Applied(Slot),
    /// Nothing: the line is empty or a comment.
    Nothing,
}
