//! What happens at a node, as seen from outside: what is kept for its account.

use scp_turn::CommandFate;
use scp_turn::below::wire::{Bytes, Command};

/// What came to a node, went from it, or was taken by its slot stage, in one step. A link has the number of the peer it comes from.
#[derive(Drop)]
pub enum Happening {
    /// The peer opened this link.
    Opened(u8),
    /// These bytes came over this link.
    Came(u8, Bytes),
    /// The peer closed this link.
    Closed(u8),
    /// This command came into the inbox.
    Given(Command),
    /// The slot stage took what the journal's next entry records.
    Entered,
    /// The slot stage took this command, and this became of it. A `Tick` never comes this far.
    Obeyed(Command, CommandFate),
    /// These bytes were sent to the peer of this link.
    Sent(u8, Bytes),
}

/// What happened at the node of this number.
#[derive(Drop)]
pub struct Kept {
    pub node: u8,
    pub happening: Happening,
}
