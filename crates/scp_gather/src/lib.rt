//! What the threads of a node left, gathered; and what travels between nodes whose stages run in threads.
//!
//! What it promises, under every schedule, if each worker of a node ended well:
//! - The ledger theorem holds of what was sent over the node's links and of what came to it. Nothing is left in a queue or a hand.
//! - What came are the items of each link, as they are read, and the node's own commands, each in order.
//! - For each of those commands, except ticks, it reports in order what the ledger said of it, as the ledger was when it took the command.
//! - What is parked waits for its quorum set. A connection's fates, followed by its parked messages, are what was sent on it.
//! - The stages put into each link's outbox what they handed out for it, and it may be sent there.
//! - What came over a link is reported too, if its reader kept it. It is all that was sent over the link.
//!
//! If a worker failed, `gather` returns the first stage whose worker did. How much a node holds while it runs is a law of its own: of each
//! channel, each hand, what leaves and what is parked.
//!
//! What it promises of a link, if a node's stages put into its outbox what may be sent over it, and a courier carried what came out of that outbox:
//! - All that went over the link is messages that the node may send, each statement newer than those of its slot and kind before it.
//! - All that is read of the link is the sender's own: messages that it may send, each statement newer than those of its slot and kind before it.
//! - No connection ends because of bytes that are no message.
//!
//! Not claimed: that a worker ends.
#![tactic(auto)]

pub mod below;
mod ends;
mod gathering;
mod laws;
mod travel;

pub use ends::{Ends, first_failed, has_failed};
pub use gathering::{Gathering, NodeReport, gather};
pub use laws::{
    a_node_holds_so_much, what_ends_well_is_gathered, what_is_reported_keeps_the_headline,
};
pub use travel::{what_is_carried_is_sent_out, what_is_read_is_the_senders_own};
