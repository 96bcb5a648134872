//! What goes out of a node: an outbox for each link, and what was sent and waits there.
//!
//! What an outbox promises:
//! - Marks are given first, in order; at most 16 wait, and one more is refused.
//! - Then, while the link is live, requests and answers, in order; at most 64 wait, and one more overwrites the oldest.
//! - Then the newest statement of each slot and kind, in the order in which their slots and kinds came. At most 64 wait,
//!   and a statement of a slot and kind that doesn't wait yet then drops the first.
//! - What was given is gone, and each message that is given was put. It is never too long for a link.
//! - Putting a message takes no memory, waits for nobody and is never refused.
//!
//! What the outboxes of a node promise:
//! - What is handed out for a link is put into that link's outbox, in order, and what is for a link that isn't there is
//!   dropped. What is handed out fits a link by its type, so nothing is left out.
//! - What is next at a link is what that link's outbox gives, and the others stay.
//! - All that is given and sent was handed out. If each statement handed out is newer than those of its slot and kind before it,
//!   so is each that is given and sent, whatever marks are left.
//!
//! Not claimed: that what waits is ever sent. An outbox that threads share is in `scp_shared_outbox`.
#![tactic(auto)]

pub mod below;
mod laws;
mod mark;
mod outbox;
mod outboxes;
mod sending;

pub use laws::{
    one_statement_waits_of_each_slot_and_kind, what_is_given_is_gone, what_is_given_was_put,
};
pub use mark::{Mark, Out};
pub use outbox::{MARK_LIMIT, Outbox, WAITING_LIMIT};
pub use outboxes::Outboxes;
pub use sending::{
    what_is_given_was_handed_out, what_is_handed_out_adds_up, what_is_sent_was_handed_out,
};
