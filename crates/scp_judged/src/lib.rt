//! Judges what a history archive says of a ledger: which messages count, for whom a value is certified and backed, and which statements
//! contradict each other.
//!
//! What it promises:
//! - each message has its verdict: that it counts, or the first reason why it doesn't. Messages have one list of verdicts;
//! - a ledger is certified for a node exactly where a node that heard what counts could decide so: by the certificate of a node's own
//!   decisions, unchanged;
//! - a value is backed for a node exactly where some quorum at it accepts a commit of the value at one counter, each member counted by the
//!   set that it names: no EXTERNALIZE is taken at its word;
//! - a node is against a value exactly where its last ballot statement has another one;
//! - two messages are told as a contradiction exactly where they are of one node, slot and kind, and neither equal nor newer than the other.
//!
//! Not claimed: that a message was said, or that all of them are there. A file is its publisher's word, and no signature is checked.
#![tactic(auto)]

mod backed;
pub mod below;
mod certificates;
mod contradicts;
mod insane;
mod laws;
mod messages;
mod newest;
mod sets;
mod verdict;

pub use backed::is_backed;
pub use certificates::{Certificate, certified, is_against, last_ballot};
pub use contradicts::{contradict, contradictions};
pub use insane::InsaneSet;
pub use laws::{messages_have_one_list_of_verdicts, what_is_named_grows};
pub use messages::{Judged, Message, judge};
pub use sets::{Known, Sets};
pub use verdict::{Said, Verdict};
