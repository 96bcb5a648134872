//! The slot stage of a node: what became of each message, and which slots are decided.
//!
//! What each `Ledger::take` promises:
//! - What was delivered, dropped or closed adds exactly one entry to the journal. Nothing else adds one.
//! - The verdict on a message or a command is the first that fits. It is judged by the
//!   journal, the decisions and the asked links as they were before.
//! - An open slot's machine runs on its envelopes and commands. Its board has the last fresh statements in the journal. It votes for nothing
//!   that nobody proposed. It is dropped once its slot has a decision.
//! - A machine's decision has its certificate over the journal. A record decides an open slot if
//!   its link was asked for that slot. No slot has two decisions.
//! - Each decision is for one of the 16 slots from the lowest undecided one on, so an applier can take them in order.
//! - What goes out fits a link, and a decision's value has at most 4,096 bytes.
//! - Each decision goes on to the applier as it was made, and so does each request for a record. What a machine emits goes to all peers. The
//!   request of a fresh ask goes to its link.
//! - The answer to a command says what became of it: it did something, or why it did nothing. A Tick has no such answer.
//! - A ledger that failed keeps its journal and its decisions.
#![tactic(auto)]

pub mod below;
mod journal;
mod laws;
mod ledger;
mod lists;
mod quorum;
mod running;
mod shared;
mod state;
mod took;
mod window;

pub use journal::{Asking, Decision, Fate, JOURNAL_LIMIT, Origin, Verdict};
pub use laws::{
    a_beginning_keeps_the_window, the_journal_stands_for_what_was_taken,
    what_holds_of_a_ledger_holds_with_one_thing_more, what_is_given_on_keeps_the_window,
};
pub use ledger::Ledger;
pub use quorum::Quorum;
pub use running::timers;
pub use shared::{DECIDED_LIMIT, SharedDecision};
pub use took::{CommandFate, Onward, Outgoing, OutgoingList, Took};
pub use window::LAST_SLOT;
