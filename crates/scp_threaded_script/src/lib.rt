//! The nodes of a script, each of whose stages runs in a thread of its own, and what the lines do to them.
//!
//! What it promises, under every schedule, if no stage failed:
//! - Each node holds its ledger, of what was sent to it.
//! - Each link that the script drives carried exactly what the lines put on it, whole and in order.
//! - Each node's commands are those of the lines, in order.
//! - Each other link was opened and closed as often as the lines say, and all that went over it encodes messages.
//! - Each link between two nodes that the script doesn't drive carried, in order, what the sender's outbox gave of what the sender's stages
//!   handed out. Exactly that reached the receiver. So each message has its reason in what the sender took, wrote, decided and applied, and
//!   each statement is newer than those before it of its slot and kind (`Travels`).
//! - If the reports are asked to keep it, each has all that came over each of its node's links.
//!
//! It also returns which `wait` lines gave up, and for each link how many own statements were lost, as its outbox counts them.
//!
//! If the run fails, the first failed stage of the first node that has one is named. Else the fault says what a line or a link lacked, or out
//! of memory.
//!
//! Not claimed: that all threads have ended whenever a call returns. By the library's word, a scope of threads gives its result only then.
//! When a `wait` line gives up: only that it is a `wait` line. How many statements are lost.
#![tactic(auto)]

pub mod below;
mod gate;
mod lines;
mod outboxes;
mod running;

pub use gate::{Counting, MOST_YIELDS};
pub use lines::command_of;
pub use running::{NodeFault, Ran, run_lines};
pub use scp_threaded_node::{NodeReport, what_is_reported_keeps_the_headline};
