//! The facts of nodes' steps as lines that people read, and a watch that writes them step by step.
//!
//! What it promises:
//! - each fact has its lines, which the fact, the node as it is now, and the names determine (`write_told`);
//! - a message that was parked or taken is written as a whole; a statement that was sent is written by its kind and slot, any other message
//!   that was sent as a whole;
//! - the lines of all facts of a script's line are in the order of its steps (`write_facts`); what only came in isn't shown, and what was
//!   sent to several nodes in a row is shown once;
//! - a node is shown by its name, and the hash of a quorum set by the set's name, if it has one.
//!
//! What it promises of the watch (`TracingWatch`):
//! - unless it has failed, it writes the lines of a step's facts after the step, with the node as it then is, and keeps none of them;
//! - if it hasn't failed, what it wrote is exactly what happened in the steps, in order (`what_is_traced_is_what_happened`);
//! - if it has failed, it says why (`fault`): memory ran out, or the writer has failed. It then writes nothing more; no clause says that.
//!
//! We don't claim that what is written reaches anybody before the next step.
#![tactic(auto)]

pub mod below;
mod commands;
mod facts;
mod laws;
mod lines;
mod messages;
mod told;
mod watch;
mod words;

pub use commands::write_one;
pub use facts::Place;
pub use laws::what_is_traced_is_what_happened;
pub use messages::write_message;
pub use told::{Scene, write_facts, write_told};
pub use watch::TracingWatch;
