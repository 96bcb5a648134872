//! Scripts for the state machine of one slot: what their lines say, and what the machine answers.
//!
//! What it promises: each call is safe and returns on every input. `play` returns what a machine answers that takes the script's inputs
//! in their order.
//!
//! Only tests show that lines say what they should (`examples/slots/`, `scripts/auditor_slot`), and which word of a bad line is reported.
//! Nor is it promised which error of the machine `play` returns: out of memory, or an envelope of another slot, which no script that was
//! read has.
#![tactic(auto)]

mod answers;
mod reasons;
mod script;
mod words;

pub use answers::play;
pub use reasons::reason_of;
pub use scp_device::{BadWord, Expected};
pub use script::{Script, Setup, read_slot_script};
