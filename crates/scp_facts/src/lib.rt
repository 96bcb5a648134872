//! What the steps of a node tell: facts, which a text or a document may show, and what is kept for accounts.
//!
//! What it promises:
//! - The facts of a step are one function of its event, its reply, and the node before and after it: what came and was refused, what was
//!   parked and why, what became of each message and command, what the node said, decided, applied, answered and sent.
//! - A watch tells exactly that of each step, in their order, as long as there is memory for it (`what_is_told_is_what_happened`).
//! - Exactly this is kept of each step for an account, in the order of the steps: what came over a link or from the host, what the slot stage
//!   took, and what was sent. A second watch keeps it (`what_is_kept_is_what_happened`).
//! - The commands that are kept as taken, each with its fate, are the first of those that the node was given, in their order
//!   (`each_fate_kept_is_of_its_command`).
#![tactic(auto)]

mod before;
mod behind;
pub mod below;
mod fact;
mod happening;
mod keeping;
mod laws;
mod standing;
mod taken;
mod watch;

pub use fact::{Fact, FactList, Telling, Told};
pub use happening::{Happening, Kept};
pub use keeping::KeepingWatch;
pub use laws::{
    a_step_is_told_as_it_happened, each_fate_kept_is_of_its_command, the_test_of_newer_tells,
    what_is_kept_is_what_happened, what_is_told_is_what_happened,
};
pub use standing::same_statement;
pub use taken::{happenings_at, ticks_of};
pub use watch::{Awaited, FactWatch};
