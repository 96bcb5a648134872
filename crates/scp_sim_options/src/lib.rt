//! What is simulated, and the options that say it, in a table like those of all commands.
//!
//! What it promises: each call is safe and returns. By their tables, a node is marked, and a partition keeps two nodes apart. Tests show
//! which words say what.
#![tactic(auto)]

mod options;
mod plan;
mod table;
mod words;

pub use options::{BadOption, SIM, SimAsked, Unplanned, sim_by};
pub use plan::{Crash, Partition, Plan, Proposers, Span, is_marked, parts};
pub use table::{Entry, Place, Word};
