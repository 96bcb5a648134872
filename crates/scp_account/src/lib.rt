//! The account of a run: for each node all that came to it, what became of that, what it decided and why, and what it sent.
//!
//! What it promises:
//! - `account` returns one JSON document, which is determined by how the nodes ran, by their records and by what was kept of their steps: of
//!   nodes of a script that take one step after another, of those whose stages ran in threads, and of a live node;
//! - it leaves out no entry of a journal, no decision, no applied slot, and no key of a state that can be read;
//! - it leaves out nothing that was kept as sent or as received on a node's links, of which there are at most a hundred;
//! - what a watch keeps of a script's run is what happened in its steps (`a_run_is_kept_as_it_happened`);
//! - the entries that it names to justify a certificate are those by which the headline says what a certificate is.
#![tactic(auto)]

mod applied;
mod arrived;
pub mod below;
mod commands;
mod decisions;
mod digits;
mod document;
mod entries;
mod laws;
mod links;
mod node;
mod parked;
mod spoken;
mod taken;

pub use document::account;
pub use laws::{
    a_run_is_kept_as_it_happened, each_fate_of_a_script_is_of_its_command,
    what_counts_is_the_newest,
};
pub use node::Mode;
pub use scp_facts::{KeepingWatch, Kept, what_is_kept_is_what_happened};
pub use scp_line::{Report, Steps, reports_left, reports_of, sets_of};
