//! The outcome of a simulated run, from its script, which is played once more; and the sums over many runs.
//!
//! What it promises:
//! - two quorums of a plan's nodes that have no node in common are shown, exactly if there are any;
//! - a script that was simulated is played, and its reports are those that the simulation saw, byte for byte;
//! - the outcome is determined by the nodes that played the script: how many slots were closed, for which of them nodes applied
//!   different values, which nodes applied fewer, and what became of messages and connections;
//! - the report of a run has what the simulation counted, and the outcome of its script with the worst finding;
//! - the report's script is the one that is written to a file, byte for byte, and is that of a simulation of the plan;
//! - if not all slots were closed, all that is added after the counts is the status of the script's nodes;
//! - a script that is shortened has some of its lines, in their order, and comes to the same finding; nodes that are stuck are so for the
//!   same needs. It is put beside the whole script. The lines that say who the nodes are and how they are linked all stay.
//!
//! We don't claim that nodes agree or make progress, which is counted, or that a shorter script is the shortest.
#![tactic(auto)]

mod apart;
mod fates;
mod lines;
mod needs;
mod outcome;
mod replaying;
mod running;
mod shrinking;
mod standing;
mod table;

pub use apart::plan_apart;
pub use outcome::{Finding, Judging};
pub use replaying::ReplayFault;
pub use running::{BadSets, Told, ToldFault, bad_sets, judging_of, sets_of, tell_run};
pub use scp_sim::{Far, Pace};
pub use shrinking::{shorten, shrunk};
pub use standing::add_stand;
pub use table::{Table, write_row};
