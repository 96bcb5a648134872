//! One slot of the SCP draft (in this project's profile): nomination and ballots together, the verdicts on what comes, and one
//! decision with its certificate.
#![tactic(auto)]

pub mod below;
mod judging;
mod machine;
mod newest;
mod output;
mod quorum;
mod state;
mod timers;

pub use machine::SlotMachine;
pub use newest::Heard;
pub use output::{Emitted, SlotInput, SlotOutput, Verdict};
pub use scp_ballot::Certified;
pub use timers::{Timer, add_timers};
