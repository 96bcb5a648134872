//! Simulates nodes in virtual time from a seed. Chance decides what becomes of their messages, and a script records what happened.
//!
//! What it promises:
//! - the script begins with the plan's lines, of which none is bad; each later line is in digits, names nodes from 1 to 8, and neither
//!   says how many nodes there are nor gives a quorum set;
//! - so the script has as many nodes as the plan, and each has the quorum set that the plan gives it.
//!
//! We don't claim that each line is allowed after those before it, or that playing the script gives the same reports. A crate above
//! plays the script once more and checks both.
#![tactic(auto)]

mod acting;
mod actor;
pub mod below;
mod chance;
mod clocks;
mod due;
mod far;
mod first;
mod lines;
mod links;
mod links_now;
mod looking;
mod named;
mod pace;
mod run;
mod slots;
mod times;
mod travel;
mod voices;
mod world;

pub use first::first_script;
pub use pace::{Far, Pace};
pub use run::simulate;
pub use world::{Counts, SimFault, Simulated};
