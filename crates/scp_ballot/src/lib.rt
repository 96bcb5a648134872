//! The ballot protocol of one slot (the SCP draft, in this project's profile): the five rules, the loop over them, and the
//! three inputs.
//!
//! What it promises for each input of a `Balloter` that isn't refused:
//! - The own statement after it is licensed by the one before it, and is no step back. Nothing is owed then, unless there is
//!   `more`.
//! - The own statement is emitted exactly where it is sane and newer than the one emitted before.
//! - A decision is given exactly where the own statement becomes an EXTERNALIZE, with the certificate of its commit. The own
//!   statement stays as it is from then on.
//! - After a composite there is a ballot. A timer raises its counter, unless that is the greatest or the statement's kind changes.
//! - A refusal leaves the balloter failed, and from then on nothing changes.
//!
//! Not claimed: what a failed balloter shows besides `failed`.
#![tactic(auto)]

mod balloted;
mod balloter;
pub mod below;
mod giving;
mod inputs;
mod machine;
mod next;
mod raise;

pub use balloted::{Balloted, Certified};
pub use balloter::Balloter;
