//! The applier of a node applies decisions in the order of their slots.
//!
//! What each `Applier::take` promises:
//! - The slots from its first on are applied once each, in order, each with its decision. The state is what
//!   the application makes of their values, one after another, from the state on with which the applier began.
//! - What was taken and isn't applied yet is buffered. The next slot never is, so at most 15 decisions are, those of the 15 slots after it.
//! - A request for a slot's record is answered exactly if the slot is applied.
//! - Whoever takes a ledger's decisions in their order never meets a slot that can't be taken.
//! - Two appliers that show the same and take the same give the same answer and apply the same.
//! - An applier that failed keeps its applied list; its state can't be read.
#![tactic(auto)]

mod applier;
pub mod below;
mod laws;
mod slots;

pub use applier::Applier;
pub use laws::{
    the_next_decision_can_be_taken, what_holds_of_an_applier_holds_with_one_thing_more,
    what_is_applied_is_a_function,
};
