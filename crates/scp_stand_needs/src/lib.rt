//! What is missing for the next steps of a slot.
//!
//! What it promises: exactly the steps that are due are reported, each once with its need, ascending by value. For each need:
//! - its claim isn't accepted on that board, or, for a step that confirms, isn't confirmed there;
//! - its `votes` are exactly the nodes whose statements there vote for the claim or accept it, and its `accepts` exactly those that
//!   accept it;
//! - its `lacks` are exactly the members that the step doesn't count and that may still come to support the claim;
//! - its `against` are exactly the members that the step doesn't count and that can't come to support it;
//! - its `short` are exactly the counted nodes whose own sets the counted nodes don't satisfy.
#![tactic(auto)]

mod balloted;
mod nominated;
mod standing;
mod steps;

pub use balloted::needs_of_ballots;
pub use nominated::needs_of_nomination;
pub use steps::{Need, Step};
