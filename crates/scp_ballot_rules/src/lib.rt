//! The rules of the ballots of one slot (the SCP draft, in this project's profile), each alone: the state of a node's ballots, what
//! it says in that state, what a board shows of ballots, which ballots are looked at, what each rule may do, and what is owed.
//!
//! What it promises for each rule that accepts or confirms: in the rule's phase, it answers exactly what the protocol's rule makes of
//! the state. That is a new state, or `None` if the rule leaves the state as it is; then nothing further is accepted, or confirmed,
//! by it. The only refusal is `NoMemory`.
#![tactic(auto)]

pub mod accept_commit;
pub mod accept_prepared;
pub mod below;
pub mod boundaries;
pub mod candidates;
pub mod confirm_commit;
pub mod confirm_prepared;
mod finding;
mod laws;
mod own;
mod range;
mod state;
mod told;

pub use laws::{
    a_step_is_licensed, rest_owes_nothing, the_rules_are_a_function, the_rules_say_what_stands,
};
pub use own::{copy_some, counter, counter_of_pledges, pledges_of};
pub use state::{Phase, State};
pub use told::{local_of, local_set, me_of, new_board, put_ballot};
