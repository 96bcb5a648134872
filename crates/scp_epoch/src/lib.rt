//! The next epoch of a node's life: a node that begins where another one stands, and says the same.
#![tactic(auto)]

mod alike;
mod carrying;
mod epoch;
mod input;
mod laws;
mod same;

pub use epoch::{before_next, next};
pub use input::Input;
pub use laws::{
    a_life_is_one_ledger, what_a_life_sends_never_goes_back,
    what_begins_behind_and_stands_like_takes_up, what_is_said_the_same_is_the_same_messages,
};
pub use same::stands_like;
