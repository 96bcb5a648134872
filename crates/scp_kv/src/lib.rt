//! The operations that a value may hold, and the state that they build.
//!
//! What it promises:
//! - `is_ops` and `ops_of` take a value for an operation list exactly where it is one: at most 4,096 bytes that are the
//!   XDR (RFC 4506) of at most 64 operations, with nothing after it.
//! - `KvState` is a finite map from keys to values. `apply` sets a key or takes it out, and leaves all others.
//! - `apply_value` applies a value's operations in order; a value that is no operation list leaves the state as it was.
//! - `lines` gives the entries of the state in the order of the keys.
//! - `KvState::encode` gives the bytes of a state: the XDR of its entries, in the order of their keys. `KvState::decode` reads exactly
//!   such bytes, and refuses all others by a numbered fault.
//! - The only refusal of the other calls is `NoMemory`.
#![tactic(auto)]

pub mod below;
mod laws;
mod ops;
mod saved;
mod state;

pub use laws::{
    a_del_takes_its_key_alone, a_put_sets_its_key_alone, a_value_more_is_one_step_more,
    ops_in_finds_the_list, the_bytes_of_a_state_are_its_own,
};
pub use ops::{Op, is_ops, ops_of};
pub use state::{KvState, apply_value};
