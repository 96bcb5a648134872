//! The names, values, ballots and faults that all crates share.
//!
//! What it promises:
//! - names, values and ballots are equal by their numbers and bytes. Values are ordered by their bytes, where a proper
//!   prefix is less than the whole, ballots by counter and then value, connections by sender, receiver and life;
//! - `Value` is its bytes: what goes in comes out. A `SharedValue` is its value, which ballots share;
//! - a copy equals the original, and is refused only when memory runs out;
//! - each fault has its number, 1 to 14;
//! - `Capacities` of a node's queues are in range exactly if each is 1 to 1,024.
//!
//! The limits that several crates name are here, once.
//!
//! Not claimed: that nodes, hashes, slots and numbers of messages are ordered by their bytes or numbers. They are, by their derived orders,
//! but no clause says so.
#![tactic(auto)]

mod ballot;
mod bytes;
mod capacities;
mod fault;
mod laws;
mod limits;
mod names;
mod shared;
mod value;

pub use ballot::Ballot;
pub use capacities::Capacities;
pub use fault::{Fault, Stage};
pub use laws::{
    ballots_are_ordered_by_counter_then_value, connections_are_ordered_by_sender_receiver_life,
};
pub use limits::{
    CAPACITY_LIMIT, CARRIED_LIMIT, LIFE_LIMIT, LINK_LIMIT, NETWORK_LIMIT, NODE_LIMIT, PEER_LIMIT,
    ROUND_LIMIT, SCRIPT_LIMIT, VALUE_LIMIT, WINDOW,
};
pub use names::{ConnId, Hash, NodeId, Seq, Slot};
pub use shared::SharedValue;
pub use value::Value;
