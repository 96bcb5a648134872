//! What crates above take of those that this one is built on: a module for each, by its name without `scp_`.

pub mod types {
    pub use scp_types::{
        Ballot, CAPACITY_LIMIT, CARRIED_LIMIT, Capacities, ConnId, Fault, Hash, LIFE_LIMIT,
        LINK_LIMIT, NETWORK_LIMIT, NODE_LIMIT, NodeId, PEER_LIMIT, ROUND_LIMIT, SCRIPT_LIMIT, Seq,
        SharedValue, Slot, Stage, VALUE_LIMIT, Value, WINDOW,
    };
}
