//! What crates above take of those that this one is built on: a module for each, by its name without `scp_`.

pub mod types {
    pub use scp_quorum::below::types::{
        Ballot, CAPACITY_LIMIT, CARRIED_LIMIT, Capacities, ConnId, Fault, Hash, LIFE_LIMIT,
        LINK_LIMIT, NETWORK_LIMIT, NODE_LIMIT, NodeId, PEER_LIMIT, ROUND_LIMIT, SCRIPT_LIMIT, Seq,
        SharedValue, Slot, Stage, Value, WINDOW,
    };
}

pub mod quorum {
    pub use scp_quorum::{QuorumSet, SaneSet, satisfied};
}

pub mod envelope {
    pub use scp_envelope::{
        Confirm, Envelope, Externalize, Nominate, Pledges, Prepare, SharedEnvelope, Signature,
        Statement, ValueList, decode, encode, newer, newer_is_an_order,
    };
}
