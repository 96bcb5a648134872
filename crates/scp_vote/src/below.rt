//! What crates above take of those that this one is built on: a module for each, by its name without `scp_`.

pub mod types {
    pub use scp_quorum::below::types::{
        Ballot, CAPACITY_LIMIT, ConnId, Fault, Hash, NODE_LIMIT, NodeId, Seq, SharedValue, Slot,
        VALUE_LIMIT, Value, WINDOW,
    };
}

pub mod quorum {
    pub use scp_quorum::{QuorumSet, SaneSet, blocked, greatest_quorum, satisfied};
}

pub mod envelope {
    pub use scp_envelope::{
        Confirm, Envelope, Externalize, Nominate, Pledges, Prepare, SharedEnvelope,
        SharedStatement, Signature, Statement, ValueList, a_short_envelope_fits, decode, encode,
        newer,
    };
}
