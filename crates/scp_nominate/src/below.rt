//! What crates above take of those that this one is built on: a module for each, by its name without `scp_`.

pub mod types {
    pub use scp_vote::below::types::{
        Ballot, CAPACITY_LIMIT, ConnId, Fault, Hash, NODE_LIMIT, NodeId, Seq, SharedValue, Slot,
        VALUE_LIMIT, Value, WINDOW,
    };
}

pub mod quorum {
    pub use scp_vote::below::quorum::{QuorumSet, SaneSet, greatest_quorum};
}

pub mod envelope {
    pub use scp_vote::below::envelope::{
        Confirm, Envelope, Externalize, Nominate, Pledges, Prepare, SharedEnvelope,
        SharedStatement, Signature, Statement, ValueList, a_short_envelope_fits, decode, encode,
        newer,
    };
}

pub mod kv {
    pub use scp_driver::below::kv::{KvState, is_ops, ops_in_finds_the_list};
}

pub mod vote {
    pub use scp_vote::{Board, Claim, Entry, StatementKind, Support, kind_of_pledges, stands};
}

pub mod driver {
    pub use scp_driver::{Application, Driver, KvDriver, Level, place_of};
}
