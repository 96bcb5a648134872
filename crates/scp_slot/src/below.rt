//! What crates above take of those that this one is built on: a module for each, by its name without `scp_`.

pub mod types {
    pub use scp_nominate::below::types::{
        Ballot, CAPACITY_LIMIT, ConnId, Fault, Hash, NODE_LIMIT, NodeId, Seq, SharedValue, Slot,
        VALUE_LIMIT, Value, WINDOW,
    };
}

pub mod quorum {
    pub use scp_nominate::below::quorum::{QuorumSet, SaneSet, greatest_quorum};
}

pub mod envelope {
    pub use scp_nominate::below::envelope::{
        Confirm, Envelope, Externalize, Nominate, Pledges, Prepare, SharedEnvelope,
        SharedStatement, Signature, Statement, ValueList, a_short_envelope_fits, decode, encode,
        newer,
    };
}

pub mod kv {
    pub use scp_nominate::below::kv::{KvState, ops_in_finds_the_list};
}

pub mod vote {
    pub use scp_nominate::below::vote::{Board, Claim, StatementKind, kind_of_pledges};
}

pub mod driver {
    pub use scp_nominate::below::driver::{Application, Driver, KvDriver, Level, place_of};
}

pub mod nominate {
    pub use scp_nominate::{Nominator, an_input_is_a_function, nodes_with};
}

pub mod ballot_rules {
    pub use scp_ballot::below::ballot_rules::the_rules_are_a_function;
}

pub mod ballot {
    pub use scp_ballot::Certified;
}
