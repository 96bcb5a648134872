//! What crates above take of those that this one is built on: a module for each, by its name without `scp_`.

pub mod types {
    pub use scp_vote::below::types::{Ballot, Fault, Hash, NodeId, SharedValue, Slot, Value};
}

pub mod quorum {
    pub use scp_vote::below::quorum::{SaneSet, blocked, satisfied};
}

pub mod envelope {
    pub use scp_vote::below::envelope::{
        Confirm, Envelope, Pledges, SharedEnvelope, SharedStatement, Signature, Statement, newer,
    };
}

pub mod vote {
    pub use scp_vote::{Board, Claim, Entry, StatementKind, Support, kind_of_pledges, stands};
}
