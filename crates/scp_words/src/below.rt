//! What crates above take of those that this one is built on: a module for each, by its name without `scp_`.

pub mod types {
    pub use scp_ledger::below::types::{ConnId, Fault, Hash, NodeId, Seq, Slot, Value};
}

pub mod quorum {
    pub use scp_ledger::below::quorum::QuorumSet;
}

pub mod envelope {
    pub use scp_ledger::below::envelope::{
        Envelope, Pledges, SharedEnvelope, Statement, ValueList,
    };
}

pub mod wire {
    pub use scp_ledger::below::wire::{Cause, Message, SideMessage, decode};
}

pub mod pending {
    pub use scp_ledger::below::pending::{Becoming, DropCause, Why};
}

pub mod ledger {
    pub use scp_ledger::{CommandFate, Quorum, Verdict};
}
