//! What crates above take of those that this one is built on: a module for each, by its name without `scp_`.

pub mod types {
    pub use scp_theorem::below::types::{
        Ballot, Capacities, ConnId, Fault, Hash, LINK_LIMIT, NETWORK_LIMIT, NODE_LIMIT, NodeId,
        ROUND_LIMIT, SCRIPT_LIMIT, Seq, SharedValue, Slot, Stage, Value, WINDOW,
    };
}

pub mod quorum {
    pub use scp_theorem::below::quorum::{QuorumSet, SaneSet};
}

pub mod envelope {
    pub use scp_theorem::below::envelope::{
        Confirm, Envelope, Externalize, Nominate, Pledges, Prepare, SharedEnvelope, Signature,
        Statement, ValueList, encode, newer,
    };
}

pub mod kv {
    pub use scp_theorem::below::kv::KvState;
}

pub mod vote {
    pub use scp_theorem::below::vote::{StatementKind, kind_of_pledges};
}

pub mod driver {
    pub use scp_theorem::below::driver::{Application, Driver, KvDriver, place_of};
}

pub mod nominate {
    pub use scp_theorem::below::nominate::nodes_with;
}

pub mod slot {
    pub use scp_theorem::below::slot::SlotMachine;
}

pub mod wire {
    pub use scp_theorem::below::wire::{
        BoxedEnvelope, Bytes, Carried, Cause, Command, Inbound, LinkItem, Message, SideMessage,
        decode, encode, link_of, what_is_read_keeps_the_shape,
    };
}

pub mod outbox {
    pub use scp_theorem::below::outbox::what_is_given_was_handed_out;
}

pub mod fetch {
    pub use scp_theorem::below::fetch::Want;
}

pub mod pending {
    pub use scp_theorem::below::pending::{
        Becoming, DropCause, Pending, Ready, Why, each_command_passes_once,
    };
}

pub mod ledger {
    pub use scp_theorem::below::ledger::{
        CommandFate, Decision, Fate, JOURNAL_LIMIT, LAST_SLOT, Ledger, Onward, Origin, Quorum,
        SharedDecision, Verdict,
    };
}
