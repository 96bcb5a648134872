//! What crates above take of those that this one is built on: a module for each, by its name without `scp_`.

pub mod types {
    pub use scp_core::below::types::{
        Ballot, Fault, Hash, LINK_LIMIT, NODE_LIMIT, NodeId, SCRIPT_LIMIT, Slot, Value, WINDOW,
    };
}

pub mod envelope {
    pub use scp_core::below::envelope::{
        Confirm, Envelope, Externalize, Nominate, Pledges, Prepare, SharedEnvelope, Statement,
    };
}

pub mod kv {
    pub use scp_core::below::kv::KvState;
}

pub mod vote {
    pub use scp_core::below::vote::StatementKind;
}

pub mod driver {
    pub use scp_core::below::driver::{Application, KvDriver, place_of};
}

pub mod slot {
    pub use scp_core::below::slot::SlotMachine;
}

pub mod wire {
    pub use scp_core::below::wire::{BoxedEnvelope, Bytes, Command, Message, encode};
}

pub mod outbox {
    pub use scp_core::below::outbox::what_is_given_was_handed_out;
}

pub mod ledger {
    pub use scp_core::below::ledger::{Decision, Fate, Origin, SharedDecision, Verdict};
}

pub mod node {
    pub use scp_core::{
        Application, Command, Config, Driver, Event, Fate, KvDriver, Node, Peers, Reply,
        SharedDecision, Timer, timers, what_holds_of_a_past_holds_with_one_step_more,
        what_two_runs_reply_is_the_same,
    };
}
