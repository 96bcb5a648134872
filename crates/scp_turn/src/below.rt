//! What crates above take of those that this one is built on: a module for each, by its name without `scp_`.

pub mod types {
    pub use scp_core::below::types::{
        Ballot, Capacities, ConnId, Fault, Hash, LINK_LIMIT, NODE_LIMIT, NodeId, ROUND_LIMIT,
        SCRIPT_LIMIT, Seq, Slot, Stage, Value, WINDOW,
    };
}

pub mod quorum {
    pub use scp_core::below::quorum::{QuorumSet, SaneSet};
}

pub mod envelope {
    pub use scp_core::below::envelope::{
        Confirm, Envelope, Externalize, Nominate, Pledges, Prepare, SharedEnvelope, Statement,
        ValueList, encode, newer,
    };
}

pub mod kv {
    pub use scp_core::below::kv::KvState;
}

pub mod vote {
    pub use scp_core::below::vote::{StatementKind, kind_of_pledges};
}

pub mod driver {
    pub use scp_core::below::driver::{KvDriver, place_of};
}

pub mod nominate {
    pub use scp_core::below::nominate::nodes_with;
}

pub mod slot {
    pub use scp_core::below::slot::SlotMachine;
}

pub mod wire {
    pub use scp_core::below::wire::{
        Bytes, Carried, Cause, Command, Inbound, LinkItem, Message, SideMessage, decode, encode,
    };
}

pub mod fetch {
    pub use scp_core::below::fetch::Want;
}

pub mod pending {
    pub use scp_core::below::pending::{Becoming, DropCause, Pending, Ready, Why};
}

pub mod ledger {
    pub use scp_core::below::ledger::{
        CommandFate, Decision, Fate, LAST_SLOT, Onward, Origin, Quorum, SharedDecision, Verdict,
    };
}

pub mod node {
    pub use scp_core::{
        Application, Bytes, Capacities, Cause, Command, CommandFate, Config, Decision, Driver,
        DropCause, Event, Fate, KvDriver, Level, Node, Origin, Peers, Reply, SharedDecision, Timer,
        Verdict, each_node_holds_its_ledger,
    };
}
