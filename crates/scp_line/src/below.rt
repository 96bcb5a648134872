//! What crates above take of those that this one is built on: a module for each, by its name without `scp_`.

pub mod types {
    pub use scp_turn::below::types::{
        Capacities, ConnId, Fault, Hash, NODE_LIMIT, NodeId, ROUND_LIMIT, SCRIPT_LIMIT, Seq, Slot,
        Stage, Value,
    };
}

pub mod quorum {
    pub use scp_turn::below::quorum::{QuorumSet, SaneSet};
}

pub mod envelope {
    pub use scp_turn::below::envelope::{Envelope, Pledges, SharedEnvelope, Statement, encode};
}

pub mod kv {
    pub use scp_turn::below::kv::KvState;
}

pub mod wire {
    pub use scp_turn::below::wire::{Carried, Cause, Command, LinkItem, Message, decode, encode};
}

pub mod pending {
    pub use scp_turn::below::pending::DropCause;
}

pub mod ledger {
    pub use scp_turn::below::ledger::{
        CommandFate, Decision, Fate, Origin, Quorum, SharedDecision, Verdict,
    };
}

pub mod node {
    pub use scp_turn::below::node::{
        Cause, CommandFate, DropCause, Event, Fate, KvDriver, Node, Origin, Reply, Verdict,
        each_node_holds_its_ledger,
    };
}

pub mod turn {
    pub use scp_turn::{Event, KvDriver, Network, Node, Reply, Watch, link_of, settle};
}

pub mod ends {
    pub use scp_threaded_script::below::ends::{Gate, Moment, Place, Stage};
}

pub mod gather {
    pub use scp_threaded_script::below::gather::{NodeReport, what_is_reported_keeps_the_headline};
}

pub mod device {
    pub use scp_report::below::device::write_numbered;
}

pub mod script {
    pub use scp_report::below::script::{
        Command, capacities_of, count_of_nodes, id_from, peers_of_node, set_of_node,
    };
}

pub mod words {
    pub use scp_report::below::words::{
        word_of_cause, word_of_drop, word_of_fate, word_of_verdict, write_hex, write_numbers,
    };
}

pub mod text {
    pub use scp_report::below::text::{Term, message_of, value_of};
}

pub mod report {
    pub use scp_report::{Report, json_report, reports_of, settled_report, text_report};
}
