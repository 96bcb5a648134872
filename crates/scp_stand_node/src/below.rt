//! What crates above take of those that this one is built on: a module for each, by its name without `scp_`.

pub mod types {
    pub use scp_turn::below::types::{Capacities, ConnId, Fault, Hash, NodeId, Slot, Stage};
}

pub mod quorum {
    pub use scp_turn::below::quorum::QuorumSet;
}

pub mod node {
    pub use scp_turn::below::node::{Cause, Fate};
}

pub mod turn {
    pub use scp_turn::{
        Command, Event, KvDriver, NoWatch, Node, Watch, each_node_holds_its_headline,
        each_node_holds_its_ledger,
    };
}

pub mod device {
    pub use scp_stand_slot::below::device::{
        FailsAt, MemoryIn, MemoryOut, ReportOut, ScriptIn, write_text,
    };
}

pub mod script {
    pub use scp_stand_slot::below::script::{Command, capacities_of, count_of_nodes, parse};
}

pub mod stand_slot {
    pub use scp_stand_slot::{Names, NodeName};
}
