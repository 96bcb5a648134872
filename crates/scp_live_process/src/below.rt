//! What crates above take of those that this one is built on: a module for each, by its name without `scp_`.

pub mod types {
    pub use scp_stand_node::below::types::{Capacities, ConnId, Fault, NodeId, Stage};
}

pub mod quorum {
    pub use scp_stand_node::below::quorum::QuorumSet;
}

pub mod node {
    pub use scp_stand_node::below::node::{Cause, Fate};
}

pub mod ends {
    pub use scp_account::below::ends::{Gate, Moment, Place, Stage};
}

pub mod device {
    pub use scp_stand_node::below::device::{FailsAt, MemoryIn, MemoryOut, ScriptIn};
}

pub mod script {
    pub use scp_stand_node::below::script::{Command, capacities_of, count_of_nodes, parse};
}

pub mod line {
    pub use scp_account::below::line::{
        FailsAt, MemoryIn, MemoryOut, PlayFault, Report, ReportOut, ScriptIn, check, line_of_fault,
        play, play_gated, show, status, write_settled, write_text,
    };
}

pub mod live_log {
    pub use scp_batches::below::live_log::{EventLog, MemoryLog, Wanted};
}

pub mod live_config {
    pub use scp_live::below::live_config::{ConfigFault, SetWrong, Settings, Wrong, write_fault};
}

pub mod live {
    pub use scp_live::{NoLog, check_config, settings_of};
}
