//! What crates above take of those that this one is built on: a module for each, by its name without `scp_`.

pub mod types {
    pub use scp_quorum::below::types::{Fault, Slot};
}

pub mod quorum {
    pub use scp_quorum::{QuorumSet, SaneSet};
}

pub mod envelope {
    pub use scp_envelope::{Pledges, Statement, newer};
}

pub mod device {
    pub use scp_device::{ReportOut, ScriptIn};
}
