//! What crates above take of those that this one is built on: a module for each, by its name without `scp_`.

pub mod types {
    pub use scp_live_log::below::types::{Fault, Hash};
}

pub mod device {
    pub use scp_live_log::below::device::{ReportOut, ScriptIn, read_script, write_text};
}

pub mod live_log {
    pub use scp_live_log::{Entry, EventLog, FileLog, Kept, LogFault, MemoryLog, Wanted};
}
