//! What crates above take of those that this one is built on: a module for each, by its name without `scp_`.

pub mod live_log {
    pub use scp_live_log::{Entry, EventLog, Kept, LogFault, MemoryLog, Wanted};
}
