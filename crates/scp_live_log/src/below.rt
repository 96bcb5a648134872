//! What crates above take of those that this one is built on: a module for each, by its name without `scp_`.

pub mod types {
    pub use scp_device::below::types::{Fault, Hash};
}

pub mod device {
    pub use scp_device::{ReportOut, ScriptIn, read_script, write_text};
}
