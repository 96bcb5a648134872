//! What crates above take of those that this one is built on: a module for each, by its name without `scp_`.

pub mod types {
    pub use scp_shown::below::types::Fault;
}

pub mod device {
    pub use scp_shown::below::device::ReportOut;
}

pub mod history {
    pub use scp_shown::below::history::{Line, status_of};
}
