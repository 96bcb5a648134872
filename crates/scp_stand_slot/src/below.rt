//! What crates above take of those that this one is built on: a module for each, by its name without `scp_`.

pub mod device {
    pub use scp_script::below::device::{
        FailsAt, MemoryIn, MemoryOut, ReportOut, ScriptIn, write_text,
    };
}

pub mod script {
    pub use scp_script::{Command, capacities_of, count_of_nodes, parse};
}

pub mod text {
    pub use scp_text::Term;
}
