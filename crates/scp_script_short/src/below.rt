//! What crates above take of those that this one is built on: a module for each, by its name without `scp_`.

pub mod types {
    pub use scp_script_text::below::types::{Fault, SCRIPT_LIMIT};
}

pub mod device {
    pub use scp_script_text::below::device::{
        BadLine, BadWord, ReadFault, ReportOut, ScriptIn, read_script, write_text,
    };
}

pub mod script_text {
    pub use scp_script_text::{Form, Kind, is_slot_script, rewrite};
}
