//! What crates above take of those that this one is built on: a module for each, by its name without `scp_`.

pub mod ends {
    pub use scp_line::below::ends::{Gate, Moment, Place, Stage};
}

pub mod line {
    pub use scp_line::{
        FailsAt, MemoryIn, MemoryOut, PlayFault, Report, ReportOut, ScriptIn, check, line_of_fault,
        play, play_gated, show, status, write_settled, write_text,
    };
}
