//! What crates above take of those that this one is built on: a module for each, by its name without `scp_`.

pub mod node {
    pub use scp_line::below::node::{Cause, DropCause, Fate, Node, Verdict};
}

pub mod gather {
    pub use scp_line::below::gather::NodeReport;
}

pub mod report {
    pub use scp_line::below::report::{
        Report, json_report, reports_of, settled_report, text_report,
    };
}

pub mod line {
    pub use scp_line::played_reports;
}

pub mod script_text {
    pub use scp_script_check::below::script_text::{Form, Kind, rewrite};
}

pub mod script_check {
    pub use scp_script_check::{
        BadLine, ReadFault, Script, lint, read, text_of_warnings, warnings,
    };
}
