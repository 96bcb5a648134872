//! What crates above take of those that this one is built on: a module for each, by its name without `scp_`.

pub mod types {
    pub use scp_history::below::types::{Fault, Hash, NodeId, SharedValue};
}

pub mod device {
    pub use scp_history::below::device::{ReportOut, ScriptIn};
}

pub mod archive {
    pub use scp_history::below::archive::Unread;
}

pub mod judged {
    pub use scp_history::below::judged::Verdict;
}

pub mod audit {
    pub use scp_history::below::audit::{
        Archive, Ledger, Record, an_archive_has_one_audit, read_archive,
    };
}

pub mod history {
    pub use scp_history::{
        Counts, Line, Place, Side, StatementWord, Sums, add_archive_lines, status_of,
        word_of_statement, word_of_verdict, write_line, write_node, write_value, write_why,
    };
}
