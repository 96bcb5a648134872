//! What crates above take of those that this one is built on: a module for each, by its name without `scp_`.

pub mod types {
    pub use scp_strkey::below::types::{Fault, Hash, NodeId, SharedValue, Value};
}

pub mod quorum {
    pub use scp_audit::below::quorum::SaneSet;
}

pub mod envelope {
    pub use scp_audit::below::envelope::{Pledges, Statement, newer};
}

pub mod vote {
    pub use scp_audit::below::vote::{StatementKind, kind_of_pledges};
}

pub mod device {
    pub use scp_audit::below::device::{ReportOut, ScriptIn};
}

pub mod archive {
    pub use scp_audit::below::archive::Unread;
}

pub mod judged {
    pub use scp_audit::below::judged::{
        Message, Said, Verdict, certified, contradict, is_backed, last_ballot,
    };
}

pub mod audit {
    pub use scp_audit::{Archive, Ledger, Record, an_archive_has_one_audit, read_archive};
}
