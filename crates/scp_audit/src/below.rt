//! What crates above take of those that this one is built on: a module for each, by its name without `scp_`.

pub mod quorum {
    pub use scp_archive::below::quorum::SaneSet;
}

pub mod envelope {
    pub use scp_archive::below::envelope::{Pledges, Statement, newer};
}

pub mod vote {
    pub use scp_judged::below::vote::{StatementKind, kind_of_pledges};
}

pub mod device {
    pub use scp_archive::below::device::{ReportOut, ScriptIn};
}

pub mod archive {
    pub use scp_archive::Unread;
}

pub mod judged {
    pub use scp_judged::{Message, Said, Verdict, certified, contradict, is_backed, last_ballot};
}
