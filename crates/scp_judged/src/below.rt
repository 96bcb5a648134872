//! What crates above take of those that this one is built on: a module for each, by its name without `scp_`.

pub mod vote {
    pub use scp_ledger::below::vote::{StatementKind, kind_of_pledges};
}
