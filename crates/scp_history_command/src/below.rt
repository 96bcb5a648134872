//! What crates above take of those that this one is built on: a module for each, by its name without `scp_`.

pub mod ledgers {
    pub use scp_ledgers::{Archives, Span};
}
