//! What crates above take of those that this one is built on: a module for each, by its name without `scp_`.

pub mod ballot_rules {
    pub use scp_ballot_rules::{counter_of_pledges, the_rules_are_a_function};
}
