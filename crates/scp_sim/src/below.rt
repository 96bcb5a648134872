//! What crates above take of those that this one is built on: a module for each, by its name without `scp_`.

pub mod sim_options {
    pub use scp_sim_options::Plan;
}
