//! What crates above take of those that this one is built on: a module for each, by its name without `scp_`.

pub mod facts {
    pub use scp_facts::{Fact, FactWatch, Telling, Told, a_step_is_told_as_it_happened};
}
