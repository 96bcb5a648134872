//! What crates above take of those that this one is built on: a module for each, by its name without `scp_`.

pub mod ends {
    pub use scp_threaded_node::below::ends::{Gate, Moment, Open, Place, Stage};
}

pub mod gather {
    pub use scp_threaded_node::below::gather::{NodeReport, what_is_reported_keeps_the_headline};
}
