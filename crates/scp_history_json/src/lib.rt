//! The lines of a report on archives as JSON: an object for each.
//!
//! What it promises: each line has exactly one object, which says what its text says, and the text of an object ends with a line feed.
#![tactic(auto)]

mod objects;
mod pieces;
mod written;

pub use written::write_objects;
