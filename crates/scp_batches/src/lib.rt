//! Splits an input into lines, in the batches in which reads bring them.
//!
//! What it promises:
//! - each line that has ended is given exactly once and in order, whatever the sizes of the reads; it is given whole, unless it is
//!   longer than the limit;
//! - of a line that is longer than the limit only a front is given and held, which is one byte longer than the limit;
//! - a last line without a line end is never given;
//! - an input can be split into lines in only one way.
#![tactic(auto)]

pub mod below;
mod laws;
mod line;
mod lines;

pub use laws::an_input_is_split_in_one_way;
pub use line::{LINE_LIMIT, Line};
pub use lines::Lines;
