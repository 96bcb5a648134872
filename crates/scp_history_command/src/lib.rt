//! The command that reports on history archives: what it writes where.
//!
//! What it promises:
//! - the text of the report on the archives is written to the output, and the status is the report's: 1 where an archive is cut, else 4 where there
//!   is a line but values and the last one, else 0;
//! - a failure is reported once, on the stream of errors, and its status is 3.
//!
//! Not claimed: which words ask for what.
#![tactic(auto)]

pub mod below;
mod order;
mod serving;

pub use order::HistoryOrder;
pub use serving::{failure_of, write_history};
