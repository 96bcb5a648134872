//! Shorthand of scripts in text: one line that stands for many lines in the fixed form (this project's profile).
//!
//! What it promises:
//! - `expand` returns exactly the lines that each line of a script stands for, in their order, each with the number of its line in the
//!   script. A line that is no shorthand stays, to the byte.
//! - A shorthand with a bad word stays too. The first such is reported, with its first bad word and what was expected there.
//! - `hex` writes the expanded script in hex digits, or reports the first line that is refused, by its number in the script that was
//!   given.
#![tactic(auto)]

pub mod below;
mod expanded;
mod hexing;
mod laws;
mod placed;
mod reading;
mod said;
mod shorthand;
mod writing;

pub use expanded::{Expanded, LINE_LIMIT, expand};
pub use hexing::{HexError, hex};
pub use laws::lines_stay;
pub use placed::{PlacedLine, PlacedLines};
pub use reading::COUNT_LIMIT;
pub use said::Said;
pub use scp_script_text::{BadLine, BadWord, Expected};
pub use shorthand::Shorthand;
