//! The report on history archives: its lines, and the text of each.
//!
//! What it promises:
//! - each line has exactly one text, which ends with a line feed;
//! - a node is shown by its address or, where numbers are asked for and the first 31 bytes of its id are 0, by the last one;
//! - a value is shown by the first 16 digits of its SHA-256;
//! - each record that isn't read, each archive that is cut and each message that doesn't count has exactly one line, in their order;
//! - the status is 1 where an archive is cut, else 4 where there is a line but values and the last one, else 0.
#![tactic(auto)]

pub mod below;
mod line;
mod lists;
mod messages;
mod names;
mod nodes;
mod records;
mod side;
mod sides;
mod status;
mod text;

pub use line::{Counts, Line, Place, StatementWord, Sums};
pub use lists::NodeList;
pub use messages::add_message_lines;
pub use names::{word_of_statement, word_of_verdict, write_value, write_why};
pub use nodes::write_node;
pub use records::add_archive_lines;
pub use side::Side;
pub use sides::SideList;
pub use status::status_of;
pub use text::write_line;
