//! What archives show of a ledger, line by line.
//!
//! What it promises:
//! - of the entries of a ledger, of one archive or of several, the newest ballot statement of each node is heard;
//! - each value that is heard has exactly one line: who says it last by which statement, for whom it is certified, and who is backed;
//! - several values that are certified are told as a split, and who is against the only one is told;
//! - each message that doesn't count, each node that is silent, and each two messages that contradict each other are told;
//! - the lines and their order follow from the entries: the same entries have the same lines.
#![tactic(auto)]

pub mod below;
mod contradictions;
mod joined;
mod laws;
mod lines;
mod nodes;
mod part;
mod parts;
mod sides;
mod silent;
mod spoken;
mod tally;
mod value_lines;
mod values;

pub use laws::entries_have_one_list_of_lines;
pub use lines::ledger_lines;
pub use part::Part;
