//! The status of a slot's machine, in lines: its statements, those that it heard, and what its next step needs.
//!
//! What it promises:
//! - a node is shown by its name, and one without a name by the text of its id; in a script no node has a name, so all are shown by their
//!   numbers;
//! - the names of a script's quorum sets are those of the sets of its nodes, and of the sets that its lines send;
//! - the lines of a machine are those of the definition, from what its nominator and its balloter show;
//! - a machine is blank exactly if it heard and said nothing, has no proposal, and had exactly one round.
#![tactic(auto)]

pub mod below;
mod facts;
mod lines;
mod machine;
mod names;
mod needs;
mod sets;
mod statements;
mod texts;

pub use machine::{Place, is_blank, write_machine};
pub use names::{Names, NodeName};
pub use sets::write_set;
pub use statements::write_statement;
pub use texts::{write_nodes, write_slot_words, write_values};
