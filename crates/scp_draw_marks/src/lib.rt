//! Where the facts of a run are drawn and how they look: each fact has a mark, in rows that go down with time. Also the pieces of a
//! picture as text.
//!
//! What it promises:
//! - the topic of a fact, its kind and slot, depends only on its message, command or decision;
//! - each fact of a node that a trace shows has one mark, in order;
//! - the mark of what a node took names the row in which its message came, if that row is in the same section;
//! - the line of a statement begins where its sender said it, if a mark says it there; what is taken later counts as sent;
//! - a mark's sign, word and class depend on what became of its message, and on what others decided;
//! - each piece of a picture is added exactly as its definition says: escaped text, lines, bars, rings and letters, at coordinates in
//!   hundredths of its width and in units of the letters' height.
#![tactic(auto)]

mod facts;
mod lines;
mod looks;
mod marks;
mod pieces;
mod topic;

pub use facts::{came_by, same_slot};
pub use lines::{is_taken, start_of};
pub use looks::{decided_count, is_against, is_sent, sign_of, word_of_kind, write_class};
pub use marks::{Act, Drawing, Mark, Pen, drawing_of};
pub use pieces::{
    write_across, write_bar, write_down, write_escaped, write_letters, write_line, write_ring,
};
pub use topic::{Kind, Letter, Topic};
