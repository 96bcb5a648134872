//! A picture of a run, drawn from the facts of its nodes: one page of HTML that needs no other file. Also the picture of a script's run.
//!
//! What it promises:
//! - Each fact that a trace shows has one element, in the section of its slot and the column of its node. The element has the lines that the
//!   trace has of the fact.
//! - An arrow goes to the node that took a message, from the node that sent it, at the place where that message came.
//! - Between the fixed parts of the page are exactly the elements of the facts.
//! - `play_told` plays a script one line after the other, as `scp_line::play` does. For each line it returns its number and then the facts of
//!   each of its steps. If a line isn't done, it returns all up to there.
//! - `draw` makes one page of it, with a section for each slot, where the nodes stand at the end, and the script's warnings.
#![tactic(auto)]

mod drawing;
mod element;
mod frame;
mod page;
mod playing;
mod section;

pub use drawing::{DrawFault, draw};
pub use playing::{ToldRun, play_told};
pub use scp_trace::{Depth, Traced, trace};
