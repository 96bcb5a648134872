//! What an epoch of a node's life begins with: the first lines of its log, and the file of what ended epochs applied.
//!
//! What it promises:
//! - the first lines of an epoch's log are read exactly as they are written, and nothing else is read as such;
//! - a refusal says which line is the first that doesn't fit;
//! - a log that doesn't begin so is that of a node without epochs: epoch 1, from slot 1;
//! - of the file of what was applied, the lines of slots below an epoch's first are kept, and what a crash left behind them is cut off.
#![tactic(auto)]

mod applied;
pub mod below;
mod head;
mod reading;
mod words;

pub use applied::Applied;
pub use head::{FirstLine, Head};
pub use reading::{HeadFault, epoch_in, read_beginning, read_head, slot_in};
