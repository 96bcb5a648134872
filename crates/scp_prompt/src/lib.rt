//! What a person gives a program at a prompt: the words of a command line, files and streams, and the places of words in them.
//!
//! What it promises:
//! - A file that can't be opened is a reader that fails. A reader or a writer that failed says why.
//! - The line that reports a bad word names the input, the line and the word, shows the text at that place, and says what was expected.
//! - If memory ran out, that line is still written, and says `something` in place of the text.
//!
//! Not claimed: which words ask for what, and the texts of the help, of completions and of the manual. Tests show those.
#![tactic(auto)]

mod asked;
mod bytes;
mod commands;
mod completions;
mod failure;
mod manual;
mod places;
mod stream;

pub use asked::{
    Asked, Coding, Conversion, ConversionAsked, HistoryAsked, Kind, LogAsked, Mode, NodeAsked,
    NodeTask, QuorumsAsked, Shape, Source, Task, Unasked, Wanted, Way, read_words,
};
pub use bytes::{LONG_LIMIT, read_within, write_bytes};
pub use failure::{Failure, Stop, status, write_failure, write_settled};
pub use places::{Place, write_place};
pub use scp_device::{BadLine, BadWord, Expected};
pub use scp_sim_options::SimAsked;
pub use stream::{Cause, Stream, Unopened};
