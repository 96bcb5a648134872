//! Messages, values and quorum sets as text that people can write, and back (this project's profile).
//!
//! What it promises:
//! - `message_of` gives the message that the words of a text say, within its limits, or the first word that is refused and
//!   what was expected there;
//! - `text_of` gives the text of a message, whose words say just this message; it refuses just what no message can be;
//! - `message_of_words` does the same for the words of a text, which `words` gives;
//! - `write_bytes` adds the text of a key, or of the value of a put;
//! - `value_of`, `text_of_value`, `set_of` and `text_of_set` do the same for values and quorum sets.
#![tactic(auto)]

pub mod below;
mod laws;
mod message;
mod pieces;
mod set;
mod single;
mod term;
mod value;

pub use laws::what_is_written_says_it;
pub use message::{message_of, message_of_words, text_of, words};
pub use scp_device::{BadLine, BadWord, Expected, ReadFault, WordFault};
pub use single::{set_of, text_of_set, text_of_value, value_of};
pub use term::Term;
pub use value::write_bytes;
