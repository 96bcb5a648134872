//! Messages and their parts alone, an envelope, a statement, a quorum set or a value: their bytes as text, and back, line by line.
//!
//! What it promises:
//! - the text of a line of bytes is that of what they encode, and says exactly this; the word of a line of text says the bytes of what it says;
//! - a line that isn't converted is refused by its first bad word, or by the first fault of its bytes, with what was expected there;
//! - what was decoded is encoded as the same bytes again;
//! - as JSON, a line's text or word is a string of an object with the line's number.
#![tactic(auto)]

pub mod below;
mod bytes;
mod decoding;
mod encoding;
mod laws;
mod line;
mod objects;
mod refusal;

pub use laws::what_is_decoded_is_encoded_again;
pub use line::{Outcome, converted};
pub use refusal::{Refusal, write_refused};
