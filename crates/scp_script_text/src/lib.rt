//! Scripts of nodes and of one slot, whose messages, values, quorum sets and envelopes may be text. They are rewritten as scripts with
//! these in hex digits, and back. The same is done for single messages (this project's profile).
//!
//! What it promises:
//! - `rewrite` in hex digits writes each line with what it carries in hex digits, its only encoding, and keeps all other lines to the
//!   byte.
//! - `rewrite` as text does the reverse. It keeps hex digits that encode nothing, in a script of nodes below a comment that says why.
//! - A script that was made text is the same script again in hex digits. For nodes this holds if its hex digits are lower-case and encode
//!   something. For a slot it holds if each line is the same line in hex digits.
//! - A script is refused at its first line that can't be written in the form asked for, with the word and what was expected there.
//! - `decode_text` returns the text of the message that a word's bytes encode, with each of its fields. The word is hex digits or Base64
//!   (RFC 4648). If it is no message, the reason is reported.
//! - `encode_text` returns the bytes of the message that a text says, or reports the text's first bad word. What was decoded is encoded
//!   as the same bytes.
#![tactic(auto)]

pub mod below;
mod bytes;
mod decoding;
mod encoding;
mod hexing;
mod laws;
mod line;
mod nodes;
mod script;
mod slot;
mod slot_hexing;
mod slot_texting;
mod texting;

pub use bytes::Spelling;
pub use decoding::{DecodeError, decode_text};
pub use encoding::encode_text;
pub use laws::{
    decoding_comes_back, no_text_is_refused, none_is_refused, scripts_come_back,
    slot_scripts_come_back,
};
pub use nodes::{Carried, carries};
pub use scp_text::{BadLine, BadWord, Expected, ReadFault, WordFault};
pub use script::{Form, Kind, line_in, rewrite};
pub use slot::{SlotLine, is_slot_script};
