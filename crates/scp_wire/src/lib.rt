//! Link messages, as bytes and back, and what travels over a link.
//!
//! What it promises:
//! - `decode` gives the message that all of the bytes encode, or the first fault with its place.
//! - `encode` gives the one encoding of a message.
//! - Both refuse a message of over 65,536 bytes.
//! - `is_side_message` says, without memory, whether bytes encode a message about quorum sets: one that asks
//!   for a set, or answers.
//! - A `FittingMessage` is a message that breaks no limit. What is read breaks none, and its type keeps that.
//! - A `Carried` message is one that is numbered on its connection: an envelope, a request for a record, or a record.
//! - A `LinkReader` reads the items of one link. Carried messages are numbered 0, 1, 2, .. on each connection, a batch of
//!   records is read as its records, and each connection ends once, with its cause. What is read of a connection is what
//!   was sent on it, each message in its place, up to its end.
//! - A `Tail` is the sending end of one link. Its lives are 1, 2, .., each opened once and closed at most once, and bytes go
//!   only on the one that is open.
#![tactic(auto)]

pub mod below;
mod boxed;
mod carried;
mod codec;
mod fitting;
mod laws;
mod link;
mod message;
mod places;
mod reader;
mod side;
mod tail;

pub use boxed::BoxedEnvelope;
pub use carried::Carried;
pub use codec::{
    BATCH_LIMIT, decode, encode, is_side_message, reading_of_is_what_is_spelt,
    what_is_spelt_is_read,
};
pub use fitting::FittingMessage;
pub use laws::{
    a_beginning_keeps_the_shape, a_lane_follows_what_was_sent, each_number_names_its_message,
    parts_say_what_the_whole_says, what_fits_a_link, what_fits_breaks_no_limit,
    what_is_read_grows_with_the_items, what_is_read_is_what_was_sent, what_is_read_keeps_the_shape,
};
pub use link::{Bytes, Cause, Command, Inbound, LinkItem};
pub use message::{MESSAGE_LIMIT, Message};
pub use places::{link_of, peer_at};
pub use reader::LinkReader;
pub use side::SideMessage;
pub use tail::{Next, Tail};
