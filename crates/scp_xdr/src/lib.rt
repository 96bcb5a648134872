//! XDR (RFC 4506): a reader over a slice, a writer into bytes, and values of any kind in between.
//!
//! What it promises, for every kind of XDR:
//! - a value is read from exactly the bytes that encode it, and each encoding is read;
//! - no encoding begins another, a value has one encoding, and bytes encode one value at most;
//! - bytes that encode nothing are refused by their first fault, with its place. A length or a count
//!   over its limit comes before missing bytes, and missing bytes before padding that isn't zero;
//! - a value is refused as too long exactly where it breaks a limit of its kind, or its encoding is
//!   over the caller's limit. This is tested before memory is taken;
//! - a refusal of a call of `Reader` or `Writer` leaves it as it was. `decode` answers out of memory only
//!   for bytes that encode a value. What reads or writes a part of a value, as `read_array` and the
//!   methods of `Xdr` do, may leave the reader or the writer within that part.
//!
//! Not claimed: where a refusal leaves the reader of such a part, nor what a refused writer of a part has appended.
#![tactic(auto)]

pub mod below;
mod padding;
mod reader;
mod room;
mod shared;
mod writer;
mod xdr;

pub use reader::Reader;
pub use room::{spend_opaque, spend_u32, spend_u64};
pub use writer::Writer;
pub use xdr::{
    Xdr, a_spelling_has_its_length, array_fits, check, decode, encode, encode_within, is_spelling,
    no_spelling_begins_another, numbered_fits, optional_fits, pass_array, pass_numbered,
    pass_optional, passing_is_reading_without_the_value, read_array, read_numbered, read_optional,
    spend_array, spend_optional, what_is_written_is_read_back, write_array, write_numbered,
    write_optional,
};
