//! History archives of Stellar networks: the entries of an `scp` file, and the stream of records in which they lie.
//!
//! What it promises:
//! - an entry is read and written as its XDR says (Stellar-ledger.x, RFC 4506), with the quorum sets and the envelopes of the crates
//!   below;
//! - of a stream each record is taken whole and in order, by exactly its bytes: its mark and its fragment (RFC 5531, section 11);
//! - what is read of a record is the one entry that its bytes encode, or the first reason why they encode none, with its place. A record
//!   that isn't read is passed over by its length;
//! - the end of a stream is told where nothing is left. A cut is told where bytes are left that are no whole record;
//! - bytes are one list of records, and one rest;
//! - a stream is read once and forward, so a pipe serves. After a refusal nothing more is read.
//!
//! Not claimed: that a file is what a network said. It is its publisher's word.
#![tactic(auto)]

pub mod below;
mod entries;
mod entry;
mod laws;

pub use entries::{Entries, Next, RECORD_LIMIT, Unread};
pub use entry::{Entry, MESSAGE_LIMIT, SET_LIMIT, decode, encode};
pub use laws::{
    a_stream_grows_by_a_record, a_stream_is_one_list_of_records, an_entry_is_its_value,
    no_record_begins_another,
};
