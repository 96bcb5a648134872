//! Statements and envelopes of the protocol: how they are encoded, what they claim, when they are sane, and their order.
//!
//! What it promises:
//! - an envelope is read and written as its XDR says (RFC 4506). Bytes encode one envelope at most, and a copy equals
//!   its original;
//! - the set hash is the one that the statement names;
//! - an envelope of short values, short lists and a short signature, as own statements are, keeps the limits of its kind;
//! - a test is true exactly where its relation in specs/ holds, for every statement, sane or not, and takes no memory.
//!   The tests say what a statement votes for or accepts as prepared or as committed, which values it nominates,
//!   whether it is sane, and whether it is newer than another;
//! - newer is an order: no statement is newer than itself, what is newer than a newer one is newer, and no two are newer
//!   than each other;
//! - what is accepted as prepared is also accepted under a smaller compatible ballot. An EXTERNALIZE accepts
//!   what a CONFIRM of its value accepts whose nCommit is its counter.
#![tactic(auto)]

pub mod below;
mod claims;
mod codec;
mod copies;
mod laws;
mod lists;
mod order;
mod sanity;
mod shared;
mod short;
mod signature;
mod statement;

pub use codec::{decode, encode};
pub use laws::{
    accepted_prepared_goes_down, an_envelope_is_its_value,
    externalize_accepts_what_confirm_accepts, larger_is_longer, newer_is_an_order,
};
pub use lists::ValueList;
pub use order::newer;
pub use shared::{SharedEnvelope, SharedStatement};
pub use short::a_short_envelope_fits;
pub use signature::Signature;
pub use statement::{Confirm, Envelope, Externalize, Nominate, Pledges, Prepare, Statement};
