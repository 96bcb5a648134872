//! The audit of a history archive: its records are read, and its ledgers judged, one after another.
//!
//! What it promises:
//! - an archive's bytes are read whole: each record in its order, and where they end within a record, that is told;
//! - of each record there is a ledger or the first reason why it isn't read;
//! - a ledger's messages are judged by the quorum sets of its archive so far, those of its own entry included. Of two sets of one hash
//!   the first counts;
//! - bytes have one audit.
//!
//! Not claimed: that a file is what a network said. It is its publisher's word.
#![tactic(auto)]

mod archive;
pub mod below;
mod laws;
mod ledger;

pub use archive::{Archive, Record, read_archive};
pub use laws::an_archive_has_one_audit;
pub use ledger::Ledger;
