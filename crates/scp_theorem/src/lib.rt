//! What is promised of a node, over plain lists: the ledger theorem, the headline that it comes to, and what a node sends.
//!
//! The ledger theorem (`KeepsLedger` in `specs/Kept.antt`) is about what was sent to a node, what its stages took and gave, and what follows.
//! It holds wherever each stage took in order what the one before it gave, and is, for what it took and gave, as its calls promise:
//! - Each connection's carried messages have at most one fate each: within each slot from the first on, in the order sent, none after the
//!   connection's end. Nothing is lost; if the connection was cut off, what is kept is a beginning of what was sent. What is held of it is
//!   messages, and what is live of it is so by its place.
//! - The node's own quorum set is sane. A slot whose quorum set is never found delays no other slot.
//! - Each fate has its cause among what came, and each taken envelope has its quorum set. Each verdict is the first that fits.
//! - The slots from the first on are applied once each, in order, each with its slot's one decision, certified by a quorum or named by a
//!   taken record. The state that they make is promised where it is read.
//!
//! It doesn't matter what moves the things from stage to stage: one caller, event by event, or threads.
//!
//! The headline (`Headline` in `specs/Headline.antt`) is for whoever reads nothing else. It holds wherever the ledger theorem does:
//! - Each connection's carried messages have at most one fate each: within each slot from the first on, in the order sent, none after its
//!   end. Each taken envelope has the quorum set that its hash names. What has no fate is held, or came after the end.
//! - What waits in a slot waits behind an envelope of that slot whose quorum set the node lacks. So a set that never comes delays no other slot.
//! - The slots from the first on are applied once each, in order, each with its slot's one decision, which rests on a quorum or on a taken record.
//!
//! `HeadlineWithState` says it with the state that is read (`Node::state`, `gather`): it is what the application makes of the applied values,
//! one after another. Of operation lists it is what their operations make of the empty map (`the_fold_is_what_lists_make`).
//!
//! What a node sends, and what each message rests on (its grounds, `specs/Grounds.antt`), is promised of all that a node's three stages hand
//! out for its links, whatever its peers sent and however its stages took turns:
//! - A request for a quorum set is for one that a peer's message names. An answer to such a request goes to a link over which it came live.
//! - A statement is the node's own, is sane, names the node's quorum set, and is newer than those of its slot and kind before it. An
//!   EXTERNALIZE is that of a decision. Only the slot stage hands statements out.
//! - A request for a record is one that a command asked for. A record is of an applied slot, with
//!   that slot's value, for a link over which it was asked for.
#![tactic(auto)]

pub mod below;
mod grounds;
mod headline;
mod laws;

pub use grounds::what_is_handed_out_may_be_sent;
pub use headline::{the_fold_is_what_lists_make, what_keeps_the_ledger_keeps_the_headline};
pub use laws::{there_are_runs, what_ran_keeps_the_ledger};
