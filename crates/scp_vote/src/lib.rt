//! Federated voting: the board of each node's newest statements, and which claims are accepted and confirmed on it.
//!
//! What it promises:
//! - a claim is accepted exactly where the nodes that vote for or accept it contain a quorum at this node, or those that
//!   accept it block the local set. It is confirmed exactly where those that accept it contain a quorum at this node
//!   (the SCP draft);
//! - the set that counts for a statement is chosen when it is put. It is the local set for this node's own, the node
//!   alone for another node's EXTERNALIZE, and else the set that was delivered with it;
//! - a certificate is the greatest quorum at this node inside the nodes that accept;
//! - a put that runs out of memory leaves the board as it was.
#![tactic(auto)]

pub mod below;
mod board;
mod claim;
mod statements;
mod table;

pub use board::Board;
pub use claim::{Claim, StatementKind, Support, kind_of_pledges, stands};
pub use statements::Entry;
