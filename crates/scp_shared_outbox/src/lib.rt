//! The outbox of a link behind its lock, and the ends by which threads reach it: one for each producer, one that leaves marks,
//! and one that is given what waits. And the outboxes of a few nodes, each a peer of all others: one outbox for each link.
//!
//! What an outbox promises, under every schedule:
//! - Once all ends are taken back, some single order of their calls, on one outbox, gives the same. It has each producer's
//!   messages, and the marks, in the order in which they came. What is left then is given back.
//! - So a message that is put is lost only if an outbox drops it, what is given was put or marked, and nothing is given twice.
//! - If only one producer puts statements, each newer than those of its slot and kind before it, those that are given are so too.
//! - Putting a message takes no memory and is never refused. A mark is refused if 16 wait, so never one of the first 16.
//! - What is given is a mark, or a message that fits a link.
//! - Each end may be moved to another thread.
//!
//! What the outboxes of all links promise, under every schedule:
//! - Each stage of a node gets an end of the outbox of each of its links, at the link's place. Each node gets, for each link to it, the end that
//!   leaves marks and the end that is given what goes over it.
//! - Once all these ends are taken back, what was given over a link came out of its outbox. The outbox took what its sender's three stages put,
//!   and some marks, in one order.
//!
//! Not claimed: that a call returns, when a waiting thread is woken, what an end's `overwritten` returns before the ends are taken back, and
//! which marks were left in all outboxes.
#![tactic(auto)]

mod desk;
mod ends;
mod laws;
mod making;
mod making_all;
mod outlets;
mod rule;
mod taking;
mod taking_all;
mod turn;

pub use ends::{Marker, Putter, Taker};
pub use laws::{
    ends_cross_threads, marks_are_given_in_order, statements_are_given_in_order,
    what_is_given_was_put,
};
pub use making::make;
pub use making_all::{Made, make_all};
pub use outlets::Outlets;
pub use scp_outbox::below::wire::{link_of, peer_at};
pub use taking::take_back;
pub use taking_all::take_all_back;
pub use turn::Turn;
