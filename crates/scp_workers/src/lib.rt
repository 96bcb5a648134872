//! The workers of a node: each runs a stage in a thread of its own, between the channels; and the couriers, each of which carries what waits in
//! an outbox to the link of its peer.
//!
//! What a worker promises, under every schedule:
//! - What a worker sent is what its stage gives for what it received. A reader: a link's items as they are read, each record of a batch by
//!   itself. The pending stage: what is ready by the rules. The slot stage: what the ledger gives on.
//! - A worker that ends well put into each link's outbox exactly what its stage handed out for it, in order. The pending stage hands out its
//!   replies, the slot stage what the ledger gives for peers, the applier its answers.
//! - A link's reader that was asked to keep what it receives has a copy of each item, in order.
//! - A worker ends well only after the end of each of its producers. Its own end is the last thing that it sends.
//! - A worker that failed goes on receiving. It ends only after the end of each of its producers, or once it found them gone. It sends its
//!   end, unless nobody receives from it any more.
//!
//! What a courier promises, under every schedule:
//! - All bytes that a courier sent encode messages.
//! - What it was given is what its end of the outbox gave. It hands that end on when it ends.
//! - It ends well only after it was given the mark Stop, once, as the last. What it sent is all that it was given before, in order: each mark
//!   as an opening or a close, each message by its encoding.
//! - Its link's end is handed on then. It opened the link as often as it says, and left it open or not.
//!
//! No clause says that a courier which failed goes on taking, and drops what it takes; the tests and the sweeps in threads show it.
//!
//! Before each send and after each receive a worker calls a gate, which may hold it up; with it tests choose a schedule.
//! Before a worker waits, and before a gate that may hold it, it wakes whoever waits for what it sent.
//!
//! Not claimed: that a call returns; what a gate is called with; when a sleeper is woken; what part a failed worker put into an outbox; and
//! that each message that was in an outbox is given, or when.
#![tactic(auto)]

mod apply;
pub mod below;
mod courier;
mod ending;
mod handing;
mod pend;
mod reading;
mod sending;
mod slot;
mod stage;
mod telling;
mod worker;

pub use apply::{ApplyEnded, ApplyWorker, Nothing, applier};
pub use courier::{Courier, CourierEnded};
pub use pend::{PendEnded, PendWorker, pending};
pub use reading::{ReaderEnded, ReaderWorker, ReadingStage, reader};
pub use slot::{SlotEnded, SlotStage, SlotWorker, slots};
pub use stage::{Given, Outs, Stage};
pub use worker::{Ended, Worker};
