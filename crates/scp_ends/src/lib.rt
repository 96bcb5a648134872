//! The channels between the workers of a node, each under a rule; and the gate, which says where a worker is to whoever watches it.
//!
//! What it promises, under every schedule:
//! - What each producer sent comes out in its order, each thing once and its end last. Nothing else comes out.
//! - A channel holds no more items than its capacity.
//! - A send that is handed back changes nothing. An end whose stop found nobody says so.
//! - A link carries what a link's tail may send: lives 1, 2, .., each opened once and closed at most once.
//! - Each decision that goes on to the applier is for one of the 16 slots from the lowest undecided one on.
//!
//! What is put is there at once. A sleeper is woken late, so few things cost a switch between threads.
//!
//! Not claimed: that a call returns, when a sleeper is woken, when it is found that the other end is gone, or what a gate is called with, and when.
#![tactic(auto)]

mod channels;
mod commands;
mod ends;
mod gate;
mod item;
mod make;
mod rule;
mod tail;
mod waiting;
mod window;

pub use channels::{
    DecidedRx, DecidedTx, InboxRx, InboxTx, LinkRx, ReadyRx, ReadyTx, decided, inbox, link, ready,
};
pub use commands::{LocalDone, LocalTx};
pub use ends::{Done, Gone, Nobody, Rx, Tx, Unheard};
pub use gate::{Counter, Gate, Moment, Open, Place, Stage};
pub use item::{Item, View};
pub use rule::{Any, InOrder, Law};
pub use tail::{LinkDone, LinkTx, NotSent};
pub use window::InWindow;
