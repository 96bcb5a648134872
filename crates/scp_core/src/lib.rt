//! One node of a ledger pipeline, of any application: up to seven links, or a hundred, with their readers, an inbox, a pending stage, a
//! slot stage and an applier, with bounded queues between them. One event is one step of one stage.
//!
//! What it promises for every list of events (`HoldsLedger` in `specs/Ledger.antt`), of a node that runs, and of one that failed as it was
//! before. `run` promises it, and so does `Node::step` with the law `each_node_holds_its_ledger`:
//! - Its links, queues, hands and stages keep the ledger as `scp_theorem` says. Each message has at most one fate, in order, and none is
//!   lost. Each fate and each verdict has its cause. Each slot has at most one decision, with what it rests on. Slots are applied in order,
//!   and the state is what the application makes of the applied values, one after another (`Node::state`).
//! - All that was sent over a link encodes messages that may be sent there. Each own statement is newer than those before it.
//!
//! For each event: its reply is that of the table of replies. A queue is full exactly at its capacity. What a stage hands out for a link is
//! put into that link's outbox, in order. A drain gives what is next.
//!
//! For two runs: the same events give the same replies, if no step runs out of memory (`what_two_runs_reply_is_the_same`).
#![tactic(auto)]

pub mod below;
mod config;
mod decider;
mod event;
mod handing;
mod laws;
mod link;
mod node;
mod outcome;
mod queue;
mod running;
mod said;
mod stage;
mod start;
mod stop;

pub use config::{Config, Peers};
pub use event::{Event, Reply};
pub use laws::{
    each_node_holds_its_headline, each_node_holds_its_ledger, each_step_says_why_it_failed,
    queues_hold_what_was_put_and_not_taken, what_holds_of_a_past_holds_with_one_step_more,
    what_is_handed_out_is_put, what_is_idle_is_settled, what_two_runs_reply_is_the_same,
    whatever_is_replied_fits,
};
pub use node::Node;
pub use outcome::Run;
pub use running::run;
pub use scp_theorem::below::driver::{Application, Driver, KvDriver, Level};
pub use scp_theorem::below::ledger::{
    CommandFate, Decision, Fate, Origin, SharedDecision, Verdict, timers,
};
pub use scp_theorem::below::pending::DropCause;
pub use scp_theorem::below::slot::Timer;
pub use scp_theorem::below::types::{CAPACITY_LIMIT, Capacities, LIFE_LIMIT};
pub use scp_theorem::below::wire::{Bytes, Cause, Command};
