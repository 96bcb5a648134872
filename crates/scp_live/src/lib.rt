//! A live node and its host: events and their effects, timers, the start from a configuration, and the replay of a log.
//!
//! What it promises:
//! - an event is played whole: its own step, and, if it is accepted, all further steps until the node rests and has sent all that waits
//!   for the peers of open links;
//! - what is written for an event is exactly this, in this order: why it was refused, or why its command changed nothing; what was sent;
//!   each new fate, decision and applied slot; the timers that no longer run, and those that run from now on;
//! - the call returns the digest of the lines of what was sent;
//! - the timers that a host was last asked to run are those that should run;
//! - how many entries of each peer changed nothing is kept as the journal grows, and is the count over the whole journal;
//! - the answer to `report` is a function of the node's record (`Report` of `scp_report`): its fates, applied slots and keys;
//! - what is sent once more to a peer is the own statements that the node emitted last and its requests, and nothing else;
//! - the ledger theorem holds of the node for all that it received and replied;
//! - the settings are what the TOML text says, and a node that begins with them has received no event;
//! - the entries of a log are played in order, each as its line says. An entry is refused only if its line says no event, or if something
//!   else is sent for it;
//! - a node that can't begin, or that failed, ends with the line and the status of its fault. If the writer fails, a part of the line is
//!   written, and the status is 3;
//! - take two runs of a node with one configuration that receive the same events, where no step fails the node: both have the same
//!   exchanges, and their nodes show the same; so the effects of each event, and what is sent on each link, are the same;
//! - a run that receives these events, and then more, goes on from where those runs ended, and goes back over no link, also where it sends
//!   once more;
//! - if no two links have the same name, a line of a host asks for at most one thing.
#![tactic(auto)]

mod acting;
mod again;
pub mod below;
mod check;
mod entries;
mod failing;
mod full;
mod idle;
mod laws;
mod live;
mod nolog;
mod questions;
mod settings;
mod telling;

pub use check::check_config;
pub use entries::{event_in, replay};
pub use failing::{fail, refuse};
pub use laws::{
    a_line_says_one_thing, further_events_go_on, the_same_events_give_the_same_episodes,
};
pub use live::Live;
pub use nolog::NoLog;
pub use settings::{begun, begun_from, header, settings_of};
pub use telling::name_of;
