//! A turn of one node: each of its stages does one step. Its rest: turns, until one moves nothing. An episode: what comes of an event that a
//! host gives to a node; the host is the program that has the sockets, the clock and the proposals. And a network: nodes that send to each
//! other, each in its turn.
//!
//! What turns promise:
//! - A turn is one event for each stage, in order. It returns whether any of them moved something.
//! - A settle is turns until one moves nothing, or 100,000. It returns exactly whether it came to the still one.
//! - A watch is shown each step, before it and after it, in order, and nothing else.
//! - The ledger theorem holds of the node for all that it heard.
//! - If nothing moved in a node's turn and the node didn't fail in it, the node is at rest: it holds nothing in any queue or hand.
//! - The commands that a node's slot stage took in a run are the first of those that the node was given, each once, in order.
//!
//! What an episode promises:
//! - An event that isn't accepted is one step of the node, and nothing follows from it.
//! - After an event that is accepted, the node comes to rest. Then all that waits for the peer of an open link goes out, link by link in
//!   order, and nothing over a link that isn't open.
//! - What went out is returned, each message with its link, in order.
//! - If a step fails the node, that is the answer: a full journal if a step found it full, else out
//!   of memory. A node that had failed before answers `Failed`.
//! - The ledger theorem holds of the node for all that it heard, refused or not.
//!
//! What a network promises:
//! - A network has at most 101 nodes. The peers of each are the others, in the order of their numbers.
//! - An event that a node is offered is one step of that node, and of no other.
//! - A settle is rounds. In a round, every node, in the order of their numbers, has each of its stages do one step. Then it drains the next
//!   message for each other node whose link from it is open and has room, unless the caller drives that link. What is drained is sent there
//!   at once, and accepted. No message is lost between two nodes, doubled or overtaken.
//! - It ends with a round in which nothing moved and nothing was sent, after 100,000 rounds, or when a node failed.
//! - The ledger theorem holds of each node, for all that it heard.
#![tactic(auto)]

pub mod below;
mod draining;
mod laws;
mod linked;
mod network;
mod playing;
mod resting;
mod rounds;
mod sending;
mod stepping;
mod turns;
mod watch;
mod went_out;

pub use laws::{each_command_is_taken_in_its_turn, what_is_still_is_at_rest};
pub use network::Network;
pub use playing::{Played, play, play_with};
pub use scp_core::below::wire::link_of;
pub use scp_core::{
    Command, CommandFate, Config, Decision, Event, Fate, KvDriver, Node, Origin, Peers, Reply,
    SharedDecision, Verdict, each_node_holds_its_headline, each_node_holds_its_ledger,
};
pub use sending::Sending;
pub use turns::{settle, step_with, turn, turn_with, work};
pub use watch::{NoWatch, Watch};
pub use went_out::what_went_out_was_sent;
