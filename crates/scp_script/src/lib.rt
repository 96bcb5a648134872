//! Scripts for linked nodes: what their lines say, and what they say of their nodes.
//!
//! What it promises:
//! - `parse` returns exactly the commands that the text says, or the number of its first bad line. If a text has a bad line and no `set`
//!   line, that line is reported, never that memory ran out.
//! - `count_of_nodes`, `capacities_of`, `peers_of_node` and `set_of_node` return what the commands say of the nodes. These are their
//!   number, the capacities of their queues, the peers of each, and its quorum set, which is sane.
//! - `bytes_of` returns the bytes that a word of hex digits encodes.
#![tactic(auto)]

pub mod below;
mod bytes;
mod command;
mod judging;
mod known;
mod line;
mod links;
mod nodes;
mod parsing;
mod reading;
mod reason;
mod words;

pub use bytes::odd_bytes;
pub use command::Command;
pub use nodes::{capacities_of, count_of_nodes, id_from, peers_of_node, set_of_node};
pub use parsing::parse;
pub use reading::Reading;
pub use scp_device::{BadLine, BadWord, Expected, ReadFault, WordFault};
pub use words::{bytes_of, skipped};
