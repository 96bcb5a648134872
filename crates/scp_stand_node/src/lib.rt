//! The status of a node, in lines: its lowest slot, its links, its slots, what it wants and holds, and what waits in queues.
//!
//! What it promises: `write_stand` adds to a text exactly the lines of the definition, from what the node shows, whatever the ids of the
//! node and its peers. It fails only when memory runs out. For a node of a script the lines of the script say why a message wasn't sent,
//! and whether a round or a timer began a slot. A node that plays in no script has none.
#![tactic(auto)]

pub mod below;
mod holding;
mod links;
mod others;
mod slots;
mod stand;

pub use stand::{Lines, Seen, write_stand};
