//! An actor is a node of the script, or the twin of a node that equivocates.

use scp_again::below::node::{Event, Node, Reply, Timer};

/// A timer that runs, and the time at which it fires.
#[derive(Clone, Copy, PartialEq, Eq)]
pub struct Armed {
    pub timer: Timer,
    pub time: u64,
}

/// A node of the script, or the twin of a node that equivocates.
#[derive(Drop)]
pub struct Actor {
    /// The number of the node.
    pub number: u8,
    /// The twin, or none if this is the script's own node.
    pub twin: Option<Node>,
    pub armed: Vec<Armed>,
    /// The highest slot for which it was asked to propose.
    pub proposed: u64,
    /// How many slots it applied, and since when.
    pub applied: usize,
    pub moved: u64,
}

/// Gives an event to a node. If the node has no room, it comes to rest first.
pub fn tell(node: &mut Node, event: Event) {
    let again = event.copy();
    if let Reply::Full = node.step(event) {
        scp_line::below::turn::settle(node);
        if let Ok(again) = again {
            node.step(again);
        }
    }
}
