//! The hints on a script.

use scp_script::below::types::NodeId;
use std::collections::BTreeSet;

/// What in a script hardly works as it was meant, as far as its lines show it.
#[derive(Drop)]
pub enum Hint {
    /// This line's quorum set names a node that the script doesn't have.
    Unknown {
        line: usize,
        node: NodeId,
    },
    /// This line's command is for a slot outside its node's window, whatever the nodes did before.
    Outside {
        line: usize,
        slot: u64,
    },
    /// This line is the first `send` on a link whose sender has turns of its own, and nothing lets the sender speak. What it would say
    /// doesn't travel there.
    Muted {
        line: usize,
        from: u8,
        to: u8,
    },
    /// These two quorums of the nodes have no node in common.
    Disjoint {
        one: BTreeSet<NodeId>,
        other: BTreeSet<NodeId>,
    },
}
