//! What a line of a script says.

use scp_wire::Bytes;
use scp_wire::below::quorum::QuorumSet;
use scp_wire::below::types::{Capacities, Value};

/// What a line of a script says. Nodes are named by their numbers, 1 to 8. A link is named by the node that it goes from and the node
/// that it goes to, which is another one.
#[derive(Drop)]
pub enum Command {
    /// The queues of each node have these capacities.
    Caps(Capacities),
    /// There are `count` nodes. The quorum set of each has the threshold `quorum`, at most `count`, over all of them.
    Nodes { count: u8, quorum: u8 },
    /// The node of this number has this quorum set.
    Set { node: u8, set: QuorumSet },
    /// The link is opened: its next connection begins.
    Open { from: u8, to: u8 },
    /// The open link is closed.
    Close { from: u8, to: u8 },
    /// These bytes are sent on the open link.
    Send { from: u8, to: u8, bytes: Bytes },
    /// A value, of any length, is proposed for the nomination of a slot at the node of this number.
    Propose { node: u8, slot: u64, value: Value },
    /// One more round of the slot's nomination begins at the node of this number.
    Round { node: u8, slot: u64 },
    /// The time of the slot's ballot has run out at the node of this number.
    Timer { node: u8, slot: u64 },
    /// Time passes at the node of this number.
    Tick(u8),
    /// A node asks another for the record of a slot.
    Ask { from: u8, to: u8, slot: u64 },
    /// The nodes come to rest.
    Settle,
    /// In threads, this many things are to reach the applier of the node of this number. Where there are no threads, the nodes come to
    /// rest instead.
    Wait { node: u8, things: u64 },
    /// The node of this number is to be reported.
    Report(u8),
}
