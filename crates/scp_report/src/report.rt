//! The record of a node, of which reports, accounts and notices are made.

use scp_core::below::kv::KvState;
use scp_core::below::quorum::QuorumSet;
use scp_core::below::types::{ConnId, Hash, NodeId, Seq};
use scp_core::below::wire::{Carried, LinkItem};
use scp_core::{CommandFate, Fate, SharedDecision};

/// The messages of a connection that wait at a node; there is at least one.
#[derive(Clone, Copy)]
pub struct Parked {
    pub conn: ConnId,
    /// How many they are.
    pub count: usize,
    /// The number of the first that waits for a quorum set, and the set's hash. `None` for a node that ran in threads: its threads don't leave
    /// that.
    pub first: Option<(Seq, Hash)>,
}

/// A link of a node.
#[derive(Clone, Copy)]
pub struct LinkReport {
    pub peer: NodeId,
    /// How many own statements for the peer were replaced or dropped before they were sent.
    pub overwritten: u64,
    /// How much waits to be sent to the peer. 0 for a node that ran in threads: its threads don't leave that.
    pub waiting: usize,
}

/// What is shown of a node: of one that takes one step after another, in a script or live, and of one whose stages ran in threads. Reports and
/// notices are made of this alone, and accounts of this and of what was kept of the node's steps.
#[derive(Drop)]
pub struct Report<'a> {
    /// Its number, from 1 on.
    pub node: u8,
    pub me: NodeId,
    /// Its own quorum set.
    pub set: &'a QuorumSet,
    /// Its links, in their order: at most a hundred.
    pub links: Vec<LinkReport>,
    pub journal: &'a [Fate],
    /// The connections with messages that wait, each once.
    pub parked: Vec<Parked>,
    /// Its decisions, in the order in which they were made. In threads they are those that it applied.
    pub decisions: &'a [SharedDecision],
    /// The decisions that it applied, of the slots 1, 2, ..
    pub applied: &'a [SharedDecision],
    /// The state that their values make. `None` if the node has failed.
    pub state: Option<&'a KvState>,
    /// The messages that wait, ascending by sender, life and number. Only threads leave them.
    pub messages: &'a [Carried],
    /// What became of its own commands but the ticks, in their order. Only threads leave that.
    pub commands: &'a [CommandFate],
    /// What came over each of its links, where that was to be kept. Only threads leave that.
    pub came: &'a [Option<Vec<LinkItem>>],
}
