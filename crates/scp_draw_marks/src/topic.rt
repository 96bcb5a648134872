//! The topics of facts.

use scp_words::below::types::ConnId;

/// The kinds of facts, each of which a reader may hide.
#[derive(Clone, Copy, PartialEq, Eq)]
pub enum Kind {
    Nominate,
    Prepare,
    Confirm,
    Externalize,
    /// Records, and requests for them.
    Records,
    /// Quorum sets, and requests for them.
    Sets,
    /// Local commands.
    Commands,
    /// Decisions, and what was applied.
    Decisions,
    /// Connections and queues.
    Links,
}

/// A kind, and a slot if there is one.
#[derive(Clone, Copy)]
pub struct Topic {
    pub kind: Kind,
    pub slot: Option<u64>,
}

/// A numbered message that came: its connection and number, what it is about, and the row of the picture in which it came.
#[derive(Clone, Copy)]
pub struct Letter {
    pub conn: ConnId,
    pub seq: u64,
    pub topic: Topic,
    pub row: u64,
}
