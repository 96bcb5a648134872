//! What is wrong with a document.

/// The part of a document in which a key is.
#[derive(Clone, Copy, PartialEq, Eq)]
pub enum Section {
    /// In the document itself.
    Whole,
    /// In the table of a quorum set.
    Set,
    /// In `CAPACITIES`.
    Queues,
}

/// A queue of a node.
#[derive(Clone, Copy, Debug, PartialEq, Eq)]
pub enum Queue {
    Link,
    Inbox,
    Ready,
    Decided,
}

/// What is wrong in the table of a quorum set.
#[derive(Debug, Drop)]
pub enum SetWrong {
    /// The set may not have this key.
    Stray(String),
    /// `THRESHOLD` isn't a number from 1 to the count of the entries.
    Threshold,
    /// `VALIDATORS` isn't an array.
    Validators,
    /// The value at this index isn't a name from `NODES`.
    Validator(usize),
    /// `INNER_SETS` isn't an array of tables.
    InnerSets,
    /// There are inner sets at a fifth level.
    TooDeep,
}

/// What is wrong with a document.
#[derive(Debug, Drop)]
pub enum Wrong {
    /// The document may not have this key.
    Stray(String),
    /// `NODES` isn't a table.
    Nodes,
    /// This key of `NODES` isn't a name.
    Name(String),
    /// In `NODES`, the value at this name isn't an id.
    Id(String),
    /// In `NODES`, this name has the same id as the other one.
    SameId { name: String, other: String },
    /// `NODE` isn't a name from `NODES`.
    Node,
    /// `PEERS` isn't an array of at most 100 values.
    Peers,
    /// The value at this index of `PEERS` isn't a name from `NODES`.
    Peer(usize),
    /// The peer at this index is also at an earlier index.
    PeerTwice(usize),
    /// The peer at this index is the node itself.
    PeerIsNode(usize),
    /// `QUORUM_SET` isn't a table.
    Set,
    /// This is wrong in the set at the end of a path; an empty path means `QUORUM_SET` itself. Each number of the path is the index of
    /// an inner set in the set before it.
    InSet { inner: Vec<usize>, wrong: SetWrong },
    /// A node is in the quorum set twice.
    NodeTwice,
    /// The quorum set has more than 1,000 nodes.
    ManyNodes,
    /// The quorum set can't be encoded as XDR in at most 65,532 bytes.
    LongSet,
    /// `CAPACITIES` isn't a table.
    Capacities,
    /// `CAPACITIES` may not have this key.
    StrayCapacity(String),
    /// In `CAPACITIES`, the value for this queue isn't a number from 1 to 1,024.
    Capacity(Queue),
}
