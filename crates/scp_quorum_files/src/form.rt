//! The two forms of JSON in which others publish quorum sets.

/// Who wrote the JSON.
#[derive(Clone, Copy, Debug, Drop)]
pub enum Form {
    /// stellar-core: a set is `{"t": 2, "v": ["A", {"t": .., "v": ..}]}`. A node is `{"node": "A", "qset": ..}`.
    Core,
    /// stellarbeat: a set is `{"threshold": 2, "validators": ["A"], "innerQuorumSets": [..]}`. A node is
    /// `{"publicKey": "A", "quorumSet": ..}`.
    Beat,
}

/// A kind of object in such a document.
#[derive(Clone, Copy, Debug, Drop)]
pub enum Part {
    /// The document itself.
    Whole,
    /// What stellar-core has at `transitive`.
    Transitive,
    /// A node.
    Node,
    /// A quorum set.
    Set,
    /// An organisation.
    Organisation,
}
