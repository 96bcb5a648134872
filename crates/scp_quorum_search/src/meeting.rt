//! What a search for two quorums without a common node comes to.

use scp_quorum::below::types::NodeId;
use std::collections::BTreeSet;

/// Whether each two quorums have a common node.
#[derive(Drop)]
pub enum Meeting {
    /// Two quorums that have none.
    Disjoint(BTreeSet<NodeId>, BTreeSet<NodeId>),
    /// Each two have one.
    Intersect,
    /// The tries were used up before either was known.
    Unknown,
}
