//! What a search goes over, and what it sees on its way.

use crate::member::Member;
use scp_quorum::below::types::NodeId;
use std::collections::BTreeSet;

/// The members, the nodes that lie, and the nodes that quorums may have.
#[derive(Drop)]
pub struct Quest<'a> {
    pub members: &'a [Member],
    pub liars: &'a BTreeSet<NodeId>,
    pub all: &'a [NodeId],
}

/// What one look at chosen nodes, and at those that are left, shows.
#[derive(Drop)]
pub enum Look {
    /// No quorum between them has another one apart from it.
    Dead,
    /// Two quorums without a common node.
    Apart(BTreeSet<NodeId>, BTreeSet<NodeId>),
    /// No more than these nodes need be left.
    Left(Vec<NodeId>),
}
