//! The nodes whose quorums are asked for.

use scp_quorum::QuorumSet;
use scp_quorum::below::types::NodeId;

/// A node and its quorum set.
#[derive(Drop)]
pub struct Member {
    pub node: NodeId,
    pub set: QuorumSet,
}
