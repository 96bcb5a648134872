//! Messages that have no number on their connection.

use scp_quorum::QuorumSet;
use scp_quorum::below::types::Hash;

/// A message that asks for a quorum set, or answers that. These are the kinds of link messages that have no number.
#[derive(Drop)]
pub enum SideMessage {
    /// Asks for the quorum set with this hash.
    GetSet(Hash),
    /// A quorum set, as an answer.
    Set(QuorumSet),
    /// The answer of a node that has no quorum set with this hash.
    NoSet(Hash),
}
