//! Whether two quorum sets are equal, and whether one begins with given nodes.
ghost use Rattle.std.specs.Prelude.{◌≡◌, length, take};
ghost use Rattle.std.specs.Bool.{OnFalse, OnTrue};

use super::QuorumSet;
use scp_xdr::below::types::NodeId;
use std::simd::prelude::*;

impl QuorumSet {
    /// Whether the sets have the same threshold and the same entries in the same order.
    pub(crate) fn is_same(&self, other: &QuorumSet) -> bool
        ensures equal { OnTrue result (self.now ≡ other.now) }
        ensures different { OnFalse result (self.now ≡ other.now → ⊥) }
    {
        let mine = self.inner_sets.as_slice();
        let theirs = other.inner_sets.as_slice();
        if self.threshold != other.threshold || mine.len() != theirs.len() {
            return false;
        }
        if !are_same_nodes(self.validators.as_slice(), other.validators.as_slice()) {
            return false;
        }
        for (i, inner) in mine.iter().enumerate() {
            if !inner.is_same(&theirs[i]) {
                return false;
            }
        }
        true
    }

    /// Whether the set's own nodes begin with these.
    pub(crate) fn begins_with(&self, head: &[NodeId]) -> bool
        ensures { OnTrue result (take (length head.now) self.now.head.validators ≡ head.now) }
    {
        let nodes = self.validators.as_slice();
        nodes.len() >= head.len()
            && nodes.first() == head.first()
            && are_same_nodes(&nodes[..head.len()], head)
    }
}

/// Whether the lists are equal. Goes over all nodes without a branch, which costs half as much as
/// `==`: whoever asks expects them to be equal.
fn are_same_nodes(mine: &[NodeId], theirs: &[NodeId]) -> bool
    ensures equal { OnTrue result (mine.now ≡ theirs.now) }
    ensures different { OnFalse result (mine.now ≡ theirs.now → ⊥) }
{
    if mine.len() != theirs.len() {
        return false;
    }
    let mut unequal = u8x32::splat(0);
    for (i, node) in mine.iter().enumerate() {
        unequal |= bytes_of(node) ^ bytes_of(&theirs[i]);
    }
    unequal.to_array() == [0; 32]
}

fn bytes_of(node: &NodeId) -> u8x32
    ensures value { result ≡ node.now.0 }
    ensures len { length node.now.0 ≡ 32 }
{
    u8x32::from_array(node.0)
}
