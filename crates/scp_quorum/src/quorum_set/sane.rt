//! Which quorum sets are sane.
ghost use Rattle.std.specs.Prelude.{◌≡◌, ◌↔◌, ◌+◌, ◌≤◌, ◌<◌, ◌++◌, IsTrue, IfSome, IfNone, length, take};
ghost use Rattle.std.specs.List.{IsDistinct};
ghost use Rattle.std.specs.Ordering.{eq_by_cmp};
ghost use Rattle.scp_quorum.specs.NodeSet.{node_cmp};
ghost use Rattle.std.specs.List.Sorted.{IsStrictlySortedBy};
ghost use Rattle.scp_quorum.specs.Sane.{IsSane, IsInRange, all_nodes};

use super::QuorumSet;
use scp_xdr::Xdr;
use scp_xdr::below::types::NodeId;

/// How many nodes a sane quorum set may have in all (this project's profile).
const MAX_NODES: usize = 1_000;

/// The nodes are sorted on the stack, so that no memory is asked for. A set of at most this many nodes gets a small array
/// there, since an array is zeroed before use.
const FEW: usize = 32;

/// How many bytes the encoding of a sane quorum set may have, so that a message of 65,536 bytes can
/// hold it after its discriminant (this project's profile).
const MAX_BYTES: usize = 65_532;

impl QuorumSet {
    /// Whether the set is sane (this project's profile). At every level the threshold is from 1 to the
    /// number of entries. No node occurs twice, and there are at most 1,000 nodes in all, at most 4
    /// levels of inner sets, and at most 65,532 bytes of XDR. Takes no memory besides the stack. With
    /// n nodes it makes some n log n comparisons.
    pub fn is_sane(&self) -> bool
        ensures { IsTrue result ↔ IsSane self.now }
    {
        if !self.fits() {
            return false;
        }
        if !self.is_in_range() {
            return false;
        }
        if !self.has_few_distinct_nodes() {
            return false;
        }
        self.spend(MAX_BYTES).is_some()
    }

    /// Whether each threshold is from 1 to the number of entries.
    fn is_in_range(&self) -> bool
        ensures { IsTrue result ↔ IsInRange self.now }
    {
        let entries = self.validators.len() + self.inner_sets.len();
        if self.threshold == 0 || self.threshold as usize > entries {
            return false;
        }
        for inner in &self.inner_sets {
            if !inner.is_in_range() {
                return false;
            }
        }
        true
    }

    fn has_few_distinct_nodes(&self) -> bool
        ensures { IsTrue result ↔ ((length (all_nodes self.now) ≤ 1000) × IsDistinct (eq_by_cmp node_cmp) (all_nodes self.now)) }
    {
        let mut nodes = [NodeId([0; 32]); FEW];
        match self.gather(&mut nodes, 0) {
            Some(len) => are_distinct(&mut nodes[..len]),
            None => self.has_distinct_nodes(),
        }
    }

    /// The same for a set of any number of nodes, in an array for as many as there may be.
    fn has_distinct_nodes(&self) -> bool
        ensures { IsTrue result ↔ ((length (all_nodes self.now) ≤ 1000) × IsDistinct (eq_by_cmp node_cmp) (all_nodes self.now)) }
    {
        let mut nodes = [NodeId([0; 32]); MAX_NODES];
        match self.gather(&mut nodes, 0) {
            Some(len) => are_distinct(&mut nodes[..len]),
            None => false,
        }
    }

    /// Puts all nodes after the first `len`, if they have room. Returns how many there are then.
    fn gather(&self, nodes: &mut [NodeId], len: usize) -> Option<usize>
        requires { len ≤ length nodes.old }
        ensures count { IfSome result (λ n. n ≡ len + length (all_nodes self.now)) }
        ensures room { IfSome result (λ n. n ≤ length nodes.new) }
        ensures front { IfSome result (λ n. take n nodes.new ≡ take len nodes.old ++ all_nodes self.now) }
        ensures full { IfNone result (length nodes.old < len + length (all_nodes self.now)) }
    {
        let mut count = put(nodes, len, &self.validators)?;
        for inner in &self.inner_sets {
            count = inner.gather(nodes, count)?;
        }
        Some(count)
    }
}

/// Puts more nodes after the first `len`, if they have room. Returns how many there are then.
fn put(nodes: &mut [NodeId], len: usize, more: &[NodeId]) -> Option<usize>
    requires { len ≤ length nodes.old }
    ensures count { IfSome result (λ n. n ≡ len + length more.now) }
    ensures room { IfSome result (λ n. n ≤ length nodes.new) }
    ensures front { IfSome result (λ n. take n nodes.new ≡ take len nodes.old ++ more.now) }
    ensures full { IfNone result (length nodes.old < len + length more.now) }
{
    if more.len() > nodes.len() - len {
        return None;
    }
    let end = len + more.len();
    nodes[len..end].copy_from_slice(more);
    Some(end)
}

/// Whether no node occurs twice. Sorts the nodes.
fn are_distinct(nodes: &mut [NodeId]) -> bool
    ensures { IsTrue result ↔ IsDistinct (eq_by_cmp node_cmp) nodes.old }
{
    nodes.sort_unstable();
    is_ascending(nodes)
}

/// Whether each node is below the next.
fn is_ascending(nodes: &[NodeId]) -> bool
    ensures { IsTrue result ↔ IsStrictlySortedBy node_cmp nodes.now }
{
    for i in 1..nodes.len() {
        if nodes[i - 1].cmp(&nodes[i]).is_ge() {
            return false;
        }
    }
    true
}
