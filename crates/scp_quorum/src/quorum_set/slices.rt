//! Which sets of nodes satisfy and block a quorum set: one loop does both. Nodes block a set if the other nodes don't
//! satisfy it. More nodes never satisfy less, and what is disjoint from the nodes lies within the others.
ghost use Rattle.std.specs.Prelude.{◌≡◌, ◌↔◌, ◌≤◌, Bool, IfSome, IsTrue, count_by, length, take};
ghost use Rattle.scp_xdr.specs.scp_types.specs.declared.names.NodeId.{NodeId};
ghost use Rattle.scp_quorum.specs.NodeSet.{is_in};
ghost use Rattle.scp_quorum.specs.Satisfies.{Satisfies, Blocks};
ghost use Rattle.scp_quorum.specs.inside.Satisfies.{outside};

use super::QuorumSet;
use scp_xdr::below::types::NodeId;
use std::collections::BTreeSet;

/// A set of nodes that can be asked whether it has a node.
pub trait Nodes {
    /// Which nodes these are.
    ghost members: { Self → NodeId → Bool };

    /// Whether the node is one of them.
    fn has(&self, node: &NodeId) -> bool
        ensures { result ≡ members self.now node.now };
}

impl Nodes for BTreeSet<NodeId> {
    ghost members = { λ nodes. is_in nodes };

    fn has(&self, node: &NodeId) -> bool {
        self.contains(node)
    }
}

/// The nodes outside of these.
#[derive(Drop)]
struct Others<'a, N>(&'a N);

impl<N: Nodes> Nodes for Others<'_, N> {
    ghost members = { λ others. outside (N.members others.0.now) };

    fn has(&self, node: &NodeId) -> bool {
        !self.0.has(node)
    }
}

/// Whether the nodes satisfy at least as many entries as the threshold says (the SCP draft). Takes no
/// memory. Costs at most one look-up for each node of the set, and stops once enough entries are satisfied.
pub fn satisfied(set: &QuorumSet, nodes: &BTreeSet<NodeId>) -> bool
    ensures { IsTrue result ↔ Satisfies (is_in nodes.now) set.now }
{
    set.is_satisfied_by(nodes)
}

/// Whether no set of nodes disjoint from these satisfies the quorum set (the SCP draft). Takes no
/// memory, and at most one look-up for each node of the set.
pub fn blocked(set: &QuorumSet, nodes: &BTreeSet<NodeId>) -> bool
    ensures { IsTrue result ↔ Blocks (is_in nodes.now) set.now }
{
    set.is_blocked_by(nodes)
}

impl QuorumSet {
    /// Whether the nodes satisfy the set (the SCP draft). Takes no memory. Asks for each node of the set at most once, and
    /// stops once enough entries are satisfied.
    pub fn is_satisfied_by<N: Nodes>(&self, nodes: &N) -> bool
        ensures { IsTrue result ↔ Satisfies (N.members nodes.now) self.now }
    {
        let mut missing = self.threshold;
        for validator in &self.validators {
            if missing == 0 {
                return true;
            }
            if nodes.has(validator) {
                missing -= 1;
            }
        }
        for inner in &self.inner_sets {
            if missing == 0 {
                return true;
            }
            if inner.is_satisfied_by(nodes) {
                missing -= 1;
            }
        }
        missing == 0
    }

    /// Whether no set of nodes disjoint from these satisfies the set (the SCP draft). Takes no memory, and asks for each
    /// node of the set at most once.
    pub fn is_blocked_by<N: Nodes>(&self, nodes: &N) -> bool
        ensures { IsTrue result ↔ Blocks (N.members nodes.now) self.now }
    {
        !self.is_satisfied_by(&Others(nodes))
    }

    /// The set's own nodes, up to the one with which as many of them as the threshold says are among these; `None` if
    /// even all of them are too few.
    pub(crate) fn enough_of<N: Nodes>(&self, nodes: &N) -> Option<&[NodeId]>
        ensures front { IfSome result (λ head. take (length head.now) self.now.head.validators ≡ head.now) }
        ensures enough { IfSome result (λ head. self.now.head.threshold ≤ count_by (N.members nodes.now) head.now) }
    {
        let validators = self.validators.as_slice();
        let mut wanted = self.threshold;
        for (i, validator) in validators.iter().enumerate() {
            if nodes.has(validator) {
                wanted = wanted.saturating_sub(1);
                if wanted == 0 {
                    return Some(&validators[..=i]);
                }
            }
        }
        None
    }
}
