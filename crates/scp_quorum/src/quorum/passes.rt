//! The greatest quorum by passes over all nodes: the plain program, to compare with.
ghost use Rattle.std.specs.Prelude.{◌≡◌, ◌↔◌, ◌<◌, IfOk, IfNone, IfSome, IsTrue, IsOkUnless};
ghost use Rattle.std.specs.Bool.{OnFalse, OnTrue};
ghost use Rattle.std.specs.BTreeSet.{btree_set_len};
ghost use Rattle.scp_xdr.specs.scp_types.specs.declared.names.NodeId.{NodeId};
ghost use Rattle.scp_quorum.specs.NodeSet.{is_in};
ghost use Rattle.scp_quorum.specs.Quorum.{set_of, SatisfyThemselves, IsGreatestQuorum, IsInSomeQuorum, HasNoQuorum};
ghost use Rattle.scp_quorum.specs.inside.Quorum.{AllHaveSets, KeepsQuorums};

use super::known_nodes;
use crate::quorum_set::satisfied;
use crate::sane_set::SaneSet;
use scp_xdr::below::types::{Fault, NodeId};
use std::alloc::Global;
use std::collections::{BTreeMap, BTreeSet};
use std::sync::Arc;

/// What `greatest_quorum` answers, found by the plain program: passes over all nodes until one removes none. It is there to compare with. Each
/// pass costs a look-up for each node of each set, and there is at most one pass more than there are nodes. The only refusal is `Fault::NoMemory`.
pub fn greatest_quorum_by_passes(
    alloc: Global,
    me: NodeId,
    sets: &BTreeMap<NodeId, Arc<SaneSet>>,
) -> Result<Option<BTreeSet<NodeId>>, Fault>
    ensures found { IfOk result (λ found. IfSome found (λ nodes. IsGreatestQuorum (set_of sets.now) me (is_in nodes))) }
    ensures union { IfOk result (λ found. IfSome found (λ nodes. (v : NodeId) → IsTrue (is_in nodes v) ↔ IsInSomeQuorum (set_of sets.now) me v)) }
    ensures none { IfOk result (λ found. IfNone found (HasNoQuorum (set_of sets.now) me)) }
    ensures only_memory { IsOkUnless result Fault.NoMemory }
{
    let mut remaining = known_nodes(alloc, sets)?;
    while remove_unsatisfied(sets, &mut remaining) {}
    if remaining.contains(&me) {
        Ok(Some(remaining))
    } else {
        Ok(None)
    }
}

/// Goes over the nodes once, and removes each whose set the remaining nodes don't satisfy. Returns
/// whether any was removed.
fn remove_unsatisfied(
    sets: &BTreeMap<NodeId, Arc<SaneSet>>,
    remaining: &mut BTreeSet<NodeId>,
) -> bool
    requires { AllHaveSets (set_of sets.now) (is_in remaining.old) }
    ensures have_sets { AllHaveSets (set_of sets.now) (is_in remaining.new) }
    ensures kept { KeepsQuorums (set_of sets.now) (is_in remaining.old) (is_in remaining.new) }
    ensures fewer { OnTrue result (btree_set_len remaining.new < btree_set_len remaining.old) }
    ensures settled { OnFalse result (SatisfyThemselves (set_of sets.now) (is_in remaining.new)) }
{
    let mut removed = false;
    for (node, set) in sets {
        if remaining.contains(node) && !satisfied(set.set(), remaining) {
            remaining.remove(node);
            removed = true;
        }
    }
    removed
}
