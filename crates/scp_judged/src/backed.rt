//! For whom a value is backed.
ghost use Rattle.std.specs.Prelude.{◌≡◌, ◌↔◌, ℕ, map, cond, Some, None, IfOk, IfSome, IfNone, OnOk, IsOkUnless, IsTrue};
ghost use Rattle.std.specs.Bool.{OnFalse, OnTrue};
ghost use Rattle.std.specs.BTreeMap.{is_at};
ghost use Rattle.scp_ledger.specs.scp_types.specs.declared.names.NodeId.{NodeId};
ghost use Rattle.scp_ledger.specs.scp_quorum.specs.NodeSet.{node_cmp};
ghost use Rattle.scp_ledger.specs.scp_quorum.specs.Quorum.{set_of};
ghost use Rattle.scp_judged.specs.Verdicts.{heard_of, heard_by};
ghost use Rattle.scp_judged.specs.Backed.{IsBacked};
ghost use Rattle.scp_judged.specs.inside.Backed.{AreAccepting, HasNoneAt, IsLowEnd, Weighs};

use crate::verdict::Said;
use scp_ledger::below::envelope::{Pledges, Statement};
use scp_ledger::below::quorum::{SaneSet, greatest_quorum};
use scp_ledger::below::types::{Fault, NodeId, Value};
use scp_ledger::below::vote::{StatementKind, kind_of_pledges};
use std::alloc::Global;
use std::collections::BTreeMap;
use std::sync::Arc;

/// Keeps the set of a ballot statement that accepts the commit, and no set for one that doesn't.
fn weigh(
    sets: &mut BTreeMap<NodeId, Arc<SaneSet>>,
    said: &Said,
    counter: u32,
    value: &Value,
) -> Result<(), Fault>
    ensures weighed { OnOk result (Weighs (set_of sets.old) (set_of sets.new) (heard_of said.now) counter value.now) }
    ensures only_memory { IsOkUnless result Fault.NoMemory }
{
    let statement = &said.envelope.get().statement;
    match kind_of_pledges(&statement.pledges) {
        StatementKind::Nomination => Ok(()),
        StatementKind::Balloting => weigh_ballot(
            sets,
            said,
            statement.node,
            statement.accepts_commit(counter, value),
        ),
    }
}

/// Keeps the set of the node, or no set.
fn weigh_ballot(
    sets: &mut BTreeMap<NodeId, Arc<SaneSet>>,
    said: &Said,
    node: NodeId,
    accepts: bool,
) -> Result<(), Fault>
    ensures kept { OnOk result ((v : NodeId) → set_of sets.new v ≡ cond (is_at (node_cmp node) v) (cond accepts (Some said.now.set.value) None) (set_of sets.old v)) }
    ensures only_memory { IsOkUnless result Fault.NoMemory }
{
    if accepts {
        let set = Arc::try_clone(&said.set)?;
        let old = sets.insert(node, set)?;
        drop(old);
        return Ok(());
    }
    let old = sets.remove(&node);
    drop(old);
    Ok(())
}

/// The sets of the nodes whose last ballot statement accepts the commit.
fn accepting(
    alloc: Global,
    counting: &[Said],
    counter: u32,
    value: &Value,
) -> Result<BTreeMap<NodeId, Arc<SaneSet>>, Fault>
    ensures accepting { IfOk result (λ sets. AreAccepting (heard_by (map heard_of counting.now)) counter value.now (set_of sets)) }
    ensures only_memory { IsOkUnless result Fault.NoMemory }
{
    let mut sets = BTreeMap::new(alloc);
    for said in counting {
        weigh(&mut sets, said, counter, value)?;
    }
    Ok(sets)
}

/// The lowest counter at which the statement accepts a commit of the value.
fn low_end(statement: &Statement, value: &Value) -> Option<u32>
    ensures found { IfSome result (λ n. IsLowEnd statement.now.pledges value.now n) }
    ensures none { IfNone result ((n : ℕ) → IsLowEnd statement.now.pledges value.now n → ⊥) }
{
    match &statement.pledges {
        Pledges::Confirm(confirm) if value == confirm.ballot.value.get() => Some(confirm.n_commit),
        Pledges::Externalize(externalize) if value == externalize.commit.value.get() => {
            Some(externalize.commit.counter)
        }
        _ => None,
    }
}

/// Whether the value is backed for the node at the low end of this statement.
fn backs_at(
    alloc: Global,
    counting: &[Said],
    said: &Said,
    value: &Value,
    node: NodeId,
) -> Result<bool, Fault>
    ensures backed { IfOk result (λ yes. OnTrue yes (IsBacked (heard_by (map heard_of counting.now)) value.now node)) }
    ensures none { IfOk result (λ yes. OnFalse yes (HasNoneAt (heard_by (map heard_of counting.now)) value.now node (heard_of said.now))) }
    ensures only_memory { IsOkUnless result Fault.NoMemory }
{
    let Some(counter) = low_end(&said.envelope.get().statement, value) else {
        return Ok(false);
    };
    let sets = accepting(alloc, counting, counter, value)?;
    match greatest_quorum(alloc, node, &sets)? {
        Some(_) => Ok(true),
        None => Ok(false),
    }
}

/// Whether the node is in a quorum of nodes that all accept a commit of the value at one counter, each counted by the set that its last
/// ballot statement names: no EXTERNALIZE is taken at its word. The only refusal is `Fault::NoMemory`. Tries the low ends of what counts.
pub fn is_backed(
    alloc: Global,
    counting: &[Said],
    value: &Value,
    node: NodeId,
) -> Result<bool, Fault>
    ensures exact { IfOk result (λ yes. IsTrue yes ↔ IsBacked (heard_by (map heard_of counting.now)) value.now node) }
    ensures only_memory { IsOkUnless result Fault.NoMemory }
{
    for said in counting {
        let backs = backs_at(alloc, counting, said, value, node)?;
        if backs {
            return Ok(true);
        }
    }
    Ok(false)
}
