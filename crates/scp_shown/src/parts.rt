//! Nodes, divided by whether a value is certified for them, or they are backed.
ghost use Rattle.std.specs.Prelude.{◌≡◌, ◌↔◌, map, IfOk, OnOk, IsOkUnless, IsTrue};
ghost use Rattle.std.specs.List.{AllByRecursion};
ghost use Rattle.scp_history.specs.scp_judged.specs.Verdicts.{heard_of, heard_by};
ghost use Rattle.scp_history.specs.scp_judged.specs.Certified.{IsSaneHeard};
ghost use Rattle.scp_history.specs.scp_judged.specs.Backed.{IsBacked};
ghost use Rattle.scp_shown.specs.Listed.{Picks};
ghost use Rattle.scp_shown.specs.ValueLines.{IsCertified, IsNotCertified, IsNotBacked};
ghost use Rattle.scp_shown.specs.inside.Adding.{Places};

use scp_history::below::judged::{Said, certified, is_backed};
use scp_history::below::types::{Fault, NodeId, Value};
use std::alloc::{AllocError, Global};

/// Nodes, by whether a fact holds of them, each part in the nodes' order.
#[derive(Drop)]
pub(crate) struct Parts {
    pub(crate) holds: Vec<NodeId>,
    pub(crate) fails: Vec<NodeId>,
}

/// Whether the ledger is certified for the node.
fn is_certified(alloc: Global, joined: &[Said], node: NodeId) -> Result<bool, Fault>
    requires { AllByRecursion IsSaneHeard (map heard_of joined.now) }
    ensures certified { IfOk result (λ is. IsTrue is ↔ IsCertified (heard_by (map heard_of joined.now)) node) }
    ensures only_memory { IsOkUnless result Fault.NoMemory }
{
    let found = certified(alloc, joined, node)?;
    Ok(found.is_some())
}

/// Adds a node to its part.
fn place(parts: &mut Parts, node: NodeId, holds: bool) -> Result<(), AllocError>
    ensures { OnOk result (Places holds node parts.old.holds.items parts.old.fails.items parts.new.holds.items parts.new.fails.items) }
{
    if holds {
        parts.holds.push(node)?;
        return Ok(());
    }
    parts.fails.push(node)?;
    Ok(())
}

/// The nodes by whether the ledger is certified for them. Costs a board of what is heard for each node.
pub(crate) fn by_certified(alloc: Global, joined: &[Said], nodes: &[NodeId]) -> Result<Parts, Fault>
    requires { AllByRecursion IsSaneHeard (map heard_of joined.now) }
    ensures holds { IfOk result (λ parts. Picks (IsCertified (heard_by (map heard_of joined.now))) nodes.now parts.holds.items) }
    ensures fails { IfOk result (λ parts. Picks (IsNotCertified (heard_by (map heard_of joined.now))) nodes.now parts.fails.items) }
    ensures only_memory { IsOkUnless result Fault.NoMemory }
{
    let mut parts = Parts {
        holds: Vec::new(alloc),
        fails: Vec::new(alloc),
    };
    for node in nodes {
        let holds = is_certified(alloc, joined, *node)?;
        place(&mut parts, *node, holds)?;
    }
    Ok(parts)
}

/// The nodes by whether the value is backed for them.
pub(crate) fn by_backed(
    alloc: Global,
    joined: &[Said],
    value: &Value,
    nodes: &[NodeId],
) -> Result<Parts, Fault>
    ensures holds { IfOk result (λ parts. Picks (IsBacked (heard_by (map heard_of joined.now)) value.now) nodes.now parts.holds.items) }
    ensures fails { IfOk result (λ parts. Picks (IsNotBacked (heard_by (map heard_of joined.now)) value.now) nodes.now parts.fails.items) }
    ensures only_memory { IsOkUnless result Fault.NoMemory }
{
    let mut parts = Parts {
        holds: Vec::new(alloc),
        fails: Vec::new(alloc),
    };
    for node in nodes {
        let holds = is_backed(alloc, joined, value, *node)?;
        place(&mut parts, *node, holds)?;
    }
    Ok(parts)
}
