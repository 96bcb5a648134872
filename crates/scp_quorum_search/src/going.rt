//! Whether a node goes on without others.
ghost use Rattle.std.specs.Prelude.{◌↔◌, IfOk, IsTrue};
ghost use Rattle.scp_quorum.specs.NodeSet.{is_in};
ghost use Rattle.scp_quorum_search.specs.inside.Search.{AreListed};
ghost use Rattle.scp_quorum_search.specs.inside.Losses.{GoesOnIn, IsNeeded, IsSmallestIn, less};

use crate::quest::Quest;
use crate::search::{copy_of, outside};
use crate::settle::settle;
use scp_quorum::below::types::NodeId;
use std::alloc::{AllocError, Global};
use std::collections::BTreeSet;

/// Whether a node is in a quorum without these. Asks for one greatest quorum.
pub fn goes_on(
    alloc: Global,
    quest: &Quest<'_>,
    at: &NodeId,
    lost: &BTreeSet<NodeId>,
) -> Result<bool, AllocError>
    ensures { IfOk result (λ goes. IsTrue goes ↔ GoesOnIn quest.now at.now (is_in lost.now)) }
{
    let mut others = outside(alloc, quest.all, lost)?;
    settle(quest.members, quest.liars, &mut others);
    let goes = others.contains(at);
    Ok(goes)
}

/// Whether the loss of one node less doesn't halt a node.
fn goes_on_with(
    alloc: Global,
    quest: &Quest<'_>,
    at: &NodeId,
    lost: &BTreeSet<NodeId>,
    back: &NodeId,
) -> Result<bool, AllocError>
    ensures { IfOk result (λ goes. IsTrue goes ↔ GoesOnIn quest.now at.now (less back.now (is_in lost.now))) }
{
    let mut fewer = copy_of(lost)?;
    fewer.remove(back);
    let goes = goes_on(alloc, quest, at, &fewer)?;
    Ok(goes)
}

/// Whether a node is kept, or its return lets another one go on.
fn is_needed(
    alloc: Global,
    quest: &Quest<'_>,
    at: &NodeId,
    lost: &BTreeSet<NodeId>,
    node: &NodeId,
) -> Result<bool, AllocError>
    ensures { IfOk result (λ needed. IsTrue needed ↔ IsNeeded quest.now at.now (is_in lost.now) node.now) }
{
    if !lost.contains(node) {
        return Ok(true);
    }
    let goes = goes_on_with(alloc, quest, at, lost, node)?;
    Ok(goes)
}

/// Whether these nodes, whose loss halts a node, are a smallest set of such nodes. Asks for one greatest quorum for each of them.
pub fn is_smallest(
    alloc: Global,
    quest: &Quest<'_>,
    at: &NodeId,
    lost: &BTreeSet<NodeId>,
) -> Result<bool, AllocError>
    requires { AreListed quest.now.all.now (is_in lost.now) }
    ensures { IfOk result (λ smallest. IsTrue smallest ↔ IsSmallestIn quest.now at.now (is_in lost.now)) }
{
    for node in quest.all {
        if !is_needed(alloc, quest, at, lost, node)? {
            return Ok(false);
        }
    }
    Ok(true)
}
