//! The nodes of which nothing is heard.
ghost use Rattle.std.specs.Prelude.{◌≡◌, ◌↔◌, ◌++◌, map, fold, flat_map, List, IfOk, OnOk, IsOkUnless, IsTrue};
ghost use Rattle.std.specs.BTreeSet.{keys, insert_key};
ghost use Rattle.scp_history.specs.scp_quorum.specs.NodeSet.{node_cmp};
ghost use Rattle.scp_history.specs.scp_quorum.specs.Sane.{all_nodes};
ghost use Rattle.scp_history.specs.scp_judged.specs.Verdicts.{heard_of};
ghost use Rattle.scp_history.specs.declared.line.Line.{Line as OneLine};
ghost use Rattle.scp_shown.specs.Listed.{Picks};
ghost use Rattle.scp_shown.specs.ValueLines.{if_any};
ghost use Rattle.scp_shown.specs.Silent.{named_by, nodes_named, IsSilent, AreSilentLines};

use crate::nodes::list_of;
use crate::spoken::add_where;
use scp_history::below::judged::{Said, last_ballot};
use scp_history::below::quorum::SaneSet;
use scp_history::below::types::{Fault, NodeId};
use scp_history::{Line, NodeList};
use std::alloc::{AllocError, Global};
use std::collections::BTreeSet;

/// Adds nodes to a set.
fn add_nodes(named: &mut BTreeSet<NodeId>, nodes: &[NodeId]) -> Result<(), AllocError>
    ensures { OnOk result (keys named.new ≡ fold (insert_key node_cmp) (keys named.old) nodes.now) }
{
    for node in nodes {
        named.insert(*node)?;
    }
    Ok(())
}

/// Adds the nodes of a quorum set.
fn add_nodes_of(named: &mut BTreeSet<NodeId>, set: &SaneSet) -> Result<(), Fault>
    ensures added { OnOk result (keys named.new ≡ fold (insert_key node_cmp) (keys named.old) (all_nodes set.now)) }
    ensures only_memory { IsOkUnless result Fault.NoMemory }
{
    let nodes = set.set().nodes()?;
    add_nodes(named, nodes.as_slice())?;
    Ok(())
}

/// Adds the nodes of the set that the node names last.
fn add_named_by(named: &mut BTreeSet<NodeId>, joined: &[Said], node: NodeId) -> Result<(), Fault>
    ensures added { OnOk result (keys named.new ≡ fold (insert_key node_cmp) (keys named.old) (named_by (map heard_of joined.now) node)) }
    ensures only_memory { IsOkUnless result Fault.NoMemory }
{
    match last_ballot(joined, node) {
        None => Ok(()),
        Some(said) => add_nodes_of(named, &said.set),
    }
}

/// The nodes of the sets that these nodes name last.
fn set_of_named(alloc: Global, joined: &[Said], nodes: &[NodeId]) -> Result<BTreeSet<NodeId>, Fault>
    ensures named { IfOk result (λ named. keys named ≡ nodes_named (map heard_of joined.now) nodes.now) }
    ensures only_memory { IsOkUnless result Fault.NoMemory }
{
    let mut named = BTreeSet::new(alloc);
    for node in nodes {
        add_named_by(&mut named, joined, *node)?;
    }
    Ok(named)
}

/// Whether nothing is heard of the node.
fn is_silent(joined: &[Said], node: NodeId) -> bool
    ensures { IsTrue result ↔ IsSilent (map heard_of joined.now) node }
{
    match last_ballot(joined, node) {
        Some(_) => false,
        None => true,
    }
}

/// Those of the nodes of which nothing is heard.
fn silent_among(alloc: Global, joined: &[Said], nodes: &[NodeId]) -> Result<Vec<NodeId>, AllocError>
    ensures { IfOk result (λ silent. Picks (IsSilent (map heard_of joined.now)) nodes.now silent.items) }
{
    let mut silent = Vec::new(alloc);
    for node in nodes {
        let is_asked = is_silent(joined, *node);
        add_where(&mut silent, *node, is_asked)?;
    }
    Ok(silent)
}

/// Adds the line of silent nodes, if there are any.
fn add_line(lines: &mut Vec<Line>, ledger: u32, nodes: Vec<NodeId>) -> Result<(), AllocError>
    ensures { OnOk result (lines.new.items ≡ lines.old.items ++ if_any (λ vs. Line.Silent ledger vs) nodes.items) }
{
    if nodes.is_empty() {
        return Ok(());
    }
    lines.push(Line::Silent {
        ledger,
        nodes: NodeList::new(nodes),
    })?;
    Ok(())
}

/// Adds the line of the nodes of sets of what is heard, of which nothing is heard, if there are any. The only refusal is `Fault::NoMemory`.
pub(crate) fn add_silent_lines(
    alloc: Global,
    lines: &mut Vec<Line>,
    ledger: u32,
    joined: &[Said],
    nodes: &[NodeId],
) -> Result<(), Fault>
    ensures added { OnOk result ((more : List OneLine) × AreSilentLines ledger (map heard_of joined.now) nodes.now more × (lines.new.items ≡ lines.old.items ++ more)) }
    ensures only_memory { IsOkUnless result Fault.NoMemory }
{
    let named = set_of_named(alloc, joined, nodes)?;
    let named = list_of(alloc, &named)?;
    let silent = silent_among(alloc, joined, named.as_slice())?;
    add_line(lines, ledger, silent)?;
    Ok(())
}
