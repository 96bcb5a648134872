//! The lines of a ledger.
ghost use Rattle.std.specs.Prelude.{◌≡◌, ◌++◌, map, flat_map, List, IfOk, OnOk, IsOkUnless};
ghost use Rattle.std.specs.List.{AllByRecursion};
ghost use Rattle.scp_history.specs.scp_judged.specs.Verdicts.{heard_of};
ghost use Rattle.scp_history.specs.scp_judged.specs.Certified.{IsSaneHeard};
ghost use Rattle.scp_history.specs.declared.line.Line.{Line as OneLine};
ghost use Rattle.scp_shown.specs.Parts.{entry_of};
ghost use Rattle.scp_shown.specs.LedgerLines.{entry_lines, AreHeardLines, AreLedgerLines};

use crate::contradictions::add_contradict_lines;
use crate::joined::joined_of;
use crate::nodes::nodes_of;
use crate::part::Part;
use crate::sides::add_side_lines;
use crate::silent::add_silent_lines;
use crate::values::{add_values, values_of};
use scp_history::below::judged::Said;
use scp_history::below::types::{Fault, NodeId};
use scp_history::{Line, add_message_lines};
use std::alloc::{AllocError, Global};

/// Adds the lines of what is heard of these nodes.
fn add_heard_lines(
    alloc: Global,
    lines: &mut Vec<Line>,
    ledger: u32,
    joined: &[Said],
    nodes: &[NodeId],
) -> Result<(), Fault>
    requires { AllByRecursion IsSaneHeard (map heard_of joined.now) }
    ensures added { OnOk result ((more : List OneLine) × AreHeardLines ledger (map heard_of joined.now) nodes.now more × (lines.new.items ≡ lines.old.items ++ more)) }
    ensures only_memory { IsOkUnless result Fault.NoMemory }
{
    let values = values_of(alloc, joined, nodes)?;
    let mut sides = Vec::new(alloc);
    add_values(alloc, lines, &mut sides, ledger, joined, nodes, &values)?;
    add_side_lines(lines, ledger, joined, nodes, sides)
}

/// Adds the lines of the messages of these entries that don't count.
fn add_entry_lines(lines: &mut Vec<Line>, parts: &[Part<'_>]) -> Result<(), AllocError>
    ensures { OnOk result (lines.new.items ≡ lines.old.items ++ flat_map entry_lines (map entry_of parts.now)) }
{
    for part in parts {
        add_message_lines(lines, part.file, part.ledger)?;
    }
    Ok(())
}

/// The lines of a ledger with these entries. The only refusal is `Fault::NoMemory`. Costs a board of what is heard for each node that externalizes,
/// and a look at the nodes of each two messages.
pub fn ledger_lines(alloc: Global, ledger: u32, parts: &[Part<'_>]) -> Result<Vec<Line>, Fault>
    ensures lines { IfOk result (λ lines. AreLedgerLines ledger (map entry_of parts.now) lines.items) }
    ensures only_memory { IsOkUnless result Fault.NoMemory }
{
    let joined = joined_of(alloc, parts)?;
    let heard = joined.as_slice();
    let list = nodes_of(alloc, heard)?;
    let nodes = list.as_slice();
    let mut lines = Vec::new(alloc);
    add_heard_lines(alloc, &mut lines, ledger, heard, nodes)?;
    add_entry_lines(&mut lines, parts)?;
    add_silent_lines(alloc, &mut lines, ledger, heard, nodes)?;
    add_contradict_lines(alloc, &mut lines, ledger, parts)?;
    Ok(lines)
}
