//! The split of a ledger, or who is against the value that is certified.
ghost use Rattle.std.specs.Prelude.{◌≡◌, ◌++◌, map, flat_map, OnOk, IsOkUnless};
ghost use Rattle.scp_history.specs.scp_judged.specs.Verdicts.{heard_of};
ghost use Rattle.scp_shown.specs.Sides.{against, against_line, side_lines};
ghost use Rattle.scp_shown.specs.inside.Siding.{has_two};

use crate::spoken::last_spoken;
use scp_history::below::judged::Said;
use scp_history::below::types::{Fault, NodeId, SharedValue, Value};
use scp_history::{Line, Side, SideList, StatementWord};

/// Adds the line of a node that says this last, unless it says the value that is certified.
fn add_other(
    lines: &mut Vec<Line>,
    ledger: u32,
    certified: &Value,
    node: NodeId,
    statement: StatementWord,
    value: &SharedValue,
) -> Result<(), Fault>
    ensures added { OnOk result (lines.new.items ≡ lines.old.items ++ against ledger certified.now node (statement, value.now)) }
    ensures only_memory { IsOkUnless result Fault.NoMemory }
{
    if certified == value.get() {
        return Ok(());
    }
    let value = value.share()?;
    lines.push(Line::Against {
        ledger,
        node,
        statement,
        value,
    })?;
    Ok(())
}

/// Adds the line of a node, if its last ballot statement has another value.
fn add_against(
    lines: &mut Vec<Line>,
    ledger: u32,
    joined: &[Said],
    certified: &Value,
    node: NodeId,
) -> Result<(), Fault>
    ensures added { OnOk result (lines.new.items ≡ lines.old.items ++ against_line ledger (map heard_of joined.now) certified.now node) }
    ensures only_memory { IsOkUnless result Fault.NoMemory }
{
    match last_spoken(joined, node) {
        None => Ok(()),
        Some((statement, value)) => add_other(lines, ledger, certified, node, statement, value),
    }
}

/// Adds the lines of the nodes whose last ballot statements have another value.
fn add_all_against(
    lines: &mut Vec<Line>,
    ledger: u32,
    joined: &[Said],
    certified: &Value,
    nodes: &[NodeId],
) -> Result<(), Fault>
    ensures added { OnOk result (lines.new.items ≡ lines.old.items ++ flat_map (against_line ledger (map heard_of joined.now) certified.now) nodes.now) }
    ensures only_memory { IsOkUnless result Fault.NoMemory }
{
    for node in nodes {
        add_against(lines, ledger, joined, certified, *node)?;
    }
    Ok(())
}

/// Whether there are several sides.
fn are_several(sides: &[Side]) -> bool
    ensures { result ≡ has_two sides.now }
{
    match sides {
        [_, _, ..] => true,
        _ => false,
    }
}

/// Adds the lines of the values that are certified: of several their split, and of one those of the nodes that are against it. The only refusal is
/// `Fault::NoMemory`.
pub(crate) fn add_side_lines(
    lines: &mut Vec<Line>,
    ledger: u32,
    joined: &[Said],
    nodes: &[NodeId],
    sides: Vec<Side>,
) -> Result<(), Fault>
    ensures added { OnOk result (lines.new.items ≡ lines.old.items ++ side_lines ledger (map heard_of joined.now) nodes.now sides.items) }
    ensures only_memory { IsOkUnless result Fault.NoMemory }
{
    if are_several(sides.as_slice()) {
        let sides = SideList::new(sides);
        lines.push(Line::Split { ledger, sides })?;
        return Ok(());
    }
    match sides.as_slice().first() {
        None => Ok(()),
        Some(side) => add_all_against(lines, ledger, joined, side.value.get(), nodes),
    }
}
