//! The values that are said last.
ghost use Rattle.std.specs.Prelude.{◌≡◌, ◌++◌, map, List, IfOk, OnOk, IsOkUnless};
ghost use Rattle.std.specs.Option.{option_map_or};
ghost use Rattle.std.specs.List.{AllByRecursion};
ghost use Rattle.std.specs.BTreeSet.{keys, insert_key};
ghost use Rattle.scp_history.specs.scp_envelope.specs.Ballots.{value_cmp};
ghost use Rattle.scp_history.specs.scp_judged.specs.Verdicts.{heard_of};
ghost use Rattle.scp_history.specs.scp_judged.specs.Certified.{IsSaneHeard};
ghost use Rattle.scp_history.specs.declared.line.Line.{Line as OneLine};
ghost use Rattle.scp_history.specs.declared.side.Side.{Side as OneSide};
ghost use Rattle.scp_shown.specs.Listed.{AddsEach};
ghost use Rattle.scp_shown.specs.Spoken.{value_last, values_heard};
ghost use Rattle.scp_shown.specs.ValueLines.{AreValueLines};
ghost use Rattle.scp_shown.specs.Sides.{IsSide, side_of};

use crate::spoken::last_spoken;
use crate::value_lines::add_value_lines;
use scp_history::below::judged::Said;
use scp_history::below::types::{Fault, NodeId, SharedValue};
use scp_history::{Line, NodeList, Side};
use std::alloc::Global;
use std::collections::BTreeSet;

/// Adds the value that the node says last, if there is one.
fn add_last(values: &mut BTreeSet<SharedValue>, joined: &[Said], node: NodeId) -> Result<(), Fault>
    ensures added { OnOk result (keys values.new ≡ option_map_or (insert_key value_cmp (keys values.old)) (value_last (map heard_of joined.now) node) (keys values.old)) }
    ensures only_memory { IsOkUnless result Fault.NoMemory }
{
    match last_spoken(joined, node) {
        None => Ok(()),
        Some((_, value)) => {
            let shared = value.share()?;
            values.insert(shared)?;
            Ok(())
        }
    }
}

/// The values that these nodes say last, ascending by their bytes, each once. The only refusal is `Fault::NoMemory`.
pub(crate) fn values_of(
    alloc: Global,
    joined: &[Said],
    nodes: &[NodeId],
) -> Result<BTreeSet<SharedValue>, Fault>
    ensures values { IfOk result (λ values. keys values ≡ values_heard (map heard_of joined.now) nodes.now) }
    ensures only_memory { IsOkUnless result Fault.NoMemory }
{
    let mut values = BTreeSet::new(alloc);
    for node in nodes {
        add_last(&mut values, joined, *node)?;
    }
    Ok(values)
}

/// Adds a value with the nodes for which it is certified, if there are any.
fn add_side(sides: &mut Vec<Side>, value: &SharedValue, certified: Vec<NodeId>) -> Result<(), Fault>
    ensures added { OnOk result (sides.new.items ≡ sides.old.items ++ side_of value.now certified.items) }
    ensures only_memory { IsOkUnless result Fault.NoMemory }
{
    if certified.is_empty() {
        return Ok(());
    }
    let value = value.share()?;
    sides.push(Side {
        value,
        nodes: NodeList::new(certified),
    })?;
    Ok(())
}

/// Adds the lines of a value, and the value to those that are certified, if it is.
fn add_value(
    alloc: Global,
    lines: &mut Vec<Line>,
    sides: &mut Vec<Side>,
    ledger: u32,
    joined: &[Said],
    nodes: &[NodeId],
    value: &SharedValue,
) -> Result<(), Fault>
    requires { AllByRecursion IsSaneHeard (map heard_of joined.now) }
    ensures lines { OnOk result ((more : List OneLine) × AreValueLines ledger (map heard_of joined.now) nodes.now value.now more × (lines.new.items ≡ lines.old.items ++ more)) }
    ensures sides { OnOk result ((here : List OneSide) × IsSide (map heard_of joined.now) nodes.now value.now here × (sides.new.items ≡ sides.old.items ++ here)) }
    ensures only_memory { IsOkUnless result Fault.NoMemory }
{
    let certified = add_value_lines(alloc, lines, ledger, joined, nodes, value)?;
    add_side(sides, value, certified)
}

/// Adds the lines of these values, each in turn, and those of them that are certified. The only refusal is `Fault::NoMemory`.
pub(crate) fn add_values(
    alloc: Global,
    lines: &mut Vec<Line>,
    sides: &mut Vec<Side>,
    ledger: u32,
    joined: &[Said],
    nodes: &[NodeId],
    values: &BTreeSet<SharedValue>,
) -> Result<(), Fault>
    requires { AllByRecursion IsSaneHeard (map heard_of joined.now) }
    ensures lines { OnOk result ((more : List OneLine) × AddsEach (AreValueLines ledger (map heard_of joined.now) nodes.now) (keys values.now) more × (lines.new.items ≡ lines.old.items ++ more)) }
    ensures sides { OnOk result ((more : List OneSide) × AddsEach (IsSide (map heard_of joined.now) nodes.now) (keys values.now) more × (sides.new.items ≡ sides.old.items ++ more)) }
    ensures only_memory { IsOkUnless result Fault.NoMemory }
{
    for value in values {
        add_value(alloc, lines, sides, ledger, joined, nodes, value)?;
    }
    Ok(())
}
