//! The slots for which nodes applied different values.
ghost use Rattle.std.specs.Prelude.{◌≡◌, ◌≤◌, ◌++◌, All, IfOk, OnOk, IsOkUnless, length, map};
ghost use Rattle.std.specs.Option.{option_copied};
ghost use Rattle.scp_line.specs.scp_types.specs.declared.limits.TheConstants.{NODE_LIMIT};
ghost use Rattle.scp_line.specs.scp_apply.specs.Applied.{AreInOrder, value_of};
ghost use Rattle.scp_notices.specs.Disagreeing.{choices_from, differ, nodes_with, side_of, sides_of, disagreement, disagreements, most_applied};
ghost use Rattle.scp_notices.specs.inside.Choices.{choice_seen, values_seen, has_value, side_behind};
ghost use Rattle.scp_notices.specs.inside.Seen.{applied_in};

use crate::notice::{Notice, Numbers, Side, Sides};
use scp_line::Report;
use scp_line::below::types::{Fault, Value};
use std::alloc::{AllocError, Global};

/// What one of the nodes applied for a slot.
#[derive(Clone, Copy)]
struct Choice<'a> {
    node: u8,
    value: &'a Value,
}

/// The value that a node applied for a slot, if it applied it.
fn value_for<'a>(report: &'a Report<'_>, slot: u64) -> Option<&'a Value>
    requires in_order { AreInOrder 1 (applied_in report.now) }
    requires slot { 1 ≤ slot }
    ensures { option_copied result ≡ value_of slot (applied_in report.entry.now) }
{
    match report.applied.get((slot - 1) as usize) {
        Some(decision) => Some(&decision.get().value),
        None => None,
    }
}

/// What the nodes applied for a slot, in the order of their numbers.
fn choices<'a>(
    alloc: Global,
    reports: &'a [Report<'_>],
    slot: u64,
) -> Result<Vec<Choice<'a>>, AllocError>
    requires in_order { All (λ report. AreInOrder 1 (applied_in report)) reports.now }
    requires few { length reports.now ≤ NODE_LIMIT }
    requires slot { 1 ≤ slot }
    ensures { IfOk result (λ choices. map choice_seen choices.items ≡ choices_from slot 1 (map applied_in reports.entry.now)) }
{
    let mut choices = Vec::new(alloc);
    let mut number: u8 = 1;
    for report in reports {
        if let Some(value) = value_for(report, slot) {
            choices.push(Choice {
                node: number,
                value,
            })?;
        }
        number += 1;
    }
    Ok(choices)
}

/// Whether the choices have different values.
fn are_different(choices: &[Choice<'_>]) -> bool
    ensures { result ≡ differ (map choice_seen choices.now) }
{
    let Some((first, rest)) = choices.split_first() else {
        return false;
    };
    for other in rest {
        if *other.value != *first.value {
            return true;
        }
    }
    false
}

/// The nodes that chose the value.
fn nodes_of(alloc: Global, choices: &[Choice<'_>], value: &Value) -> Result<Numbers, AllocError>
    ensures { IfOk result (λ nodes. nodes ≡ nodes_with value.now (map choice_seen choices.now)) }
{
    let mut nodes = Vec::new(alloc);
    for choice in choices {
        if *choice.value == *value {
            nodes.push(choice.node)?;
        }
    }
    Ok(Numbers::new(nodes))
}

/// The nodes that chose the value, and the value.
fn side(alloc: Global, choices: &[Choice<'_>], value: &Value) -> Result<Side, Fault>
    ensures side { IfOk result (λ side. side ≡ side_of (map choice_seen choices.now) value.now) }
    ensures only_memory { IsOkUnless result Fault.NoMemory }
{
    Ok(Side {
        nodes: nodes_of(alloc, choices, value)?,
        value: value.copy()?,
    })
}

/// Whether one of the choices has this value.
fn is_among(choices: &[Choice<'_>], value: &Value) -> bool
    ensures { result ≡ has_value value.now (values_seen choices.now) }
{
    for choice in choices {
        if *value == *choice.value {
            return true;
        }
    }
    false
}

/// Adds the nodes that chose the value, and the value, unless one before chose it.
fn add_side(
    sides: &mut Vec<Side>,
    choices: &[Choice<'_>],
    before: &[Choice<'_>],
    value: &Value,
) -> Result<(), Fault>
    ensures added { OnOk result (sides.new.items ≡ sides.old.items ++ side_behind (map choice_seen choices.now) (values_seen before.now) value.now) }
    ensures only_memory { IsOkUnless result Fault.NoMemory }
{
    if is_among(before, value) {
        return Ok(());
    }
    let side = side(*sides.allocator(), choices, value)?;
    sides.push(side)?;
    Ok(())
}

/// The nodes, grouped by the value that they chose.
fn sides(alloc: Global, choices: &[Choice<'_>]) -> Result<Sides, Fault>
    ensures sides { IfOk result (λ sides. sides ≡ sides_of (map choice_seen choices.now)) }
    ensures only_memory { IsOkUnless result Fault.NoMemory }
{
    let mut sides = Vec::new(alloc);
    let mut index = 0;
    for choice in choices {
        let before = &choices[..index];
        add_side(&mut sides, choices, before, choice.value)?;
        index += 1;
    }
    Ok(Sides::new(sides))
}

/// Adds a notice, if nodes applied different values for the slot.
fn add_slot(out: &mut Vec<Notice>, reports: &[Report<'_>], slot: u64) -> Result<(), Fault>
    requires in_order { All (λ report. AreInOrder 1 (applied_in report)) reports.now }
    requires few { length reports.now ≤ NODE_LIMIT }
    requires slot { 1 ≤ slot }
    ensures added { OnOk result (out.new.items ≡ out.old.items ++ disagreement (map applied_in reports.now) slot) }
    ensures only_memory { IsOkUnless result Fault.NoMemory }
{
    let alloc = *out.allocator();
    let choices = choices(alloc, reports, slot)?;
    if are_different(choices.as_slice()) {
        let sides = sides(alloc, choices.as_slice())?;
        out.push(Notice::Disagree { slot, sides })?;
    }
    Ok(())
}

/// The number of slots that the node applied that applied most.
fn most(reports: &[Report<'_>]) -> usize
    ensures { result ≡ most_applied (map applied_in reports.now) }
{
    let mut most = 0;
    for report in reports {
        most = most.max(report.applied.len());
    }
    most
}

/// Adds a notice for each slot for which nodes applied different values. Its time grows with the number of slots.
pub fn add_disagreements(out: &mut Vec<Notice>, reports: &[Report<'_>]) -> Result<(), Fault>
    requires in_order { All (λ report. AreInOrder 1 (applied_in report)) reports.now }
    requires few { length reports.now ≤ NODE_LIMIT }
    ensures added { OnOk result (out.new.items ≡ out.old.items ++ disagreements (map applied_in reports.now)) }
    ensures only_memory { IsOkUnless result Fault.NoMemory }
{
    for place in 0..most(reports) {
        add_slot(out, reports, place as u64 + 1)?;
    }
    Ok(())
}
