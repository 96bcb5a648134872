//! The outcome of a run.
ghost use Rattle.std.specs.Prelude.{◌≡◌, ◌≤◌, ◌<◌, ◌+◌, ◌++◌, ◌↔◌, OnOk, IsTrue, filter, length, string_bytes};
ghost use Rattle.std.specs.List.{list_any};
ghost use Rattle.scp_notices.specs.Texts.{notices_text};
ghost use Rattle.scp_sim_findings.specs.Outcome.{judged_of, closed_by, is_judged, has_judged, is_split, cut_of, IsFound, IsWorst, stuck_line, stuck_lines, outcome_text};

use crate::fates::{count_of, write_fates};
use scp_notices::below::node::Node;
use scp_notices::{Notice, Side, text_of_notices};
use scp_script_hints::below::types::NODE_LIMIT;
use std::alloc::{AllocError, Global};

/// Which nodes are judged, as a mark for each node from 1 on, and how many slots they were to apply.
#[derive(Clone, Copy, PartialEq, Eq)]
pub struct Judging {
    pub marks: [bool; NODE_LIMIT],
    pub slots: u64,
}

/// What can be found in a run.
#[derive(Clone, Copy, PartialEq, Eq)]
pub enum Finding {
    /// Judged nodes applied different values for a slot.
    Split,
    /// A judged node applied fewer slots than planned.
    Stuck,
    /// A connection to a judged node was cut.
    Cut,
}

/// How many slots all judged nodes applied, at most `slots`.
pub fn closed(slots: u64, marks: &[bool], nodes: &[Node]) -> u64
    ensures { result ≡ closed_by slots (judged_of marks.now nodes.now) }
{
    match (marks.split_first(), nodes.split_first()) {
        (Some((mark, marks)), Some((node, nodes))) => {
            let rest = closed(slots, marks, nodes);
            if *mark {
                (node.applied().len() as u64).min(rest)
            } else {
                rest
            }
        }
        _ => slots,
    }
}

/// Whether the node with this number is judged.
fn is_judged(marks: &[bool], number: u8) -> bool
    ensures { result ≡ is_judged marks.now number }
{
    if number == 0 {
        return false;
    }
    match marks.get(usize::from(number - 1)) {
        Some(mark) => *mark,
        None => false,
    }
}

/// Whether a judged node is on this side.
fn has_judged(marks: &[bool], side: &Side) -> bool
    ensures { result ≡ has_judged marks.now side.now }
{
    for number in side.nodes.as_slice() {
        if is_judged(marks, *number) {
            return true;
        }
    }
    false
}

/// How many sides have judged nodes on them.
fn sides_with_judged(marks: &[bool], sides: &[Side]) -> usize
    ensures { result ≡ length (filter (has_judged marks.now) sides.now) }
{
    let mut count = 0;
    for side in sides {
        if has_judged(marks, side) {
            count += 1;
        }
    }
    count
}

/// Whether the notice says that judged nodes applied different values for a slot.
fn is_split(marks: &[bool], notice: &Notice) -> bool
    ensures { result ≡ is_split marks.now notice.now }
{
    match notice {
        Notice::Disagree { sides, .. } => sides_with_judged(marks, sides.as_slice()) >= 2,
        Notice::Unsettled { .. }
        | Notice::GaveUp { .. }
        | Notice::Ignored { .. }
        | Notice::Overwritten { .. }
        | Notice::NoWait => false,
    }
}

/// Whether judged nodes applied different values for a slot.
fn has_split(marks: &[bool], notices: &[Notice]) -> bool
    ensures { result ≡ list_any (is_split marks.now) notices.now }
{
    for notice in notices {
        if is_split(marks, notice) {
            return true;
        }
    }
    false
}

/// Whether a connection to a judged node was cut.
fn has_cut(marks: &[bool], nodes: &[Node]) -> bool
    ensures { IsTrue result ↔ 0 < cut_of (judged_of marks.now nodes.now) }
{
    count_of(17, marks, nodes) > 0
        || count_of(18, marks, nodes) > 0
        || count_of(19, marks, nodes) > 0
}

/// Whether this is found in a run.
pub fn is_found(finding: Finding, judging: &Judging, nodes: &[Node], notices: &[Notice]) -> bool
    ensures { IsTrue result ↔ IsFound finding judging.now.marks judging.now.slots nodes.now notices.now }
{
    match finding {
        Finding::Split => has_split(&judging.marks, notices),
        Finding::Stuck => closed(judging.slots, &judging.marks, nodes) < judging.slots,
        Finding::Cut => has_cut(&judging.marks, nodes),
    }
}

/// The worst finding of a run: nodes applied different values, or else one applied fewer slots, or else a connection was cut.
#[tactic(auto, using(crate::proofs::Worst::worst_split, crate::proofs::Worst::worst_stuck, crate::proofs::Worst::worst_cut, crate::proofs::Worst::worst_none))]
pub fn finding_of(judging: &Judging, nodes: &[Node], notices: &[Notice]) -> Option<Finding>
    ensures { IsWorst result judging.now.marks judging.now.slots nodes.now notices.now }
{
    if is_found(Finding::Split, judging, nodes, notices) {
        return Some(Finding::Split);
    }
    if is_found(Finding::Stuck, judging, nodes, notices) {
        return Some(Finding::Stuck);
    }
    if is_found(Finding::Cut, judging, nodes, notices) {
        return Some(Finding::Cut);
    }
    None
}

/// Adds the notices of slots for which judged nodes applied different values, as lines.
fn write_splits(
    alloc: Global,
    text: &mut String,
    marks: &[bool],
    notices: &[Notice],
) -> Result<(), AllocError>
    ensures { OnOk result (string_bytes text.new ≡ string_bytes text.old ++ notices_text (filter (is_split marks.now) notices.now)) }
{
    for notice in notices {
        if is_split(marks, notice) {
            let line = text_of_notices(alloc, std::slice::from_ref(notice))?;
            text.push_str(line.as_str())?;
        }
    }
    Ok(())
}

/// Adds the line of a node that applied fewer slots than planned.
fn write_stuck_node(
    text: &mut String,
    slots: u64,
    number: u8,
    node: &Node,
) -> Result<(), AllocError>
    ensures { OnOk result (string_bytes text.new ≡ string_bytes text.old ++ stuck_line slots number node.now) }
{
    let applied = node.applied().len() as u64;
    if applied < slots {
        writeln!(text, "stuck {number} at {applied}")?;
    }
    Ok(())
}

/// Adds the lines of the judged nodes that applied fewer slots than planned. The first node has this number.
fn write_stuck(
    text: &mut String,
    slots: u64,
    number: u8,
    marks: &[bool],
    nodes: &[Node],
) -> Result<(), AllocError>
    requires few { number + length marks.now ≤ NODE_LIMIT + 1 }
    ensures { OnOk result (string_bytes text.new ≡ string_bytes text.old ++ stuck_lines slots number marks.now nodes.now) }
{
    match (marks.split_first(), nodes.split_first()) {
        (Some((mark, marks)), Some((node, nodes))) => {
            if *mark {
                write_stuck_node(text, slots, number, node)?;
            }
            write_stuck(text, slots, number + 1, marks, nodes)
        }
        _ => Ok(()),
    }
}

/// Adds the outcome of a run at the judged nodes. It has `closed N of SLOTS`, and `disagree SLOT 1,2:VALUE 3,4:VALUE` for each slot for
/// which they applied different values. It has `stuck I at N` for each that applied fewer slots, and the number of fates of each kind.
pub fn write_outcome(
    alloc: Global,
    text: &mut String,
    judging: &Judging,
    nodes: &[Node],
    notices: &[Notice],
) -> Result<(), AllocError>
    ensures { OnOk result (string_bytes text.new ≡ string_bytes text.old ++ outcome_text judging.now.marks judging.now.slots nodes.now notices.now) }
{
    let slots = judging.slots;
    let closed = closed(slots, &judging.marks, nodes);
    writeln!(text, "closed {closed} of {slots}")?;
    write_splits(alloc, text, &judging.marks, notices)?;
    write_stuck(text, slots, 1, &judging.marks, nodes)?;
    write_fates(text, &judging.marks, nodes)
}
