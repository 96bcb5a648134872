//! The account of a node.
ghost use Rattle.std.specs.Prelude.{◌≡◌, codes, IfOk, IsOkUnless, map};
ghost use Rattle.serde_json.specs.Data.{array, object, member, no_members};
ghost use Rattle.serde_json.specs.View.{view, items_of};
ghost use Rattle.scp_line.specs.scp_report.specs.Report.{view_of};
ghost use Rattle.scp_account.specs.Pieces.{count as whole};
ghost use Rattle.scp_account.specs.Decisions.{decision_json};
ghost use Rattle.scp_account.specs.Node.{node_json, serial_json, threads_json};
ghost use Rattle.scp_account.specs.Fits.{FitsNode};
ghost use Rattle.scp_account.specs.inside.Happened.{happened};

use crate::applied::{applied_values, state_values};
use crate::arrived::arrival_values;
use crate::commands::fate_values;
use crate::decisions::decision_values;
use crate::digits::{id_value, set_value};
use crate::links::link_values;
use crate::parked::{parked_values, waiting_values};
use crate::spoken::spoken_in;
use crate::taken::{entry_values, taken_values};
use scp_facts::{Happening, ticks_of};
use scp_line::Report;
use scp_line::below::types::Fault;
use serde_json::{Value, json};
use std::alloc::{AllocError, Global};

/// How nodes ran.
#[derive(Clone, Copy, PartialEq, Eq)]
pub enum Mode {
    /// One step after another, in a script or live.
    Serial,
    /// Each stage in a thread of its own.
    Threads,
}

/// The node's decisions, with the entries that justify them.
fn decisions(alloc: Global, report: &Report<'_>) -> Result<Value, Fault>
    ensures value { IfOk result (λ v. view v ≡ array (items_of (map (decision_json report.now.me report.now.journal.now) report.now.decisions.now))) }
    ensures only_memory { FitsNode (view_of report.now) → IsOkUnless result Fault.NoMemory }
{
    let spoken = spoken_in(alloc, report.journal)?;
    decision_values(alloc, &report.me, &spoken, report.decisions)
}

/// The account of a node that took one step after another, from its parts.
fn serial_with(
    alloc: Global,
    applied: Value,
    decisions: Value,
    id: Value,
    links: Value,
    number: u8,
    parked: Value,
    set: Value,
    state: Value,
    taken: Value,
    ticks: usize,
) -> Result<Value, AllocError>
    ensures { IfOk result (λ v. view v ≡ object (member (codes "applied") (view applied) (member (codes "decisions") (view decisions) (member (codes "id") (view id) (member (codes "links") (view links) (member (codes "node") (whole number) (member (codes "parked") (view parked) (member (codes "set") (view set) (member (codes "state") (view state) (member (codes "taken") (view taken) (member (codes "ticks") (whole ticks) no_members))))))))))) }
{
    json!(in alloc; {"applied": applied, "decisions": decisions, "id": id, "links": links, "node": number, "parked": parked, "set": set, "state": state, "taken": taken, "ticks": ticks})
}

/// The account of a node that took one step after another, and at which this happened.
fn serial_value(
    alloc: Global,
    report: &Report<'_>,
    happenings: &[&Happening],
) -> Result<Value, Fault>
    ensures value { IfOk result (λ v. view v ≡ serial_json (view_of report.now) (happened happenings.now)) }
    ensures only_memory { FitsNode (view_of report.now) → IsOkUnless result Fault.NoMemory }
{
    let applied = applied_values(alloc, report.applied)?;
    let decisions = decisions(alloc, report)?;
    let id = id_value(alloc, &report.me)?;
    let links = link_values(alloc, report.links.as_slice(), happenings)?;
    let parked = parked_values(alloc, report.parked.as_slice())?;
    let set = set_value(alloc, report.set)?;
    let state = state_values(alloc, report.state)?;
    let taken = taken_values(alloc, report.journal, happenings)?;
    let ticks = ticks_of(happenings);
    let node = report.node;
    let value = serial_with(
        alloc, applied, decisions, id, links, node, parked, set, state, taken, ticks,
    )?;
    Ok(value)
}

/// The account of a node whose stages ran in threads, from its parts.
fn threads_with(
    alloc: Global,
    applied: Value,
    commands: Value,
    id: Value,
    links: Value,
    number: u8,
    parked: Value,
    set: Value,
    state: Value,
    taken: Value,
) -> Result<Value, AllocError>
    ensures { IfOk result (λ v. view v ≡ object (member (codes "applied") (view applied) (member (codes "commands") (view commands) (member (codes "id") (view id) (member (codes "links") (view links) (member (codes "node") (whole number) (member (codes "parked") (view parked) (member (codes "set") (view set) (member (codes "state") (view state) (member (codes "taken") (view taken) no_members)))))))))) }
{
    json!(in alloc; {"applied": applied, "commands": commands, "id": id, "links": links, "node": number, "parked": parked, "set": set, "state": state, "taken": taken})
}

/// The account of a node whose stages ran in threads.
fn threads_value(alloc: Global, report: &Report<'_>) -> Result<Value, Fault>
    ensures value { IfOk result (λ v. view v ≡ threads_json (view_of report.now)) }
    ensures only_memory { FitsNode (view_of report.now) → IsOkUnless result Fault.NoMemory }
{
    let applied = decisions(alloc, report)?;
    let commands = fate_values(alloc, report.commands)?;
    let id = id_value(alloc, &report.me)?;
    let links = arrival_values(alloc, report.came, report.links.as_slice())?;
    let parked = waiting_values(alloc, report.messages)?;
    let set = set_value(alloc, report.set)?;
    let state = state_values(alloc, report.state)?;
    let taken = entry_values(alloc, report.journal)?;
    let node = report.node;
    let value = threads_with(
        alloc, applied, commands, id, links, node, parked, set, state, taken,
    )?;
    Ok(value)
}

/// The account of a node that ran so, and at which this happened. What happened isn't part of the account of threads.
pub fn node_value(
    alloc: Global,
    mode: Mode,
    report: &Report<'_>,
    happenings: &[&Happening],
) -> Result<Value, Fault>
    ensures value { IfOk result (λ v. view v ≡ node_json mode (view_of report.now) (happened happenings.now)) }
    ensures only_memory { FitsNode (view_of report.now) → IsOkUnless result Fault.NoMemory }
{
    match mode {
        Mode::Serial => serial_value(alloc, report, happenings),
        Mode::Threads => threads_value(alloc, report),
    }
}
