//! The reports that a script asks for, in their three forms, from the records of its nodes.
ghost use Rattle.std.specs.Prelude.{◌≡◌, ◌++◌, ◌∷◌, [], All, IfOk, OnOk, IsOkUnless, flat_map, map, string_bytes};
ghost use Rattle.serde_json.specs.View.{view};
ghost use Rattle.scp_script.specs.Nodes.{NamesNodes, IsSmall};
ghost use Rattle.scp_report.specs.Report.{view_of};
ghost use Rattle.scp_report.specs.Settled.{settled_of};
ghost use Rattle.scp_report.specs.Text.{text_report_of};
ghost use Rattle.scp_report.specs.Json.{json_of, document_text};
ghost use Rattle.scp_report.specs.Reports.{record_at, records_in, settled_text};

use crate::document::{document, value_of};
use crate::report::Report;
use crate::settled::write_settled;
use crate::text::write_text;
use scp_core::below::types::Fault;
use scp_script::Command;
use serde_json::Value;
use std::alloc::{AllocError, Global};

/// Adds the report of the node of this number, if there is one.
fn write_settled_at(out: &mut String, reports: &[Report<'_>], number: u8) -> Result<(), AllocError>
    requires number { IsSmall number }
    ensures { OnOk result (string_bytes out.new ≡ string_bytes out.old ++ flat_map settled_of (record_at (map view_of reports.now) number)) }
{
    match reports.get(usize::from(number - 1)) {
        Some(report) => write_settled(out, report),
        None => Ok(()),
    }
}

/// The reports that the commands ask for, in their order, in the fixed form. `reports` has the records of all nodes, that of node 1 first. It
/// fails only if it is out of memory.
pub fn settled_report(
    alloc: Global,
    reports: &[Report<'_>],
    commands: &[Command],
) -> Result<String, AllocError>
    requires names { All NamesNodes commands.now }
    ensures { IfOk result (λ text. string_bytes text ≡ settled_text (map view_of reports.now) commands.now) }
{
    let mut out = String::new(alloc);
    for command in commands {
        if let Command::Report(number) = command {
            write_settled_at(&mut out, reports, *number)?;
        }
    }
    Ok(out)
}

/// Adds the report of the node of this number, if there is one.
fn write_text_at(out: &mut String, reports: &[Report<'_>], number: u8) -> Result<(), Fault>
    requires number { IsSmall number }
    ensures added { OnOk result (string_bytes out.new ≡ string_bytes out.old ++ flat_map text_report_of (record_at (map view_of reports.now) number)) }
    ensures only_memory { IsOkUnless result Fault.NoMemory }
{
    match reports.get(usize::from(number - 1)) {
        Some(report) => write_text(out, report),
        None => Ok(()),
    }
}

/// The reports that the commands ask for, in their order, with values and keys as people write them. The only refusal is `NoMemory`.
pub fn text_report(
    alloc: Global,
    reports: &[Report<'_>],
    commands: &[Command],
) -> Result<String, Fault>
    requires names { All NamesNodes commands.now }
    // Each is the text of what the report in the fixed form shows.
    ensures text { IfOk result (λ text. string_bytes text ≡ flat_map text_report_of (records_in (map view_of reports.now) commands.now)) }
    ensures only_memory { IsOkUnless result Fault.NoMemory }
{
    let mut out = String::new(alloc);
    for command in commands {
        if let Command::Report(number) = command {
            write_text_at(&mut out, reports, *number)?;
        }
    }
    Ok(out)
}

/// Adds the report of a node.
fn add_node(alloc: Global, out: &mut Vec<Value>, report: &Report<'_>) -> Result<(), Fault>
    ensures added { OnOk result (map view out.new.items ≡ map view out.old.items ++ json_of (view_of report.now) ∷ []) }
    ensures only_memory { IsOkUnless result Fault.NoMemory }
{
    let value = value_of(alloc, report)?;
    out.push(value)?;
    Ok(())
}

/// Adds the report of the node of this number, if there is one.
fn add_node_at(
    alloc: Global,
    out: &mut Vec<Value>,
    reports: &[Report<'_>],
    number: u8,
) -> Result<(), Fault>
    requires number { IsSmall number }
    ensures added { OnOk result (map view out.new.items ≡ map view out.old.items ++ map json_of (record_at (map view_of reports.now) number)) }
    ensures only_memory { IsOkUnless result Fault.NoMemory }
{
    match reports.get(usize::from(number - 1)) {
        Some(report) => add_node(alloc, out, report),
        None => Ok(()),
    }
}

/// The reports that the commands ask for, in their order.
fn node_values(
    alloc: Global,
    reports: &[Report<'_>],
    commands: &[Command],
) -> Result<Vec<Value>, Fault>
    requires names { All NamesNodes commands.now }
    ensures values { IfOk result (λ values. map view values.items ≡ map json_of (records_in (map view_of reports.now) commands.now)) }
    ensures only_memory { IsOkUnless result Fault.NoMemory }
{
    let mut out = Vec::new(alloc);
    for command in commands {
        if let Command::Report(number) = command {
            add_node_at(alloc, &mut out, reports, *number)?;
        }
    }
    Ok(out)
}

/// The reports that the commands ask for, in their order, as one JSON document in one line. The only refusal is `NoMemory`.
pub fn json_report(
    alloc: Global,
    reports: &[Report<'_>],
    commands: &[Command],
) -> Result<String, Fault>
    requires names { All NamesNodes commands.now }
    // It is the document of what the reports in the fixed form show.
    ensures text { IfOk result (λ text. string_bytes text ≡ document_text (records_in (map view_of reports.now) commands.now)) }
    ensures only_memory { IsOkUnless result Fault.NoMemory }
{
    let values = node_values(alloc, reports, commands)?;
    let text = document(alloc, values)?;
    Ok(text)
}
