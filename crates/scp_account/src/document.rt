//! The document of all nodes.
ghost use Rattle.std.specs.Prelude.{◌≡◌, ◌++◌, All, codes, false, IfOk, IsOkUnless, map, string_bytes};
ghost use Rattle.serde_json.specs.Data.{array, object, member, no_members, string};
ghost use Rattle.serde_json.specs.View.{view, items_of};
ghost use Rattle.serde_json.specs.Written.{compact_text, has_float};
ghost use Rattle.scp_line.specs.scp_report.specs.Report.{view_of};
ghost use Rattle.scp_account.specs.Account.{account_json, account_text, mode_word};
ghost use Rattle.scp_account.specs.Fits.{FitsNode};

use crate::node::{Mode, node_value};
use scp_facts::{Kept, happenings_at};
use scp_line::Report;
use scp_line::below::types::Fault;
use serde_json::{Value, json};
use std::alloc::{AllocError, Global};

/// The account of a node, from what was kept of all nodes.
fn account_of(alloc: Global, mode: Mode, report: &Report<'_>, kept: &[Kept]) -> Result<Value, Fault>
    ensures value { IfOk result (λ v. view v ≡ account_json mode kept.now (view_of report.now)) }
    ensures only_memory { FitsNode (view_of report.now) → IsOkUnless result Fault.NoMemory }
{
    let happenings = happenings_at(alloc, report.node, kept)?;
    node_value(alloc, mode, report, happenings.as_slice())
}

/// The accounts of all nodes.
fn accounts(
    alloc: Global,
    mode: Mode,
    reports: &[Report<'_>],
    kept: &[Kept],
) -> Result<Value, Fault>
    ensures value { IfOk result (λ v. view v ≡ array (items_of (map (account_json mode kept.now) (map view_of reports.now)))) }
    ensures only_memory { All (λ report. FitsNode (view_of report)) reports.now → IsOkUnless result Fault.NoMemory }
{
    let mut values = Vec::new(alloc);
    for report in reports {
        values.push(account_of(alloc, mode, report, kept)?)?;
    }
    Ok(Value::from(values))
}

/// The word of how nodes ran.
fn word_of_mode(mode: Mode) -> &'static str
    ensures { result.now ≡ mode_word mode }
{
    match mode {
        Mode::Serial => "serial",
        Mode::Threads => "threads",
    }
}

/// The document of all nodes.
fn document(alloc: Global, mode: Mode, nodes: Value) -> Result<Value, AllocError>
    ensures { IfOk result (λ v. view v ≡ object (member (codes "mode") (string (mode_word mode)) (member (codes "nodes") (view nodes) no_members))) }
{
    let word = word_of_mode(mode);
    json!(in alloc; {"mode": word, "nodes": nodes})
}

/// The text of a document, in one line.
fn line_of(alloc: Global, document: &Value) -> Result<String, AllocError>
    ensures { IfOk result (λ text. has_float (view document.now) ≡ false → string_bytes text ≡ compact_text (view document.now) ++ codes "\n") }
{
    let mut text = document.to_string(alloc)?;
    text.push_str("\n")?;
    Ok(text)
}

/// The account of nodes that ran so, from their records and from what was kept of their steps, as one JSON document in one line. Nothing is kept
/// of steps in threads. It takes time in proportion to the entries, and to the product of what was kept and the number of links.
pub fn account(
    alloc: Global,
    mode: Mode,
    reports: &[Report<'_>],
    kept: &[Kept],
) -> Result<String, Fault>
    // The text is that of a document that the records and what was kept determine.
    ensures text { IfOk result (λ text. string_bytes text ≡ account_text mode (map view_of reports.now) kept.now) }
    // If no message, set or own statement of a node breaks a limit, the call is refused only when memory runs out.
    ensures only_memory { All FitsNode (map view_of reports.now) → IsOkUnless result Fault.NoMemory }
{
    let nodes = accounts(alloc, mode, reports, kept)?;
    let document = document(alloc, mode, nodes)?;
    Ok(line_of(alloc, &document)?)
}
