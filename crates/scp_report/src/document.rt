//! The report of a node as JSON, and the document of all reports.
ghost use Rattle.std.specs.Prelude.{◌≡◌, map, codes, IfOk, IsOkUnless, List, string_bytes};
ghost use Rattle.serde_json.specs.Data.{array, object, member, no_members};
ghost use Rattle.serde_json.specs.View.{view, items_of};
ghost use Rattle.scp_report.specs.Report.{ReportView, view_of, state_of};
ghost use Rattle.scp_report.specs.Json.{count, json_of, state_json, document_of, document_text};

use crate::applied::{applied_values, state_values};
use crate::connections::connection_values;
use crate::report::Report;
use scp_core::below::kv::KvState;
use scp_core::below::types::Fault;
use serde_json::{Value, json};
use std::alloc::{AllocError, Global};

/// The keys of a state with their values; none if there is no state.
fn state_or_none(alloc: Global, state: Option<&KvState>) -> Result<Value, Fault>
    ensures value { IfOk result (λ v. view v ≡ array (items_of (map state_json (state_of state.entry)))) }
    ensures only_memory { IsOkUnless result Fault.NoMemory }
{
    match state {
        Some(state) => state_values(alloc, state),
        None => Ok(Value::from(Vec::<Value>::new(alloc))),
    }
}

/// A node, from its parts.
fn node_with(
    alloc: Global,
    applied: Value,
    connections: Value,
    node: u8,
    state: Value,
) -> Result<Value, AllocError>
    ensures { IfOk result (λ v. view v ≡ object (member (codes "applied") (view applied) (member (codes "connections") (view connections) (member (codes "node") (count node) (member (codes "state") (view state) no_members))))) }
{
    json!(in alloc; {"applied": applied, "connections": connections, "node": node, "state": state})
}

/// The report of a node as JSON. The time grows with the number of entries times the logarithm of the number of connections. The only refusal
/// is `NoMemory`.
pub fn value_of(alloc: Global, report: &Report<'_>) -> Result<Value, Fault>
    // It is the JSON of what the record shows.
    ensures value { IfOk result (λ v. view v ≡ json_of (view_of report.now)) }
    ensures only_memory { IsOkUnless result Fault.NoMemory }
{
    let applied = applied_values(alloc, report.applied)?;
    let connections = connection_values(alloc, report.journal, report.parked.as_slice())?;
    let state = state_or_none(alloc, report.state)?;
    let value = node_with(alloc, applied, connections, report.node, state)?;
    Ok(value)
}

/// The document of the reports of nodes.
#[tactic(auto, using(crate::proofs::Documents::document_is))]
fn document_value(alloc: Global, nodes: Vec<Value>) -> Result<Value, AllocError>
    ensures { IfOk result (λ v. (views : List ReportView) → map view nodes.items ≡ map json_of views → view v ≡ document_of views) }
{
    json!(in alloc; {"nodes": nodes})
}

/// The text of a document, in one line.
fn document_line(alloc: Global, document: &Value) -> Result<String, AllocError>
    ensures { IfOk result (λ text. (views : List ReportView) → view document.now ≡ document_of views → string_bytes text ≡ document_text views) }
{
    let mut text = document.to_string(alloc)?;
    text.push_str("\n")?;
    Ok(text)
}

/// The document of the reports of nodes, in one line. It fails only if it is out of memory.
pub fn document(alloc: Global, nodes: Vec<Value>) -> Result<String, AllocError>
    ensures { IfOk result (λ text. (views : List ReportView) → map view nodes.items ≡ map json_of views → string_bytes text ≡ document_text views) }
{
    let document = document_value(alloc, nodes)?;
    document_line(alloc, &document)
}
