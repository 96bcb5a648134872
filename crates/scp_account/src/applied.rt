//! What a node applied, as JSON.
ghost use Rattle.std.specs.Prelude.{◌≡◌, IfOk, map};
ghost use Rattle.std.specs.FinMap as fin;
ghost use Rattle.serde_json.specs.Data.{array};
ghost use Rattle.serde_json.specs.View.{view, items_of};
ghost use Rattle.scp_line.specs.scp_report.specs.Report.{state_of};
ghost use Rattle.scp_account.specs.Node.{applied_json, key_json};

use crate::digits::digits_of;
use scp_line::below::kv::KvState;
use scp_line::below::ledger::{Decision, SharedDecision};
use scp_line::below::types::Value as Bytes;
use serde_json::{Value, json};
use std::alloc::{AllocError, Global};

/// An applied slot.
fn applied_value(alloc: Global, applied: &Decision) -> Result<Value, AllocError>
    ensures { IfOk result (λ v. view v ≡ applied_json applied.now) }
{
    let slot = applied.slot.0;
    json!(in alloc; {"slot": slot, "value": digits_of(alloc, applied.value.as_slice())?})
}

/// The applied slots, in their order.
pub fn applied_values(alloc: Global, applied: &[SharedDecision]) -> Result<Value, AllocError>
    ensures { IfOk result (λ v. view v ≡ array (items_of (map applied_json applied.now))) }
{
    let mut values = Vec::new(alloc);
    for decision in applied {
        values.push(applied_value(alloc, decision.get())?)?;
    }
    Ok(Value::from(values))
}

/// A key of the state with its value.
fn key_value(alloc: Global, key: &Bytes, value: &Bytes) -> Result<Value, AllocError>
    ensures { IfOk result (λ v. view v ≡ key_json (key.now, value.now)) }
{
    json!(in alloc; {"key": digits_of(alloc, key.as_slice())?, "value": digits_of(alloc, value.as_slice())?})
}

/// The keys of a state with their values, ascending by key.
fn keys_of(alloc: Global, state: &KvState) -> Result<Value, AllocError>
    ensures { IfOk result (λ v. view v ≡ array (items_of (map key_json (fin.entries state.now)))) }
{
    let mut values = Vec::new(alloc);
    for (key, value) in state.lines() {
        values.push(key_value(alloc, key, value)?)?;
    }
    Ok(Value::from(values))
}

/// The keys of a state with their values, ascending by key. There are none if the state can't be read.
pub fn state_values(alloc: Global, state: Option<&KvState>) -> Result<Value, AllocError>
    ensures { IfOk result (λ v. view v ≡ array (items_of (map key_json (state_of state.entry)))) }
{
    match state {
        Some(state) => keys_of(alloc, state),
        None => Ok(Value::from(Vec::<Value>::new(alloc))),
    }
}
