//! What a node applied, as JSON.
ghost use Rattle.std.specs.Prelude.{◌≡◌, map, codes, IfOk, IsOkUnless, string_bytes};
ghost use Rattle.std.specs.FinMap as fin;
ghost use Rattle.hex.specs.Hex.{encode_lower};
ghost use Rattle.serde_json.specs.Data.{string, array, object, member, no_members};
ghost use Rattle.serde_json.specs.View.{view, items_of};
ghost use Rattle.scp_text.specs.Values.{bytes_text, value_text};
ghost use Rattle.scp_report.specs.Settled.{node_number};
ghost use Rattle.scp_report.specs.Json.{count, origin_json, applied_json, state_json};

use crate::settled::number_of;
use scp_core::below::kv::KvState;
use scp_core::below::types::{ConnId, Fault, Value as Bytes};
use scp_core::{Decision, Origin, SharedDecision};
use scp_text::{Term, write_bytes};
use serde_json::{Value, json};
use std::alloc::{AllocError, Global};

/// A record that named a value.
fn named(alloc: Global, conn: &ConnId, number: u64) -> Result<Value, AllocError>
    ensures { IfOk result (λ v. view v ≡ object (member (codes "from") (count (node_number conn.now.from)) (member (codes "kind") (string (codes "record")) (member (codes "life") (count conn.now.life) (member (codes "message") (count number) no_members))))) }
{
    let from = number_of(&conn.from);
    let life = conn.life;
    json!(in alloc; {"from": from, "kind": "record", "life": life, "message": number})
}

/// What a decision rests on.
fn origin_value(alloc: Global, origin: &Origin) -> Result<Value, AllocError>
    ensures { IfOk result (λ v. view v ≡ origin_json origin.now) }
{
    match origin {
        Origin::Machine { .. } => json!(in alloc; {"kind": "machine"}),
        Origin::Named { conn, seq } => named(alloc, conn, seq.0),
    }
}

/// The text of a value.
fn text_of(alloc: Global, value: &Bytes) -> Result<String, Fault>
    ensures text { IfOk result (λ text. string_bytes text ≡ value_text value.now) }
    ensures only_memory { IsOkUnless result Fault.NoMemory }
{
    let mut text = String::new(alloc);
    value.write(&mut text)?;
    Ok(text)
}

/// The text of a key, or of its value.
fn word_of(alloc: Global, bytes: &Bytes) -> Result<String, Fault>
    ensures text { IfOk result (λ text. string_bytes text ≡ bytes_text bytes.now) }
    ensures only_memory { IsOkUnless result Fault.NoMemory }
{
    let mut text = String::new(alloc);
    write_bytes(&mut text, bytes.as_slice())?;
    Ok(text)
}

/// An applied slot, from what its decision rests on and from its value as hex digits and as text.
fn applied_with(
    alloc: Global,
    origin: Value,
    slot: u64,
    digits: String,
    text: String,
) -> Result<Value, AllocError>
    ensures { IfOk result (λ v. view v ≡ object (member (codes "origin") (view origin) (member (codes "slot") (count slot) (member (codes "value") (string (string_bytes digits)) (member (codes "value_text") (string (string_bytes text)) no_members))))) }
{
    json!(in alloc; {"origin": origin, "slot": slot, "value": digits, "value_text": text})
}

/// An applied slot.
fn applied_value(alloc: Global, applied: &Decision) -> Result<Value, Fault>
    ensures value { IfOk result (λ v. view v ≡ applied_json applied.now) }
    ensures only_memory { IsOkUnless result Fault.NoMemory }
{
    let origin = origin_value(alloc, &applied.origin)?;
    let digits = hex::encode(alloc, applied.value.as_slice())?;
    let text = text_of(alloc, &applied.value)?;
    let value = applied_with(alloc, origin, applied.slot.0, digits, text)?;
    Ok(value)
}

/// The applied slots, from 1 on, as a JSON array. The only refusal is `NoMemory`.
pub fn applied_values(alloc: Global, applied: &[SharedDecision]) -> Result<Value, Fault>
    ensures value { IfOk result (λ v. view v ≡ array (items_of (map applied_json applied.now))) }
    ensures only_memory { IsOkUnless result Fault.NoMemory }
{
    let mut values = Vec::new(alloc);
    for decision in applied {
        values.push(applied_value(alloc, decision.get())?)?;
    }
    Ok(Value::from(values))
}

/// A key of the state with its value, each as hex digits and as text.
fn entry_with(
    alloc: Global,
    key: String,
    key_text: String,
    value: String,
    value_text: String,
) -> Result<Value, AllocError>
    ensures { IfOk result (λ v. view v ≡ object (member (codes "key") (string (string_bytes key)) (member (codes "key_text") (string (string_bytes key_text)) (member (codes "value") (string (string_bytes value)) (member (codes "value_text") (string (string_bytes value_text)) no_members))))) }
{
    json!(in alloc; {"key": key, "key_text": key_text, "value": value, "value_text": value_text})
}

/// A key of the state with its value.
fn entry_value(alloc: Global, key: &Bytes, value: &Bytes) -> Result<Value, Fault>
    ensures value { IfOk result (λ v. view v ≡ state_json (key.now, value.now)) }
    ensures only_memory { IsOkUnless result Fault.NoMemory }
{
    let key_digits = hex::encode(alloc, key.as_slice())?;
    let key_text = word_of(alloc, key)?;
    let value_digits = hex::encode(alloc, value.as_slice())?;
    let value_text = word_of(alloc, value)?;
    let entry = entry_with(alloc, key_digits, key_text, value_digits, value_text)?;
    Ok(entry)
}

/// The keys of a state with their values, ascending by key, as a JSON array. The only refusal is `NoMemory`.
pub fn state_values(alloc: Global, state: &KvState) -> Result<Value, Fault>
    ensures value { IfOk result (λ v. view v ≡ array (items_of (map state_json (fin.entries state.now)))) }
    ensures only_memory { IsOkUnless result Fault.NoMemory }
{
    let mut values = Vec::new(alloc);
    for (key, value) in state.lines() {
        values.push(entry_value(alloc, key, value)?)?;
    }
    Ok(Value::from(values))
}
