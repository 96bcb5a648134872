//! A report with values and keys as people write them.
ghost use Rattle.std.specs.Prelude.{◌≡◌, ◌++◌, codes, OnOk, IsOkUnless, string_bytes, flat_map};
ghost use Rattle.hex.specs.Hex.{encode_lower};
ghost use Rattle.scp_text.specs.Pieces.{bracketed};
ghost use Rattle.std.specs.FinMap as map;
ghost use Rattle.scp_report.specs.Report.{view_of};
ghost use Rattle.scp_report.specs.Text.{has_equals, key_text, applied_text_line, state_text_line, text_report_of};

use crate::report::Report;
use crate::settled::{write_origin, write_sections};
use scp_core::below::kv::KvState;
use scp_core::below::types::{Fault, Value};
use scp_core::{Decision, SharedDecision};
use scp_text::{Term, write_bytes};
use std::alloc::AllocError;

/// Whether one of the bytes is `=`.
fn has_mark(bytes: &[u8]) -> bool
    ensures { result ≡ has_equals bytes.now }
{
    for byte in bytes {
        if *byte == b'=' {
            return true;
        }
    }
    false
}

/// Adds bytes as hex digits in brackets.
fn write_digits(out: &mut String, bytes: &[u8]) -> Result<(), AllocError>
    ensures { OnOk result (string_bytes out.new ≡ string_bytes out.old ++ bracketed (codes "hex(") (encode_lower bytes.now)) }
{
    let digits = hex::encode(*out.allocator(), bytes)?;
    out.push_str("hex(")?;
    out.push_str(digits.as_str())?;
    out.push_str(")")?;
    Ok(())
}

/// Adds a key as text, or as hex digits if one of its bytes is `=`.
fn write_key(out: &mut String, key: &Value) -> Result<(), Fault>
    ensures added { OnOk result (string_bytes out.new ≡ string_bytes out.old ++ key_text key.now) }
    ensures only_memory { IsOkUnless result Fault.NoMemory }
{
    if has_mark(key.as_slice()) {
        return Ok(write_digits(out, key.as_slice())?);
    }
    write_bytes(out, key.as_slice())
}

/// Adds the line of an applied slot.
fn write_applied(out: &mut String, applied: &Decision) -> Result<(), Fault>
    ensures added { OnOk result (string_bytes out.new ≡ string_bytes out.old ++ applied_text_line applied.now) }
    ensures only_memory { IsOkUnless result Fault.NoMemory }
{
    let slot = applied.slot.0;
    write!(out, "applied {slot} ")?;
    applied.value.write(out)?;
    out.push_str(" ")?;
    write_origin(out, &applied.origin)?;
    out.push_str("\n")?;
    Ok(())
}

/// Adds the lines of the applied slots, with their values as text. The only refusal is `NoMemory`.
fn write_applied_list(out: &mut String, applied: &[SharedDecision]) -> Result<(), Fault>
    ensures added { OnOk result (string_bytes out.new ≡ string_bytes out.old ++ flat_map applied_text_line applied.now) }
    ensures only_memory { IsOkUnless result Fault.NoMemory }
{
    for decision in applied {
        write_applied(out, decision.get())?;
    }
    Ok(())
}

/// Adds the line of a key.
fn write_entry(out: &mut String, key: &Value, value: &Value) -> Result<(), Fault>
    ensures added { OnOk result (string_bytes out.new ≡ string_bytes out.old ++ state_text_line (key.now, value.now)) }
    ensures only_memory { IsOkUnless result Fault.NoMemory }
{
    out.push_str("state ")?;
    write_key(out, key)?;
    out.push_str("=")?;
    write_bytes(out, value.as_slice())?;
    out.push_str("\n")?;
    Ok(())
}

/// Adds the lines of a state, ascending by key, with keys and values as text. The only refusal is `NoMemory`.
fn write_state(out: &mut String, state: &KvState) -> Result<(), Fault>
    ensures added { OnOk result (string_bytes out.new ≡ string_bytes out.old ++ flat_map state_text_line (map.entries state.now)) }
    ensures only_memory { IsOkUnless result Fault.NoMemory }
{
    for (key, value) in state.lines() {
        write_entry(out, key, value)?;
    }
    Ok(())
}

/// Adds a node's report, with values and keys as people write them. The time grows with the number of entries times the logarithm of the
/// number of connections. The only refusal is `NoMemory`.
pub fn write_text(out: &mut String, report: &Report<'_>) -> Result<(), Fault>
    // It is the report of what the record shows.
    ensures added { OnOk result (string_bytes out.new ≡ string_bytes out.old ++ text_report_of (view_of report.now)) }
    ensures only_memory { IsOkUnless result Fault.NoMemory }
{
    let node = report.node;
    writeln!(out, "node {node}")?;
    write_sections(out, report.journal, report.parked.as_slice())?;
    write_applied_list(out, report.applied)?;
    if let Some(state) = report.state {
        write_state(out, state)?;
    }
    out.push_str("end\n")?;
    Ok(())
}
