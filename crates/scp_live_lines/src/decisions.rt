//! The lines of decisions and of applied slots.
ghost use Rattle.std.specs.Prelude.{◌≡◌, ◌++◌, OnOk, map, string_bytes};
ghost use Rattle.scp_live_lines.specs.Decisions.{origin_words, decided_line, applied_line};

use crate::fates::write_conn;
use scp_core::below::ledger::{Decision, Origin};
use scp_core::below::types::NodeId;
use scp_words::write_hex;
use std::alloc::AllocError;

/// Adds the words for what a decision rests on: `machine`, or `record NAME LIFE SEQ`.
fn write_origin(
    text: &mut String,
    names: &[String],
    peers: &[NodeId],
    origin: &Origin,
) -> Result<(), AllocError>
    ensures { OnOk result (string_bytes text.new ≡ string_bytes text.old ++ origin_words (map string_bytes names.now) peers.now origin.now) }
{
    match origin {
        Origin::Machine { .. } => text.push_str("machine"),
        Origin::Named { conn, seq } => {
            text.push_str("record ")?;
            write_conn(text, names, peers, conn)?;
            let number = seq.0;
            write!(text, " {number}")
        }
    }
}

/// Adds the line of a decision: `decided SLOT HEX machine`, or `decided SLOT HEX record NAME LIFE SEQ`.
pub fn write_decided(
    text: &mut String,
    names: &[String],
    peers: &[NodeId],
    decision: &Decision,
) -> Result<(), AllocError>
    ensures { OnOk result (string_bytes text.new ≡ string_bytes text.old ++ decided_line (map string_bytes names.now) peers.now decision.now) }
{
    let slot = decision.slot.0;
    write!(text, "decided {slot} ")?;
    write_hex(text, decision.value.as_slice())?;
    text.push_str(" ")?;
    write_origin(text, names, peers, &decision.origin)?;
    text.push_str("\n")?;
    Ok(())
}

/// Adds the line of an applied slot: `applied SLOT HEX`.
pub fn write_applied(text: &mut String, decision: &Decision) -> Result<(), AllocError>
    ensures { OnOk result (string_bytes text.new ≡ string_bytes text.old ++ applied_line decision.now) }
{
    let slot = decision.slot.0;
    write!(text, "applied {slot} ")?;
    write_hex(text, decision.value.as_slice())?;
    text.push_str("\n")?;
    Ok(())
}
