//! The lines of what became of each message on a connection.
ghost use Rattle.std.specs.Prelude.{◌≡◌, ◌++◌, OnOk, map, string_bytes};
ghost use Rattle.scp_live_lines.specs.Fates.{conn_words, end_words, fate_line};

use crate::names::name_of;
use scp_core::below::ledger::Fate;
use scp_core::below::types::{ConnId, NodeId};
use scp_words::{word_of_cause, word_of_drop, word_of_verdict};
use std::alloc::AllocError;

/// Adds the words for a connection: the name of the peer that sends on it, and its life number.
pub fn write_conn(
    text: &mut String,
    names: &[String],
    peers: &[NodeId],
    conn: &ConnId,
) -> Result<(), AllocError>
    ensures { OnOk result (string_bytes text.new ≡ string_bytes text.old ++ conn_words (map string_bytes names.now) peers.now conn.now) }
{
    let name = name_of(names, peers, &conn.from);
    let life = conn.life;
    write!(text, "{name} {life}")
}

/// Adds what became of the message with this number: the number and two words.
fn write_end(text: &mut String, seq: u64, what: &str, word: &str) -> Result<(), AllocError>
    ensures { OnOk result (string_bytes text.new ≡ string_bytes text.old ++ end_words seq what.now word.now) }
{
    writeln!(text, " {seq} {what} {word}")
}

/// Adds the line of a journal entry: `fate NAME LIFE SEQ taken VERDICT`, `fate NAME LIFE SEQ dropped CAUSE`, or `fate NAME LIFE closed
/// CAUSE`.
pub fn write_fate(
    text: &mut String,
    names: &[String],
    peers: &[NodeId],
    fate: &Fate,
) -> Result<(), AllocError>
    ensures { OnOk result (string_bytes text.new ≡ string_bytes text.old ++ fate_line (map string_bytes names.now) peers.now fate.now) }
{
    text.push_str("fate ")?;
    match fate {
        Fate::Taken {
            conn,
            seq,
            verdict,
            ..
        } => {
            write_conn(text, names, peers, conn)?;
            write_end(text, seq.0, "taken", word_of_verdict(*verdict))
        }
        Fate::Dropped { conn, seq, cause } => {
            write_conn(text, names, peers, conn)?;
            write_end(text, seq.0, "dropped", word_of_drop(*cause))
        }
        Fate::Closed { conn, cause } => {
            write_conn(text, names, peers, conn)?;
            let word = word_of_cause(*cause);
            writeln!(text, " closed {word}")
        }
    }
}
