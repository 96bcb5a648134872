//! The text of a node's report, in the fixed form.
ghost use Rattle.std.specs.Prelude.{◌≡◌, ◌++◌, [], List, OnOk, IfOk, string_bytes, flat_map, fold, if◌then◌else◌};
ghost use Rattle.std.specs.Ordering.{is_eq};
ghost use Rattle.std.specs.FinMap as map;
ghost use Rattle.scp_core.specs.scp_types.specs.declared.names.ConnId.{ConnId};
ghost use Rattle.std.specs.BTreeSet.{insert_key};
ghost use Rattle.scp_core.specs.scp_ledger.specs.declared.journal.Fate.{Fate};
ghost use Rattle.scp_core.specs.scp_theorem.specs.Fates.{conn_of};
ghost use Rattle.scp_core.specs.scp_types.specs.Order.{conn_cmp};
ghost use Rattle.scp_report.specs.declared.report.Parked.{Parked};
ghost use Rattle.scp_report.specs.Report.{view_of};
ghost use Rattle.scp_report.specs.Settled.{fate_line, parked_line, parked_lines, node_number, origin_words, applied_line, state_line, conns_of, conn_line, fate_lines, section_of, settled_of, AreConnections};
ghost use Rattle.scp_report.specs.inside.Sections.{lines_at};

use crate::report::{Parked, Report};
use scp_core::below::kv::KvState;
use scp_core::below::types::{ConnId, NodeId};
use scp_core::{Decision, Fate, Origin, SharedDecision};
use scp_words::{word_of_cause, word_of_drop, word_of_verdict, write_hex};
use std::alloc::{AllocError, Global};
use std::collections::{BTreeMap, BTreeSet};

/// Adds the line of a journal entry.
fn write_fate(text: &mut String, fate: &Fate) -> Result<(), AllocError>
    ensures { OnOk result (string_bytes text.new ≡ string_bytes text.old ++ fate_line fate.now) }
{
    match fate {
        Fate::Taken { seq, verdict, .. } => {
            let number = seq.0;
            let word = word_of_verdict(*verdict);
            writeln!(text, "{number} taken {word}")
        }
        Fate::Dropped { seq, cause, .. } => {
            let number = seq.0;
            let word = word_of_drop(*cause);
            writeln!(text, "{number} dropped {word}")
        }
        Fate::Closed { cause, .. } => {
            let word = word_of_cause(*cause);
            writeln!(text, "closed {word}")
        }
    }
}

/// The number of a node whose id is 32 bytes of its number.
pub fn number_of(id: &NodeId) -> u8
    ensures { result ≡ node_number id.now }
{
    id.0[0]
}

/// Adds the words for what a decision rests on: the node's own machine, or a record, named by its connection and number.
pub fn write_origin(text: &mut String, origin: &Origin) -> Result<(), AllocError>
    ensures { OnOk result (string_bytes text.new ≡ string_bytes text.old ++ origin_words origin.now) }
{
    match origin {
        Origin::Machine { .. } => text.push_str("machine"),
        Origin::Named { conn, seq } => {
            let sender = number_of(&conn.from);
            let life = conn.life;
            let number = seq.0;
            write!(text, "record {sender} {life} {number}")
        }
    }
}

/// Adds the line of an applied slot.
fn write_applied(text: &mut String, applied: &Decision) -> Result<(), AllocError>
    ensures { OnOk result (string_bytes text.new ≡ string_bytes text.old ++ applied_line applied.now) }
{
    let slot = applied.slot.0;
    write!(text, "applied {slot} ")?;
    write_hex(text, applied.value.as_slice())?;
    text.push_str(" ")?;
    write_origin(text, &applied.origin)?;
    text.push_str("\n")?;
    Ok(())
}

/// Adds the lines of the applied slots.
fn write_applied_list(text: &mut String, applied: &[SharedDecision]) -> Result<(), AllocError>
    ensures { OnOk result (string_bytes text.new ≡ string_bytes text.old ++ flat_map applied_line applied.now) }
{
    for decision in applied {
        write_applied(text, decision.get())?;
    }
    Ok(())
}

/// Adds the lines of the state, ascending by key.
fn write_state(text: &mut String, state: &KvState) -> Result<(), AllocError>
    ensures { OnOk result (string_bytes text.new ≡ string_bytes text.old ++ flat_map state_line (map.entries state.now)) }
{
    for (key, value) in state.lines() {
        text.push_str("state ")?;
        write_hex(text, key.as_slice())?;
        text.push_str("=")?;
        write_hex(text, value.as_slice())?;
        text.push_str("\n")?;
    }
    Ok(())
}

/// Adds the connections with entries.
fn add_journal(conns: &mut BTreeSet<ConnId>, journal: &[Fate]) -> Result<(), AllocError>
    ensures { OnOk result (conns.new.keys ≡ fold (λ keys fate. insert_key conn_cmp keys (conn_of fate)) conns.old.keys journal.now) }
{
    for fate in journal {
        conns.insert(conn_of_fate(fate))?;
    }
    Ok(())
}

/// The connection of parked messages.
fn conn_of_parked(waiting: &Parked) -> ConnId
    ensures { result ≡ waiting.now.conn }
{
    waiting.conn
}

/// Adds the connections with parked messages.
fn add_parked(conns: &mut BTreeSet<ConnId>, parked: &[Parked]) -> Result<(), AllocError>
    ensures { OnOk result (conns.new.keys ≡ fold (λ keys waiting. insert_key conn_cmp keys waiting.conn) conns.old.keys parked.now) }
{
    for waiting in parked {
        conns.insert(conn_of_parked(waiting))?;
    }
    Ok(())
}

/// The connections with journal entries or parked messages, ascending.
pub fn connections_of(
    alloc: Global,
    journal: &[Fate],
    parked: &[Parked],
) -> Result<BTreeSet<ConnId>, AllocError>
    ensures { IfOk result (λ conns. conns.keys ≡ conns_of journal.now parked.now) }
{
    let mut conns = BTreeSet::new(alloc);
    add_journal(&mut conns, journal)?;
    add_parked(&mut conns, parked)?;
    Ok(conns)
}

/// Takes out the lines of a connection.
fn take_lines(alloc: Global, sections: &mut BTreeMap<ConnId, String>, conn: ConnId) -> String
    ensures lines { string_bytes result ≡ lines_at sections.old conn }
    ensures others { (other : ConnId) → lines_at sections.new other ≡ (if is_eq (conn_cmp conn other) then [] else lines_at sections.old other) }
{
    match sections.remove(&conn) {
        Some(lines) => lines,
        None => String::new(alloc),
    }
}

/// Puts lines in as those of a connection.
fn put_lines(
    sections: &mut BTreeMap<ConnId, String>,
    conn: ConnId,
    lines: String,
) -> Result<(), AllocError>
    ensures { OnOk result ((other : ConnId) → lines_at sections.new other ≡ (if is_eq (conn_cmp conn other) then string_bytes lines else lines_at sections.old other)) }
{
    sections.insert(conn, lines)?;
    Ok(())
}

/// The connections of a report ascend by sender and life, each appears once, and they are exactly those with journal entries or parked
/// messages.
pub fn connections_are_those_with_entries()
    ensures { (journal : List Fate) → (parked : List Parked) → AreConnections journal parked (conns_of journal parked) }
{}

/// Adds an entry's line to the lines of its connection.
fn sort_in(
    alloc: Global,
    sections: &mut BTreeMap<ConnId, String>,
    fate: &Fate,
) -> Result<(), AllocError>
    ensures { OnOk result ((conn : ConnId) → lines_at sections.new conn ≡ (if is_eq (conn_cmp (conn_of fate.now) conn) then lines_at sections.old (conn_of fate.now) ++ fate_line fate.now else lines_at sections.old conn)) }
{
    let conn = conn_of_fate(fate);
    let mut lines = take_lines(alloc, sections, conn);
    write_fate(&mut lines, fate)?;
    put_lines(sections, conn, lines)?;
    Ok(())
}

/// Adds the line that shows how many messages of a connection are parked.
fn write_parked(lines: &mut String, count: usize) -> Result<(), AllocError>
    ensures { OnOk result (string_bytes lines.new ≡ string_bytes lines.old ++ parked_line count) }
{
    writeln!(lines, "parked {count}")
}

/// Adds a count of parked messages to the lines of its connection.
fn sort_parked(
    alloc: Global,
    sections: &mut BTreeMap<ConnId, String>,
    waiting: &Parked,
) -> Result<(), AllocError>
    ensures { OnOk result ((conn : ConnId) → lines_at sections.new conn ≡ (if is_eq (conn_cmp waiting.now.conn conn) then lines_at sections.old waiting.now.conn ++ parked_line waiting.now.count else lines_at sections.old conn)) }
{
    let conn = waiting.conn;
    let mut lines = take_lines(alloc, sections, conn);
    write_parked(&mut lines, waiting.count)?;
    put_lines(sections, conn, lines)?;
    Ok(())
}

/// Adds each count of parked messages to the lines of its connection.
fn sort_all_parked(
    alloc: Global,
    sections: &mut BTreeMap<ConnId, String>,
    parked: &[Parked],
) -> Result<(), AllocError>
    ensures { OnOk result ((conn : ConnId) → lines_at sections.new conn ≡ lines_at sections.old conn ++ parked_lines parked.now conn) }
{
    for waiting in parked {
        sort_parked(alloc, sections, waiting)?;
    }
    Ok(())
}

/// The lines of each connection's entries, in one pass over the journal.
fn sections(alloc: Global, journal: &[Fate]) -> Result<BTreeMap<ConnId, String>, AllocError>
    ensures { IfOk result (λ sections. (conn : ConnId) → lines_at sections conn ≡ fate_lines journal.now conn) }
{
    let mut sections = BTreeMap::new(alloc);
    for fate in journal {
        sort_in(alloc, &mut sections, fate)?;
    }
    Ok(sections)
}

/// Adds the section of a connection.
fn write_section(
    text: &mut String,
    sections: &BTreeMap<ConnId, String>,
    conn: &ConnId,
) -> Result<(), AllocError>
    ensures { OnOk result (string_bytes text.new ≡ string_bytes text.old ++ (conn_line conn.now ++ lines_at sections.now conn.now)) }
{
    let sender = number_of(&conn.from);
    let life = conn.life;
    writeln!(text, "conn {sender} {life}")?;
    if let Some(lines) = sections.get(conn) {
        text.push_str(lines.as_str())?;
    }
    Ok(())
}

/// Adds the section of each connection, ascending. The time grows with the number of entries times the logarithm of the number of
/// connections.
pub fn write_sections(
    text: &mut String,
    journal: &[Fate],
    parked: &[Parked],
) -> Result<(), AllocError>
    ensures { OnOk result (string_bytes text.new ≡ string_bytes text.old ++ flat_map (section_of journal.now parked.now) (conns_of journal.now parked.now)) }
{
    let alloc = *text.allocator();
    let mut sections = sections(alloc, journal)?;
    sort_all_parked(alloc, &mut sections, parked)?;
    let conns = connections_of(alloc, journal, parked)?;
    for conn in &conns {
        write_section(text, &sections, conn)?;
    }
    Ok(())
}

/// The connection of an entry.
pub fn conn_of_fate(fate: &Fate) -> ConnId
    ensures { result ≡ conn_of fate.now }
{
    match fate {
        Fate::Taken { conn, .. } => *conn,
        Fate::Dropped { conn, .. } => *conn,
        Fate::Closed { conn, .. } => *conn,
    }
}

/// Adds a node's report. The time grows with the number of entries times the logarithm of the number of connections.
pub fn write_settled(text: &mut String, report: &Report<'_>) -> Result<(), AllocError>
    ensures { OnOk result (string_bytes text.new ≡ string_bytes text.old ++ settled_of (view_of report.now)) }
{
    let node = report.node;
    writeln!(text, "node {node}")?;
    write_sections(text, report.journal, report.parked.as_slice())?;
    write_applied_list(text, report.applied)?;
    if let Some(state) = report.state {
        write_state(text, state)?;
    }
    text.push_str("end\n")?;
    Ok(())
}
