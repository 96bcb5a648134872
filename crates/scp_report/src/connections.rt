//! The connections of a node as JSON.
ghost use Rattle.std.specs.Prelude.{◌≡◌, List, map, codes, IfOk};
ghost use Rattle.scp_core.specs.scp_ledger.specs.declared.journal.Fate.{Fate};
ghost use Rattle.serde_json.specs.Data.{string, array, object, member, no_members};
ghost use Rattle.serde_json.specs.View.{view, items_of};
ghost use Rattle.scp_words.specs.Words.{verdict_word, cause_word, drop_word};
ghost use Rattle.scp_report.specs.Settled.{node_number, conns_of};
ghost use Rattle.scp_report.specs.Json.{count, fate_json, fates_on, parked_on as parked_at, connection_json};
ghost use Rattle.scp_report.specs.inside.Grouped.{fates_at};

use crate::grouped::grouped;
use crate::report::Parked;
use crate::settled::{connections_of, number_of};
use scp_core::below::types::ConnId;
use scp_core::below::wire::Cause;
use scp_core::{DropCause, Fate, Verdict};
use scp_words::{word_of_cause, word_of_drop, word_of_verdict};
use serde_json::{Value, json};
use std::alloc::{AllocError, Global};
use std::collections::BTreeMap;

/// A message that was taken.
fn taken(alloc: Global, number: u64, verdict: Verdict) -> Result<Value, AllocError>
    ensures { IfOk result (λ v. view v ≡ object (member (codes "fate") (string (codes "taken")) (member (codes "message") (count number) (member (codes "verdict") (string (verdict_word verdict)) no_members)))) }
{
    let word = word_of_verdict(verdict);
    json!(in alloc; {"fate": "taken", "message": number, "verdict": word})
}

/// A message that was dropped.
fn dropped(alloc: Global, number: u64, cause: DropCause) -> Result<Value, AllocError>
    ensures { IfOk result (λ v. view v ≡ object (member (codes "cause") (string (drop_word cause)) (member (codes "fate") (string (codes "dropped")) (member (codes "message") (count number) no_members)))) }
{
    let word = word_of_drop(cause);
    json!(in alloc; {"cause": word, "fate": "dropped", "message": number})
}

/// The end of a connection.
fn closed(alloc: Global, cause: Cause) -> Result<Value, AllocError>
    ensures { IfOk result (λ v. view v ≡ object (member (codes "cause") (string (cause_word cause)) (member (codes "fate") (string (codes "closed")) no_members))) }
{
    let word = word_of_cause(cause);
    json!(in alloc; {"cause": word, "fate": "closed"})
}

/// An entry of the journal.
fn fate_value(alloc: Global, fate: &Fate) -> Result<Value, AllocError>
    ensures { IfOk result (λ v. view v ≡ fate_json fate.now) }
{
    match fate {
        Fate::Taken { seq, verdict, .. } => taken(alloc, seq.0, *verdict),
        Fate::Dropped { seq, cause, .. } => dropped(alloc, seq.0, *cause),
        Fate::Closed { cause, .. } => closed(alloc, *cause),
    }
}

/// The entries of a connection.
fn fate_values(alloc: Global, fates: &[&Fate]) -> Result<Value, AllocError>
    ensures { IfOk result (λ v. view v ≡ array (items_of (map fate_json (map (λ fate. fate.now) fates.now)))) }
{
    let mut values = Vec::new(alloc);
    for fate in fates {
        values.push(fate_value(alloc, *fate)?)?;
    }
    Ok(Value::from(values))
}

/// The entries of one connection, from those of all.
fn fates_of(
    alloc: Global,
    grouped: &BTreeMap<ConnId, Vec<&Fate>>,
    conn: &ConnId,
) -> Result<Value, AllocError>
    ensures { IfOk result (λ v. view v ≡ array (items_of (map fate_json (fates_at grouped.now conn.now)))) }
{
    match grouped.get(conn) {
        Some(fates) => fate_values(alloc, fates.as_slice()),
        None => Ok(Value::from(Vec::<Value>::new(alloc))),
    }
}

/// The number of a connection's messages that are parked.
fn parked_on(parked: &[Parked], conn: &ConnId) -> usize
    ensures { result ≡ parked_at parked.now conn.now }
{
    for waiting in parked {
        if waiting.conn == *conn {
            return waiting.count;
        }
    }
    0
}

/// A connection, from its entries.
fn connection_with(
    alloc: Global,
    fates: Value,
    parked: &[Parked],
    conn: &ConnId,
) -> Result<Value, AllocError>
    ensures { IfOk result (λ v. view v ≡ object (member (codes "fates") (view fates) (member (codes "from") (count (node_number conn.now.from)) (member (codes "life") (count conn.now.life) (member (codes "parked") (count (parked_at parked.now conn.now)) no_members))))) }
{
    let from = number_of(&conn.from);
    let life = conn.life;
    let count = parked_on(parked, conn);
    json!(in alloc; {"fates": fates, "from": from, "life": life, "parked": count})
}

/// A connection, from the entries of all connections.
#[tactic(auto, using(crate::proofs::Documents::connection_is))]
fn connection(
    alloc: Global,
    grouped: &BTreeMap<ConnId, Vec<&Fate>>,
    parked: &[Parked],
    conn: &ConnId,
) -> Result<Value, AllocError>
    ensures { IfOk result (λ v. (journal : List Fate) → fates_at grouped.now conn.now ≡ fates_on journal conn.now → view v ≡ connection_json journal parked.now conn.now) }
{
    let fates = fates_of(alloc, grouped, conn)?;
    connection_with(alloc, fates, parked, conn)
}

/// The connections of a report, ascending, as a JSON array. It fails only if it is out of memory.
pub fn connection_values(
    alloc: Global,
    journal: &[Fate],
    parked: &[Parked],
) -> Result<Value, AllocError>
    ensures { IfOk result (λ v. view v ≡ array (items_of (map (connection_json journal.now parked.now) (conns_of journal.now parked.now)))) }
{
    let grouped = grouped(alloc, journal)?;
    let conns = connections_of(alloc, journal, parked)?;
    let mut values = Vec::new(alloc);
    for conn in &conns {
        values.push(connection(alloc, &grouped, parked, conn)?)?;
    }
    Ok(Value::from(values))
}
