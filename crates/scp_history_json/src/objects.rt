//! The object of each line.
ghost use Rattle.std.specs.Prelude.{◌≡◌, false, IfOk};
ghost use Rattle.serde_json.specs.View.{view};
ghost use Rattle.scp_history_json.specs.Json.{nodes_line_json, line_json};

use crate::pieces::{hash_value, node_value, nodes_value, place_value, sides_value};
use scp_shown::below::archive::Unread;
use scp_shown::below::history::{
    Counts, Line, Place, Side, StatementWord, Sums, word_of_statement, word_of_verdict, write_why,
};
use scp_shown::below::judged::Verdict;
use scp_shown::below::types::{Hash, NodeId, SharedValue};
use serde_json::{Value, json};
use std::alloc::{AllocError, Global};

/// A record that isn't read.
fn unread_value(alloc: Global, file: usize, number: usize, why: Unread) -> Result<Value, AllocError>
    ensures { IfOk result (λ v. view v ≡ line_json false (Line.Unread file number why)) }
{
    let mut text = String::new(alloc);
    write_why(&mut text, why)?;
    let file = file as u64;
    let record = number as u64;
    json!(in alloc; {"file": file, "line": "unread", "record": record, "why": text})
}

/// An archive that is cut.
fn cut_value(alloc: Global, file: usize, number: usize) -> Result<Value, AllocError>
    ensures { IfOk result (λ v. view v ≡ line_json false (Line.Cut file number)) }
{
    let file = file as u64;
    let record = number as u64;
    json!(in alloc; {"file": file, "line": "cut", "record": record})
}

/// Who says a value.
fn counts_value(
    alloc: Global,
    ledger: u32,
    value: &SharedValue,
    counts: Counts,
) -> Result<Value, AllocError>
    ensures { IfOk result (λ v. view v ≡ line_json false (Line.Value ledger value.now counts)) }
{
    let ledger = u64::from(ledger);
    let backed = counts.backed as u64;
    let certified = counts.certified as u64;
    let confirm = counts.confirm as u64;
    let externalize = counts.externalize as u64;
    let prepare = counts.prepare as u64;
    json!(in alloc; {
        "backed": backed,
        "certified": certified,
        "confirm": confirm,
        "externalize": externalize,
        "ledger": ledger,
        "line": "value",
        "prepare": prepare,
        "value": hash_value(alloc, value)?
    })
}

/// A line that says this word of some nodes.
fn nodes_line_value(
    alloc: Global,
    by_number: bool,
    ledger: u32,
    word: &'static str,
    nodes: &[NodeId],
) -> Result<Value, AllocError>
    ensures { IfOk result (λ v. view v ≡ nodes_line_json by_number ledger word.now nodes.now) }
{
    let ledger = u64::from(ledger);
    json!(in alloc; {"ledger": ledger, "line": word, "nodes": nodes_value(alloc, by_number, nodes)?})
}

/// Values that are certified.
fn split_value(
    alloc: Global,
    by_number: bool,
    ledger: u32,
    sides: &[Side],
) -> Result<Value, AllocError>
    ensures { IfOk result (λ v. view v ≡ line_json by_number (Line.Split ledger sides.now)) }
{
    let ledger = u64::from(ledger);
    json!(in alloc; {"ledger": ledger, "line": "split", "sides": sides_value(alloc, by_number, sides)?})
}

/// A node that is against the value that is certified.
fn against_value(
    alloc: Global,
    by_number: bool,
    ledger: u32,
    node: &NodeId,
    statement: StatementWord,
    value: &SharedValue,
) -> Result<Value, AllocError>
    ensures { IfOk result (λ v. view v ≡ line_json by_number (Line.Against ledger node.now statement value.now)) }
{
    let ledger = u64::from(ledger);
    let word = word_of_statement(statement);
    json!(in alloc; {
        "ledger": ledger,
        "line": "against",
        "node": node_value(alloc, by_number, node)?,
        "statement": word,
        "value": hash_value(alloc, value)?
    })
}

/// A message that doesn't count.
fn message_value(
    alloc: Global,
    by_number: bool,
    ledger: u32,
    place: Place,
    verdict: Verdict,
    hash: &Hash,
    node: &NodeId,
) -> Result<Value, AllocError>
    ensures { IfOk result (λ v. view v ≡ line_json by_number (Line.Message ledger place verdict hash.now node.now)) }
{
    let ledger = u64::from(ledger);
    let word = word_of_verdict(verdict);
    json!(in alloc; {
        "at": place_value(alloc, place)?,
        "ledger": ledger,
        "line": "message",
        "node": node_value(alloc, by_number, node)?,
        "set": hex::encode(alloc, &hash.0)?,
        "verdict": word
    })
}

/// Two messages that contradict each other.
fn contradicts_value(
    alloc: Global,
    by_number: bool,
    ledger: u32,
    node: &NodeId,
    first: Place,
    last: Place,
) -> Result<Value, AllocError>
    ensures { IfOk result (λ v. view v ≡ line_json by_number (Line.Contradicts ledger node.now first last)) }
{
    let ledger = u64::from(ledger);
    json!(in alloc; {
        "first": place_value(alloc, first)?,
        "last": place_value(alloc, last)?,
        "ledger": ledger,
        "line": "contradicts",
        "node": node_value(alloc, by_number, node)?
    })
}

/// The sums at the end.
fn sums_value(alloc: Global, sums: Sums) -> Result<Value, AllocError>
    ensures { IfOk result (λ v. view v ≡ line_json false (Line.End sums)) }
{
    let first = u64::from(sums.first);
    let last = u64::from(sums.last);
    let missing = u64::from(sums.missing);
    let ledgers = sums.ledgers as u64;
    let certified = sums.certified as u64;
    json!(in alloc; {
        "certified": certified,
        "first": first,
        "last": last,
        "ledgers": ledgers,
        "line": "ledgers",
        "missing": missing
    })
}

/// A line.
pub(crate) fn line_value(alloc: Global, by_number: bool, line: &Line) -> Result<Value, AllocError>
    ensures { IfOk result (λ v. view v ≡ line_json by_number line.now) }
{
    match line {
        Line::Unread { file, number, why } => unread_value(alloc, *file, *number, *why),
        Line::Cut { file, number } => cut_value(alloc, *file, *number),
        Line::Value {
            ledger,
            value,
            counts,
        } => counts_value(alloc, *ledger, value, *counts),
        Line::Uncertified { ledger, nodes } => {
            nodes_line_value(alloc, by_number, *ledger, "uncertified", nodes.as_slice())
        }
        Line::Unbacked { ledger, nodes } => {
            nodes_line_value(alloc, by_number, *ledger, "unbacked", nodes.as_slice())
        }
        Line::Split { ledger, sides } => split_value(alloc, by_number, *ledger, sides.as_slice()),
        Line::Against {
            ledger,
            node,
            statement,
            value,
        } => against_value(alloc, by_number, *ledger, node, *statement, value),
        Line::Message {
            ledger,
            place,
            verdict,
            hash,
            node,
        } => message_value(alloc, by_number, *ledger, *place, *verdict, hash, node),
        Line::Silent { ledger, nodes } => {
            nodes_line_value(alloc, by_number, *ledger, "silent", nodes.as_slice())
        }
        Line::Contradicts {
            ledger,
            node,
            first,
            last,
        } => contradicts_value(alloc, by_number, *ledger, node, *first, *last),
        Line::End(sums) => sums_value(alloc, *sums),
    }
}
