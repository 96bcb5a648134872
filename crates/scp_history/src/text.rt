//! The text of each line.
ghost use Rattle.std.specs.Prelude.{◌≡◌, ◌++◌, OnOk, codes, flat_map, string_bytes};
ghost use Rattle.scp_history.specs.Words.{behind_space, unread_word, spaced_value, spaced_statement, spaced_verdict};
ghost use Rattle.scp_history.specs.Lines.{record_head, head, line_of_nodes, externalizers_text, others_text, said_text, sure_text, counts_text, side_text, behind_bar, sides_text, spaced_place, sums_text, words_of, line_text};

use crate::line::{Counts, Line, Place, StatementWord, Sums};
use crate::names::{write_spaced_statement, write_spaced_value, write_spaced_verdict, write_why};
use crate::nodes::{write_behind_space, write_nodes};
use crate::side::Side;
use scp_audit::below::archive::Unread;
use scp_audit::below::judged::Verdict;
use scp_strkey::below::types::{Hash, NodeId, Value};
use std::alloc::AllocError;

/// Adds the line of a record that isn't read.
fn write_unread(
    text: &mut String,
    file: usize,
    number: usize,
    why: Unread,
) -> Result<(), AllocError>
    ensures { OnOk result (string_bytes text.new ≡ string_bytes text.old ++ (record_head file number ++ codes " unread " ++ unread_word why)) }
{
    write!(text, "file {file} record {number} unread ")?;
    write_why(text, why)
}

/// Adds the line of an archive that is cut.
fn write_cut(text: &mut String, file: usize, number: usize) -> Result<(), AllocError>
    ensures { OnOk result (string_bytes text.new ≡ string_bytes text.old ++ (record_head file number ++ codes " cut")) }
{
    write!(text, "file {file} record {number} cut")?;
    Ok(())
}

/// Adds how many externalize a value.
fn write_externalizers(text: &mut String, count: usize) -> Result<(), AllocError>
    ensures { OnOk result (string_bytes text.new ≡ string_bytes text.old ++ externalizers_text count) }
{
    write!(text, " externalize {count}")?;
    Ok(())
}

/// Adds how many confirm a value, and how many prepare it.
fn write_others(text: &mut String, counts: Counts) -> Result<(), AllocError>
    ensures { OnOk result (string_bytes text.new ≡ string_bytes text.old ++ others_text counts) }
{
    let Counts {
        confirm,
        prepare,
        ..
    } = counts;
    write!(text, " confirm {confirm} prepare {prepare}")?;
    Ok(())
}

/// Adds how many say a value by which statement.
fn write_said(text: &mut String, counts: Counts) -> Result<(), AllocError>
    ensures { OnOk result (string_bytes text.new ≡ string_bytes text.old ++ said_text counts) }
{
    write_externalizers(text, counts.externalize)?;
    write_others(text, counts)
}

/// Adds for how many a value is certified, and how many are backed.
fn write_sure(text: &mut String, counts: Counts) -> Result<(), AllocError>
    ensures { OnOk result (string_bytes text.new ≡ string_bytes text.old ++ sure_text counts) }
{
    let Counts {
        certified,
        backed,
        ..
    } = counts;
    write!(text, " certified {certified} backed {backed}")?;
    Ok(())
}

/// Adds how many say a value.
fn write_counts(text: &mut String, counts: Counts) -> Result<(), AllocError>
    ensures { OnOk result (string_bytes text.new ≡ string_bytes text.old ++ counts_text counts) }
{
    write_said(text, counts)?;
    write_sure(text, counts)
}

/// Adds how a line of a ledger begins, and its word.
fn write_head(text: &mut String, ledger: u32, word: &str) -> Result<(), AllocError>
    ensures { OnOk result (string_bytes text.new ≡ string_bytes text.old ++ head ledger word.now) }
{
    write!(text, "ledger {ledger} {word}")?;
    Ok(())
}

/// Adds the line of a value.
fn write_value_line(
    text: &mut String,
    ledger: u32,
    value: &Value,
    counts: Counts,
) -> Result<(), AllocError>
    ensures { OnOk result (string_bytes text.new ≡ string_bytes text.old ++ (head ledger (codes "value") ++ spaced_value value.now ++ counts_text counts)) }
{
    write_head(text, ledger, "value")?;
    write_spaced_value(text, value)?;
    write_counts(text, counts)
}

/// Adds a line that says a word of some nodes.
fn write_line_of_nodes(
    text: &mut String,
    by_number: bool,
    ledger: u32,
    word: &str,
    nodes: &[NodeId],
) -> Result<(), AllocError>
    ensures { OnOk result (string_bytes text.new ≡ string_bytes text.old ++ line_of_nodes by_number ledger word.now nodes.now) }
{
    write_head(text, ledger, word)?;
    write_nodes(text, by_number, nodes)
}

/// Adds a value and the nodes for which it is certified.
fn write_side(text: &mut String, by_number: bool, side: &Side) -> Result<(), AllocError>
    ensures { OnOk result (string_bytes text.new ≡ string_bytes text.old ++ side_text by_number side.now) }
{
    write_spaced_value(text, side.value.get())?;
    write_nodes(text, by_number, side.nodes.as_slice())
}

/// Adds one more of them after a bar.
fn write_behind_bar(text: &mut String, by_number: bool, side: &Side) -> Result<(), AllocError>
    ensures { OnOk result (string_bytes text.new ≡ string_bytes text.old ++ behind_bar by_number side.now) }
{
    text.push_str(" |")?;
    write_side(text, by_number, side)
}

/// Adds more of them, a bar before each.
fn write_more_sides(text: &mut String, by_number: bool, sides: &[Side]) -> Result<(), AllocError>
    ensures { OnOk result (string_bytes text.new ≡ string_bytes text.old ++ flat_map (behind_bar by_number) sides.now) }
{
    for side in sides {
        write_behind_bar(text, by_number, side)?;
    }
    Ok(())
}

/// Adds the values that are certified, with bars between them.
fn write_sides(text: &mut String, by_number: bool, sides: &[Side]) -> Result<(), AllocError>
    ensures { OnOk result (string_bytes text.new ≡ string_bytes text.old ++ sides_text by_number sides.now) }
{
    match sides.split_first() {
        None => Ok(()),
        Some((first, rest)) => {
            write_side(text, by_number, first)?;
            write_more_sides(text, by_number, rest)
        }
    }
}

/// Adds the line of several values that are certified.
fn write_split(
    text: &mut String,
    by_number: bool,
    ledger: u32,
    sides: &[Side],
) -> Result<(), AllocError>
    ensures { OnOk result (string_bytes text.new ≡ string_bytes text.old ++ (head ledger (codes "split") ++ sides_text by_number sides.now)) }
{
    write_head(text, ledger, "split")?;
    write_sides(text, by_number, sides)
}

/// Adds the line of a node that is against the value.
fn write_against(
    text: &mut String,
    by_number: bool,
    ledger: u32,
    node: &NodeId,
    statement: StatementWord,
    value: &Value,
) -> Result<(), AllocError>
    ensures { OnOk result (string_bytes text.new ≡ string_bytes text.old ++ (head ledger (codes "against") ++ behind_space by_number node.now ++ spaced_statement statement ++ spaced_value value.now)) }
{
    write_head(text, ledger, "against")?;
    write_behind_space(text, by_number, node)?;
    write_spaced_statement(text, statement)?;
    write_spaced_value(text, value)
}

/// Adds the place of a message after a space.
fn write_spaced_place(text: &mut String, place: Place) -> Result<(), AllocError>
    ensures { OnOk result (string_bytes text.new ≡ string_bytes text.old ++ spaced_place place) }
{
    let Place { file, message } = place;
    write!(text, " {file} {message}")?;
    Ok(())
}

/// Adds the line of a message that doesn't count.
fn write_message(
    text: &mut String,
    by_number: bool,
    ledger: u32,
    place: Place,
    verdict: Verdict,
    hash: &Hash,
    node: &NodeId,
) -> Result<(), AllocError>
    ensures { OnOk result (string_bytes text.new ≡ string_bytes text.old ++ (head ledger (codes "message") ++ spaced_place place ++ spaced_verdict verdict hash.now.0 ++ behind_space by_number node.now)) }
{
    write_head(text, ledger, "message")?;
    write_spaced_place(text, place)?;
    write_spaced_verdict(text, verdict, hash)?;
    write_behind_space(text, by_number, node)
}

/// Adds the line of two messages that contradict each other.
fn write_contradicts(
    text: &mut String,
    by_number: bool,
    ledger: u32,
    node: &NodeId,
    first: Place,
    last: Place,
) -> Result<(), AllocError>
    ensures { OnOk result (string_bytes text.new ≡ string_bytes text.old ++ (head ledger (codes "contradicts") ++ behind_space by_number node.now ++ spaced_place first ++ spaced_place last)) }
{
    write_head(text, ledger, "contradicts")?;
    write_behind_space(text, by_number, node)?;
    write_spaced_place(text, first)?;
    write_spaced_place(text, last)
}

/// Adds the sums at the end.
fn write_sums(text: &mut String, sums: Sums) -> Result<(), AllocError>
    ensures { OnOk result (string_bytes text.new ≡ string_bytes text.old ++ sums_text sums) }
{
    let Sums {
        first,
        last,
        missing,
        ledgers,
        certified,
    } = sums;
    write!(text, "ledgers {first} to {last}, {missing} missing, ")?;
    write!(text, "{certified} of {ledgers} certified for all")?;
    Ok(())
}

/// Adds the words of a line.
fn write_words(text: &mut String, by_number: bool, line: &Line) -> Result<(), AllocError>
    ensures { OnOk result (string_bytes text.new ≡ string_bytes text.old ++ words_of by_number line.now) }
{
    match line {
        Line::Unread { file, number, why } => write_unread(text, *file, *number, *why),
        Line::Cut { file, number } => write_cut(text, *file, *number),
        Line::Value {
            ledger,
            value,
            counts,
        } => write_value_line(text, *ledger, value.get(), *counts),
        Line::Uncertified { ledger, nodes } => {
            write_line_of_nodes(text, by_number, *ledger, "uncertified", nodes.as_slice())
        }
        Line::Unbacked { ledger, nodes } => {
            write_line_of_nodes(text, by_number, *ledger, "unbacked", nodes.as_slice())
        }
        Line::Split { ledger, sides } => write_split(text, by_number, *ledger, sides.as_slice()),
        Line::Against {
            ledger,
            node,
            statement,
            value,
        } => write_against(text, by_number, *ledger, node, *statement, value.get()),
        Line::Message {
            ledger,
            place,
            verdict,
            hash,
            node,
        } => write_message(text, by_number, *ledger, *place, *verdict, hash, node),
        Line::Silent { ledger, nodes } => {
            write_line_of_nodes(text, by_number, *ledger, "silent", nodes.as_slice())
        }
        Line::Contradicts {
            ledger,
            node,
            first,
            last,
        } => write_contradicts(text, by_number, *ledger, node, *first, *last),
        Line::End(sums) => write_sums(text, *sums),
    }
}

/// Adds a line of a report, with the line feed that ends it. A node is shown by its address or, where numbers are asked for and the first 31
/// bytes of its id are 0, by the last one.
pub fn write_line(text: &mut String, by_number: bool, line: &Line) -> Result<(), AllocError>
    ensures { OnOk result (string_bytes text.new ≡ string_bytes text.old ++ line_text by_number line.now) }
{
    write_words(text, by_number, line)?;
    text.push_str("\n")
}
