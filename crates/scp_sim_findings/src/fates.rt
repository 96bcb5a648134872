//! What became of messages and connections, by kinds.
ghost use Rattle.std.specs.Prelude.{◌≡◌, ◌≤◌, ◌+◌, ◌*◌, ◌++◌, OnOk, length, map, string_bytes};
ghost use Rattle.scp_sim_findings.specs.Fates.{kinds, place_of_verdict, place_of_drop, place_of_cause, place_of, count_in, count_of, kind_line, kind_lines, fates_text};
ghost use Rattle.scp_sim_findings.specs.Outcome.{judged_of};

use scp_notices::below::node::{Cause, DropCause, Fate, Node, Verdict};
use std::alloc::AllocError;

/// The words of the kinds of fates, in their order.
static KINDS: [&str; 20] = [
    "taken fresh",
    "taken stale",
    "taken old-slot",
    "taken far-slot",
    "taken already",
    "taken unasked",
    "taken own",
    "taken bad-statement",
    "taken bad-value",
    "taken idle",
    "taken forwarded",
    "taken decided",
    "dropped bad-set",
    "dropped gave-up",
    "dropped closed",
    "dropped parked-full",
    "closed link",
    "closed malformed",
    "closed spent",
    "closed parked-full",
];

/// The index of a verdict among the kinds.
fn place_of_verdict(verdict: Verdict) -> u8
    ensures { result ≡ place_of_verdict verdict }
{
    match verdict {
        Verdict::Fresh => 0,
        Verdict::Stale => 1,
        Verdict::OldSlot => 2,
        Verdict::FarSlot => 3,
        Verdict::Already => 4,
        Verdict::Unasked => 5,
        Verdict::Own => 6,
        Verdict::BadStatement => 7,
        Verdict::BadValue => 8,
        Verdict::Idle => 9,
        Verdict::Forwarded => 10,
        Verdict::Decided => 11,
    }
}

/// The index, among the kinds, of why a message was dropped.
fn place_of_drop(cause: DropCause) -> u8
    ensures { result ≡ place_of_drop cause }
{
    match cause {
        DropCause::BadSet => 12,
        DropCause::GaveUp => 13,
        DropCause::Closed => 14,
        DropCause::ParkedFull => 15,
    }
}

/// The index, among the kinds, of why a connection ended.
fn place_of_cause(cause: Cause) -> u8
    ensures { result ≡ place_of_cause cause }
{
    match cause {
        Cause::Link => 16,
        Cause::Malformed => 17,
        Cause::Spent => 18,
        Cause::ParkedFull => 19,
    }
}

/// The index of a fate's kind.
fn place_of(fate: &Fate) -> u8
    ensures { result ≡ place_of fate.now }
{
    match fate {
        Fate::Taken { verdict, .. } => place_of_verdict(*verdict),
        Fate::Dropped { cause, .. } => place_of_drop(*cause),
        Fate::Closed { cause, .. } => place_of_cause(*cause),
    }
}

/// How many fates of a journal are of the kind at this index.
fn count_in(place: u8, journal: &[Fate]) -> usize
    ensures { result ≡ count_in place journal.now }
{
    let mut count = 0;
    for fate in journal {
        if place_of(fate) == place {
            count += 1;
        }
    }
    count
}

/// The same count over all judged nodes.
pub fn count_of(place: u8, marks: &[bool], nodes: &[Node]) -> u128
    ensures count { result ≡ count_of place (judged_of marks.now nodes.now) }
    ensures bound { result ≤ length nodes.now * 18446744073709551616 }
{
    match (marks.split_first(), nodes.split_first()) {
        (Some((mark, marks)), Some((node, nodes))) => {
            let rest = count_of(place, marks, nodes);
            if *mark {
                rest + count_in(place, node.journal()) as u128
            } else {
                rest
            }
        }
        _ => 0,
    }
}

/// Adds the line of a kind, unless it has no fates.
fn write_kind(text: &mut String, words: &str, count: u128) -> Result<(), AllocError>
    ensures { OnOk result (string_bytes text.new ≡ string_bytes text.old ++ kind_line words.now count) }
{
    if count == 0 {
        return Ok(());
    }
    writeln!(text, "{words} {count}")
}

/// Adds the lines of these kinds. The first kind has this index.
fn write_kinds(
    text: &mut String,
    place: u8,
    kinds: &[&str],
    marks: &[bool],
    nodes: &[Node],
) -> Result<(), AllocError>
    requires few { place + length kinds.now ≤ 20 }
    ensures { OnOk result (string_bytes text.new ≡ string_bytes text.old ++ kind_lines place (map (λ words. words.now) kinds.now) (judged_of marks.now nodes.now)) }
{
    match kinds.split_first() {
        Some((words, kinds)) => {
            write_kind(text, words, count_of(place, marks, nodes))?;
            write_kinds(text, place + 1, kinds, marks, nodes)
        }
        None => Ok(()),
    }
}

/// The words of the kinds.
fn words_of_kinds() -> &'static [&'static str]
    ensures { map (λ words. words.now) result.now ≡ kinds }
{
    KINDS.as_slice()
}

/// Adds the lines of what became of messages and connections at the judged nodes.
pub fn write_fates(text: &mut String, marks: &[bool], nodes: &[Node]) -> Result<(), AllocError>
    ensures { OnOk result (string_bytes text.new ≡ string_bytes text.old ++ fates_text (judged_of marks.now nodes.now)) }
{
    write_kinds(text, 0, words_of_kinds(), marks, nodes)
}
