//! Why a line of a script is bad: its first bad word, and what was expected there.
ghost use Rattle.std.specs.Prelude.{IsOkUnless};

use crate::words::{ascii, envelope, is_skipped, lines, node, number, sane_set, value, words};
use scp_device::{BadWord, Expected};
use scp_slot::below::types::{Fault, Slot};
use std::alloc::Global;

/// What single words must be.
#[derive(Clone, Copy)]
enum Kind {
    Node,
    Slot,
    Set,
    Value,
    Envelope,
}

/// What is expected of a word.
fn expected_of(kind: Kind) -> Expected {
    match kind {
        Kind::Node => Expected::ANodeNumber,
        Kind::Slot => Expected::ASlot,
        Kind::Set => Expected::ASaneSet,
        Kind::Value => Expected::AShortValue,
        Kind::Envelope => Expected::EnvelopeBytes,
    }
}

/// Whether a word is of this kind.
fn is_of_kind(alloc: Global, kind: Kind, word: &str) -> Result<bool, Fault>
    ensures only_memory { IsOkUnless result Fault.NoMemory }
{
    match kind {
        Kind::Node => Ok(node(alloc, word)?.is_some()),
        Kind::Slot => Ok(number(alloc, word)?.is_some()),
        Kind::Set => Ok(sane_set(alloc, word)?.is_some()),
        Kind::Value => Ok(value(alloc, word)?.is_some()),
        Kind::Envelope => Ok(envelope(alloc, word)?.is_some()),
    }
}

/// The bad word at this place.
fn at(word: usize, expected: Expected) -> BadWord {
    BadWord { word, expected }
}

/// Whether the word at this place, from 0 on, is of this kind.
fn holds(alloc: Global, kind: Kind, words: &[&str], place: usize) -> Result<bool, Fault>
    ensures only_memory { IsOkUnless result Fault.NoMemory }
{
    match words.get(place) {
        Some(word) => is_of_kind(alloc, kind, *word),
        None => Ok(false),
    }
}

/// The first of the words after the verb that isn't of its kind, or is one too many.
fn bad_behind(alloc: Global, kinds: &[Kind], words: &[&str]) -> Result<Option<BadWord>, Fault>
    ensures only_memory { IsOkUnless result Fault.NoMemory }
{
    for (index, kind) in kinds.iter().enumerate() {
        if !holds(alloc, *kind, words, index.saturating_add(1))? {
            return Ok(Some(at(index.saturating_add(2), expected_of(*kind))));
        }
    }
    if words.len() > kinds.len().saturating_add(1) {
        return Ok(Some(at(kinds.len().saturating_add(2), Expected::NoMore)));
    }
    Ok(None)
}

/// Why the words are no first line.
fn bad_first(alloc: Global, words: &[&str]) -> Result<BadWord, Fault>
    ensures only_memory { IsOkUnless result Fault.NoMemory }
{
    if words.first().copied() != Some("slot") {
        return Ok(at(1, Expected::SlotFirst));
    }
    let kinds = [Kind::Node, Kind::Slot, Kind::Set];
    match bad_behind(alloc, &kinds, words)? {
        Some(reason) => Ok(reason),
        None => Ok(at(1, Expected::ASlotLine)),
    }
}

/// Why an envelope isn't one of the script: it is of another slot, or it names another quorum set.
fn bad_pair(alloc: Global, slot: Slot, word: &str) -> Result<BadWord, Fault>
    ensures only_memory { IsOkUnless result Fault.NoMemory }
{
    match envelope(alloc, word)? {
        Some(envelope) if envelope.statement.slot != slot => Ok(at(2, Expected::OfTheSlot)),
        _ => Ok(at(3, Expected::TheNamedSet)),
    }
}

/// Why the words are no `envelope` line of this slot.
fn bad_envelope(alloc: Global, slot: Slot, words: &[&str]) -> Result<BadWord, Fault>
    ensures only_memory { IsOkUnless result Fault.NoMemory }
{
    let kinds = [Kind::Envelope, Kind::Set];
    if let Some(reason) = bad_behind(alloc, &kinds, words)? {
        return Ok(reason);
    }
    match words.get(1) {
        Some(word) => bad_pair(alloc, slot, *word),
        None => Ok(at(2, expected_of(Kind::Envelope))),
    }
}

/// The bad word that was found, or else word 2, where no more words were expected.
fn or_end(found: Option<BadWord>) -> BadWord {
    match found {
        Some(bad) => bad,
        None => at(2, Expected::NoMore),
    }
}

/// Why the words are no line after the first.
fn bad_later(alloc: Global, slot: Slot, words: &[&str]) -> Result<BadWord, Fault>
    ensures only_memory { IsOkUnless result Fault.NoMemory }
{
    match words.first().copied() {
        Some("round" | "timer") => Ok(or_end(bad_behind(alloc, &[], words)?)),
        Some("propose") => Ok(or_end(bad_behind(alloc, &[Kind::Value], words)?)),
        Some("envelope") => bad_envelope(alloc, slot, words),
        Some("slot") => Ok(at(1, Expected::SlotOnce)),
        _ => Ok(at(1, Expected::ASlotVerb)),
    }
}

/// The first word of a line that isn't ASCII.
fn bad_bytes(line: &[u8]) -> BadWord {
    let mut word: usize = 1;
    for byte in line {
        if !byte.is_ascii() {
            return at(word, Expected::Ascii);
        }
        if *byte == b' ' {
            word = word.saturating_add(1);
        }
    }
    at(word, Expected::Ascii)
}

/// Why a line is bad, after the machine of this slot, if there is one.
fn bad_line(alloc: Global, slot: Option<Slot>, line: &[u8]) -> Result<BadWord, Fault>
    ensures only_memory { IsOkUnless result Fault.NoMemory }
{
    let Some(text) = ascii(line) else {
        return Ok(bad_bytes(line));
    };
    let words = words(alloc, text)?;
    match slot {
        Some(slot) => bad_later(alloc, slot, words.as_slice()),
        None => bad_first(alloc, words.as_slice()),
    }
}

/// The slot that a `slot` line says.
fn slot_said(alloc: Global, line: &[u8]) -> Result<Option<Slot>, Fault>
    ensures only_memory { IsOkUnless result Fault.NoMemory }
{
    let Some(text) = ascii(line) else {
        return Ok(None);
    };
    let words = words(alloc, text)?;
    match words.get(2) {
        Some(word) => Ok(number(alloc, *word)?.map(Slot)),
        None => Ok(None),
    }
}

/// The slot of the first line that counts among these.
fn slot_of(alloc: Global, lines: &[&[u8]]) -> Result<Option<Slot>, Fault>
    ensures only_memory { IsOkUnless result Fault.NoMemory }
{
    for line in lines {
        if !is_skipped(*line) {
            return slot_said(alloc, *line);
        }
    }
    Ok(None)
}

/// Why the line with this number, from 1 on, which `read_slot_script` refused, is bad: its first bad word, and what was expected there.
/// The only error is `Fault::NoMemory`. If the line isn't bad, or doesn't exist, the answer means nothing.
pub fn reason_of(alloc: Global, text: &[u8], line: usize) -> Result<BadWord, Fault>
    ensures only_memory { IsOkUnless result Fault.NoMemory }
{
    let lines = lines(alloc, text)?;
    let lines = lines.as_slice();
    if line == 0 || line > lines.len() {
        return Ok(at(1, Expected::ALine));
    }
    let slot = slot_of(alloc, &lines[..line - 1])?;
    bad_line(alloc, slot, lines[line - 1])
}
