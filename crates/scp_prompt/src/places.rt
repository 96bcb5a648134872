//! The lines that report a bad word, by its place in a text.
ghost use Rattle.std.specs.Prelude.{◌≡◌, ◌++◌, ◌≤◌, ℕ, List, [], take, if◌then◌else◌, option_map, OnOk, OnErr, IfOk, codes, flat_map, string_bytes};
ghost use Rattle.scp_device.specs.Device.{Gains, Fails};
ghost use Rattle.scp_prompt.specs.Places.{part_in, word_in, shown_byte, shown as shown_text, stands_text, IsStanding, place_front, place_back, place_line};

use itoa::Buffer;
use scp_device::below::types::Fault;
use scp_device::{ReportOut, write_parts, write_text};
use std::alloc::{AllocError, Global};

/// The limit on the bytes of a word that are shown.
const SHOWN_LIMIT: usize = 40;

/// The place of a word: the input's name, the line and the word in it, each from 1 on.
#[derive(Clone, Copy)]
pub struct Place<'a> {
    pub name: &'a str,
    pub line: usize,
    pub word: usize,
}

/// The part of a text at this place, counted from 1, if the text is split at this byte.
fn part_at(text: &[u8], end: u8, place: usize) -> Option<&[u8]>
    ensures { option_map (λ part. part.now) result ≡ part_in text.entry.now end place }
{
    if place == 0 {
        return None;
    }
    text.split(|byte| *byte == end).nth(place - 1)
}

/// The word of a text at this line and place, each counted from 1. A line ends with a line feed, and a word with a space.
fn word_at(text: &[u8], line: usize, word: usize) -> Option<&[u8]>
    ensures { option_map (λ part. part.now) result ≡ word_in text.entry.now line word }
{
    match part_at(text, b'\n', line) {
        Some(line) => part_at(line, b' ', word),
        None => None,
    }
}

/// Adds one byte of a word: itself if it is a visible ASCII character, else `\x` and its two hex digits.
fn push_byte(out: &mut String, byte: u8) -> Result<(), AllocError>
    ensures { OnOk result (string_bytes out.new ≡ string_bytes out.old ++ shown_byte byte) }
{
    if byte >= 33 && byte <= 126 {
        return out.push(char::from(byte));
    }
    let digits = hex::encode(*out.allocator(), &[byte])?;
    out.push_str("\\x")?;
    out.push_str(digits.as_str())
}

/// Adds bytes of a word.
fn push_bytes(out: &mut String, bytes: &[u8]) -> Result<(), AllocError>
    ensures { OnOk result (string_bytes out.new ≡ string_bytes out.old ++ flat_map shown_byte bytes.now) }
{
    for byte in bytes {
        push_byte(out, *byte)?;
    }
    Ok(())
}

/// The first 40 bytes of a word.
#[tactic(auto, using(crate::proofs::Written::all_bytes))]
fn first_bytes(word: &[u8]) -> &[u8]
    ensures { result.now ≡ take 40 word.entry.now }
{
    if SHOWN_LIMIT < word.len() {
        &word[..SHOWN_LIMIT]
    } else {
        word
    }
}

/// Adds two dots if there are more bytes.
fn push_dots(out: &mut String, more: bool) -> Result<(), AllocError>
    ensures { OnOk result (string_bytes out.new ≡ string_bytes out.old ++ (if more then codes ".." else [])) }
{
    if more {
        return out.push_str("..");
    }
    Ok(())
}

/// Adds a word: its first 40 bytes, and two dots if there are more.
fn push_shown(out: &mut String, word: &[u8]) -> Result<(), AllocError>
    ensures { OnOk result (string_bytes out.new ≡ string_bytes out.old ++ shown_text word.now) }
{
    push_bytes(out, first_bytes(word))?;
    push_dots(out, SHOWN_LIMIT < word.len())
}

/// A word in quotes.
fn quoted(alloc: Global, word: &[u8]) -> Result<String, AllocError>
    ensures { IfOk result (λ text. string_bytes text ≡ codes "'" ++ shown_text word.now ++ codes "'") }
{
    let mut out = String::new(alloc);
    out.push_str("'")?;
    push_shown(&mut out, word)?;
    out.push_str("'")?;
    Ok(out)
}

/// The text at a place: the word in quotes, or `nothing` if there is none.
fn stands(alloc: Global, word: Option<&[u8]>) -> Result<String, AllocError>
    ensures { IfOk result (λ text. string_bytes text ≡ stands_text (option_map (λ w. w.now) word.entry)) }
{
    match word {
        None | Some([]) => "nothing".to_string(alloc),
        Some(word) => quoted(alloc, word),
    }
}

/// Writes a text, and then the parts. It takes no memory, and is refused as `write_parts` is.
pub fn write_behind<W: ReportOut>(writer: &mut W, front: &str, parts: &[&str]) -> Result<(), Fault>
    ensures whole { OnOk result (Gains (W.written writer.old) (front.now ++ flat_map (λ part. part.now) parts.now) (W.written writer.new)) }
    ensures raised { OnErr result (Fails (W.failures writer.old) (W.failures writer.new)) }
    ensures kept { OnOk result (W.failures writer.new ≡ W.failures writer.old) }
{
    write_text(writer, front)?;
    write_parts(writer, parts)
}

/// Writes a place: the input's name, the line and the word.
fn write_front<W: ReportOut>(writer: &mut W, place: &Place<'_>) -> Result<(), Fault>
    ensures whole { OnOk result (Gains (W.written writer.old) (place_front place.now.name.now place.now.line place.now.word) (W.written writer.new)) }
    ensures raised { OnErr result (Fails (W.failures writer.old) (W.failures writer.new)) }
    ensures kept { OnOk result (W.failures writer.new ≡ W.failures writer.old) }
{
    let mut line_buffer = Buffer::new();
    let mut word_buffer = Buffer::new();
    let line = line_buffer.format(place.line);
    let word = word_buffer.format(place.word);
    write_behind(writer, place.name, &[":", line, ":", word, ": "])
}

/// Writes the text at a place, and what was expected there.
fn write_back<W: ReportOut>(
    writer: &mut W,
    stands: &str,
    expected: &str,
    end: &str,
) -> Result<(), Fault>
    ensures whole { OnOk result (Gains (W.written writer.old) (place_back stands.now (expected.now ++ end.now)) (W.written writer.new)) }
    ensures raised { OnErr result (Fails (W.failures writer.old) (W.failures writer.new)) }
    ensures kept { OnOk result (W.failures writer.new ≡ W.failures writer.old) }
{
    write_text(writer, stands)?;
    write_parts(writer, &[" stands there, expected ", expected, end, "\n"])
}

/// Writes the line of a place, with the text there.
#[tactic(auto, using(crate::proofs::Written::behind))]
fn write_line<W: ReportOut>(
    writer: &mut W,
    place: &Place<'_>,
    stands: &str,
    expected: &str,
    end: &str,
) -> Result<(), Fault>
    ensures whole { OnOk result (Gains (W.written writer.old) (place_line place.now.name.now place.now.line place.now.word stands.now (expected.now ++ end.now)) (W.written writer.new)) }
    ensures raised { OnErr result (Fails (W.failures writer.old) (W.failures writer.new)) }
    ensures kept { OnOk result (W.failures writer.new ≡ W.failures writer.old) }
{
    write_front(writer, place)?;
    write_back(writer, stands, expected, end)
}

/// Writes the line that reports a bad word of a text: its place, the text there, and what was expected, which is given in two texts. If it is
/// out of memory, it writes `something` for the text. The only refusal is `Fault::Device`, if the writer failed.
#[tactic(auto, using(crate::proofs::Written::something_stands))]
pub fn write_place<W: ReportOut>(
    alloc: Global,
    writer: &mut W,
    text: &[u8],
    place: &Place<'_>,
    expected: &str,
    end: &str,
) -> Result<(), Fault>
    ensures whole { OnOk result ((stands : List ℕ) × IsStanding text.now place.now.line place.now.word stands × Gains (W.written writer.old) (place_line place.now.name.now place.now.line place.now.word stands (expected.now ++ end.now)) (W.written writer.new)) }
    ensures raised { OnErr result (Fails (W.failures writer.old) (W.failures writer.new)) }
    ensures kept { OnOk result (W.failures writer.new ≡ W.failures writer.old) }
{
    match stands(alloc, word_at(text, place.line, place.word)) {
        Ok(stands) => write_line(writer, place, stands.as_str(), expected, end),
        Err(_) => write_line(writer, place, "something", expected, end),
    }
}
