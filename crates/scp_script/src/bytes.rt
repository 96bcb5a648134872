//! Bytes that no line of a script may have.
ghost use Rattle.std.specs.Prelude.{◌≡◌, IfOk, map};
ghost use Rattle.scp_script.specs.Reasons.{parts_of, mark_in, blank_in, first_wrong, foreign_in, nothing_in, foreign_fault, blank_fault, byte_fault};

use crate::words::{ascii, skipped};
use scp_device::{BadWord, Expected};
use std::alloc::{AllocError, Global};

/// The parts of a line between single spaces.
fn byte_words<'a>(alloc: Global, line: &'a [u8]) -> Result<Vec<&'a [u8]>, AllocError>
    ensures { IfOk result (λ words. map (λ word. word.now) words.items ≡ parts_of line.entry.now) }
{
    line.split(|byte| *byte == b' ').collect(alloc)
}

/// What was expected in place of a word with a byte over 127: by whether the line begins with a byte order mark.
fn foreign(line: &[u8]) -> Expected
    ensures { result ≡ mark_in line.now }
{
    match line {
        [0xEF, 0xBB, 0xBF, ..] => Expected::NoMark,
        _ => Expected::Ascii,
    }
}

/// What was expected in place of a word's first carriage return or tab, if it has one.
fn blank(word: &[u8]) -> Option<Expected>
    ensures { result ≡ blank_in word.now }
{
    for byte in word {
        match *byte {
            b'\r' => return Some(Expected::NoReturn),
            b'\t' => return Some(Expected::NoTab),
            _ => {}
        }
    }
    None
}

/// The first word that isn't ASCII.
fn foreign_word(words: &[&[u8]], expected: Expected) -> Option<BadWord>
    ensures { result ≡ first_wrong (foreign_in expected) 1 (map (λ word. word.now) words.now) }
{
    for (index, word) in words.iter().enumerate() {
        if ascii(*word).is_none() {
            let word = index + 1;
            return Some(BadWord { word, expected });
        }
    }
    None
}

/// The first word with a carriage return or a tab.
fn blank_word(words: &[&[u8]]) -> Option<BadWord>
    ensures { result ≡ first_wrong blank_in 1 (map (λ word. word.now) words.now) }
{
    for (index, word) in words.iter().enumerate() {
        if let Some(expected) = blank(*word) {
            let word = index + 1;
            return Some(BadWord { word, expected });
        }
    }
    None
}

/// The first word of no bytes.
fn empty_word(words: &[&[u8]]) -> Option<BadWord>
    ensures { result ≡ first_wrong nothing_in 1 (map (λ word. word.now) words.now) }
{
    for (index, word) in words.iter().enumerate() {
        if word.is_empty() {
            let word = index + 1;
            return Some(BadWord {
                word,
                expected: Expected::OneSpace,
            });
        }
    }
    None
}

/// The first word that isn't ASCII, of a line that isn't ASCII.
pub fn foreign_bytes(alloc: Global, line: &[u8]) -> Result<Option<BadWord>, AllocError>
    ensures { IfOk result (λ found. found ≡ foreign_fault line.now) }
{
    let words = byte_words(alloc, line)?;
    Ok(foreign_word(words.as_slice(), foreign(line)))
}

/// The first word with a carriage return or a tab, or else the first word of no bytes.
pub fn blank_bytes(alloc: Global, line: &[u8]) -> Result<Option<BadWord>, AllocError>
    ensures { IfOk result (λ found. found ≡ blank_fault line.now) }
{
    let words = byte_words(alloc, line)?;
    let words = words.as_slice();
    match blank_word(words) {
        Some(refusal) => Ok(Some(refusal)),
        None => Ok(empty_word(words)),
    }
}

/// The first word with bytes that no line may have. A byte over 127 is judged first, also in a comment. Then comes a carriage return or a
/// tab, and then a word of no bytes, between two spaces or at an end of the line.
pub fn odd_bytes(alloc: Global, line: &[u8]) -> Result<Option<BadWord>, AllocError>
    ensures { IfOk result (λ found. found ≡ byte_fault line.now) }
{
    if ascii(line).is_none() {
        return foreign_bytes(alloc, line);
    }
    if skipped(line) {
        return Ok(None);
    }
    blank_bytes(alloc, line)
}
