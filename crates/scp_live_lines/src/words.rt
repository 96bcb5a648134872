//! How single words are read.
ghost use Rattle.std.specs.Prelude.{◌≡◌, ◌⊎◌, ◌<◌, ◌^◌, ℕ, IfOk, IfErr, IfSome, IsNone, Some, is_some, map, string_bytes, take};
ghost use Rattle.std.specs.Fmt.{decimal};
ghost use Rattle.scp_script.specs.Words.{is_ascii, hex_bytes};
ghost use Rattle.scp_script.specs.Reasons.{parts_of};
ghost use Rattle.scp_live_lines.specs.Says.{IsNamed, IsSlot};
ghost use Rattle.scp_live_lines.specs.Bad.{IsPeer, IsSlotWord, IsDigits};
ghost use Rattle.scp_live_lines.specs.Results.{IfBad};

use arrayvec::ArrayVec;
use itoa::Buffer;
use scp_core::below::types::{Slot, Value};
use scp_core::below::wire::Bytes;
use scp_script::{BadWord, Expected, WordFault, bytes_of};
use std::alloc::Global;
use std::str;

/// A line as text, if it is ASCII.
pub fn ascii(line: &[u8]) -> Option<&str>
    ensures text { IfSome result (λ text. text.now ≡ line.now) }
    ensures exact { is_some result ≡ is_ascii line.now }
{
    if !line.is_ascii() {
        return None;
    }
    match str::from_utf8(line) {
        Ok(text) => Some(text),
        Err(_) => None,
    }
}

/// The words of a line, or the first four if there are more.
pub fn first_words<'a>(line: &'a str) -> ArrayVec<&'a str, 4>
    ensures { (map (λ word. word.now) result.items ≡ parts_of line.entry.now) ⊎ (map (λ word. word.now) result.items ≡ take 4 (parts_of line.entry.now)) }
{
    let mut words = ArrayVec::new();
    match words.extend(line.split(' ')) {
        Ok(()) => words,
        Err(_) => words,
    }
}

/// The first link with this name, among the first 256 links.
fn link_of(names: &[String], word: &str) -> Option<u8>
    ensures found { IfSome result (λ link. IsNamed (map string_bytes names.now) link word.now) }
    ensures none { IsNone result → ¬ (IsPeer (map string_bytes names.now) word.now) }
{
    for (index, name) in names.iter().enumerate() {
        let Ok(link) = u8::try_from(index) else {
            return None;
        };
        if name.as_str() == word {
            return Some(link);
        }
    }
    None
}

/// A number without sign or leading zero.
fn number(word: &str) -> Option<u64>
    ensures found { IfSome result (λ number. word.now ≡ decimal number) }
    ensures none { IsNone result → ¬ (IsSlotWord word.now) }
{
    let Ok(value) = word.parse::<u64>() else {
        return None;
    };
    let mut buffer = Buffer::new();
    if buffer.format(value) == word {
        Some(value)
    } else {
        None
    }
}

/// The link whose peer has this name. The name is the second word.
pub fn peer(names: &[String], word: &str) -> Result<u8, BadWord>
    ensures found { IfOk result (λ link. IsNamed (map string_bytes names.now) link word.now) }
    ensures bad { IfErr result (λ refusal. (¬ (IsPeer (map string_bytes names.now) word.now)) × (refusal ≡ record { word = 2; expected = Expected.APeer })) }
{
    match link_of(names, word) {
        Some(link) => Ok(link),
        None => Err(BadWord {
            word: 2,
            expected: Expected::APeer,
        }),
    }
}

/// The slot that the word with this number says.
pub fn slot(word: &str, place: usize) -> Result<Slot, BadWord>
    ensures found { IfOk result (λ slot. IsSlot slot × (word.now ≡ decimal slot.0)) }
    ensures bad { IfErr result (λ refusal. (¬ (IsSlotWord word.now)) × (refusal ≡ record { word = place; expected = Expected.ASlot })) }
{
    match number(word) {
        Some(number) => Ok(Slot(number)),
        None => Err(BadWord {
            word: place,
            expected: Expected::ASlot,
        }),
    }
}

/// The bytes that the third word encodes in hexadecimal digits.
pub fn bytes(alloc: Global, word: &str) -> Result<Bytes, WordFault>
    ensures found { IfOk result (λ bytes. hex_bytes word.now ≡ Some bytes) }
    ensures bad { IfBad result (λ refusal. (¬ (IsDigits word.now)) × (refusal ≡ record { word = 3; expected = Expected.Digits })) }
{
    match bytes_of(alloc, word) {
        Ok(Some(bytes)) => Ok(bytes),
        Ok(None) => Err(WordFault::Bad(BadWord {
            word: 3,
            expected: Expected::Digits,
        })),
        Err(_) => Err(WordFault::NoMemory),
    }
}

/// The value that the third word encodes in hexadecimal digits.
pub fn value(alloc: Global, word: &str) -> Result<Value, WordFault>
    ensures found { IfOk result (λ value. hex_bytes word.now ≡ Some value) }
    ensures bad { IfBad result (λ refusal. (¬ (IsDigits word.now)) × (refusal ≡ record { word = 3; expected = Expected.Digits })) }
{
    let bytes = bytes(alloc, word)?;
    match Vec::from_slice(alloc, bytes.as_slice()) {
        Ok(copied) => Ok(Value::new(copied)),
        Err(_) => Err(WordFault::NoMemory),
    }
}
