//! The lines of a text, their words, and what single words say.
ghost use Rattle.std.specs.Prelude.{◌≡◌, ◌≢◌, ◌==◌, ◌<◌, ℕ, IfOk, IfSome, IsNone, IsOkUnless, is_some, length, map, option_map};
ghost use Rattle.std.specs.List.{slice_split, list_all};
ghost use Rattle.hex.specs.Hex.{is_hex_digit};
ghost use Rattle.scp_script.specs.Words.{lines_of, is_ascii, is_skipped, node_in, link_in, number_in, capacity_by, capacity_in, hex_bytes, set_in};
ghost use Rattle.scp_script.specs.Nodes.{IsSmall};

use arrayvec::ArrayVec;
use hex::FromHexError;
use itoa::Buffer;
use scp_wire::Bytes;
use scp_wire::below::quorum::QuorumSet;
use scp_wire::below::types::{CAPACITY_LIMIT, Fault, Value};
use std::alloc::{AllocError, Global};
use std::str;

/// The lines of a text.
pub fn lines<'a>(alloc: Global, text: &'a [u8]) -> Result<Vec<&'a [u8]>, AllocError>
    ensures { IfOk result (λ lines. map (λ line. line.now) lines.items ≡ lines_of text.entry.now) }
{
    text.split(|byte| *byte == b'\n').collect(alloc)
}

/// The words of a line.
pub fn words<'a>(alloc: Global, line: &'a str) -> Result<Vec<&'a str>, AllocError>
    ensures { IfOk result (λ words. map (λ word. word.now) words.items ≡ slice_split (λ byte. byte == 32) line.entry.now) }
{
    line.split(' ').collect(alloc)
}

/// The words of a line, if there are at most five.
pub fn few_words<'a>(line: &'a str) -> Option<ArrayVec<&'a str, 5>>
    ensures words { IfSome result (λ words. map (λ word. word.now) words.items ≡ slice_split (λ byte. byte == 32) line.entry.now) }
    ensures many { IsNone result → 5 < length (slice_split (λ byte. byte == 32) line.entry.now) }
{
    let mut words = ArrayVec::new();
    match words.extend(line.split(' ')) {
        Ok(()) => Some(words),
        Err(_) => None,
    }
}

/// The line as text, if it is ASCII.
pub fn ascii(line: &[u8]) -> Option<&str>
    ensures text { IfSome result (λ text. text.now ≡ line.now) }
    ensures exact { is_some result ≡ is_ascii line.now }
{
    if !line.is_ascii() {
        return None;
    }
    match str::from_utf8(line) {
        Ok(text) => Some(text),
        Err(_) => None,
    }
}

/// Whether a line is empty or a comment.
pub fn skipped(line: &[u8]) -> bool
    ensures { result ≡ is_skipped line.now }
{
    match line {
        [] => true,
        [first, ..] => *first == b'#',
    }
}

/// A number below 2^64, in decimal digits without a sign or a leading zero.
pub fn number(word: &str) -> Option<u64>
    ensures { result ≡ number_in word.now }
{
    let Ok(value) = word.parse::<u64>() else {
        return None;
    };
    let mut buffer = Buffer::new();
    if buffer.format(value) == word {
        Some(value)
    } else {
        None
    }
}

/// A number as a queue's capacity, if it is from 1 to 1,024.
fn capacity_from(number: Option<u64>) -> Option<u16>
    ensures { result ≡ capacity_by number }
{
    match number {
        Some(number) => {
            if 1 <= number && number <= u64::from(CAPACITY_LIMIT) {
                Some(number as u16)
            } else {
                None
            }
        }
        None => None,
    }
}

/// A queue's capacity, from 1 to 1,024.
pub fn capacity(word: &str) -> Option<u16>
    ensures { result ≡ capacity_in word.now }
{
    capacity_from(number(word))
}

/// The number of a node, from 1 to 8: one digit.
pub fn node(word: &str) -> Option<u8>
    ensures found { result ≡ node_in word.now }
    ensures small { IfSome result IsSmall }
{
    match word.as_bytes() {
        [digit] => {
            if 49 <= *digit && *digit <= 56 {
                Some(*digit - 48)
            } else {
                None
            }
        }
        _ => None,
    }
}

/// A link by the node that it goes from and the node that it goes to, which must differ.
pub fn link(from: &str, to: &str) -> Option<(u8, u8)>
    ensures found { result ≡ link_in from.now to.now }
    ensures small { IfSome result (λ link. IsSmall link.0 × IsSmall link.1 × (link.0 ≢ link.1)) }
{
    let from = node(from)?;
    let to = node(to)?;
    if from == to { None } else { Some((from, to)) }
}

/// Whether each byte is a hexadecimal digit.
fn all_digits(bytes: &[u8]) -> bool
    ensures { result ≡ list_all is_hex_digit bytes.now }
{
    bytes.iter().all(|byte| matches!(*byte, b'0'..=b'9' | b'A'..=b'F' | b'a'..=b'f'))
}

/// Whether a word is hex digits, an even number of them and at least two, or a dash.
pub fn are_digits(word: &str) -> bool
    ensures { result ≡ is_some (hex_bytes word.now) }
{
    if word == "-" {
        return true;
    }
    let digits = word.as_bytes();
    if digits.is_empty() || digits.len() % 2 != 0 {
        return false;
    }
    all_digits(digits)
}

/// The bytes that a word of hex digits encodes, or no bytes for a dash. `None` if the word is neither. The only error is `NoMemory`.
fn decoded(alloc: Global, word: &str) -> Result<Option<Vec<u8>>, Fault>
    ensures bytes { IfOk result (λ bytes. option_map (λ b. b.items) bytes ≡ hex_bytes word.now) }
    ensures only_memory { IsOkUnless result Fault.NoMemory }
{
    if word == "-" {
        return Ok(Some(Vec::new(alloc)));
    }
    if word.is_empty() {
        return Ok(None);
    }
    match hex::decode(alloc, word) {
        Ok(bytes) => Ok(Some(bytes)),
        Err(FromHexError::OutOfMemory) => Err(Fault::NoMemory),
        Err(_) => Ok(None),
    }
}

/// The bytes that a word of hex digits encodes, or no bytes for a dash. `None` if the word is neither. The only error is `NoMemory`.
pub fn bytes_of(alloc: Global, word: &str) -> Result<Option<Bytes>, Fault>
    ensures bytes { IfOk result (λ bytes. bytes ≡ hex_bytes word.now) }
    ensures only_memory { IsOkUnless result Fault.NoMemory }
{
    let Some(bytes) = decoded(alloc, word)? else {
        return Ok(None);
    };
    Ok(Some(Bytes::new(bytes)))
}

/// A value, of any length, as `bytes_of`.
pub fn value_of(alloc: Global, word: &str) -> Result<Option<Value>, Fault>
    ensures value { IfOk result (λ value. value ≡ hex_bytes word.now) }
    ensures only_memory { IsOkUnless result Fault.NoMemory }
{
    let Some(bytes) = decoded(alloc, word)? else {
        return Ok(None);
    };
    Ok(Some(Value::new(bytes)))
}

/// The quorum set that a word of hex digits encodes, with no bytes left over. `None` if it encodes none. The only error is `NoMemory`.
#[tactic(auto, using(crate::proofs::QuorumSets::set_in_read))]
pub fn set_of(alloc: Global, word: &str) -> Result<Option<QuorumSet>, Fault>
    ensures set { IfOk result (λ set. set ≡ set_in (hex_bytes word.now)) }
    ensures only_memory { IsOkUnless result Fault.NoMemory }
{
    let Some(bytes) = bytes_of(alloc, word)? else {
        return Ok(None);
    };
    match QuorumSet::decode(alloc, bytes.as_slice()) {
        Ok(set) => Ok(Some(set)),
        Err(Fault::NoMemory) => Err(Fault::NoMemory),
        Err(_) => Ok(None),
    }
}
