//! The pieces of the notation.
ghost use Rattle.std.specs.Prelude.{◌≡◌, ◌<◌, Some, None, ◌++◌, ◌∷◌, [], IfOk, IfSome, OnOk, IsOkUnless, map, option_map, string_bytes, if◌then◌else◌};
ghost use Rattle.std.specs.List.{list_all};
ghost use Rattle.hex.specs.Hex.{encode_lower};
ghost use Rattle.scp_text.specs.Pieces.{is_plain, is_word, inside, cuts, depth_after, items_in, number_in, digits_in};

use hex::FromHexError;
use scp_kv::below::types::Fault;
use std::alloc::{AllocError, Global};
use std::str;

/// Whether the byte is printable ASCII, and neither a space, a comma nor a round bracket.
fn is_plain(byte: u8) -> bool
    ensures { result ≡ is_plain byte }
{
    byte > 32 && byte < 127 && byte != b'(' && byte != b')' && byte != b','
}

/// Whether each byte is plain.
fn are_plain(bytes: &[u8]) -> bool
    ensures { result ≡ list_all is_plain bytes.now }
{
    bytes.iter().all(|byte| is_plain(*byte))
}

/// Whether there is a byte, and each is plain.
fn is_word(bytes: &[u8]) -> bool
    ensures { result ≡ is_word bytes.now }
{
    match bytes {
        [] => false,
        [_, ..] => are_plain(bytes),
    }
}

/// The bytes as text, where they are plain and there is one.
pub fn word(bytes: &[u8]) -> Option<&str>
    ensures { option_map (λ text. text.now) result ≡ (if is_word bytes.now then Some bytes.now else None) }
{
    if !is_word(bytes) {
        return None;
    }
    match str::from_utf8(bytes) {
        Ok(text) => Some(text),
        Err(_) => None,
    }
}

/// What stands between a name with its opening bracket, and a closing bracket at the end.
#[tactic(auto, unfolding(crate::specs::Pieces::inside))]
pub fn inside<'a>(name: &[u8], text: &'a [u8]) -> Option<&'a [u8]>
    ensures { option_map (λ inner. inner.now) result ≡ inside name.now text.entry.now }
{
    let rest = text.strip_prefix(name)?;
    rest.strip_suffix(b")")
}

/// Whether a comma at this depth of brackets ends an item.
fn cuts(byte: u8, depth: usize) -> bool
    ensures { result ≡ cuts byte depth }
{
    byte == b',' && depth == 0
}

/// How deep in brackets a text is behind the byte.
fn depth_after(byte: u8, depth: usize) -> usize
    requires { depth < usize.MAX }
    ensures { result ≡ depth_after byte depth }
{
    match byte {
        b'(' => depth + 1,
        b')' => depth.saturating_sub(1),
        _ => depth,
    }
}

/// The items of a text, parted by the commas that stand in no bracket within it. A text of nothing has none.
pub fn items<'a>(alloc: Global, text: &'a [u8]) -> Result<Vec<&'a [u8]>, AllocError>
    ensures { IfOk result (λ items. map (λ item. item.now) items.items ≡ items_in text.entry.now) }
{
    let mut items = Vec::new(alloc);
    if text.is_empty() {
        return Ok(items);
    }
    let mut depth = 0;
    let mut start = 0;
    for (index, byte) in text.iter().enumerate() {
        if cuts(*byte, depth) {
            items.push(&text[start..index])?;
            start = index + 1;
        } else {
            depth = depth_after(*byte, depth);
        }
    }
    items.push(&text[start..])?;
    Ok(items)
}

/// A number without sign or leading zero.
fn number_of_text(alloc: Global, word: &str) -> Result<Option<u64>, AllocError>
    ensures { IfOk result (λ found. found ≡ number_in word.now) }
{
    let Ok(value) = word.parse::<u64>() else {
        return Ok(None);
    };
    let text = value.to_string(alloc)?;
    if text.as_str() == word {
        Ok(Some(value))
    } else {
        Ok(None)
    }
}

/// A number below 2^64 without sign or leading zero.
pub fn number(alloc: Global, word: &[u8]) -> Result<Option<u64>, AllocError>
    ensures { IfOk result (λ found. found ≡ number_in word.now) }
{
    let Ok(text) = str::from_utf8(word) else {
        return Ok(None);
    };
    number_of_text(alloc, text)
}

/// The bytes that hexadecimal digits in both cases say.
#[tactic(auto, unfolding(crate::specs::Pieces::digits_in))]
pub fn digits(alloc: Global, text: &[u8]) -> Result<Option<Vec<u8>>, Fault>
    ensures bytes { IfOk result (λ found. option_map (λ bytes. bytes.items) found ≡ digits_in text.now) }
    ensures only_memory { IsOkUnless result Fault.NoMemory }
{
    match hex::decode(alloc, text) {
        Ok(bytes) => Ok(Some(bytes)),
        Err(FromHexError::OutOfMemory) => Err(Fault::NoMemory),
        Err(_) => Ok(None),
    }
}

/// Adds bytes in small digits.
pub fn write_digits(out: &mut String, bytes: &[u8]) -> Result<(), AllocError>
    ensures { OnOk result (string_bytes out.new ≡ string_bytes out.old ++ encode_lower bytes.now) }
{
    let digits = hex::encode(*out.allocator(), bytes)?;
    out.push_str(digits.as_str())?;
    Ok(())
}
