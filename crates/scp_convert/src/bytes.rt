//! Bytes as a word, and back.
ghost use Rattle.std.specs.Prelude.{◌≡◌, IfOk, option_map, string_bytes};
ghost use Rattle.scp_script_text.specs.Decoding.{spelled as spelled_by, bytes_in as bytes_by};
ghost use Rattle.scp_convert.specs.Words.{spelling_of, bytes_of_word as bytes_said, word_of_value as word_by, word_of_bytes as word_with};

use base64::DecodeAllocError;
use base64::engine::general_purpose::STANDARD;
use hex::FromHexError;
use scp_prompt::{Coding, Kind};
use std::alloc::{AllocError, Global};

/// The bytes that a word of hex digits says, if any.
fn bytes_of_hex(alloc: Global, word: &[u8]) -> Result<Option<Vec<u8>>, AllocError>
    ensures { IfOk result (λ found. option_map (λ bytes. bytes.items) found ≡ bytes_by (spelling_of Coding.Hex) word.now) }
{
    match hex::decode(alloc, word) {
        Ok(bytes) => Ok(Some(bytes)),
        Err(FromHexError::OutOfMemory) => Err(AllocError),
        Err(_) => Ok(None),
    }
}

/// The bytes that a word of Base64 says, if any.
fn bytes_of_base64(alloc: Global, word: &[u8]) -> Result<Option<Vec<u8>>, AllocError>
    ensures { IfOk result (λ found. option_map (λ bytes. bytes.items) found ≡ bytes_by (spelling_of Coding.Base64) word.now) }
{
    match STANDARD.decode(alloc, word) {
        Ok(bytes) => Ok(Some(bytes)),
        Err(DecodeAllocError::OutOfMemory) => Err(AllocError),
        Err(_) => Ok(None),
    }
}

/// The bytes that a word says, if any.
fn bytes_in(alloc: Global, coding: Coding, word: &[u8]) -> Result<Option<Vec<u8>>, AllocError>
    ensures { IfOk result (λ found. option_map (λ bytes. bytes.items) found ≡ bytes_by (spelling_of coding) word.now) }
{
    match coding {
        Coding::Hex => bytes_of_hex(alloc, word),
        Coding::Base64 => bytes_of_base64(alloc, word),
    }
}

/// The bytes of the value that a word says, if any.
fn bytes_of_value(alloc: Global, coding: Coding, word: &[u8]) -> Result<Option<Vec<u8>>, AllocError>
    ensures { IfOk result (λ found. option_map (λ bytes. bytes.items) found ≡ bytes_said Kind.Value coding word.now) }
{
    if word == b"-".as_slice() {
        return Ok(Some(Vec::new(alloc)));
    }
    bytes_in(alloc, coding, word)
}

/// The bytes that a word says, if any, where a dash says the empty value.
pub fn bytes_of_word(
    alloc: Global,
    kind: Kind,
    coding: Coding,
    word: &[u8],
) -> Result<Option<Vec<u8>>, AllocError>
    ensures { IfOk result (λ found. option_map (λ bytes. bytes.items) found ≡ bytes_said kind coding word.now) }
{
    match kind {
        Kind::Value => bytes_of_value(alloc, coding, word),
        _ => bytes_in(alloc, coding, word),
    }
}

/// The word that says bytes.
fn spelled(alloc: Global, coding: Coding, bytes: &[u8]) -> Result<String, AllocError>
    ensures { IfOk result (λ word. string_bytes word ≡ spelled_by (spelling_of coding) bytes.now) }
{
    match coding {
        Coding::Hex => hex::encode(alloc, bytes),
        Coding::Base64 => STANDARD.encode(alloc, bytes),
    }
}

/// The word that says the bytes of a value.
fn word_of_value(alloc: Global, coding: Coding, bytes: &[u8]) -> Result<String, AllocError>
    ensures { IfOk result (λ word. string_bytes word ≡ word_by coding bytes.now) }
{
    match bytes {
        [] => "-".to_string(alloc),
        [_, ..] => spelled(alloc, coding, bytes),
    }
}

/// The word that says bytes, where a dash says the empty value.
pub fn word_of_bytes(
    alloc: Global,
    kind: Kind,
    coding: Coding,
    bytes: &[u8],
) -> Result<String, AllocError>
    ensures { IfOk result (λ word. string_bytes word ≡ word_with kind coding bytes.now) }
{
    match kind {
        Kind::Value => word_of_value(alloc, coding, bytes),
        _ => spelled(alloc, coding, bytes),
    }
}
