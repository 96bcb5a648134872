//! Bytes as a word, and back.
ghost use Rattle.std.specs.Prelude.{◌≡◌, IfOk, IsOkUnless, option_map, string_bytes};
ghost use Rattle.scp_script_text.specs.Decoding.{spelled as spelled_by, bytes_in as bytes_of_word};

use base64::DecodeAllocError;
use base64::engine::general_purpose::STANDARD;
use hex::FromHexError;
use scp_text::below::types::Fault;
use std::alloc::{AllocError, Global};

/// How bytes are encoded in a word.
#[derive(Clone, Copy, PartialEq, Eq)]
pub enum Spelling {
    /// In hex digits, an even number of them. Both cases are read; lower-case digits are written.
    Hex,
    /// In Base64 with its padding (RFC 4648, section 4).
    Base64,
}

/// The bytes that a word of hex digits encodes, if any.
fn bytes_of_hex(alloc: Global, word: &[u8]) -> Result<Option<Vec<u8>>, Fault>
    ensures found { IfOk result (λ found. option_map (λ bytes. bytes.items) found ≡ bytes_of_word Spelling.Hex word.now) }
    ensures only_memory { IsOkUnless result Fault.NoMemory }
{
    match hex::decode(alloc, word) {
        Ok(bytes) => Ok(Some(bytes)),
        Err(FromHexError::OutOfMemory) => Err(Fault::NoMemory),
        Err(_) => Ok(None),
    }
}

/// The bytes that a word of Base64 encodes, if any.
fn bytes_of_base64(alloc: Global, word: &[u8]) -> Result<Option<Vec<u8>>, Fault>
    ensures found { IfOk result (λ found. option_map (λ bytes. bytes.items) found ≡ bytes_of_word Spelling.Base64 word.now) }
    ensures only_memory { IsOkUnless result Fault.NoMemory }
{
    match STANDARD.decode(alloc, word) {
        Ok(bytes) => Ok(Some(bytes)),
        Err(DecodeAllocError::OutOfMemory) => Err(Fault::NoMemory),
        Err(_) => Ok(None),
    }
}

/// The bytes that a word encodes, if any. The only error is `NoMemory`.
pub fn bytes_in(alloc: Global, spelling: Spelling, word: &[u8]) -> Result<Option<Vec<u8>>, Fault>
    ensures found { IfOk result (λ found. option_map (λ bytes. bytes.items) found ≡ bytes_of_word spelling word.now) }
    ensures only_memory { IsOkUnless result Fault.NoMemory }
{
    match spelling {
        Spelling::Hex => bytes_of_hex(alloc, word),
        Spelling::Base64 => bytes_of_base64(alloc, word),
    }
}

/// The word that encodes bytes.
pub fn spelled(alloc: Global, spelling: Spelling, bytes: &[u8]) -> Result<String, AllocError>
    ensures { IfOk result (λ word. string_bytes word ≡ spelled_by spelling bytes.now) }
{
    match spelling {
        Spelling::Hex => hex::encode(alloc, bytes),
        Spelling::Base64 => STANDARD.encode(alloc, bytes),
    }
}
