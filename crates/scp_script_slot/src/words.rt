//! The lines of a script, their words, and what single words say.
ghost use Rattle.std.specs.Prelude.{◌≡◌, IfOk, IsOkUnless, map};
ghost use Rattle.scp_script_slot.specs.Serving.{lines_of};

use hex::FromHexError;
use scp_slot::below::envelope::{Envelope, decode};
use scp_slot::below::quorum::{QuorumSet, SaneSet};
use scp_slot::below::types::{Fault, NodeId, VALUE_LIMIT, Value};
use std::alloc::{AllocError, Global};
use std::str;
use std::sync::Arc;

/// The lines of a text.
pub fn lines<'a>(alloc: Global, text: &'a [u8]) -> Result<Vec<&'a [u8]>, AllocError>
    ensures { IfOk result (λ lines. map (λ line. line.now) lines.items ≡ lines_of text.entry.now) }
{
    text.split(|byte| *byte == b'\n').collect(alloc)
}

/// The words of a line.
pub fn words<'a>(alloc: Global, line: &'a str) -> Result<Vec<&'a str>, AllocError> {
    line.split(' ').collect(alloc)
}

/// A line as text, if it is ASCII.
pub fn ascii(line: &[u8]) -> Option<&str> {
    if !line.is_ascii() {
        return None;
    }
    match str::from_utf8(line) {
        Ok(text) => Some(text),
        Err(_) => None,
    }
}

/// Whether a line is empty or a comment.
pub fn is_skipped(line: &[u8]) -> bool {
    line.is_empty() || line[0] == b'#'
}

/// A number below 2^64, in decimal digits without a sign or a leading zero.
pub fn number(alloc: Global, word: &str) -> Result<Option<u64>, AllocError> {
    let Ok(value) = word.parse::<u64>() else {
        return Ok(None);
    };
    let text = value.to_string(alloc)?;
    if text.as_str() == word {
        Ok(Some(value))
    } else {
        Ok(None)
    }
}

/// The id of a node by its number, from 1 to 255: 32 bytes, each of which is the number.
pub fn node(alloc: Global, word: &str) -> Result<Option<NodeId>, AllocError> {
    match number(alloc, word)? {
        Some(number) if 1 <= number && number <= 255 => Ok(Some(NodeId([number as u8; 32]))),
        _ => Ok(None),
    }
}

/// The bytes that a word of hex digits encodes, or no bytes for a dash. `None` if the word is neither.
fn bytes(alloc: Global, word: &str) -> Result<Option<Vec<u8>>, Fault>
    ensures only_memory { IsOkUnless result Fault.NoMemory }
{
    if word == "-" {
        return Ok(Some(Vec::new(alloc)));
    }
    if word.is_empty() {
        return Ok(None);
    }
    match hex::decode(alloc, word) {
        Ok(bytes) => Ok(Some(bytes)),
        Err(FromHexError::OutOfMemory) => Err(Fault::NoMemory),
        Err(_) => Ok(None),
    }
}

/// A value of at most 4,096 bytes.
pub fn value(alloc: Global, word: &str) -> Result<Option<Value>, Fault>
    ensures only_memory { IsOkUnless result Fault.NoMemory }
{
    let Some(bytes) = bytes(alloc, word)? else {
        return Ok(None);
    };
    if bytes.len() > VALUE_LIMIT {
        return Ok(None);
    }
    Ok(Some(Value::new(bytes)))
}

/// A quorum set by its bytes.
fn quorum_set(alloc: Global, word: &str) -> Result<Option<QuorumSet>, Fault>
    ensures only_memory { IsOkUnless result Fault.NoMemory }
{
    let Some(bytes) = bytes(alloc, word)? else {
        return Ok(None);
    };
    match QuorumSet::decode(alloc, bytes.as_slice()) {
        Ok(set) => Ok(Some(set)),
        Err(Fault::NoMemory) => Err(Fault::NoMemory),
        Err(_) => Ok(None),
    }
}

/// A sane quorum set by its bytes.
pub fn sane_set(alloc: Global, word: &str) -> Result<Option<Arc<SaneSet>>, Fault>
    ensures only_memory { IsOkUnless result Fault.NoMemory }
{
    let Some(set) = quorum_set(alloc, word)? else {
        return Ok(None);
    };
    match set.into_sane() {
        Ok(sane) => Ok(Some(Arc::new(alloc, sane)?)),
        Err((Fault::NoMemory, _)) => Err(Fault::NoMemory),
        Err(_) => Ok(None),
    }
}

/// An envelope by its bytes.
pub fn envelope(alloc: Global, word: &str) -> Result<Option<Envelope>, Fault>
    ensures only_memory { IsOkUnless result Fault.NoMemory }
{
    let Some(bytes) = bytes(alloc, word)? else {
        return Ok(None);
    };
    match decode(alloc, bytes.as_slice()) {
        Ok(envelope) => Ok(Some(envelope)),
        Err(Fault::NoMemory) => Err(Fault::NoMemory),
        Err(_) => Ok(None),
    }
}
