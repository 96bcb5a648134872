//! The text of a message.
ghost use Rattle.std.specs.Prelude.{◌≡◌, ◌≢◌, IfOk, IfErr, Ok, Err, string_bytes};
ghost use Rattle.scp_text.specs.scp_wire.specs.Message.{message_reading};
ghost use Rattle.scp_script_text.specs.declared.decoding.DecodeError.TheVariants.{NoMemory};
ghost use Rattle.scp_script_text.specs.Decoding.{IsTextOf, IsDecoded, IsUndecoded};
ghost use Rattle.scp_script_text.specs.inside.Decoding.{IsUnread};

use crate::bytes::{Spelling, bytes_in};
use scp_text::below::types::Fault;
use scp_text::below::wire::decode;
use scp_text::text_of;
use std::alloc::{AllocError, Global};
use thiserror::Error;

/// Why a word is no message.
#[derive(Clone, Copy, Debug, PartialEq, Eq, Error)]
pub enum DecodeError {
    /// Out of memory.
    #[error("no memory")]
    NoMemory,
    /// The word encodes no bytes.
    #[error("the word spells no bytes")]
    NoBytes,
    /// The bytes break a limit of messages.
    #[error("too long")]
    TooLong,
    /// The bytes are no message, from the byte at this place on, counted from 0.
    #[error("malformed at {0}")]
    Malformed(usize),
}

impl From<AllocError> for DecodeError {
    ghost from_gives = { λ _ e. e ≡ NoMemory };

    fn from(_e: AllocError) -> DecodeError {
        DecodeError::NoMemory
    }
}

/// Why bytes are no message.
fn error_of(fault: Fault) -> DecodeError
    ensures { IsUnread fault result }
{
    match fault {
        Fault::TooLong => DecodeError::TooLong,
        Fault::Malformed(place) => DecodeError::Malformed(place),
        _ => DecodeError::NoMemory,
    }
}

/// The text of the message that bytes encode.
fn text_of_bytes(alloc: Global, bytes: &[u8]) -> Result<String, Fault>
    ensures text { IfOk result (λ text. IsTextOf bytes.now (string_bytes text)) }
    ensures unread { IfErr result (λ fault. fault ≢ Fault.NoMemory → message_reading bytes.now ≡ Err fault) }
{
    let message = decode(alloc, bytes)?;
    match text_of(alloc, &message) {
        Ok(text) => Ok(text),
        Err(_) => Err(Fault::NoMemory),
    }
}

/// The text of the message whose bytes a word encodes. It has each field, in the words that `encode_text` reads. It takes time in
/// proportion to the word.
pub fn decode_text(alloc: Global, spelling: Spelling, word: &[u8]) -> Result<String, DecodeError>
    // The word encodes the bytes of a message. The text is that message's text, and says exactly this message.
    ensures text { IfOk result (λ text. IsDecoded spelling word.now (string_bytes text)) }
    // Otherwise the word encodes no bytes, or its bytes break a limit, or they are no message from this place on. Or memory ran out.
    ensures refused { IfErr result (IsUndecoded spelling word.now) }
{
    let bytes = match bytes_in(alloc, spelling, word) {
        Ok(Some(bytes)) => bytes,
        Ok(None) => return Err(DecodeError::NoBytes),
        Err(_) => return Err(DecodeError::NoMemory),
    };
    match text_of_bytes(alloc, bytes.as_slice()) {
        Ok(text) => Ok(text),
        Err(fault) => Err(error_of(fault)),
    }
}
