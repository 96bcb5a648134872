//! The text of bytes.
ghost use Rattle.std.specs.Prelude.{◌≢◌, IfOk, IfErr, IsOkUnless, string_bytes};
ghost use Rattle.scp_convert.specs.Kinds.{sent, unsigned, IsOnlyTextOf, IsShown, IsFaulty};

use scp_prompt::Kind;
use scp_script_text::below::envelope::{Envelope, Signature, Statement, decode as decode_envelope};
use scp_script_text::below::quorum::QuorumSet;
use scp_script_text::below::text::{text_of, text_of_set, text_of_value};
use scp_script_text::below::types::{Fault, VALUE_LIMIT, Value};
use scp_script_text::below::wire::{BoxedEnvelope, Message, decode as decode_message};
use std::alloc::Global;

/// The most bytes of an envelope: with those of its message's kind it is a message.
const ENVELOPE_LIMIT: usize = 65_532;

/// The most bytes of a statement: with an empty signature it is an envelope.
const STATEMENT_LIMIT: usize = 65_528;

/// The text of a message that is within its limits.
fn text_of_message(alloc: Global, message: &Message) -> Result<String, Fault>
    ensures text { IfOk result (λ text. IsOnlyTextOf message.now (string_bytes text)) }
    ensures only_memory { IsOkUnless result Fault.NoMemory }
{
    match text_of(alloc, message) {
        Ok(text) => Ok(text),
        Err(_) => Err(Fault::NoMemory),
    }
}

/// The text of the message that bytes encode.
fn of_message(alloc: Global, bytes: &[u8]) -> Result<String, Fault>
    ensures text { IfOk result (λ text. IsShown Kind.Message bytes.now (string_bytes text)) }
    ensures unread { IfErr result (λ fault. fault ≢ Fault.NoMemory → IsFaulty Kind.Message bytes.now fault) }
{
    let message = decode_message(alloc, bytes)?;
    match text_of_message(alloc, &message) {
        Ok(text) => Ok(text),
        Err(_) => Err(Fault::NoMemory),
    }
}

/// The text of an envelope that is within its limits.
fn text_of_envelope(alloc: Global, envelope: Envelope) -> Result<String, Fault>
    ensures text { IfOk result (λ text. IsOnlyTextOf (sent envelope) (string_bytes text)) }
    ensures only_memory { IsOkUnless result Fault.NoMemory }
{
    let message = Message::Envelope(BoxedEnvelope::new(alloc, envelope)?);
    text_of_message(alloc, &message)
}

/// The text of the envelope that bytes encode.
fn of_envelope(alloc: Global, bytes: &[u8]) -> Result<String, Fault>
    ensures text { IfOk result (λ text. IsShown Kind.Envelope bytes.now (string_bytes text)) }
    ensures unread { IfErr result (λ fault. fault ≢ Fault.NoMemory → IsFaulty Kind.Envelope bytes.now fault) }
{
    if bytes.len() > ENVELOPE_LIMIT {
        return Err(Fault::TooLong);
    }
    let envelope = decode_envelope(alloc, bytes)?;
    match text_of_envelope(alloc, envelope) {
        Ok(text) => Ok(text),
        Err(_) => Err(Fault::NoMemory),
    }
}

/// The text of a statement that is within its limits.
fn text_of_statement(alloc: Global, statement: Statement) -> Result<String, Fault>
    ensures text { IfOk result (λ text. IsOnlyTextOf (sent (unsigned statement)) (string_bytes text)) }
    ensures only_memory { IsOkUnless result Fault.NoMemory }
{
    let signature = Signature::new(Vec::new(alloc));
    text_of_envelope(
        alloc,
        Envelope {
            statement,
            signature,
        },
    )
}

/// The text of the statement that bytes encode.
fn of_statement(alloc: Global, bytes: &[u8]) -> Result<String, Fault>
    ensures text { IfOk result (λ text. IsShown Kind.Statement bytes.now (string_bytes text)) }
    ensures unread { IfErr result (λ fault. fault ≢ Fault.NoMemory → IsFaulty Kind.Statement bytes.now fault) }
{
    if bytes.len() > STATEMENT_LIMIT {
        return Err(Fault::TooLong);
    }
    let statement = scp_script_text::below::xdr::decode::<Statement>(alloc, bytes)?;
    match text_of_statement(alloc, statement) {
        Ok(text) => Ok(text),
        Err(_) => Err(Fault::NoMemory),
    }
}

/// The text of the quorum set that bytes encode.
fn of_set(alloc: Global, bytes: &[u8]) -> Result<String, Fault>
    ensures text { IfOk result (λ text. IsShown Kind.Set bytes.now (string_bytes text)) }
    ensures unread { IfErr result (λ fault. fault ≢ Fault.NoMemory → IsFaulty Kind.Set bytes.now fault) }
{
    let set = QuorumSet::decode(alloc, bytes)?;
    match text_of_set(alloc, &set) {
        Ok(text) => Ok(text),
        Err(_) => Err(Fault::NoMemory),
    }
}

/// The text of a value of these bytes.
fn of_value(alloc: Global, bytes: &[u8]) -> Result<String, Fault>
    ensures text { IfOk result (λ text. IsShown Kind.Value bytes.now (string_bytes text)) }
    ensures unread { IfErr result (λ fault. fault ≢ Fault.NoMemory → IsFaulty Kind.Value bytes.now fault) }
{
    if bytes.len() > VALUE_LIMIT {
        return Err(Fault::TooLong);
    }
    let value = Value::new(Vec::from_slice(alloc, bytes)?);
    match text_of_value(alloc, &value) {
        Ok(text) => Ok(text),
        Err(_) => Err(Fault::NoMemory),
    }
}

/// The text of what bytes are, alone. `TooLong` over a limit, `Malformed` from the first byte that is none of the kind, or `NoMemory`.
pub fn shown(alloc: Global, kind: Kind, bytes: &[u8]) -> Result<String, Fault>
    ensures text { IfOk result (λ text. IsShown kind bytes.now (string_bytes text)) }
    ensures unread { IfErr result (λ fault. fault ≢ Fault.NoMemory → IsFaulty kind bytes.now fault) }
{
    match kind {
        Kind::Message => of_message(alloc, bytes),
        Kind::Envelope => of_envelope(alloc, bytes),
        Kind::Statement => of_statement(alloc, bytes),
        Kind::Set => of_set(alloc, bytes),
        Kind::Value => of_value(alloc, bytes),
    }
}
