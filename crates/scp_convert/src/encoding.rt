//! The bytes of a text.
ghost use Rattle.std.specs.Prelude.{◌≡◌, ℕ, List, [], length, Ok, IfOk, IfErr, OnOk};
ghost use Rattle.scp_script_text.specs.scp_xdr.specs.Kind.{Spells};
ghost use Rattle.scp_script_text.specs.scp_envelope.specs.Kinds.{statement_kind, statement_value};
ghost use Rattle.scp_script_text.specs.scp_text.specs.Messages.{message_in, words_of, IsRefusedMessage};
ghost use Rattle.scp_convert.specs.Kinds.{sent, Says};
ghost use Rattle.scp_convert.specs.Refusals.{IsNoEnvelope, IsSigned, IsNotEncodedAs};
ghost use Rattle.scp_convert.specs.inside.Unsaid.{unsaid_by, IsUnsaidBy};

use crate::refusal::Refusal;
use scp_prompt::Kind;
use scp_script_text::below::device::{Expected, WordFault};
use scp_script_text::below::envelope::encode as encode_envelope;
use scp_script_text::below::text::{message_of, set_of, value_of, words};
use scp_script_text::below::wire::{BoxedEnvelope, Message, encode as encode_message};
use std::alloc::{AllocError, Global};

/// Why a text has no bytes.
#[derive(Clone, Copy)]
pub enum Unsaid {
    /// It is refused.
    Refused(Refusal),
    /// It is out of memory.
    NoMemory,
}

/// Why a text that is read as one word, or as a message, has no bytes.
fn of_word(fault: WordFault) -> Unsaid
    ensures { result ≡ unsaid_by fault }
{
    match fault {
        WordFault::Bad(bad) => Unsaid::Refused(Refusal::Word(bad)),
        WordFault::NoMemory => Unsaid::NoMemory,
    }
}

/// Why a text that is read as a message says no envelope.
#[tactic(auto, using(crate::proofs::Unsaid::no_message, crate::proofs::Unsaid::envelope_word))]
fn of_envelope(fault: WordFault) -> Unsaid
    ensures { (text : List ℕ) → IsRefusedMessage (words_of text) fault → IsUnsaidBy (IsNoEnvelope text) result }
{
    match fault {
        WordFault::Bad(bad) if matches!(bad.expected, Expected::AMessage) => {
            Unsaid::Refused(Refusal::NoEnvelope)
        }
        other => of_word(other),
    }
}

/// The bytes of the message that a text says.
#[tactic(auto, using(crate::proofs::Unsaid::message_word))]
fn message(alloc: Global, text: &[u8]) -> Result<Vec<u8>, Unsaid>
    ensures says { IfOk result (λ bytes. Says Kind.Message text.now bytes.items) }
    ensures refused { IfErr result (IsUnsaidBy (IsNotEncodedAs Kind.Message text.now)) }
{
    let message = match message_of(alloc, text) {
        Ok(message) => message,
        Err(fault) => return Err(of_word(fault)),
    };
    match encode_message(alloc, &message) {
        Ok(bytes) => Ok(bytes),
        Err(_) => Err(Unsaid::NoMemory),
    }
}

/// The envelope that a text says.
#[tactic(auto, using(crate::proofs::Unsaid::another_message))]
fn envelope_in(alloc: Global, text: &[u8]) -> Result<BoxedEnvelope, Unsaid>
    ensures says { IfOk result (λ envelope. message_in (words_of text.now) ≡ Ok (sent envelope.value)) }
    ensures refused { IfErr result (IsUnsaidBy (IsNoEnvelope text.now)) }
{
    match message_of(alloc, text) {
        Ok(Message::Envelope(envelope)) => Ok(envelope),
        Ok(_) => Err(Unsaid::Refused(Refusal::NoEnvelope)),
        Err(fault) => Err(of_envelope(fault)),
    }
}

/// The bytes of the envelope that a text says.
fn envelope(alloc: Global, text: &[u8]) -> Result<Vec<u8>, Unsaid>
    ensures says { IfOk result (λ bytes. Says Kind.Envelope text.now bytes.items) }
    ensures refused { IfErr result (IsUnsaidBy (IsNotEncodedAs Kind.Envelope text.now)) }
{
    let envelope = match envelope_in(alloc, text) {
        Ok(envelope) => envelope,
        Err(unsaid) => return Err(unsaid),
    };
    match encode_envelope(alloc, envelope.get()) {
        Ok(bytes) => Ok(bytes),
        Err(_) => Err(Unsaid::NoMemory),
    }
}

/// The number of words of a text.
fn count_of_words(alloc: Global, text: &[u8]) -> Result<usize, AllocError>
    ensures { IfOk result (λ count. count ≡ length (words_of text.now)) }
{
    let words = words(alloc, text)?;
    Ok(words.len())
}

/// Why an envelope that a text says is more than a statement, if it is: it has a signature.
#[tactic(auto, using(crate::proofs::Unsaid::is_signed))]
fn signed(alloc: Global, text: &[u8], envelope: &BoxedEnvelope) -> Result<(), Unsaid>
    requires says { message_in (words_of text.now) ≡ Ok (sent envelope.now.value) }
    ensures unsigned { OnOk result (envelope.now.value.signature ≡ []) }
    ensures refused { IfErr result (IsUnsaidBy (IsSigned text.now)) }
{
    if envelope.get().signature.as_slice().is_empty() {
        return Ok(());
    }
    match count_of_words(alloc, text) {
        Ok(count) => Err(Unsaid::Refused(Refusal::Signed(count))),
        Err(_) => Err(Unsaid::NoMemory),
    }
}

/// The bytes of the statement of an envelope that keeps its limits.
fn statement_of(alloc: Global, envelope: &BoxedEnvelope) -> Result<Vec<u8>, Unsaid>
    ensures spells { IfOk result (λ bytes. Spells statement_kind bytes.items (statement_value envelope.now.value.statement)) }
    ensures only_memory { IfErr result (λ unsaid. unsaid ≡ Unsaid.NoMemory) }
{
    match scp_script_text::below::xdr::encode(alloc, &envelope.get().statement) {
        Ok(bytes) => Ok(bytes),
        Err(_) => Err(Unsaid::NoMemory),
    }
}

/// The bytes of the statement that a text says.
#[tactic(auto, using(crate::proofs::Unsaid::no_statement, crate::proofs::Unsaid::no_signed_statement, crate::proofs::Unsaid::without_signature))]
fn statement(alloc: Global, text: &[u8]) -> Result<Vec<u8>, Unsaid>
    ensures says { IfOk result (λ bytes. Says Kind.Statement text.now bytes.items) }
    ensures refused { IfErr result (IsUnsaidBy (IsNotEncodedAs Kind.Statement text.now)) }
{
    let envelope = match envelope_in(alloc, text) {
        Ok(envelope) => envelope,
        Err(unsaid) => return Err(unsaid),
    };
    match signed(alloc, text, &envelope) {
        Ok(()) => statement_of(alloc, &envelope),
        Err(unsaid) => Err(unsaid),
    }
}

/// The bytes of the quorum set that a text says.
#[tactic(auto, using(crate::proofs::Unsaid::one_word))]
fn set(alloc: Global, text: &[u8]) -> Result<Vec<u8>, Unsaid>
    ensures says { IfOk result (λ bytes. Says Kind.Set text.now bytes.items) }
    ensures refused { IfErr result (IsUnsaidBy (IsNotEncodedAs Kind.Set text.now)) }
{
    let set = match set_of(alloc, text) {
        Ok(set) => set,
        Err(fault) => return Err(of_word(fault)),
    };
    match set.encode() {
        Ok(bytes) => Ok(bytes),
        Err(_) => Err(Unsaid::NoMemory),
    }
}

/// The bytes of the value that a text says.
#[tactic(auto, using(crate::proofs::Unsaid::one_word))]
fn value(alloc: Global, text: &[u8]) -> Result<Vec<u8>, Unsaid>
    ensures says { IfOk result (λ bytes. Says Kind.Value text.now bytes.items) }
    ensures refused { IfErr result (IsUnsaidBy (IsNotEncodedAs Kind.Value text.now)) }
{
    match value_of(alloc, text) {
        Ok(value) => Ok(value.into_vec()),
        Err(fault) => Err(of_word(fault)),
    }
}

/// The bytes of what a text says, alone.
pub fn said(alloc: Global, kind: Kind, text: &[u8]) -> Result<Vec<u8>, Unsaid>
    ensures says { IfOk result (λ bytes. Says kind text.now bytes.items) }
    ensures refused { IfErr result (IsUnsaidBy (IsNotEncodedAs kind text.now)) }
{
    match kind {
        Kind::Message => message(alloc, text),
        Kind::Envelope => envelope(alloc, text),
        Kind::Statement => statement(alloc, text),
        Kind::Set => set(alloc, text),
        Kind::Value => value(alloc, text),
    }
}
