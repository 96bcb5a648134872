//! What a line of a slot's script carries as text, in hex digits.
ghost use Rattle.std.specs.Prelude.{◌≡◌, ◌<◌, IfOk, IfErr, length, map};
ghost use Rattle.scp_script_text.specs.SlotLines.{wanted as wanted_there, IsDigits, IsSetWord, IsNoSet, IsValueWord, IsNoValue, IsEnvelopeDigits, IsMessageWord, IsNoMessage, IsEnvelopeWord, IsNoEnvelope, IsHeardLine, IsNoHeardLine, IsHexWords, IsNoHexWords, IsHexLine, IsNoHexLine, IsRefusedAt, kind_of as kind_of_words};

use crate::line::{
    behind_first, but_last, bytes_of, copy_of, digits_word, last_of, line_of, refused,
};
use crate::slot::{SlotLine, kind_of};
use scp_text::below::envelope::{Envelope, encode};
use scp_text::below::types::Fault;
use scp_text::below::wire::{Bytes, Message};
use scp_text::{Expected, WordFault, message_of_words, set_of, value_of, words};
use std::alloc::Global;

/// What was expected where the message must be an envelope: an envelope in place of a message.
fn wanted(expected: Expected) -> Expected
    ensures { result ≡ wanted_there expected }
{
    match expected {
        Expected::AMessage => Expected::AnEnvelope,
        _ => expected,
    }
}

/// The word itself, if it is hex digits or a dash, and else the refusal at this place.
fn kept_or_refused(
    alloc: Global,
    word: &[u8],
    place: usize,
    expected: Expected,
) -> Result<Bytes, WordFault>
    ensures kept { IfOk result (λ out. IsDigits word.now × (out ≡ word.now)) }
    ensures refused { IfErr result (IsRefusedAt word.now place expected) }
{
    match bytes_of(alloc, word)? {
        Some(_) => Ok(copy_of(alloc, word)?),
        None => Err(refused(place, expected)),
    }
}

/// A quorum set in hex digits; a word of hex digits stays as it is.
fn set_word(alloc: Global, word: &[u8], place: usize) -> Result<Bytes, WordFault>
    ensures written { IfOk result (IsSetWord word.now) }
    ensures refused { IfErr result (IsNoSet word.now place) }
{
    match set_of(alloc, word) {
        Ok(set) => {
            let bytes = set.encode()?;
            Ok(digits_word(alloc, bytes.as_slice())?)
        }
        Err(WordFault::NoMemory) => Err(WordFault::NoMemory),
        Err(WordFault::Bad(_)) => kept_or_refused(alloc, word, place, Expected::ASet),
    }
}

/// A value in hex digits; a word of hex digits stays as it is.
fn value_word(alloc: Global, word: &[u8], place: usize) -> Result<Bytes, WordFault>
    ensures written { IfOk result (IsValueWord word.now) }
    ensures refused { IfErr result (IsNoValue word.now place) }
{
    match value_of(alloc, word) {
        Ok(value) => Ok(digits_word(alloc, value.as_slice())?),
        Err(WordFault::NoMemory) => Err(WordFault::NoMemory),
        Err(WordFault::Bad(_)) => kept_or_refused(alloc, word, place, Expected::AValue),
    }
}

/// An envelope in hex digits.
fn envelope_digits(alloc: Global, envelope: &Envelope) -> Result<Bytes, Fault>
    ensures { IfOk result (IsEnvelopeDigits envelope.now) }
{
    let bytes = encode(alloc, envelope)?;
    Ok(digits_word(alloc, bytes.as_slice())?)
}

/// The envelope that words say, in hex digits. They are the words of a line after its first.
fn said_envelope(alloc: Global, words: &[&[u8]]) -> Result<Bytes, WordFault>
    ensures written { IfOk result (IsMessageWord (map (λ word. word.now) words.now)) }
    ensures refused { IfErr result (IsNoMessage (map (λ word. word.now) words.now)) }
{
    match message_of_words(alloc, words) {
        Ok(Message::Envelope(envelope)) => Ok(envelope_digits(alloc, envelope.get())?),
        Ok(_) => Err(refused(2, Expected::AnEnvelope)),
        Err(WordFault::NoMemory) => Err(WordFault::NoMemory),
        Err(WordFault::Bad(bad)) => Err(refused(bad.word + 1, wanted(bad.expected))),
    }
}

/// An envelope in hex digits; a single word of hex digits stays as it is.
fn envelope_word(alloc: Global, words: &[&[u8]]) -> Result<Bytes, WordFault>
    ensures written { IfOk result (IsEnvelopeWord (map (λ word. word.now) words.now)) }
    ensures refused { IfErr result (IsNoEnvelope (map (λ word. word.now) words.now)) }
{
    match words {
        [word] => kept_or_refused(alloc, *word, 2, Expected::AnEnvelope),
        _ => said_envelope(alloc, words),
    }
}

/// The line of an envelope and a quorum set.
fn envelope_line(alloc: Global, front: &[&[u8]], last: &[u8]) -> Result<Bytes, WordFault>
    requires { length front.now < usize.MAX }
    ensures written { IfOk result (IsHeardLine (map (λ word. word.now) front.now) last.now) }
    ensures refused { IfErr result (IsNoHeardLine (map (λ word. word.now) front.now) last.now) }
{
    let envelope = envelope_word(alloc, behind_first(front))?;
    let set = set_word(alloc, last, front.len() + 1)?;
    let words = [b"envelope".as_slice(), envelope.as_slice()];
    Ok(line_of(alloc, &words, set.as_slice())?)
}

/// The line of these words and this last one, in hex digits.
fn hex_words(alloc: Global, front: &[&[u8]], last: &[u8], line: &[u8]) -> Result<Bytes, WordFault>
    requires { length front.now < usize.MAX }
    ensures written { IfOk result (IsHexWords (kind_of_words (map (λ word. word.now) front.now)) (map (λ word. word.now) front.now) last.now line.now) }
    ensures refused { IfErr result (IsNoHexWords (kind_of_words (map (λ word. word.now) front.now)) (map (λ word. word.now) front.now) last.now) }
{
    match kind_of(front) {
        SlotLine::Machine => {
            let set = set_word(alloc, last, front.len() + 1)?;
            Ok(line_of(alloc, front, set.as_slice())?)
        }
        SlotLine::Proposal => {
            let value = value_word(alloc, last, front.len() + 1)?;
            Ok(line_of(alloc, front, value.as_slice())?)
        }
        SlotLine::Hears => envelope_line(alloc, front, last),
        SlotLine::Other => Ok(copy_of(alloc, line)?),
    }
}

/// A line in hex digits. A line that carries nothing, or that is in hex digits already, stays as it is.
pub fn hex_line(alloc: Global, line: &[u8]) -> Result<Bytes, WordFault>
    ensures written { IfOk result (IsHexLine line.now) }
    ensures refused { IfErr result (IsNoHexLine line.now) }
{
    let words = words(alloc, line)?;
    let words = words.as_slice();
    hex_words(alloc, but_last(words), last_of(words), line)
}
