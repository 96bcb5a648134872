//! What a line of a slot's script carries in hex digits, as text.
ghost use Rattle.std.specs.Prelude.{◌≡◌, ◌≢◌, IfOk, IfErr, IsOkUnless, map, string_bytes};
ghost use Rattle.scp_script_text.specs.Lines.{bytes_in};
ghost use Rattle.scp_script_text.specs.SlotLines.{but_last as all_but_last, last_of as last_word, kind_of as kind_of_words};
ghost use Rattle.scp_script_text.specs.SlotTexts.{IsWordText, IsEnvelopeShown, IsUnreadEnvelope, IsEnvelopeText, IsHeard, IsTextWords, IsCandidate, IsTextLine};
ghost use Rattle.scp_script_text.specs.inside.SlotTexts.{IsChecked};

use crate::line::{behind_first, but_last, bytes_of, copy_of, last_of, line_of};
use crate::nodes::Carried;
use crate::slot::{SlotLine, kind_of};
use crate::slot_hexing::hex_line;
use crate::texting::shown;
use scp_text::below::envelope::decode;
use scp_text::below::types::Fault;
use scp_text::below::wire::{BoxedEnvelope, Bytes, Message};
use scp_text::{WordFault, text_of, words};
use std::alloc::Global;

/// The text of the envelope that bytes encode.
fn shown_envelope(alloc: Global, bytes: &[u8]) -> Result<String, Fault>
    ensures shown { IfOk result (λ text. IsEnvelopeShown bytes.now (string_bytes text)) }
    ensures unread { IfErr result (λ fault. fault ≢ Fault.NoMemory → IsUnreadEnvelope bytes.now) }
{
    let envelope = decode(alloc, bytes)?;
    let message = Message::Envelope(BoxedEnvelope::new(alloc, envelope)?);
    text_of(alloc, &message)
}

/// The text, or the word itself where there is none.
fn text_or_word(alloc: Global, text: Result<String, Fault>, word: &[u8]) -> Result<Bytes, Fault>
    ensures text { IfOk text (λ t. IfOk result (λ out. out ≡ string_bytes t)) }
    ensures word { IfErr text (λ f. IfOk result (λ out. (f ≢ Fault.NoMemory) × (out ≡ word.now))) }
    ensures only_memory { IsOkUnless result Fault.NoMemory }
{
    match text {
        Ok(text) => Ok(copy_of(alloc, text.as_bytes())?),
        Err(Fault::NoMemory) => Err(Fault::NoMemory),
        Err(_) => Ok(copy_of(alloc, word)?),
    }
}

/// The value or the quorum set that a word encodes, as text; a word that encodes none stays as it is.
fn word_text(alloc: Global, carried: Carried, word: &[u8]) -> Result<Bytes, Fault>
    ensures text { IfOk result (IsWordText carried (bytes_in word.now) word.now) }
    ensures only_memory { IsOkUnless result Fault.NoMemory }
{
    match bytes_of(alloc, word)? {
        Some(bytes) => text_or_word(alloc, shown(alloc, carried, bytes.as_slice()), word),
        None => Ok(copy_of(alloc, word)?),
    }
}

/// An envelope as text; a word that encodes none stays as it is.
fn envelope_text(alloc: Global, word: &[u8]) -> Result<Bytes, Fault>
    ensures text { IfOk result (IsEnvelopeText (bytes_in word.now) word.now) }
    ensures only_memory { IsOkUnless result Fault.NoMemory }
{
    match bytes_of(alloc, word)? {
        Some(bytes) => text_or_word(alloc, shown_envelope(alloc, bytes.as_slice()), word),
        None => Ok(copy_of(alloc, word)?),
    }
}

/// The line of an envelope and a quorum set as text, if the envelope is one word; else the line itself.
fn heard(alloc: Global, words: &[&[u8]], last: &[u8], line: &[u8]) -> Result<Bytes, Fault>
    ensures text { IfOk result (IsHeard (map (λ word. word.now) words.now) last.now line.now) }
    ensures only_memory { IsOkUnless result Fault.NoMemory }
{
    match words {
        [word] => {
            let envelope = envelope_text(alloc, *word)?;
            let set = word_text(alloc, Carried::Set, last)?;
            let words = [b"envelope".as_slice(), envelope.as_slice()];
            Ok(line_of(alloc, &words, set.as_slice())?)
        }
        _ => Ok(copy_of(alloc, line)?),
    }
}

/// The line of these words and this last one, as text.
fn text_words(alloc: Global, front: &[&[u8]], last: &[u8], line: &[u8]) -> Result<Bytes, Fault>
    ensures text { IfOk result (IsTextWords (kind_of_words (map (λ word. word.now) front.now)) (map (λ word. word.now) front.now) last.now line.now) }
    ensures only_memory { IsOkUnless result Fault.NoMemory }
{
    match kind_of(front) {
        SlotLine::Machine => {
            let set = word_text(alloc, Carried::Set, last)?;
            Ok(line_of(alloc, front, set.as_slice())?)
        }
        SlotLine::Proposal => {
            let value = word_text(alloc, Carried::Value, last)?;
            Ok(line_of(alloc, front, value.as_slice())?)
        }
        SlotLine::Hears => heard(alloc, behind_first(front), last, line),
        SlotLine::Other => Ok(copy_of(alloc, line)?),
    }
}

/// The line in which each word that encodes something is text.
fn candidate(alloc: Global, line: &[u8]) -> Result<Bytes, Fault>
    ensures text { IfOk result (IsCandidate line.now) }
    ensures only_memory { IsOkUnless result Fault.NoMemory }
{
    let words = words(alloc, line)?;
    let words = words.as_slice();
    text_words(alloc, but_last(words), last_of(words), line)
}

/// Whether a text is one line, and in hex digits is this line.
fn is_line_in_digits(alloc: Global, text: &[u8], line: &[u8]) -> Result<bool, Fault>
    ensures checked { IfOk result (IsChecked text.now line.now) }
    ensures only_memory { IsOkUnless result Fault.NoMemory }
{
    if text.contains(&b'\n') {
        return Ok(false);
    }
    match hex_line(alloc, text) {
        Ok(digits) => Ok(digits.as_slice() == line),
        Err(WordFault::NoMemory) => Err(Fault::NoMemory),
        Err(WordFault::Bad(_)) => Ok(false),
    }
}

/// A line as text, if that text in hex digits is the same line again, or else the line itself.
pub fn text_line(alloc: Global, line: &[u8]) -> Result<Bytes, Fault>
    ensures text { IfOk result (IsTextLine line.now) }
    ensures only_memory { IsOkUnless result Fault.NoMemory }
{
    let text = candidate(alloc, line)?;
    if is_line_in_digits(alloc, text.as_slice(), line)? {
        return Ok(text);
    }
    Ok(copy_of(alloc, line)?)
}
