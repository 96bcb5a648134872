//! What a line of a script of nodes carries as text, in hex digits.
ghost use Rattle.std.specs.Prelude.{◌≡◌, ◌≢◌, ◌+◌, ◌≤◌, Ok, Err, IfOk, IfErr, map};
ghost use Rattle.scp_text.specs.scp_xdr.specs.Kind.{Fits, Spells};
ghost use Rattle.scp_text.specs.scp_quorum.specs.QuorumKind.{set_kind, set_value};
ghost use Rattle.scp_text.specs.Values.{value_in};
ghost use Rattle.scp_text.specs.Sets.{set_in};
ghost use Rattle.scp_text.specs.Messages.{Answers, IsNear};
ghost use Rattle.scp_script_text.specs.Lines.{before, digits_of, only_word, Say, AreRefused, AreDigits, IsHexOf, IsNoHex};

use crate::line::{copy_of, digits, digits_at, end, first_words, line_of, refused, words_behind};
use crate::nodes::{Carried, words_before};
use scp_text::below::quorum::QuorumSet;
use scp_text::below::types::Value;
use scp_text::below::wire::{Bytes, encode};
use scp_text::{BadWord, Expected, WordFault, message_of_words, set_of, value_of};
use std::alloc::{AllocError, Global};

/// The bytes of the message that words say.
fn message_bytes(alloc: Global, words: &[&[u8]]) -> Result<Bytes, WordFault>
    ensures say { IfOk result (Say Carried.Message (map (λ word. word.now) words.now)) }
    ensures refused { IfErr result (AreRefused Carried.Message (map (λ word. word.now) words.now)) }
    ensures near { IfErr result IsNear }
{
    let message = message_of_words(alloc, words)?;
    Ok(Bytes::new(encode(alloc, &message)?))
}

/// The value that the one word says.
fn value_at(alloc: Global, words: &[&[u8]]) -> Result<Value, WordFault>
    ensures { Answers result (only_word value_in Expected.AValue (map (λ word. word.now) words.now)) }
{
    match words {
        [] => Err(refused(1, Expected::AValue)),
        [word, more @ ..] => {
            let value = value_of(alloc, *word)?;
            end(more)?;
            Ok(value)
        }
    }
}

/// The bytes of the value that the one word says.
#[tactic(auto, using(crate::proofs::Said::word_near))]
fn value_bytes(alloc: Global, words: &[&[u8]]) -> Result<Bytes, WordFault>
    ensures say { IfOk result (Say Carried.Value (map (λ word. word.now) words.now)) }
    ensures refused { IfErr result (AreRefused Carried.Value (map (λ word. word.now) words.now)) }
    ensures near { IfErr result IsNear }
{
    let value = value_at(alloc, words)?;
    Ok(Bytes::new(value.into_vec()))
}

/// The quorum set that the one word says.
fn set_at(alloc: Global, words: &[&[u8]]) -> Result<QuorumSet, WordFault>
    ensures said { Answers result (only_word set_in Expected.ASet (map (λ word. word.now) words.now)) }
    ensures fits { IfOk result (λ set. Fits set_kind (set_value set)) }
{
    match words {
        [] => Err(refused(1, Expected::ASet)),
        [word, more @ ..] => {
            let set = set_of(alloc, *word)?;
            end(more)?;
            Ok(set)
        }
    }
}

/// The bytes of the quorum set that the one word says.
#[tactic(auto, using(crate::proofs::Said::word_near))]
fn set_bytes(alloc: Global, words: &[&[u8]]) -> Result<Bytes, WordFault>
    ensures say { IfOk result (Say Carried.Set (map (λ word. word.now) words.now)) }
    ensures refused { IfErr result (AreRefused Carried.Set (map (λ word. word.now) words.now)) }
    ensures near { IfErr result IsNear }
{
    let set = set_at(alloc, words)?;
    Ok(Bytes::new(set.encode()?))
}

/// The bytes of what the words say.
fn bytes_said(alloc: Global, carried: Carried, words: &[&[u8]]) -> Result<Bytes, WordFault>
    ensures say { IfOk result (Say carried (map (λ word. word.now) words.now)) }
    ensures refused { IfErr result (AreRefused carried (map (λ word. word.now) words.now)) }
    ensures near { IfErr result IsNear }
{
    match carried {
        Carried::Message => message_bytes(alloc, words),
        Carried::Value => value_bytes(alloc, words),
        Carried::Set => set_bytes(alloc, words),
    }
}

/// The line itself, if the words are one word of hex digits or a dash, and else the refusal.
fn kept_or_refused(
    alloc: Global,
    words: &[&[u8]],
    line: &[u8],
    bad: BadWord,
) -> Result<Bytes, WordFault>
    ensures kept { IfOk result (λ out. AreDigits (map (λ word. word.now) words.now) × (out ≡ line.now)) }
    ensures refused { IfErr result (λ e. e ≢ WordFault.NoMemory → (¬ (AreDigits (map (λ word. word.now) words.now))) × (e ≡ WordFault.Bad bad)) }
{
    match digits_at(alloc, words) {
        Ok(_) => Ok(copy_of(alloc, line)?),
        Err(WordFault::NoMemory) => Err(WordFault::NoMemory),
        Err(WordFault::Bad(_)) => Err(WordFault::Bad(bad)),
    }
}

/// The first words of a line, and bytes in hex digits.
fn line_in_digits(alloc: Global, words: &[&[u8]], bytes: &[u8]) -> Result<Bytes, AllocError>
    ensures { IfOk result (λ line. line ≡ before (map (λ word. word.now) words.now) (digits_of bytes.now)) }
{
    let digits = digits(alloc, bytes)?;
    line_of(alloc, words, digits.as_bytes())
}

/// A line with what it carries in hex digits. A line that has hex digits already stays as it is.
pub fn hex_line(
    alloc: Global,
    carried: Carried,
    words: &[&[u8]],
    line: &[u8],
) -> Result<Bytes, WordFault>
    ensures written { IfOk result (IsHexOf carried (map (λ word. word.now) words.now) line.now) }
    ensures refused { IfErr result (IsNoHex carried (map (λ word. word.now) words.now)) }
{
    let count = words_before(carried);
    let rest = words_behind(words, count);
    match bytes_said(alloc, carried, rest) {
        Ok(bytes) => Ok(line_in_digits(alloc, first_words(words, count), bytes.as_slice())?),
        Err(WordFault::NoMemory) => Err(WordFault::NoMemory),
        Err(WordFault::Bad(bad)) => {
            let word = bad.word + count;
            kept_or_refused(alloc, rest, line, BadWord { word, ..bad })
        }
    }
}
