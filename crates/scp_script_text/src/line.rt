//! The words of a line, and what single words of hex digits say.
ghost use Rattle.std.specs.Prelude.{◌≡◌, Ok, IfOk, IsOkUnless, length, map, take, drop, string_bytes};
ghost use Rattle.scp_text.specs.Messages.{Answers, or_refused};
ghost use Rattle.scp_script_text.specs.Lines.{before, ends, digits_of, bytes_in, digits_at as digits_of_word};
ghost use Rattle.scp_script_text.specs.SlotLines.{but_last as all_but_last, last_of as last_word};

use hex::FromHexError;
use scp_text::below::types::Fault;
use scp_text::below::wire::Bytes;
use scp_text::{BadWord, Expected, WordFault};
use std::alloc::{AllocError, Global};

/// The first `count` words of a line, or all if there are fewer.
#[tactic(auto, using(crate::proofs::Words::take_words, crate::proofs::Words::take_all))]
pub fn first_words<'a, 'b>(words: &'b [&'a [u8]], count: usize) -> &'b [&'a [u8]]
    ensures { map (λ word. word.now) result.now ≡ take count (map (λ word. word.now) words.entry.now) }
{
    if count < words.len() {
        &words[..count]
    } else {
        words
    }
}

/// The words after the first `count`, or none if there are no more.
#[tactic(auto, using(crate::proofs::Words::range_words, crate::proofs::Words::drop_all))]
pub fn words_behind<'a, 'b>(words: &'b [&'a [u8]], count: usize) -> &'b [&'a [u8]]
    ensures { map (λ word. word.now) result.now ≡ drop count (map (λ word. word.now) words.entry.now) }
{
    if count < words.len() {
        &words[count..]
    } else {
        &[]
    }
}

/// All words but the last.
#[tactic(auto, using(crate::proofs::Ends::front_words, crate::proofs::Ends::front_none))]
pub fn but_last<'a, 'b>(words: &'b [&'a [u8]]) -> &'b [&'a [u8]]
    ensures { map (λ word. word.now) result.now ≡ all_but_last (map (λ word. word.now) words.entry.now) }
{
    if words.len() > 0 {
        &words[..words.len() - 1]
    } else {
        words
    }
}

/// The last word, or an empty one if there is none.
#[tactic(auto, using(crate::proofs::Ends::last_word, crate::proofs::Ends::last_none))]
pub fn last_of<'a>(words: &[&'a [u8]]) -> &'a [u8]
    ensures { result.now ≡ last_word (map (λ word. word.now) words.now) }
{
    if words.len() > 0 {
        words[words.len() - 1]
    } else {
        &[]
    }
}

/// The words after the first.
pub fn behind_first<'a, 'b>(words: &'b [&'a [u8]]) -> &'b [&'a [u8]]
    ensures { map (λ word. word.now) result.now ≡ drop 1 (map (λ word. word.now) words.entry.now) }
{
    match words {
        [] => &[],
        [_, more @ ..] => more,
    }
}

/// The words, each followed by a space, and then the last part.
pub fn line_of(alloc: Global, words: &[&[u8]], last: &[u8]) -> Result<Bytes, AllocError>
    ensures { IfOk result (λ line. line ≡ before (map (λ word. word.now) words.now) last.now) }
{
    let mut line = Vec::new(alloc);
    for word in words {
        line.extend_from_slice(*word)?;
        line.push(b' ')?;
    }
    line.extend_from_slice(last)?;
    Ok(Bytes::new(line))
}

/// A copy of the bytes.
pub fn copy_of(alloc: Global, line: &[u8]) -> Result<Bytes, AllocError>
    ensures { IfOk result (λ copied. copied ≡ line.now) }
{
    Ok(Bytes::new(Vec::from_slice(alloc, line)?))
}

/// A refusal at a word.
pub fn refused(word: usize, expected: Expected) -> WordFault
    ensures { result ≡ WordFault.Bad (record { word = word; expected = expected }) }
{
    WordFault::Bad(BadWord { word, expected })
}

/// Succeeds if no word follows; the next word is refused otherwise.
pub fn end(words: &[&[u8]]) -> Result<bool, WordFault>
    ensures { Answers result (ends (map (λ word. word.now) words.now)) }
{
    match words {
        [] => Ok(true),
        [_, ..] => Err(refused(2, Expected::NoMore)),
    }
}

/// The bytes that a word of hex digits encodes, or no bytes for a dash. `None` if the word is neither. The only error is `NoMemory`.
pub fn bytes_of(alloc: Global, word: &[u8]) -> Result<Option<Bytes>, Fault>
    ensures bytes { IfOk result (λ found. found ≡ bytes_in word.now) }
    ensures only_memory { IsOkUnless result Fault.NoMemory }
{
    if word == b"-".as_slice() {
        return Ok(Some(Bytes::new(Vec::new(alloc))));
    }
    if word.is_empty() {
        return Ok(None);
    }
    match hex::decode(alloc, word) {
        Ok(bytes) => Ok(Some(Bytes::new(bytes))),
        Err(FromHexError::OutOfMemory) => Err(Fault::NoMemory),
        Err(_) => Ok(None),
    }
}

/// The bytes of a word of hex digits or a dash; any other word is refused as word 1.
fn bytes_or_refused(alloc: Global, word: &[u8]) -> Result<Bytes, WordFault>
    ensures { Answers result (or_refused (bytes_in word.now) 1 Expected.Digits) }
{
    match bytes_of(alloc, word)? {
        Some(bytes) => Ok(bytes),
        None => Err(refused(1, Expected::Digits)),
    }
}

/// The bytes of the only word, which must be hex digits or a dash.
pub fn digits_at(alloc: Global, words: &[&[u8]]) -> Result<Bytes, WordFault>
    ensures { Answers result (digits_of_word (map (λ word. word.now) words.now)) }
{
    match words {
        [] => Err(refused(1, Expected::Digits)),
        [word, more @ ..] => {
            let bytes = bytes_or_refused(alloc, *word)?;
            end(more)?;
            Ok(bytes)
        }
    }
}

/// The lower-case hex digits of bytes, or a dash for no bytes.
pub fn digits(alloc: Global, bytes: &[u8]) -> Result<String, AllocError>
    ensures { IfOk result (λ text. string_bytes text ≡ digits_of bytes.now) }
{
    match bytes {
        [] => "-".to_string(alloc),
        [_, ..] => hex::encode(alloc, bytes),
    }
}

/// The word of the lower-case hex digits of bytes, or a dash for no bytes.
pub fn digits_word(alloc: Global, bytes: &[u8]) -> Result<Bytes, AllocError>
    ensures { IfOk result (λ word. word ≡ digits_of bytes.now) }
{
    let digits = digits(alloc, bytes)?;
    copy_of(alloc, digits.as_bytes())
}
