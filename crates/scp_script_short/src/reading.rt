//! The words of a shorthand.
ghost use Rattle.std.specs.Prelude.{◌≡◌, ◌<◌, IfOk, IsOkUnless, map};
ghost use Rattle.scp_script_short.specs.inside.Reading.{Answers};
ghost use Rattle.scp_script_short.specs.Reading.{at, ended, or_refused as refused_or, number_to as number_up_to, other_to, slot_in, is_all, open_all_in, rounds_in, catch_up_in, shorthand_by, shorthand_in};

use crate::shorthand::Shorthand;
use scp_script_text::below::text::{BadWord, Expected, Term, WordFault};
use scp_script_text::below::types::{Fault, Slot};
use std::alloc::Global;

/// The most rounds or slots that one line may say.
pub const COUNT_LIMIT: u32 = 65_535;

/// A number from 1 to `most`.
pub fn number_to(alloc: Global, most: u32, word: &[u8]) -> Result<Option<u32>, Fault>
    ensures found { IfOk result (λ found. found ≡ number_up_to most word.now) }
    ensures only_memory { IsOkUnless result Fault.NoMemory }
{
    match u32::read(alloc, word)? {
        Some(number) if 1 <= number && number <= most => Ok(Some(number)),
        _ => Ok(None),
    }
}

/// A number from 1 to `most` that isn't `node`.
fn other_to_of(alloc: Global, most: u32, node: u32, word: &[u8]) -> Result<Option<u32>, Fault>
    ensures found { IfOk result (λ found. found ≡ other_to most node word.now) }
    ensures only_memory { IsOkUnless result Fault.NoMemory }
{
    match number_to(alloc, most, word)? {
        Some(number) if number != node => Ok(Some(number)),
        _ => Ok(None),
    }
}

/// What was found, or that the word at the place, from 1 on, is refused.
fn or_refused<T: Drop>(found: Option<T>, word: usize, expected: Expected) -> Result<T, WordFault>
    ensures { Answers result (refused_or found word expected) }
{
    match found {
        Some(term) => Ok(term),
        None => Err(WordFault::Bad(BadWord { word, expected })),
    }
}

/// The slot at a place.
fn slot_at(alloc: Global, words: &[&[u8]], place: usize) -> Result<Slot, WordFault>
    requires { place < 64 }
    ensures { Answers result (at slot_in Expected.ASlot (map (λ word. word.now) words.now) place) }
{
    let found = match words.get(place) {
        Some(word) => Slot::read(alloc, *word)?,
        None => None,
    };
    or_refused(found, place + 1, Expected::ASlot)
}

/// The number at a place, which is from 1 to `most`.
fn number_at(
    alloc: Global,
    words: &[&[u8]],
    place: usize,
    most: u32,
    expected: Expected,
) -> Result<u32, WordFault>
    requires { place < 64 }
    ensures { Answers result (at (number_up_to most) expected (map (λ word. word.now) words.now) place) }
{
    let found = match words.get(place) {
        Some(word) => number_to(alloc, most, *word)?,
        None => None,
    };
    or_refused(found, place + 1, expected)
}

/// The other node at a place.
fn other_at(
    alloc: Global,
    words: &[&[u8]],
    place: usize,
    nodes: u32,
    node: u32,
) -> Result<u32, WordFault>
    requires { place < 64 }
    ensures { Answers result (at (other_to nodes node) (Expected.AnotherNode nodes) (map (λ word. word.now) words.now) place) }
{
    let found = match words.get(place) {
        Some(word) => other_to_of(alloc, nodes, node, *word)?,
        None => None,
    };
    or_refused(found, place + 1, Expected::AnotherNode(nodes))
}

/// Succeeds if there is no word at the place; that word is refused otherwise.
fn end_at(words: &[&[u8]], place: usize) -> Result<bool, WordFault>
    requires { place < 64 }
    ensures { Answers result (ended (map (λ word. word.now) words.now) place) }
{
    match words.get(place) {
        None => Ok(true),
        Some(_) => Err(WordFault::Bad(BadWord {
            word: place + 1,
            expected: Expected::NoMore,
        })),
    }
}

/// Whether the word after the first is `all`.
fn says_all(words: &[&[u8]]) -> bool
    ensures { result ≡ is_all (map (λ word. word.now) words.now) }
{
    match words {
        [_, word, ..] => *word == b"all".as_slice(),
        _ => false,
    }
}

/// What `open all` says.
fn open_all(words: &[&[u8]], nodes: u32) -> Result<Shorthand, WordFault>
    ensures { Answers result (open_all_in nodes (map (λ word. word.now) words.now)) }
{
    end_at(words, 2)?;
    Ok(Shorthand::OpenAll { nodes })
}

/// What `rounds SLOT K` says.
fn rounds(alloc: Global, words: &[&[u8]], nodes: u32) -> Result<Shorthand, WordFault>
    ensures { Answers result (rounds_in nodes (map (λ word. word.now) words.now)) }
{
    let slot = slot_at(alloc, words, 1)?;
    let times = number_at(alloc, words, 2, COUNT_LIMIT, Expected::HowMany)?;
    end_at(words, 3)?;
    Ok(Shorthand::Rounds { nodes, slot, times })
}

/// What `catchup I J N` says.
fn catch_up(alloc: Global, words: &[&[u8]], nodes: u32) -> Result<Shorthand, WordFault>
    ensures { Answers result (catch_up_in nodes (map (λ word. word.now) words.now)) }
{
    let node = number_at(alloc, words, 1, nodes, Expected::ANode(nodes))?;
    let peer = other_at(alloc, words, 2, nodes, node)?;
    let until = number_at(alloc, words, 3, COUNT_LIMIT, Expected::HowMany)?;
    end_at(words, 4)?;
    Ok(Shorthand::CatchUp { node, peer, until })
}

/// The shorthand that words say, if any, by the first of them.
fn shorthand_with(
    alloc: Global,
    verb: &[u8],
    words: &[&[u8]],
    nodes: u32,
) -> Result<Option<Shorthand>, WordFault>
    ensures { Answers result (shorthand_by nodes verb.now (map (λ word. word.now) words.now)) }
{
    if verb == b"rounds".as_slice() {
        return Ok(Some(rounds(alloc, words, nodes)?));
    }
    if verb == b"catchup".as_slice() {
        return Ok(Some(catch_up(alloc, words, nodes)?));
    }
    if verb == b"open".as_slice() && says_all(words) {
        return Ok(Some(open_all(words, nodes)?));
    }
    Ok(None)
}

/// The shorthand that the words of a line say, if any, in a script of this many nodes.
pub fn shorthand_of(
    alloc: Global,
    words: &[&[u8]],
    nodes: u32,
) -> Result<Option<Shorthand>, WordFault>
    ensures { Answers result (shorthand_in nodes (map (λ word. word.now) words.now)) }
{
    match words {
        [] => Ok(None),
        [verb, ..] => shorthand_with(alloc, *verb, words, nodes),
    }
}
