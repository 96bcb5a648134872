//! Which word of a line is bad.
ghost use Rattle.std.specs.Prelude.{◌≡◌, Some, None, IfOk, IfSome, IsOkUnless, map, not};
ghost use Rattle.scp_script.specs.Words.{node_in, set_in, hex_bytes};
ghost use Rattle.scp_script.specs.Reasons.{verb_in, kinds_in, order_fault, if_not, is_most, kind_fault, IsSetFault, IsKindFault, IsKindsFault, word_at as at_place};

use crate::words::{bytes_of, capacity, node, number, set_of};
use scp_device::{BadWord, Expected};
use scp_wire::below::types::{Fault, NODE_LIMIT};
use std::alloc::{AllocError, Global};

/// The first word of a line.
#[derive(Clone, Copy, PartialEq, Eq)]
pub enum Verb {
    Caps,
    Nodes,
    Set,
    Open,
    Close,
    Send,
    Propose,
    Round,
    Timer,
    Tick,
    Ask,
    Settle,
    Wait,
    Report,
}

/// What a word after the first must say.
#[derive(Clone, Copy, PartialEq, Eq)]
pub enum Kind {
    Capacity,
    Count,
    /// A number from 1 to 8, at most the one before it.
    Threshold,
    Node,
    /// A node other than the one before it.
    Another,
    Slot,
    Number,
    Digits,
    Set,
}

/// What the first word of a line says.
pub fn verb_of(word: &str) -> Option<Verb>
    ensures { result ≡ verb_in word.now }
{
    match word {
        "caps" => Some(Verb::Caps),
        "nodes" => Some(Verb::Nodes),
        "set" => Some(Verb::Set),
        "open" => Some(Verb::Open),
        "close" => Some(Verb::Close),
        "send" => Some(Verb::Send),
        "propose" => Some(Verb::Propose),
        "round" => Some(Verb::Round),
        "timer" => Some(Verb::Timer),
        "tick" => Some(Verb::Tick),
        "ask" => Some(Verb::Ask),
        "settle" => Some(Verb::Settle),
        "wait" => Some(Verb::Wait),
        "report" => Some(Verb::Report),
        _ => None,
    }
}

/// What the words after the first must say.
pub fn kinds_of(verb: Verb) -> &'static [Kind]
    ensures { result.now ≡ kinds_in verb }
{
    match verb {
        Verb::Caps => &[
            Kind::Capacity,
            Kind::Capacity,
            Kind::Capacity,
            Kind::Capacity,
        ],
        Verb::Nodes => &[Kind::Count, Kind::Threshold],
        Verb::Set => &[Kind::Node, Kind::Set],
        Verb::Open | Verb::Close => &[Kind::Node, Kind::Another],
        Verb::Send => &[Kind::Node, Kind::Another, Kind::Digits],
        Verb::Propose => &[Kind::Node, Kind::Slot, Kind::Digits],
        Verb::Round | Verb::Timer => &[Kind::Node, Kind::Slot],
        Verb::Tick | Verb::Report => &[Kind::Node],
        Verb::Ask => &[Kind::Node, Kind::Another, Kind::Slot],
        Verb::Settle => &[],
        Verb::Wait => &[Kind::Node, Kind::Number],
    }
}

/// What was expected if a line with this first word comes in the wrong order, by how many nodes there are and whether a line came that
/// acts.
pub fn misplaced(verb: Verb, count: u8, has_begun: bool) -> Option<Expected>
    ensures { result ≡ order_fault verb count has_begun }
{
    match verb {
        Verb::Caps if count > 0 => Some(Expected::CapsFirst),
        Verb::Nodes if count > 0 => Some(Expected::NodesOnce),
        Verb::Caps | Verb::Nodes => None,
        _ if count == 0 => Some(Expected::NodesFirst),
        Verb::Set if has_begun => Some(Expected::SetsFirst),
        _ => None,
    }
}

/// What was expected, where the word isn't good.
fn unless(good: bool, expected: Expected) -> Option<Expected>
    ensures { result ≡ if_not good expected }
{
    if good { None } else { Some(expected) }
}

/// Whether the word names one of `count` nodes.
fn is_node(count: u8, word: &str) -> bool
    ensures { result ≡ is_most count (node_in word.now) }
{
    match node(word) {
        Some(node) => node <= count,
        None => false,
    }
}

/// What was expected if the word is no threshold for as many nodes as the word before it says.
fn threshold(before: &str, word: &str) -> Option<Expected>
    ensures { result ≡ kind_fault Kind.Threshold 0 before.now word.now }
{
    let most = node(before).unwrap_or(NODE_LIMIT as u8);
    unless(is_node(most, word), Expected::AThreshold(u32::from(most)))
}

/// Why the word encodes no sane quorum set, if it doesn't.
fn no_set(alloc: Global, word: &str) -> Result<Option<Expected>, Fault>
    ensures found { IfOk result (IsSetFault (set_in (hex_bytes word.now))) }
    ensures only_memory { IsOkUnless result Fault.NoMemory }
{
    match set_of(alloc, word)? {
        Some(set) => Ok(unless(set.is_sane(), Expected::ASaneSet)),
        None => Ok(Some(Expected::ASet)),
    }
}

/// What was expected if the word isn't of this kind, by the word before it. A word that is missing is given as an empty one.
fn no_such(
    alloc: Global,
    kind: Kind,
    count: u8,
    before: &str,
    word: &str,
) -> Result<Option<Expected>, Fault>
    ensures found { IfOk result (IsKindFault kind count before.now word.now) }
    ensures only_memory { IsOkUnless result Fault.NoMemory }
{
    match kind {
        Kind::Capacity => Ok(unless(capacity(word).is_some(), Expected::ACapacity)),
        Kind::Count => Ok(unless(is_node(NODE_LIMIT as u8, word), Expected::ACount)),
        Kind::Threshold => Ok(threshold(before, word)),
        Kind::Node => Ok(unless(is_node(count, word), Expected::ANode(u32::from(count)))),
        Kind::Another => Ok(unless(
            is_node(count, word) && before != word,
            Expected::AnotherNode(u32::from(count)),
        )),
        Kind::Slot => Ok(unless(number(word).is_some(), Expected::ASlot)),
        Kind::Number => Ok(unless(number(word).is_some(), Expected::ANumber)),
        Kind::Digits => Ok(unless(bytes_of(alloc, word)?.is_some(), Expected::Digits)),
        Kind::Set => no_set(alloc, word),
    }
}

/// The word at a place, from 0 on, or an empty one if there is none.
pub fn word_at<'a>(words: &[&'a str], place: usize) -> &'a str
    ensures { result.now ≡ at_place (map (λ word. word.now) words.entry.now) place }
{
    match words.get(place) {
        Some(word) => *word,
        None => "",
    }
}

/// The first word after the verb that isn't of its kind, or is one too many.
pub fn wrong_word(
    alloc: Global,
    kinds: &[Kind],
    count: u8,
    words: &[&str],
) -> Result<Option<BadWord>, Fault>
    ensures found { IfOk result (IsKindsFault kinds.now count (map (λ word. word.now) words.now) 0) }
    ensures only_memory { IsOkUnless result Fault.NoMemory }
{
    for (index, kind) in kinds.iter().enumerate() {
        let before = word_at(words, index);
        let word = word_at(words, index + 1);
        if let Some(expected) = no_such(alloc, *kind, count, before, word)? {
            let word = index + 2;
            return Ok(Some(BadWord { word, expected }));
        }
    }
    if kinds.len() + 1 < words.len() {
        return Ok(Some(BadWord {
            word: kinds.len() + 2,
            expected: Expected::NoMore,
        }));
    }
    Ok(None)
}
