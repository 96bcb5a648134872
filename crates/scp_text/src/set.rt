//! Nodes, hashes, slots, counters and quorum sets as text.
ghost use Rattle.std.specs.Prelude.{◌≡◌, nat_eq, ◌≤◌, length, take, drop, ◌++◌, ◌∷◌, [], List, IfOk, IfSome, OnOk, IsOkUnless, IsTrue, ◌↔◌, map, option_map, string_bytes, true};
ghost use Rattle.std.specs.Fmt.{decimal};
ghost use Rattle.std.specs.List.{list_all};
ghost use Rattle.hex.specs.Hex.{encode_lower};
ghost use Rattle.scp_kv.specs.scp_xdr.specs.Tree.{in_a_row};
ghost use Rattle.scp_text.specs.Pieces.{listed, all_of, items_in};
ghost use Rattle.scp_wire.specs.scp_quorum.specs.Sane.{levels as levels_of};
ghost use Rattle.scp_text.specs.Sets.{within, number_of, node_text, hash_text, set_text, row_texts, id_in, numbered, node_in, counter_in, has_bracket, nodes_first, sets_after, cut, level_in, set_with, inner_in as inner_in_at, set_in, hash_in};
ghost use Rattle.scp_kv.specs.scp_xdr.specs.Kind.{Fits};
ghost use Rattle.scp_wire.specs.scp_quorum.specs.QuorumKind.{set_kind, set_value, set_hash};
ghost use Rattle.scp_text.specs.Messages.{slot_in};

use crate::pieces::{inside, items, number, write_digits};
use crate::term::{Term, read_all, write_all};
use scp_kv::below::types::{Fault, Hash, NodeId, Slot};
use scp_wire::below::quorum::QuorumSet;
use std::alloc::{AllocError, Global};

/// How many validators, and how many inner sets, a quorum set may have (this project's profile).
const MAX_ENTRIES: usize = 1_000;

/// How many levels of inner sets there may be (this project's profile).
const MAX_LEVELS: u32 = 4;

/// Adds a number.
fn write_number(out: &mut String, number: u64) -> Result<(), AllocError>
    ensures { OnOk result (string_bytes out.new ≡ string_bytes out.old ++ decimal number) }
{
    write!(out, "{number}")
}

impl Term for Slot {
    ghost writes = { λ slot. decimal slot.0 };

    ghost reads = { slot_in };

    fn read(alloc: Global, text: &[u8]) -> Result<Option<Slot>, Fault> {
        match number(alloc, text)? {
            Some(number) => Ok(Some(Slot(number))),
            None => Ok(None),
        }
    }

    fn write(&self, out: &mut String) -> Result<(), Fault> {
        write_number(out, self.0)?;
        Ok(())
    }
}

impl Term for u32 {
    ghost writes = { decimal };

    ghost reads = { counter_in };

    fn read(alloc: Global, text: &[u8]) -> Result<Option<u32>, Fault> {
        match number(alloc, text)? {
            Some(number) if number < 4_294_967_296 => Ok(Some(number as u32)),
            _ => Ok(None),
        }
    }

    fn write(&self, out: &mut String) -> Result<(), Fault> {
        write_number(out, u64::from(*self))?;
        Ok(())
    }
}

/// The bytes of 64 digits.
#[tactic(auto, unfolding(crate::specs::Sets::id_in))]
fn id_of(text: &[u8]) -> Option<[u8; 32]>
    ensures { result ≡ id_in text.now }
{
    let mut bytes = [0; 32];
    match hex::decode_to_slice(text, &mut bytes) {
        Ok(()) => Some(bytes),
        Err(_) => None,
    }
}

/// Whether each byte is this one.
fn are_all(bytes: &[u8], byte: u8) -> bool
    ensures { result ≡ list_all (λ b. nat_eq b byte) bytes.now }
{
    bytes.iter().all(|other| *other == byte)
}

/// The number of an id of 32 bytes of that number.
fn number_of_id(id: &[u8]) -> Option<u8>
    ensures { result ≡ number_of id.now }
{
    let (first, rest) = id.split_first()?;
    if *first > 0 && are_all(rest, *first) {
        Some(*first)
    } else {
        None
    }
}

/// The node whose id is 32 bytes of the number.
fn numbered_node(number: u64) -> Option<NodeId>
    ensures { result ≡ numbered number }
{
    if number > 0 && number < 256 {
        Some(NodeId([number as u8; 32]))
    } else {
        None
    }
}

impl Term for NodeId {
    ghost writes = { node_text };

    ghost reads = { node_in };

    #[tactic(auto, unfolding(crate::specs::Sets::node_in))]
    fn read(alloc: Global, text: &[u8]) -> Result<Option<NodeId>, Fault> {
        if let Some(bytes) = id_of(text) {
            return Ok(Some(NodeId(bytes)));
        }
        match number(alloc, text)? {
            Some(number) => Ok(numbered_node(number)),
            None => Ok(None),
        }
    }

    #[tactic(auto, unfolding(crate::specs::Sets::node_text))]
    fn write(&self, out: &mut String) -> Result<(), Fault> {
        match number_of_id(self.0.as_slice()) {
            Some(number) => write_number(out, u64::from(number))?,
            None => write_digits(out, self.0.as_slice())?,
        }
        Ok(())
    }
}

/// Whether a bracket stands in the text.
fn has_bracket(text: &[u8]) -> bool
    ensures { result ≡ has_bracket text.now }
{
    text.iter().any(|byte| *byte == b'(')
}

/// How many of the entries stand before the first with a bracket.
fn count_nodes(entries: &[&[u8]]) -> usize
    ensures within { result ≤ length entries.now }
    ensures nodes { map (λ entry. entry.now) (take result entries.now) ≡ nodes_first (map (λ entry. entry.now) entries.now) }
    ensures sets { map (λ entry. entry.now) (drop result entries.now) ≡ sets_after (map (λ entry. entry.now) entries.now) }
{
    for (index, entry) in entries.iter().enumerate() {
        if has_bracket(*entry) {
            return index;
        }
    }
    entries.len()
}

/// What stands before and behind the first small o.
#[tactic(auto, unfolding(crate::specs::Sets::cut))]
fn cut(text: &[u8]) -> Option<(&[u8], &[u8])>
    ensures { option_map (λ parts. (parts.0.now, parts.1.now)) result ≡ cut text.now }
{
    for (index, byte) in text.iter().enumerate() {
        if *byte == b'o' {
            return Some((&text[..index], &text[index + 1..]));
        }
    }
    None
}

/// A threshold and entries.
#[tactic(auto, unfolding(crate::specs::Sets::level_in))]
fn level<'a>(alloc: Global, text: &'a [u8]) -> Result<Option<(u32, Vec<&'a [u8]>)>, Fault>
    ensures found { IfOk result (λ found. option_map (λ level. (level.0, map (λ entry. entry.now) level.1.items)) found ≡ level_in text.entry.now) }
    ensures only_memory { IsOkUnless result Fault.NoMemory }
{
    let Some((front, back)) = cut(text) else {
        return Ok(None);
    };
    let Some(threshold) = u32::read(alloc, front)? else {
        return Ok(None);
    };
    let Some(inner) = inside(b"f(", back) else {
        return Ok(None);
    };
    Ok(Some((threshold, items(alloc, inner)?)))
}

/// The set of these parts, where there are at most 1,000 of each kind.
fn within(
    threshold: u32,
    validators: Vec<NodeId>,
    inner: Vec<QuorumSet>,
) -> Result<Option<QuorumSet>, Fault>
    requires { levels_of (in_a_row inner.items) ≤ 5 }
    ensures found { IfOk result (λ found. found ≡ within threshold validators.items inner.items) }
    ensures only_memory { IsOkUnless result Fault.NoMemory }
{
    if validators.len() > MAX_ENTRIES || inner.len() > MAX_ENTRIES {
        return Ok(None);
    }
    Ok(Some(QuorumSet::new(threshold, validators, inner)?))
}

/// A quorum set with at most so many levels of inner sets.
#[cycle(reading)]
#[tactic(auto, unfolding(crate::specs::Sets::set_with), using(crate::proofs::Depth::inner_few))]
fn read_set(alloc: Global, levels: u32, text: &[u8]) -> Result<Option<QuorumSet>, Fault>
    requires { levels ≤ 4 }
    ensures found { IfOk result (λ found. found ≡ set_with (inner_in_at levels) text.now) }
    ensures only_memory { IsOkUnless result Fault.NoMemory }
{
    let Some((threshold, entries)) = level(alloc, text)? else {
        return Ok(None);
    };
    let count = count_nodes(entries.as_slice());
    let Some(validators) = read_all(alloc, &entries[..count])? else {
        return Ok(None);
    };
    let Some(inner) = read_inner(alloc, levels, &entries[count..])? else {
        return Ok(None);
    };
    within(threshold, validators, inner)
}

/// Inner sets, where so many levels of them may be.
#[cycle(reading)]
#[tactic(auto, unfolding(crate::specs::Sets::inner_in), using(crate::proofs::Rows::inner_some))]
fn read_inner(alloc: Global, levels: u32, texts: &[&[u8]]) -> Result<Option<Vec<QuorumSet>>, Fault>
    requires { levels ≤ 4 }
    ensures found { IfOk result (λ found. option_map (λ sets. sets.items) found ≡ inner_in_at levels (map (λ text. text.now) texts.now)) }
    ensures only_memory { IsOkUnless result Fault.NoMemory }
{
    if levels > 0 {
        return read_row(alloc, levels - 1, texts);
    }
    match texts {
        [] => Ok(Some(Vec::new(alloc))),
        [_, ..] => Ok(None),
    }
}

/// Sets with at most so many levels of inner sets each.
#[cycle(reading)]
fn read_row(alloc: Global, levels: u32, texts: &[&[u8]]) -> Result<Option<Vec<QuorumSet>>, Fault>
    requires { levels ≤ 4 }
    ensures found { IfOk result (λ found. option_map (λ sets. sets.items) found ≡ all_of (set_with (inner_in_at levels)) (map (λ text. text.now) texts.now)) }
    ensures only_memory { IsOkUnless result Fault.NoMemory }
{
    let mut sets = Vec::new(alloc);
    for text in texts {
        match read_set(alloc, levels, *text)? {
            Some(set) => sets.push(set)?,
            None => return Ok(None),
        }
    }
    Ok(Some(sets))
}

/// Adds a set. Takes a stack as deep as the set.
fn write_set(out: &mut String, set: &QuorumSet) -> Result<(), Fault>
    ensures added { OnOk result (string_bytes out.new ≡ string_bytes out.old ++ set_text set.now) }
    ensures only_memory { IsOkUnless result Fault.NoMemory }
{
    write_number(out, u64::from(set.threshold()))?;
    out.push_str("of(")?;
    write_all(out, set.validators())?;
    let mut first = set.validators().is_empty();
    for inner in set.inner_sets() {
        if !first {
            out.push_str(",")?;
        }
        write_set(out, inner)?;
        first = false;
    }
    out.push_str(")")?;
    Ok(())
}

impl Term for QuorumSet {
    ghost writes = { set_text };

    ghost reads = { set_with (inner_in_at 4) };

    fn read(alloc: Global, text: &[u8]) -> Result<Option<QuorumSet>, Fault> {
        read_set(alloc, MAX_LEVELS, text)
    }

    fn write(&self, out: &mut String) -> Result<(), Fault> {
        write_set(out, self)
    }
}

/// A quorum set that was read, which is within its limits.
pub fn read_fitting(alloc: Global, text: &[u8]) -> Result<Option<QuorumSet>, Fault>
    ensures found { IfOk result (λ found. found ≡ set_in text.now) }
    ensures fits { IfOk result (λ found. IfSome found (λ set. Fits set_kind (set_value set))) }
    ensures only_memory { IsOkUnless result Fault.NoMemory }
{
    read_set(alloc, MAX_LEVELS, text)
}

/// The hash of a set within its limits.
fn hash_of_set(set: &QuorumSet) -> Result<Hash, Fault>
    requires { Fits set_kind (set_value set.now) }
    ensures hash { IfOk result (λ hash. hash.0 ≡ set_hash set.now) }
    ensures only_memory { IsOkUnless result Fault.NoMemory }
{
    set.hash()
}

impl Term for Hash {
    ghost writes = { hash_text };

    ghost reads = { hash_in };

    #[tactic(auto, unfolding(crate::specs::Sets::hash_in))]
    fn read(alloc: Global, text: &[u8]) -> Result<Option<Hash>, Fault> {
        if let Some(bytes) = id_of(text) {
            return Ok(Some(Hash(bytes)));
        }
        let Some(inner) = inside(b"hash(", text) else {
            return Ok(None);
        };
        match read_fitting(alloc, inner)? {
            Some(set) => Ok(Some(hash_of_set(&set)?)),
            None => Ok(None),
        }
    }

    fn write(&self, out: &mut String) -> Result<(), Fault> {
        write_digits(out, self.0.as_slice())?;
        Ok(())
    }
}
