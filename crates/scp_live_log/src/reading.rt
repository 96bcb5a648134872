//! The entries of a file.
ghost use Rattle.std.specs.Prelude.{◌≡◌, ◌≤◌, ◌<◌, ◌++◌, ◌∷◌, List, ℕ, length, take, drop, Bool, IfOk, IfSome, IfNone, IsSomeAnd};
ghost use Rattle.std.specs.Bool.{OnFalse, OnTrue};
ghost use Rattle.hex.specs.Hex.{encode_lower};
ghost use Rattle.scp_live_log.specs.Disk.{StartsWith};
ghost use Rattle.scp_live_log.specs.Log.{EntryView, IsLine, IsDigest, IsEntry, HasNoEntry, HasBatch, chained, spelled_entry};
ghost use Rattle.scp_live_log.specs.inside.Front.{IsFront, EndsAt};

use crate::entry::{Entry, add_entry};
use scp_device::below::types::Hash;
use std::alloc::{AllocError, Global};

/// Where the digits of the digest of what was sent begin, counted from the line end: after it and `= `.
const SENT_START: usize = 3;

/// Where these digits end: a digest has 64 digits.
const SENT_END: usize = 67;

/// The parts of the two lines at the front of the bytes, if there are two. The entry's own digest isn't checked.
#[derive(Drop)]
struct Parts<'a> {
    begins: bool,
    line: &'a [u8],
    sent: Hash,
}

/// The first entry, its digest, and its length in bytes.
#[derive(Drop)]
struct Found {
    begins: bool,
    entry: Entry,
    digest: Hash,
    size: usize,
}

/// Where the first line ends, if it ends.
fn line_end(bytes: &[u8]) -> Option<usize>
    ensures found { IfSome result (λ n. EndsAt n bytes.now) }
    ensures none { IfNone result (IsLine bytes.now) }
{
    bytes.iter().position(|byte| *byte == b'\n')
}

/// Whether the bytes begin with `front`.
pub fn begins_with(bytes: &[u8], front: &[u8]) -> bool
    ensures some { OnTrue result ((length front.now ≤ length bytes.now) × (bytes.now ≡ front.now ++ drop (length front.now) bytes.now)) }
    ensures none { OnFalse result (¬ (StartsWith front.now bytes.now)) }
{
    bytes.len() >= front.len() && &bytes[..front.len()] == front
}

/// Whether the bytes are a prefix of `whole` and shorter than it.
pub(crate) fn is_beginning(bytes: &[u8], whole: &[u8]) -> bool
    ensures some { OnTrue result ((length bytes.now < length whole.now) × (StartsWith bytes.now whole.now)) }
    ensures none { OnFalse result (length bytes.now < length whole.now → ¬ (StartsWith bytes.now whole.now)) }
{
    bytes.len() < whole.len() && begins_with(whole, bytes)
}

/// The digest that 64 hexadecimal digits encode.
pub fn read_digest(digits: &[u8]) -> Option<Hash>
    ensures size { IfSome result (λ hash. IsDigest hash.0) }
    ensures found { (hash : List ℕ) → IsDigest hash → digits.now ≡ encode_lower hash → IsSomeAnd result (λ found. found.0 ≡ hash) }
{
    let mut bytes = [0u8; 32];
    match hex::decode_to_slice(digits, &mut bytes) {
        Ok(()) => Some(Hash(bytes)),
        Err(_) => None,
    }
}

/// The digits of the digest of what was sent, which come after a line end and `= `.
fn sent_digits(behind: &[u8]) -> Option<&[u8]>
    ensures some { IfSome result (λ digits. digits.now ≡ take 64 (drop 3 behind.now)) }
    ensures none { IfNone result (length behind.now < 67) }
{
    if behind.len() < SENT_END {
        return None;
    }
    Some(&behind[SENT_START..SENT_END])
}

/// The parts of the entry that begins with this mark.
fn parts_behind(mark: u8, rest: &[u8]) -> Option<Parts<'_>>
    ensures entry { IfSome result (λ p. IsEntry (record { line = p.line.now; sent = p.sent.0 })) }
    ensures found { (before : List ℕ) (begins : Bool) (e : EntryView) (tail : List ℕ) → IsEntry e → mark ∷ rest.now ≡ spelled_entry before begins e ++ tail → IsSomeAnd result (λ p. (p.begins ≡ begins) × (p.line.now ≡ e.line) × (p.sent.0 ≡ e.sent)) }
{
    let end = line_end(rest)?;
    let (line, behind) = rest.split_at(end);
    let digits = sent_digits(behind)?;
    let sent = read_digest(digits)?;
    Some(Parts {
        begins: mark == b'+',
        line,
        sent,
    })
}

/// The parts of the entry at the front of the bytes.
fn parts_of(bytes: &[u8]) -> Option<Parts<'_>>
    ensures entry { IfSome result (λ p. IsEntry (record { line = p.line.now; sent = p.sent.0 })) }
    ensures found { (before : List ℕ) (begins : Bool) (e : EntryView) (tail : List ℕ) → IsEntry e → bytes.now ≡ spelled_entry before begins e ++ tail → IsSomeAnd result (λ p. (p.begins ≡ begins) × (p.line.now ≡ e.line) × (p.sent.0 ≡ e.sent)) }
{
    match bytes {
        [mark, rest @ ..] => parts_behind(*mark, rest),
        [] => None,
    }
}

/// The entry at the front of the bytes, if its digest fits the one before it.
fn first_entry(alloc: Global, before: &Hash, bytes: &[u8]) -> Result<Option<Found>, AllocError>
    ensures entry { IfOk result (λ found. IfSome found (λ f. IsEntry f.entry)) }
    ensures size { IfOk result (λ found. IfSome found (λ f. (f.size ≤ length bytes.now) × (0 < f.size))) }
    ensures bytes { IfOk result (λ found. IfSome found (λ f. bytes.now ≡ spelled_entry before.now.0 f.begins f.entry ++ drop f.size bytes.now)) }
    ensures digest { IfOk result (λ found. IfSome found (λ f. f.digest.0 ≡ chained before.now.0 f.entry)) }
    ensures none { IfOk result (λ found. IfNone found (HasNoEntry before.now.0 bytes.now)) }
{
    let Some(parts) = parts_of(bytes) else {
        return Ok(None);
    };
    let entry = Entry::new(Vec::from_slice(alloc, parts.line)?, parts.sent);
    let mut spelled = Vec::new(alloc);
    let digest = add_entry(alloc, &mut spelled, before, parts.begins, &entry)?;
    if !begins_with(bytes, &spelled) {
        return Ok(None);
    }
    Ok(Some(Found {
        begins: parts.begins,
        entry,
        digest,
        size: spelled.len(),
    }))
}

/// What comes after this many bytes.
pub(crate) fn behind(bytes: &[u8], size: usize) -> &[u8]
    requires { size ≤ length bytes.now }
    ensures { result.now ≡ drop size bytes.now }
{
    bytes.split_at(size).1
}

/// The entries at the front of a file, the digest of the last one, and how many bytes they take.
#[derive(Drop)]
pub(crate) struct Front {
    pub entries: Vec<Entry>,
    pub last: Hash,
    pub size: usize,
}

/// The entries at the front of the bytes. Each one's digest fits the digest before it.
pub(crate) fn read_entries(alloc: Global, before: Hash, bytes: &[u8]) -> Result<Front, AllocError>
    ensures size { IfOk result (λ front. front.size ≤ length bytes.now) }
    ensures front { IfOk result (λ front. IsFront before.0 bytes.now front.entries.items front.last.0 front.size) }
{
    let mut entries = Vec::new(alloc);
    let mut last = before;
    let mut rest = bytes;
    while let Some(found) = first_entry(alloc, &last, rest)? {
        entries.push(found.entry)?;
        last = found.digest;
        rest = behind(rest, found.size);
    }
    Ok(Front {
        entries,
        last,
        size: bytes.len() - rest.len(),
    })
}

/// Whether the bytes begin with a line end and the mark of a batch.
fn begins_batch(bytes: &[u8]) -> bool
    ensures some { OnTrue result ((rest : List ℕ) × (bytes.now ≡ 10 ∷ 43 ∷ rest)) }
    ensures none { OnFalse result ((rest : List ℕ) → bytes.now ≡ 10 ∷ 43 ∷ rest → ⊥) }
{
    match bytes {
        [b'\n', b'+', ..] => true,
        _ => false,
    }
}

/// Whether a batch begins in these bytes.
pub(crate) fn has_batch(bytes: &[u8]) -> bool
    ensures some { OnTrue result (HasBatch bytes.now) }
    ensures none { OnFalse result (HasBatch bytes.now → ⊥) }
{
    let mut rest = bytes;
    while let [_, after @ ..] = rest {
        if begins_batch(rest) {
            return true;
        }
        rest = after;
    }
    false
}
