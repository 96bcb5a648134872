//! The first lines of a log, read.
ghost use Rattle.std.specs.Prelude.{◌≡◌, ◌≤◌, ◌<◌, ◌⊎◌, ◌++◌, ℕ, List, length, drop, map, Err, IfOk, IfSome, IfNone, IsSomeAnd, MatchResult, None, ◌≢◌};
ghost use Rattle.hex.specs.declared.error.FromHexError.TheVariants.{OutOfMemory};
ghost use Rattle.std.specs.List.{AllByRecursion};
ghost use Rattle.hex.specs.Hex.{IsBytes, encode_lower};
ghost use Rattle.scp_live_head.specs.Head.{FirstView, HeadView, IsFirst, IsHead, NotAtFront, IsUnfit, IsBeginning, epoch_in, slot_in, HasNoFirst, HasNoBase, ended, first_line, base_line, said_line, said_lines, above, head_bytes};
ghost use Rattle.scp_live_head.specs.inside.Parts.{AreWordsOf};
ghost use Rattle.scp_live_head.specs.declared.reading.HeadFault.TheVariants.{NoMemory};

use crate::head::{FirstLine, Head, add_base, add_said, sum_bytes};
use crate::words::{after, cut_at, number_of};
use hex::FromHexError;
use scp_live_log::{begins_with, read_digest};
use std::alloc::{AllocError, Global};

/// Why the first lines of a log can't be read.
#[derive(Clone, Copy, Debug, PartialEq, Eq)]
pub enum HeadFault {
    /// The line with this number, counted from 1, is the first that doesn't fit.
    Line(usize),
    /// Memory ran out.
    NoMemory,
}

impl From<AllocError> for HeadFault {
    ghost from_gives = { λ _ e. e ≡ NoMemory };

    fn from(_: AllocError) -> HeadFault {
        HeadFault::NoMemory
    }
}

/// The words of a first line.
#[derive(Drop)]
struct Words<'a> {
    digest: &'a [u8],
    epoch: &'a [u8],
    first: &'a [u8],
    before: &'a [u8],
}

/// The words of a first line.
fn words_of(line: &[u8]) -> Option<Words<'_>>
    ensures { (f : FirstView) → IsFirst f → line.now ≡ first_line f → IsSomeAnd result (AreWordsOf f) }
{
    let rest = after(line, b"scp_node 2 ")?;
    let digest = cut_at(rest, b' ')?;
    let epoch = cut_at(digest.1, b' ')?;
    let first = cut_at(epoch.1, b' ')?;
    Some(Words {
        digest: digest.0,
        epoch: epoch.0,
        first: first.0,
        before: first.1,
    })
}

/// What a first line says. It may be written otherwise.
fn first_in(line: &[u8]) -> Option<FirstLine>
    ensures fits { IfSome result IsFirst }
    ensures found { (f : FirstView) → IsFirst f → line.now ≡ first_line f → IsSomeAnd result (λ found. found ≡ f) }
{
    let words = words_of(line)?;
    let digest = read_digest(words.digest)?;
    let epoch = number_of(words.epoch)?;
    let first = number_of(words.first)?;
    let before = read_digest(words.before)?;
    Some(FirstLine::new(digest, epoch, first, before))
}

/// What the first of some lines says. It may be written otherwise.
fn first_at(bytes: &[u8]) -> Option<FirstLine>
    ensures fits { IfSome result IsFirst }
    ensures found { (f : FirstView) (tail : List ℕ) → IsFirst f → bytes.now ≡ ended (first_line f) ++ tail → IsSomeAnd result (λ found. found ≡ f) }
{
    let line = cut_at(bytes, b'\n')?;
    first_in(line.0)
}

/// The first line at the front of the bytes, and its length with its end.
fn take_first(alloc: Global, bytes: &[u8]) -> Result<Option<(FirstLine, usize)>, AllocError>
    ensures some { IfOk result (λ found. IfSome found (λ f. IsFirst f.0 × (f.1 ≤ length bytes.now) × (bytes.now ≡ ended (first_line f.0) ++ drop f.1 bytes.now))) }
    ensures none { IfOk result (λ found. IfNone found (HasNoFirst bytes.now)) }
{
    let Some(first) = first_at(bytes) else {
        return Ok(None);
    };
    let written = first.bytes(alloc)?;
    if !begins_with(bytes, &written) {
        return Ok(None);
    }
    Ok(Some((first, written.len())))
}

/// No bytes, unless memory ran out.
fn undecoded(fault: FromHexError) -> Result<Option<Vec<u8>>, AllocError>
    ensures { IfOk result (λ found. (found ≡ None) × (fault ≢ OutOfMemory)) }
{
    match fault {
        FromHexError::OutOfMemory => Err(AllocError),
        _ => Ok(None),
    }
}

/// The bytes that hexadecimal digits say. Other digits may say them too.
pub(crate) fn decode(alloc: Global, digits: &[u8]) -> Result<Option<Vec<u8>>, AllocError>
    ensures are { IfOk result (λ found. IfSome found (λ bytes. IsBytes bytes.items)) }
    ensures found { IfOk result (λ found. (bytes : List ℕ) → IsBytes bytes → digits.now ≡ encode_lower bytes → IsSomeAnd found (λ b. b.items ≡ bytes)) }
{
    match hex::decode(alloc, digits) {
        Ok(bytes) => Ok(Some(bytes)),
        Err(fault) => undecoded(fault),
    }
}

/// The state in a line, which may be written otherwise.
fn base_in(alloc: Global, line: &[u8]) -> Result<Option<Vec<u8>>, AllocError>
    ensures are { IfOk result (λ found. IfSome found (λ bytes. IsBytes bytes.items)) }
    ensures found { IfOk result (λ found. (base : List ℕ) → IsBytes base → line.now ≡ base_line base → IsSomeAnd found (λ b. b.items ≡ base)) }
{
    let Some(digits) = after(line, b"base ") else {
        return Ok(None);
    };
    if digits == b"-".as_slice() {
        return Ok(Some(Vec::new(alloc)));
    }
    decode(alloc, digits)
}

/// The state in the line at the front of the bytes, and the length of the line with its end.
fn take_base(alloc: Global, bytes: &[u8]) -> Result<Option<(Vec<u8>, usize)>, AllocError>
    ensures some { IfOk result (λ found. IfSome found (λ b. IsBytes b.0.items × (b.1 ≤ length bytes.now) × (bytes.now ≡ ended (base_line b.0.items) ++ drop b.1 bytes.now))) }
    ensures none { IfOk result (λ found. IfNone found ((base : List ℕ) → IsBytes base → NotAtFront (ended (base_line base)) bytes.now)) }
{
    let Some(line) = cut_at(bytes, b'\n') else {
        return Ok(None);
    };
    let Some(base) = base_in(alloc, line.0)? else {
        return Ok(None);
    };
    let mut written = Vec::new(alloc);
    add_base(alloc, &mut written, &base)?;
    if !begins_with(bytes, &written) {
        return Ok(None);
    }
    Ok(Some((base, written.len())))
}

/// The statement in a line, which may be written otherwise.
fn said_in(alloc: Global, line: &[u8]) -> Result<Option<Vec<u8>>, AllocError>
    ensures are { IfOk result (λ found. IfSome found (λ bytes. IsBytes bytes.items)) }
    ensures found { IfOk result (λ found. (said : List ℕ) → IsBytes said → line.now ≡ said_line said → IsSomeAnd found (λ b. b.items ≡ said)) }
{
    match after(line, b"said ") {
        Some(digits) => decode(alloc, digits),
        None => Ok(None),
    }
}

/// The statement in the line at the front of the bytes, and the length of the line with its end.
fn take_said(alloc: Global, bytes: &[u8]) -> Result<Option<(Vec<u8>, usize)>, AllocError>
    ensures some { IfOk result (λ found. IfSome found (λ s. IsBytes s.0.items × (s.1 ≤ length bytes.now) × (0 < s.1) × (bytes.now ≡ ended (said_line s.0.items) ++ drop s.1 bytes.now))) }
    ensures none { IfOk result (λ found. IfNone found ((said : List ℕ) → IsBytes said → NotAtFront (ended (said_line said)) bytes.now)) }
{
    let Some(line) = cut_at(bytes, b'\n') else {
        return Ok(None);
    };
    let Some(said) = said_in(alloc, line.0)? else {
        return Ok(None);
    };
    let mut written = Vec::new(alloc);
    add_said(alloc, &mut written, &said)?;
    if !begins_with(bytes, &written) {
        return Ok(None);
    }
    Ok(Some((said, written.len())))
}

/// What comes after this many bytes.
pub(crate) fn behind(bytes: &[u8], size: usize) -> &[u8]
    requires { size ≤ length bytes.now }
    ensures { result.now ≡ drop size bytes.now }
{
    bytes.split_at(size).1
}

/// All statements at the front of the bytes, and the length of their lines.
fn take_statements(alloc: Global, bytes: &[u8]) -> Result<(Vec<Vec<u8>>, usize), AllocError>
    ensures are { IfOk result (λ s. AllByRecursion IsBytes (map (λ b. b.items) s.0.items)) }
    ensures size { IfOk result (λ s. s.1 ≤ length bytes.now) }
    ensures split { IfOk result (λ s. bytes.now ≡ said_lines (map (λ b. b.items) s.0.items) ++ drop s.1 bytes.now) }
    ensures no_more { IfOk result (λ s. (said : List ℕ) → IsBytes said → NotAtFront (ended (said_line said)) (drop s.1 bytes.now)) }
{
    let mut statements = Vec::new(alloc);
    let mut rest = bytes;
    while let Some((said, size)) = take_said(alloc, rest)? {
        statements.push(said)?;
        rest = behind(rest, size);
    }
    Ok((statements, bytes.len() - rest.len()))
}

/// The lines of a head but for the last one, and their length.
fn take_above(alloc: Global, bytes: &[u8]) -> Result<(Head, usize), HeadFault>
    ensures fits { IfOk result (λ head. IsHead head.0) }
    ensures size { IfOk result (λ head. head.1 ≤ length bytes.now) }
    ensures split { IfOk result (λ head. bytes.now ≡ above head.0 ++ drop head.1 bytes.now) }
    ensures no_more { IfOk result (λ head. (said : List ℕ) → IsBytes said → NotAtFront (ended (said_line said)) (drop head.1 bytes.now)) }
    ensures refused { (n : ℕ) → result ≡ Err (HeadFault.Line n) → ((n ≡ 1) × HasNoFirst bytes.now) ⊎ ((n ≡ 2) × HasNoBase bytes.now) }
{
    let Some((line, first_size)) = take_first(alloc, bytes)? else {
        return Err(HeadFault::Line(1));
    };
    let rest = behind(bytes, first_size);
    let Some((base, base_size)) = take_base(alloc, rest)? else {
        return Err(HeadFault::Line(2));
    };
    let rest = behind(rest, base_size);
    let (said, said_size) = take_statements(alloc, rest)?;
    Ok((
        Head::new(line, base, said),
        first_size + base_size + said_size,
    ))
}

/// The first lines at the front of the bytes, and their length.
pub fn read_head(alloc: Global, bytes: &[u8]) -> Result<(Head, usize), HeadFault>
    ensures fits { IfOk result (λ head. IsHead head.0) }
    ensures split { IfOk result (λ head. bytes.now ≡ head_bytes head.0 ++ drop head.1 bytes.now) }
    // What was written is read.
    ensures found { (h : HeadView) (tail : List ℕ) → IsHead h → bytes.now ≡ head_bytes h ++ tail → MatchResult result (λ head. (head.0 ≡ h) × (drop head.1 bytes.now ≡ tail)) (λ fault. fault ≡ HeadFault.NoMemory) }
    ensures refused { (n : ℕ) → result ≡ Err (HeadFault.Line n) → IsUnfit n bytes.now }
{
    let (head, size) = take_above(alloc, bytes)?;
    let (lines, rest) = bytes.split_at(size);
    let sum = sum_bytes(alloc, lines)?;
    if !begins_with(rest, &sum) {
        return Err(HeadFault::Line(3 + head.said().len()));
    }
    Ok((head, size + sum.len()))
}

/// What the first lines of a log say, or none for the log of a node without epochs.
pub fn read_beginning(alloc: Global, bytes: &[u8]) -> Result<Option<Head>, HeadFault>
    ensures read { IfOk result (λ head. IsBeginning head bytes.now) }
    ensures refused { (n : ℕ) → result ≡ Err (HeadFault.Line n) → IsUnfit n bytes.now }
{
    if !begins_with(bytes, b"scp_node 2 ") {
        return Ok(None);
    }
    let head = read_head(alloc, bytes)?;
    Ok(Some(head.0))
}

/// The number of the epoch whose log begins so. A log without epochs is that of the first one.
pub fn epoch_in(head: &Option<Head>) -> u64
    ensures { result ≡ epoch_in head.now }
{
    match head {
        Some(head) => head.line().epoch(),
        None => 1,
    }
}

/// The first slot of the epoch whose log begins so.
pub fn slot_in(head: &Option<Head>) -> u64
    ensures { result ≡ slot_in head.now }
{
    match head {
        Some(head) => head.line().first(),
        None => 1,
    }
}
