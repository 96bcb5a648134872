//! The file of what ended epochs applied.
ghost use Rattle.std.specs.Prelude.{◌≡◌, ◌≢◌, ◌≤◌, ◌<◌, ◌+◌, ◌^◌, ◌++◌, ◌∷◌, [], ℕ, List, length, take, drop, map, All, IfOk, IfSome, IfNone, IsSomeAnd, OnOk};
ghost use Rattle.std.specs.List.{AllByRecursion};
ghost use Rattle.std.specs.Fmt.{decimal};
ghost use Rattle.hex.specs.Hex.{IsBytes, encode_lower};
ghost use Rattle.scp_live_log.specs.Disk.{StartsWith, Only, LeavesOnly, HasCause};
ghost use Rattle.scp_live_head.specs.Head.{NotAtFront};
ghost use Rattle.scp_live_head.specs.Applied.{slot_line, lines_from, IsKeptBelow};
ghost use Rattle.scp_live_head.specs.inside.Lines.{IsFrom};

use crate::reading::{behind, decode};
use crate::words::{add_digits, add_number, cut_at, number_of};
use scp_live_log::below::types::Fault;
use scp_live_log::{EventLog, add, begins_with, cut_to};
use std::alloc::{AllocError, Global};

/// The file of what ended epochs applied: a line for each slot, one slot after another.
#[derive(Drop)]
pub struct Applied<L> {
    file: L,
}

impl<L: EventLog> Applied<L> {
    /// What is in this file, before `recover` is called.
    pub fn new(file: L) -> Applied<L>
        ensures { result.file ≡ file }
    {
        Applied { file }
    }

    /// The file.
    pub fn file(&self) -> &L
        ensures { result.now ≡ self.now.file }
    {
        &self.file
    }

    /// Cuts a file that a crash may have left behind its last whole line of a slot below `first`, which is the first slot of the present
    /// epoch: what is behind is in the epoch's log. To be called before anything is added. Refused by `Fault::NoMemory`, or by
    /// `Fault::Device` if the disk failed.
    pub fn recover(&mut self, alloc: Global, first: u64) -> Result<(), Fault>
        ensures kept { OnOk result ((file : List ℕ) → L.holds self.old.file file → (kept : List ℕ) × IsKeptBelow first file kept × L.holds self.new.file kept × Only kept (L.may_leave self.new.file)) }
        ensures cause { HasCause (L.faults self.old.file) (L.faults self.new.file) result }
    {
        let bytes = self.file.read(alloc)?;
        let size = kept_size(alloc, &bytes, first)?;
        cut_to(&mut self.file, size)?;
        Ok(())
    }

    /// Adds the lines of these values, the first of which is that of this slot, and syncs them to the disk. Refused by `Fault::NoMemory`, or
    /// by `Fault::Device` if the disk failed. After a refusal, call `recover` before anything more is added.
    pub fn add(&mut self, alloc: Global, slot: u64, values: &[Vec<u8>]) -> Result<(), Fault>
        requires slots { slot + length values.now < 2 ^ 64 }
        ensures added { OnOk result ((file : List ℕ) → L.holds self.old.file file → (L.holds self.new.file (file ++ lines_from slot (map (λ v. v.items) values.now))) × Only (file ++ lines_from slot (map (λ v. v.items) values.now)) (L.may_leave self.new.file)) }
        // If every crash before the call left a file with this front, so does a crash at any moment of the call.
        ensures any_moment { (front : List ℕ) → ((c : List ℕ) → L.may_leave self.old.file c → StartsWith front c) → LeavesOnly L.moment L.left_since self.old.file self.new.file (StartsWith front) }
        ensures cause { HasCause (L.faults self.old.file) (L.faults self.new.file) result }
    {
        let lines = lines_of(alloc, slot, values)?;
        add(&mut self.file, &lines)?;
        Ok(())
    }
}

/// Adds the line of a slot.
fn add_line(alloc: Global, lines: &mut Vec<u8>, slot: u64, value: &[u8]) -> Result<(), AllocError>
    ensures { OnOk result (lines.new.items ≡ lines.old.items ++ slot_line slot value.now) }
{
    add_number(alloc, lines, slot)?;
    lines.push(b' ')?;
    add_digits(alloc, lines, value)?;
    lines.push(b'\n')?;
    Ok(())
}

/// The lines of these values, the first of which is that of this slot.
fn lines_of(alloc: Global, slot: u64, values: &[Vec<u8>]) -> Result<Vec<u8>, AllocError>
    requires slots { slot + length values.now < 2 ^ 64 }
    ensures { IfOk result (λ lines. lines.items ≡ lines_from slot (map (λ v. v.items) values.now)) }
{
    let mut lines = Vec::new(alloc);
    let mut number = slot;
    for value in values {
        add_line(alloc, &mut lines, number, value)?;
        number += 1;
    }
    Ok(lines)
}

/// The slot of the line at the front of the bytes. Its number may be written otherwise.
fn slot_at(bytes: &[u8]) -> Option<u64>
    ensures { (slot : ℕ) (value rest : List ℕ) → slot < 2 ^ 64 → bytes.now ≡ slot_line slot value ++ rest → IsSomeAnd result (λ found. found ≡ slot) }
{
    let word = cut_at(bytes, b' ')?;
    number_of(word.0)
}

/// The value in the line of a slot, which may be written otherwise.
fn value_in(alloc: Global, line: &[u8]) -> Result<Option<Vec<u8>>, AllocError>
    ensures are { IfOk result (λ found. IfSome found (λ bytes. IsBytes bytes.items)) }
    ensures found { IfOk result (λ found. (slot : ℕ) (value : List ℕ) → slot < 2 ^ 64 → IsBytes value → line.now ≡ decimal slot ++ 32 ∷ encode_lower value → IsSomeAnd found (λ b. b.items ≡ value)) }
{
    match cut_at(line, b' ') {
        Some(word) => decode(alloc, word.1),
        None => Ok(None),
    }
}

/// The length of the line of this slot at the front of the bytes.
fn line_size(alloc: Global, bytes: &[u8], slot: u64) -> Result<Option<usize>, AllocError>
    ensures some { IfOk result (λ found. IfSome found (λ size. (size ≤ length bytes.now) × (0 < size) × ((value : List ℕ) × IsBytes value × (bytes.now ≡ slot_line slot value ++ drop size bytes.now)))) }
    ensures none { IfOk result (λ found. IfNone found ((value : List ℕ) → IsBytes value → NotAtFront (slot_line slot value) bytes.now)) }
{
    let Some(line) = cut_at(bytes, b'\n') else {
        return Ok(None);
    };
    let Some(value) = value_in(alloc, line.0)? else {
        return Ok(None);
    };
    let mut written = Vec::new(alloc);
    add_line(alloc, &mut written, slot, &value)?;
    if !begins_with(bytes, &written) {
        return Ok(None);
    }
    Ok(Some(written.len()))
}

/// The same, if the slot is below `first`.
fn size_below(
    alloc: Global,
    bytes: &[u8],
    slot: u64,
    first: u64,
) -> Result<Option<usize>, AllocError>
    ensures some { IfOk result (λ found. IfSome found (λ size. (slot < first) × (size ≤ length bytes.now) × (0 < size) × ((value : List ℕ) × IsBytes value × (bytes.now ≡ slot_line slot value ++ drop size bytes.now)))) }
    ensures none { IfOk result (λ found. IfNone found (slot < first → (value : List ℕ) → IsBytes value → NotAtFront (slot_line slot value) bytes.now)) }
{
    if slot >= first {
        return Ok(None);
    }
    match line_size(alloc, bytes, slot)? {
        Some(size) => Ok(Some(size)),
        None => Ok(None),
    }
}

/// How many bytes the lines of slots below `first` have, from this slot on, at the front of a file.
fn size_from(alloc: Global, bytes: &[u8], slot: u64, first: u64) -> Result<usize, AllocError>
    requires slot { slot ≤ first }
    ensures size { IfOk result (λ size. size ≤ length bytes.now) }
    ensures kept { IfOk result (λ size. IsFrom slot first bytes.now size) }
{
    let mut next = slot;
    let mut rest = bytes;
    while let Some(size) = size_below(alloc, rest, next, first)? {
        rest = behind(rest, size);
        next += 1;
    }
    Ok(bytes.len() - rest.len())
}

/// How many bytes of a file are kept: the lines of slots below `first` at its front.
fn kept_size(alloc: Global, bytes: &[u8], first: u64) -> Result<usize, AllocError>
    ensures size { IfOk result (λ size. size ≤ length bytes.now) }
    ensures kept { IfOk result (λ size. IsKeptBelow first bytes.now (take size bytes.now)) }
{
    let Some(slot) = slot_at(bytes) else {
        return Ok(0);
    };
    if slot > first {
        return Ok(0);
    }
    size_from(alloc, bytes, slot, first)
}
