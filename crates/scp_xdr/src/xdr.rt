ghost use Rattle.std.specs.Prelude.{◌≡◌, ◌≢◌, ◌↔◌, ◌⊎◌, ◌+◌, ◌<◌, ◌≤◌, ◌^◌, length, map, option_map, All, List, ℕ, ◌++◌, IfOk, IfErr, IsOk, MatchResult, Err, IsErrOf, IsOkUnless, IsTrue, Ok};
ghost use Rattle.std.specs.List.{flat_map, sum_by};
ghost use Rattle.scp_xdr.specs.Kind.{Kind, Values, Fits, Spells, spelling, optional, array, numbered};
ghost use Rattle.scp_xdr.specs.Length.{spelled_len};
ghost use Rattle.scp_xdr.specs.Reading.{Cursor, reading, reading_whole, read_items, read_run};
ghost use Rattle.scp_xdr.specs.Passing.{left_of, passing, passing_whole, pass_items};
ghost use Rattle.scp_xdr.specs.Words.{IsReadingFault, GoesPast, PassesWhole, Decodes, Gives, Extends, Leaves};
ghost use Rattle.scp_xdr.specs.inside.Words.{Parses};

use crate::reader::Reader;
use crate::room::spend_u32;
use crate::writer::Writer;
use scp_types::Fault;
use std::alloc::Global;

/// A type whose values have an encoding (RFC 4506): its kind, and for each value of the type the value
/// of that kind which is encoded.
pub trait Xdr: Drop {
    ghost kind: { Kind };

    ghost value: { Self → Values kind };

    /// Reads a value. Refused by the first fault of the bytes or by `Fault::NoMemory`; a refusal leaves the reader anywhere.
    fn read(alloc: Global, reader: &mut Reader<'_>) -> Result<Self, Fault>
        ensures { Decodes value reader.new result (reading kind reader.old) };

    /// Passes over a value without memory. Refused by the first fault of the bytes; a refusal leaves the reader anywhere.
    fn pass(reader: &mut Reader<'_>) -> Result<(), Fault>
        ensures { GoesPast reader.new result (passing kind reader.old) };

    /// Whether the value keeps the limits of its kind.
    fn fits(&self) -> bool
        ensures { IsTrue result ↔ Fits kind (value self.now) };

    /// How many of `room` bytes are left after the value's encoding, whether the value fits or not. `None` if the
    /// encoding is longer than the room. Takes no memory.
    fn spend(&self, room: usize) -> Option<usize>
        ensures { Leaves room result (spelled_len kind (value self.now)) };

    /// Writes the value. The only refusal is `Fault::NoMemory`; a part of the value may be written then.
    fn write(&self, writer: &mut Writer) -> Result<(), Fault>
        requires { Fits kind (value self.now) }
        ensures { Extends writer.old writer.new result (spelling kind (value self.now)) };
}

#[tactic(auto, unfolding(crate::specs::Reading::reading_whole))]
fn read_whole<T: Xdr>(alloc: Global, bytes: &[u8]) -> Result<T, Fault>
    ensures { Gives T.value result (reading_whole T.kind bytes.now) }
{
    let mut reader = Reader::new(bytes);
    let value = T::read(alloc, &mut reader)?;
    reader.end()?;
    Ok(value)
}

#[tactic(auto, unfolding(crate::specs::Passing::passing_whole))]
fn pass_whole<T: Xdr>(bytes: &[u8]) -> Result<(), Fault>
    ensures { MatchResult result (λ _. IsOk (passing_whole T.kind bytes.now)) (λ f. passing_whole T.kind bytes.now ≡ Err f) }
{
    let mut reader = Reader::new(bytes);
    T::pass(&mut reader)?;
    reader.end()
}

/// Tests that all of the bytes encode one value, or finds their first fault. Takes no memory.
pub fn check<T: Xdr>(bytes: &[u8]) -> Result<(), Fault>
    ensures found { IfOk result (λ _. (v : Values T.kind) × Spells T.kind bytes.now v) }
    ensures exact { PassesWhole result (reading_whole T.kind bytes.now) }
    ensures faults { IfErr result IsReadingFault }
{
    pass_whole::<T>(bytes)
}

/// Whether all of the bytes encode one value. Takes no memory.
pub fn is_spelling<T: Xdr>(bytes: &[u8]) -> bool
    ensures { IsTrue result ↔ ((v : Values T.kind) × Spells T.kind bytes.now v) }
{
    check::<T>(bytes).is_ok()
}

/// The value that all of the bytes encode. Refused by their first fault, `Fault::Malformed` with its place or
/// `Fault::TooLong`, before memory is taken; else by `Fault::NoMemory`. Goes over the bytes twice.
pub fn decode<T: Xdr>(alloc: Global, bytes: &[u8]) -> Result<T, Fault>
    ensures found { IfOk result (λ v. Spells T.kind bytes.now (T.value v)) }
    ensures only { (v : Values T.kind) → Spells T.kind bytes.now v → Gives T.value result (Ok v) }
    ensures exact { Gives T.value result (reading_whole T.kind bytes.now) }
    ensures faults { IfErr result (λ f. f ≢ Fault.NoMemory → IsReadingFault f) }
    ensures memory_last { IsErrOf result Fault.NoMemory → (v : Values T.kind) × Spells T.kind bytes.now v }
{
    check::<T>(bytes)?;
    read_whole(alloc, bytes)
}

/// The encoding of a value that fits, in bytes that are reserved at once.
fn write_whole<T: Xdr>(alloc: Global, capacity: usize, value: &T) -> Result<Vec<u8>, Fault>
    requires { Fits T.kind (T.value value.now) }
    ensures spells { IfOk result (λ bytes. Spells T.kind bytes.items (T.value value.now)) }
    ensures only_memory { IsOkUnless result Fault.NoMemory }
{
    let mut writer = Writer::with_capacity(alloc, capacity)?;
    value.write(&mut writer)?;
    Ok(writer.into_vec())
}

/// The one encoding of the value. `Fault::TooLong` exactly where the value breaks a limit of its kind; the
/// only other refusal is `Fault::NoMemory`.
pub fn encode<T: Xdr>(alloc: Global, value: &T) -> Result<Vec<u8>, Fault>
    ensures spells { IfOk result (λ bytes. Spells T.kind bytes.items (T.value value.now)) }
    ensures too_long { IsErrOf result Fault.TooLong ↔ ¬ (Fits T.kind (T.value value.now)) }
    ensures only { IfErr result (λ f. (f ≡ Fault.NoMemory) ⊎ (f ≡ Fault.TooLong)) }
{
    if !value.fits() {
        return Err(Fault::TooLong);
    }
    let capacity = match value.spend(usize::MAX) {
        Some(left) => usize::MAX - left,
        None => 0,
    };
    write_whole(alloc, capacity, value)
}

/// The one encoding of the value, if it has at most `limit` bytes. `Fault::TooLong` exactly where it has more, or the
/// value breaks a limit of its kind; this is tested before memory is taken. The only other refusal is `Fault::NoMemory`.
pub fn encode_within<T: Xdr>(alloc: Global, limit: usize, value: &T) -> Result<Vec<u8>, Fault>
    ensures spells { IfOk result (λ bytes. Spells T.kind bytes.items (T.value value.now)) }
    ensures within { IfOk result (λ bytes. length bytes.items ≤ limit) }
    ensures too_long { IsErrOf result Fault.TooLong ↔ ((¬ (Fits T.kind (T.value value.now))) ⊎ (limit < length (spelling T.kind (T.value value.now)))) }
    ensures only { IfErr result (λ f. (f ≡ Fault.NoMemory) ⊎ (f ≡ Fault.TooLong)) }
{
    if !value.fits() {
        return Err(Fault::TooLong);
    }
    let Some(left) = value.spend(limit) else {
        return Err(Fault::TooLong);
    };
    write_whole(alloc, limit - left, value)
}

/// `count` values, one after the other.
fn read_times<T: Xdr>(alloc: Global, count: u32, reader: &mut Reader<'_>) -> Result<Vec<T>, Fault>
    ensures { Decodes (λ xs. map T.value xs.items) reader.new result (read_items (λ c. reading T.kind c) count reader.old) }
{
    let mut items = Vec::new(alloc);
    for _ in 0..count {
        let item = T::read(alloc, reader)?;
        items.push(item)?;
    }
    Ok(items)
}

/// At most `max` values, after their count (RFC 4506, section 4.13). A larger count is `Fault::TooLong`.
pub fn read_array<T: Xdr>(alloc: Global, max: u32, reader: &mut Reader<'_>) -> Result<Vec<T>, Fault>
    ensures { Decodes (λ xs. map T.value xs.items) reader.new result (reading (array max T.kind) reader.old) }
{
    let count = reader.count(max)?;
    read_times(alloc, count, reader)
}

/// A first number, then the count of values that are numbered on from it, then these values. A count of 0 is
/// `Fault::Malformed` at the count, one over `max` is `Fault::TooLong`, and a last number over 64 bits is
/// `Fault::Malformed` at the first number. All three are tested before any value is read.
pub fn read_numbered<T: Xdr>(
    alloc: Global,
    max: u32,
    reader: &mut Reader<'_>,
) -> Result<(u64, Vec<T>), Fault>
    ensures { Decodes (λ x. (x.0, map T.value x.1.items)) reader.new result (reading (numbered max T.kind) reader.old) }
{
    let (first, count) = read_run(max, reader)?;
    let items = read_times(alloc, count, reader)?;
    Ok((first, items))
}

/// The first number, and the count of values that are numbered on from it.
#[tactic(auto, unfolding(crate::specs::Reading::read_run))]
fn read_run(max: u32, reader: &mut Reader<'_>) -> Result<(u64, u32), Fault>
    ensures { Parses (λ x. x) reader.new result (read_run max reader.old) }
{
    let first_place = reader.place();
    let first = reader.u64()?;
    let count_place = reader.place();
    let count = reader.u32()?;
    if count == 0 {
        return Err(Fault::Malformed(count_place));
    }
    if count > max {
        return Err(Fault::TooLong);
    }
    if first > u64::MAX - (count - 1) as u64 {
        return Err(Fault::Malformed(first_place));
    }
    Ok((first, count))
}

/// A value after a flag, or none (RFC 4506, section 4.19). A flag other than 0 and 1 is `Fault::Malformed`.
#[tactic(auto, unfolding(crate::specs::Reading::read_optional))]
pub fn read_optional<T: Xdr>(alloc: Global, reader: &mut Reader<'_>) -> Result<Option<T>, Fault>
    ensures { Decodes (λ x. option_map T.value x) reader.new result (reading (optional T.kind) reader.old) }
{
    if reader.flag()? {
        Ok(Some(T::read(alloc, reader)?))
    } else {
        Ok(None)
    }
}

/// Passes over `count` values, one after the other.
fn pass_times<T: Xdr>(count: u32, reader: &mut Reader<'_>) -> Result<(), Fault>
    ensures { GoesPast reader.new result (pass_items (λ c. passing T.kind c) count reader.old) }
{
    for _ in 0..count {
        T::pass(reader)?;
    }
    Ok(())
}

/// Passes over at most `max` values after their count, without memory.
pub fn pass_array<T: Xdr>(max: u32, reader: &mut Reader<'_>) -> Result<(), Fault>
    ensures { GoesPast reader.new result (passing (array max T.kind) reader.old) }
{
    let count = reader.count(max)?;
    pass_times::<T>(count, reader)
}

/// Passes over a first number, a count and the values that are numbered on from it, without memory.
pub fn pass_numbered<T: Xdr>(max: u32, reader: &mut Reader<'_>) -> Result<(), Fault>
    ensures { GoesPast reader.new result (passing (numbered max T.kind) reader.old) }
{
    let (_, count) = read_run(max, reader)?;
    pass_times::<T>(count, reader)
}

/// Passes over a flag and the value after it, if there is one, without memory.
#[tactic(auto, unfolding(crate::specs::Passing::pass_optional))]
pub fn pass_optional<T: Xdr>(reader: &mut Reader<'_>) -> Result<(), Fault>
    ensures { GoesPast reader.new result (passing (optional T.kind) reader.old) }
{
    if !reader.flag()? {
        return Ok(());
    }
    T::pass(reader)
}

fn all_fit<T: Xdr>(items: &[T]) -> bool
    ensures { IsTrue result ↔ All (λ x. Fits T.kind (T.value x)) items.now }
{
    items.iter().all(|item| item.fits())
}

/// Whether the values keep their limits and there are at most `max`.
pub fn array_fits<T: Xdr>(max: u32, items: &[T]) -> bool
    ensures { IsTrue result ↔ Fits (array max T.kind) (map T.value items.now) }
{
    items.len() <= max as usize && all_fit(items)
}

fn write_times<T: Xdr>(writer: &mut Writer, items: &[T]) -> Result<(), Fault>
    requires { All (λ x. Fits T.kind (T.value x)) items.now }
    ensures { Extends writer.old writer.new result (flat_map (λ v. spelling T.kind v) (map T.value items.now)) }
{
    for item in items {
        item.write(writer)?;
    }
    Ok(())
}

/// Writes the count of the values, then the values. A refusal may leave a part of them.
pub fn write_array<T: Xdr>(writer: &mut Writer, max: u32, items: &[T]) -> Result<(), Fault>
    requires { Fits (array max T.kind) (map T.value items.now) }
    ensures { Extends writer.old writer.new result (spelling (array max T.kind) (map T.value items.now)) }
{
    writer.count(max, items.len())?;
    write_times(writer, items)
}

/// Writes a first number, a count and the values that are numbered on from it. A refusal may leave a part of them.
pub fn write_numbered<T: Xdr>(
    writer: &mut Writer,
    max: u32,
    first: u64,
    items: &[T],
) -> Result<(), Fault>
    requires { Fits (numbered max T.kind) (first, map T.value items.now) }
    ensures { Extends writer.old writer.new result (spelling (numbered max T.kind) (first, map T.value items.now)) }
{
    writer.u64(first)?;
    writer.count(max, items.len())?;
    write_times(writer, items)
}

/// Whether there is at least one value and at most `max`, each keeps its limits, and the last number has 64 bits.
pub fn numbered_fits<T: Xdr>(max: u32, first: u64, items: &[T]) -> bool
    ensures { IsTrue result ↔ Fits (numbered max T.kind) (first, map T.value items.now) }
{
    let count = items.len();
    if count == 0 {
        return false;
    }
    if count > max as usize {
        return false;
    }
    first <= u64::MAX - (count as u64 - 1) && all_fit(items)
}

/// Writes a flag and the value, if there is one. A refusal may leave a part of it.
pub fn write_optional<T: Xdr>(writer: &mut Writer, item: &Option<T>) -> Result<(), Fault>
    requires { Fits (optional T.kind) (option_map T.value item.now) }
    ensures { Extends writer.old writer.new result (spelling (optional T.kind) (option_map T.value item.now)) }
{
    match item {
        Some(item) => {
            writer.flag(true)?;
            item.write(writer)?;
        }
        None => writer.flag(false)?,
    }
    Ok(())
}

/// Whether the value keeps its limits, if there is one.
pub fn optional_fits<T: Xdr>(item: &Option<T>) -> bool
    ensures { IsTrue result ↔ Fits (optional T.kind) (option_map T.value item.now) }
{
    match item {
        Some(item) => item.fits(),
        None => true,
    }
}

fn spend_times<T: Xdr>(items: &[T], room: usize) -> Option<usize>
    ensures { Leaves room result (sum_by (λ x. spelled_len T.kind (T.value x)) items.now) }
{
    let mut left = room;
    for item in items {
        left = item.spend(left)?;
    }
    Some(left)
}

/// Takes the length of the values' encoding, with their count, off the room.
pub fn spend_array<T: Xdr>(items: &[T], room: usize) -> Option<usize>
    ensures { Leaves room result (4 + sum_by (λ v. spelled_len T.kind v) (map T.value items.now)) }
{
    let left = spend_u32(room)?;
    spend_times(items, left)
}

/// Takes the length of a flag and of the value's encoding, if there is one, off the room.
pub fn spend_optional<T: Xdr>(item: &Option<T>, room: usize) -> Option<usize>
    ensures { Leaves room result (spelled_len (optional T.kind) (option_map T.value item.now)) }
{
    let left = spend_u32(room)?;
    match item {
        Some(item) => item.spend(left),
        None => Some(left),
    }
}

/// No encoding of a kind begins another, and no bytes encode two values.
pub fn no_spelling_begins_another()
    ensures { (k : Kind) (v w : Values k) (x y : List ℕ) → Fits k v → Fits k w → spelling k v ++ x ≡ spelling k w ++ y → (v ≡ w) × (x ≡ y) }
{}

/// What is written is read back as the value that was written. Bytes encode one value at most, and
/// a value has one encoding at most.
pub fn what_is_written_is_read_back()
    ensures read_back { (k : Kind) (v : Values k) → Fits k v → reading_whole k (spelling k v) ≡ Ok v }
    ensures one_value { (k : Kind) (bytes : List ℕ) (v w : Values k) → Spells k bytes v → Spells k bytes w → v ≡ w }
    ensures one_spelling { (k : Kind) (x y : List ℕ) (v : Values k) → Spells k x v → Spells k y v → x ≡ y }
{}

/// Passing over a value is reading it without keeping it: both end at the same place, or with the
/// same fault. So is passing over all of the bytes.
pub fn passing_is_reading_without_the_value()
    ensures value { (k : Kind) (c : Cursor) → passing k c ≡ left_of (reading k c) }
    ensures whole { (k : Kind) (bytes : List ℕ) → PassesWhole (passing_whole k bytes) (reading_whole k bytes) }
{}

/// The length that is found without the encoding is that of the encoding.
pub fn a_spelling_has_its_length()
    ensures { (k : Kind) (v : Values k) → length (spelling k v) ≡ spelled_len k v }
{}
