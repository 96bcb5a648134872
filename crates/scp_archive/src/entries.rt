//! The records of a stream, one after another, over any reader.
ghost use Rattle.std.specs.Prelude.{◌≡◌, ◌≢◌, ◌⊎◌, ◌↔◌, ◌≤◌, ◌<◌, Bool, true, false, length, take, IfOk, IfErr, IsErrOf, IsOkUnless, OnOk, OnErr, Ok};
ghost use Rattle.scp_device.specs.Device.{Loses, HasEnded, IsAll, Fails};
ghost use Rattle.scp_quorum.specs.scp_xdr.specs.Kind.{word};
ghost use Rattle.scp_quorum.specs.scp_xdr.specs.Reading.{reading_whole};
ghost use Rattle.scp_archive.specs.Entry.{entry_kind};
ghost use Rattle.scp_archive.specs.Stream.{Takes, value_read};
ghost use Rattle.scp_archive.specs.inside.Stream.{TakesRest, PassesOver, IsUnread, IsReadAs, TellsWhy, is_last_mark, marked_len};

use crate::entry::{Entry, decode};
use scp_device::ScriptIn;
use scp_quorum::below::types::Fault;
use std::alloc::Global;
use std::marker::Model;

/// The most bytes of a record that is read: 16 MiB (this project's profile).
pub const RECORD_LIMIT: usize = 16_777_216;

/// How many bytes a mark has.
const MARK: usize = 4;

/// The high bit of a mark: the record ends with this fragment.
const HIGH_BIT: u32 = 0x8000_0000;

/// The most bytes of one read.
const READ_LIMIT: usize = 4_096;

/// Why a record isn't read. It is passed over by its length.
#[derive(Clone, Copy, Debug, PartialEq, Eq)]
pub enum Unread {
    /// It isn't one whole fragment: the high bit of its mark is clear.
    Fragment,
    /// It has over 16 MiB, or a length, a count or a depth in it is over its limit.
    TooLong,
    /// Its bytes encode no entry; what is wrong is at this offset from their start.
    Malformed(usize),
}

/// What comes next in a stream.
#[derive(Drop)]
pub enum Next {
    /// An entry.
    Entry(Entry),
    /// A record that isn't read.
    Unread(Unread),
    /// Nothing is left.
    End,
    /// The stream ends within a record.
    Cut,
}

/// Reads at most `room` bytes into the front of the buffer.
fn read_some<R: ScriptIn>(reader: &mut R, buffer: &mut [u8], room: usize) -> Result<usize, Fault>
    requires some { 0 < room }
    requires room { room ≤ length buffer.old }
    ensures count { IfOk result (λ n. n ≤ room) }
    ensures bytes { IfOk result (λ n. Loses (R.left reader.old) (take n buffer.new) (R.left reader.new)) }
    ensures end { result ≡ Ok 0 → HasEnded (R.left reader.old) }
    ensures cause { IfErr result (λ fault. fault ≡ Fault.Device) }
    ensures raised { OnErr result (Fails (R.failures reader.old) (R.failures reader.new)) }
    ensures kept { OnOk result (R.failures reader.new ≡ R.failures reader.old) }
{
    reader.read(&mut buffer[..room])
}

/// Reads that many bytes, or those that are left where these are fewer. Takes the memory first.
fn read_body<R: ScriptIn>(alloc: Global, reader: &mut R, len: usize) -> Result<Vec<u8>, Fault>
    ensures within { IfOk result (λ body. length body.items ≤ len) }
    ensures bytes { IfOk result (λ body. Loses (R.left reader.old) body.items (R.left reader.new)) }
    ensures end { IfOk result (λ body. length body.items < len → IsAll (R.left reader.old) body.items) }
    ensures cause { IfErr result (λ fault. (fault ≡ Fault.Device) ⊎ (fault ≡ Fault.NoMemory)) }
    ensures device { IsErrOf result Fault.Device → Fails (R.failures reader.old) (R.failures reader.new) }
    ensures hidden { IfErr result (λ fault. fault ≢ Fault.Device → R.failures reader.new ≡ R.failures reader.old) }
    ensures kept { OnOk result (R.failures reader.new ≡ R.failures reader.old) }
{
    let mut body = Vec::with_capacity(alloc, len)?;
    let mut buffer = [0u8; READ_LIMIT];
    while body.len() < len {
        let room = READ_LIMIT.min(len - body.len());
        let count = read_some(reader, &mut buffer, room)?;
        if count == 0 {
            return Ok(body);
        }
        body.extend_from_slice(&buffer[..count])?;
    }
    Ok(body)
}

/// Passes over that many bytes, and answers how many of them are missing.
fn pass_body<R: ScriptIn>(reader: &mut R, len: usize) -> Result<usize, Fault>
    ensures passes { IfOk result (λ missing. PassesOver len (R.left reader.old) missing (R.left reader.new)) }
    ensures cause { IfErr result (λ fault. fault ≡ Fault.Device) }
    ensures raised { OnErr result (Fails (R.failures reader.old) (R.failures reader.new)) }
    ensures kept { OnOk result (R.failures reader.new ≡ R.failures reader.old) }
{
    let mut missing = len;
    let mut buffer = [0u8; READ_LIMIT];
    while missing > 0 {
        let room = READ_LIMIT.min(missing);
        let count = read_some(reader, &mut buffer, room)?;
        if count == 0 {
            return Ok(missing);
        }
        missing -= count;
    }
    Ok(0)
}

/// Passes over a fragment for this reason.
fn pass_over<R: ScriptIn>(reader: &mut R, len: usize, why: Unread) -> Result<Next, Fault>
    ensures next { IfOk result (λ next. (is_last : Bool) → IsUnread is_last len why → TakesRest is_last len (R.left reader.old) next (R.left reader.new)) }
    ensures cause { IfErr result (λ fault. fault ≡ Fault.Device) }
    ensures raised { OnErr result (Fails (R.failures reader.old) (R.failures reader.new)) }
    ensures kept { OnOk result (R.failures reader.new ≡ R.failures reader.old) }
{
    let missing = pass_body(reader, len)?;
    if missing > 0 {
        return Ok(Next::Cut);
    }
    Ok(Next::Unread(why))
}

/// Why bytes aren't read, by their fault. The only refusal is `Fault::NoMemory`.
fn told_by(fault: Fault) -> Result<Next, Fault>
    ensures tells { IfOk result (λ next. TellsWhy fault next) }
    ensures only_memory { IsOkUnless result Fault.NoMemory }
{
    match fault {
        Fault::Malformed(place) => Ok(Next::Unread(Unread::Malformed(place))),
        Fault::TooLong => Ok(Next::Unread(Unread::TooLong)),
        _ => Err(Fault::NoMemory),
    }
}

/// The entry that the bytes encode, or why they encode none. The only refusal is `Fault::NoMemory`.
fn read_entry(alloc: Global, body: &[u8]) -> Result<Next, Fault>
    ensures reads { IfOk result (λ next. IsReadAs next (value_read (reading_whole entry_kind body.now))) }
    ensures only_memory { IsOkUnless result Fault.NoMemory }
{
    match decode(alloc, body) {
        Ok(entry) => Ok(Next::Entry(entry)),
        Err(fault) => told_by(fault),
    }
}

/// Takes the fragment of a record that is within the limit.
fn take_body<R: ScriptIn>(alloc: Global, reader: &mut R, len: usize) -> Result<Next, Fault>
    requires { len ≤ RECORD_LIMIT }
    ensures next { IfOk result (λ next. TakesRest true len (R.left reader.old) next (R.left reader.new)) }
    ensures cause { IfErr result (λ fault. (fault ≡ Fault.Device) ⊎ (fault ≡ Fault.NoMemory)) }
    ensures device { IsErrOf result Fault.Device → Fails (R.failures reader.old) (R.failures reader.new) }
    ensures hidden { IfErr result (λ fault. fault ≢ Fault.Device → R.failures reader.new ≡ R.failures reader.old) }
    ensures kept { OnOk result (R.failures reader.new ≡ R.failures reader.old) }
{
    let body = read_body(alloc, reader, len)?;
    if body.len() < len {
        return Ok(Next::Cut);
    }
    read_entry(alloc, &body)
}

/// Takes what follows a mark of this number.
fn take_marked<R: ScriptIn>(alloc: Global, reader: &mut R, number: u32) -> Result<Next, Fault>
    ensures next { IfOk result (λ next. TakesRest (is_last_mark number) (marked_len number) (R.left reader.old) next (R.left reader.new)) }
    ensures cause { IfErr result (λ fault. (fault ≡ Fault.Device) ⊎ (fault ≡ Fault.NoMemory)) }
    ensures device { IsErrOf result Fault.Device → Fails (R.failures reader.old) (R.failures reader.new) }
    ensures hidden { IfErr result (λ fault. fault ≢ Fault.Device → R.failures reader.new ≡ R.failures reader.old) }
    ensures kept { OnOk result (R.failures reader.new ≡ R.failures reader.old) }
{
    if number < HIGH_BIT {
        return pass_over(reader, number as usize, Unread::Fragment);
    }
    let len = (number - HIGH_BIT) as usize;
    if len > RECORD_LIMIT {
        return pass_over(reader, len, Unread::TooLong);
    }
    take_body(alloc, reader, len)
}

/// The number that a mark encodes.
fn number_of(mark: &[u8]) -> u32
    requires { length mark.now ≡ 4 }
    ensures { mark.now ≡ word result }
{
    let mut bytes = [0; MARK];
    bytes.copy_from_slice(mark);
    u32::from_be_bytes(bytes)
}

/// Takes the next record, or finds the end.
fn take_next<R: ScriptIn>(alloc: Global, reader: &mut R) -> Result<Next, Fault>
    ensures takes { IfOk result (λ next. Takes (R.left reader.old) next (R.left reader.new)) }
    ensures cause { IfErr result (λ fault. (fault ≡ Fault.Device) ⊎ (fault ≡ Fault.NoMemory)) }
    ensures device { IsErrOf result Fault.Device → Fails (R.failures reader.old) (R.failures reader.new) }
    ensures hidden { IfErr result (λ fault. fault ≢ Fault.Device → R.failures reader.new ≡ R.failures reader.old) }
    ensures kept { OnOk result (R.failures reader.new ≡ R.failures reader.old) }
{
    let mark = read_body(alloc, reader, MARK)?;
    if mark.is_empty() {
        return Ok(Next::End);
    }
    if mark.len() < MARK {
        return Ok(Next::Cut);
    }
    take_marked(alloc, reader, number_of(&mark))
}

/// The records of a stream. Contracts see whether a refusal came: then nothing more is read.
#[derive(Drop)]
pub struct Entries {
    alloc: Global,
    has_failed: bool,
}

impl Model for Entries {
    ghost use Rattle.std.specs.Prelude.{Bool};

    ghost Value = { Bool };

    ghost view = { λ e. e.has_failed };
}

impl Entries {
    /// Nothing was read yet. Takes no memory.
    pub fn new(alloc: Global) -> Entries
        ensures { result ≡ false }
    {
        Entries {
            alloc,
            has_failed: false,
        }
    }

    /// Takes the next record of the stream, and reads it. A record of over 16 MiB, one of several fragments, and one whose bytes encode no
    /// entry are passed over by their length. Refused by `Fault::Device` if the reader failed, by `Fault::NoMemory`, and from then on by
    /// `Fault::Failed`, since a part of a record may have been read. Takes the memory of the record and of its entry.
    pub fn next<R: ScriptIn>(&mut self, reader: &mut R) -> Result<Next, Fault>
        ensures takes { IfOk result (λ next. Takes (R.left reader.old) next (R.left reader.new)) }
        ensures fresh { OnOk result (self.new ≡ false) }
        ensures ended { OnErr result (self.new ≡ true) }
        ensures failed { IsErrOf result Fault.Failed ↔ (self.old ≡ true) }
        ensures unread { IsErrOf result Fault.Failed → reader.new ≡ reader.old }
        ensures cause { IfErr result (λ fault. (fault ≡ Fault.Failed) ⊎ (fault ≡ Fault.Device) ⊎ (fault ≡ Fault.NoMemory)) }
        ensures device { IsErrOf result Fault.Device → Fails (R.failures reader.old) (R.failures reader.new) }
        // A failed read is always reported as `Fault::Device`.
        ensures hidden { IfErr result (λ fault. fault ≢ Fault.Device → R.failures reader.new ≡ R.failures reader.old) }
        ensures kept { OnOk result (R.failures reader.new ≡ R.failures reader.old) }
    {
        if self.has_failed {
            return Err(Fault::Failed);
        }
        let next = take_next(self.alloc, reader);
        self.has_failed = next.is_err();
        next
    }
}
