//! A log in use: how entries are kept, and what is read after a crash.
ghost use Rattle.std.specs.Prelude.{◌≡◌, ◌≢◌, ◌⊎◌, ◌++◌, [], List, ℕ, drop, length, IfOk, IfErr, OnOk, OnErr, IsErrOf, Err, All, string_bytes};
ghost use Rattle.scp_device.specs.scp_types.specs.declared.fault.Fault.{Fault};
ghost use Rattle.scp_device.specs.scp_types.specs.declared.fault.Fault.TheVariants.{NoMemory};
ghost use Rattle.scp_live_log.specs.declared.kept.LogFault.TheVariants.{Failed};
ghost use Rattle.scp_device.specs.Device.{Gains, GainsPart, Fails};
ghost use Rattle.scp_live_log.specs.Disk.{StartsWith, Only, LeavesOnly, IsEither};
ghost use Rattle.scp_live_log.specs.Log.{Marked, IsLine, IsEntry, AreEntries, HasNoEntry, HasBatch, batch_of, entries_of, log_of, last_digest};
ghost use Rattle.sha2.specs.Sha256.{sha256};
ghost use Rattle.scp_live_log.specs.declared.wanted.Unfit.{Unfit};
ghost use Rattle.scp_live_log.specs.declared.wanted.Wanted.{Wanted};
ghost use Rattle.scp_live_log.specs.inside.Front.{IsLogFront, IsFrontFault, IsWantedFault};
ghost use Rattle.scp_live_log.specs.Kept.{IsSettled, IsRecovered, IsAllAndMore, IsAnother, IsUnbegun, IsTornBy, IsOfFile, IsUntouched, HasEntries, IsDamaged};
ghost use Rattle.scp_live_log.specs.Wanted.{Fits};

use crate::disk::EventLog;
use crate::entry::{Entry, batch_bytes};
use crate::reading::{Front, begins_with, behind, has_batch, is_beginning, read_entries};
use crate::steps::{add, cut_to};
use crate::wanted::{Unfit, Wanted, fits, is_new};
use scp_device::below::types::{Fault, Hash};
use scp_device::{ReportOut, write_text};
use sha2::{Digest, Sha256};
use std::alloc::{AllocError, Global};

/// Why a log can't be used.
#[derive(Clone, Copy, Debug, PartialEq, Eq)]
pub enum LogFault {
    /// The file neither begins with the first line nor is a prefix of it.
    Another,
    /// The file is a part of the first line, or empty, and no new log was wanted.
    Unbegun,
    /// The log has this many entries, and another count was wanted.
    Count(usize, Wanted),
    /// The entry at this index doesn't fit, for this reason. It isn't a torn end.
    Damaged(usize, Unfit),
    /// The disk failed, since somebody else moved the file, or made it longer or shorter.
    Moved,
    /// A call of the disk failed, or memory ran out.
    Failed(Fault),
}

impl From<Fault> for LogFault {
    ghost from_gives = { λ f e. e ≡ Failed f };

    fn from(fault: Fault) -> LogFault {
        LogFault::Failed(fault)
    }
}

impl From<AllocError> for LogFault {
    ghost from_gives = { λ _ e. e ≡ Failed NoMemory };

    fn from(_: AllocError) -> LogFault {
        LogFault::Failed(Fault::NoMemory)
    }
}

/// The text to write for events that are already on the disk. Only `Kept::keep` makes one.
#[derive(Drop)]
pub struct Durable {
    text: String,
}

impl Durable {
    /// The text.
    pub fn text(&self) -> &str
        ensures { result.now ≡ string_bytes self.now.text }
    {
        self.text.as_str()
    }

    /// Writes the whole text. The only refusal is `Fault::Device`, if the writer failed. Then a prefix of the text was written.
    pub fn write<W: ReportOut>(&self, writer: &mut W) -> Result<(), Fault>
        ensures whole { OnOk result (Gains (W.written writer.old) (string_bytes self.now.text) (W.written writer.new)) }
        ensures part { OnErr result (GainsPart (W.written writer.old) (string_bytes self.now.text) (W.written writer.new)) }
        ensures cause { IfErr result (λ fault. fault ≡ Fault.Device) }
        ensures raised { OnErr result (Fails (W.failures writer.old) (W.failures writer.new)) }
        ensures kept { OnOk result (W.failures writer.new ≡ W.failures writer.old) }
    {
        write_text(writer, self.text.as_str())
    }
}

/// What a file held.
#[derive(Drop)]
pub struct Recovered {
    /// The whole entries.
    pub entries: Vec<Entry>,
    /// How many bytes were cut off: those of a torn end, or of a torn first line.
    pub torn: usize,
}

/// A log, and the digest of its last entry.
#[derive(Drop)]
pub struct Kept<L> {
    log: L,
    last: Hash,
}

impl<L: EventLog> Kept<L> {
    /// The log on this disk, before `recover` is called.
    pub fn new(log: L) -> Kept<L>
        ensures log { result.log ≡ log }
    {
        Kept {
            log,
            last: Hash([0; 32]),
        }
    }

    /// The disk.
    pub fn log(&self) -> &L
        ensures { result.now ≡ self.now.log }
    {
        &self.log
    }

    /// The digest of the last entry, or of the first line where there is none. It says nothing before `recover` has succeeded.
    pub fn last(&self) -> Hash
        ensures { result ≡ self.now.last }
    {
        self.last
    }

    /// Keeps the entries as one batch, with one append and one sync; with no entries it doesn't call the disk. Returns the text, which
    /// may be written from now on. Refused by `Fault::NoMemory`, or by `Fault::Device` if the disk failed. After a refusal, call
    /// `recover` before you keep anything more.
    pub fn keep(&mut self, alloc: Global, entries: &[Entry], text: String) -> Result<Durable, Fault>
        requires entries { All IsEntry entries.now }
        ensures kept { OnOk result ((header : List ℕ) (ms : List Marked) → IsSettled L.holds L.may_leave header ms self.old → IsSettled L.holds L.may_leave header (ms ++ batch_of entries.now) self.new) }
        ensures text { IfOk result (λ durable. string_bytes durable.text ≡ string_bytes text) }
        // A crash at any moment of the call leaves everything that was kept before.
        ensures any_moment { (header : List ℕ) (ms : List Marked) → IsSettled L.holds L.may_leave header ms self.old → LeavesOnly L.moment L.left_since self.old.log self.new.log (StartsWith (log_of header ms)) }
        ensures failed { IsErrOf result Fault.Device → Fails (L.faults self.old.log) (L.faults self.new.log) }
        ensures quiet { OnOk result (L.faults self.new.log ≡ L.faults self.old.log) }
        // A failure of the disk is always reported as `Fault::Device`.
        ensures hidden { IfErr result (λ fault. fault ≢ Fault.Device → L.faults self.new.log ≡ L.faults self.old.log) }
        ensures only { IfErr result (λ fault. (fault ≡ Fault.Device) ⊎ (fault ≡ Fault.NoMemory)) }
    {
        if !entries.is_empty() {
            self.keep_batch(alloc, entries)?;
        }
        Ok(Durable { text })
    }

    /// Keeps the entries as one batch.
    fn keep_batch(&mut self, alloc: Global, entries: &[Entry]) -> Result<(), Fault>
        requires entries { All IsEntry entries.now }
        ensures kept { OnOk result ((header : List ℕ) (ms : List Marked) → IsSettled L.holds L.may_leave header ms self.old → IsSettled L.holds L.may_leave header (ms ++ batch_of entries.now) self.new) }
        ensures any_moment { (header : List ℕ) (ms : List Marked) → IsSettled L.holds L.may_leave header ms self.old → LeavesOnly L.moment L.left_since self.old.log self.new.log (StartsWith (log_of header ms)) }
        ensures failed { IsErrOf result Fault.Device → Fails (L.faults self.old.log) (L.faults self.new.log) }
        ensures quiet { OnOk result (L.faults self.new.log ≡ L.faults self.old.log) }
        ensures hidden { IfErr result (λ fault. fault ≢ Fault.Device → L.faults self.new.log ≡ L.faults self.old.log) }
        ensures only { IfErr result (λ fault. (fault ≡ Fault.Device) ⊎ (fault ≡ Fault.NoMemory)) }
    {
        let (bytes, last) = batch_bytes(alloc, self.last, entries)?;
        add(&mut self.log, &bytes)?;
        self.last = last;
        Ok(())
    }

    /// Begins another log in the place of this one: its first lines and a batch of entries. Nothing of the other log may be written before
    /// the call has succeeded. Refused by `Fault::NoMemory`, which leaves the log as it was or the other one, or by `Fault::Device` if the
    /// disk failed. After a refusal, call `recover` before you keep anything more.
    pub fn switch(&mut self, alloc: Global, header: &[u8], entries: &[Entry]) -> Result<(), Fault>
        requires entries { All IsEntry entries.now }
        ensures switched { OnOk result ((c : List ℕ) → L.holds self.old.log c → IsSettled L.holds L.may_leave header.now (batch_of entries.now) self.new) }
        // A crash at any moment of the call leaves the log as it was or the other one, whole.
        ensures any_moment { (old : List ℕ) (ms : List Marked) → IsSettled L.holds L.may_leave old ms self.old → LeavesOnly L.moment L.left_since self.old.log self.new.log (IsEither (log_of old ms) (log_of header.now (batch_of entries.now))) }
        ensures failed { IsErrOf result Fault.Device → Fails (L.faults self.old.log) (L.faults self.new.log) }
        ensures quiet { OnOk result (L.faults self.new.log ≡ L.faults self.old.log) }
        // A failure of the disk is always reported as `Fault::Device`.
        ensures hidden { IfErr result (λ fault. fault ≢ Fault.Device → L.faults self.new.log ≡ L.faults self.old.log) }
        ensures only { IfErr result (λ fault. (fault ≡ Fault.Device) ⊎ (fault ≡ Fault.NoMemory)) }
    {
        let (bytes, digest) = log_bytes(alloc, header, entries)?;
        self.log.replace(&bytes)?;
        self.last = digest;
        Ok(())
    }

    /// Makes the file contain only the first line.
    fn begin(&mut self, header: &[u8]) -> Result<(), Fault>
        ensures begun { OnOk result ((c : List ℕ) → L.holds self.old.log c → IsSettled L.holds L.may_leave header.now [] self.new) }
        ensures failed { IsErrOf result Fault.Device → Fails (L.faults self.old.log) (L.faults self.new.log) }
        ensures quiet { OnOk result (L.faults self.new.log ≡ L.faults self.old.log) }
        ensures hidden { IfErr result (λ fault. fault ≢ Fault.Device → L.faults self.new.log ≡ L.faults self.old.log) }
        ensures only { IfErr result (λ fault. (fault ≡ Fault.Device) ⊎ (fault ≡ Fault.NoMemory)) }
    {
        cut_to(&mut self.log, 0)?;
        add(&mut self.log, header)?;
        self.last = Hash(Sha256::digest(header));
        Ok(())
    }

    /// Reads the entries of a file that a crash may have left, and cuts off a torn end. If a new log is wanted, a file that is a proper
    /// prefix of the first line, such as an empty file, is begun. Any other file that isn't wanted is refused and left unchanged.
    pub fn recover(
        &mut self,
        alloc: Global,
        header: &[u8],
        wanted: Wanted,
    ) -> Result<Recovered, LogFault>
        requires line { ¬ (IsLine header.now) }
        // Everything that was kept is there. If nothing followed it in the file, there is nothing more.
        ensures all { IfOk result (λ found. (ms : List Marked) (rest : List ℕ) → AreEntries ms → L.holds self.old.log (log_of header.now ms ++ rest) → IsAllAndMore (entries_of ms) rest found.entries.items) }
        // What is cut off contains no further batch.
        ensures torn { OnOk result ((ms : List Marked) (tail : List ℕ) → AreEntries ms → L.holds self.old.log (log_of header.now ms ++ tail) → HasNoEntry (last_digest (sha256 header.now) ms) tail → ¬ (HasBatch tail)) }
        ensures settled { IfOk result (λ found. (c : List ℕ) → L.holds self.old.log c → IsRecovered L.holds L.may_leave header.now found.entries.items self.new) }
        // How many bytes were cut off.
        ensures cut { IfOk result (λ found. (c : List ℕ) → L.holds self.old.log c → IsTornBy header.now found.entries.items found.torn c) }
        // The log is the one that is wanted, and a first line that was torn was written again only where a new one is.
        ensures wanted { IfOk result (λ found. Fits wanted (length found.entries.items)) }
        ensures begun { OnOk result ((c : List ℕ) → L.holds self.old.log c → StartsWith header.now c ⊎ ((wanted ≡ Wanted.New) × StartsWith c header.now)) }
        // A crash at any moment of the call leaves everything that was kept before.
        ensures any_moment { (ms : List Marked) (rest : List ℕ) → AreEntries ms → L.holds self.old.log (log_of header.now ms ++ rest) → Only (log_of header.now ms ++ rest) (L.may_leave self.old.log) → LeavesOnly L.moment L.left_since self.old.log self.new.log (StartsWith (log_of header.now ms)) }
        ensures another { result ≡ Err LogFault.Another → (c : List ℕ) → L.holds self.old.log c → IsAnother header.now c }
        ensures unbegun { result ≡ Err LogFault.Unbegun → (wanted ≢ Wanted.New) × ((c : List ℕ) → L.holds self.old.log c → IsUnbegun header.now c) }
        ensures count { (n : ℕ) (w : Wanted) → result ≡ Err (LogFault.Count n w) → (w ≡ wanted) × ¬ (Fits wanted n) × ((c : List ℕ) → L.holds self.old.log c → HasEntries header.now n c) }
        // A file that is no log with this first line stays unchanged, whatever the answer, even after a crash at any moment of the call.
        ensures untouched { (c : List ℕ) → L.holds self.old.log c → IsAnother header.now c → IsUntouched L.holds L.may_leave L.moment L.left_since c self.old.log self.new.log }
        // So does any file that is refused for what it holds.
        ensures left { IfErr result (λ why. IsOfFile why → (c : List ℕ) → L.holds self.old.log c → IsUntouched L.holds L.may_leave L.moment L.left_since c self.old.log self.new.log) }
        ensures damaged { (n : ℕ) (why : Unfit) → result ≡ Err (LogFault.Damaged n why) → (why ≡ Unfit.Chain) × ((c : List ℕ) → L.holds self.old.log c → IsDamaged header.now n c) }
        ensures moved { result ≡ Err LogFault.Moved → ⊥ }
        ensures failed { result ≡ Err (LogFault.Failed Fault.Device) → Fails (L.faults self.old.log) (L.faults self.new.log) }
        ensures quiet { OnOk result (L.faults self.new.log ≡ L.faults self.old.log) }
        // A failure of the disk is always reported as `Fault::Device`.
        ensures hidden { result ≡ Err (LogFault.Failed Fault.NoMemory) → L.faults self.new.log ≡ L.faults self.old.log }
        ensures only { (fault : Fault) → result ≡ Err (LogFault.Failed fault) → (fault ≡ Fault.Device) ⊎ (fault ≡ Fault.NoMemory) }
    {
        let bytes = self.log.read(alloc)?;
        // (the first line, torn)
        if is_beginning(&bytes, header) {
            if !is_new(wanted) {
                return Err(LogFault::Unbegun);
            }
            self.begin(header)?;
            return Ok(Recovered {
                entries: Vec::new(alloc),
                torn: bytes.len(),
            });
        }
        let front = match wanted_front(alloc, header, &bytes, wanted) {
            Ok(front) => front,
            Err(fault) => return Err(fault),
        };
        cut_to(&mut self.log, front.size)?;
        self.last = front.last;
        Ok(Recovered {
            torn: bytes.len().saturating_sub(front.size),
            entries: front.entries,
        })
    }
}

/// What the front of a file with this first line says. A further batch after it is damage and not a torn end.
fn front_of(alloc: Global, header: &[u8], bytes: &[u8]) -> Result<Front, LogFault>
    ensures front { IfOk result (λ front. IsLogFront header.now bytes.now front.entries.items front.last.0 front.size) }
    ensures torn { IfOk result (λ front. ¬ (HasBatch (drop front.size bytes.now))) }
    ensures another { result ≡ Err LogFault.Another → ¬ (StartsWith header.now bytes.now) }
    ensures damaged { (n : ℕ) (why : Unfit) → result ≡ Err (LogFault.Damaged n why) → (why ≡ Unfit.Chain) × IsDamaged header.now n bytes.now }
    ensures others { IfErr result IsFrontFault }
{
    if !begins_with(bytes, header) {
        return Err(LogFault::Another);
    }
    let first = Hash(Sha256::digest(header));
    let rest = behind(bytes, header.len());
    let front = read_entries(alloc, first, rest)?;
    let tail = behind(rest, front.size);
    if has_batch(tail) {
        return Err(LogFault::Damaged(front.entries.len(), Unfit::Chain));
    }
    Ok(Front {
        entries: front.entries,
        last: front.last,
        size: header.len() + front.size,
    })
}

/// The same of the log that is wanted. Refused by `Count` if it is another one.
fn wanted_front(
    alloc: Global,
    header: &[u8],
    bytes: &[u8],
    wanted: Wanted,
) -> Result<Front, LogFault>
    ensures front { IfOk result (λ front. IsLogFront header.now bytes.now front.entries.items front.last.0 front.size) }
    ensures torn { IfOk result (λ front. ¬ (HasBatch (drop front.size bytes.now))) }
    ensures wanted { IfOk result (λ front. Fits wanted (length front.entries.items)) }
    ensures another { result ≡ Err LogFault.Another → ¬ (StartsWith header.now bytes.now) }
    ensures count { (n : ℕ) (w : Wanted) → result ≡ Err (LogFault.Count n w) → (w ≡ wanted) × ¬ (Fits wanted n) × HasEntries header.now n bytes.now }
    ensures damaged { (n : ℕ) (why : Unfit) → result ≡ Err (LogFault.Damaged n why) → (why ≡ Unfit.Chain) × IsDamaged header.now n bytes.now }
    ensures others { IfErr result IsWantedFault }
{
    let front = match front_of(alloc, header, bytes) {
        Ok(front) => front,
        Err(fault) => return Err(fault),
    };
    let count = front.entries.len();
    if !fits(wanted, count) {
        return Err(LogFault::Count(count, wanted));
    }
    Ok(front)
}

/// The bytes of a log of these first lines and one batch, and the digest of its last entry.
fn log_bytes(alloc: Global, header: &[u8], entries: &[Entry]) -> Result<(Vec<u8>, Hash), AllocError>
    ensures bytes { IfOk result (λ log. log.0.items ≡ log_of header.now (batch_of entries.now)) }
    ensures digest { IfOk result (λ log. log.1.0 ≡ last_digest (sha256 header.now) (batch_of entries.now)) }
{
    let first = Hash(Sha256::digest(header));
    let (batch, last) = batch_bytes(alloc, first, entries)?;
    let mut bytes = Vec::from_slice(alloc, header)?;
    bytes.extend_from_slice(&batch)?;
    Ok((bytes, last))
}
