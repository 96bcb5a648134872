//! An archive, read and judged.
ghost use Rattle.std.specs.Prelude.{◌≡◌, ◌≢◌, ◌⊎◌, false, List, ℕ, Option, Ok, IfOk, IfErr, IsErrOf, OnOk};
ghost use Rattle.std.specs.Option.{ForSome};
ghost use Rattle.std.specs.List.{AllByRecursion};
ghost use Rattle.scp_archive.specs.scp_device.specs.Device.{Fails};
ghost use Rattle.scp_archive.specs.Entry.{entry_value};
ghost use Rattle.scp_archive.specs.Stream.{Takes, TakesRecord};
ghost use Rattle.scp_judged.specs.Named.{set_in};
ghost use Rattle.scp_audit.specs.Audit.{IsArchive, IsSaneRecord};
ghost use Rattle.scp_audit.specs.inside.Finding.{Finds};

use crate::ledger::{Ledger, judge_entry};
use scp_archive::below::device::ScriptIn;
use scp_archive::below::types::Fault;
use scp_archive::{Entries, Entry, Next, Unread};
use scp_judged::Sets;
use std::alloc::Global;

/// What came of a record.
#[derive(Drop)]
pub enum Record {
    /// It is an entry, and this is its ledger.
    Ledger(Ledger),
    /// It isn't read.
    Unread(Unread),
}

/// An archive, read and judged.
#[derive(Drop)]
pub struct Archive {
    /// What came of each record, in their order.
    pub records: Vec<Record>,
    /// Whether the archive ends within a record. All of that record is passed over.
    pub is_cut: bool,
}

/// What comes next.
#[derive(Drop)]
enum Found {
    Record(Record),
    End,
    Cut,
}

/// Takes the next record.
fn take<R: ScriptIn>(entries: &mut Entries, reader: &mut R) -> Result<Next, Fault>
    requires { entries.old ≡ false }
    ensures takes { IfOk result (λ next. Takes (R.left reader.old) next (R.left reader.new)) }
    ensures fresh { OnOk result (entries.new ≡ false) }
    ensures cause { IfErr result (λ f. (f ≡ Fault.Device) ⊎ (f ≡ Fault.NoMemory)) }
    ensures device { IsErrOf result Fault.Device → Fails (R.failures reader.old) (R.failures reader.new) }
    ensures hidden { IfErr result (λ f. f ≢ Fault.Device → R.failures reader.new ≡ R.failures reader.old) }
    ensures kept { OnOk result (R.failures reader.new ≡ R.failures reader.old) }
{
    entries.next(reader)
}

/// Judges an entry.
fn judge_record(alloc: Global, sets: &mut Sets, entry: Entry) -> Result<Found, Fault>
    ensures finds { IfOk result (λ found. (left after : Option (List ℕ)) → TakesRecord left (Ok (entry_value entry)) after → Finds (set_in sets.old) left found (set_in sets.new) after) }
    ensures only { IfErr result (λ f. (f ≡ Fault.NoMemory) ⊎ (f ≡ Fault.TooLong)) }
{
    let ledger = judge_entry(alloc, sets, entry)?;
    Ok(Found::Record(Record::Ledger(ledger)))
}

/// What a record is found to be.
fn judge_next(alloc: Global, sets: &mut Sets, next: Next) -> Result<Found, Fault>
    ensures finds { IfOk result (λ found. (left after : Option (List ℕ)) → Takes left next after → Finds (set_in sets.old) left found (set_in sets.new) after) }
    ensures only { IfErr result (λ f. (f ≡ Fault.NoMemory) ⊎ (f ≡ Fault.TooLong)) }
{
    match next {
        Next::Entry(entry) => judge_record(alloc, sets, entry),
        Next::Unread(why) => Ok(Found::Record(Record::Unread(why))),
        Next::End => Ok(Found::End),
        Next::Cut => Ok(Found::Cut),
    }
}

/// An archive of these records.
fn archive_of(records: Vec<Record>, is_cut: bool) -> Archive
    ensures records { result.records.items ≡ records.items }
    ensures cut { result.is_cut ≡ is_cut }
{
    Archive { records, is_cut }
}

/// Finds what comes next.
fn find<R: ScriptIn>(
    alloc: Global,
    entries: &mut Entries,
    sets: &mut Sets,
    reader: &mut R,
) -> Result<Found, Fault>
    requires { entries.old ≡ false }
    ensures finds { IfOk result (λ found. Finds (set_in sets.old) (R.left reader.old) found (set_in sets.new) (R.left reader.new)) }
    ensures fresh { OnOk result (entries.new ≡ false) }
    ensures cause { IfErr result (λ f. (f ≡ Fault.Device) ⊎ (f ≡ Fault.NoMemory) ⊎ (f ≡ Fault.TooLong)) }
    ensures device { IsErrOf result Fault.Device → Fails (R.failures reader.old) (R.failures reader.new) }
    ensures hidden { IfErr result (λ f. f ≢ Fault.Device → R.failures reader.new ≡ R.failures reader.old) }
    ensures kept { OnOk result (R.failures reader.new ≡ R.failures reader.old) }
{
    let next = take(entries, reader)?;
    judge_next(alloc, sets, next)
}

/// Reads an archive to its end, and judges it: what came of each record, in their order. Each entry's quorum sets are named from then on,
/// and its messages are judged by all that are named then. Refused by `Fault::Device` if the reader failed, by `Fault::NoMemory`, and by
/// `Fault::TooLong` if a quorum set breaks a limit of its kind, so that it has no hash: none that was read does. Reads once and forward, and
/// keeps all messages.
pub fn read_archive<R: ScriptIn>(alloc: Global, reader: &mut R) -> Result<Archive, Fault>
    ensures whole { IfOk result (λ archive. ForSome (R.left reader.old) (λ bytes. IsArchive bytes archive)) }
    // What counts is sane.
    ensures sane { IfOk result (λ archive. AllByRecursion IsSaneRecord archive.records.items) }
    ensures cause { IfErr result (λ f. (f ≡ Fault.Device) ⊎ (f ≡ Fault.NoMemory) ⊎ (f ≡ Fault.TooLong)) }
    ensures device { IsErrOf result Fault.Device → Fails (R.failures reader.old) (R.failures reader.new) }
    // A failed read is always reported as `Fault::Device`.
    ensures hidden { IfErr result (λ f. f ≢ Fault.Device → R.failures reader.new ≡ R.failures reader.old) }
    ensures kept { OnOk result (R.failures reader.new ≡ R.failures reader.old) }
{
    let mut entries = Entries::new(alloc);
    let mut sets = Sets::new(alloc);
    let mut records = Vec::new(alloc);
    for _ in 0..u64::MAX {
        match find(alloc, &mut entries, &mut sets, reader) {
            Ok(Found::Record(record)) => records.push(record)?,
            Ok(Found::End) => return Ok(archive_of(records, false)),
            Ok(Found::Cut) => return Ok(archive_of(records, true)),
            Err(fault) => return Err(fault),
        }
    }
    Err(Fault::TooLong)
}
