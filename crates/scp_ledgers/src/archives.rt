//! Archives that are read one after another, and their report.
ghost use Rattle.std.specs.Prelude.{◌≡◌, ◌≢◌, ◌⊎◌, ◌++◌, ◌∷◌, [], IfOk, IfErr, IsErrOf, OnOk, OnErr, IsOkUnless};
ghost use Rattle.std.specs.Option.{ForSome};
ghost use Rattle.scp_shown.specs.scp_device.specs.Device.{Fails};
ghost use Rattle.scp_shown.specs.scp_audit.specs.Audit.{IsArchive};
ghost use Rattle.scp_shown.specs.scp_audit.specs.declared.archive.Archive.{Archive as OneArchive};
ghost use Rattle.scp_ledgers.specs.Report.{IsReport};

use crate::report::report;
use crate::span::Span;
use scp_shown::below::audit::{Archive, read_archive};
use scp_shown::below::device::ScriptIn;
use scp_shown::below::history::Line;
use scp_shown::below::types::Fault;
use std::alloc::Global;

/// Archives, in the order in which they were read.
#[derive(Drop)]
pub struct Archives {
    pub list: Vec<Archive>,
}

impl Archives {
    /// No archive. Takes no memory.
    pub fn new(alloc: Global) -> Archives
        ensures { result.list.items ≡ [] }
    {
        Archives {
            list: Vec::new(alloc),
        }
    }

    /// Reads one archive more, to its end. Refused by `Fault::Device` if the reader failed, by `Fault::NoMemory`, and by `Fault::TooLong` if a quorum
    /// set breaks a limit of its kind: none that was read does. A refusal leaves the archives as they were.
    pub fn read<R: ScriptIn>(&mut self, alloc: Global, reader: &mut R) -> Result<(), Fault>
        ensures added { OnOk result ((archive : OneArchive) × ForSome (R.left reader.old) (λ bytes. IsArchive bytes archive) × (self.new.list.items ≡ self.old.list.items ++ archive ∷ [])) }
        ensures unchanged { OnErr result (self.new.list.items ≡ self.old.list.items) }
        ensures cause { IfErr result (λ f. (f ≡ Fault.Device) ⊎ (f ≡ Fault.NoMemory) ⊎ (f ≡ Fault.TooLong)) }
        ensures device { IsErrOf result Fault.Device → Fails (R.failures reader.old) (R.failures reader.new) }
        // A failed read is always reported as `Fault::Device`.
        ensures hidden { IfErr result (λ f. f ≢ Fault.Device → R.failures reader.new ≡ R.failures reader.old) }
        ensures kept { OnOk result (R.failures reader.new ≡ R.failures reader.old) }
    {
        let archive = read_archive(alloc, reader)?;
        self.list.push(archive)?;
        Ok(())
    }

    /// The lines of a report on these archives: those of the records that aren't read, those of each ledger that is shown, ascending, and the last
    /// one. The only refusal is `Fault::NoMemory`.
    pub fn report(&self, alloc: Global, span: Span) -> Result<Vec<Line>, Fault>
        ensures report { IfOk result (λ lines. IsReport span self.now.list.items lines.items) }
        ensures only_memory { IsOkUnless result Fault.NoMemory }
    {
        report(alloc, span, self.list.as_slice())
    }
}
