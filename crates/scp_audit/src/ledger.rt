//! An entry of an archive, judged.
ghost use Rattle.std.specs.Prelude.{◌≡◌, ◌⊎◌, IfOk, IfErr, OnOk};
ghost use Rattle.scp_judged.specs.Named.{set_in};
ghost use Rattle.scp_audit.specs.Judging.{NamesAll, IsJudged, IsSaneLedger};

use scp_archive::Entry;
use scp_archive::below::quorum::QuorumSet;
use scp_archive::below::types::{Fault, Slot};
use scp_judged::{Judged, Sets, judge};
use std::alloc::Global;

/// A ledger of an archive, judged.
#[derive(Drop)]
pub struct Ledger {
    /// Its number, which is its slot.
    pub number: u32,
    /// Its messages with their verdicts, and those that count.
    pub judged: Judged,
}

/// Names all of these sets too, in their order.
fn name_all(sets: &mut Sets, more: Vec<QuorumSet>) -> Result<(), Fault>
    ensures named { OnOk result (NamesAll (set_in sets.old) more.items (set_in sets.new)) }
    ensures only { IfErr result (λ f. (f ≡ Fault.NoMemory) ⊎ (f ≡ Fault.TooLong)) }
{
    for set in more {
        sets.add(set)?;
    }
    Ok(())
}

/// Names the sets of an entry, and judges its messages by all sets that are named then. The refusals are `Fault::NoMemory`, and
/// `Fault::TooLong` if a set has no hash, since it breaks a limit of its kind.
pub(crate) fn judge_entry(alloc: Global, sets: &mut Sets, entry: Entry) -> Result<Ledger, Fault>
    ensures named { OnOk result (NamesAll (set_in sets.old) entry.sets.items (set_in sets.new)) }
    ensures judged { IfOk result (λ ledger. IsJudged (set_in sets.new) entry ledger) }
    ensures sane { IfOk result (λ ledger. IsSaneLedger ledger) }
    ensures only { IfErr result (λ f. (f ≡ Fault.NoMemory) ⊎ (f ≡ Fault.TooLong)) }
{
    let Entry {
        sets: more,
        ledger,
        messages,
    } = entry;
    name_all(sets, more)?;
    let judged = judge(alloc, sets, Slot(u64::from(ledger)), messages)?;
    Ok(Ledger {
        number: ledger,
        judged,
    })
}
