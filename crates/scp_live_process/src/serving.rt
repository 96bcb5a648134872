//! A node serves its host.
ghost use Rattle.std.specs.Prelude.{◌≡◌, ◌≢◌, ◌⊎◌, ◌↔◌, true, IfOk, IfErr, OnOk, OnErr, IsErrOf};
ghost use Rattle.scp_stand_node.specs.scp_device.specs.Device.{Gains, GainsPart, Fails};
ghost use Rattle.scp_stand_node.specs.scp_turn.specs.Kv.{Goes, Watched};
ghost use Rattle.scp_stand_node.specs.scp_turn.specs.Watch.{notes};
ghost use Rattle.scp_stand_node.specs.scp_turn.specs.Episode.{finds_full};
ghost use Rattle.scp_live_process.specs.Serving.{HasServed, HasServedPart};
ghost use Rattle.scp_live_process.specs.inside.Batches.{number_behind, IsBatch, StaysDurable};
ghost use Rattle.scp_live.specs.Living.{IsLive};

use crate::answer::answer_all;
use crate::batch::Batch;
use scp_batches::below::live_log::{EventLog, Kept};
use scp_batches::{Line, Lines};
use scp_live::Live;
use scp_stand_node::below::device::{ReportOut, ScriptIn};
use scp_stand_node::below::turn::{KvDriver, Watch};
use scp_stand_node::below::types::Fault;
use std::alloc::Global;

/// Answers the lines that one read brought, keeps their events, and writes the answers. Returns the number of the next line.
fn serve_batch<L: EventLog, W: ReportOut, V: Watch<KvDriver>>(
    alloc: Global,
    live: &mut Live,
    kept: &mut Kept<L>,
    writer: &mut W,
    number: u64,
    lines: Vec<Line>,
    watch: &mut V,
) -> Result<u64, Fault>
    requires live { IsLive live.old.node }
    ensures served { Goes live.old.node live.new.node (λ _ heard _. Watched (notes V.notes_before V.notes_after) 1 watch.old live.old.node heard live.new.node watch.new × (OnOk result (IsBatch L.holds L.may_leave (λ text. Gains (W.written writer.old) text (W.written writer.new)) number lines.items kept.old kept.new live.old heard live.new) × (IsErrOf result Fault.JournalFull ↔ (finds_full heard ≡ true)) × OnErr result ((writer.new ≡ writer.old) × StaysDurable L.holds L.may_leave kept.old kept.new ⊎ (IsErrOf result Fault.Device × IsBatch L.holds L.may_leave (λ text. GainsPart (W.written writer.old) text (W.written writer.new)) number lines.items kept.old kept.new live.old heard live.new)))) }
    ensures next { IfOk result (λ next. next ≡ number_behind number lines.items) }
    ensures quiet { OnOk result ((L.faults kept.new.log ≡ L.faults kept.old.log) × (W.failures writer.new ≡ W.failures writer.old)) }
    ensures live { OnOk result (IsLive live.new.node) }
    ensures device { IsErrOf result Fault.Device → Fails (L.faults kept.old.log) (L.faults kept.new.log) ⊎ Fails (W.failures writer.old) (W.failures writer.new) }
    ensures hidden { IfErr result (λ fault. fault ≢ Fault.Device → (L.faults kept.new.log ≡ L.faults kept.old.log) × (W.failures writer.new ≡ W.failures writer.old)) }
    ensures only { IfErr result (λ f. (f ≡ Fault.NoMemory) ⊎ ((f ≡ Fault.JournalFull) ⊎ ((f ≡ Fault.TooLong) ⊎ (f ≡ Fault.Device)))) }
{
    let mut batch = Batch::new(alloc);
    let next = match answer_all(&mut batch, live, number, lines, watch) {
        Ok(next) => next,
        Err(fault) => return Err(fault),
    };
    let (text, entries) = batch.into_parts();
    let durable = match kept.keep(alloc, entries.as_slice(), text) {
        Ok(durable) => durable,
        Err(fault) => return Err(fault),
    };
    match durable.write(writer) {
        Ok(()) => Ok(next),
        Err(fault) => Err(fault),
    }
}

/// Serves a host: reads its lines until the input ends. The answers to the lines of one read are written once all their events are kept.
/// The watch is shown each step of the node. Refused by `Device` if the reader, the writer or the log failed. Refused by `JournalFull`
/// exactly if a step found the journal full, which fails the node. Refused by `NoMemory`. Refused by `TooLong` if a message that is sent
/// once more doesn't fit a link, or after 2^64 - 1 reads. After a refusal the node is done, and the events that it received last may not
/// be kept.
pub fn serve<L: EventLog, R: ScriptIn, W: ReportOut, V: Watch<KvDriver>>(
    alloc: Global,
    live: &mut Live,
    kept: &mut Kept<L>,
    reader: &mut R,
    writer: &mut W,
    watch: &mut V,
) -> Result<(), Fault>
    requires live { IsLive live.old.node }
    // All lines are answered in order, the answers are written, and what is kept of the lines is on the disk. Even if the call is
    // refused, the ledger theorem still holds, and all that was written answers lines whose events are on the disk.
    ensures served { Goes live.old.node live.new.node (λ _ heard _. Watched (notes V.notes_before V.notes_after) 1 watch.old live.old.node heard live.new.node watch.new × (OnOk result (HasServed L.holds L.may_leave (R.left reader.old) (W.written writer.old) (W.written writer.new) kept.old kept.new live.old heard live.new) × OnErr result (HasServedPart L.may_leave L.holds result (R.left reader.old) (W.written writer.old) (W.written writer.new) kept.old kept.new live.old heard) × (IsErrOf result Fault.JournalFull ↔ (finds_full heard ≡ true)))) }
    ensures live { OnOk result (IsLive live.new.node) }
    // A failure of a device is always reported as `Fault::Device`, and is reported only if one happened.
    ensures hidden { IfErr result (λ fault. fault ≢ Fault.Device → (R.failures reader.new ≡ R.failures reader.old) × (L.faults kept.new.log ≡ L.faults kept.old.log) × (W.failures writer.new ≡ W.failures writer.old)) }
    ensures device { IsErrOf result Fault.Device → Fails (R.failures reader.old) (R.failures reader.new) ⊎ (Fails (L.faults kept.old.log) (L.faults kept.new.log) ⊎ Fails (W.failures writer.old) (W.failures writer.new)) }
    ensures only { IfErr result (λ f. (f ≡ Fault.NoMemory) ⊎ ((f ≡ Fault.JournalFull) ⊎ ((f ≡ Fault.TooLong) ⊎ (f ≡ Fault.Device)))) }
{
    let mut lines = Lines::new(alloc);
    let mut number = 1;
    for _ in 0..u64::MAX {
        let batch = match lines.next(reader) {
            Ok(Some(batch)) => batch,
            Ok(None) => return Ok(()),
            Err(fault) => return Err(fault),
        };
        match serve_batch(alloc, live, kept, writer, number, batch, watch) {
            Ok(next) => number = next,
            Err(fault) => return Err(fault),
        }
    }
    Err(Fault::TooLong)
}
