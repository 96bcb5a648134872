//! A node with a configuration starts, and serves its host until the input ends.
ghost use Rattle.std.specs.Prelude.{◌≡◌, ◌≢◌, ◌↔◌, true, IfOk, IfErr, OnOk, string_bytes};
ghost use Rattle.scp_stand_node.specs.scp_turn.specs.Kv.{Goes, Watched};
ghost use Rattle.scp_stand_node.specs.scp_turn.specs.Watch.{notes};
ghost use Rattle.scp_batches.specs.scp_live_log.specs.Log.{IsLine};
ghost use Rattle.scp_live.specs.Beginning as begin;
ghost use Rattle.scp_live.specs.Living.{IsLive};
ghost use Rattle.scp_live_process.specs.Ending.{streams, StopsBy, Stops, IsReportedAs, EndsUnserved};
ghost use Rattle.scp_live_process.specs.Starting.{greeting, HasRun, RunsAs, IsRun};

use crate::serving::serve;
use crate::starting::{Restarted, restart};
use crate::telling::write_torn;
use scp_batches::below::live_log::{EventLog, Kept, LogFault, Wanted};
use scp_live::below::live_config::Settings;
use scp_live::below::live_lines::write_ok;
use scp_live::{Live, begun, fail, header, refuse, settings_of};
use scp_stand_node::below::device::{ReportOut, ScriptIn, write_text};
use scp_stand_node::below::turn::{
    KvDriver, NoWatch, Watch, each_node_holds_its_headline, each_node_holds_its_ledger,
};
use scp_stand_node::below::types::Fault;
use std::alloc::{AllocError, Global};

/// What is written before any line is read.
fn greeting_of(alloc: Global, live: &Live, found: Restarted) -> Result<String, AllocError>
    requires live { IsLive live.now.node }
    ensures { IfOk result (λ text. string_bytes text ≡ greeting found live.now) }
{
    let count = found.count;
    let mut text = String::new(alloc);
    writeln!(text, "ready {count}")?;
    write_torn(&mut text, found.torn, found.behind)?;
    live.state(&mut text)?;
    write_ok(&mut text, 0)?;
    Ok(text)
}

/// The first line of the log of a node with these settings.
fn header_of(alloc: Global, settings: &Settings) -> Result<Vec<u8>, AllocError>
    ensures is { IfOk result (λ line. line.items ≡ begin.header_of (begin.digest_of settings.now)) }
    ensures line { IfOk result (λ line. ¬ (IsLine line.items)) }
{
    let digest = settings.digest(alloc)?;
    header(alloc, &digest)
}

/// Starts with the log, writes the state of the node, and serves the host; the watch is shown each step.
fn run<L: EventLog, R: ScriptIn, W: ReportOut, V: Watch<KvDriver>>(
    alloc: Global,
    live: &mut Live,
    kept: &mut Kept<L>,
    header: &[u8],
    wanted: Wanted,
    reader: &mut R,
    writer: &mut W,
    watch: &mut V,
) -> Result<(), LogFault>
    requires live { IsLive live.old.node }
    requires line { ¬ (IsLine header.now) }
    ensures ran { Goes live.old.node live.new.node (λ _ heard _. Watched (notes V.notes_before V.notes_after) 1 watch.old live.old.node heard live.new.node watch.new × OnOk result (HasRun L.holds L.may_leave wanted header.now (R.left reader.old) (W.written writer.old) (W.written writer.new) kept.old kept.new live.old heard live.new)) }
    ensures stopped { Goes live.old.node live.new.node (λ _ heard _. IfErr result (StopsBy L.holds L.may_leave L.faults wanted header.now (streams (R.left reader.old) (R.failures reader.old) (W.written writer.old) (W.failures writer.old)) (streams (R.left reader.new) (R.failures reader.new) (W.written writer.new) (W.failures writer.new)) kept.old kept.new live.old heard live.new)) }
{
    let found = match restart(alloc, live, kept, header, wanted, watch) {
        Ok(found) => found,
        Err(fault) => return Err(fault),
    };
    let text = match greeting_of(alloc, live, found) {
        Ok(text) => text,
        Err(_) => return Err(LogFault::Failed(Fault::NoMemory)),
    };
    match write_text(writer, text.as_str()) {
        Ok(()) => {}
        Err(_) => return Err(LogFault::Failed(Fault::Device)),
    }
    match serve(alloc, live, kept, reader, writer, watch) {
        Ok(()) => Ok(()),
        Err(fault) => Err(LogFault::Failed(fault)),
    }
}

/// Whether a device failed.
fn is_device(fault: LogFault) -> bool
    ensures { (result ≡ true) ↔ (fault ≡ LogFault.Failed Fault.Device) }
{
    matches!(fault, LogFault::Failed(Fault::Device))
}

/// What is reported of the fault that stopped a node with this log.
fn reported<L: EventLog>(log: &L, cause: LogFault) -> LogFault
    ensures { IsReportedAs (L.moved log.now) cause result }
{
    if !log.was_moved() {
        return cause;
    }
    if is_device(cause) {
        return LogFault::Moved;
    }
    cause
}

/// Runs a node with this configuration; the watch is shown each step.
pub fn run_settings<L: EventLog + Drop, R: ScriptIn, W: ReportOut, V: Watch<KvDriver>>(
    alloc: Global,
    settings: &Settings,
    log: L,
    wanted: Wanted,
    reader: &mut R,
    writer: &mut W,
    watch: &mut V,
) -> Result<(), LogFault>
    ensures ran { OnOk result ((runs : RunsAs L.holds L.may_leave wanted settings.now (R.left reader.old) (W.written writer.old) (W.written writer.new) log) × Watched (notes V.notes_before V.notes_after) 1 watch.old runs.begun.node runs.heard runs.node.node watch.new) }
    ensures stopped { IfErr result (Stops L.holds L.may_leave L.faults L.moved wanted settings.now (streams (R.left reader.old) (R.failures reader.old) (W.written writer.old) (W.failures writer.old)) (streams (R.left reader.new) (R.failures reader.new) (W.written writer.new) (W.failures writer.new)) log) }
{
    each_node_holds_its_ledger::<KvDriver>();
    each_node_holds_its_headline::<KvDriver>();
    let mut live = match begun(alloc, settings) {
        Ok(live) => live,
        Err(fault) => return Err(LogFault::Failed(fault)),
    };
    let line = match header_of(alloc, settings) {
        Ok(line) => line,
        Err(_) => return Err(LogFault::Failed(Fault::NoMemory)),
    };
    let mut kept = Kept::new(log);
    let header = line.as_slice();
    match run(
        alloc, &mut live, &mut kept, header, wanted, reader, writer, watch,
    ) {
        Ok(()) => Ok(()),
        Err(cause) => Err(reported(kept.log(), cause)),
    }
}

/// Runs a node with this configuration and this log. Writes its state, and serves what the reader gives until that ends. Returns the
/// status: 0; 1 if the text isn't a configuration, or the log is another configuration's, damaged, or not the one that is wanted; 3 if the
/// node, the log, the reader or the writer failed, or memory ran out. An error is written as one line, the last one.
pub fn run_node<L: EventLog + Drop, R: ScriptIn, W: ReportOut>(
    alloc: Global,
    config: &[u8],
    log: L,
    wanted: Wanted,
    reader: &mut R,
    writer: &mut W,
) -> u8
    ensures ran { result ≡ 0 → IsRun L.holds L.may_leave wanted config.now (R.left reader.old) (W.written writer.old) (W.written writer.new) log }
    // With any other status, this is what the node did and kept, why it ended, and its last line.
    ensures stopped { result ≢ 0 → EndsUnserved L.holds L.may_leave L.faults L.moved wanted config.now (streams (R.left reader.old) (R.failures reader.old) (W.written writer.old) (W.failures writer.old)) (streams (R.left reader.new) (R.failures reader.new) (W.written writer.new) (W.failures writer.new)) log result }
{
    let settings = match settings_of(alloc, config) {
        Ok(settings) => settings,
        Err(fault) => return refuse(alloc, &fault, writer),
    };
    match run_settings(alloc, &settings, log, wanted, reader, writer, &mut NoWatch) {
        Ok(()) => 0,
        Err(fault) => fail(fault, writer),
    }
}
