//! A node runs, and what happens in each of its steps is written to a trace.
ghost use Rattle.std.specs.Prelude.{◌≡◌, ◌≢◌, [], IfOk, OnOk, IfErr};
ghost use Rattle.scp_trace_text.specs.Watching.{untold};
ghost use Rattle.scp_live.specs.scp_live_config.specs.declared.settings.Settings.{Settings};
ghost use Rattle.scp_live_process.specs.Stands.{AreNamesIn};
ghost use Rattle.scp_live_process.specs.Ending.{streams, StopsTraced, EndsBy, EndsUntraced};
ghost use Rattle.scp_live_process.specs.Starting.{IsTracedRun, TracesRun};

use crate::process::run_settings;
use crate::stand::names_of;
use scp_batches::below::live_log::{EventLog, LogFault, Wanted};
use scp_live::below::live_config::Settings;
use scp_live::{fail, refuse, settings_of};
use scp_stand_node::below::device::{ReportOut, ScriptIn};
use scp_stand_node::below::stand_slot::Names;
use scp_stand_node::below::types::Fault;
use scp_trace_text::{TracingWatch, what_is_traced_is_what_happened};
use std::alloc::{AllocError, Global};

/// Runs a node with this configuration; the watch writes what happens in each step. If the node ran to its end, but not all of that could
/// be written, refused by `NoMemory`, or by `Device` if the trace's writer failed.
fn run_told<L: EventLog + Drop, R: ScriptIn, W: ReportOut, T: ReportOut + Drop>(
    alloc: Global,
    settings: &Settings,
    log: L,
    wanted: Wanted,
    reader: &mut R,
    writer: &mut W,
    watch: &mut TracingWatch<T>,
) -> Result<(), LogFault>
    requires names { AreNamesIn settings.now.names.items watch.old.names }
    requires none { watch.old.facts.tellings ≡ [] }
    ensures ran { OnOk result (TracesRun L.holds L.may_leave wanted settings.now (R.left reader.old) (W.written writer.old) (W.written writer.new) log watch.old.written watch.new.written) }
    ensures stopped { IfErr result (StopsTraced L.holds L.may_leave L.faults L.moved wanted settings.now (streams (R.left reader.old) (R.failures reader.old) (W.written writer.old) (W.failures writer.old)) (streams (R.left reader.new) (R.failures reader.new) (W.written writer.new) (W.failures writer.new)) log watch.new.failures) }
{
    what_is_traced_is_what_happened();
    match run_settings(alloc, settings, log, wanted, reader, writer, watch) {
        Ok(()) => {}
        Err(fault) => return Err(fault),
    }
    match watch.fault() {
        Some(fault) => Err(LogFault::Failed(fault)),
        None => Ok(()),
    }
}

/// The same, with its status; an error is written as a line.
fn run_status<L: EventLog + Drop, R: ScriptIn, W: ReportOut, T: ReportOut + Drop>(
    alloc: Global,
    settings: &Settings,
    log: L,
    wanted: Wanted,
    reader: &mut R,
    writer: &mut W,
    watch: &mut TracingWatch<T>,
) -> u8
    requires names { AreNamesIn settings.now.names.items watch.old.names }
    requires none { watch.old.facts.tellings ≡ [] }
    ensures ran { result ≡ 0 → TracesRun L.holds L.may_leave wanted settings.now (R.left reader.old) (W.written writer.old) (W.written writer.new) log watch.old.written watch.new.written }
    ensures stopped { result ≢ 0 → EndsBy (λ stopped fault. StopsTraced L.holds L.may_leave L.faults L.moved wanted settings.now (streams (R.left reader.old) (R.failures reader.old) (W.written writer.old) (W.failures writer.old)) stopped log watch.new.failures fault) (streams (R.left reader.new) (R.failures reader.new) (W.written writer.new) (W.failures writer.new)) result }
{
    match run_told(alloc, settings, log, wanted, reader, writer, watch) {
        Ok(()) => 0,
        Err(fault) => fail(fault, writer),
    }
}

/// The names that a configuration gives nodes.
fn names_in(alloc: Global, settings: &Settings) -> Result<Names, AllocError>
    ensures { IfOk result (AreNamesIn settings.now.names.items) }
{
    names_of(alloc, settings.names.as_slice())
}

/// A watch that writes to this trace, with these names.
fn watch_of<T: ReportOut + Drop>(alloc: Global, names: Names, trace: T) -> TracingWatch<T>
    ensures { result ≡ untold names (T.written trace) (T.failures trace) }
{
    TracingWatch::new(alloc, names, trace)
}

/// Runs a node with this configuration as `run_node` does, and writes what happens in each step to the trace, right after the step. The
/// trace calls nodes by the names of the configuration. If the trace can't be written, the node goes on. At its end it then writes `fault
/// 14`, or `fault 1` if memory ran out, and the status is 3 instead of 0. Returns the status, and the writer of the trace.
pub fn run_traced<L: EventLog + Drop, R: ScriptIn, W: ReportOut, T: ReportOut + Drop>(
    alloc: Global,
    config: &[u8],
    log: L,
    wanted: Wanted,
    reader: &mut R,
    writer: &mut W,
    trace: T,
) -> (u8, T)
    ensures ran { result.0 ≡ 0 → IsTracedRun L.holds L.may_leave wanted config.now (R.left reader.old) (W.written writer.old) (W.written writer.new) log (T.written trace) (T.written result.1) }
    // With any other status, this is what the node did and kept, why it ended, and its last line.
    ensures stopped { result.0 ≢ 0 → EndsUntraced L.holds L.may_leave L.faults L.moved wanted config.now (streams (R.left reader.old) (R.failures reader.old) (W.written writer.old) (W.failures writer.old)) (streams (R.left reader.new) (R.failures reader.new) (W.written writer.new) (W.failures writer.new)) log (T.failures result.1) result.0 }
{
    let settings = match settings_of(alloc, config) {
        Ok(settings) => settings,
        Err(fault) => return (refuse(alloc, &fault, writer), trace),
    };
    let names = match names_in(alloc, &settings) {
        Ok(names) => names,
        Err(_) => return (fail(LogFault::Failed(Fault::NoMemory), writer), trace),
    };
    let mut watch = watch_of(alloc, names, trace);
    let status = run_status(alloc, &settings, log, wanted, reader, writer, &mut watch);
    (status, watch.into_trace())
}
