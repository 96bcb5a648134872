//! The commands that write everything on one stream, in the fixed form.
ghost use Rattle.std.specs.Prelude.{◌≡◌, ◌≢◌, ◌≤◌, ◌⊎◌, ℕ, List, length, IfOk, IfErr};
ghost use Rattle.scp_script_short.specs.scp_device.specs.Device.{Gains, Fails as HasFailed, IsAll};
ghost use Rattle.scp_convert.specs.scp_prompt.specs.Failing.{status_of as failure_status};
ghost use Rattle.scp_command.specs.Serving.{IsPlain, IsPlainUpTo, IsNotPlain, IsNotPlainScript, IsUnread, IsSettled};
ghost use Rattle.scp_command.specs.inside.Plain.{IsTelling, IsRunTelling, IsTellingOf};

use crate::forms::played_slot;
use crate::given::failure_of;
use crate::serving::read_short;
use scp_convert::below::prompt::{Failure, Task, status, write_bytes, write_settled};
use scp_draw::{Depth, Traced, trace};
use scp_notices::below::script_check::lint;
use scp_notices::line_of_fault;
use scp_script_short::below::device::{ReportOut, ScriptIn};
use scp_script_short::below::types::{Fault, SCRIPT_LIMIT};
use std::alloc::{AllocError, Global};

/// What is written on one stream: all of it, or all up to the fault that ended it, with that fault's line.
#[derive(Drop)]
enum Telling {
    Whole(Vec<u8>),
    Part(Vec<u8>),
}

/// What is wrong with a script.
fn linted(alloc: Global, text: &[u8]) -> Result<Telling, Failure>
    ensures told { IfOk result (IsTelling Task.Check text.now) }
    ensures cause { IfErr result (IsNotPlainScript text.now) }
{
    match lint(alloc, text) {
        Ok(told) => Ok(Telling::Whole(told.into_bytes())),
        Err(fault) => Err(failure_of(fault)),
    }
}

/// What was shown, with the line of the fault that ended it, if one did.
fn with_its_fault(alloc: Global, told: Traced) -> Result<Telling, AllocError>
    ensures { IfOk result (IsTellingOf told) }
{
    let Traced { mut text, fault } = told;
    match fault {
        None => Ok(Telling::Whole(text.into_bytes())),
        Some(fault) => {
            let line = line_of_fault(alloc, fault.node, fault.fault)?;
            text.push_str(line.as_str())?;
            Ok(Telling::Part(text.into_bytes()))
        }
    }
}

/// What is shown of a run.
fn telling_of_run(alloc: Global, told: Traced) -> Result<Telling, Failure>
    ensures told { IfOk result (IsTellingOf told) }
    ensures cause { IfErr result (λ failure. failure ≡ Failure.NoMemory) }
{
    match with_its_fault(alloc, told) {
        Ok(telling) => Ok(telling),
        Err(_) => Err(Failure::NoMemory),
    }
}

/// What is shown of the run of a script.
fn traced(alloc: Global, depth: Depth, text: &[u8]) -> Result<Telling, Failure>
    ensures told { IfOk result (IsRunTelling depth text.now) }
    ensures cause { IfErr result (IsNotPlainScript text.now) }
{
    match trace(alloc, depth, text) {
        Ok(traced) => telling_of_run(alloc, traced),
        Err(fault) => Err(failure_of(fault)),
    }
}

/// What a slot's machine answers to the script of one slot.
fn slot(alloc: Global, text: &[u8]) -> Result<Telling, Failure>
    ensures told { IfOk result (IsTelling Task.Slot text.now) }
    ensures cause { IfErr result (IsNotPlain Task.Slot text.now) }
{
    match played_slot(alloc, text) {
        Ok(answers) => Ok(Telling::Whole(answers.into_bytes())),
        Err(Fault::BadScript(line)) => Err(Failure::Line(line)),
        Err(_) => Err(Failure::NoMemory),
    }
}

/// What is shown of a script.
fn telling_of(alloc: Global, task: Task, text: &[u8]) -> Result<Telling, Failure>
    ensures told { IfOk result (IsTelling task text.now) }
    ensures cause { IfErr result (IsNotPlain task text.now) }
{
    match task {
        Task::Check => linted(alloc, text),
        Task::Slot => slot(alloc, text),
        Task::Trace => traced(alloc, Depth::Whole, text),
        _ => traced(alloc, Depth::Stands, text),
    }
}

/// Reads a script whole, and returns what is shown of it.
fn read_and_tell<R: ScriptIn>(alloc: Global, task: Task, reader: &mut R) -> Result<Telling, Failure>
    ensures told { IfOk result (λ telling. (script : List ℕ) × IsAll (R.left reader.old) script × (length script ≤ SCRIPT_LIMIT) × IsTelling task script telling) }
    ensures cause { IfErr result (λ failure. IsUnread SCRIPT_LIMIT (R.left reader.old) (HasFailed (R.failures reader.old) (R.failures reader.new)) failure
        ⊎ ((script : List ℕ) × IsAll (R.left reader.old) script × (length script ≤ SCRIPT_LIMIT) × IsNotPlain task script failure)) }
{
    match read_short(alloc, reader) {
        Ok(script) => telling_of(alloc, task, script.as_slice()),
        Err(failure) => Err(failure),
    }
}

/// Writes the line of a failure in the fixed form, if the writer takes it, and returns its status.
fn tell<W: ReportOut>(failure: &Failure, writer: &mut W) -> u8
    ensures status { result ≡ failure_status failure.now }
    ensures told { IsSettled W.written W.failures writer.old failure.now writer.new }
{
    let _ = write_settled(writer, failure);
    status(failure)
}

/// Writes the whole text, or reports that the writer failed. Returns the exit status.
fn finish<W: ReportOut>(text: &[u8], writer: &mut W) -> u8
    ensures written { result ≡ 0 → Gains (W.written writer.old) text.now (W.written writer.new) }
    ensures failed { result ≢ 0 → (result ≡ 3) × HasFailed (W.failures writer.old) (W.failures writer.new) }
{
    match write_bytes(writer, text) {
        Ok(()) => 0,
        Err(_) => tell(&Failure::Unwritten, writer),
    }
}

/// Writes what was shown up to a fault. Returns 3.
fn finish_part<W: ReportOut>(text: &[u8], writer: &mut W) -> u8
    ensures status { result ≡ 3 }
    ensures written { Gains (W.written writer.old) text.now (W.written writer.new) ⊎ HasFailed (W.failures writer.old) (W.failures writer.new) }
{
    let _status = finish(text, writer);
    3
}

/// Does `check`, `slot`, `trace` or, for any other task, `stand`, and writes everything on one stream, in the fixed form. Returns the exit
/// status: 0 for done, 1 for a script that is refused, 3 for a node, memory or a stream.
pub fn serve_plain<R: ScriptIn, W: ReportOut>(
    alloc: Global,
    task: Task,
    reader: &mut R,
    writer: &mut W,
) -> u8
    ensures few { result ≤ 3 }
    ensures no_usage { result ≢ 2 }
    // What was read is a script of at most 1,048,576 bytes, and all that is shown of it was written.
    ensures told { result ≡ 0 → (script : List ℕ) × (out : List ℕ) × IsAll (R.left reader.old) script × (length script ≤ SCRIPT_LIMIT) × IsPlain task script out × Gains (W.written writer.old) out (W.written writer.new) }
    // Else exactly one of these was written, or the writer failed: the line of a failure in the fixed form, or what is shown of a script up
    // to the fault that stopped it, with that fault's line.
    ensures refused { result ≢ 0 →
        ((failure : Failure) × (result ≡ failure_status failure) × (IsUnread SCRIPT_LIMIT (R.left reader.old) (HasFailed (R.failures reader.old) (R.failures reader.new)) failure
        ⊎ ((script : List ℕ) × IsAll (R.left reader.old) script × (length script ≤ SCRIPT_LIMIT) × IsNotPlain task script failure)) × IsSettled W.written W.failures writer.old failure writer.new)
        ⊎ (((result ≡ 3) × HasFailed (W.failures writer.old) (W.failures writer.new))
        ⊎ ((script : List ℕ) × (out : List ℕ) × (result ≡ 3) × IsAll (R.left reader.old) script × (length script ≤ SCRIPT_LIMIT) × IsPlainUpTo task script out × Gains (W.written writer.old) out (W.written writer.new))) }
{
    match read_and_tell(alloc, task, reader) {
        Ok(Telling::Whole(text)) => finish(text.as_slice(), writer),
        Ok(Telling::Part(text)) => finish_part(text.as_slice(), writer),
        Err(failure) => tell(&failure, writer),
    }
}
