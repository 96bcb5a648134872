//! What the program does with what the words of a command line ask for.
ghost use Rattle.std.specs.Prelude.{◌≡◌, ◌≢◌, ◌≤◌, ◌⊎◌, ◌++◌, ℕ, List, length, OnOk, OnErr, codes};
ghost use Rattle.scp_line.specs.scp_device.specs.Device.{Gains, Fails, IsAll};
ghost use Rattle.scp_line.specs.declared.playing.PlayFault.{PlayFault};
ghost use Rattle.scp_line.specs.Outcome.{stage_word, fault_line, status_of, IsCheckFault};
ghost use Rattle.scp_line.specs.Play.{AreReports, IsShown, IsNamed, IsUnread};
ghost use Rattle.scp_line.specs.Threads.{AreGatheredReports};
ghost use Rattle.scp_line.specs.scp_script.specs.Script.{IsScript};
ghost use Rattle.scp_line_cli.specs.inside.Serving.{IsTold, IsWritten, IsUnplayed, IsUnplayedInThreads};

use crate::asked::{Asked, Mode, read_words};
use scp_line::below::device::write_numbered;
use scp_line::below::types::{Fault, SCRIPT_LIMIT, Stage};
use scp_line::{
    PlayFault, ReportOut, ScriptIn, check, play, play_in_threads, show, status, write_text,
};
use std::alloc::Global;
use std::sync::Wait;
use std::thread::Threads;

/// The words after the node in the line that reports a stage's fault.
fn end_of(stage: Stage) -> &'static str
    ensures { result.now ≡ codes " " ++ stage_word stage ++ codes "\n" }
{
    match stage {
        Stage::Reader => " reader\n",
        Stage::Pend => " pend\n",
        Stage::Slot => " slot\n",
        Stage::Apply => " apply\n",
    }
}

/// Writes the line that reports a fault. It takes no memory. The only refusal is `Fault::Device`, if the writer failed.
fn write_fault<W: ReportOut>(writer: &mut W, node: u8, fault: Fault) -> Result<(), Fault>
    ensures whole { OnOk result (Gains (W.written writer.old) (fault_line node fault) (W.written writer.new)) }
    ensures raised { OnErr result (Fails (W.failures writer.old) (W.failures writer.new)) }
    ensures kept { OnOk result (W.failures writer.new ≡ W.failures writer.old) }
{
    let number = u64::from(node);
    match fault {
        Fault::BadScript(line) => write_numbered(writer, "fault 12 line ", line as u64, "\n"),
        Fault::Failed => write_numbered(writer, "fault 10 node ", number, "\n"),
        Fault::Refused(stage) => write_numbered(writer, "fault 13 node ", number, end_of(stage)),
        _ => write_numbered(writer, "fault ", u64::from(fault.number()), "\n"),
    }
}

/// Writes the line that reports a fault, if the writer takes it, and returns the exit status. It takes no memory.
#[tactic(auto, using(crate::proofs::Told::some_status, crate::proofs::Told::few_status, crate::proofs::Told::no_usage, crate::proofs::Told::told_by))]
fn tell<W: ReportOut>(fault: PlayFault, writer: &mut W) -> u8
    ensures status { result ≡ status_of fault.fault }
    ensures some { 1 ≤ result }
    ensures few { result ≤ 3 }
    ensures no_usage { result ≢ 2 }
    ensures told { IsTold W.written W.failures writer.old fault writer.new }
{
    let _ = write_fault(writer, fault.node, fault.fault);
    status(fault.fault)
}

/// Plays a script, one step after another, and returns 0 if its reports were written. Else the fault is reported by its line, if the writer
/// takes it, and its status is returned: 1 if the script was refused, else 3.
#[tactic(auto, using(crate::proofs::Told::told_after, crate::proofs::Told::unplayed))]
fn serve_run<R: ScriptIn, W: ReportOut>(alloc: Global, reader: &mut R, writer: &mut W) -> u8
    ensures few { result ≤ 3 }
    ensures no_usage { result ≢ 2 }
    // What was read is a script of at most 1,048,576 bytes, and what was written is its reports.
    ensures reports { result ≡ 0 → (script text : List ℕ) × IsAll (R.left reader.old) script × (length script ≤ SCRIPT_LIMIT) × IsScript script × AreReports script text × Gains (W.written writer.old) text (W.written writer.new) }
    // Else exactly the line of the fault was written, or the writer failed.
    ensures refused { result ≢ 0 → (fault : PlayFault) × (result ≡ status_of fault.fault) × IsUnplayed (R.left reader.old) fault × IsTold W.written W.failures writer.old fault writer.new }
{
    match play(alloc, reader, writer) {
        Ok(()) => 0,
        Err(fault) => tell(fault, writer),
    }
}

/// Plays a script with nodes whose stages run in threads, and returns 0 if its reports were written. Else the fault is reported as
/// `serve_run` reports it.
#[tactic(auto, using(crate::proofs::Told::told_after, crate::proofs::Told::unplayed_in_threads))]
fn serve_threads<T: Threads + Wait + Sync, R: ScriptIn, W: ReportOut>(
    rt: &T,
    alloc: Global,
    reader: &mut R,
    writer: &mut W,
) -> u8
    ensures few { result ≤ 3 }
    ensures no_usage { result ≢ 2 }
    // What was read is a script of at most 1,048,576 bytes. What was written is the reports of what its nodes' threads left.
    ensures reports { result ≡ 0 → (script text : List ℕ) × IsAll (R.left reader.old) script × (length script ≤ SCRIPT_LIMIT) × IsScript script × AreGatheredReports script text × Gains (W.written writer.old) text (W.written writer.new) }
    // Else exactly the line of the fault was written, or the writer failed.
    ensures refused { result ≢ 0 → (fault : PlayFault) × (result ≡ status_of fault.fault) × IsUnplayedInThreads (R.left reader.old) fault × IsTold W.written W.failures writer.old fault writer.new }
{
    match play_in_threads(rt, alloc, reader, writer) {
        Ok(()) => 0,
        Err(fault) => tell(fault, writer),
    }
}

/// Checks a script, and returns 0 if it is one and `ok` was written. Else the fault is reported as `serve_run` reports it.
#[tactic(auto, using(crate::proofs::Told::told_after, crate::proofs::Told::unchecked))]
fn serve_check<R: ScriptIn, W: ReportOut>(alloc: Global, reader: &mut R, writer: &mut W) -> u8
    ensures few { result ≤ 3 }
    ensures no_usage { result ≢ 2 }
    // What was read is a script of at most 1,048,576 bytes, and `ok` was written.
    ensures ok { result ≡ 0 → ((script : List ℕ) × IsAll (R.left reader.old) script × (length script ≤ SCRIPT_LIMIT) × IsScript script) × Gains (W.written writer.old) (codes "ok\n") (W.written writer.new) }
    // Else exactly the line of the fault was written, or the writer failed.
    ensures refused { result ≢ 0 → (fault : PlayFault) × (result ≡ status_of fault.fault) × IsUnplayed (R.left reader.old) fault × IsCheckFault fault.fault × IsTold W.written W.failures writer.old fault writer.new }
{
    match check(alloc, reader, writer) {
        Ok(()) => 0,
        Err(fault) => tell(fault, writer),
    }
}

/// Shows the message that the hex digits encode, and returns 0 if its line was written. Else the fault is reported as `serve_run` reports it.
/// No input is read.
#[tactic(auto, using(crate::proofs::Told::told_after))]
fn serve_decode<W: ReportOut>(alloc: Global, hex: &str, writer: &mut W) -> u8
    ensures few { result ≤ 3 }
    ensures no_usage { result ≢ 2 }
    ensures shown { result ≡ 0 → (text : List ℕ) × IsShown hex.now text × Gains (W.written writer.old) text (W.written writer.new) }
    // Else exactly the line of the fault was written, or the writer failed.
    ensures refused { result ≢ 0 → (fault : PlayFault) × (result ≡ status_of fault.fault) × (fault.node ≡ 0) × IsNamed fault.node fault.fault × (fault.fault ≢ Fault.NoMemory → fault.fault ≢ Fault.Device → IsUnread hex.now fault.fault) × IsTold W.written W.failures writer.old fault writer.new }
{
    match show(alloc, hex, writer) {
        Ok(()) => 0,
        Err(fault) => tell(fault, writer),
    }
}

/// Writes `usage`, and returns 2. No input is read.
fn serve_usage<W: ReportOut>(writer: &mut W) -> u8
    ensures status { result ≡ 2 }
    ensures usage { IsWritten W.written W.failures writer.old (codes "usage\n") writer.new }
{
    let _ = write_text(writer, "usage\n");
    2
}

/// Does what the words of a command line ask for, the program's own name first, and returns the exit status. It is 0 for done, 1 if a script
/// or a message was refused, and 2 if the words ask for nothing. It is 3 if a node failed, it is out of memory, or the reader or the writer
/// failed.
pub fn serve<T: Threads + Wait + Sync, R: ScriptIn, W: ReportOut>(
    rt: &T,
    alloc: Global,
    words: &[&str],
    reader: &mut R,
    writer: &mut W,
) -> u8
    ensures status { result ≤ 3 }
    // 0 is returned only if a script was played in one of the two modes, a script was checked, or a message was shown and nothing was read.
    ensures done { result ≡ 0 →
        ((script text : List ℕ) × IsAll (R.left reader.old) script × (length script ≤ SCRIPT_LIMIT) × IsScript script × AreReports script text × Gains (W.written writer.old) text (W.written writer.new))
        ⊎ ((script text : List ℕ) × IsAll (R.left reader.old) script × (length script ≤ SCRIPT_LIMIT) × IsScript script × AreGatheredReports script text × Gains (W.written writer.old) text (W.written writer.new))
        ⊎ (((script : List ℕ) × IsAll (R.left reader.old) script × (length script ≤ SCRIPT_LIMIT) × IsScript script) × Gains (W.written writer.old) (codes "ok\n") (W.written writer.new))
        ⊎ ((digits : List ℕ) × ((text : List ℕ) × IsShown digits text × Gains (W.written writer.old) text (W.written writer.new)) × (reader.new ≡ reader.old)) }
    // 2 is returned only with `usage`, and nothing was read.
    ensures usage { result ≡ 2 → (reader.new ≡ reader.old) × IsWritten W.written W.failures writer.old (codes "usage\n") writer.new }
    // 1 and 3 are returned only for a fault. Exactly its line was written, or the writer failed.
    ensures refused { result ≢ 0 → result ≢ 2 → (fault : PlayFault) × (result ≡ status_of fault.fault) × IsNamed fault.node fault.fault × IsTold W.written W.failures writer.old fault writer.new }
{
    match read_words(alloc, words) {
        Ok(Asked::Run(Mode::Serial)) => serve_run(alloc, reader, writer),
        Ok(Asked::Run(Mode::Threads)) => serve_threads(rt, alloc, reader, writer),
        Ok(Asked::Check) => serve_check(alloc, reader, writer),
        Ok(Asked::Decode(hex)) => serve_decode(alloc, hex, writer),
        Ok(Asked::Usage) => serve_usage(writer),
        Err(fault) => tell(PlayFault::from(fault), writer),
    }
}
