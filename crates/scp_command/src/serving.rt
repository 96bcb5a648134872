//! What the program does with a task that the words of a command line ask for.
ghost use Rattle.std.specs.Prelude.{◌≡◌, ◌≢◌, ◌≤◌, ◌⊎◌, ℕ, List, [], length, IfOk, IfErr, string_bytes, codes};
ghost use Rattle.scp_script_short.specs.scp_device.specs.Device.{Gains, Fails as HasFailed, IsAll};
ghost use Rattle.scp_convert.specs.scp_prompt.specs.Failing.{status_of as failure_status};
ghost use Rattle.scp_command.specs.Answers.{Answers, IsHeadlinedFor};
ghost use Rattle.scp_command.specs.Causes.{Fails};
ghost use Rattle.scp_command.specs.inside.Reading.{unread_of};
ghost use Rattle.scp_command.specs.Serving.{status_of as answer_status, noticed, IsWritten, IsTold, IsUnread};

use crate::answer::Answer;
use crate::forms::{as_text, in_digits, slot};
use crate::looks::{checked, drawn, quorums, traced};
use crate::runs::{account, run};
use scp_convert::below::prompt::{
    Cause, Failure, LONG_LIMIT, Task, read_within, status, write_bytes, write_failure,
};
use scp_draw::Depth;
use scp_notices::what_is_played_keeps_the_headlines;
use scp_script_short::below::device::{ReportOut, ScriptIn, read_script, write_text};
use scp_script_short::below::types::{Fault, SCRIPT_LIMIT};
use std::alloc::Global;
use std::sync::Wait;
use std::thread::Threads;

/// A task, and how it is to be done.
#[derive(Clone, Copy)]
pub struct Order<'a> {
    pub task: Task,
    /// Whether the notices of a run are left out.
    pub quiet: bool,
    /// The input's name.
    pub name: &'a str,
}

/// The failure of an input that couldn't be read.
fn unread(limit: usize, fault: Fault) -> Failure
    ensures { result ≡ unread_of limit fault }
{
    match fault {
        Fault::Device => Failure::Unread,
        Fault::TooLong => Failure::TooLong(limit),
        _ => Failure::NoMemory,
    }
}

/// Reads a script whole, at most 1 MiB: the limit of the fixed form.
#[tactic(auto, using(crate::proofs::Told::is_unread, crate::proofs::Told::all_left))]
pub fn read_short<R: ScriptIn>(alloc: Global, reader: &mut R) -> Result<Vec<u8>, Failure>
    ensures all { IfOk result (λ text. IsAll (R.left reader.old) text.items) }
    ensures limit { IfOk result (λ text. length text.items ≤ SCRIPT_LIMIT) }
    ensures cause { IfErr result (IsUnread SCRIPT_LIMIT (R.left reader.old) (HasFailed (R.failures reader.old) (R.failures reader.new))) }
{
    match read_script(alloc, reader) {
        Ok(text) => Ok(text),
        Err(fault) => Err(unread(SCRIPT_LIMIT, fault)),
    }
}

/// Reads an input whole, at most 16 MiB.
#[tactic(auto, using(crate::proofs::Told::is_unread, crate::proofs::Told::all_left))]
pub fn read_long<R: ScriptIn>(alloc: Global, reader: &mut R) -> Result<Vec<u8>, Failure>
    ensures all { IfOk result (λ text. IsAll (R.left reader.old) text.items) }
    ensures limit { IfOk result (λ text. length text.items ≤ LONG_LIMIT) }
    ensures cause { IfErr result (IsUnread LONG_LIMIT (R.left reader.old) (HasFailed (R.failures reader.old) (R.failures reader.new))) }
{
    match read_within(alloc, reader) {
        Ok(text) => Ok(text),
        Err(fault) => Err(unread(LONG_LIMIT, fault)),
    }
}

/// What a task makes of an input.
fn answer<T: Threads + Wait + Sync>(
    rt: &T,
    alloc: Global,
    task: Task,
    text: &[u8],
) -> Result<Answer, Failure>
    ensures answer { IfOk result (Answers task text.now) }
    ensures cause { IfErr result (Fails task text.now) }
{
    match task {
        Task::Run(mode, shape) => run(rt, alloc, mode, shape, text),
        Task::Account(mode) => account(rt, alloc, mode, text),
        Task::Check => checked(alloc, text),
        Task::Stand => traced(alloc, Depth::Stands, text),
        Task::Trace => traced(alloc, Depth::Whole, text),
        Task::Draw => drawn(alloc, text),
        Task::Slot => slot(alloc, text),
        Task::Quorums => quorums(alloc, text),
        Task::Hex => in_digits(alloc, text),
        Task::Text => as_text(alloc, text),
    }
}

/// Reports a failure of the input with this name and these bytes, if the stream of errors takes it, and returns its status.
#[tactic(auto, using(crate::proofs::Told::told_by))]
pub fn tell<E: ReportOut>(
    alloc: Global,
    name: &str,
    text: &[u8],
    why: &str,
    failure: &Failure,
    errors: &mut E,
) -> u8
    ensures status { result ≡ failure_status failure.now }
    ensures told { IsTold E.written E.failures errors.old name.now text.now why.now failure.now errors.new }
{
    let _ = write_failure(alloc, errors, name, text, why, failure);
    status(failure)
}

/// Writes the notices of a run, if there are any and they aren't to be left out, and returns the status.
#[tactic(auto, using(crate::proofs::Told::written_by))]
fn notice<E: ReportOut>(notices: &str, quiet: bool, errors: &mut E) -> u8
    ensures status { result ≡ answer_status notices.now }
    ensures told { IsWritten E.written E.failures errors.old (noticed quiet notices.now) errors.new }
{
    if notices.is_empty() {
        return 0;
    }
    if !quiet {
        let _ = write_text(errors, notices);
    }
    4
}

/// Writes an answer, and returns the status.
fn finish<O: ReportOut + Cause, E: ReportOut>(
    alloc: Global,
    answer: &Answer,
    quiet: bool,
    output: &mut O,
    errors: &mut E,
) -> u8
    ensures written { result ≢ 3 → (result ≡ answer_status (string_bytes answer.now.notices)) × Gains (O.written output.old) answer.now.text.items (O.written output.new) × IsWritten E.written E.failures errors.old (noticed quiet (string_bytes answer.now.notices)) errors.new }
    ensures failed { result ≡ 3 → HasFailed (O.failures output.old) (O.failures output.new) × IsTold E.written E.failures errors.old (codes "<stdout>") [] (O.cause output.new) Failure.Unwritten errors.new }
{
    match write_bytes(output, answer.text.as_slice()) {
        Ok(()) => notice(answer.notices.as_str(), quiet, errors),
        Err(_) => tell(
            alloc,
            "<stdout>",
            &[],
            output.cause(),
            &Failure::Unwritten,
            errors,
        ),
    }
}

/// Does a task: reads the whole input and writes what the task makes of it. Returns the exit status: 0 for done, 4 for a run with notices,
/// which are written to the stream of errors.
/// If the task fails, nothing is written to the output, the line of the failure is written to the stream of errors, and its status is
/// returned. The status is 1 for the input, and 3 for a node, memory or a stream.
pub fn serve<T: Threads + Wait + Sync, R: ScriptIn + Cause, O: ReportOut + Cause, E: ReportOut>(
    rt: &T,
    alloc: Global,
    order: Order<'_>,
    input: &mut R,
    output: &mut O,
    errors: &mut E,
) -> u8
    ensures few { result ≤ 4 }
    ensures no_usage { result ≢ 2 }
    // 0 and 4 are returned only if the whole input was read, and exactly what the task makes of it was written to the output. It is 4 if
    // there are notices. They were written to the stream of errors, unless they were to be left out or that stream failed.
    ensures done { result ≡ 0 ⊎ result ≡ 4 → (text : List ℕ) × (answer : Answer) × IsAll (R.left input.old) text × (length text ≤ LONG_LIMIT) × Answers order.entry.task text answer × (result ≡ answer_status (string_bytes answer.notices)) × Gains (O.written output.old) answer.text.items (O.written output.new) × IsWritten E.written E.failures errors.old (noticed order.entry.quiet (string_bytes answer.notices)) errors.new }
    // If a script was played for its reports or its account, the headline holds for its nodes; it says what matters most.
    ensures headline { result ≡ 0 ⊎ result ≡ 4 → (text : List ℕ) × (answer : Answer) × IsAll (R.left input.old) text × IsHeadlinedFor order.entry.task text answer × Gains (O.written output.old) answer.text.items (O.written output.new) }
    // 1 and 3 are returned only for a failure. Exactly its line was written to the stream of errors, unless that stream failed. Nothing was
    // written to the output, unless the output itself failed.
    ensures failed { result ≢ 0 → result ≢ 4 →
        ((failure : Failure) × (result ≡ failure_status failure) × IsUnread LONG_LIMIT (R.left input.old) (HasFailed (R.failures input.old) (R.failures input.new)) failure × IsTold E.written E.failures errors.old order.entry.name.now [] (R.cause input.new) failure errors.new × (output.new ≡ output.old))
        ⊎ ((failure : Failure) × (text : List ℕ) × (result ≡ failure_status failure) × IsAll (R.left input.old) text × (length text ≤ LONG_LIMIT) × Fails order.entry.task text failure × IsTold E.written E.failures errors.old order.entry.name.now text [] failure errors.new × (output.new ≡ output.old))
        ⊎ ((result ≡ 3) × HasFailed (O.failures output.old) (O.failures output.new) × IsTold E.written E.failures errors.old (codes "<stdout>") [] (O.cause output.new) Failure.Unwritten errors.new) }
{
    what_is_played_keeps_the_headlines();
    match read_long(alloc, input) {
        Err(failure) => tell(alloc, order.name, &[], input.cause(), &failure, errors),
        Ok(text) => match answer(rt, alloc, order.task, text.as_slice()) {
            Ok(answer) => finish(alloc, &answer, order.quiet, output, errors),
            Err(failure) => tell(alloc, order.name, text.as_slice(), "", &failure, errors),
        },
    }
}
