//! Scripts that are played, and their reports.
ghost use Rattle.std.specs.Prelude.{◌≡◌, ◌≤◌, ◌++◌, ℕ, List, [], All, IfOk, IfErr, OnOk, IsOk, IsOkUnless, length, map, string_bytes};
ghost use Rattle.std.specs.List.{list_all, list_any};
ghost use Rattle.scp_script_short.specs.scp_types.specs.declared.limits.TheConstants.{NODE_LIMIT};
ghost use Rattle.scp_script_hints.specs.scp_script.specs.Nodes.{NamesNodes};
ghost use Rattle.scp_script_hints.specs.scp_script.specs.Script.{AreAdmitted, node_count};
ghost use Rattle.scp_notices.specs.scp_report.specs.Report.{view_of};
ghost use Rattle.scp_notices.specs.scp_report.specs.Node.{reports_of as records_of};
ghost use Rattle.scp_notices.specs.scp_line.specs.Left.{reports_left as records_left};
ghost use Rattle.scp_account.specs.declared.node.Mode.TheVariants as ways;
ghost use Rattle.scp_account.specs.Account.{account_text as accounted};
ghost use Rattle.scp_account.specs.Fits.{FitsNode};
ghost use Rattle.scp_notices.specs.Texts.{notices_text};
ghost use Rattle.scp_notices.specs.Run.{IsRunFault};
ghost use Rattle.scp_notices.specs.Threads.{IsThreadsFault};
ghost use Rattle.scp_command.specs.Given.{IsGiven};
ghost use Rattle.scp_command.specs.Answers.{reports_text, placed_notice, applied_none, asks_report, is_silent as silent_by, silence_text, IsRunAnswer, IsThreadsAnswer, IsRunBy, IsAccountAnswer, IsThreadsAccount, IsAccountBy};
ghost use Rattle.scp_command.specs.Causes.{Fails};
ghost use Rattle.scp_command.specs.inside.Runs.{IsOfRun, IsUntold};

use crate::answer::Answer;
use crate::given::{Given, given_by, of_play, of_unread, place_of};
use scp_account::{
    KeepingWatch, Kept, Mode as Way, Steps, a_run_is_kept_as_it_happened, account as account_text,
    reports_left, sets_of,
};
use scp_convert::below::prompt::{Failure, Mode, Shape, Task};
use scp_notices::below::gather::NodeReport;
use scp_notices::below::node::Node;
use scp_notices::below::report::{
    Report, json_report, reports_of as all_records, settled_report, text_report,
};
use scp_notices::{
    Notice, PlayFault, Ran, RanInThreads, RunFault, Watched, run as run_script, run_in_threads,
    run_watched, text_of_notices,
};
use scp_script_hints::below::script::{Command, count_of_nodes};
use scp_script_short::Expanded;
use scp_script_short::below::types::Fault;
use std::alloc::{AllocError, Global};
use std::sync::Wait;
use std::thread::Threads;

/// The reports of nodes, and whether there is nothing to tell of these nodes.
#[derive(Drop)]
struct Reported {
    text: String,
    silent: bool,
}

/// Whether no node applied a slot.
fn applied_nothing(reports: &[Report<'_>]) -> bool
    ensures { result ≡ list_all applied_none (map view_of reports.now) }
{
    reports.iter().all(|report| report.applied.is_empty())
}

/// Whether a command asks for a report.
fn ask_for_reports(commands: &[Command]) -> bool
    ensures { result ≡ list_any asks_report commands.now }
{
    commands
        .iter()
        .any(|command| matches!(command, Command::Report(_)))
}

/// Whether there are nodes, of which none applied a slot, and no command asks for a report.
fn is_silent(reports: &[Report<'_>], commands: &[Command]) -> bool
    ensures { result ≡ silent_by (map view_of reports.now) commands.now }
{
    !reports.is_empty() && applied_nothing(reports) && !ask_for_reports(commands)
}

/// The reports that the commands ask for, in this form, from the records of the nodes.
fn shaped(
    alloc: Global,
    shape: Shape,
    reports: &[Report<'_>],
    commands: &[Command],
) -> Result<String, Fault>
    requires names { All NamesNodes commands.now }
    ensures text { IfOk result (λ text. string_bytes text ≡ reports_text shape (map view_of reports.now) commands.now) }
    ensures only_memory { IsOkUnless result Fault.NoMemory }
{
    match shape {
        Shape::Settled => Ok(settled_report(alloc, reports, commands)?),
        Shape::Text => text_report(alloc, reports, commands),
        Shape::Json => json_report(alloc, reports, commands),
    }
}

/// The reports that the commands ask for, and whether there is nothing to tell.
fn reports_with(
    alloc: Global,
    shape: Shape,
    reports: &[Report<'_>],
    commands: &[Command],
) -> Result<Reported, Fault>
    requires names { All NamesNodes commands.now }
    ensures text { IfOk result (λ told. string_bytes told.text ≡ reports_text shape (map view_of reports.now) commands.now) }
    ensures silent { IfOk result (λ told. told.silent ≡ silent_by (map view_of reports.now) commands.now) }
    ensures only_memory { IsOkUnless result Fault.NoMemory }
{
    let silent = is_silent(reports, commands);
    let text = shaped(alloc, shape, reports, commands)?;
    Ok(Reported { text, silent })
}

/// The reports of nodes that were played one step after another.
fn reports_of(
    alloc: Global,
    shape: Shape,
    nodes: &[Node],
    commands: &[Command],
) -> Result<Reported, Fault>
    requires names { All NamesNodes commands.now }
    requires few { length nodes.now ≤ NODE_LIMIT }
    ensures text { IfOk result (λ told. string_bytes told.text ≡ reports_text shape (records_of nodes.now) commands.now) }
    ensures silent { IfOk result (λ told. told.silent ≡ silent_by (records_of nodes.now) commands.now) }
    ensures only_memory { IsOkUnless result Fault.NoMemory }
{
    let reports = all_records(alloc, nodes)?;
    let told = reports_with(alloc, shape, reports.as_slice(), commands)?;
    Ok(told)
}

/// The reports of nodes that ran in threads.
fn reports_gathered(
    alloc: Global,
    shape: Shape,
    nodes: &[NodeReport],
    commands: &[Command],
) -> Result<Reported, Fault>
    requires names { All NamesNodes commands.now }
    requires admitted { AreAdmitted [] commands.now }
    requires total { length nodes.now ≡ node_count commands.now }
    requires few { length nodes.now ≤ NODE_LIMIT }
    ensures text { IfOk result (λ told. string_bytes told.text ≡ reports_text shape (records_left commands.now nodes.now []) commands.now) }
    ensures silent { IfOk result (λ told. told.silent ≡ silent_by (records_left commands.now nodes.now []) commands.now) }
    ensures only_memory { IsOkUnless result Fault.NoMemory }
{
    let sets = sets_of(alloc, commands)?;
    let reports = reports_left(alloc, commands, sets.as_slice(), nodes, &[])?;
    let told = reports_with(alloc, shape, reports.as_slice(), commands)?;
    Ok(told)
}

/// A notice with the line of the input, in place of the line of the expanded script.
fn placed_of(expanded: &Expanded, notice: Notice) -> Notice
    ensures { result ≡ placed_notice expanded.now.lines notice }
{
    match notice {
        Notice::Unsettled { line, rounds } => Notice::Unsettled {
            line: place_of(expanded, line),
            rounds,
        },
        Notice::GaveUp { line } => Notice::GaveUp {
            line: place_of(expanded, line),
        },
        Notice::Ignored { line, why } => Notice::Ignored {
            line: place_of(expanded, line),
            why,
        },
        other => other,
    }
}

/// The notices, each with the line of the input.
fn placed_notices(
    alloc: Global,
    expanded: &Expanded,
    notices: Vec<Notice>,
) -> Result<Vec<Notice>, AllocError>
    ensures { IfOk result (λ out. out.items ≡ map (placed_notice expanded.now.lines) notices.items) }
{
    let mut out = Vec::new(alloc);
    for notice in notices {
        out.push(placed_of(expanded, notice))?;
    }
    Ok(out)
}

/// The text of the notices, with the line numbers of the input.
fn lines_of_notices(
    alloc: Global,
    expanded: &Expanded,
    notices: Vec<Notice>,
) -> Result<String, AllocError>
    ensures { IfOk result (λ text. string_bytes text ≡ notices_text (map (placed_notice expanded.now.lines) notices.items)) }
{
    let placed = placed_notices(alloc, expanded, notices)?;
    let text = text_of_notices(alloc, placed.as_slice())?;
    Ok(text)
}

/// The answer made of these reports and notices.
fn answer_of(
    alloc: Global,
    expanded: &Expanded,
    reports: Result<String, Fault>,
    notices: Vec<Notice>,
) -> Result<Answer, Failure>
    ensures text { IfOk result (λ answer. IfOk reports (λ text. answer.text.items ≡ string_bytes text)) }
    ensures made { IfOk result (λ _. IsOk reports) }
    ensures notices { IfOk result (λ answer. string_bytes answer.notices ≡ notices_text (map (placed_notice expanded.now.lines) notices.items)) }
    ensures cause { IfErr result (λ failure. failure ≡ Failure.NoMemory) }
{
    match (reports, lines_of_notices(alloc, expanded, notices)) {
        (Ok(text), Ok(notices)) => Ok(Answer {
            text: text.into_bytes(),
            notices,
        }),
        _ => Err(Failure::NoMemory),
    }
}

/// Adds the line that says where to look, if there is nothing to tell.
fn add_silence(notices: &mut String, silent: bool) -> Result<(), AllocError>
    ensures { OnOk result (string_bytes notices.new ≡ string_bytes notices.old ++ silence_text silent) }
{
    if silent {
        return notices.push_str(
            "silent: no node applied a slot, and no line asks for a report; see bowls stand, bowls check\n",
        );
    }
    Ok(())
}

/// The notices of a run, and the line that says where to look, if there is nothing to tell.
fn lines_of_run(
    alloc: Global,
    expanded: &Expanded,
    notices: Vec<Notice>,
    silent: bool,
) -> Result<String, AllocError>
    ensures { IfOk result (λ text. string_bytes text ≡ notices_text (map (placed_notice expanded.now.lines) notices.items) ++ silence_text silent) }
{
    let mut text = lines_of_notices(alloc, expanded, notices)?;
    add_silence(&mut text, silent)?;
    Ok(text)
}

/// The answer made of these reports and the notices of their run.
fn answer_of_run(
    alloc: Global,
    expanded: &Expanded,
    told: Result<Reported, Fault>,
    notices: Vec<Notice>,
) -> Result<Answer, Failure>
    ensures text { IfOk result (λ answer. IfOk told (λ told. answer.text.items ≡ string_bytes told.text)) }
    ensures made { IfOk result (λ _. IsOk told) }
    ensures notices { IfOk result (λ answer. IfOk told (λ told. string_bytes answer.notices ≡ notices_text (map (placed_notice expanded.now.lines) notices.items) ++ silence_text told.silent)) }
    ensures cause { IfErr result (λ failure. failure ≡ Failure.NoMemory) }
{
    let Ok(Reported { text, silent }) = told else {
        return Err(Failure::NoMemory);
    };
    match lines_of_run(alloc, expanded, notices, silent) {
        Ok(notices) => Ok(Answer {
            text: text.into_bytes(),
            notices,
        }),
        Err(_) => Err(Failure::NoMemory),
    }
}

/// Why a script wasn't played to its end.
fn of_fault(expanded: &Expanded, fault: RunFault) -> Failure
    ensures { IsOfRun expanded.now fault result }
{
    match fault {
        RunFault::Unread(fault) => of_unread(expanded, fault),
        RunFault::Stopped { line, fault } => of_play(Some(place_of(expanded, line)), fault),
        RunFault::GivenUp(fault) => of_play(None, fault),
    }
}

/// Why a script wasn't played one step after another.
fn of_run(given: &Given, fault: RunFault) -> Failure
    ensures { (input : List ℕ) → (shape : Shape) → IsGiven input given.now → IsRunFault given.now.text.items fault → Fails (Task.Run Mode.Serial shape) input result }
{
    of_fault(&given.expanded, fault)
}

/// Why a script wasn't played in threads.
fn of_threads(given: &Given, fault: RunFault) -> Failure
    ensures { (input : List ℕ) → (shape : Shape) → IsGiven input given.now → IsThreadsFault given.now.text.items fault → Fails (Task.Run Mode.Threads shape) input result }
{
    of_fault(&given.expanded, fault)
}

/// The reports of a script that is played one step after another.
fn run_serial(alloc: Global, shape: Shape, given: &Given) -> Result<Answer, Failure>
    ensures answer { (input : List ℕ) → IsGiven input given.now → IfOk result (IsRunAnswer shape input) }
    ensures cause { (input : List ℕ) → IsGiven input given.now → IfErr result (Fails (Task.Run Mode.Serial shape) input) }
{
    let ran = match run_script(alloc, given.text.as_slice()) {
        Ok(ran) => ran,
        Err(fault) => return Err(of_run(given, fault)),
    };
    let Ran {
        script,
        network,
        notices,
    } = ran;
    let reports = reports_of(alloc, shape, network.nodes(), script.commands.as_slice());
    answer_of_run(alloc, &given.expanded, reports, notices)
}

/// The reports of a script whose nodes run in threads.
fn run_threads<T: Threads + Wait + Sync>(
    rt: &T,
    alloc: Global,
    shape: Shape,
    given: &Given,
) -> Result<Answer, Failure>
    ensures answer { (input : List ℕ) → IsGiven input given.now → IfOk result (IsThreadsAnswer shape input) }
    ensures cause { (input : List ℕ) → IsGiven input given.now → IfErr result (Fails (Task.Run Mode.Threads shape) input) }
{
    let ran = match run_in_threads(rt, alloc, given.text.as_slice(), false) {
        Ok(ran) => ran,
        Err(fault) => return Err(of_threads(given, fault)),
    };
    let RanInThreads {
        script,
        reports,
        notices,
    } = ran;
    let commands = script.commands.as_slice();
    let _count = count_of_nodes(commands);
    let told = reports_gathered(alloc, shape, reports.as_slice(), commands);
    answer_of_run(alloc, &given.expanded, told, notices)
}

/// The reports of a script that is played in this mode, with the notices of its run.
pub fn run<T: Threads + Wait + Sync>(
    rt: &T,
    alloc: Global,
    mode: Mode,
    shape: Shape,
    text: &[u8],
) -> Result<Answer, Failure>
    ensures answer { IfOk result (IsRunBy mode shape text.now) }
    ensures cause { IfErr result (Fails (Task.Run mode shape) text.now) }
{
    let given = given_by(alloc, text)?;
    match mode {
        Mode::Serial => run_serial(alloc, shape, &given),
        Mode::Threads => run_threads(rt, alloc, shape, &given),
    }
}

/// The account of nodes that took one step after another, from what was kept of them.
fn played_account(alloc: Global, nodes: &[Node], kept: &[Kept]) -> Result<String, Fault>
    requires few { length nodes.now ≤ NODE_LIMIT }
    ensures account { IfOk result (λ text. string_bytes text ≡ accounted ways.Serial (records_of nodes.now) kept.now) }
    ensures only_memory { All FitsNode (records_of nodes.now) → IsOkUnless result Fault.NoMemory }
{
    let reports = all_records(alloc, nodes)?;
    let text = account_text(alloc, Way::Serial, reports.as_slice(), kept)?;
    Ok(text)
}

/// The account of nodes, from what was kept of them.
fn account_of(alloc: Global, nodes: &[Node], kept: &[Kept]) -> Result<String, Failure>
    requires few { length nodes.now ≤ NODE_LIMIT }
    ensures account { IfOk result (λ text. string_bytes text ≡ accounted ways.Serial (records_of nodes.now) kept.now) }
    ensures cause { IfErr result (IsUntold (records_of nodes.now)) }
{
    match played_account(alloc, nodes, kept) {
        Ok(text) => Ok(text),
        Err(fault) => Err(of_play(None, PlayFault::from(fault))),
    }
}

/// The account of a script that is played one step after another. All that happens is kept for it.
fn account_serial(alloc: Global, given: &Given) -> Result<Answer, Failure>
    ensures answer { (input : List ℕ) → IsGiven input given.now → IfOk result (IsAccountAnswer input) }
    ensures cause { (input : List ℕ) → IsGiven input given.now → IfErr result (Fails (Task.Account Mode.Serial) input) }
{
    let steps = Steps {
        watch: KeepingWatch::new(alloc),
    };
    let watched = match run_watched(alloc, given.text.as_slice(), steps) {
        Ok(watched) => watched,
        Err(fault) => return Err(of_run(given, fault)),
    };
    let Watched { ran, watch } = watched;
    let Steps { watch } = watch;
    if watch.lacks_memory() {
        return Err(Failure::NoMemory);
    }
    a_run_is_kept_as_it_happened();
    let kept = watch.into_kept();
    match account_of(alloc, ran.network.nodes(), kept.as_slice()) {
        Ok(text) => answer_of(alloc, &given.expanded, Ok(text), ran.notices),
        Err(failure) => Err(failure),
    }
}

/// The account of nodes that left this.
fn left_account(alloc: Global, commands: &[Command], nodes: &[NodeReport]) -> Result<String, Fault>
    requires names { All NamesNodes commands.now }
    requires admitted { AreAdmitted [] commands.now }
    requires total { length nodes.now ≡ node_count commands.now }
    requires few { length nodes.now ≤ NODE_LIMIT }
    ensures account { IfOk result (λ text. string_bytes text ≡ accounted ways.Threads (records_left commands.now nodes.now []) []) }
    ensures only_memory { All FitsNode (records_left commands.now nodes.now []) → IsOkUnless result Fault.NoMemory }
{
    let sets = sets_of(alloc, commands)?;
    let reports = reports_left(alloc, commands, sets.as_slice(), nodes, &[])?;
    let text = account_text(alloc, Way::Threads, reports.as_slice(), &[])?;
    Ok(text)
}

/// The account of what the threads of the nodes of a script left.
fn gathered_account(
    alloc: Global,
    commands: &[Command],
    nodes: &[NodeReport],
) -> Result<String, Failure>
    requires names { All NamesNodes commands.now }
    requires admitted { AreAdmitted [] commands.now }
    requires total { length nodes.now ≡ node_count commands.now }
    requires few { length nodes.now ≤ NODE_LIMIT }
    ensures account { IfOk result (λ text. string_bytes text ≡ accounted ways.Threads (records_left commands.now nodes.now []) []) }
    ensures cause { IfErr result (IsUntold (records_left commands.now nodes.now [])) }
{
    match left_account(alloc, commands, nodes) {
        Ok(text) => Ok(text),
        Err(fault) => Err(of_play(None, PlayFault::from(fault))),
    }
}

/// The account of a script whose nodes run in threads.
fn account_threads<T: Threads + Wait + Sync>(
    rt: &T,
    alloc: Global,
    given: &Given,
) -> Result<Answer, Failure>
    ensures answer { (input : List ℕ) → IsGiven input given.now → IfOk result (IsThreadsAccount input) }
    ensures cause { (input : List ℕ) → IsGiven input given.now → IfErr result (Fails (Task.Account Mode.Threads) input) }
{
    let ran = match run_in_threads(rt, alloc, given.text.as_slice(), true) {
        Ok(ran) => ran,
        Err(fault) => return Err(of_threads(given, fault)),
    };
    let RanInThreads {
        script,
        reports,
        notices,
    } = ran;
    let commands = script.commands.as_slice();
    let _count = count_of_nodes(commands);
    match gathered_account(alloc, commands, reports.as_slice()) {
        Ok(text) => answer_of(alloc, &given.expanded, Ok(text), notices),
        Err(failure) => Err(failure),
    }
}

/// The account of a script that is played in this mode, with the notices of its run.
pub fn account<T: Threads + Wait + Sync>(
    rt: &T,
    alloc: Global,
    mode: Mode,
    text: &[u8],
) -> Result<Answer, Failure>
    ensures answer { IfOk result (IsAccountBy mode text.now) }
    ensures cause { IfErr result (Fails (Task.Account mode) text.now) }
{
    let given = given_by(alloc, text)?;
    match mode {
        Mode::Serial => account_serial(alloc, &given),
        Mode::Threads => account_threads(rt, alloc, &given),
    }
}
