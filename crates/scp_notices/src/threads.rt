//! Playing a script in threads, with notices of what would otherwise pass in silence.
ghost use Rattle.std.specs.Prelude.{◌≡◌, ◌≢◌, ◌≤◌, ◌++◌, [], All, OnOk, IfOk, IfErr, IsOkUnless, length, map};
ghost use Rattle.std.specs.List.{list_any};
ghost use Rattle.scp_line.specs.scp_types.specs.declared.limits.TheConstants.{NODE_LIMIT};
ghost use Rattle.scp_line.specs.scp_apply.specs.Applied.{AreInOrder};
ghost use Rattle.scp_line.specs.scp_script.specs.Script.{AreAdmitted, node_count};
ghost use Rattle.scp_line.specs.scp_script.specs.Nodes.{NamesNodes};
ghost use Rattle.scp_line.specs.Headlines.{AreReportsHeadlined};
ghost use Rattle.scp_line.specs.Nodes.{HaveRoom};
ghost use Rattle.scp_line.specs.scp_report.specs.Report.{view_of};
ghost use Rattle.scp_line.specs.Left.{reports_left as records_left};
ghost use Rattle.scp_line.specs.scp_threaded_script.specs.Reported.{AreAllKept};
ghost use Rattle.scp_notices.specs.Ignoring.{told_by};
ghost use Rattle.scp_notices.specs.Threads.{told_in, is_wait, no_wait, gave_up_at, gave_up, threads_notices, ShowsThreads, IsRanInThreads, IsThreadsFault};
ghost use Rattle.scp_notices.specs.inside.Threads.{ended_by, IsEnding};

use crate::commands::Told;
use crate::nodes::add_nodes;
use crate::notice::Notice;
use crate::playing::RunFault;
use scp_line::below::gather::{NodeReport, what_is_reported_keeps_the_headline};
use scp_line::below::node::{CommandFate, KvDriver};
use scp_line::below::script::{Command, count_of_nodes};
use scp_line::below::types::Fault;
use scp_line::{
    PlayFault, Report, a_script_has_room, each_fate_is_of_its_command, reports_left,
    run_in_threads as play_in_threads, sets_of, what_is_played_keeps_the_headlines,
};
use scp_script_check::{ReadFault, Script, read};
use std::alloc::{AllocError, Global};
use std::sync::Wait;
use std::thread::Threads;

/// A script that was played in threads to its end, the reports of its nodes, and notices of what would otherwise have passed in silence.
#[derive(Drop)]
pub struct RanInThreads {
    pub script: Script,
    /// The reports of the nodes, node 1 first.
    pub reports: Vec<NodeReport>,
    /// In the order of their kinds: `wait` lines that gave up, lines whose commands did nothing, slots for which nodes applied different
    /// values, links whose own statements were lost, and that there is no `wait` line.
    pub notices: Vec<Notice>,
}

/// Whether one of the commands is a `wait` line.
fn waits(commands: &[Command]) -> bool
    ensures { result ≡ list_any is_wait commands.now }
{
    for command in commands {
        if matches!(command, Command::Wait { .. }) {
            return true;
        }
    }
    false
}

/// Adds a notice, if no command is a `wait` line.
fn add_no_wait(out: &mut Vec<Notice>, commands: &[Command]) -> Result<(), AllocError>
    ensures { OnOk result (out.new.items ≡ out.old.items ++ no_wait commands.now) }
{
    if !waits(commands) {
        out.push(Notice::NoWait)?;
    }
    Ok(())
}

/// Adds a notice for the line of the command at this place.
fn add_gave_up_at(out: &mut Vec<Notice>, lines: &[usize], place: usize) -> Result<(), AllocError>
    ensures { OnOk result (out.new.items ≡ out.old.items ++ gave_up_at lines.now place) }
{
    if place < lines.len() {
        out.push(Notice::GaveUp { line: lines[place] })?;
    }
    Ok(())
}

/// Adds a notice for the line of each of these places among the commands.
fn add_gave_up(out: &mut Vec<Notice>, lines: &[usize], places: &[usize]) -> Result<(), AllocError>
    ensures { OnOk result (out.new.items ≡ out.old.items ++ gave_up lines.now places.now) }
{
    for place in places {
        add_gave_up_at(out, lines, *place)?;
    }
    Ok(())
}

/// Adds what a node reported of its commands.
fn add_told(told: &mut Vec<Told>, node: u8, fates: &[CommandFate]) -> Result<(), AllocError>
    ensures { OnOk result (told.new.items ≡ told.old.items ++ told_by node fates.now) }
{
    for fate in fates {
        told.push(Told { node, fate: *fate })?;
    }
    Ok(())
}

/// What the nodes reported of their commands, node 1 first.
fn told_of(alloc: Global, reports: &[Report<'_>]) -> Result<Vec<Told>, AllocError>
    requires few { length reports.now ≤ NODE_LIMIT }
    ensures { IfOk result (λ told. told.items ≡ told_in (map view_of reports.now)) }
{
    let mut told = Vec::new(alloc);
    let mut number: u8 = 1;
    for report in reports {
        add_told(&mut told, number, report.commands)?;
        number += 1;
    }
    Ok(told)
}

/// The notices of what would otherwise pass in silence.
fn notices_of(
    alloc: Global,
    script: &Script,
    nodes: &[NodeReport],
    places: &[usize],
    losses: &[Vec<u64>],
) -> Result<Vec<Notice>, Fault>
    requires names { All NamesNodes script.now.commands.items }
    requires admitted { AreAdmitted [] script.now.commands.items }
    requires count { length script.now.lines.items ≡ length script.now.commands.items }
    requires total { length nodes.now ≡ node_count script.now.commands.items }
    requires few { length nodes.now ≤ NODE_LIMIT }
    requires in_order { All (λ node. AreInOrder 1 node.applied.items) nodes.now }
    ensures notices { IfOk result (λ notices. notices.items ≡ threads_notices script.now.commands.items script.now.lines.items (records_left script.now.commands.items nodes.now (map (λ row. row.items) losses.now)) places.now) }
    ensures only_memory { IsOkUnless result Fault.NoMemory }
{
    let commands = script.commands.as_slice();
    let lines = script.lines.as_slice();
    let sets = sets_of(alloc, commands)?;
    let reports = reports_left(alloc, commands, sets.as_slice(), nodes, losses)?;
    let records = reports.as_slice();
    let told = told_of(alloc, records)?;
    let mut notices = Vec::new(alloc);
    add_gave_up(&mut notices, lines, places)?;
    add_nodes(&mut notices, commands, lines, told.as_slice(), records)?;
    add_no_wait(&mut notices, commands)?;
    Ok(notices)
}

/// Why a script wasn't played to its end in threads.
fn ended(fault: PlayFault) -> RunFault
    ensures { result ≡ ended_by fault }
{
    match fault.fault {
        Fault::NoMemory => RunFault::Unread(ReadFault::NoMemory),
        _ => RunFault::GivenUp(fault),
    }
}

/// Plays a script without a bad line.
fn played<T: Threads + Wait + Sync>(
    rt: &T,
    alloc: Global,
    script: Script,
    keeps: bool,
) -> Result<RanInThreads, RunFault>
    requires names { All NamesNodes script.commands.items }
    requires admitted { AreAdmitted [] script.commands.items }
    requires count { length script.lines.items ≡ length script.commands.items }
    requires room { HaveRoom script.commands.items }
    ensures same { IfOk result (λ ran. ran.script ≡ script) }
    ensures ran { IfOk result (λ ran. ShowsThreads script.commands.items script.lines.items ran.reports.items ran.notices.items) }
    ensures headline { IfOk result (λ ran. AreReportsHeadlined script.commands.items ran.reports.items) }
    ensures kept { IfOk result (λ ran. AreAllKept keeps ran.reports.items) }
    ensures ended { IfErr result (λ e. e ≢ RunFault.Unread ReadFault.NoMemory → IsEnding script.commands.items e) }
{
    let commands = script.commands.as_slice();
    let _count = count_of_nodes(commands);
    let ran = match play_in_threads(rt, alloc, commands, keeps) {
        Ok(ran) => ran,
        Err(fault) => return Err(ended(fault)),
    };
    what_is_reported_keeps_the_headline::<KvDriver>();
    what_is_played_keeps_the_headlines();
    each_fate_is_of_its_command();
    let notices = notices_of(
        alloc,
        &script,
        ran.reports.as_slice(),
        ran.gave_up.as_slice(),
        ran.losses.as_slice(),
    )?;
    Ok(RanInThreads {
        script,
        reports: ran.reports,
        notices,
    })
}

/// Plays a script, in hex digits or as text, with nodes whose stages run in threads, as `scp_line::play_in_threads` does.
/// Gives notices of what would otherwise pass in silence: `wait` lines that gave up, commands that did nothing, slots for which nodes applied
/// different values, own statements that were lost unsent, and that there is no `wait` line. Of how many were lost, only what the outboxes
/// count is claimed.
/// If `keeps` is set, each report has what came over each of its node's links.
pub fn run_in_threads<T: Threads + Wait + Sync>(
    rt: &T,
    alloc: Global,
    text: &[u8],
    keeps: bool,
) -> Result<RanInThreads, RunFault>
    // No line is bad, and these are the reports of its nodes. The notices are exactly those of these reports and of these lines, and each fate of
    // a command is that of its own line.
    ensures ran { IfOk result (λ ran. IsRanInThreads text.now ran.script ran.reports.items ran.notices.items) }
    // The headline holds for the report of each of its nodes; it says what matters most.
    ensures headline { IfOk result (λ ran. AreReportsHeadlined ran.script.commands.items ran.reports.items) }
    // Each report has what came over each of its node's links if `keeps` is set, and else over none.
    ensures kept { IfOk result (λ ran. AreAllKept keeps ran.reports.items) }
    // Each of its lines names nodes from 1 to 8.
    ensures names { IfOk result (λ ran. All NamesNodes ran.script.commands.items) }
    // Each line may follow those before it.
    ensures admitted { IfOk result (λ ran. AreAdmitted [] ran.script.commands.items) }
    // The text can't be read, memory ran out, or the nodes ended with a fault.
    ensures cause { IfErr result (IsThreadsFault text.now) }
{
    let script = match read(alloc, text) {
        Ok(script) => script,
        Err(fault) => return Err(RunFault::Unread(fault)),
    };
    a_script_has_room();
    played(rt, alloc, script, keeps)
}
