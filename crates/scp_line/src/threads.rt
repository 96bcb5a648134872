//! Playing a script with nodes whose stages run in threads.
ghost use Rattle.std.specs.Prelude.{◌≡◌, ◌≢◌, ◌⊎◌, ◌≤◌, ◌<◌, ℕ, List, [], All, length, IfOk, IfErr, IfSome, IsOkUnless, OnOk, string_bytes};
ghost use Rattle.scp_turn.specs.scp_types.specs.declared.fault.Fault.TheVariants.{BadScript};
ghost use Rattle.scp_turn.specs.scp_types.specs.declared.fault.Stage.{Stage};
ghost use Rattle.scp_report.specs.scp_device.specs.Device.{Gains, GainsPart, Fails, IsAll};
ghost use Rattle.scp_report.specs.scp_script.specs.Script.{AreAdmitted, node_count, IsScript, IsBadLine, HasNoBadLine, HasSetLine};
ghost use Rattle.scp_report.specs.scp_script.specs.Nodes.{NamesNodes};
ghost use Rattle.scp_threaded_script.specs.Reported.{AreNodesReported, AreAllKept, IsGivenUp};
ghost use Rattle.scp_threaded_script.specs.Waits.{AreWaits};
ghost use Rattle.scp_line.specs.Left.{reports_left as records_left};
ghost use Rattle.scp_report.specs.Reports.{settled_text};
ghost use Rattle.scp_line.specs.Headlines.{AreGatheredHeadlined};
ghost use Rattle.scp_line.specs.Nodes.{HaveRoom};
ghost use Rattle.scp_line.specs.Play.{IsNamed};
ghost use Rattle.scp_line.specs.Threads.{AreGatheredReports, AreGivenUp, IsOfTheNodes, IsThreadsFault};

use crate::laws::what_is_played_keeps_the_headlines;
use crate::left::{reports_left, sets_of};
use crate::playing::PlayFault;
use scp_report::below::device::{ReportOut, ScriptIn, read_script, write_text};
use scp_report::below::script::{Command, count_of_nodes, parse};
use scp_report::settled_report;
use scp_threaded_script::below::ends::{Gate, Open};
use scp_threaded_script::{NodeFault, NodeReport, Ran, run_lines};
use scp_turn::below::types::{Fault, SCRIPT_LIMIT};
use std::alloc::Global;
use std::sync::Wait;
use std::thread::Threads;

impl From<NodeFault> for PlayFault {
    ghost from_gives = { λ e result. result ≡ record { fault = e.fault; node = e.node } };

    fn from(error: NodeFault) -> PlayFault {
        PlayFault {
            fault: error.fault,
            node: error.node,
        }
    }
}

/// Runs the nodes of a script in threads, as `play_in_threads` does. Returns their reports, node 1 first, the places of the `wait` lines that
/// gave up, counted among the commands, and how many own statements were lost.
/// If `keeps` is set, each report also has what came over each of its node's links. Refused as `play_in_threads` is, except for reading and
/// writing.
pub fn run_in_threads<T: Threads + Wait + Sync>(
    rt: &T,
    alloc: Global,
    commands: &[Command],
    keeps: bool,
) -> Result<Ran, PlayFault>
    requires names { All NamesNodes commands.now }
    requires admitted { AreAdmitted [] commands.now }
    requires room { HaveRoom commands.now }
    ensures reported { IfOk result (λ ran. AreNodesReported commands.now ran.reports.items) }
    ensures waits { IfOk result (λ ran. AreWaits commands.now 0 ran.gave_up.items) }
    ensures losses { IfOk result (λ ran. length ran.losses.items ≡ node_count commands.now) }
    ensures kept { IfOk result (λ ran. AreAllKept keeps ran.reports.items) }
    ensures given_up { IfErr result (λ e. IsGivenUp commands.now (record { fault = e.fault; node = e.node })) }
{
    match run_lines(rt, &Open, alloc, commands, keeps) {
        Ok(ran) => Ok(ran),
        Err(fault) => Err(PlayFault::from(fault)),
    }
}

/// The reports that the lines ask for, in the order of the lines, of nodes that left this. The only refusal is `NoMemory`.
fn left_reports(alloc: Global, commands: &[Command], nodes: &[NodeReport]) -> Result<String, Fault>
    requires names { All NamesNodes commands.now }
    requires admitted { AreAdmitted [] commands.now }
    requires count { length nodes.now ≡ node_count commands.now }
    ensures text { IfOk result (λ text. string_bytes text ≡ settled_text (records_left commands.now nodes.now []) commands.now) }
    ensures only_memory { IsOkUnless result Fault.NoMemory }
{
    let _count = count_of_nodes(commands);
    let sets = sets_of(alloc, commands)?;
    let reports = reports_left(alloc, commands, sets.as_slice(), nodes, &[])?;
    let text = settled_report(alloc, reports.as_slice(), commands)?;
    Ok(text)
}

/// All that a script prints.
#[tactic(auto, using(crate::proofs::Threaded::given_up_script, crate::proofs::Threaded::given_up_cause, crate::proofs::Threaded::given_up_named, crate::proofs::Threaded::given_up_not_device, crate::proofs::Threaded::given_up_not_long, crate::proofs::Threaded::given_up_not_bad))]
fn played<T: Threads + Wait + Sync, G: Gate + Sync>(
    rt: &T,
    gate: &G,
    alloc: Global,
    text: &[u8],
) -> Result<String, PlayFault>
    ensures script { OnOk result (IsScript text.now) }
    ensures reports { IfOk result (λ printed. AreGatheredReports text.now (string_bytes printed)) }
    ensures headline { IfOk result (λ printed. AreGatheredHeadlined text.now (string_bytes printed)) }
    ensures device { IfErr result (λ e. e.fault ≢ Fault.Device) }
    ensures short { IfErr result (λ e. e.fault ≢ Fault.TooLong) }
    ensures memory { IfErr result (λ e. e.fault ≡ Fault.NoMemory → HasNoBadLine text.now ⊎ HasSetLine text.now) }
    ensures line { IfErr result (λ e. (line : ℕ) → e.fault ≡ BadScript line → IsBadLine text.now line) }
    ensures named { IfErr result (λ e. IsNamed e.node e.fault) }
    ensures stage { IfErr result (λ e. (stage : Stage) → e.fault ≡ Fault.Refused stage → IsScript text.now) }
    ensures full { IfErr result (λ e. e.fault ≡ Fault.Full → IsScript text.now) }
    ensures given_up { IfErr result (λ e. IsOfTheNodes e.fault → AreGivenUp text.now e.node e.fault) }
    ensures cause { IfErr result (λ e. IsThreadsFault e.fault) }
{
    let script = parse(alloc, text)?;
    let commands = script.as_slice();
    let ran = run_lines(rt, gate, alloc, commands, false)?;
    let reports = ran.reports.as_slice();
    what_is_played_keeps_the_headlines();
    match left_reports(alloc, commands, reports) {
        Ok(printed) => Ok(printed),
        Err(_) => Err(PlayFault::from(Fault::NoMemory)),
    }
}

/// Plays a script as `play_in_threads` does. Each worker also calls the gate after each receive and before each send.
pub fn play_gated<T: Threads + Wait + Sync, G: Gate + Sync, R: ScriptIn, W: ReportOut>(
    rt: &T,
    gate: &G,
    alloc: Global,
    reader: &mut R,
    writer: &mut W,
) -> Result<(), PlayFault>
    // What was read is a script of at most 1,048,576 bytes. What was written is the reports of what its nodes' threads left.
    ensures reports { OnOk result ((script text : List ℕ) × IsAll (R.left reader.old) script × (length script ≤ SCRIPT_LIMIT) × IsScript script × AreGatheredReports script text × Gains (W.written writer.old) text (W.written writer.new)) }
    // The headline holds for each reported node; it says what matters most.
    ensures headline { OnOk result ((script text : List ℕ) × IsAll (R.left reader.old) script × AreGatheredHeadlined script text × Gains (W.written writer.old) text (W.written writer.new)) }
    // `Device` is returned only where the reader failed, and then nothing was written, or where the writer failed.
    ensures device { IfErr result (λ e. e.fault ≡ Fault.Device →
        (Fails (R.failures reader.old) (R.failures reader.new) × (writer.new ≡ writer.old)) ⊎ Fails (W.failures writer.old) (W.failures writer.new)) }
    // `TooLong` is returned only for a script over the limit.
    ensures too_long { IfErr result (λ e. e.fault ≡ Fault.TooLong → IfSome (R.left reader.old) (λ all. SCRIPT_LIMIT < length all)) }
    // Out of memory is returned only where nothing was read, or for a text within the limit that has no bad line or has a `set` line.
    ensures memory { IfErr result (λ e. e.fault ≡ Fault.NoMemory → (reader.new ≡ reader.old) ⊎ IfSome (R.left reader.old) (λ all. (length all ≤ SCRIPT_LIMIT) × (HasNoBadLine all ⊎ HasSetLine all))) }
    // `BadScript` names the first bad line of a text within the limit.
    ensures line { IfErr result (λ e. (line : ℕ) → e.fault ≡ BadScript line → IfSome (R.left reader.old) (λ all. (length all ≤ SCRIPT_LIMIT) × IsBadLine all line)) }
    // No other fault is returned.
    ensures cause { IfErr result (λ e. IsThreadsFault e.fault) }
    // A node is named exactly where one of its stages failed.
    ensures named { IfErr result (λ e. IsNamed e.node e.fault) }
    // A failed stage, or a mark without room, is returned only for a script.
    ensures stage { IfErr result (λ e. (stage : Stage) → e.fault ≡ Fault.Refused stage → IfSome (R.left reader.old) (λ all. (length all ≤ SCRIPT_LIMIT) × IsScript all)) }
    ensures full { IfErr result (λ e. e.fault ≡ Fault.Full → IfSome (R.left reader.old) (λ all. (length all ≤ SCRIPT_LIMIT) × IsScript all)) }
    // Which fault the nodes give, and for which node: the first stage that failed of the first node that has one, whatever else was wrong.
    ensures given_up { IfErr result (λ e. IsOfTheNodes e.fault → IfSome (R.left reader.old) (λ all. AreGivenUp all e.node e.fault)) }
    // After any refusal but `Device` nothing was written.
    ensures untouched { IfErr result (λ e. e.fault ≢ Fault.Device → writer.new ≡ writer.old) }
    // After a refusal nothing was written, or a first part of the reports.
    ensures part { IfErr result (λ e. (writer.new ≡ writer.old) ⊎ ((script text : List ℕ) × IsAll (R.left reader.old) script × IsScript script × AreGatheredReports script text × GainsPart (W.written writer.old) text (W.written writer.new))) }
    // A failure is reported only as `Device`, and no call is made after one.
    ensures hidden { IfErr result (λ e. e.fault ≢ Fault.Device → R.failures reader.new ≡ R.failures reader.old) }
    ensures stopped { IfErr result (λ e. (writer.new ≡ writer.old) ⊎ Fails (W.failures writer.old) (W.failures writer.new)) }
    ensures kept { OnOk result ((R.failures reader.new ≡ R.failures reader.old) × (W.failures writer.new ≡ W.failures writer.old)) }
{
    let script = read_script(alloc, reader)?;
    let text = played(rt, gate, alloc, script.as_slice())?;
    Ok(write_text(writer, text.as_str())?)
}

/// Plays a script with nodes whose stages run in threads. Reads the script whole, does what its lines say, one after the other, ends every
/// thread, and then writes the reports that the lines ask for.
/// A `wait` sleeps until its node's applier has received that many things, or has received nothing for a quarter of a second. Then it yields,
/// at most 1,000,000 times. `settle` does nothing.
/// Refused as `check` refuses. If a stage failed, by `Refused` with the first stage that failed of the first such node, which is named. Else
/// by `Full`, where a mark of a link had no room after 1,000,000 yields; by `NotOpen`, where a link wasn't left as the lines say; and by
/// `NoMemory`, also where only the courier of an outbox failed.
pub fn play_in_threads<T: Threads + Wait + Sync, R: ScriptIn, W: ReportOut>(
    rt: &T,
    alloc: Global,
    reader: &mut R,
    writer: &mut W,
) -> Result<(), PlayFault>
    // What was read is a script of at most 1,048,576 bytes. What was written is the reports of what its nodes' threads left.
    ensures reports { OnOk result ((script text : List ℕ) × IsAll (R.left reader.old) script × (length script ≤ SCRIPT_LIMIT) × IsScript script × AreGatheredReports script text × Gains (W.written writer.old) text (W.written writer.new)) }
    // The headline holds for each reported node; it says what matters most.
    ensures headline { OnOk result ((script text : List ℕ) × IsAll (R.left reader.old) script × AreGatheredHeadlined script text × Gains (W.written writer.old) text (W.written writer.new)) }
    // `Device` is returned only where the reader failed, and then nothing was written, or where the writer failed.
    ensures device { IfErr result (λ e. e.fault ≡ Fault.Device →
        (Fails (R.failures reader.old) (R.failures reader.new) × (writer.new ≡ writer.old)) ⊎ Fails (W.failures writer.old) (W.failures writer.new)) }
    // `TooLong` is returned only for a script over the limit.
    ensures too_long { IfErr result (λ e. e.fault ≡ Fault.TooLong → IfSome (R.left reader.old) (λ all. SCRIPT_LIMIT < length all)) }
    // Out of memory is returned only where nothing was read, or for a text within the limit that has no bad line or has a `set` line.
    ensures memory { IfErr result (λ e. e.fault ≡ Fault.NoMemory → (reader.new ≡ reader.old) ⊎ IfSome (R.left reader.old) (λ all. (length all ≤ SCRIPT_LIMIT) × (HasNoBadLine all ⊎ HasSetLine all))) }
    // `BadScript` names the first bad line of a text within the limit.
    ensures line { IfErr result (λ e. (line : ℕ) → e.fault ≡ BadScript line → IfSome (R.left reader.old) (λ all. (length all ≤ SCRIPT_LIMIT) × IsBadLine all line)) }
    // No other fault is returned.
    ensures cause { IfErr result (λ e. IsThreadsFault e.fault) }
    // A node is named exactly where one of its stages failed.
    ensures named { IfErr result (λ e. IsNamed e.node e.fault) }
    // A failed stage, or a mark without room, is returned only for a script.
    ensures stage { IfErr result (λ e. (stage : Stage) → e.fault ≡ Fault.Refused stage → IfSome (R.left reader.old) (λ all. (length all ≤ SCRIPT_LIMIT) × IsScript all)) }
    ensures full { IfErr result (λ e. e.fault ≡ Fault.Full → IfSome (R.left reader.old) (λ all. (length all ≤ SCRIPT_LIMIT) × IsScript all)) }
    // Which fault the nodes give, and for which node: the first stage that failed of the first node that has one, whatever else was wrong.
    ensures given_up { IfErr result (λ e. IsOfTheNodes e.fault → IfSome (R.left reader.old) (λ all. AreGivenUp all e.node e.fault)) }
    // After any refusal but `Device` nothing was written.
    ensures untouched { IfErr result (λ e. e.fault ≢ Fault.Device → writer.new ≡ writer.old) }
    // After a refusal nothing was written, or a first part of the reports.
    ensures part { IfErr result (λ e. (writer.new ≡ writer.old) ⊎ ((script text : List ℕ) × IsAll (R.left reader.old) script × IsScript script × AreGatheredReports script text × GainsPart (W.written writer.old) text (W.written writer.new))) }
    // A failure is reported only as `Device`, and no call is made after one.
    ensures hidden { IfErr result (λ e. e.fault ≢ Fault.Device → R.failures reader.new ≡ R.failures reader.old) }
    ensures stopped { IfErr result (λ e. (writer.new ≡ writer.old) ⊎ Fails (W.failures writer.old) (W.failures writer.new)) }
    ensures kept { OnOk result ((R.failures reader.new ≡ R.failures reader.old) × (W.failures writer.new ≡ W.failures writer.old)) }
{
    play_gated(rt, &Open, alloc, reader, writer)
}
