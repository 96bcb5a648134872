//! Playing a script, with notices of what would otherwise pass in silence.
ghost use Rattle.std.specs.Prelude.{◌≡◌, ◌≢◌, ◌≤◌, ◌++◌, [], All, OnOk, IfOk, IfErr, IsOkUnless, length};
ghost use Rattle.scp_line.specs.scp_types.specs.declared.limits.TheConstants.{NODE_LIMIT};
ghost use Rattle.scp_line.specs.scp_apply.specs.Applied.{AreInOrder};
ghost use Rattle.scp_line.specs.scp_script.specs.Script.{AreAdmitted};
ghost use Rattle.scp_line.specs.scp_script.specs.Nodes.{NamesNodes};
ghost use Rattle.scp_line.specs.Headlines.{AreNodesHeadlined};
ghost use Rattle.scp_line.specs.Nodes.{HaveRoom};
ghost use Rattle.scp_line.specs.Player.{lining};
ghost use Rattle.scp_line.specs.scp_report.specs.Node.{reports_of as records_of};
ghost use Rattle.scp_notices.specs.Run.{unsettled, run_notices, IsRan, IsWatched, IsRunFault};
ghost use Rattle.scp_notices.specs.inside.Playing.{stop_of, IsStop, ShowsBoth};
ghost use Rattle.scp_line.specs.scp_device.specs.declared.bad.ReadFault.TheVariants as reads;
ghost use Rattle.scp_notices.specs.declared.playing.RunFault.TheVariants.{Unread};

use crate::commands::Told;
use crate::nodes::add_nodes;
use crate::notice::Notice;
use crate::watch::CommandWatch;
use scp_line::below::node::{KvDriver, each_node_holds_its_ledger};
use scp_line::below::turn::Network;
use scp_line::below::types::{Fault, ROUND_LIMIT};
use scp_line::{
    Both, LineWatch, Nobody, PlayFault, a_script_has_room, each_fate_is_of_its_command,
    new_network, play_lines, reports_of, what_is_played_keeps_the_headlines,
};
use scp_script_check::{ReadFault, Script, read};
use std::alloc::{AllocError, AllocFailed, Global};

/// Why a script wasn't played to its end.
#[derive(Clone, Copy, Debug, PartialEq, Eq)]
pub enum RunFault {
    /// The script couldn't be read. Out of memory while it is played is also reported so.
    Unread(ReadFault),
    /// This line wasn't done: a node failed in it, or a queue had no room for its event even after a settle.
    Stopped { line: usize, fault: PlayFault },
    /// The nodes, which ran in threads, ended with a fault.
    GivenUp(PlayFault),
}

impl From<AllocError> for RunFault {
    ghost from_gives = { λ _ e. e ≡ Unread reads.NoMemory };

    fn from(_e: AllocError) -> RunFault {
        RunFault::Unread(ReadFault::NoMemory)
    }
}

impl<T: Drop> From<AllocFailed<T>> for RunFault {
    ghost from_gives = { λ _ e. e ≡ Unread reads.NoMemory };

    fn from(_e: AllocFailed<T>) -> RunFault {
        RunFault::Unread(ReadFault::NoMemory)
    }
}

/// For calls whose only refusal is `NoMemory`.
impl From<Fault> for RunFault {
    ghost from_gives = { λ _ e. e ≡ Unread reads.NoMemory };

    fn from(_fault: Fault) -> RunFault {
        RunFault::Unread(ReadFault::NoMemory)
    }
}

/// A script that was played to its end, its nodes, and notices of what would otherwise have passed in silence.
#[derive(Drop)]
pub struct Ran {
    pub script: Script,
    /// The nodes, which played exactly the script's lines.
    pub network: Network,
    /// In the order of their kinds: lines that were cut off, lines whose commands did nothing, slots for which nodes applied different
    /// values, links whose own statements were lost.
    pub notices: Vec<Notice>,
}

/// A script that was played to its end, and the watch of its run.
#[derive(Drop)]
pub struct Watched<W> {
    pub ran: Ran,
    pub watch: W,
}

/// Why a script stopped in a line.
fn stopped(line: usize, fault: PlayFault) -> RunFault
    ensures { result ≡ stop_of line fault }
{
    match fault.fault {
        Fault::NoMemory => RunFault::Unread(ReadFault::NoMemory),
        _ => RunFault::Stopped { line, fault },
    }
}

/// Adds a notice for each of the lines that were cut off.
fn add_unsettled(out: &mut Vec<Notice>, cut: &[usize]) -> Result<(), AllocError>
    ensures { OnOk result (out.new.items ≡ out.old.items ++ unsettled cut.now) }
{
    for line in cut {
        out.push(Notice::Unsettled {
            line: *line,
            rounds: ROUND_LIMIT,
        })?;
    }
    Ok(())
}

/// The notices of what would otherwise pass in silence.
fn notices_of(
    alloc: Global,
    script: &Script,
    network: &Network,
    told: &[Told],
    cut: &[usize],
) -> Result<Vec<Notice>, Fault>
    requires names { All NamesNodes script.now.commands.items }
    requires count { length script.now.lines.items ≡ length script.now.commands.items }
    requires few { length network.now.nodes ≤ NODE_LIMIT }
    requires in_order { All (λ node. AreInOrder 1 node.applier.applied) network.now.nodes }
    ensures notices { IfOk result (λ notices. notices.items ≡ run_notices script.now.commands.items script.now.lines.items (records_of network.now.nodes) told.now cut.now) }
    ensures only_memory { IsOkUnless result Fault.NoMemory }
{
    let commands = script.commands.as_slice();
    let lines = script.lines.as_slice();
    let reports = reports_of(alloc, network.nodes())?;
    let records = reports.as_slice();
    let mut notices = Vec::new(alloc);
    add_unsettled(&mut notices, cut)?;
    add_nodes(&mut notices, commands, lines, told, records)?;
    Ok(notices)
}

/// Plays a script without a bad line, while another watch sees it too.
fn played<W: LineWatch + Drop>(
    alloc: Global,
    script: Script,
    watch: W,
) -> Result<Watched<W>, RunFault>
    requires names { All NamesNodes script.commands.items }
    requires admitted { AreAdmitted [] script.commands.items }
    requires count { length script.lines.items ≡ length script.commands.items }
    requires room { HaveRoom script.commands.items }
    ensures same { IfOk result (λ played. played.ran.script ≡ script) }
    ensures ran { IfOk result (λ played. ShowsBoth (lining W.notes_begin W.notes_end W.notes_before W.notes_after) script.commands.items script.lines.items played.ran.network played.ran.notices.items watch played.watch) }
    ensures headline { IfOk result (λ played. AreNodesHeadlined script.commands.items played.ran.network.nodes) }
    ensures stopped { IfErr result (λ e. e ≢ RunFault.Unread ReadFault.NoMemory → IsStop script.commands.items script.lines.items e) }
{
    let mut network = new_network(alloc, script.commands.as_slice())?;
    let mut both = Both {
        first: CommandWatch::new(alloc),
        second: watch,
    };
    each_node_holds_its_ledger::<KvDriver>();
    what_is_played_keeps_the_headlines();
    each_fate_is_of_its_command();
    match play_lines(
        &mut network,
        &mut both,
        script.commands.as_slice(),
        script.lines.as_slice(),
    ) {
        Ok(()) => {}
        Err(stop) => return Err(stopped(stop.line, stop.fault)),
    }
    let Both { first, second } = both;
    if first.lacks_memory() {
        return Err(RunFault::Unread(ReadFault::NoMemory));
    }
    let notices = notices_of(alloc, &script, &network, first.told(), first.cut())?;
    Ok(Watched {
        ran: Ran {
            script,
            network,
            notices,
        },
        watch: second,
    })
}

/// Plays a script as `run` does, while a watch sees all of its run. The watch is given back.
pub fn run_watched<W: LineWatch + Drop>(
    alloc: Global,
    text: &[u8],
    watch: W,
) -> Result<Watched<W>, RunFault>
    // No line is bad, and the nodes played exactly its lines. The notices are exactly those of that run, each fate of a command is that of its
    // own line, and the watch noted that run.
    ensures ran { IfOk result (λ played. (is : IsRan text.now played.ran.script played.ran.network played.ran.notices.items) × IsWatched (lining W.notes_begin W.notes_end W.notes_before W.notes_after) played.ran.script.commands.items played.ran.script.lines.items played.ran.network played.ran.notices.items is.shows watch played.watch) }
    // The headline holds for each of its nodes; it says what matters most.
    ensures headline { IfOk result (λ played. AreNodesHeadlined played.ran.script.commands.items played.ran.network.nodes) }
    // Each of its lines names nodes from 1 to 8.
    ensures names { IfOk result (λ played. All NamesNodes played.ran.script.commands.items) }
    // Each line may follow those before it, and the capacities that the lines give are in range.
    ensures admitted { IfOk result (λ played. AreAdmitted [] played.ran.script.commands.items) }
    ensures room { IfOk result (λ played. HaveRoom played.ran.script.commands.items) }
    // The text can't be read, memory ran out, or a line wasn't done.
    ensures cause { IfErr result (IsRunFault text.now) }
{
    let script = match read(alloc, text) {
        Ok(script) => script,
        Err(fault) => return Err(RunFault::Unread(fault)),
    };
    a_script_has_room();
    played(alloc, script, watch)
}

/// Plays a script, in hex digits or as text, one step after another, as `scp_line::play` does. Gives notices of what would otherwise pass in
/// silence: lines that were cut off before the nodes came to rest, commands that did nothing, slots for which nodes applied different values,
/// and own statements that were lost unsent.
/// It takes the time of playing, and then time in proportion to the lines, the slots and the links.
pub fn run(alloc: Global, text: &[u8]) -> Result<Ran, RunFault>
    // No line is bad, and the nodes played exactly its lines. The notices are exactly those of that run, and each fate of a command is that of
    // its own line.
    ensures ran { IfOk result (λ ran. IsRan text.now ran.script ran.network ran.notices.items) }
    // The headline holds for each of its nodes; it says what matters most.
    ensures headline { IfOk result (λ ran. AreNodesHeadlined ran.script.commands.items ran.network.nodes) }
    // Each of its lines names nodes from 1 to 8.
    ensures names { IfOk result (λ ran. All NamesNodes ran.script.commands.items) }
    // Each line may follow those before it, and the capacities that the lines give are in range.
    ensures admitted { IfOk result (λ ran. AreAdmitted [] ran.script.commands.items) }
    ensures room { IfOk result (λ ran. HaveRoom ran.script.commands.items) }
    // The text can't be read, memory ran out, or a line wasn't done.
    ensures cause { IfErr result (IsRunFault text.now) }
{
    match run_watched(alloc, text, Nobody) {
        Ok(played) => Ok(played.ran),
        Err(fault) => Err(fault),
    }
}
