//! Playing a script, and showing what happens.
ghost use Rattle.std.specs.Prelude.{ℕ, ◌≡◌, ◌≢◌, ◌++◌, [], All, List, None, OnOk, IfOk, IfErr, IsOkUnless, true, false, length, string_bytes};
ghost use Rattle.scp_line.specs.scp_script.specs.Script.{AreAdmitted};
ghost use Rattle.scp_line.specs.scp_script.specs.Nodes.{NamesNodes};
ghost use Rattle.scp_line.specs.Nodes.{HaveRoom, HasPlayed};
ghost use Rattle.scp_script_check.specs.declared.warning.Warning.{Warning};
ghost use Rattle.scp_script_check.specs.Lines.{IsNotRead};
ghost use Rattle.scp_script_check.specs.Texts.{warnings_text};
ghost use Rattle.scp_script_check.specs.Warnings.{AreWarnings};
ghost use Rattle.scp_stand_node.specs.scp_stand_slot.specs.declared.names.Names.{Names};
ghost use Rattle.scp_stand_node.specs.scp_stand_slot.specs.Names.{AreNames};
ghost use Rattle.scp_trace.specs.Playing.{IsPlaying, moment_at};
ghost use Rattle.scp_trace.specs.Standing.{IsEnd};
ghost use Rattle.scp_trace.specs.Traced.{IsTracedTo, IsTraced};

use crate::depth::Depth;
use crate::ending::write_end;
use crate::standing::Playing;
use crate::tracing::TraceWatch;
use scp_line::below::node::{KvDriver, each_node_holds_its_ledger};
use scp_line::below::script::count_of_nodes;
use scp_line::below::turn::Network;
use scp_line::below::types::Fault;
use scp_line::{PlayFault, a_script_has_room, new_network, play_lines};
use scp_script_check::{ReadFault, Script, read, text_of_warnings, warnings};
use scp_stand_node::below::stand_slot::Names;
use scp_trace_text::below::facts::a_step_is_told_as_it_happened;
use std::alloc::Global;

/// What was shown, and the fault that ended the run, if one did.
#[derive(Drop)]
pub struct Traced {
    pub text: String,
    pub fault: Option<PlayFault>,
}

/// Adds the lines of the script's warnings. The only refusal is `NoMemory`.
pub fn write_warnings(alloc: Global, out: &mut String, script: &Script) -> Result<(), Fault>
    requires names { All NamesNodes script.now.commands.items }
    requires admitted { AreAdmitted [] script.now.commands.items }
    ensures added { OnOk result ((found : List Warning) × AreWarnings script.now.commands.items script.now.lines.items found × (string_bytes out.new ≡ string_bytes out.old ++ warnings_text found)) }
    ensures only_memory { IsOkUnless result Fault.NoMemory }
{
    let found = warnings(alloc, script)?;
    let text = text_of_warnings(alloc, found.as_slice())?;
    out.push_str(text.as_str())?;
    Ok(())
}

/// What is shown of a script that was played to its end, after its lines.
fn ended(
    lines: String,
    playing: Playing<'_>,
    network: &Network,
    script: &Script,
) -> Result<Traced, Fault>
    requires playing { IsPlaying playing.count playing.commands.now playing.played.now network.now }
    requires whole { playing.played.now ≡ playing.commands.now }
    requires same { playing.commands.now ≡ script.now.commands.items }
    requires names { All NamesNodes script.now.commands.items }
    requires admitted { AreAdmitted [] script.now.commands.items }
    ensures told { (so_far : HasPlayed playing.entry.commands.now playing.entry.commands.now network.now) → IfOk result (λ traced. (ending : List ℕ) × (found : List Warning) × IsEnd false playing.entry.names.now playing.entry.commands.now (moment_at so_far.heard network.now) ending × AreWarnings script.now.commands.items script.now.lines.items found × (string_bytes traced.text ≡ string_bytes lines ++ ending ++ warnings_text found) × (traced.fault ≡ None)) }
    ensures only_memory { IsOkUnless result Fault.NoMemory }
{
    let mut text = lines;
    write_end(&mut text, playing, network, false)?;
    write_warnings(playing.alloc, &mut text, script)?;
    Ok(Traced { text, fault: None })
}

/// Whether the fault is out of memory.
fn is_want(fault: Fault) -> bool
    ensures want { result ≡ true → fault ≡ Fault.NoMemory }
    ensures other { result ≡ false → fault ≢ Fault.NoMemory }
{
    match fault {
        Fault::NoMemory => true,
        _ => false,
    }
}

/// What is shown of a script without a bad line.
fn played(alloc: Global, depth: Depth, script: &Script) -> Result<Traced, Fault>
    requires names { All NamesNodes script.now.commands.items }
    requires admitted { AreAdmitted [] script.now.commands.items }
    requires count { length script.now.lines.items ≡ length script.now.commands.items }
    requires room { HaveRoom script.now.commands.items }
    ensures told { IfOk result (λ traced. (names : Names) × AreNames script.now.commands.items names × IsTracedTo depth traced.fault names script.now.commands.items script.now.lines.items (string_bytes traced.text)) }
    ensures only_memory { IsOkUnless result Fault.NoMemory }
{
    let commands = script.commands.as_slice();
    let count = count_of_nodes(commands);
    let names = Names::of(alloc, commands, count)?;
    let mut network = new_network(alloc, commands)?;
    a_step_is_told_as_it_happened();
    each_node_holds_its_ledger::<KvDriver>();
    let mut watch = TraceWatch::new(alloc, depth, &names, commands);
    match play_lines(&mut network, &mut watch, commands, script.lines.as_slice()) {
        Ok(()) => {
            if watch.lacks_memory() {
                return Err(Fault::NoMemory);
            }
            let playing = Playing {
                alloc,
                names: &names,
                count,
                commands,
                played: commands,
            };
            ended(watch.text, playing, &network, script)
        }
        Err(stopped) => {
            if is_want(stopped.fault.fault) || watch.lacks_memory() {
                return Err(Fault::NoMemory);
            }
            watch.write_told(stopped.line, network.nodes())?;
            Ok(Traced {
                text: watch.text,
                fault: Some(stopped.fault),
            })
        }
    }
}

/// Plays a script, one step after another, and shows its run at the depth that is asked for. It shows where a node stands after each `report`
/// line for it. After the last line it shows where each node stands that wasn't reported after the last line that acts. The script's warnings
/// come last.
/// The whole depth also has each line, and what its steps did, with the nodes as they are after it. That is what was opened, parked, taken,
/// dropped, said, decided, applied and sent, and why a command did nothing.
/// If a line isn't done, it shows all up to there, and why the line wasn't done. What is noted of a line's steps is kept only until its lines
/// are written.
#[tactic(auto, using(crate::proofs::Pieces::said_wants))]
pub fn trace(alloc: Global, depth: Depth, text: &[u8]) -> Result<Traced, ReadFault>
    // No line is bad, and this is shown of the script's run.
    ensures told { IfOk result (IsTraced depth text.now) }
    // The fault is the first bad line, or out of memory. If memory ran out, a bad line is returned by its number alone, where finding it
    // takes no memory.
    ensures cause { IfErr result (IsNotRead text.now) }
{
    let script = match read(alloc, text) {
        Ok(script) => script,
        Err(fault) => return Err(fault),
    };
    a_script_has_room();
    match played(alloc, depth, &script) {
        Ok(traced) => Ok(traced),
        Err(_) => Err(ReadFault::NoMemory),
    }
}
