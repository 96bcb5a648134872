//! The page of a script's run.
ghost use Rattle.std.specs.Prelude.{◌≡◌, ◌++◌, [], ℕ, List, All, IfOk, IfErr, IsOkUnless, length, string_bytes, true};
ghost use Rattle.scp_trace.specs.scp_script.specs.Script.{AreAdmitted};
ghost use Rattle.scp_trace.specs.scp_script.specs.Nodes.{NamesNodes};
ghost use Rattle.scp_trace.specs.scp_line.specs.Nodes.{HaveRoom, HasPlayed};
ghost use Rattle.scp_trace.specs.scp_script_check.specs.declared.warning.Warning.{Warning};
ghost use Rattle.scp_trace.specs.scp_script_check.specs.Texts.{warnings_text};
ghost use Rattle.scp_trace.specs.scp_script_check.specs.Warnings.{AreWarnings};
ghost use Rattle.scp_trace.specs.Playing.{IsPlaying, moment_at};
ghost use Rattle.scp_trace.specs.Standing.{IsEnd};
ghost use Rattle.scp_draw.specs.Lines.{IsTelling};
ghost use Rattle.scp_draw.specs.Drawn.{IsPageOf, IsDrawn, IsDrawFault};
ghost use Rattle.scp_draw.specs.inside.Refusing.{IsCauseOf};

use crate::page::{Run, write_page};
use crate::playing::play_told;
use scp_trace::below::facts::Telling;
use scp_trace::below::script::count_of_nodes;
use scp_trace::below::script_check::{ReadFault, Script, read};
use scp_trace::below::stand_slot::Names;
use scp_trace::below::turn::Network;
use scp_trace::below::types::Fault;
use scp_trace::{PlayFault, Playing, a_script_has_room, write_end, write_warnings};
use std::alloc::Global;

/// Why nothing is drawn.
#[derive(Clone, Copy, Debug, PartialEq, Eq)]
pub enum DrawFault {
    /// The script can't be read. Out of memory while it is played or drawn is also reported so.
    Unread(ReadFault),
    /// A fault stopped the script.
    Stopped(PlayFault),
}

/// Where the nodes of a script stand after it was played, each of them, and its warnings.
fn ending_of(playing: Playing<'_>, network: &Network, script: &Script) -> Result<String, Fault>
    requires playing { IsPlaying playing.count playing.commands.now playing.played.now network.now }
    requires whole { playing.played.now ≡ playing.commands.now }
    requires same { playing.commands.now ≡ script.now.commands.items }
    requires names { All NamesNodes script.now.commands.items }
    requires admitted { AreAdmitted [] script.now.commands.items }
    ensures told { (so_far : HasPlayed playing.entry.commands.now playing.entry.commands.now network.now) → IfOk result (λ text. (ending : List ℕ) × (found : List Warning) × IsEnd true playing.entry.names.now playing.entry.commands.now (moment_at so_far.heard network.now) ending × AreWarnings script.now.commands.items script.now.lines.items found × (string_bytes text ≡ ending ++ warnings_text found)) }
    ensures only_memory { IsOkUnless result Fault.NoMemory }
{
    let mut text = String::new(playing.alloc);
    write_end(&mut text, playing, network, true)?;
    write_warnings(playing.alloc, &mut text, script)?;
    Ok(text)
}

/// The page of a script that was played to its end.
fn page_of(
    alloc: Global,
    script: &Script,
    network: &Network,
    tellings: &[Telling],
) -> Result<Vec<u8>, Fault>
    requires names { All NamesNodes script.now.commands.items }
    requires admitted { AreAdmitted [] script.now.commands.items }
    requires told { IsTelling script.now.commands.items script.now.lines.items network.now tellings.now }
    ensures page { IfOk result (λ page. IsPageOf script.now.commands.items script.now.lines.items page.items) }
    ensures only_memory { IsOkUnless result Fault.NoMemory }
{
    let commands = script.commands.as_slice();
    let count = count_of_nodes(commands);
    let names = Names::of(alloc, commands, count)?;
    let playing = Playing {
        alloc,
        names: &names,
        count,
        commands,
        played: commands,
    };
    let ending = ending_of(playing, network, script)?;
    let run = Run {
        alloc,
        names: &names,
        count,
        nodes: network.nodes(),
        tellings,
    };
    let mut page = Vec::new(alloc);
    write_page(&mut page, run, ending.as_str())?;
    Ok(page)
}

/// The page of a script without a bad line.
fn drawn(alloc: Global, script: &Script) -> Result<Vec<u8>, DrawFault>
    requires names { All NamesNodes script.now.commands.items }
    requires admitted { AreAdmitted [] script.now.commands.items }
    requires count { length script.now.lines.items ≡ length script.now.commands.items }
    requires room { HaveRoom script.now.commands.items }
    ensures page { IfOk result (λ page. IsPageOf script.now.commands.items script.now.lines.items page.items) }
    ensures cause { IfErr result (IsCauseOf script.now.commands.items) }
{
    let run = match play_told(alloc, script.commands.as_slice(), script.lines.as_slice()) {
        Ok(run) => run,
        Err(_) => return Err(DrawFault::Unread(ReadFault::NoMemory)),
    };
    match run.stopped {
        Some(stopped) => Err(DrawFault::Stopped(stopped.fault)),
        None => match page_of(alloc, script, &run.network, run.tellings.as_slice()) {
            Ok(page) => Ok(page),
            Err(_) => Err(DrawFault::Unread(ReadFault::NoMemory)),
        },
    }
}

/// Plays a script, one step after another, and draws what its nodes did. The result is one page of HTML, with a section for each slot, and
/// with where the nodes stand at the end. All facts are kept until the page is made.
pub fn draw(alloc: Global, text: &[u8]) -> Result<Vec<u8>, DrawFault>
    // No line is bad, and this is the page of the script's run.
    ensures page { IfOk result (λ page. IsDrawn text.now page.items) }
    // The fault is the first bad line, what stopped the script, or out of memory.
    ensures cause { IfErr result (IsDrawFault text.now) }
{
    let script = match read(alloc, text) {
        Ok(script) => script,
        Err(fault) => return Err(DrawFault::Unread(fault)),
    };
    a_script_has_room();
    drawn(alloc, &script)
}
