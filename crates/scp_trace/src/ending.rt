//! Where nodes stand at the end of a script.
ghost use Rattle.std.specs.Prelude.{◌≡◌, ◌≤◌, ◌+◌, OnOk, IsOkUnless, string_bytes};
ghost use Rattle.scp_line.specs.Nodes.{HasPlayed};
ghost use Rattle.scp_stand_node.specs.scp_stand_slot.specs.Adding.{Adds};
ghost use Rattle.scp_stand_node.specs.Slots.{AreTexts};
ghost use Rattle.scp_trace.specs.Standing.{acts as acts_by, asks_for, is_told as is_told_in, is_left_out as is_left_out_so, TellsLast, IsEnd};
ghost use Rattle.scp_trace.specs.Playing.{IsPlaying, moment_at};

use crate::standing::{Playing, write_node};
use scp_line::below::node::{KvDriver, each_node_holds_its_ledger};
use scp_line::below::script::Command;
use scp_line::below::turn::Network;
use scp_line::below::types::Fault;
use scp_script_check::is_scripted;

/// Whether the command puts something into a queue, or brings the nodes to rest.
fn acts(command: &Command) -> bool
    ensures { result ≡ acts_by command.now }
{
    match command {
        Command::Caps(_) | Command::Nodes { .. } | Command::Set { .. } | Command::Report(_) => {
            false
        }
        _ => true,
    }
}

/// Whether the command asks for a report of the node.
fn asks(command: &Command, number: u8) -> bool
    ensures { result ≡ asks_for number command.now }
{
    match command {
        Command::Report(node) => *node == number,
        _ => false,
    }
}

/// Whether the node was reported after the last command that acts.
fn is_told(commands: &[Command], number: u8) -> bool
    ensures { result ≡ is_told_in number commands.now }
{
    let mut told = false;
    for command in commands {
        if acts(command) {
            told = false;
        } else if asks(command, number) {
            told = true;
        }
    }
    told
}

/// Whether nothing is shown of the node at the end: the script alone speaks for it, or it was already reported and isn't to be shown anew.
fn is_left_out(commands: &[Command], number: u8, anew: bool) -> bool
    ensures { result ≡ is_left_out_so anew number commands.now }
{
    (!anew && is_told(commands, number)) || is_scripted(commands, number)
}

/// Adds where a node stands at the end, unless the script alone speaks for it, or it was already reported and isn't to be shown anew.
fn write_last(
    out: &mut String,
    playing: Playing<'_>,
    network: &Network,
    anew: bool,
    number: u8,
) -> Result<(), Fault>
    requires playing { IsPlaying playing.count playing.commands.now playing.played.now network.now }
    requires whole { playing.played.now ≡ playing.commands.now }
    requires number { (1 ≤ number) × (number ≤ playing.count) }
    ensures added { OnOk result (Adds (string_bytes out.old) (string_bytes out.new) (TellsLast anew playing.entry.names.now playing.entry.commands.now network.now.nodes number)) }
    ensures only_memory { IsOkUnless result Fault.NoMemory }
{
    if is_left_out(playing.commands, number, anew) {
        return Ok(());
    }
    write_node(out, playing, network, number)
}

/// Adds where each node stands at the end.
fn write_all(
    out: &mut String,
    playing: Playing<'_>,
    network: &Network,
    anew: bool,
) -> Result<(), Fault>
    requires playing { IsPlaying playing.count playing.commands.now playing.played.now network.now }
    requires whole { playing.played.now ≡ playing.commands.now }
    ensures added { OnOk result (Adds (string_bytes out.old) (string_bytes out.new) (AreTexts (λ index. TellsLast anew playing.entry.names.now playing.entry.commands.now network.now.nodes (index + 1)) playing.entry.count)) }
    ensures only_memory { IsOkUnless result Fault.NoMemory }
{
    for index in 0..playing.count {
        write_last(out, playing, network, anew, index + 1)?;
    }
    Ok(())
}

/// Adds what is shown after the last line: `end`, and where the nodes stand. Nodes that were already reported are left out, unless they are to
/// be shown anew. The only refusal is `NoMemory`.
pub fn write_end(
    out: &mut String,
    playing: Playing<'_>,
    network: &Network,
    anew: bool,
) -> Result<(), Fault>
    requires playing { IsPlaying playing.count playing.commands.now playing.played.now network.now }
    requires whole { playing.played.now ≡ playing.commands.now }
    ensures added { (so_far : HasPlayed playing.entry.commands.now playing.entry.commands.now network.now) → OnOk result (Adds (string_bytes out.old) (string_bytes out.new) (IsEnd anew playing.entry.names.now playing.entry.commands.now (moment_at so_far.heard network.now))) }
    ensures only_memory { IsOkUnless result Fault.NoMemory }
{
    each_node_holds_its_ledger::<KvDriver>();
    out.push_str("end\n")?;
    write_all(out, playing, network, anew)
}
