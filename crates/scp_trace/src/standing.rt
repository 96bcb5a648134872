//! Where a node of a script stands while the script is played.
ghost use Rattle.std.specs.Prelude.{◌≤◌, OnOk, IsOkUnless, string_bytes};
ghost use Rattle.scp_stand_node.specs.scp_stand_slot.specs.Adding.{Adds};
ghost use Rattle.scp_trace.specs.Standing.{TellsNode};
ghost use Rattle.scp_trace.specs.Playing.{IsPlaying};

use scp_line::below::script::Command;
use scp_line::below::turn::Network;
use scp_line::below::types::Fault;
use scp_stand_node::below::stand_slot::Names;
use scp_stand_node::{Lines, Seen, write_stand};
use std::alloc::Global;

/// A script that is being played, up to one of its lines.
#[derive(Clone, Copy)]
pub struct Playing<'a> {
    pub alloc: Global,
    pub names: &'a Names,
    /// The number of nodes.
    pub count: u8,
    /// All commands of the script.
    pub commands: &'a [Command],
    /// The commands that were played so far.
    pub played: &'a [Command],
}

/// Adds where a node stands.
pub(crate) fn write_node(
    out: &mut String,
    playing: Playing<'_>,
    network: &Network,
    number: u8,
) -> Result<(), Fault>
    requires playing { IsPlaying playing.count playing.commands.now playing.played.now network.now }
    requires number { (1 ≤ number) × (number ≤ playing.count) }
    ensures added { OnOk result (Adds (string_bytes out.old) (string_bytes out.new) (TellsNode playing.entry.names.now playing.entry.commands.now playing.entry.played.now network.now.nodes number)) }
    ensures only_memory { IsOkUnless result Fault.NoMemory }
{
    let nodes = network.nodes();
    match nodes.get(usize::from(number - 1)) {
        Some(node) => write_stand(
            out,
            Seen {
                alloc: playing.alloc,
                names: playing.names,
                node,
                lines: Some(Lines {
                    all: playing.commands,
                    played: playing.played,
                }),
            },
        ),
        None => Ok(()),
    }
}
