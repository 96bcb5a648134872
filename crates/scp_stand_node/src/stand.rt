//! The status of a node.
ghost use Rattle.std.specs.Prelude.{◌≡◌, ◌++◌, false, IfOk, OnOk, IsOkUnless, string_bytes};
ghost use Rattle.scp_turn.specs.scp_nominate.specs.Turns.{AreInTurn};
ghost use Rattle.scp_stand_slot.specs.Adding.{Adds};
ghost use Rattle.scp_stand_node.specs.Links.{script_of};
ghost use Rattle.scp_stand_node.specs.Stand.{IsSeen, stands_words, stands_line, IsStand};

use crate::holding::{write_holds, write_wants};
use crate::links::{write_links, write_queues, write_unsent};
use crate::others::{lowest_of, write_me};
use crate::slots::write_slots;
use scp_stand_slot::below::script::Command;
use scp_stand_slot::{Names, write_set};
use scp_turn::below::node::Node;
use scp_turn::below::nominate::nodes_with;
use scp_turn::below::types::{Fault, NodeId};
use std::alloc::Global;

/// The lines of the script in which a node plays.
#[derive(Clone, Copy)]
pub struct Lines<'a> {
    /// All commands of the script.
    pub all: &'a [Command],
    /// The commands that were played so far.
    pub played: &'a [Command],
}

/// A node, the names with which it is shown, and the lines of its script, if it plays in one.
#[derive(Clone, Copy)]
pub struct Seen<'a> {
    pub alloc: Global,
    pub names: &'a Names,
    pub node: &'a Node,
    pub lines: Option<Lines<'a>>,
}

/// Adds the words of the first line behind the node's name, up to the set.
fn write_words(out: &mut String, lowest: u64, count: usize) -> Result<(), Fault>
    ensures added { OnOk result (string_bytes out.new ≡ string_bytes out.old ++ stands_words lowest count) }
    ensures only_memory { IsOkUnless result Fault.NoMemory }
{
    write!(out, " stands lowest {lowest} applied {count} set ")?;
    Ok(())
}

/// Adds the first line.
fn write_first(out: &mut String, names: &Names, node: &Node) -> Result<(), Fault>
    requires runs { node.now.failed ≡ false }
    ensures added { OnOk result (string_bytes out.new ≡ string_bytes out.old ++ stands_line names.now node.now) }
    ensures only_memory { IsOkUnless result Fault.NoMemory }
{
    write_me(out, names, node)?;
    write_words(out, lowest_of(node), node.applied().len())?;
    write_set(out, names, node.set())?;
    out.push_str("\n")?;
    Ok(())
}

/// The nodes of its set and the node itself, ascending, each once.
fn members(node: &Node) -> Result<Vec<NodeId>, Fault>
    ensures members { IfOk result (λ members. AreInTurn node.now.config.me node.now.config.set members.items) }
    ensures only_memory { IsOkUnless result Fault.NoMemory }
{
    nodes_with(node.me(), node.set())
}

/// Adds the status of a node, with these members.
fn write_lines(out: &mut String, seen: Seen<'_>, members: &[NodeId]) -> Result<(), Fault>
    requires seen { IsSeen seen.node.now }
    requires members { AreInTurn seen.node.now.config.me seen.node.now.config.set members.now }
    ensures added { OnOk result (Adds (string_bytes out.old) (string_bytes out.new) (IsStand seen.entry.names.now (script_of seen.entry.lines) seen.entry.node.now)) }
    ensures only_memory { IsOkUnless result Fault.NoMemory }
{
    let names = seen.names;
    let node = seen.node;
    write_first(out, names, node)?;
    write_links(out, names, node)?;
    write_slots(out, seen, members)?;
    write_wants(out, seen.alloc, names, node)?;
    write_holds(out, names, node)?;
    write_queues(out, names, node)?;
    write_unsent(out, names, seen.lines, node)?;
    Ok(())
}

/// Adds the status of a node. The time grows with the length of its journal and the lines of the script, times the slots of the window,
/// and with the number of names, times the nodes that the lines show.
pub fn write_stand(out: &mut String, seen: Seen<'_>) -> Result<(), Fault>
    // The node hasn't failed, and its ledger runs.
    requires seen { IsSeen seen.node.now }
    // Exactly the lines of its status are added.
    ensures added { OnOk result (Adds (string_bytes out.old) (string_bytes out.new) (IsStand seen.entry.names.now (script_of seen.entry.lines) seen.entry.node.now)) }
    // The call is refused only when memory runs out.
    ensures only_memory { IsOkUnless result Fault.NoMemory }
{
    let members = members(seen.node)?;
    write_lines(out, seen, members.as_slice())
}
