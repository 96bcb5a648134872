//! The commands of a node as text.
ghost use Rattle.std.specs.Prelude.{◌≡◌, ◌++◌, OnOk, IsOkUnless, codes, string_bytes};
ghost use Rattle.std.specs.Fmt.{decimal};
ghost use Rattle.scp_facts.specs.scp_core.specs.History.{peer_at};
ghost use Rattle.scp_stand_slot.specs.scp_text.specs.Values.{value_text};
ghost use Rattle.scp_stand_slot.specs.Names.{node_name};
ghost use Rattle.scp_trace_text.specs.Commands.{with_one, command_words};

use scp_facts::below::turn::{Command, Node};
use scp_stand_slot::Names;
use scp_stand_slot::below::text::Term;
use scp_words::below::types::{Fault, NodeId, Slot, Value};

/// Adds a word followed by a number.
pub fn write_one(out: &mut String, word: &str, a: u64) -> Result<(), Fault>
    ensures added { OnOk result (string_bytes out.new ≡ string_bytes out.old ++ with_one word.now a) }
    ensures only_memory { IsOkUnless result Fault.NoMemory }
{
    write!(out, "{word} {a}")?;
    Ok(())
}

/// The node at the other end of a link. If there is no such link, the node itself.
pub(crate) fn peer_of(node: &Node, link: u8) -> NodeId
    ensures { result ≡ peer_at node.now.config link }
{
    match node.peers().get(link as usize) {
        Some(peer) => *peer,
        None => node.me(),
    }
}

/// Adds the words of a proposal of this value.
fn write_proposed(out: &mut String, slot: Slot, value: &Value) -> Result<(), Fault>
    ensures added { OnOk result (string_bytes out.new ≡ string_bytes out.old ++ (with_one (codes "propose") slot.0 ++ codes " " ++ value_text value.now)) }
    ensures only_memory { IsOkUnless result Fault.NoMemory }
{
    write_one(out, "propose", slot.0)?;
    out.push_str(" ")?;
    value.write(out)
}

/// Adds the words of a request to this node for the record of the slot.
fn write_ask(out: &mut String, names: &Names, asked: NodeId, slot: Slot) -> Result<(), Fault>
    ensures added { OnOk result (string_bytes out.new ≡ string_bytes out.old ++ (codes "ask " ++ node_name names.now asked ++ codes " " ++ decimal slot.0)) }
    ensures only_memory { IsOkUnless result Fault.NoMemory }
{
    let number = slot.0;
    out.push_str("ask ")?;
    names.write_node(out, &asked)?;
    write!(out, " {number}")?;
    Ok(())
}

/// Adds a command of this node.
pub(crate) fn write_command(
    out: &mut String,
    names: &Names,
    node: &Node,
    command: &Command,
) -> Result<(), Fault>
    ensures added { OnOk result (string_bytes out.new ≡ string_bytes out.old ++ command_words names.now node.now.config command.now) }
    ensures only_memory { IsOkUnless result Fault.NoMemory }
{
    match command {
        Command::Tick => {
            out.push_str("tick")?;
            Ok(())
        }
        Command::Propose(slot, value) => write_proposed(out, *slot, value),
        Command::Round(slot) => write_one(out, "round", slot.0),
        Command::Timer(slot) => write_one(out, "timer", slot.0),
        Command::Ask(link, slot) => write_ask(out, names, peer_of(node, *link), *slot),
    }
}
