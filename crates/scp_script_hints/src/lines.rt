//! The hints on the lines of a script, and on the script as a whole.
ghost use Rattle.std.specs.Prelude.{◌≡◌, ◌∷◌, ◌++◌, [], ℕ, All, IfOk, OnOk, IsOkUnless, option_to_list, List};
ghost use Rattle.std.specs.List.{list_any};
ghost use Rattle.std.specs.Ordering.{nat_cmp};
ghost use Rattle.std.specs.BTreeSet as sorted;
ghost use Rattle.scp_script.specs.Script.{AreAdmitted, node_count};
ghost use Rattle.scp_script.specs.Nodes.{NamesNodes};
ghost use Rattle.scp_script.specs.scp_quorum.specs.Sane.{all_nodes};
ghost use Rattle.scp_script_hints.specs.Hints.{is_known, is_outside, unknown_hints, slot_hints, link_hints, command_hints, hints_behind, line_hints, AreHints};
ghost use Rattle.scp_script_hints.specs.inside.Behind.{has_sent, KnowsBefore};

use crate::apart::apart;
use crate::before::{Before, nothing};
use crate::hint::Hint;
use crate::nodes::is_quiet;
use scp_script::below::quorum::QuorumSet;
use scp_script::below::types::{Fault, NodeId, WINDOW};
use scp_script::{Command, count_of_nodes, id_from};
use std::alloc::{AllocError, Global};

/// The greatest slot that any window reaches.
const LAST_SLOT: u64 = 4_294_967_295;

/// Whether the node is one of a script's `count` nodes.
fn is_of_script(count: u8, node: &NodeId) -> bool
    ensures { result ≡ is_known count node.now }
{
    for index in 0..count {
        if id_from(index + 1) == *node {
            return true;
        }
    }
    false
}

/// Adds a hint for each node that isn't one of the script's `count` nodes.
fn add_unknown(
    count: u8,
    line: usize,
    nodes: &[NodeId],
    out: &mut Vec<Hint>,
) -> Result<(), AllocError>
    ensures { OnOk result (out.new.items ≡ out.old.items ++ unknown_hints count line nodes.now) }
{
    for node in nodes {
        if !is_of_script(count, node) {
            out.push(Hint::Unknown { line, node: *node })?;
        }
    }
    Ok(())
}

/// Adds the hints on a quorum set.
fn add_set(count: u8, line: usize, set: &QuorumSet, out: &mut Vec<Hint>) -> Result<(), Fault>
    ensures added { OnOk result (out.new.items ≡ out.old.items ++ unknown_hints count line (all_nodes set.now)) }
    ensures only_memory { IsOkUnless result Fault.NoMemory }
{
    let nodes = set.nodes()?;
    add_unknown(count, line, nodes.as_slice(), out)?;
    Ok(())
}

/// Whether a slot is outside the window of a node, by whether the node may have decided something.
fn lies_outside(may_decide: bool, slot: u64) -> bool
    ensures { result ≡ is_outside may_decide slot }
{
    slot == 0 || LAST_SLOT < slot || (!may_decide && WINDOW < slot)
}

/// Adds the hint on a command for a slot, if there is one.
fn add_slot(
    before: &Before,
    line: usize,
    node: u8,
    slot: u64,
    out: &mut Vec<Hint>,
) -> Result<(), AllocError>
    ensures { OnOk result (out.new.items ≡ out.old.items ++ slot_hints (sorted.contains nat_cmp before.now.deciding) line node slot) }
{
    if lies_outside(before.may_decide(node), slot) {
        out.push(Hint::Outside { line, slot })?;
    }
    Ok(())
}

/// Adds the hint on the link of a `send`, if there is one.
fn add_link(
    commands: &[Command],
    before: &Before,
    line: usize,
    from: u8,
    to: u8,
    out: &mut Vec<Hint>,
) -> Result<(), AllocError>
    ensures { OnOk result (out.new.items ≡ out.old.items ++ link_hints commands.now (has_sent before.now.sent.items) line from to) }
{
    if !before.sent_on(from, to) && is_quiet(commands, from) {
        out.push(Hint::Muted { line, from, to })?;
    }
    Ok(())
}

/// Adds the hints on a line, after what the lines before it did.
fn add_line(
    commands: &[Command],
    before: &Before,
    line: usize,
    command: &Command,
    out: &mut Vec<Hint>,
) -> Result<(), Fault>
    requires names { All NamesNodes commands.now }
    ensures added { OnOk result (out.new.items ≡ out.old.items ++ command_hints commands.now (has_sent before.now.sent.items) (sorted.contains nat_cmp before.now.deciding) line command.now) }
    ensures only_memory { IsOkUnless result Fault.NoMemory }
{
    match command {
        Command::Set { set, .. } => add_set(count_of_nodes(commands), line, set, out)?,
        Command::Send { from, to, .. } => add_link(commands, before, line, *from, *to, out)?,
        Command::Propose { node, slot, .. } => add_slot(before, line, *node, *slot, out)?,
        Command::Round { node, slot } => add_slot(before, line, *node, *slot, out)?,
        Command::Timer { node, slot } => add_slot(before, line, *node, *slot, out)?,
        Command::Ask { from, slot, .. } => add_slot(before, line, *from, *slot, out)?,
        _ => {}
    }
    Ok(())
}

/// Adds the hints on a line, and notes what the line does.
fn take_line(
    commands: &[Command],
    before: &mut Before,
    line: usize,
    command: &Command,
    out: &mut Vec<Hint>,
) -> Result<(), Fault>
    requires names { All NamesNodes commands.now }
    ensures added { OnOk result ((done : List Command) → KnowsBefore before.old done → out.new.items ≡ out.old.items ++ hints_behind commands.now done line command.now) }
    ensures known { OnOk result ((done : List Command) → KnowsBefore before.old done → KnowsBefore before.new (done ++ command.now ∷ [])) }
    ensures only_memory { IsOkUnless result Fault.NoMemory }
{
    add_line(commands, before, line, command, out)?;
    before.note(command)?;
    Ok(())
}

/// The hints on the lines, in their order.
fn of_lines(alloc: Global, commands: &[Command], lines: &[usize]) -> Result<Vec<Hint>, Fault>
    requires names { All NamesNodes commands.now }
    ensures found { IfOk result (λ found. found.items ≡ line_hints commands.now [] lines.now commands.now) }
    ensures only_memory { IsOkUnless result Fault.NoMemory }
{
    let mut out = Vec::new(alloc);
    let mut before = nothing(alloc);
    for (index, line) in lines.iter().enumerate() {
        let Some(command) = commands.get(index) else {
            return Ok(out);
        };
        take_line(commands, &mut before, *line, command, &mut out)?;
    }
    Ok(out)
}

/// Adds a hint, if there is one.
fn add(out: &mut Vec<Hint>, hint: Option<Hint>) -> Result<(), AllocError>
    ensures { OnOk result (out.new.items ≡ out.old.items ++ option_to_list hint) }
{
    let Some(hint) = hint else {
        return Ok(());
    };
    out.push(hint)?;
    Ok(())
}

/// The hints on a script of these commands, in the lines with these numbers: by its lines, in their order, and then by the quorums of its
/// nodes. Takes time and memory for each set of its nodes, of which there are 256 for eight. The only error is `NoMemory`.
pub fn hints(alloc: Global, commands: &[Command], lines: &[usize]) -> Result<Vec<Hint>, Fault>
    requires names { All NamesNodes commands.now }
    requires admitted { AreAdmitted [] commands.now }
    // Each hint is there exactly if its definition holds.
    ensures found { IfOk result (λ found. AreHints commands.now lines.now found.items) }
    ensures only_memory { IsOkUnless result Fault.NoMemory }
{
    let mut out = of_lines(alloc, commands, lines)?;
    let apart = apart(alloc, commands)?;
    add(&mut out, apart)?;
    Ok(out)
}
