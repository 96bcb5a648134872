//! The report on the quorum sets of a script, in lines.
ghost use Rattle.std.specs.Prelude.{◌≡◌, ◌++◌, ◌<◌, ℕ, List, [], All, IfOk, OnOk, IsOkUnless, codes, flat_map, string_bytes};
ghost use Rattle.scp_script.specs.scp_types.specs.declared.names.NodeId.{NodeId};
ghost use Rattle.scp_script.specs.Script.{AreAdmitted};
ghost use Rattle.scp_script.specs.Nodes.{NamesNodes};
ghost use Rattle.scp_text.specs.Sets.{node_text};
ghost use Rattle.scp_script_hints.specs.inside.Told.{next_text, none_text, found_text, apart_text};
ghost use Rattle.scp_script_hints.specs.Told.{members_in, nodes_text, TellsApart, TellsDisjoint, TellsHalting, TellAllHalting, TellsSurvived, TellsQuorums, halting_line};

use scp_quorum_search::{Member, disjoint_quorums, smallest_halting, survived};
use scp_script::below::types::{Fault, NodeId};
use scp_script::{Command, count_of_nodes, id_from, set_of_node};
use scp_text::Term;
use std::alloc::{AllocError, Global};
use std::collections::BTreeSet;

/// The nodes of a script, each with its quorum set.
#[tactic(auto, using(crate::proofs::QuorumTexts::members_more))]
pub fn members_of(alloc: Global, commands: &[Command]) -> Result<Vec<Member>, Fault>
    requires names { All NamesNodes commands.now }
    requires admitted { AreAdmitted [] commands.now }
    ensures members { IfOk result (λ members. members.items ≡ members_in commands.now) }
    ensures only_memory { IsOkUnless result Fault.NoMemory }
{
    let mut members = Vec::new(alloc);
    for index in 0..count_of_nodes(commands) {
        let set = set_of_node(alloc, commands, index + 1)?;
        members.push(Member {
            node: id_from(index + 1),
            set,
        })?;
    }
    Ok(members)
}

/// Adds a node, after a comma unless it is the first.
fn write_next(out: &mut String, first: bool, node: &NodeId) -> Result<(), Fault>
    ensures added { OnOk result (string_bytes out.new ≡ string_bytes out.old ++ next_text first node.now) }
    ensures only_memory { IsOkUnless result Fault.NoMemory }
{
    if first {
        return node.write(out);
    }
    out.push_str(",")?;
    node.write(out)
}

/// Adds `-` if no node was written.
fn write_none(out: &mut String, first: bool) -> Result<(), AllocError>
    ensures { OnOk result (string_bytes out.new ≡ string_bytes out.old ++ none_text first) }
{
    if first {
        return out.push_str("-");
    }
    Ok(())
}

/// Adds nodes, with commas between them, or `-` for none.
fn write_nodes(out: &mut String, nodes: &BTreeSet<NodeId>) -> Result<(), Fault>
    ensures added { OnOk result (string_bytes out.new ≡ string_bytes out.old ++ nodes_text nodes.now.keys) }
    ensures only_memory { IsOkUnless result Fault.NoMemory }
{
    let mut first = true;
    for node in nodes {
        write_next(out, first, node)?;
        first = false;
    }
    write_none(out, first)?;
    Ok(())
}

/// Adds the line that reports two sets of nodes without a common node.
pub fn write_disjoint(
    out: &mut String,
    one: &BTreeSet<NodeId>,
    other: &BTreeSet<NodeId>,
) -> Result<(), Fault>
    ensures added { OnOk result (string_bytes out.new ≡ string_bytes out.old ++ (codes "disjoint " ++ nodes_text one.now.keys ++ codes " | " ++ nodes_text other.now.keys ++ codes "\n")) }
    ensures only_memory { IsOkUnless result Fault.NoMemory }
{
    out.push_str("disjoint ")?;
    write_nodes(out, one)?;
    out.push_str(" | ")?;
    write_nodes(out, other)?;
    out.push_str("\n")?;
    Ok(())
}

/// The line of two quorums without a common node, or the line that there are none.
fn found_line(
    alloc: Global,
    found: &Option<(BTreeSet<NodeId>, BTreeSet<NodeId>)>,
) -> Result<String, Fault>
    ensures text { IfOk result (λ text. string_bytes text ≡ found_text found.now) }
    ensures only_memory { IsOkUnless result Fault.NoMemory }
{
    match found {
        None => Ok("intersect yes\n".to_string(alloc)?),
        Some((one, other)) => {
            let mut out = String::new(alloc);
            write_disjoint(&mut out, one, other)?;
            Ok(out)
        }
    }
}

/// The line that says that each two quorums have a common node, or shows two that have none.
fn disjoint_text(alloc: Global, members: &[Member]) -> Result<String, Fault>
    ensures tells { IfOk result (λ text. TellsDisjoint members.now (string_bytes text)) }
    ensures only_memory { IsOkUnless result Fault.NoMemory }
{
    let found = disjoint_quorums(alloc, members)?;
    let text = found_line(alloc, &found)?;
    Ok(text)
}

/// The line of two quorums without a common node, or nothing.
fn apart_line(
    alloc: Global,
    found: &Option<(BTreeSet<NodeId>, BTreeSet<NodeId>)>,
) -> Result<String, Fault>
    ensures text { IfOk result (λ text. string_bytes text ≡ apart_text found.now) }
    ensures only_memory { IsOkUnless result Fault.NoMemory }
{
    match found {
        None => Ok(String::new(alloc)),
        Some((one, other)) => {
            let mut line = String::new(alloc);
            write_disjoint(&mut line, one, other)?;
            Ok(line)
        }
    }
}

/// The line that shows two quorums of some nodes without a common node, or nothing.
fn apart_of(alloc: Global, members: &[Member]) -> Result<String, Fault>
    ensures tells { IfOk result (λ text. TellsApart members.now (string_bytes text)) }
    ensures only_memory { IsOkUnless result Fault.NoMemory }
{
    let found = disjoint_quorums(alloc, members)?;
    let text = apart_line(alloc, &found)?;
    Ok(text)
}

/// The line that shows two quorums of a script's nodes without a common node. Nothing if each two quorums have one. The only error is
/// `NoMemory`.
pub fn apart_text(alloc: Global, commands: &[Command]) -> Result<String, Fault>
    requires names { All NamesNodes commands.now }
    requires admitted { AreAdmitted [] commands.now }
    ensures tells { IfOk result (λ text. TellsApart (members_in commands.now) (string_bytes text)) }
    ensures only_memory { IsOkUnless result Fault.NoMemory }
{
    let members = members_of(alloc, commands)?;
    let members = members.as_slice();
    let text = apart_of(alloc, members)?;
    Ok(text)
}

/// Adds a text.
fn append(out: &mut String, text: &String) -> Result<(), AllocError>
    ensures { OnOk result (string_bytes out.new ≡ string_bytes out.old ++ string_bytes text.now) }
{
    out.push_str(text.as_str())
}

/// Adds the line of a set of nodes whose loss halts a node.
fn write_lost(out: &mut String, node: &NodeId, lost: &BTreeSet<NodeId>) -> Result<(), Fault>
    ensures added { OnOk result (string_bytes out.new ≡ string_bytes out.old ++ halting_line node.now lost.now) }
    ensures only_memory { IsOkUnless result Fault.NoMemory }
{
    out.push_str("blocks ")?;
    node.write(out)?;
    out.push_str(": ")?;
    write_nodes(out, lost)?;
    out.push_str("\n")?;
    Ok(())
}

/// The smallest sets of nodes whose loss halts a node, a line for each.
fn halting_text(alloc: Global, members: &[Member], node: &NodeId) -> Result<String, Fault>
    ensures tells { IfOk result (λ text. TellsHalting members.now node.now (string_bytes text)) }
    ensures only_memory { IsOkUnless result Fault.NoMemory }
{
    let mut out = String::new(alloc);
    let found = smallest_halting(alloc, members, node)?;
    for lost in &found {
        write_lost(&mut out, node, lost)?;
    }
    Ok(out)
}

/// These lines for each node.
fn all_halting_text(alloc: Global, members: &[Member]) -> Result<String, Fault>
    ensures tells { IfOk result (λ text. TellAllHalting members.now members.now (string_bytes text)) }
    ensures only_memory { IsOkUnless result Fault.NoMemory }
{
    let mut out = String::new(alloc);
    for member in members {
        let text = halting_text(alloc, members, &member.node)?;
        append(&mut out, &text)?;
    }
    Ok(out)
}

/// The greatest number of lost nodes that is survived, whichever they are, in a line.
fn survived_line(alloc: Global, members: &[Member]) -> Result<String, Fault>
    ensures tells { IfOk result (λ text. TellsSurvived members.now (string_bytes text)) }
    ensures only_memory { IsOkUnless result Fault.NoMemory }
{
    match survived(alloc, members)? {
        Some(count) => Ok(format!(in alloc; "survives {count}\n")?),
        None => Ok("survives none\n".to_string(alloc)?),
    }
}

/// The whole report on the quorum sets of some nodes.
fn all_text(alloc: Global, members: &[Member]) -> Result<String, Fault>
    ensures tells { IfOk result (λ text. TellsQuorums members.now (string_bytes text)) }
    ensures only_memory { IsOkUnless result Fault.NoMemory }
{
    let mut out = disjoint_text(alloc, members)?;
    let halting = all_halting_text(alloc, members)?;
    let survived = survived_line(alloc, members)?;
    append(&mut out, &halting)?;
    append(&mut out, &survived)?;
    Ok(out)
}

/// The report on the quorum sets of a script: whether its quorums intersect, which losses halt each node, and how many nodes may be lost.
pub fn quorums_text(alloc: Global, commands: &[Command]) -> Result<String, Fault>
    requires names { All NamesNodes commands.now }
    requires admitted { AreAdmitted [] commands.now }
    ensures tells { IfOk result (λ text. TellsQuorums (members_in commands.now) (string_bytes text)) }
    ensures only_memory { IsOkUnless result Fault.NoMemory }
{
    let members = members_of(alloc, commands)?;
    let members = members.as_slice();
    let text = all_text(alloc, members)?;
    Ok(text)
}
