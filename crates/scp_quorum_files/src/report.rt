//! The report on the quorums of a network, in lines.
ghost use Rattle.std.specs.Prelude.{◌≡◌, [], ◌++◌, not, cond, false, count_by, map, flat_map, nat_eq, IfOk, OnOk, string_bytes, codes};
ghost use Rattle.std.specs.Fmt.{decimal};
ghost use Rattle.std.specs.Str.{bytes_eq};
ghost use Rattle.std.specs.List.{list_any};
ghost use Rattle.std.specs.Cmp.Lexicographic.{pointwise};
ghost use Rattle.scp_quorum_search.specs.scp_types.specs.declared.names.NodeId.{NodeId};
ghost use Rattle.scp_quorum_search.specs.scp_quorum.specs.NodeSet.{is_in};
ghost use Rattle.scp_quorum_files.specs.Report.{names_among, names_text, name_text, is_member, without_line, stray_line, organisation_line, said_text, meeting_line, lost_line, halting_lines, TellsMeeting, TellsHalting, TellAllHalting, TellsSurvival, survival_line, TellsNetwork, TellsBeside};
ghost use Rattle.scp_quorum_files.specs.Networks.{each_once};
ghost use Rattle.scp_quorum_files.specs.inside.Writing.{next_text};

use crate::names::each_once;
use crate::network::{Named, Network, Organisation};
use scp_quorum_search::below::types::NodeId;
use scp_quorum_search::{
    Halting, Meeting, Member, Survival, Tries, disjoint_beside, halting_within, survived_within,
};
use std::alloc::{AllocError, Global};
use std::collections::BTreeSet;

/// How many tries the search for two quorums without a common node may make, and that for the number of nodes that may be lost.
pub const TRIES: u64 = 200_000;

/// How many tries each search for nodes whose loss halts another one may make.
pub const BLOCK_TRIES: u64 = 2_000;

/// Adds a name, after a comma unless it is the first.
fn write_next(out: &mut String, first: bool, name: &str) -> Result<(), AllocError>
    ensures { OnOk result (string_bytes out.new ≡ string_bytes out.old ++ next_text first name.now) }
{
    if !first {
        out.push_str(",")?;
    }
    out.push_str(name)
}

/// Adds the name of a node, if it is among these. Returns whether none is written so far.
fn write_if_among(
    out: &mut String,
    nodes: &BTreeSet<NodeId>,
    first: bool,
    node: &Named,
) -> Result<bool, AllocError>
    ensures written { OnOk result (string_bytes out.new ≡ string_bytes out.old ++ cond (is_in nodes.now node.now.id) (next_text first (string_bytes node.now.name)) []) }
    ensures first { IfOk result (λ none. none ≡ cond (is_in nodes.now node.now.id) false first) }
{
    if !nodes.contains(&node.id) {
        return Ok(first);
    }
    write_next(out, first, node.name.as_str())?;
    Ok(false)
}

/// Adds `-` if no name was written.
fn write_none(out: &mut String, first: bool) -> Result<(), AllocError>
    ensures { OnOk result (string_bytes out.new ≡ string_bytes out.old ++ cond first (codes "-") []) }
{
    if first {
        return out.push_str("-");
    }
    Ok(())
}

/// Adds the names of those that are among these nodes, with commas between them, or `-` for none.
fn write_names(out: &mut String, all: &[Named], nodes: &BTreeSet<NodeId>) -> Result<(), AllocError>
    ensures { OnOk result (string_bytes out.new ≡ string_bytes out.old ++ names_text all.now (is_in nodes.now)) }
{
    let mut first = true;
    for node in all {
        first = write_if_among(out, nodes, first, node)?;
    }
    write_none(out, first)
}

/// The set of this node alone.
fn alone(alloc: Global, node: NodeId) -> Result<BTreeSet<NodeId>, AllocError>
    ensures { IfOk result (λ nodes. is_in nodes ≡ (λ v. pointwise nat_eq v.0 node.0)) }
{
    let mut nodes = BTreeSet::new(alloc);
    nodes.insert(node)?;
    Ok(nodes)
}

/// The set of these nodes.
fn set_of(alloc: Global, nodes: &[NodeId]) -> Result<BTreeSet<NodeId>, AllocError>
    ensures { IfOk result (λ set. is_in set ≡ (λ v. list_any (λ w. pointwise nat_eq w.0 v.0) nodes.now)) }
{
    let mut set = BTreeSet::new(alloc);
    for node in nodes {
        set.insert(*node)?;
    }
    Ok(set)
}

/// Whether the node is a member.
fn is_member(members: &[Member], node: &NodeId) -> bool
    ensures { result ≡ is_member members.now node.now }
{
    members.iter().any(|member| member.node == *node)
}

/// Those of the nodes that aren't members.
fn others(alloc: Global, all: &[Named], members: &[Member]) -> Result<BTreeSet<NodeId>, AllocError>
    ensures { IfOk result (λ nodes. names_among all.now (is_in nodes) ≡ names_among all.now (λ v. not (is_member members.now v))) }
{
    let mut nodes = BTreeSet::new(alloc);
    for node in all {
        if !is_member(members, &node.id) {
            nodes.insert(node.id)?;
        }
    }
    Ok(nodes)
}

/// How many of the nodes are among these.
fn count_among(all: &[Named], nodes: &BTreeSet<NodeId>) -> usize
    ensures { result ≡ count_by (λ node. is_in nodes.now node.id) all.now }
{
    all.iter().filter(|node| nodes.contains(&node.id)).count()
}

/// Adds the nodes that have no quorum set, if there are any.
fn write_without(
    alloc: Global,
    out: &mut String,
    all: &[Named],
    members: &[Member],
) -> Result<(), AllocError>
    ensures { OnOk result (string_bytes out.new ≡ string_bytes out.old ++ without_line (names_among all.now (λ v. not (is_member members.now v)))) }
{
    let nodes = others(alloc, all, members)?;
    let count = count_among(all, &nodes);
    if count == 0 {
        return Ok(());
    }
    write!(out, "no quorum set of {count}: ")?;
    write_names(out, all, &nodes)?;
    out.push_str("\n")?;
    Ok(())
}

/// How often a text comes.
fn times(texts: &[String], text: &str) -> usize
    ensures { result ≡ count_by (λ other. bytes_eq text.now (string_bytes other)) texts.now }
{
    texts.iter().filter(|other| text == other.as_str()).count()
}

/// Adds a key that isn't known, and how often it comes.
fn write_stray(out: &mut String, strays: &[String], key: &str) -> Result<(), AllocError>
    ensures { OnOk result (string_bytes out.new ≡ string_bytes out.old ++ stray_line (map string_bytes strays.now) key.now) }
{
    let count = times(strays, key);
    write!(out, "unknown key {key}, {count} times\n")
}

/// Adds the keys that aren't known, each once.
fn write_strays(alloc: Global, out: &mut String, strays: &[String]) -> Result<(), AllocError>
    ensures { OnOk result (string_bytes out.new ≡ string_bytes out.old ++ flat_map (stray_line (map string_bytes strays.now)) (each_once (map string_bytes strays.now))) }
{
    let keys = each_once(alloc, strays)?;
    for key in &keys {
        write_stray(out, strays, key.as_str())?;
    }
    Ok(())
}

/// Adds an organisation and its nodes.
fn write_organisation(
    alloc: Global,
    out: &mut String,
    all: &[Named],
    organisation: &Organisation,
) -> Result<(), AllocError>
    ensures { OnOk result (string_bytes out.new ≡ string_bytes out.old ++ organisation_line all.now organisation.now) }
{
    let nodes = set_of(alloc, &organisation.nodes)?;
    out.push_str("organisation ")?;
    out.push_str(organisation.name.as_str())?;
    out.push_str(": ")?;
    write_names(out, all, &nodes)?;
    out.push_str("\n")?;
    Ok(())
}

/// Adds the organisations, each with its nodes.
fn write_organisations(
    alloc: Global,
    out: &mut String,
    all: &[Named],
    organisations: &[Organisation],
) -> Result<(), AllocError>
    ensures { OnOk result (string_bytes out.new ≡ string_bytes out.old ++ flat_map (organisation_line all.now) organisations.now) }
{
    for organisation in organisations {
        write_organisation(alloc, out, all, organisation)?;
    }
    Ok(())
}

/// Adds what the document says of the network.
fn write_said(alloc: Global, out: &mut String, network: &Network) -> Result<(), AllocError>
    ensures { OnOk result (string_bytes out.new ≡ string_bytes out.old ++ said_text (map string_bytes network.now.strays.items) network.now) }
{
    let count = network.nodes.len();
    let members = network.members.len();
    write!(out, "nodes {count}, {members} with a quorum set\n")?;
    write_without(alloc, out, &network.nodes, &network.members)?;
    write_strays(alloc, out, &network.strays)?;
    write_organisations(alloc, out, &network.nodes, &network.organisations)
}

/// Adds the line of two quorums without a common node, or what else came of the search.
fn write_meeting(
    out: &mut String,
    all: &[Named],
    made: u64,
    found: &Meeting,
) -> Result<(), AllocError>
    ensures { OnOk result (string_bytes out.new ≡ string_bytes out.old ++ meeting_line all.now made found.now) }
{
    match found {
        Meeting::Intersect => out.push_str("intersect yes\n"),
        Meeting::Unknown => write!(out, "intersect unknown after {made} tries\n"),
        Meeting::Disjoint(one, other) => {
            out.push_str("disjoint ")?;
            write_names(out, all, one)?;
            out.push_str(" | ")?;
            write_names(out, all, other)?;
            out.push_str("\n")
        }
    }
}

/// The line that shows whether each two quorums of the members beside the liars have a common node.
fn meeting_text(
    alloc: Global,
    all: &[Named],
    liars: &BTreeSet<NodeId>,
    members: &[Member],
) -> Result<String, AllocError>
    ensures { IfOk result (λ text. TellsMeeting all.now (is_in liars.now) members.now (string_bytes text)) }
{
    let mut tries = Tries::new(Some(TRIES));
    let found = disjoint_beside(alloc, members, liars, &mut tries)?;
    let mut out = String::new(alloc);
    write_meeting(&mut out, all, tries.made, &found)?;
    Ok(out)
}

/// Adds the line of a set of nodes whose loss halts a node.
fn write_lost(
    out: &mut String,
    all: &[Named],
    at: &BTreeSet<NodeId>,
    lost: &BTreeSet<NodeId>,
) -> Result<(), AllocError>
    ensures { OnOk result (string_bytes out.new ≡ string_bytes out.old ++ (codes "blocks " ++ names_text all.now (is_in at.now) ++ codes ": " ++ names_text all.now (is_in lost.now) ++ codes "\n")) }
{
    out.push_str("blocks ")?;
    write_names(out, all, at)?;
    out.push_str(": ")?;
    write_names(out, all, lost)?;
    out.push_str("\n")
}

/// Adds the lines of these sets.
fn write_each_lost(
    alloc: Global,
    out: &mut String,
    all: &[Named],
    at: NodeId,
    found: &[BTreeSet<NodeId>],
) -> Result<(), AllocError>
    ensures { OnOk result (string_bytes out.new ≡ string_bytes out.old ++ flat_map (lost_line all.now at) found.now) }
{
    let at = alone(alloc, at)?;
    for lost in found {
        write_lost(out, all, &at, lost)?;
    }
    Ok(())
}

/// Adds the line that not all sets are known.
fn write_unknown(
    alloc: Global,
    out: &mut String,
    all: &[Named],
    at: NodeId,
    made: u64,
) -> Result<(), AllocError>
    ensures { OnOk result (string_bytes out.new ≡ string_bytes out.old ++ (codes "blocks " ++ name_text all.now at ++ codes ": unknown after " ++ decimal made ++ codes " tries\n")) }
{
    let at = alone(alloc, at)?;
    out.push_str("blocks ")?;
    write_names(out, all, &at)?;
    write!(out, ": unknown after {made} tries\n")
}

/// Adds the lines of the sets that were found, and whether there may be others.
fn write_halting(
    alloc: Global,
    out: &mut String,
    all: &[Named],
    at: NodeId,
    made: u64,
    found: &Halting,
) -> Result<(), AllocError>
    ensures { OnOk result (string_bytes out.new ≡ string_bytes out.old ++ halting_lines all.now at made found.now) }
{
    match found {
        Halting::All(found) => write_each_lost(alloc, out, all, at, found),
        Halting::Some(found) => {
            write_each_lost(alloc, out, all, at, found)?;
            write_unknown(alloc, out, all, at, made)
        }
    }
}

/// The lines of the smallest sets of members whose loss halts a node.
fn halting_text(
    alloc: Global,
    all: &[Named],
    members: &[Member],
    at: NodeId,
) -> Result<String, AllocError>
    ensures { IfOk result (λ text. TellsHalting all.now members.now at (string_bytes text)) }
{
    let mut tries = Tries::new(Some(BLOCK_TRIES));
    let found = halting_within(alloc, members, &at, &mut tries)?;
    let mut out = String::new(alloc);
    write_halting(alloc, &mut out, all, at, tries.made, &found)?;
    Ok(out)
}

/// These lines for each member.
fn all_halting_text(alloc: Global, all: &[Named], members: &[Member]) -> Result<String, AllocError>
    ensures { IfOk result (λ text. TellAllHalting all.now members.now members.now (string_bytes text)) }
{
    let mut out = String::new(alloc);
    for member in members {
        let text = halting_text(alloc, all, members, member.node)?;
        out.push_str(text.as_str())?;
    }
    Ok(out)
}

/// Adds the line on how many members may be lost.
fn write_survival(out: &mut String, made: u64, found: &Survival) -> Result<(), AllocError>
    ensures { OnOk result (string_bytes out.new ≡ string_bytes out.old ++ survival_line made found.now) }
{
    match found {
        Survival::Most(count) => write!(out, "survives {count}\n"),
        Survival::None => out.push_str("survives none\n"),
        Survival::Unknown(below) => {
            write!(out, "survives unknown, all below {below}")?;
            write!(out, ", after {made} tries\n")
        }
    }
}

/// The line on how many members may be lost.
fn survival_text(alloc: Global, members: &[Member]) -> Result<String, AllocError>
    ensures { IfOk result (λ text. TellsSurvival members.now (string_bytes text)) }
{
    let mut tries = Tries::new(Some(TRIES));
    let found = survived_within(alloc, members, &mut tries)?;
    let mut out = String::new(alloc);
    write_survival(&mut out, tries.made, &found)?;
    Ok(out)
}

/// The report on a network: what its document says, whether its quorums have common nodes, which losses halt each node, and how many nodes
/// may be lost.
pub fn network_text(alloc: Global, network: &Network) -> Result<String, AllocError>
    ensures { IfOk result (λ text. TellsNetwork network.now (string_bytes text)) }
{
    let none = BTreeSet::new(alloc);
    let meeting = meeting_text(alloc, &network.nodes, &none, &network.members)?;
    let halting = all_halting_text(alloc, &network.nodes, &network.members)?;
    let survival = survival_text(alloc, &network.members)?;
    let mut out = String::new(alloc);
    write_said(alloc, &mut out, network)?;
    out.push_str(meeting.as_str())?;
    out.push_str(halting.as_str())?;
    out.push_str(survival.as_str())?;
    Ok(out)
}

/// The report on a network beside nodes that lie: what its document says, who lies, and whether its quorums have common nodes all the same.
pub fn beside_text(
    alloc: Global,
    network: &Network,
    liars: &BTreeSet<NodeId>,
) -> Result<String, AllocError>
    ensures { IfOk result (λ text. TellsBeside network.now (is_in liars.now) (string_bytes text)) }
{
    let meeting = meeting_text(alloc, &network.nodes, liars, &network.members)?;
    let mut out = String::new(alloc);
    write_said(alloc, &mut out, network)?;
    out.push_str("lying ")?;
    write_names(&mut out, &network.nodes, liars)?;
    out.push_str("\n")?;
    out.push_str(meeting.as_str())?;
    Ok(out)
}
