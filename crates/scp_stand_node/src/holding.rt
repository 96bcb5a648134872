//! The sets that a node wants, and the messages that it holds until they come.
ghost use Rattle.std.specs.Prelude.{◌≡◌, ◌++◌, false, slice_index_or, IfOk, OnOk, IsOkUnless, string_bytes, flat_map, map};
ghost use Rattle.scp_turn.specs.scp_core.specs.History.{peer_at};
ghost use Rattle.scp_turn.specs.Turn.{links_of};
ghost use Rattle.scp_stand_node.specs.Links.{of_links};
ghost use Rattle.scp_stand_node.specs.Holding.{asked_for, asked_line, want_line, wants_text, held_text, life_text, held_on};

use crate::others::{add_if, conn_of, links, peer_of, write_me, write_peer};
use scp_stand_slot::{Names, write_nodes};
use scp_turn::below::fetch::Want;
use scp_turn::below::node::Node;
use scp_turn::below::types::{Fault, Hash, NodeId, Seq};
use std::alloc::Global;

/// Whether the node at the other end of a link was asked for a wanted set.
fn is_asked_for(want: &Want, link: u8) -> bool
    ensures { result ≡ slice_index_or want.now.asked link false }
{
    match want.asked.as_slice().get(usize::from(link)) {
        Some(is_asked) => *is_asked,
        None => false,
    }
}

/// The nodes that were asked for a wanted set.
fn nodes_asked(alloc: Global, node: &Node, want: &Want) -> Result<Vec<NodeId>, Fault>
    ensures nodes { IfOk result (λ nodes. nodes.items ≡ asked_for node.now want.now) }
    ensures only_memory { IsOkUnless result Fault.NoMemory }
{
    let mut nodes = Vec::new(alloc);
    for link in 0..links(node) {
        let is_asked = is_asked_for(want, link);
        add_if(&mut nodes, is_asked, peer_of(node, link))?;
    }
    Ok(nodes)
}

/// Adds the line of a wanted set, for which these nodes were asked.
fn write_asked_for(
    out: &mut String,
    names: &Names,
    node: &Node,
    want: &Want,
    nodes: &[NodeId],
) -> Result<(), Fault>
    ensures added { OnOk result (string_bytes out.new ≡ string_bytes out.old ++ asked_line names.now node.now.config.me want.now nodes.now) }
    ensures only_memory { IsOkUnless result Fault.NoMemory }
{
    let misses = want.misses;
    write_me(out, names, node)?;
    out.push_str(" wants ")?;
    names.write_hash(out, &want.hash)?;
    write!(out, " misses {misses} asked ")?;
    write_nodes(out, names, nodes)?;
    out.push_str("\n")?;
    Ok(())
}

/// Adds the line of a wanted set.
fn write_want(
    out: &mut String,
    alloc: Global,
    names: &Names,
    node: &Node,
    want: &Want,
) -> Result<(), Fault>
    ensures added { OnOk result (string_bytes out.new ≡ string_bytes out.old ++ want_line names.now node.now want.now) }
    ensures only_memory { IsOkUnless result Fault.NoMemory }
{
    let nodes = nodes_asked(alloc, node, want)?;
    write_asked_for(out, names, node, want, nodes.as_slice())?;
    Ok(())
}

/// Adds the lines of these wanted sets.
fn write_each_want(
    out: &mut String,
    alloc: Global,
    names: &Names,
    node: &Node,
    wants: &[&Want],
) -> Result<(), Fault>
    ensures added { OnOk result (string_bytes out.new ≡ string_bytes out.old ++ flat_map (want_line names.now node.now) (map (λ want. want.now) wants.now)) }
    ensures only_memory { IsOkUnless result Fault.NoMemory }
{
    for want in wants {
        write_want(out, alloc, names, node, *want)?;
    }
    Ok(())
}

/// Adds the lines of all wanted sets.
pub fn write_wants(out: &mut String, alloc: Global, names: &Names, node: &Node) -> Result<(), Fault>
    ensures added { OnOk result (string_bytes out.new ≡ string_bytes out.old ++ wants_text names.now node.now) }
    ensures only_memory { IsOkUnless result Fault.NoMemory }
{
    let wants = node.pending().wants()?;
    write_each_want(out, alloc, names, node, wants.as_slice())?;
    Ok(())
}

/// Adds the line of a connection with parked messages.
fn write_first_held(
    out: &mut String,
    names: &Names,
    node: &Node,
    link: u8,
    life: u32,
    count: usize,
    first: Option<(Seq, Hash)>,
) -> Result<(), Fault>
    ensures added { OnOk result (string_bytes out.new ≡ string_bytes out.old ++ held_text names.now node.now.config.me (peer_at node.now.config link) life count first) }
    ensures only_memory { IsOkUnless result Fault.NoMemory }
{
    let Some((seq, hash)) = first else {
        return Ok(());
    };
    let first = seq.0;
    write_me(out, names, node)?;
    out.push_str(" holds ")?;
    write_peer(out, names, node, link)?;
    write!(out, " {life} {count} first {first} waits ")?;
    names.write_hash(out, &hash)?;
    out.push_str("\n")?;
    Ok(())
}

/// Adds the line of what is parked on a connection.
fn write_life(
    out: &mut String,
    names: &Names,
    node: &Node,
    link: u8,
    life: u32,
) -> Result<(), Fault>
    ensures added { OnOk result (string_bytes out.new ≡ string_bytes out.old ++ life_text names.now node.now link life) }
    ensures only_memory { IsOkUnless result Fault.NoMemory }
{
    let conn = conn_of(node, link, life);
    let count = node.parked(&conn);
    let first = node.pending().first_waiting(&conn);
    write_first_held(out, names, node, link, life, count, first)?;
    Ok(())
}

/// Adds the lines of what is parked on a link's connections.
fn write_held(out: &mut String, names: &Names, node: &Node, link: u8) -> Result<(), Fault>
    ensures added { OnOk result (string_bytes out.new ≡ string_bytes out.old ++ held_on names.now node.now link) }
    ensures only_memory { IsOkUnless result Fault.NoMemory }
{
    let lives = node.lives(link);
    for index in 0..lives {
        write_life(out, names, node, link, index + 1)?;
    }
    Ok(())
}

/// Adds the lines of all that is parked.
pub fn write_holds(out: &mut String, names: &Names, node: &Node) -> Result<(), Fault>
    ensures added { OnOk result (string_bytes out.new ≡ string_bytes out.old ++ of_links (held_on names.now node.now) (links_of node.now)) }
    ensures only_memory { IsOkUnless result Fault.NoMemory }
{
    for link in 0..links(node) {
        write_held(out, names, node, link)?;
    }
    Ok(())
}
