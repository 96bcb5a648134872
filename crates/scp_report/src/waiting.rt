//! What a node holds, connection by connection.
ghost use Rattle.std.specs.Prelude.{◌≡◌, ◌≤◌, ◌++◌, IfOk, OnOk, length, take};
ghost use Rattle.scp_core.specs.scp_types.specs.declared.limits.TheConstants.{LINK_LIMIT};
ghost use Rattle.scp_report.specs.Waiting.{parked_of, parked_in, parked_over};

use crate::report::Parked;
use scp_core::Node;
use scp_core::below::types::{ConnId, LINK_LIMIT, NodeId};
use std::alloc::{AllocError, Global};

/// Adds how many messages of a connection the node holds, if any.
fn add(parked: &mut Vec<Parked>, node: &Node, conn: ConnId) -> Result<(), AllocError>
    ensures { OnOk result (parked.new.items ≡ parked.old.items ++ parked_of node.now conn) }
{
    let count = node.parked(&conn);
    if count > 0 {
        let first = node.pending().first_waiting(&conn);
        parked.push(Parked { conn, count, first })?;
    }
    Ok(())
}

/// Adds the connections over a link.
fn add_link(
    parked: &mut Vec<Parked>,
    node: &Node,
    link: u8,
    peer: &NodeId,
) -> Result<(), AllocError>
    ensures { OnOk result (parked.new.items ≡ parked.old.items ++ parked_over node.now link peer.now) }
{
    let me = node.me();
    for index in 0..node.lives(link) {
        let conn = ConnId {
            from: *peer,
            to: me,
            life: index + 1,
        };
        add(parked, node, conn)?;
    }
    Ok(())
}

/// The peers of a node's links: the first hundred, if there are more.
pub fn first_peers(peers: &[NodeId]) -> &[NodeId]
    ensures first { result.now ≡ take LINK_LIMIT peers.now }
    ensures few { length result.now ≤ LINK_LIMIT }
{
    match peers.get(..LINK_LIMIT as usize) {
        Some(first) => first,
        None => peers,
    }
}

/// The connections whose messages a node holds, link by link and by their lives, each with the number of messages.
pub fn parked_at(alloc: Global, node: &Node) -> Result<Vec<Parked>, AllocError>
    ensures { IfOk result (λ parked. parked.items ≡ parked_in node.now) }
{
    let peers = first_peers(node.peers());
    let mut parked = Vec::new(alloc);
    let mut link = 0;
    for peer in peers {
        add_link(&mut parked, node, link, peer)?;
        link += 1;
    }
    Ok(parked)
}
