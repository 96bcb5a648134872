//! Rounds of all nodes: the stages of each do their steps, and then its next messages go out.
ghost use Rattle.std.specs.Prelude.{◌≡◌, ◌≢◌, ◌<◌, ◌≤◌, ◌+◌, length, IfSome, None};
ghost use Rattle.scp_turn.specs.Watch.{notes};
ghost use Rattle.scp_turn.specs.Rounds.{link_of, is_driven, Carries, IsTurn, IsRound, HasFailed, AllRun};
ghost use Rattle.scp_turn.specs.Heard.{InOrder};
ghost use Rattle.scp_turn.specs.inside.Carrying.{AcceptsAt, Acts, Transmits};
ghost use Rattle.scp_turn.specs.Heard.{Noted};
ghost use Rattle.scp_turn.specs.Network.{Settled};

use crate::linked::SIDE;
use crate::stepping::{hear, work_at};
use crate::turns::either;
use crate::{Event, KvDriver, Node, Reply, Watch};
use scp_core::below::types::{NETWORK_LIMIT, ROUND_LIMIT};
use scp_core::below::wire::link_of;

/// The number of a node's link from another, by the places of both from 0 on.
fn link_at(from: usize, to: usize) -> u8
    requires from { from < NETWORK_LIMIT }
    requires to { to < NETWORK_LIMIT }
    ensures { result ≡ link_of (from + 1) (to + 1) }
{
    link_of(from as u8 + 1, to as u8 + 1)
}

/// Whether only the caller sends on the link from one node to another, by the places of both.
fn drives(driven: &[bool], from: usize, to: usize) -> bool
    requires from { from < NETWORK_LIMIT }
    requires to { to < NETWORK_LIMIT }
    ensures { result ≡ is_driven driven.now (from + 1) (to + 1) }
{
    match driven.get(from * SIDE + to) {
        Some(driven) => *driven,
        None => false,
    }
}

/// Drains the next message from a node to another, and sends it there. Returns whether anything was sent.
fn transmit<W: Watch<KvDriver>>(
    nodes: &mut Vec<Node>,
    watch: &mut W,
    from: usize,
    to: usize,
) -> bool
    requires few { length nodes.old.items ≤ NETWORK_LIMIT }
    requires from { from < length nodes.old.items }
    requires to { to < length nodes.old.items }
    requires apart { from ≢ to }
    requires accepts { AcceptsAt nodes.old.items to (link_of (from + 1) (to + 1)) }
    ensures { Acts (Noted (notes W.notes_before W.notes_after) watch.old watch.new) nodes.old.items nodes.new.items (Transmits (from + 1) (to + 1)) result }
{
    match hear(nodes, watch, from, Event::Drain(link_at(to, from))) {
        Reply::Sent(bytes) => {
            let _ = hear(nodes, watch, to, Event::Send(link_at(from, to), bytes));
            true
        }
        _ => false,
    }
}

/// What goes over the link from one node to another in a turn. Returns whether anything was sent.
fn carry<W: Watch<KvDriver>>(
    nodes: &mut Vec<Node>,
    watch: &mut W,
    driven: &[bool],
    from: usize,
    to: usize,
) -> bool
    requires few { length nodes.old.items ≤ NETWORK_LIMIT }
    requires from { from < length nodes.old.items }
    requires to { to < length nodes.old.items }
    ensures { Acts (Noted (notes W.notes_before W.notes_after) watch.old watch.new) nodes.old.items nodes.new.items (Carries driven.now (from + 1) (to + 1)) result }
{
    if from == to || drives(driven, from, to) || !nodes[to].accepts(link_at(from, to)) {
        return false;
    }
    transmit(nodes, watch, from, to)
}

/// What a node sends in its turn, to each other node in the order of their numbers. Returns whether anything was sent.
fn carry_all<W: Watch<KvDriver>>(
    nodes: &mut Vec<Node>,
    watch: &mut W,
    driven: &[bool],
    from: usize,
) -> bool
    requires few { length nodes.old.items ≤ NETWORK_LIMIT }
    requires from { from < length nodes.old.items }
    ensures { Acts (Noted (notes W.notes_before W.notes_after) watch.old watch.new) nodes.old.items nodes.new.items (InOrder (Carries driven.now (from + 1)) (length nodes.old.items)) result }
{
    let mut sent = false;
    for to in 0..nodes.len() {
        let carried = carry(nodes, watch, driven, from, to);
        sent = either(sent, carried);
    }
    sent
}

/// A node's turn. Returns whether anything moved or was sent.
fn turn<W: Watch<KvDriver>>(
    nodes: &mut Vec<Node>,
    watch: &mut W,
    driven: &[bool],
    index: usize,
) -> bool
    requires few { length nodes.old.items ≤ NETWORK_LIMIT }
    requires index { index < length nodes.old.items }
    ensures { Acts (Noted (notes W.notes_before W.notes_after) watch.old watch.new) nodes.old.items nodes.new.items (IsTurn driven.now (length nodes.old.items) (index + 1)) result }
{
    let links = (nodes.len() - 1) as u8;
    let moved = work_at(nodes, watch, index, links);
    let sent = carry_all(nodes, watch, driven, index);
    either(moved, sent)
}

/// A round of all nodes. Returns whether anything moved or was sent.
fn round<W: Watch<KvDriver>>(nodes: &mut Vec<Node>, watch: &mut W, driven: &[bool]) -> bool
    requires few { length nodes.old.items ≤ NETWORK_LIMIT }
    ensures { Acts (Noted (notes W.notes_before W.notes_after) watch.old watch.new) nodes.old.items nodes.new.items (IsRound driven.now (length nodes.old.items)) result }
{
    let mut moved = false;
    for index in 0..nodes.len() {
        let goes = turn(nodes, watch, driven, index);
        moved = either(moved, goes);
    }
    moved
}

/// The number of the first node that failed, if one did.
fn failed(nodes: &[Node]) -> Option<u8>
    requires few { length nodes.now ≤ NETWORK_LIMIT }
    ensures failed { IfSome result (λ number. HasFailed nodes.now number) }
    ensures none { result ≡ None → AllRun nodes.now }
{
    for (index, node) in nodes.iter().enumerate() {
        if node.has_failed() {
            return Some(index as u8 + 1);
        }
    }
    None
}

/// Brings the nodes to rest: rounds, until one moves nothing and sends nothing, or 100,000. Returns whether they came to rest. Refused by the
/// number of the first node that failed.
pub fn settle<W: Watch<KvDriver>>(
    nodes: &mut Vec<Node>,
    watch: &mut W,
    driven: &[bool],
) -> Result<bool, u8>
    requires few { length nodes.old.items ≤ NETWORK_LIMIT }
    ensures { Settled (Noted (notes W.notes_before W.notes_after) watch.old watch.new) driven.now nodes.old.items result nodes.new.items }
{
    for _ in 0..ROUND_LIMIT {
        let moved = round(nodes, watch, driven);
        if let Some(number) = failed(nodes.as_slice()) {
            return Err(number);
        }
        if !moved {
            return Ok(true);
        }
    }
    Ok(false)
}
