//! How many entries of the journal changed nothing, peer by peer.
ghost use Rattle.std.specs.Prelude.{◌≡◌, ◌≤◌, IfOk, length, map, take};
ghost use Rattle.scp_again.specs.scp_theorem.specs.Fates.{conn_of};
ghost use Rattle.scp_live.specs.Idle.{is_change, is_idle, is_idle_of, idle_in};

use crate::telling::behind;
use scp_again::below::node::Fate;
use scp_again::below::types::NodeId;
use scp_turn::Verdict;
use std::alloc::{AllocError, Global};

/// Whether a message with this verdict changed something at its slot.
fn is_change(verdict: Verdict) -> bool
    ensures { result ≡ is_change verdict }
{
    match verdict {
        Verdict::Fresh | Verdict::Decided => true,
        _ => false,
    }
}

/// Whether the entry changed nothing.
fn is_idle(fate: &Fate) -> bool
    ensures { result ≡ is_idle fate.now }
{
    match fate {
        Fate::Taken { verdict, .. } => !is_change(*verdict),
        Fate::Dropped { .. } | Fate::Closed { .. } => true,
    }
}

/// Who sends on the connection of the entry.
fn sender(fate: &Fate) -> NodeId
    ensures { result ≡ (conn_of fate.now).from }
{
    match fate {
        Fate::Taken { conn, .. } => conn.from,
        Fate::Dropped { conn, .. } => conn.from,
        Fate::Closed { conn, .. } => conn.from,
    }
}

/// Whether the entry is of the peer, and changed nothing.
fn is_idle_of(peer: &NodeId, fate: &Fate) -> bool
    ensures { result ≡ is_idle_of peer.now fate.now }
{
    sender(fate) == *peer && is_idle(fate)
}

/// How many of these entries are of the peer, and changed nothing.
fn idle_in(fates: &[Fate], peer: &NodeId) -> usize
    ensures { result ≡ idle_in fates.now peer.now }
{
    let mut count = 0;
    for fate in fates {
        if is_idle_of(peer, fate) {
            count += 1;
        }
    }
    count
}

/// That count for each of these peers, in order.
pub fn counts(alloc: Global, fates: &[Fate], peers: &[NodeId]) -> Result<Vec<usize>, AllocError>
    ensures { IfOk result (λ counts. counts.items ≡ map (idle_in fates.now) peers.now) }
{
    let mut counts = Vec::with_capacity(alloc, peers.len())?;
    for peer in peers {
        counts.push(idle_in(fates, peer))?;
    }
    Ok(counts)
}

/// Adds to each count what is new, behind the first `before` entries of the journal.
pub fn count_on(counts: &mut [usize], peers: &[NodeId], journal: &[Fate], before: usize)
    requires within { before ≤ length journal.now }
    requires counted { counts.old ≡ map (idle_in (take before journal.now)) peers.now }
    ensures { counts.new ≡ map (idle_in journal.now) peers.now }
{
    let fresh = behind(journal, before);
    for place in 0..peers.len() {
        counts[place] += idle_in(fresh, &peers[place]);
    }
}
