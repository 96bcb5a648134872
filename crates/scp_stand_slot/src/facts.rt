//! What a slot's machine shows: its leaders, the nodes that it heard, and what it needs.
ghost use Rattle.std.specs.Prelude.{◌≡◌, ◌≤◌, ◌↔◌, ◌⊎◌, true, false, length, filter, slice_get, Some, is_some, Contains, IfOk, OnOk, IsOkUnless};
ghost use Rattle.std.specs.List.Sorted.{IsStrictlySortedBy};
ghost use Rattle.scp_slot.specs.scp_types.specs.declared.names.NodeId.{NodeId};
ghost use Rattle.scp_slot.specs.scp_quorum.specs.NodeSet.{node_cmp, is_in};
ghost use Rattle.scp_script.specs.scp_wire.specs.Connections.{same_node};
ghost use Rattle.scp_slot.specs.scp_driver.specs.Kv.{leader_place};
ghost use Rattle.scp_slot.specs.scp_vote.specs.Seen.{seen};
ghost use Rattle.scp_slot.specs.scp_vote.specs.declared.claim.StatementKind.TheVariants.{Balloting};
ghost use Rattle.scp_slot.specs.scp_nominate.specs.Heard.{heard};
ghost use Rattle.scp_slot.specs.scp_nominate.specs.Turns.{Leads};
ghost use Rattle.scp_slot.specs.scp_nominate.specs.Nomination.{nomination};
ghost use Rattle.scp_stand_slot.specs.Machine.{AreLeaders, AreHeard, is_silent as is_silent_of, lacks_vote as lacks_vote_of, AreToNominate};

use scp_slot::below::driver::{KvDriver, place_of};
use scp_slot::below::nominate::Nominator;
use scp_slot::below::types::{Fault, NodeId, Slot};
use scp_slot::below::vote::{Board, StatementKind};
use scp_stand_needs::{Need, needs_of_nomination};
use std::alloc::{AllocError, Global};
use std::collections::BTreeSet;

/// The nodes of the set, ascending.
fn list_of(alloc: Global, nodes: &BTreeSet<NodeId>) -> Result<Vec<NodeId>, AllocError>
    ensures these { IfOk result (λ list. (v : NodeId) → Contains list.items v ↔ (is_in nodes.now v ≡ true)) }
    ensures ascending { IfOk result (λ list. IsStrictlySortedBy node_cmp list.items) }
{
    let list: Vec<NodeId> = nodes.iter().copied().collect(alloc)?;
    Ok(list)
}

/// Adds the node.
fn add_node(nodes: &mut BTreeSet<NodeId>, node: NodeId) -> Result<(), AllocError>
    ensures { OnOk result ((v : NodeId) → (is_in nodes.new v ≡ true) ↔ ((is_in nodes.old v ≡ true) ⊎ (node ≡ v))) }
{
    nodes.insert(node)?;
    Ok(())
}

/// Adds the leader of the round.
fn add_leader(
    leaders: &mut BTreeSet<NodeId>,
    slot: Slot,
    round: u64,
    members: &[NodeId],
) -> Result<(), AllocError>
    requires round { 1 ≤ round }
    requires some { 1 ≤ length members.now }
    ensures { OnOk result ((v : NodeId) → (is_in leaders.new v ≡ true) ↔ ((is_in leaders.old v ≡ true) ⊎ (slice_get members.now (leader_place slot.0 round (length members.now)) ≡ Some v))) }
{
    let place = place_of(slot, round, members.len());
    add_node(leaders, members[place])
}

/// The leaders of this many rounds.
fn set_of_leaders(
    alloc: Global,
    slot: Slot,
    rounds: u64,
    members: &[NodeId],
) -> Result<BTreeSet<NodeId>, AllocError>
    requires some { 1 ≤ length members.now }
    ensures { IfOk result (λ leaders. (v : NodeId) → (is_in leaders v ≡ true) ↔ Leads (leader_place slot.0) members.now rounds v) }
{
    let mut leaders = BTreeSet::new(alloc);
    for index in 0..rounds {
        add_leader(&mut leaders, slot, index + 1, members)?;
    }
    Ok(leaders)
}

/// Without members, no node leads.
fn no_leaders(alloc: Global, slot: Slot, rounds: u64, members: &[NodeId]) -> Vec<NodeId>
    requires none { length members.now ≡ 0 }
    ensures { AreLeaders slot.0 members.now rounds result.items }
{
    Vec::new(alloc)
}

/// The leaders of this many rounds, ascending, if there are members.
fn list_of_leaders(
    alloc: Global,
    slot: Slot,
    rounds: u64,
    members: &[NodeId],
) -> Result<Vec<NodeId>, AllocError>
    requires some { 1 ≤ length members.now }
    ensures { IfOk result (λ leaders. AreLeaders slot.0 members.now rounds leaders.items) }
{
    let leaders = set_of_leaders(alloc, slot, rounds, members)?;
    list_of(alloc, &leaders)
}

/// The leaders of this many rounds, ascending. The members lead in turn.
pub(crate) fn leaders(
    alloc: Global,
    slot: Slot,
    rounds: u64,
    members: &[NodeId],
) -> Result<Vec<NodeId>, AllocError>
    ensures { IfOk result (λ leaders. AreLeaders slot.0 members.now rounds leaders.items) }
{
    if members.is_empty() {
        return Ok(no_leaders(alloc, slot, rounds, members));
    }
    list_of_leaders(alloc, slot, rounds, members)
}

/// The nodes that have a statement of this kind on the board.
fn speakers(alloc: Global, board: &Board, kind: StatementKind) -> Result<Vec<NodeId>, AllocError>
    ensures { IfOk result (λ nodes. (v : NodeId) → Contains nodes.items v ↔ (is_some ((seen kind board.now).statement v) ≡ true)) }
{
    let nodes: Vec<NodeId> = board.statements(kind).keys().copied().collect(alloc)?;
    Ok(nodes)
}

/// Adds the node, if it isn't this one.
fn add_other(others: &mut BTreeSet<NodeId>, me: NodeId, node: NodeId) -> Result<(), AllocError>
    ensures { OnOk result ((v : NodeId) → (is_in others.new v ≡ true) ↔ ((is_in others.old v ≡ true) ⊎ ((node ≡ v) × (same_node node me ≡ false)))) }
{
    if node == me {
        return Ok(());
    }
    add_node(others, node)
}

/// Adds the nodes, but not this one.
fn add_others(others: &mut BTreeSet<NodeId>, me: NodeId, nodes: &[NodeId]) -> Result<(), AllocError>
    ensures { OnOk result ((v : NodeId) → (is_in others.new v ≡ true) ↔ ((is_in others.old v ≡ true) ⊎ (Contains nodes.now v × (same_node v me ≡ false)))) }
{
    for node in nodes {
        add_other(others, me, *node)?;
    }
    Ok(())
}

/// The other nodes with a statement on one of the boards, ascending.
pub(crate) fn others(
    alloc: Global,
    me: NodeId,
    nominations: &Board,
    ballots: &Board,
) -> Result<Vec<NodeId>, AllocError>
    ensures { IfOk result (λ others. AreHeard me (heard nominations.now) (seen Balloting ballots.now) others.items) }
{
    let mut others = BTreeSet::new(alloc);
    let nominating = speakers(alloc, nominations, StatementKind::Nomination)?;
    add_others(&mut others, me, nominating.as_slice())?;
    let balloting = speakers(alloc, ballots, StatementKind::Balloting)?;
    add_others(&mut others, me, balloting.as_slice())?;
    list_of(alloc, &others)
}

/// Whether this is another node that has no statement on either board.
fn is_silent(me: &NodeId, nominations: &Board, ballots: &Board, node: &NodeId) -> bool
    ensures { result ≡ is_silent_of me.now (heard nominations.now) (seen Balloting ballots.now) node.now }
{
    *node != *me
        && nominations
            .statement(StatementKind::Nomination, node)
            .is_none()
        && ballots.statement(StatementKind::Balloting, node).is_none()
}

/// The members that are other nodes without a statement on either board.
pub(crate) fn silent(
    alloc: Global,
    me: &NodeId,
    nominations: &Board,
    ballots: &Board,
    members: &[NodeId],
) -> Result<Vec<NodeId>, AllocError>
    ensures { IfOk result (λ nodes. nodes.items ≡ filter (is_silent_of me.now (heard nominations.now) (seen Balloting ballots.now)) members.now) }
{
    let mut nodes = Vec::new(alloc);
    for node in members {
        if is_silent(me, nominations, ballots, node) {
            nodes.push(*node)?;
        }
    }
    Ok(nodes)
}

/// Whether no vote can come from this leader so far. `proposes` says whether this node has a proposal.
fn lacks_vote(me: &NodeId, proposes: bool, nominations: &Board, leader: &NodeId) -> bool
    ensures { result ≡ lacks_vote_of me.now proposes (heard nominations.now) leader.now }
{
    if *leader == *me {
        return !proposes;
    }
    nominations
        .statement(StatementKind::Nomination, leader)
        .is_none()
}

/// The leaders from which no vote can come so far.
pub(crate) fn lacking(
    alloc: Global,
    me: &NodeId,
    proposes: bool,
    nominations: &Board,
    leaders: &[NodeId],
) -> Result<Vec<NodeId>, AllocError>
    ensures { IfOk result (λ nodes. nodes.items ≡ filter (lacks_vote_of me.now proposes (heard nominations.now)) leaders.now) }
{
    let mut nodes = Vec::new(alloc);
    for leader in leaders {
        if lacks_vote(me, proposes, nominations, leader) {
            nodes.push(*leader)?;
        }
    }
    Ok(nodes)
}

/// What values need to be nominated, if there is no candidate.
pub(crate) fn to_nominate(
    alloc: Global,
    members: &[NodeId],
    nominator: &Nominator<KvDriver>,
    nominations: &Board,
) -> Result<Vec<Need>, Fault>
    ensures needs { IfOk result (λ needs. AreToNominate (nomination nominator.now).lists.candidates nominations.now members.now needs.items) }
    ensures only_memory { IsOkUnless result Fault.NoMemory }
{
    match nominator.candidates() {
        [] => needs_of_nomination(alloc, members, nominations),
        [_, ..] => Ok(Vec::new(alloc)),
    }
}
