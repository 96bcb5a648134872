//! The nodes of a script.
ghost use Rattle.std.specs.Prelude.{◌≡◌, ◌≤◌, [], All, IfOk, IsOkUnless, map, option_to_list};
ghost use Rattle.scp_wire.specs.scp_types.specs.declared.limits.TheConstants.{NODE_LIMIT};
ghost use Rattle.scp_wire.specs.scp_quorum.specs.Sane.{IsSane};
ghost use Rattle.scp_script.specs.Script.{node_count, AreAdmitted, IsNode};
ghost use Rattle.scp_script.specs.Nodes.{NamesNodes, IsSmall, id_of, numbers, peers_of, of_all, set_given, set_at, capacities_in};

use crate::command::Command;
use scp_wire::below::quorum::QuorumSet;
use scp_wire::below::types::{Capacities, Fault, NodeId};
use std::alloc::{AllocError, Global};

/// The id of a node: 32 bytes, each of which is its number.
pub fn id_from(number: u8) -> NodeId
    ensures { result ≡ id_of number }
{
    NodeId([number; 32])
}

/// How many nodes the commands give, at most 8: 0 if there is no `nodes` line.
pub fn count_of_nodes(commands: &[Command]) -> u8
    requires names { All NamesNodes commands.now }
    ensures count { result ≡ node_count commands.now }
    ensures few { result ≤ NODE_LIMIT }
{
    let mut count = 0;
    for command in commands {
        if let Command::Nodes { count: nodes, .. } = command {
            count = *nodes;
        }
    }
    count
}

/// The capacities of each node's queues: those of the last `caps` line, or 64 each.
pub fn capacities_of(commands: &[Command]) -> Capacities
    ensures { result ≡ capacities_in commands.now }
{
    let mut last = None;
    for command in commands {
        if let Command::Caps(capacities) = command {
            last = Some(*capacities);
        }
    }
    match last {
        Some(capacities) => capacities,
        None => Capacities {
            link: 64,
            inbox: 64,
            ready: 64,
            decided: 64,
        },
    }
}

/// The ids of `count` nodes, ascending.
#[tactic(auto, using(crate::proofs::Peers::ids_more))]
fn ids(alloc: Global, count: u8) -> Result<Vec<NodeId>, AllocError>
    requires { count ≤ NODE_LIMIT }
    ensures { IfOk result (λ ids. ids.items ≡ map id_of (numbers count)) }
{
    let mut ids = Vec::new(alloc);
    for index in 0..count {
        ids.push(id_from(index + 1))?;
    }
    Ok(ids)
}

/// The peers of a node among `count` nodes: the ids of the others, ascending. It fails only when out of memory.
#[tactic(auto, using(crate::proofs::Peers::peers_more))]
pub fn peers_of_node(alloc: Global, count: u8, node: u8) -> Result<Vec<NodeId>, AllocError>
    requires { count ≤ NODE_LIMIT }
    ensures { IfOk result (λ peers. peers.items ≡ peers_of count node) }
{
    let mut peers = Vec::new(alloc);
    for index in 0..count {
        if index + 1 != node {
            peers.push(id_from(index + 1))?;
        }
    }
    Ok(peers)
}

/// The quorum set with the threshold `quorum` over all `count` nodes.
fn of_all(alloc: Global, count: u8, quorum: u8) -> Result<QuorumSet, AllocError>
    requires { count ≤ NODE_LIMIT }
    ensures { IfOk result (λ set. set ≡ of_all count quorum) }
{
    Ok(QuorumSet::of_nodes(u32::from(quorum), ids(alloc, count)?))
}

/// The quorum set that a command gives the node of this number, if it gives it one.
fn given(alloc: Global, command: &Command, number: u8) -> Result<Option<QuorumSet>, Fault>
    requires names { NamesNodes command.now }
    ensures set { IfOk result (λ set. option_to_list set ≡ set_given number command.now) }
    ensures only_memory { IsOkUnless result Fault.NoMemory }
{
    match command {
        Command::Nodes { count, quorum } => Ok(Some(of_all(alloc, *count, *quorum)?)),
        Command::Set { node, set } if *node == number => Ok(Some(set.copy()?)),
        _ => Ok(None),
    }
}

/// The quorum set of the node of this number: the last that the commands give it. If they give it none, it is 1 of node 1. The only error
/// is `NoMemory`.
pub fn set_of_node(alloc: Global, commands: &[Command], number: u8) -> Result<QuorumSet, Fault>
    requires names { All NamesNodes commands.now }
    requires admitted { AreAdmitted [] commands.now }
    ensures set { IfOk result (λ set. set ≡ set_at number commands.now) }
    // It is sane.
    ensures sane { IsSane (set_at number commands.now) }
    ensures only_memory { IsOkUnless result Fault.NoMemory }
{
    let mut last = None;
    for command in commands {
        if let Some(set) = given(alloc, command, number)? {
            last = Some(set);
        }
    }
    match last {
        Some(set) => Ok(set),
        None => Ok(of_all(alloc, 1, 1)?),
    }
}
