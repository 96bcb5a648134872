//! Which slots are proposed for, and which of them are led.
ghost use Rattle.std.specs.Prelude.{◌≡◌, ◌<◌, ◌+◌, ◌^◌, ◌||◌, ◌&&◌, ℕ, count_by, IfOk, OnOk, if◌then◌else◌};
ghost use Rattle.std.specs.Option.{unwrap_or};
ghost use Rattle.std.specs.Ordering.{nat_cmp};
ghost use Rattle.std.specs.BTreeMap as tree;
ghost use Rattle.std.specs.BTreeSet as sorted;
ghost use Rattle.scp_script.specs.Script.{node_count};
ghost use Rattle.scp_script_check.specs.Nodes.{is_round, proposes_at};
ghost use Rattle.scp_script_check.specs.inside.Nodes.{is_slot};
ghost use Rattle.scp_script_check.specs.inside.Led.{leads_by};
ghost use Rattle.scp_script_check.specs.Warnings.{leads_own, is_led};

use crate::turns::{Turn, leads, turn_at};
use scp_nominate::below::kv::is_ops;
use scp_nominate::below::types::NodeId;
use scp_script::{Command, id_from};
use std::alloc::{AllocError, Global};
use std::collections::{BTreeMap, BTreeSet};

/// How many rounds of a slot are counted.
fn rounds_at(rounds: &BTreeMap<u64, u64>, slot: u64) -> u64
    ensures { result ≡ unwrap_or (tree.get nat_cmp rounds.now slot) 0 }
{
    match rounds.get(&slot) {
        Some(count) => *count,
        None => 0,
    }
}

/// Counts one more round of a slot, if one is given.
fn count(rounds: &mut BTreeMap<u64, u64>, slot: Option<u64>) -> Result<(), AllocError>
    requires fits { (q : ℕ) → unwrap_or (tree.get nat_cmp rounds.old q) 0 < 2 ^ 63 }
    ensures { OnOk result ((q : ℕ) → unwrap_or (tree.get nat_cmp rounds.new q) 0 ≡ unwrap_or (tree.get nat_cmp rounds.old q) 0 + (if is_slot q slot then 1 else 0)) }
{
    let Some(slot) = slot else {
        return Ok(());
    };
    let more = rounds_at(rounds, slot) + 1;
    rounds.insert(slot, more)?;
    Ok(())
}

/// The slot of which the command begins a round, if the command is the node's.
fn round_of(command: &Command, node: u8) -> Option<u64>
    ensures { (slot : ℕ) → is_slot slot result ≡ is_round node slot command.now }
{
    match command {
        Command::Round { node: at, slot } => { if *at == node { Some(*slot) } else { None } }
        _ => None,
    }
}

/// How many `round` lines of each slot a node has.
fn rounds_of(
    alloc: Global,
    commands: &[Command],
    node: u8,
) -> Result<BTreeMap<u64, u64>, AllocError>
    ensures { IfOk result (λ rounds. (slot : ℕ) → unwrap_or (tree.get nat_cmp rounds slot) 0 ≡ count_by (is_round node slot) commands.now) }
{
    let mut rounds = BTreeMap::new(alloc);
    for command in commands {
        count(&mut rounds, round_of(command, node))?;
    }
    Ok(rounds)
}

/// The slot for which the command proposes an operation list, if the command is the node's.
fn slot_of(command: &Command, node: u8) -> Option<u64>
    ensures { (slot : ℕ) → is_slot slot result ≡ proposes_at node slot command.now }
{
    match command {
        Command::Propose {
            node: at,
            slot,
            value,
        } => {
            if *at == node && is_ops(value) {
                Some(*slot)
            } else {
                None
            }
        }
        _ => None,
    }
}

/// Whether the node leads the slot, in as many rounds as its `round` lines reach.
fn is_leading(nodes: &[NodeId], rounds: &BTreeMap<u64, u64>, node: u8, slot: u64) -> bool
    ensures { result ≡ leads_by nodes.now rounds.now node slot }
{
    let reached = rounds_at(rounds, slot).saturating_add(1);
    leads(nodes, id_from(node), slot, reached.min(nodes.len() as u64))
}

/// Adds the slot, if there is one and the node leads it.
fn add_leading(
    nodes: &[NodeId],
    rounds: &BTreeMap<u64, u64>,
    node: u8,
    slot: Option<u64>,
    led: &mut BTreeSet<u64>,
) -> Result<(), AllocError>
    ensures { OnOk result ((q : ℕ) → sorted.contains nat_cmp led.new q ≡ (sorted.contains nat_cmp led.old q || (is_slot q slot && leads_by nodes.now rounds.now node q))) }
{
    let Some(slot) = slot else {
        return Ok(());
    };
    if !is_leading(nodes, rounds, node, slot) {
        return Ok(());
    }
    led.insert(slot)?;
    Ok(())
}

/// Adds the slots that the node leads, of those that it proposes an operation list for.
fn add_led(
    alloc: Global,
    commands: &[Command],
    nodes: &[NodeId],
    node: u8,
    led: &mut BTreeSet<u64>,
) -> Result<(), AllocError>
    ensures { OnOk result ((q : ℕ) → sorted.contains nat_cmp led.new q ≡ (sorted.contains nat_cmp led.old q || leads_own nodes.now commands.now q node)) }
{
    let rounds = rounds_of(alloc, commands, node)?;
    for command in commands {
        add_leading(nodes, &rounds, node, slot_of(command, node), led)?;
    }
    Ok(())
}

/// The slots that a node leads which proposes an operation list for them, in as many rounds as its `round` lines reach.
pub fn led(
    alloc: Global,
    commands: &[Command],
    turns: &[Turn],
    count: u8,
) -> Result<BTreeSet<u64>, AllocError>
    requires count { count ≡ node_count commands.now }
    ensures led { IfOk result (λ led. (slot : ℕ) → sorted.contains nat_cmp led slot ≡ is_led turns.now commands.now slot) }
{
    let mut led = BTreeSet::new(alloc);
    for index in 0..count {
        let node = index + 1;
        add_led(alloc, commands, turn_at(turns, node), node, &mut led)?;
    }
    Ok(led)
}
