//! A run from its beginning to its end: its script, and the reports of its nodes.
ghost use Rattle.std.specs.Prelude.{◌≤◌, All, IfOk, string_bytes};
ghost use Rattle.scp_line.specs.scp_script.specs.Nodes.{NamesNodes};
ghost use Rattle.scp_sim.specs.Simulated.{IsSimulated};

use crate::first::{beginning, see_numbers};
use crate::pace::Pace;
use crate::world::{SimFault, Simulated, World};
use scp_again::below::types::NODE_LIMIT;
use scp_again::below::wire::Bytes;
use scp_line::below::script::Command;
use scp_line::below::turn::Network;
use scp_line::played_reports;
use scp_sim_options::Plan;
use std::alloc::{AllocError, Global};

/// The most points in time at which anything happens.
const MOST_TIMES: u32 = 10_000_000;

/// If nothing was sent on a link, makes the script send an empty message there. So what its sender says doesn't travel when the script
/// is played.
fn mute(world: &mut World<'_>, from: u8, to: u8) -> Result<(), SimFault> {
    let link = world.links.get(from, to);
    if link.life == 0 || link.is_used {
        return Ok(());
    }
    if !link.is_open {
        world.act(Command::Open { from, to })?;
    }
    let bytes = Bytes::new(Vec::new(world.alloc));
    world.act(Command::Send { from, to, bytes })
}

/// Does the same for each link on which nothing was sent.
fn mute_all(world: &mut World<'_>, count: u8) -> Result<(), SimFault> {
    for from in 1..=count {
        for to in 1..=count {
            if from != to {
                mute(world, from, to)?;
            }
        }
    }
    Ok(())
}

/// The lines that ask for the reports of this many nodes.
fn ask_all(world: &mut World<'_>, count: u8) -> Result<Vec<Command>, SimFault>
    requires few { count ≤ NODE_LIMIT }
    ensures names { IfOk result (λ commands. All NamesNodes commands.items) }
{
    let mut commands = Vec::new(world.alloc);
    for node in 1..=count {
        world.act(Command::Report(node))?;
        commands.push(Command::Report(node))?;
    }
    Ok(commands)
}

/// The reports that lines ask for.
fn reports_of(alloc: Global, network: &Network, commands: &[Command]) -> Result<String, AllocError>
    requires names { All NamesNodes commands.now }
{
    let nodes = network.nodes();
    let few = &nodes[..nodes.len().min(NODE_LIMIT)];
    played_reports(alloc, few, commands)
}

/// The last lines of the script, and the reports.
fn finish(world: &mut World<'_>) -> Result<String, SimFault> {
    let count = world.plan.nodes.min(NODE_LIMIT as u8);
    mute_all(world, count)?;
    let commands = ask_all(world, count)?;
    Ok(reports_of(world.alloc, &world.network, commands.as_slice())?)
}

/// Plays all that happens, and then asks for the reports.
fn run_to_the_end<P: Pace>(world: &mut World<'_>, pace: &mut P) -> Result<String, SimFault> {
    world.begin()?;
    for _ in 0..MOST_TIMES {
        if !world.next()? {
            break;
        }
        let far = world.far();
        pace.at(&far);
    }
    finish(world)
}

/// Simulates a plan with a seed. `pace` is told how far it is. Refused by `Sets` if the plan's lines that give quorum sets are bad.
pub fn simulate<P: Pace>(
    alloc: Global,
    plan: &Plan,
    seed: u64,
    pace: &mut P,
) -> Result<Simulated, SimFault>
    ensures { IfOk result (λ run. IsSimulated plan.now (string_bytes run.script)) }
{
    see_numbers(plan);
    let first = beginning(alloc, plan)?;
    let mut world = World::new(alloc, plan, seed, first.as_str())?;
    let reports = run_to_the_end(&mut world, pace)?;
    Ok(world.into_simulated(first, reports)?)
}
