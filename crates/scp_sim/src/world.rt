//! Nodes, their links and what is due at a point in time, and the script of all that happened.
ghost use Rattle.std.specs.Prelude.{◌≤◌, [], All, IfOk, OnOk, string_bytes};
ghost use Rattle.scp_again.specs.scp_types.specs.declared.limits.TheConstants.{NODE_LIMIT};
ghost use Rattle.scp_line.specs.scp_script.specs.Nodes.{NamesNodes};
ghost use Rattle.scp_line.specs.scp_script.specs.Script.{AreAdmitted};
ghost use Rattle.scp_sim.specs.inside.Follows.{IsRead, Follows};

use crate::actor::Actor;
use crate::due::{Agenda, Due};
use crate::first::read_first;
use crate::lines::Happened;
use crate::links::Links;
use rand_chacha::ChaCha12Rng;
use rand_core::SeedableRng;
use scp_again::below::node::{Config, KvDriver, Node, Peers};
use scp_again::below::types::Fault;
use scp_line::below::script::{capacities_of, count_of_nodes, id_from, peers_of_node, set_of_node};
use scp_line::below::turn::Network;
use scp_line::{PlayFault, a_script_has_room, new_network};
use scp_script_check::{ReadFault, Script};
use scp_sim_options::{Plan, is_marked};
use std::alloc::{AllocError, AllocFailed, Global};

/// Milliseconds in a second.
pub const SECOND: u64 = 1_000;
/// After this many milliseconds without an applied slot, a node sends its messages once more, and asks for records.
pub const STALLED: u64 = 5 * SECOND;
/// After this many milliseconds without an applied slot, and with no change of links to come, a run ends.
pub const PATIENCE: u64 = 120 * SECOND;
/// The milliseconds between two floods of a node.
pub const FLOOD: u64 = SECOND / 10;

/// Why nothing was simulated, or not to the end.
#[derive(Clone, Copy, Debug, PartialEq, Eq)]
pub enum SimFault {
    NoMemory,
    /// The lines that give quorum sets are bad.
    Sets(ReadFault),
    /// A line was refused when it was played.
    Stopped(PlayFault),
}

impl From<Fault> for SimFault {
    ghost from_gives = { λ _ _. Unit {0} };

    fn from(_fault: Fault) -> SimFault {
        SimFault::NoMemory
    }
}

impl From<AllocError> for SimFault {
    ghost from_gives = { λ _ _. Unit {0} };

    fn from(_e: AllocError) -> SimFault {
        SimFault::NoMemory
    }
}

impl<T: Drop> From<AllocFailed<T>> for SimFault {
    ghost from_gives = { λ _ _. Unit {0} };

    fn from(_e: AllocFailed<T>) -> SimFault {
        SimFault::NoMemory
    }
}

impl From<PlayFault> for SimFault {
    ghost from_gives = { λ _ _. Unit {0} };

    fn from(fault: PlayFault) -> SimFault {
        match fault.fault {
            Fault::NoMemory => SimFault::NoMemory,
            _ => SimFault::Stopped(fault),
        }
    }
}

/// Counts of messages and timers.
#[derive(Clone, Copy, PartialEq, Eq)]
pub struct Counts {
    pub sent: u64,
    pub lost: u64,
    pub doubled: u64,
    pub rounds: u64,
    pub ballots: u64,
    pub asked: u64,
}

/// The result of a simulation.
#[derive(Drop)]
pub struct Simulated {
    /// The script of all that happened, in digits.
    pub script: String,
    /// The reports of its nodes.
    pub reports: String,
    /// How long it took, in milliseconds.
    pub time: u64,
    pub counts: Counts,
    /// Whether the plan ended it before anything else did.
    pub is_cut: bool,
}

/// Nodes, their links, and what is due.
pub struct World<'a> {
    pub alloc: Global,
    pub plan: &'a Plan,
    pub rng: ChaCha12Rng,
    pub now: u64,
    pub network: Network,
    /// What happened, as the lines of a script.
    pub happened: Happened,
    pub agenda: Agenda,
    pub links: Links,
    pub actors: Vec<Actor>,
    pub counts: Counts,
    /// When a judged node last applied a slot.
    pub moved: u64,
    /// The first slot for which judged nodes applied different values, if there is one so far.
    pub split: Option<u64>,
    /// Whether the plan ended the run.
    pub is_cut: bool,
}

// (written out, so that whoever drops one has one call to prove)
impl<'a> Drop for World<'a> {
    fn drop(self) {
        let World {
            alloc: _,
            plan: _,
            rng: _,
            now: _,
            network: _,
            happened: _,
            agenda: _,
            links: _,
            actors: _,
            counts: _,
            moved: _,
            split: _,
            is_cut: _,
        } = self;
    }
}

/// The twin of a node.
fn twin_of(alloc: Global, script: &Script, count: u8, number: u8) -> Result<Node, Fault>
    requires names { All NamesNodes script.now.commands.items }
    requires admitted { AreAdmitted [] script.now.commands.items }
    requires few { count ≤ NODE_LIMIT }
{
    let commands = script.commands.as_slice();
    let config = Config {
        me: id_from(number),
        set: set_of_node(alloc, commands, number)?,
        peers: Peers::new(peers_of_node(alloc, count, number)?),
        capacities: capacities_of(commands),
    };
    Node::new(alloc, config, KvDriver)
}

/// An actor that did nothing yet.
fn actor(alloc: Global, number: u8, twin: Option<Node>) -> Actor {
    Actor {
        number,
        twin,
        armed: Vec::new(alloc),
        proposed: 0,
        applied: 0,
        moved: 0,
    }
}

/// All actors: the nodes, and the twins of those that equivocate.
fn actors_of(alloc: Global, plan: &Plan, script: &Script, count: u8) -> Result<Vec<Actor>, Fault>
    requires names { All NamesNodes script.now.commands.items }
    requires admitted { AreAdmitted [] script.now.commands.items }
    requires few { count ≤ NODE_LIMIT }
{
    let mut actors = Vec::new(alloc);
    for number in 1..=count {
        actors.push(actor(alloc, number, None))?;
    }
    for number in 1..=count {
        if is_marked(&plan.equivocating, number) {
            let twin = twin_of(alloc, script, count, number)?;
            actors.push(actor(alloc, number, Some(twin)))?;
        }
    }
    Ok(actors)
}

/// Makes the script alone decide what is sent on each link.
fn drive_all(network: &mut Network, count: u8) {
    for from in 1..=count {
        for to in 1..=count {
            network.drive(from, to);
        }
    }
}

impl<'a> World<'a> {
    /// A world in which nothing happened yet, from a plan and the first lines of its script.
    pub fn new(alloc: Global, plan: &'a Plan, seed: u64, text: &str) -> Result<World<'a>, SimFault>
        ensures { OnOk result (IsRead text.now) }
    {
        a_script_has_room();
        let script = read_first(alloc, text)?;
        let links = Links::new(alloc)?;
        let mut network = new_network(alloc, script.commands.as_slice())?;
        drive_all(&mut network, plan.nodes);
        let count = count_of_nodes(script.commands.as_slice());
        let actors = actors_of(alloc, plan, &script, count)?;
        Ok(World {
            alloc,
            plan,
            rng: ChaCha12Rng::seed_from_u64(seed),
            now: 0,
            network,
            happened: Happened::new(alloc),
            agenda: Agenda::new(alloc),
            links,
            actors,
            counts: Counts {
                sent: 0,
                lost: 0,
                doubled: 0,
                rounds: 0,
                ballots: 0,
                asked: 0,
            },
            moved: 0,
            split: None,
            is_cut: false,
        })
    }

    /// The result of the simulation, from the first lines of its script and the reports of its nodes.
    #[tactic(auto, using(crate::proofs::Happened::follows))]
    pub fn into_simulated(self, first: String, reports: String) -> Result<Simulated, AllocError>
        ensures { IfOk result (λ run. Follows (string_bytes first) (string_bytes run.script)) }
    {
        let World {
            alloc: _,
            plan: _,
            rng: _,
            now,
            network: _,
            happened,
            agenda: _,
            links: _,
            actors: _,
            counts,
            moved: _,
            split: _,
            is_cut,
        } = self;
        let mut script = first;
        script.push_str(happened.text())?;
        Ok(Simulated {
            script,
            reports,
            time: now,
            counts,
            is_cut,
        })
    }

    /// Adds what is due from the start on.
    pub fn begin(&mut self) -> Result<(), SimFault> {
        self.agenda.put(0, Due::Relinks)?;
        for partition in self.plan.partitions.as_slice() {
            self.agenda.put(partition.span.from, Due::Relinks)?;
            self.agenda.put(partition.span.to, Due::Relinks)?;
        }
        for crash in self.plan.crashes.as_slice() {
            self.agenda.put(crash.span.from, Due::Relinks)?;
            self.agenda.put(crash.span.to, Due::Relinks)?;
        }
        for node in 1..=self.plan.nodes {
            self.agenda.put(SECOND, Due::Looks { node })?;
            if is_marked(&self.plan.flooding, node) {
                self.agenda.put(FLOOD, Due::Floods { node })?;
            }
        }
        Ok(())
    }
}
