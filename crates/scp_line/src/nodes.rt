//! The nodes of a script, and what its lines do to them.
ghost use Rattle.std.specs.Prelude.{◌≡◌, ◌≢◌, ◌⊎◌, ◌≤◌, ◌++◌, [], ℕ, List, All, OnOk, IfOk, IfErr, IfSome, IsOkUnless, string_bytes, length};
ghost use Rattle.scp_turn.specs.scp_types.specs.declared.limits.TheConstants.{NODE_LIMIT};
ghost use Rattle.scp_report.specs.scp_script.specs.Script.{AreAdmitted, node_count};
ghost use Rattle.scp_report.specs.scp_script.specs.Nodes.{NamesNodes, IsSmall};
ghost use Rattle.scp_report.specs.Node.{reports_of as records_of};
ghost use Rattle.scp_report.specs.Reports.{settled_text};
ghost use Rattle.scp_turn.specs.scp_core.specs.Config.{IsConfig};
ghost use Rattle.scp_turn.specs.Network.{none_driven};
ghost use Rattle.scp_line.specs.Play.{config_of, driven_in, event_by, IsNew, AreNew, Played};
ghost use Rattle.scp_turn.specs.Watch.{notes};
ghost use Rattle.scp_line.specs.Nodes.{HaveRoom, AreMade, moment, Offers, Settles, Acts, ActsAlone, ActsAgain, brings_to_rest};
ghost use Rattle.scp_line.specs.inside.Nodes.{IsPlayed, IsStopped};

use crate::player::play_lines;
use crate::playing::PlayFault;
use crate::watch::Nobody;
use scp_report::below::script::{
    Command, capacities_of, count_of_nodes, id_from, peers_of_node, set_of_node,
};
use scp_report::{reports_of, settled_report};
use scp_threaded_script::command_of;
use scp_turn::below::types::Fault;
use scp_turn::{Config, Event, KvDriver, Network, NoWatch, Node, Peers, Reply, Watch, link_of};
use std::alloc::{AllocError, Global};

/// Who the node of this number is, and what its queues hold. The one refusal is `NoMemory`.
fn config_from(alloc: Global, commands: &[Command], count: u8, number: u8) -> Result<Config, Fault>
    requires names { All NamesNodes commands.now }
    requires admitted { AreAdmitted [] commands.now }
    requires count { count ≡ node_count commands.now }
    requires few { count ≤ NODE_LIMIT }
    requires number { (1 ≤ number) × (number ≤ count) }
    requires room { HaveRoom commands.now }
    ensures config { IfOk result (λ config. config ≡ config_of commands.now number) }
    ensures fit { IfOk result IsConfig }
    ensures only_memory { IsOkUnless result Fault.NoMemory }
{
    Ok(Config {
        me: id_from(number),
        set: set_of_node(alloc, commands, number)?,
        peers: Peers::new(peers_of_node(alloc, count, number)?),
        capacities: capacities_of(commands),
    })
}

/// A node of the script that has heard nothing, linked to all others.
fn new_node(alloc: Global, commands: &[Command], count: u8, number: u8) -> Result<Node, Fault>
    requires names { All NamesNodes commands.now }
    requires admitted { AreAdmitted [] commands.now }
    requires count { count ≡ node_count commands.now }
    requires few { count ≤ NODE_LIMIT }
    requires number { (1 ≤ number) × (number ≤ count) }
    requires room { HaveRoom commands.now }
    ensures node { IfOk result (λ node. IsNew commands.now number node) }
    ensures only_memory { IsOkUnless result Fault.NoMemory }
{
    let config = config_from(alloc, commands, count, number)?;
    Node::new(alloc, config, KvDriver)
}

/// The nodes of a script, which have heard nothing.
fn new_nodes(alloc: Global, commands: &[Command]) -> Result<Vec<Node>, Fault>
    requires names { All NamesNodes commands.now }
    requires admitted { AreAdmitted [] commands.now }
    requires room { HaveRoom commands.now }
    ensures nodes { IfOk result (λ nodes. AreNew commands.now nodes.items) }
    ensures few { IfOk result (λ nodes. length nodes.items ≤ NODE_LIMIT) }
    ensures only_memory { IsOkUnless result Fault.NoMemory }
{
    let count = count_of_nodes(commands);
    let mut nodes = Vec::new(alloc);
    for index in 0..count {
        let node = new_node(alloc, commands, count, index + 1)?;
        nodes.push(node)?;
    }
    Ok(nodes)
}

/// The nodes of a script, which have heard nothing, linked to each other. The one refusal is `NoMemory`.
fn linked_nodes(alloc: Global, commands: &[Command]) -> Result<Network, Fault>
    requires names { All NamesNodes commands.now }
    requires admitted { AreAdmitted [] commands.now }
    requires room { HaveRoom commands.now }
    ensures nodes { IfOk result (λ network. AreNew commands.now network.nodes) }
    ensures driven { IfOk result (λ network. network.driven ≡ none_driven) }
    ensures only_memory { IsOkUnless result Fault.NoMemory }
{
    let nodes = new_nodes(alloc, commands)?;
    Network::new(alloc, nodes)
}

/// The nodes of a script, which have heard nothing. On a link that a `send` line names, the script alone sends. The only refusal is
/// `NoMemory`.
pub fn new_network(alloc: Global, commands: &[Command]) -> Result<Network, Fault>
    requires names { All NamesNodes commands.now }
    requires admitted { AreAdmitted [] commands.now }
    requires room { HaveRoom commands.now }
    ensures made { IfOk result (λ network. AreMade commands.now network) }
    ensures only_memory { IsOkUnless result Fault.NoMemory }
{
    let mut network = linked_nodes(alloc, commands)?;
    for command in commands {
        if let Command::Send { from, to, .. } = command {
            network.drive(*from, *to);
        }
    }
    Ok(network)
}

/// The event of a command, and its node. It copies the bytes of a send and the value of a proposal; the one refusal is `NoMemory`.
#[tactic(auto, using(crate::proofs::Locals::event_some, crate::proofs::Locals::small_some))]
fn event_of(command: &Command) -> Result<Option<(u8, Event)>, Fault>
    requires names { NamesNodes command.now }
    ensures event { IfOk result (λ found. found ≡ event_by command.now) }
    ensures small { IfOk result (λ found. IfSome found (λ offered. IsSmall offered.0)) }
    ensures only_memory { IsOkUnless result Fault.NoMemory }
{
    match command {
        Command::Open { from, to } => Ok(Some((*to, Event::Open(link_of(*from, *to))))),
        Command::Close { from, to } => Ok(Some((*to, Event::Close(link_of(*from, *to))))),
        Command::Send { from, to, bytes } => {
            let bytes = bytes.copy()?;
            Ok(Some((*to, Event::Send(link_of(*from, *to), bytes))))
        }
        _ => match command_of(command)? {
            Some((node, local)) => Ok(Some((node, Event::Local(local)))),
            None => Ok(None),
        },
    }
}

/// Offers the event of a command to its node while the watch sees it. Returns the node's number with its reply, or `None` if the command is
/// no event. The only refusal is `NoMemory`; then nothing was offered.
fn offer<W: Watch<KvDriver>>(
    network: &mut Network,
    watch: &mut W,
    command: &Command,
) -> Result<Option<(u8, Reply)>, Fault>
    requires names { NamesNodes command.now }
    ensures offers { IfOk result (λ answer. Offers (notes W.notes_before W.notes_after) (moment network.old watch.old) command.now answer (moment network.new watch.new)) }
    ensures same { IfErr result (λ fault. network.new ≡ network.old) }
    ensures untold { IfErr result (λ fault. watch.new ≡ watch.old) }
    ensures only_memory { IsOkUnless result Fault.NoMemory }
{
    let Some((number, event)) = event_of(command)? else {
        return Ok(None);
    };
    match network.offer_with(watch, number, event) {
        Some(reply) => Ok(Some((number, reply))),
        None => Ok(None),
    }
}

/// Brings the nodes to rest while the watch sees their steps. Returns whether they came to rest. Refused by `Failed`, which names the node
/// that failed.
fn settle<W: Watch<KvDriver>>(network: &mut Network, watch: &mut W) -> Result<bool, PlayFault>
    ensures { Settles (notes W.notes_before W.notes_after) (moment network.old watch.old) (moment network.new watch.new) result }
{
    match network.settle_with(watch) {
        Ok(calm) => Ok(calm),
        Err(node) => Err(PlayFault {
            fault: Fault::Failed,
            node,
        }),
    }
}

/// Does what a line says where its queue was full: the nodes come to rest, and the event is offered once more.
fn act_again<W: Watch<KvDriver>>(
    network: &mut Network,
    watch: &mut W,
    command: &Command,
) -> Result<bool, PlayFault>
    requires names { NamesNodes command.now }
    ensures { ActsAgain (notes W.notes_before W.notes_after) (moment network.old watch.old) command.now (moment network.new watch.new) result }
{
    let calm = settle(network, watch)?;
    match offer(network, watch, command)? {
        None => Ok(calm),
        Some((_, Reply::Accepted)) => Ok(calm),
        Some((_, Reply::Full)) => Err(PlayFault::from(Fault::Full)),
        Some((node, _)) => Err(PlayFault {
            fault: Fault::Failed,
            node,
        }),
    }
}

/// Whether the line brings the nodes to rest.
fn is_rest(command: &Command) -> bool
    ensures { result ≡ brings_to_rest command.now }
{
    matches!(command, Command::Settle | Command::Wait { .. })
}

/// Does what a line says, while the watch sees each step. Where a queue is full, the nodes come to rest and the event is offered once more.
/// Returns whether the nodes came to rest where the line brought them to it. It is `false` only where each of 100,000 rounds moved something.
/// Refused by `Failed`, which names a node that failed or didn't take the line's event; by `Full`, where the queue had no room even after a
/// settle; and by `NoMemory`.
pub fn act_with<W: Watch<KvDriver>>(
    network: &mut Network,
    watch: &mut W,
    command: &Command,
) -> Result<bool, PlayFault>
    requires names { NamesNodes command.now }
    ensures { Acts (notes W.notes_before W.notes_after) (moment network.old watch.old) command.now (moment network.new watch.new) result }
{
    if is_rest(command) {
        return settle(network, watch);
    }
    match offer(network, watch, command)? {
        None => Ok(true),
        Some((_, Reply::Accepted)) => Ok(true),
        Some((_, Reply::Full)) => act_again(network, watch, command),
        Some((node, _)) => Err(PlayFault {
            fault: Fault::Failed,
            node,
        }),
    }
}

/// Does what a line says, as `act_with` does, but without a watch. It doesn't return whether the nodes came to rest.
pub fn act(network: &mut Network, command: &Command) -> Result<(), PlayFault>
    requires names { NamesNodes command.now }
    ensures { ActsAlone network.old command.now network.new result }
{
    match act_with(network, &mut NoWatch, command) {
        Ok(_) => Ok(()),
        Err(fault) => Err(fault),
    }
}

/// Plays all that a script says, without a watch. Refused by `Failed`, which names the node that failed; by `Full`, where a queue had no room
/// for a line's event even after a settle; and by `NoMemory`.
pub fn play_alone(
    alloc: Global,
    network: &mut Network,
    commands: &[Command],
) -> Result<(), PlayFault>
    requires names { All NamesNodes commands.now }
    requires admitted { AreAdmitted [] commands.now }
    requires made { AreMade commands.now network.old }
    ensures played { OnOk result (IsPlayed commands.now network.new) }
    ensures stopped { IfErr result (IsStopped commands.now) }
{
    // Without a watch, nobody asks for the number of a line.
    let lines = match vec![in alloc; 0usize; commands.len()] {
        Ok(lines) => lines,
        Err(error) => return Err(PlayFault::from(Fault::from(error))),
    };
    match play_lines(network, &mut Nobody, commands, lines.as_slice()) {
        Ok(()) => Ok(()),
        Err(stopped) => Err(stopped.fault),
    }
}

/// The reports that the lines ask for, in the order of the lines, in the fixed form. It fails only if it is out of memory.
pub fn played_reports(
    alloc: Global,
    nodes: &[Node],
    commands: &[Command],
) -> Result<String, AllocError>
    requires names { All NamesNodes commands.now }
    requires few { length nodes.now ≤ NODE_LIMIT }
    ensures { IfOk result (λ text. string_bytes text ≡ settled_text (records_of nodes.now) commands.now) }
{
    let reports = reports_of(alloc, nodes)?;
    let text = settled_report(alloc, reports.as_slice(), commands)?;
    Ok(text)
}
