//! Running the nodes of a script, each of whose stages has a thread of its own.
ghost use Rattle.std.specs.Prelude.{◌≡◌, ◌≤◌, ◌+◌, ◌⊎◌, ◌∷◌, ◌++◌, ℕ, [], true, List, All, IfOk, IfErr, OnOk, OnErr, IsOkUnless, MatchResult, Option, None, Ok, length, is_none};
ghost use Rattle.std.specs.Option.{option_or};
ghost use Rattle.std.specs.Result.{result_err};
ghost use Rattle.scp_script.specs.declared.command.Command.{Command};
ghost use Rattle.scp_script.specs.Script.{AreAdmitted, node_count};
ghost use Rattle.scp_script.specs.Nodes.{NamesNodes, id_of, peers_of, set_at, capacities_in};
ghost use Rattle.scp_threaded_node.specs.scp_gather.specs.Kv.{NodeReport};
ghost use Rattle.scp_threaded_node.specs.Seats.{Runs, AreDriven};
ghost use Rattle.scp_threaded_node.specs.Sources.{AreSources, taker_from};
ghost use Rattle.std.specs.Global.{Vec};
ghost use Rattle.scp_threaded_node.specs.scp_types.specs.Range.{AreInRange};
ghost use Rattle.scp_threaded_node.specs.scp_types.specs.declared.limits.TheConstants.{NODE_LIMIT, PEER_LIMIT};
ghost use Rattle.scp_threaded_script.specs.Lines.{is_driven, driven_to};
ghost use Rattle.scp_threaded_script.specs.inside.Outlets.{AreSameMarkers, AreTakenFrom, IsKeeping, AreKeeping, IsSeated, AreSeated, all_given};
ghost use Rattle.scp_threaded_script.specs.inside.Over.{AreOver};
ghost use Rattle.scp_threaded_node.specs.scp_shared_outbox.specs.Ends.{MarkerView};
ghost use Rattle.scp_threaded_node.specs.scp_shared_outbox.specs.Places.{Each};
ghost use Rattle.scp_threaded_node.specs.scp_shared_outbox.specs.Table.{AreMade, AreRows, AreAllBack, AllCameOut, AreOutletsOf, IsTakerOf, HavePutNothing};
ghost use Rattle.scp_threaded_node.specs.Kv.{Over as NodeOver};
ghost use Rattle.scp_threaded_node.specs.Outlets.{given_to};
ghost use Rattle.scp_threaded_script.specs.inside.Ending.{HaveAllEnded, IsEndFault, IsNumbered, IsWhole};
ghost use Rattle.scp_threaded_script.specs.inside.Played.{HaveDone, HaveDoneSoFar};
ghost use Rattle.scp_threaded_script.specs.Waits.{AreWaits};
ghost use Rattle.scp_threaded_script.specs.Reported.{AllRunSoFar};
ghost use Rattle.scp_threaded_script.specs.Reported.{AreStood, AreSoReported, AreNodesReported, AreAllKept, IsGivenUp, IsLineFault, IsToldOf, refused_at};
ghost use Rattle.scp_threaded_script.specs.declared.running.NodeFault.{NodeFault};
ghost use Rattle.scp_threaded_script.specs.inside.Reported.{AllStand};

use crate::gate::{Counting, Lent};
use crate::lines::act_all;
use crate::outboxes::{all_losses, is_driven, stood_of, stop_all};
use scp_script::{Command, capacities_of, count_of_nodes, id_from, peers_of_node, set_of_node};
use scp_threaded_node::below::driver::KvDriver;
use scp_threaded_node::below::ends::Gate;
use scp_threaded_node::below::gather::{
    what_is_carried_is_sent_out, what_is_read_is_the_senders_own,
};
use scp_threaded_node::below::shared_outbox::{
    Made, Marker, Outlets, Taker, link_of, make_all, peer_at, take_all_back,
};
use scp_threaded_node::below::theorem::what_is_handed_out_may_be_sent;
use scp_threaded_node::below::types::Fault;
use scp_threaded_node::{Node, NodeReport, Over, Source, Stood, end, make_parts, start};
use std::alloc::{AllocError, Global};
use std::sync::Wait;
use std::thread;
use std::thread::{Scope, Threads};

/// Why nothing is reported, and the number of the node that the refusal names, or 0.
#[derive(Clone, Copy, Debug, PartialEq, Eq)]
pub struct NodeFault {
    pub fault: Fault,
    pub node: u8,
}

impl From<Fault> for NodeFault {
    ghost use Rattle.std.specs.Prelude.{◌≡◌};

    ghost from_gives = { λ fault result. result ≡ record { fault = fault; node = 0 } };

    fn from(fault: Fault) -> NodeFault {
        NodeFault { fault, node: 0 }
    }
}

/// The source of a courier on the link from one node to another, with this outbox end. `None` if the script drives the link.
fn source_of(taker: Taker, commands: &[Command], from: u8, to: u8) -> Option<Source>
    ensures driven { is_none result ≡ is_driven commands.now from to }
    ensures taker { (taker_from result ≡ None) ⊎ (taker_from result ≡ Some taker) }
{
    if is_driven(commands, from, to) {
        return None;
    }
    Some(Source {
        node: id_from(from),
        link: link_of(to, from),
        taker,
    })
}

/// The courier's source for each link to a node, if it has one; `takers[l]` is the outbox end for link l.
fn sources_of(
    alloc: Global,
    takers: Vec<Taker>,
    commands: &[Command],
    to: u8,
) -> Result<Vec<Option<Source>>, Fault>
    requires few { length takers.items ≤ PEER_LIMIT }
    requires number { (1 ≤ to) × (to ≤ NODE_LIMIT) }
    ensures count { IfOk result (λ sources. length sources.items ≡ length takers.items) }
    ensures driven { IfOk result (λ sources. AreSources (driven_to commands.now to) sources.items) }
    ensures taken { IfOk result (λ sources. AreTakenFrom takers.items sources.items) }
    ensures only_memory { IsOkUnless result Fault.NoMemory }
{
    let mut sources = Vec::new(alloc);
    for taker in takers {
        let from = peer_at(sources.len() as u8, to);
        sources.reserve(1)?;
        sources.push_reserved(source_of(taker, commands, from, to));
    }
    Ok(sources)
}

/// Starts the node of this number, with its own outbox ends.
fn start_node<'s, E, R: Threads + Wait + Sync, G: Gate + Sync>(
    scope: &Scope<'s, E>,
    rt: &'s R,
    gate: &'s G,
    alloc: Global,
    outlets: Outlets,
    takers: Vec<Taker>,
    commands: &[Command],
    count: u8,
    number: u8,
    keeps: bool,
) -> Result<Node, Fault>
    requires names { All NamesNodes commands.now }
    requires admitted { AreAdmitted [] commands.now }
    requires room { AreInRange (capacities_in commands.now) }
    requires few { count ≤ NODE_LIMIT }
    requires unused { HavePutNothing outlets.pend.items × HavePutNothing outlets.slot.items × HavePutNothing outlets.apply.items }
    requires takers { (length takers.items + 1 ≡ count) × Each (λ i t. t.gave ≡ []) takers.items }
    requires number { (1 ≤ number) × (number ≤ count) }
    ensures runs { IfOk result (Runs (id_of number) (set_at number commands.now) (peers_of count number) (capacities_in commands.now)) }
    ensures local { IfOk result (λ node. node.local.sent ≡ []) }
    ensures driven { IfOk result (λ node. AreDriven (driven_to commands.now number) (λ l. []) node.lanes.items) }
    ensures keeping { IfOk result (λ node. IsKeeping keeps (given_to node)) }
    ensures given { IfOk result (λ node. (markers : List (Vec MarkerView)) → AreOutletsOf count markers number outlets → Each (IsTakerOf markers number) takers.items → IsSeated count markers number (given_to node)) }
    ensures only_memory { IsOkUnless result Fault.NoMemory }
{
    let peers = peers_of_node(alloc, count, number)?;
    let set = set_of_node(alloc, commands, number)?;
    let parts = make_parts(
        alloc,
        id_from(number),
        set,
        peers.as_slice(),
        capacities_of(commands),
        KvDriver,
        outlets,
        keeps,
    )?;
    let sources = sources_of(alloc, takers, commands, number)?;
    start(scope, rt, gate, alloc, parts, sources)
}

/// Starts all nodes; `outlets[n - 1]` and `takers[n - 1]` are the outbox ends of node n. If one can't be started, those before it run.
fn start_all<'s, E, R: Threads + Wait + Sync, G: Gate + Sync>(
    scope: &Scope<'s, E>,
    rt: &'s R,
    gate: &'s G,
    alloc: Global,
    outlets: Vec<Outlets>,
    takers: Vec<Vec<Taker>>,
    commands: &[Command],
    keeps: bool,
    nodes: &mut Vec<Node>,
) -> Result<(), Fault>
    requires names { All NamesNodes commands.now }
    requires admitted { AreAdmitted [] commands.now }
    requires room { AreInRange (capacities_in commands.now) }
    requires made { (markers : List (Vec MarkerView)) × AreMade (node_count commands.now) outlets.items markers takers.items }
    requires none { nodes.old.items ≡ [] }
    ensures few { (length nodes.new.items ≤ node_count commands.now) × (length nodes.new.items ≤ NODE_LIMIT) }
    ensures so_far { AllRunSoFar commands.now nodes.new.items }
    ensures done { OnOk result (HaveDone commands.now [] nodes.new.items) }
    ensures keeping { OnOk result (AreKeeping keeps (all_given nodes.new.items)) }
    ensures seated { OnOk result ((markers : List (Vec MarkerView)) → AreMade (node_count commands.now) outlets.items markers takers.items → AreSeated (node_count commands.now) markers (all_given nodes.new.items)) }
    ensures only_memory { IsOkUnless result Fault.NoMemory }
{
    let count = count_of_nodes(commands);
    let mut rows = takers.into_iter();
    for own in outlets {
        let Some(row) = rows.next() else {
            unreachable!()
        };
        nodes.reserve(1)?;
        let number = nodes.len() as u8 + 1;
        let node = start_node(
            scope, rt, gate, alloc, own, row, commands, count, number, keeps,
        )?;
        nodes.push_reserved(node);
    }
    Ok(())
}

/// How the lines leave each link to a node, in the order of its peers.
fn stood_to(alloc: Global, commands: &[Command], count: u8, to: u8) -> Result<Vec<Stood>, Fault>
    requires few { count ≤ NODE_LIMIT }
    requires count { count ≡ node_count commands.now }
    requires number { (1 ≤ to) × (to ≤ count) }
    ensures stood { IfOk result (λ stood. AreStood commands.now to stood.items) }
    ensures only_memory { IsOkUnless result Fault.NoMemory }
{
    let mut stood = Vec::new(alloc);
    for index in 0..count {
        let from = index + 1;
        if from == to {
            continue;
        }
        stood.reserve(1)?;
        stood.push_reserved(stood_of(commands, from, to));
    }
    Ok(stood)
}

/// How the lines leave each link to each node.
fn all_stood(alloc: Global, commands: &[Command], count: u8) -> Result<Vec<Vec<Stood>>, Fault>
    requires few { count ≤ NODE_LIMIT }
    requires count { count ≡ node_count commands.now }
    ensures stood { IfOk result (λ stood. AllStand commands.now stood.items) }
    ensures only_memory { IsOkUnless result Fault.NoMemory }
{
    let mut all = Vec::new(alloc);
    for index in 0..count {
        all.reserve(1)?;
        all.push_reserved(stood_to(alloc, commands, count, index + 1)?);
    }
    Ok(all)
}

/// What is reported of the nodes of a script that ran in threads, node 1 first.
#[derive(Drop)]
pub struct Ran {
    pub reports: Vec<NodeReport>,
    /// The places of the `wait` lines that gave up, ascending, counted from 0 among the script's commands.
    pub gave_up: Vec<usize>,
    /// The number of own statements of each node that were lost on each of its links, as its outboxes count them.
    pub losses: Vec<Vec<u64>>,
}

/// The reports of nodes that have ended, the outbox ends that they hand back, and why some are missing.
#[derive(Drop)]
struct Ended {
    all: Vec<NodeReport>,
    outlets: Vec<Outlets>,
    takers: Vec<Vec<Option<Taker>>>,
    /// The first refusal of a stage.
    refused: Option<NodeFault>,
    /// A link isn't as the lines leave it.
    astray: bool,
    /// A courier failed, or it ran out of memory.
    lost: bool,
}

/// Keeps the report of a node and what it hands back, if there is memory.
fn keep(ended: &mut Ended, over: Over) -> Result<(), AllocError>
    ensures kept { OnOk result ((ended.new.all.items ≡ ended.old.all.items ++ over.report ∷ []) × (ended.new.outlets.items ≡ ended.old.outlets.items ++ over.outlets ∷ []) × (ended.new.takers.items ≡ ended.old.takers.items ++ over.takers ∷ [])) }
    ensures same { (ended.new.refused ≡ ended.old.refused) × (ended.new.astray ≡ ended.old.astray) × (ended.new.lost ≡ ended.old.lost) }
{
    ended.all.reserve(1)?;
    ended.outlets.reserve(1)?;
    ended.takers.reserve(1)?;
    ended.all.push_reserved(over.report);
    ended.outlets.push_reserved(over.outlets);
    ended.takers.push_reserved(over.takers);
    Ok(())
}

/// Adds the result of the node of this number.
fn add(ended: &mut Ended, number: u8, told: Result<Over, Fault>)
    ensures told { IsWhole ended.new → IsWhole ended.old × (r : NodeOver) × (told ≡ Ok r) × (ended.new.all.items ≡ ended.old.all.items ++ r.report ∷ []) × (ended.new.outlets.items ≡ ended.old.outlets.items ++ r.outlets ∷ []) × (ended.new.takers.items ≡ ended.old.takers.items ++ r.takers ∷ []) }
    ensures refused { ended.new.refused ≡ option_or ended.old.refused (refused_at number (result_err told)) }
{
    match told {
        Ok(over) => match keep(ended, over) {
            Ok(()) => {}
            Err(_) => ended.lost = true,
        },
        Err(Fault::NoMemory) => ended.lost = true,
        Err(Fault::Refused(stage)) => {
            if ended.refused.is_none() {
                ended.refused = Some(NodeFault {
                    fault: Fault::Refused(stage),
                    node: number,
                });
            }
        }
        Err(_) => ended.astray = true,
    }
}

/// Ends the nodes, in their order.
fn end_nodes<R: Threads + Wait>(
    rt: &R,
    alloc: Global,
    nodes: Vec<Node>,
    stood: &[Vec<Stood>],
) -> Ended
    requires few { length nodes.items ≤ NODE_LIMIT }
    requires nodes { (commands : List Command) × AllRunSoFar commands nodes.items × AllStand commands stood.now × (length nodes.items ≤ node_count commands) }
    ensures over { (commands : List Command) → HaveDoneSoFar commands commands nodes.items → AllStand commands stood.now → IsWhole result → AreOver commands (all_given nodes.items) result.all.items result.outlets.items result.takers.items }
    ensures ended { HaveAllEnded nodes.items stood.now result.refused }
{
    let mut nodes = nodes;
    let Some(last) = nodes.pop() else {
        return Ended {
            all: Vec::new(alloc),
            outlets: Vec::new(alloc),
            takers: Vec::new(alloc),
            refused: None,
            astray: false,
            lost: false,
        };
    };
    let place = nodes.len();
    let mut ended = end_nodes(rt, alloc, nodes, stood);
    let told = end(rt, alloc, last, stood[place].as_slice());
    add(&mut ended, place as u8 + 1, told);
    ended
}

/// The reports of all nodes when they have ended, and the outbox ends that they hand back.
#[derive(Drop)]
struct AllOver {
    reports: Vec<NodeReport>,
    outlets: Vec<Outlets>,
    takers: Vec<Vec<Option<Taker>>>,
}

/// Ends all nodes. Refused by the first failed stage of the first node that has one, which is named. Else by `NotOpen`, if a link isn't as
/// the lines leave it, or by `NoMemory`.
fn end_all<R: Threads + Wait>(
    rt: &R,
    alloc: Global,
    nodes: Vec<Node>,
    stood: &[Vec<Stood>],
) -> Result<AllOver, NodeFault>
    requires few { length nodes.items ≤ NODE_LIMIT }
    requires nodes { (commands : List Command) × AllRunSoFar commands nodes.items × AllStand commands stood.now × (length nodes.items ≤ node_count commands) }
    ensures over { (commands : List Command) → HaveDone commands commands nodes.items → AllStand commands stood.now → IfOk result (λ all. AreOver commands (all_given nodes.items) all.reports.items all.outlets.items all.takers.items) }
    ensures ended { (refused : Option NodeFault) × HaveAllEnded nodes.items stood.now refused × MatchResult result (λ _. refused ≡ None) (IsEndFault refused) }
{
    let Ended {
        all,
        outlets,
        takers,
        refused,
        astray,
        lost,
    } = end_nodes(rt, alloc, nodes, stood);
    if let Some(refused) = refused {
        return Err(refused);
    }
    if astray {
        return Err(NodeFault::from(Fault::NotOpen));
    }
    if lost {
        return Err(NodeFault::from(Fault::NoMemory));
    }
    Ok(AllOver {
        reports: all,
        outlets,
        takers,
    })
}

/// Starts the nodes and does the lines.
fn start_and_act<'s, E, R: Threads + Wait + Sync, G: Gate + Sync>(
    scope: &Scope<'s, E>,
    rt: &'s R,
    gate: &'s Counting<G>,
    alloc: Global,
    outlets: Vec<Outlets>,
    takers: Vec<Vec<Taker>>,
    markers: &mut Vec<Vec<Marker>>,
    commands: &[Command],
    keeps: bool,
    nodes: &mut Vec<Node>,
    gave_up: &mut Vec<usize>,
) -> Result<(), NodeFault>
    requires no_wait { gave_up.old.items ≡ [] }
    requires names { All NamesNodes commands.now }
    requires admitted { AreAdmitted [] commands.now }
    requires room { AreInRange (capacities_in commands.now) }
    requires made { AreMade (node_count commands.now) outlets.items markers.old.items takers.items }
    requires none { nodes.old.items ≡ [] }
    ensures few { length nodes.new.items ≤ node_count commands.now }
    ensures so_far { AllRunSoFar commands.now nodes.new.items }
    ensures done { OnOk result (HaveDone commands.now commands.now nodes.new.items) }
    ensures keeping { OnOk result (AreKeeping keeps (all_given nodes.new.items)) }
    ensures seated { OnOk result (AreSeated (node_count commands.now) markers.old.items (all_given nodes.new.items)) }
    ensures markers { AreSameMarkers markers.old.items markers.new.items }
    ensures given_up { IfErr result (λ e. IsLineFault (node_count commands.now) e.node e.fault) }
    ensures waits { AreWaits commands.now 0 gave_up.new.items }
{
    start_all(
        scope, rt, gate, alloc, outlets, takers, commands, keeps, nodes,
    )?;
    act_all(rt, nodes, markers, gate, commands, gave_up)
}

/// The result to report. If a line wasn't done, it is the stage that failed, if one did, and else why the line wasn't done.
fn told_of(
    done: Result<(), NodeFault>,
    told: Result<AllOver, NodeFault>,
) -> Result<AllOver, NodeFault>
    ensures whole { IfOk result (λ all. (told ≡ Ok all) × OnErr done ⊥) }
    ensures given_up { (count : ℕ) → (refused : Option NodeFault) → IsNumbered refused → IfErr done (λ e. IsLineFault count e.node e.fault) → MatchResult told (λ _. refused ≡ None) (IsEndFault refused) → IfErr result (IsToldOf count refused) }
{
    match done {
        Ok(()) => told,
        Err(at_line) => match told {
            Err(at_end) if at_end.node != 0 => Err(at_end),
            _ => Err(at_line),
        },
    }
}

/// Takes the ends of all outboxes back. Returns the reports of the nodes, and how many own statements were lost on each link.
fn taken_back<R: Wait>(
    rt: &R,
    alloc: Global,
    count: u8,
    markers: Vec<Vec<Marker>>,
    over: AllOver,
) -> Result<(Vec<NodeReport>, Vec<Vec<u64>>), Fault>
    requires few { count ≤ NODE_LIMIT }
    requires all { AreAllBack count over.outlets.items markers.items over.takers.items }
    ensures reports { IfOk result (λ told. told.0.items ≡ over.reports.items) }
    ensures losses { IfOk result (λ told. length told.1.items ≡ length over.outlets.items) }
    ensures came { OnOk result (AllCameOut count over.outlets.items over.takers.items) }
    ensures only_memory { IsOkUnless result Fault.NoMemory }
{
    let AllOver {
        reports,
        outlets,
        takers,
    } = over;
    let losses = all_losses(rt, alloc, outlets.as_slice())?;
    take_all_back(rt, alloc, count, outlets, markers, takers)?;
    Ok((reports, losses))
}

/// Starts the nodes, does the lines, and ends the nodes, whatever happened before.
fn run_in<'s, E, R: Threads + Wait + Sync, G: Gate + Sync>(
    scope: &Scope<'s, E>,
    rt: &'s R,
    gate: &'s Counting<G>,
    alloc: Global,
    made: Made,
    stood: &[Vec<Stood>],
    commands: &[Command],
    keeps: bool,
) -> Result<Ran, NodeFault>
    requires names { All NamesNodes commands.now }
    requires admitted { AreAdmitted [] commands.now }
    requires room { AreInRange (capacities_in commands.now) }
    requires made { AreMade (node_count commands.now) made.outlets.items made.markers.items made.takers.items }
    requires stood { AllStand commands.now stood.now }
    ensures reported { IfOk result (λ ran. AreNodesReported commands.now ran.reports.items) }
    ensures waits { IfOk result (λ ran. AreWaits commands.now 0 ran.gave_up.items) }
    ensures losses { IfOk result (λ ran. length ran.losses.items ≡ node_count commands.now) }
    ensures kept { IfOk result (λ ran. AreAllKept keeps ran.reports.items) }
    ensures given_up { IfErr result (IsGivenUp commands.now) }
{
    what_is_carried_is_sent_out();
    what_is_read_is_the_senders_own();
    what_is_handed_out_may_be_sent::<KvDriver>();
    let count = count_of_nodes(commands);
    let Made {
        outlets,
        markers,
        takers,
    } = made;
    let mut markers = markers;
    let mut nodes = Vec::new(alloc);
    let mut gave_up = Vec::new(alloc);
    let done = start_and_act(
        scope,
        rt,
        gate,
        alloc,
        outlets,
        takers,
        &mut markers,
        commands,
        keeps,
        &mut nodes,
        &mut gave_up,
    );
    stop_all(rt, &mut markers);
    let told = end_all(rt, alloc, nodes, stood);
    match told_of(done, told) {
        Ok(over) => {
            let (reports, losses) = taken_back(rt, alloc, count, markers, over)?;
            Ok(Ran {
                reports,
                gave_up,
                losses,
            })
        }
        Err(fault) => Err(fault),
    }
}

/// Starts the nodes, does the lines, and ends the nodes, in a scope of threads.
fn run_scoped<R: Threads + Wait + Sync, G: Gate + Sync>(
    rt: &R,
    gate: &Counting<G>,
    alloc: Global,
    made: Made,
    stood: &[Vec<Stood>],
    commands: &[Command],
    keeps: bool,
) -> Result<Ran, NodeFault>
    requires names { All NamesNodes commands.now }
    requires admitted { AreAdmitted [] commands.now }
    requires room { AreInRange (capacities_in commands.now) }
    requires made { AreMade (node_count commands.now) made.outlets.items made.markers.items made.takers.items }
    requires stood { AllStand commands.now stood.now }
    ensures reported { IfOk result (λ ran. AreNodesReported commands.now ran.reports.items) }
    ensures waits { IfOk result (λ ran. AreWaits commands.now 0 ran.gave_up.items) }
    ensures losses { IfOk result (λ ran. length ran.losses.items ≡ node_count commands.now) }
    ensures kept { IfOk result (λ ran. AreAllKept keeps ran.reports.items) }
    ensures given_up { IfErr result (IsGivenUp commands.now) }
{
    thread::scope(
        thread::scope_env(),
        rt,
        move |scope| -> Result<Ran, NodeFault>
            requires { All NamesNodes commands.now × AreAdmitted [] commands.now × AreInRange (capacities_in commands.now) × AreMade (node_count commands.now) made.outlets.items made.markers.items made.takers.items × AllStand commands.now stood.now }
            ensures { IfOk result (λ ran. AreNodesReported commands.entry.now ran.reports.items) × IfOk result (λ ran. AreWaits commands.entry.now 0 ran.gave_up.items) × IfOk result (λ ran. length ran.losses.items ≡ node_count commands.entry.now) × IfErr result (IsGivenUp commands.entry.now) × IfOk result (λ ran. AreAllKept keeps ran.reports.items) }
        { run_in(scope, rt, gate, alloc, made, stood, commands, keeps) },
    )
}

/// Runs the nodes of a script, each of whose stages has a thread of its own. One thread does what the lines say, in their order, and then
/// ends the nodes. Returns their reports, and which `wait` lines gave up.
/// Each worker of a node calls the gate after each receive and before each send. Whenever this returns, all threads have ended, by the word
/// of the library of threads. If `keeps` is set, each report has what came over each of its node's links, and else over none.
///
/// Refused by `Refused` with the first failed stage of the first node that has one, which is named, whatever else was wrong. Else by one of
/// these:
/// - `Refused` with a node's reader or pending stage that was gone at a line, and the node is named;
/// - `Full`, if a mark of an `open` or a `close` line found no room in an outbox after 1,000,000 yields;
/// - `NotOpen`, if a link isn't as the lines say;
/// - `NoMemory`, if it is out of memory or a courier failed.
pub fn run_lines<R: Threads + Wait + Sync, G: Gate + Sync>(
    rt: &R,
    gate: &G,
    alloc: Global,
    commands: &[Command],
    keeps: bool,
) -> Result<Ran, NodeFault>
    requires names { All NamesNodes commands.now }
    requires admitted { AreAdmitted [] commands.now }
    requires room { AreInRange (capacities_in commands.now) }
    ensures reported { IfOk result (λ ran. AreNodesReported commands.now ran.reports.items) }
    ensures waits { IfOk result (λ ran. AreWaits commands.now 0 ran.gave_up.items) }
    ensures losses { IfOk result (λ ran. length ran.losses.items ≡ node_count commands.now) }
    ensures kept { IfOk result (λ ran. AreAllKept keeps ran.reports.items) }
    ensures given_up { IfErr result (IsGivenUp commands.now) }
{
    let counting = Counting::new(Lent::new(gate));
    let count = count_of_nodes(commands);
    let made = make_all(alloc, count)?;
    let standing = all_stood(alloc, commands, count)?;
    run_scoped(
        rt,
        &counting,
        alloc,
        made,
        standing.as_slice(),
        commands,
        keeps,
    )
}
