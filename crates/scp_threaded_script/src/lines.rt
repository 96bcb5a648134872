//! What the lines of a script do to running nodes.
ghost use Rattle.std.specs.Prelude.{◌≡◌, ◌≤◌, ◌-◌, ◌∷◌, ◌++◌, [], ℕ, List, OnOk, OnErr, All, IfOk, IfErr, IsOkUnless, length, false};
ghost use Rattle.scp_threaded_node.specs.scp_types.specs.declared.limits.TheConstants.{NODE_LIMIT};
ghost use Rattle.scp_threaded_node.specs.scp_wire.specs.declared.link.Inbound.TheVariants as inbound;
ghost use Rattle.scp_script.specs.declared.command.Command.{Command};
ghost use Rattle.scp_script.specs.declared.command.Command.TheVariants as script;
ghost use Rattle.scp_script.specs.Nodes.{NamesNodes};
ghost use Rattle.scp_script.specs.Script.{AreAdmitted};
ghost use Rattle.scp_threaded_node.specs.scp_shared_outbox.specs.Table.{AreRows};
ghost use Rattle.scp_threaded_script.specs.Lines.{local_by};
ghost use Rattle.scp_threaded_script.specs.inside.Outlets.{AreSameMarkers, all_given};
ghost use Rattle.scp_threaded_script.specs.inside.Played.{HaveDone, HaveLanes, AllRun, AreTwoOf, IsThere, IsNoLink, TellsAt, ActsOn, AreUnchanged};
ghost use Rattle.scp_threaded_script.specs.Reported.{IsLineFault, IsOneOf};
ghost use Rattle.scp_threaded_script.specs.Waits.{AreWaits};
ghost use Rattle.scp_threaded_script.specs.inside.Waiting.{AddsWait, IsWait};
ghost use Rattle.scp_script.specs.Script.{node_count};
ghost use Rattle.scp_threaded_node.specs.declared.acting.Act.{Act};
ghost use Rattle.scp_threaded_node.specs.declared.node.Tail.{Tail};
ghost use Rattle.scp_threaded_node.specs.Acting.{IsActFault};

use crate::gate::Counting;
use crate::outboxes::leave_at;
use crate::running::NodeFault;
use scp_script::Command;
use scp_threaded_node::below::ends::Gate;
use scp_threaded_node::below::outbox::Mark;
use scp_threaded_node::below::shared_outbox::{Marker, link_of};
use scp_threaded_node::below::types::{Fault, Slot};
use scp_threaded_node::below::wire::{Bytes, Command as LocalCommand};
use scp_threaded_node::{Act, Node, act_at, flush, is_carried_at, tell};
use std::sync::Wait;

/// The command that a line gives to a node, with the node's number; `None` for every other line. It copies the value of a proposal; the only
/// refusal is `NoMemory`.
pub fn command_of(command: &Command) -> Result<Option<(u8, LocalCommand)>, Fault>
    requires names { NamesNodes command.now }
    ensures exact { IfOk result (λ found. found ≡ local_by command.now) }
    ensures only_memory { IsOkUnless result Fault.NoMemory }
{
    match command {
        Command::Propose { node, slot, value } => {
            let value = value.copy()?;
            Ok(Some((*node, LocalCommand::Propose(Slot(*slot), value))))
        }
        Command::Round { node, slot } => Ok(Some((*node, LocalCommand::Round(Slot(*slot))))),
        Command::Timer { node, slot } => Ok(Some((*node, LocalCommand::Timer(Slot(*slot))))),
        Command::Tick(node) => Ok(Some((*node, LocalCommand::Tick))),
        Command::Ask { from, to, slot } => {
            let link = link_of(*to, *from);
            Ok(Some((*from, LocalCommand::Ask(link, Slot(*slot)))))
        }
        _ => Ok(None),
    }
}

/// Why an act wasn't done on a link to this node. Either its reader is gone, and the node is named; or the link isn't as the lines say.
fn fault_at(node: u8, fault: Fault) -> NodeFault
    requires node { IsOneOf NODE_LIMIT node }
    ensures { (count : ℕ) → IsOneOf count node → (act : Act) → (tail : Tail) → IsActFault act tail fault → IsLineFault count result.node result.fault }
{
    match fault {
        Fault::Refused(_) => NodeFault { fault, node },
        _ => NodeFault::from(Fault::NotOpen),
    }
}

/// Does the act on the link between two nodes, if the script sends on it; else does nothing. If the link's reader is gone, the second node is
/// named. A link that can't do it isn't as the lines say.
fn act_on_link<R: Wait>(
    rt: &R,
    nodes: &mut Vec<Node>,
    from: u8,
    to: u8,
    done: Act,
) -> Result<(), NodeFault>
    requires link { AreTwoOf (length nodes.old.items) from to }
    requires lanes { HaveLanes nodes.old.items }
    requires few { length nodes.old.items ≤ NODE_LIMIT }
    ensures acts { OnOk result (ActsOn nodes.old.items from to done nodes.new.items) }
    ensures same { OnErr result (AreUnchanged nodes.old.items nodes.new.items) }
    ensures given_up { IfErr result (λ e. IsLineFault (length nodes.old.items) e.node e.fault) }
{
    let place = usize::from(link_of(from, to));
    match act_at(rt, &mut nodes[usize::from(to - 1)], place, done) {
        Ok(()) => Ok(()),
        Err(fault) => Err(fault_at(to, fault)),
    }
}

/// Sends a command to the node of this number. A refusal names the node.
fn tell_node<R: Wait>(
    rt: &R,
    nodes: &mut Vec<Node>,
    number: u8,
    command: LocalCommand,
) -> Result<(), NodeFault>
    requires number { (1 ≤ number) × (number ≤ length nodes.old.items) }
    requires few { length nodes.old.items ≤ NODE_LIMIT }
    ensures told { OnOk result (TellsAt nodes.old.items number (inbound.Local command) nodes.new.items) }
    ensures same { OnErr result (nodes.new.items ≡ nodes.old.items) }
    ensures given_up { IfErr result (λ e. IsLineFault (length nodes.old.items) e.node e.fault) }
{
    match tell(rt, &mut nodes[usize::from(number - 1)], command) {
        Ok(()) => Ok(()),
        Err(fault) => Err(NodeFault {
            fault,
            node: number,
        }),
    }
}

/// Whether a courier sends on the link between two nodes.
fn has_courier(nodes: &Vec<Node>, from: u8, to: u8) -> bool
    requires link { AreTwoOf (length nodes.now.items) from to }
    requires lanes { HaveLanes nodes.now.items }
    requires few { length nodes.now.items ≤ NODE_LIMIT }
{
    is_carried_at(&nodes[usize::from(to - 1)], usize::from(link_of(from, to)))
}

/// Opens or closes a link: directly if the script drives it, else by a mark in its sender's outbox.
fn drive<R: Wait>(
    rt: &R,
    nodes: &mut Vec<Node>,
    markers: &mut Vec<Vec<Marker>>,
    from: u8,
    to: u8,
    done: Act,
    left: Mark,
) -> Result<(), NodeFault>
    requires link { AreTwoOf (length nodes.old.items) from to }
    requires lanes { HaveLanes nodes.old.items }
    requires few { length nodes.old.items ≤ NODE_LIMIT }
    requires markers { AreRows (length nodes.old.items) markers.old.items }
    ensures acts { OnOk result (ActsOn nodes.old.items from to done nodes.new.items) }
    ensures same { OnErr result (AreUnchanged nodes.old.items nodes.new.items) }
    ensures given_up { IfErr result (λ e. IsLineFault (length nodes.old.items) e.node e.fault) }
    ensures markers { AreSameMarkers markers.old.items markers.new.items }
{
    if has_courier(nodes, from, to) {
        leave_at(rt, markers, from, to, left)?;
    }
    act_on_link(rt, nodes, from, to, done)
}

/// Sends the command of a line to its node, if the line is one.
fn tell_line<R: Wait>(rt: &R, nodes: &mut Vec<Node>, command: &Command) -> Result<(), NodeFault>
    requires names { NamesNodes command.now }
    requires there { IsThere (length nodes.old.items) command.now }
    requires few { length nodes.old.items ≤ NODE_LIMIT }
    requires other { IsNoLink command.now }
    ensures runs { (commands done : List Command) → HaveDone commands done nodes.old.items → AllRun commands nodes.new.items }
    ensures done { OnOk result ((commands done : List Command) → HaveDone commands done nodes.old.items → HaveDone commands (done ++ command.now ∷ []) nodes.new.items) }
    ensures given_up { IfErr result (λ e. IsLineFault (length nodes.old.items) e.node e.fault) }
    ensures given { all_given nodes.new.items ≡ all_given nodes.old.items }
{
    match command_of(command)? {
        Some((number, local)) => tell_node(rt, nodes, number, local),
        None => Ok(()),
    }
}

/// Opens a link.
fn open<R: Wait>(
    rt: &R,
    nodes: &mut Vec<Node>,
    markers: &mut Vec<Vec<Marker>>,
    from: u8,
    to: u8,
) -> Result<(), NodeFault>
    requires link { AreTwoOf (length nodes.old.items) from to }
    requires lanes { HaveLanes nodes.old.items }
    requires few { length nodes.old.items ≤ NODE_LIMIT }
    requires markers { AreRows (length nodes.old.items) markers.old.items }
    ensures runs { (commands done : List Command) → HaveDone commands done nodes.old.items → AllRun commands nodes.new.items }
    ensures done { OnOk result ((commands done : List Command) → HaveDone commands done nodes.old.items → HaveDone commands (done ++ script.Open from to ∷ []) nodes.new.items) }
    ensures given_up { IfErr result (λ e. IsLineFault (length nodes.old.items) e.node e.fault) }
    ensures given { all_given nodes.new.items ≡ all_given nodes.old.items }
    ensures markers { AreSameMarkers markers.old.items markers.new.items }
{
    drive(rt, nodes, markers, from, to, Act::Open, Mark::Opened)
}

/// Closes a link.
fn close<R: Wait>(
    rt: &R,
    nodes: &mut Vec<Node>,
    markers: &mut Vec<Vec<Marker>>,
    from: u8,
    to: u8,
) -> Result<(), NodeFault>
    requires link { AreTwoOf (length nodes.old.items) from to }
    requires lanes { HaveLanes nodes.old.items }
    requires few { length nodes.old.items ≤ NODE_LIMIT }
    requires markers { AreRows (length nodes.old.items) markers.old.items }
    ensures runs { (commands done : List Command) → HaveDone commands done nodes.old.items → AllRun commands nodes.new.items }
    ensures done { OnOk result ((commands done : List Command) → HaveDone commands done nodes.old.items → HaveDone commands (done ++ script.Close from to ∷ []) nodes.new.items) }
    ensures given_up { IfErr result (λ e. IsLineFault (length nodes.old.items) e.node e.fault) }
    ensures given { all_given nodes.new.items ≡ all_given nodes.old.items }
    ensures markers { AreSameMarkers markers.old.items markers.new.items }
{
    drive(rt, nodes, markers, from, to, Act::Close, Mark::Closed)
}

/// Sends bytes on a link that the script drives.
fn send<R: Wait>(
    rt: &R,
    nodes: &mut Vec<Node>,
    from: u8,
    to: u8,
    bytes: &Bytes,
) -> Result<(), NodeFault>
    requires link { AreTwoOf (length nodes.old.items) from to }
    requires lanes { HaveLanes nodes.old.items }
    requires few { length nodes.old.items ≤ NODE_LIMIT }
    ensures runs { (commands done : List Command) → HaveDone commands done nodes.old.items → AllRun commands nodes.new.items }
    ensures done { OnOk result ((commands done : List Command) → HaveDone commands done nodes.old.items → HaveDone commands (done ++ script.Send from to bytes.now ∷ []) nodes.new.items) }
    ensures given_up { IfErr result (λ e. IsLineFault (length nodes.old.items) e.node e.fault) }
    ensures given { all_given nodes.new.items ≡ all_given nodes.old.items }
{
    let bytes = bytes.copy()?;
    act_on_link(rt, nodes, from, to, Act::Send(bytes))
}

/// Does what a line says, except that it doesn't wait.
fn act_on_line<R: Wait>(
    rt: &R,
    nodes: &mut Vec<Node>,
    markers: &mut Vec<Vec<Marker>>,
    command: &Command,
) -> Result<(), NodeFault>
    requires names { NamesNodes command.now }
    requires there { IsThere (length nodes.old.items) command.now }
    requires lanes { HaveLanes nodes.old.items }
    requires few { length nodes.old.items ≤ NODE_LIMIT }
    requires markers { AreRows (length nodes.old.items) markers.old.items }
    ensures runs { (commands done : List Command) → HaveDone commands done nodes.old.items → AllRun commands nodes.new.items }
    ensures done { OnOk result ((commands done : List Command) → HaveDone commands done nodes.old.items → HaveDone commands (done ++ command.now ∷ []) nodes.new.items) }
    ensures given_up { IfErr result (λ e. IsLineFault (length nodes.old.items) e.node e.fault) }
    ensures given { all_given nodes.new.items ≡ all_given nodes.old.items }
    ensures markers { AreSameMarkers markers.old.items markers.new.items }
{
    match command {
        Command::Open { from, to } => open(rt, nodes, markers, *from, *to),
        Command::Close { from, to } => close(rt, nodes, markers, *from, *to),
        Command::Send { from, to, bytes } => send(rt, nodes, *from, *to, bytes),
        Command::Wait { node: _, things: _ } => Ok(()),
        _ => tell_line(rt, nodes, command),
    }
}

/// Wakes the threads that wait for what the lines did so far.
fn flush_all(nodes: &mut Vec<Node>)
    ensures { AreUnchanged nodes.old.items nodes.new.items }
{
    for node in nodes.iter_mut() {
        flush(node);
    }
}

/// Whether a line may wait for anything but room for what it sends.
fn may_wait(command: &Command) -> bool {
    matches!(
        command,
        Command::Wait { .. } | Command::Open { .. } | Command::Close { .. }
    )
}

/// Wakes the threads that wait for what the lines did so far, if the next line may wait, or the gate may hold a worker.
fn flush_before<G: Gate>(nodes: &mut Vec<Node>, gate: &Counting<G>, command: &Command)
    ensures { AreUnchanged nodes.old.items nodes.new.items }
{
    if gate.may_hold() || may_wait(command) {
        flush_all(nodes);
    }
}

/// Waits, if the line says so. Returns whether what it waits for came.
fn has_come<R: Wait, G: Gate>(rt: &R, gate: &Counting<G>, command: &Command) -> bool
    ensures { result ≡ false → IsWait command.now }
{
    match command {
        Command::Wait { node, things } => gate.wait(rt, *node, *things),
        _ => true,
    }
}

/// Waits, if the line says so, and adds its place if it gives up. The only refusal is `NoMemory`.
fn wait_at_line<R: Wait, G: Gate>(
    rt: &R,
    gate: &Counting<G>,
    command: &Command,
    place: usize,
    gave_up: &mut Vec<usize>,
) -> Result<(), Fault>
    ensures added { AddsWait command.now place gave_up.old.items gave_up.new.items }
    ensures only_memory { IsOkUnless result Fault.NoMemory }
{
    if has_come(rt, gate, command) {
        return Ok(());
    }
    gave_up.reserve(1)?;
    gave_up.push_reserved(place);
    Ok(())
}

/// Does what the lines say, in their order, and adds the places of the `wait` lines that gave up.
pub fn act_all<R: Wait, G: Gate>(
    rt: &R,
    nodes: &mut Vec<Node>,
    markers: &mut Vec<Vec<Marker>>,
    gate: &Counting<G>,
    commands: &[Command],
    gave_up: &mut Vec<usize>,
) -> Result<(), NodeFault>
    requires none { gave_up.old.items ≡ [] }
    requires names { All NamesNodes commands.now }
    requires admitted { AreAdmitted [] commands.now }
    requires few { length nodes.old.items ≤ NODE_LIMIT }
    requires markers { AreRows (length nodes.old.items) markers.old.items }
    requires nodes { HaveDone commands.now [] nodes.old.items }
    ensures runs { AllRun commands.now nodes.new.items }
    ensures done { OnOk result (HaveDone commands.now commands.now nodes.new.items) }
    ensures given_up { IfErr result (λ e. IsLineFault (node_count commands.now) e.node e.fault) }
    ensures waits { AreWaits commands.now 0 gave_up.new.items }
    ensures given { all_given nodes.new.items ≡ all_given nodes.old.items }
    ensures markers { AreSameMarkers markers.old.items markers.new.items }
{
    let mut place = 0;
    for command in commands {
        flush_before(nodes, gate, command);
        act_on_line(rt, nodes, markers, command)?;
        wait_at_line(rt, gate, command, place, gave_up)?;
        place += 1;
    }
    flush_all(nodes);
    Ok(())
}
