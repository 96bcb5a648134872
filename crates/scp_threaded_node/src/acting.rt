//! What is done with a node while it runs.
ghost use Rattle.std.specs.Prelude.{◌≡◌, ◌<◌, List, None, Some, OnOk, OnErr, IsOkUnless, MatchResult, length, slice_get};
ghost use Rattle.scp_gather.specs.scp_types.specs.declared.names.NodeId.{NodeId};
ghost use Rattle.scp_gather.specs.scp_quorum.specs.QuorumTree.{QuorumTree};
ghost use Rattle.scp_gather.specs.scp_types.specs.declared.capacities.Capacities.{Capacities};
ghost use Rattle.scp_gather.specs.scp_types.specs.declared.fault.Stage.TheVariants.{Pend};
ghost use Rattle.scp_gather.specs.scp_wire.specs.declared.link.Inbound.TheVariants as inbound;
ghost use Rattle.scp_threaded_node.specs.Acting.{act_on, acted, cannot, with_command, ActsAt, CanAct, IsActFault, IsRefusedFor, IsUnchanged};
ghost use Rattle.scp_threaded_node.specs.declared.node.Running.{Running};
ghost use Rattle.scp_threaded_node.specs.inside.NotSent.{IsNotSentFor};
ghost use Rattle.scp_threaded_node.specs.Outlets.{given_to};
ghost use Rattle.scp_threaded_node.specs.Seats.{is_carried, Runs};

use crate::node::{Node, Running, Tail};
use scp_gather::below::driver::Application;
use scp_gather::below::ends::{LinkTx, NotSent};
use scp_gather::below::types::{Fault, Stage};
use scp_gather::below::wire::{Bytes, Command};
use std::sync::Wait;

/// What the host does on a link where no courier sends.
#[derive(Drop)]
pub enum Act {
    /// Opens its next connection.
    Open,
    /// Closes the connection that is open.
    Close,
    /// Sends bytes on the connection that is open.
    Send(Bytes),
}

/// Does the act, if the link can and its reader is there.
fn go<R: Wait>(rt: &R, tail: &mut LinkTx, act: Act) -> Result<(), NotSent>
    ensures acted { OnOk result (tail.new ≡ act_on act tail.old) }
    ensures same { OnErr result (tail.new ≡ tail.old) }
    ensures why { MatchResult result (λ _. cannot act tail.old ≡ None) (IsNotSentFor (cannot act tail.old)) }
{
    match act {
        Act::Open => tail.open(rt),
        Act::Close => tail.close(rt),
        Act::Send(bytes) => tail.send(rt, bytes),
    }
}

/// Does the act. It fails only if the link can't do it, or its reader is gone.
fn act_on_tail<R: Wait>(rt: &R, tail: &mut LinkTx, act: Act) -> Result<(), Fault>
    ensures acted { OnOk result (tail.new ≡ act_on act tail.old) }
    ensures same { OnErr result (tail.new ≡ tail.old) }
    ensures why { MatchResult result (λ _. cannot act tail.old ≡ None) (IsRefusedFor (cannot act tail.old)) }
{
    match go(rt, tail, act) {
        Ok(()) => Ok(()),
        Err(NotSent::Refused(fault)) => Err(fault),
        Err(NotSent::Gone(_)) => Err(Fault::Refused(Stage::Reader)),
    }
}

/// Does the act on the link, if the host sends on it.
fn act_on_lane<R: Wait>(rt: &R, lane: &mut Running, act: Act) -> Result<(), Fault>
    ensures acted { OnOk result (lane.new ≡ record lane.old { tail = acted act lane.old.tail }) }
    ensures same { OnErr result (lane.new ≡ lane.old) }
    ensures why { MatchResult result (λ _. CanAct act lane.old.tail) (IsActFault act lane.old.tail) }
{
    match &mut lane.tail {
        Tail::Host(tail) => act_on_tail(rt, tail, act),
        Tail::Courier(_) => Ok(()),
    }
}

/// Does the act on the link at this place, if the host sends on it; else does nothing. Refused by `AlreadyOpen`, `LivesSpent` or `NotOpen` if
/// the link can't do it. Else refused only by `Refused` with the reader, if the reader is gone.
pub fn act_at<R: Wait, A: Application + Drop + Copy>(
    rt: &R,
    node: &mut Node<A>,
    place: usize,
    act: Act,
) -> Result<(), Fault>
    requires place { place < length node.old.lanes.items }
    ensures acted { OnOk result (ActsAt act place node.old node.new) }
    ensures same { OnErr result (IsUnchanged node.old node.new) }
    // A running node keeps running.
    ensures runs { (me : NodeId) → (set : QuorumTree) → (peers : List NodeId) → (caps : Capacities) → Runs me set peers caps node.old → Runs me set peers caps node.new }
    ensures given { given_to node.new ≡ given_to node.old }
    ensures why { (lane : Running) → slice_get node.old.lanes.items place ≡ Some lane → MatchResult result (λ _. CanAct act lane.tail) (IsActFault act lane.tail) }
{
    act_on_lane(rt, &mut node.lanes[place], act)
}

/// Whether a courier sends on the link at a place.
pub fn is_carried_at<A: Application + Drop + Copy>(node: &Node<A>, place: usize) -> bool
    requires place { place < length node.now.lanes.items }
    ensures { (lane : Running) → slice_get node.now.lanes.items place ≡ Some lane → result ≡ is_carried lane.tail }
{
    is_carried(&node.lanes[place].tail)
}

fn is_carried(tail: &Tail) -> bool
    ensures { result ≡ is_carried tail.now }
{
    match tail {
        Tail::Host(_) => false,
        Tail::Courier(_) => true,
    }
}

/// Sends a command to a node. Refused only by `Refused` with the pending stage, if that stage is gone. No clause says when it is.
pub fn tell<R: Wait, A: Application + Drop + Copy>(
    rt: &R,
    node: &mut Node<A>,
    command: Command,
) -> Result<(), Fault>
    ensures told { OnOk result (node.new ≡ with_command node.old (inbound.Local command)) }
    ensures same { OnErr result (node.new ≡ node.old) }
    // A running node keeps running.
    ensures runs { (me : NodeId) → (set : QuorumTree) → (peers : List NodeId) → (caps : Capacities) → Runs me set peers caps node.old → Runs me set peers caps node.new }
    ensures given { given_to node.new ≡ given_to node.old }
    ensures only { IsOkUnless result (Fault.Refused Pend) }
{
    match node.local.send_as(rt, command) {
        Ok(()) => Ok(()),
        Err(_) => Err(Fault::Refused(Stage::Pend)),
    }
}

/// Wakes a link's reader, if the host sends on the link.
fn flush_lane(lane: &mut Running)
    ensures { lane.new ≡ lane.old }
{
    match &mut lane.tail {
        Tail::Host(tail) => tail.flush(),
        Tail::Courier(_) => {}
    }
}

/// Wakes the threads that wait for what was done on the node's links, and for its commands.
fn flush_all<A: Application + Drop + Copy>(node: &mut Node<A>)
    ensures { IsUnchanged node.old node.new }
{
    node.local.flush();
    for lane in node.lanes.iter_mut() {
        flush_lane(lane);
    }
}

/// Wakes the threads that wait for what was done on the node's links, and for its commands. Call it before this thread waits for anything but
/// room for what it sends.
pub fn flush<A: Application + Drop + Copy>(node: &mut Node<A>)
    ensures same { IsUnchanged node.old node.new }
    ensures given { given_to node.new ≡ given_to node.old }
    // A running node keeps running.
    ensures runs { (me : NodeId) → (set : QuorumTree) → (peers : List NodeId) → (caps : Capacities) → Runs me set peers caps node.old → Runs me set peers caps node.new }
{
    flush_all(node);
}
