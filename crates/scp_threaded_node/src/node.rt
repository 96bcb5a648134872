//! A running node, each of whose workers has a thread of its own.
ghost use Rattle.std.specs.Prelude.{◌≡◌, ◌<◌, ◌+◌, ◌∷◌, ◌++◌, ℕ, Bool, List, [], length, map, IfOk, IsOkUnless, is_none};
ghost use Rattle.std.specs.Thread.{IsSync};
ghost use Rattle.scp_gather.specs.scp_types.specs.declared.names.NodeId.{NodeId};
ghost use Rattle.scp_gather.specs.scp_quorum.specs.QuorumTree.{QuorumTree};
ghost use Rattle.scp_gather.specs.scp_types.specs.declared.capacities.Capacities.{Capacities};
ghost use Rattle.scp_gather.specs.scp_wire.specs.declared.link.Inbound.{Inbound};
ghost use Rattle.scp_gather.specs.scp_ends.specs.Ends.{Line};
ghost use Rattle.scp_threaded_node.specs.Outlets.{given_to, keeps_from, keeps_in, taker_of, taker_in};
ghost use Rattle.scp_threaded_node.specs.Seats.{AreLanes, AreRunning, AreUnused, IsDriven, AreDriven, AreStages, IsLocal, Runs, tail_of};
ghost use Rattle.scp_threaded_node.specs.Sources.{AreSources, IsFresh, AreFresh, taker_from};

use crate::make::{Lane, Parts};
use crate::starting::{
    ApplyThread, CourierThread, PendThread, ReaderThread, SlotThread, start_courier, start_worker,
};
use scp_gather::below::driver::{Application, KvDriver};
use scp_gather::below::ends::{Gate, LinkTx, LocalTx};
use scp_gather::below::shared_outbox::Taker;
use scp_gather::below::types::{Fault, NodeId};
use scp_gather::below::workers::{ApplyWorker, Courier, SlotWorker};
use std::alloc::Global;
use std::sync::Wait;
use std::thread::{Scope, Threads};

/// The sender on a link.
#[derive(Drop)]
pub enum Tail {
    /// The host.
    Host(LinkTx),
    /// A courier.
    Courier(CourierThread),
}

/// A link to a running node.
#[derive(Drop)]
pub struct Running {
    pub tail: Tail,
    pub reader: ReaderThread,
}

/// A running node. Its values are those of the application; operation lists, if no application is named.
#[derive(Drop)]
pub struct Node<A: Application + Drop + Copy = KvDriver> {
    pub lanes: Vec<Running>,
    pub local: LocalTx,
    pub pend: PendThread,
    pub slot: SlotThread<A>,
    pub apply: ApplyThread<A>,
}

/// What a courier is given: its node, the number of the link among that node's links, and its outbox end.
#[derive(Drop)]
pub struct Source {
    pub node: NodeId,
    pub link: u8,
    pub taker: Taker,
}

/// Starts the sender of a link.
fn start_tail<'s, E, R: Threads + Wait + Sync, G: Gate + Sync>(
    scope: &Scope<'s, E>,
    rt: &'s R,
    gate: &'s G,
    alloc: Global,
    tail: LinkTx,
    source: Option<Source>,
) -> Result<Tail, Fault>
    requires unused { tail.tail.sent ≡ [] }
    requires fresh { IsFresh source }
    ensures tail { IfOk result (λ t. tail_of t ≡ tail) }
    ensures courier { IfOk result (λ t. taker_of t ≡ taker_from source) }
    ensures driven { IfOk result (IsDriven (is_none source) []) }
    ensures only_memory { IsOkUnless result Fault.NoMemory }
{
    match source {
        None => Ok(Tail::Host(tail)),
        Some(Source { node, link, taker }) => {
            let courier = Courier::new(alloc, node, link, taker, tail);
            Ok(Tail::Courier(start_courier(scope, rt, gate, courier)?))
        }
    }
}

/// Starts a link's reader and its sender.
fn start_lane<'s, E, R: Threads + Wait + Sync, G: Gate + Sync>(
    scope: &Scope<'s, E>,
    rt: &'s R,
    gate: &'s G,
    alloc: Global,
    lane: Lane,
    source: Option<Source>,
) -> Result<Running, Fault>
    requires unused { lane.tail.tail.sent ≡ [] }
    requires fresh { IsFresh source }
    ensures tail { IfOk result (λ x. tail_of x.tail ≡ lane.tail) }
    ensures reader { IfOk result (λ x. x.reader.promise.0.value ≡ lane.reader) }
    ensures driven { IfOk result (λ x. IsDriven (is_none source) [] x.tail) }
    ensures courier { IfOk result (λ x. taker_in x ≡ taker_from source) }
    ensures only_memory { IsOkUnless result Fault.NoMemory }
{
    let Lane { tail, reader } = lane;
    let reader = start_worker(scope, rt, gate, reader)?;
    let tail = start_tail(scope, rt, gate, alloc, tail, source)?;
    Ok(Running { tail, reader })
}

/// Takes the last source off the list.
fn last_of(sources: &mut Vec<Option<Source>>) -> Option<Source>
    requires some { 0 < length sources.old.items }
    ensures last { sources.old.items ≡ sources.new.items ++ result ∷ [] }
    ensures count { length sources.new.items + 1 ≡ length sources.old.items }
{
    let Some(source) = sources.pop() else {
        unreachable!()
    };
    source
}

/// Starts the links of a node; `sources[l]` is the courier's source for link l, if the host doesn't send on it.
fn start_lanes<'s, E, R: Threads + Wait + Sync, G: Gate + Sync>(
    scope: &Scope<'s, E>,
    rt: &'s R,
    gate: &'s G,
    alloc: Global,
    lanes: Vec<Lane>,
    sources: Vec<Option<Source>>,
) -> Result<Vec<Running>, Fault>
    requires sync { IsSync R.row × IsSync G.row }
    requires sources { length sources.items ≡ length lanes.items }
    requires fresh { AreFresh sources.items }
    requires unused { AreUnused lanes.items }
    ensures count { IfOk result (λ xs. length xs.items ≡ length lanes.items) }
    ensures lanes { (me : NodeId) → (peers : List NodeId) → (inbox : Line Inbound) → (room : ℕ) → AreLanes me peers inbox room lanes.items → IfOk result (λ xs. AreRunning me peers inbox room xs.items) }
    ensures driven { (driven : ℕ → Bool) → AreSources driven sources.items → IfOk result (λ xs. AreDriven driven (λ i. []) xs.items) }
    ensures couriers { IfOk result (λ xs. map taker_in xs.items ≡ map taker_from sources.items) }
    ensures keeps { IfOk result (λ xs. map keeps_in xs.items ≡ map keeps_from lanes.items) }
    ensures only_memory { IsOkUnless result Fault.NoMemory }
{
    let mut lanes = lanes;
    let mut sources = sources;
    let Some(last) = lanes.pop() else {
        return Ok(Vec::new(alloc));
    };
    let source = last_of(&mut sources);
    let mut running = start_lanes(scope, rt, gate, alloc, lanes, sources)?;
    running.reserve(1)?;
    let next = start_lane(scope, rt, gate, alloc, last, source)?;
    running.push_reserved(next);
    Ok(running)
}

/// Starts the last two stages.
fn start_last<
    's,
    E,
    R: Threads + Wait + Sync,
    G: Gate + Sync,
    A: Application + Drop + Copy + Send + 's,
>(
    scope: &Scope<'s, E>,
    rt: &'s R,
    gate: &'s G,
    slot: SlotWorker<A>,
    apply: ApplyWorker<A>,
) -> Result<(SlotThread<A>, ApplyThread<A>), Fault>
where
    A::State: Send + 's,
    ensures slot { IfOk result (λ t. t.0.promise.0.value ≡ slot) }
    ensures apply { IfOk result (λ t. t.1.promise.0.value ≡ apply) }
    ensures only_memory { IsOkUnless result Fault.NoMemory }
{
    let slot = start_worker(scope, rt, gate, slot)?;
    let apply = start_worker(scope, rt, gate, apply)?;
    Ok((slot, apply))
}

/// Starts a node: each worker in a thread, and a courier for each link that has a source. The application and its state cross to other
/// threads. The only refusal is `NoMemory`.
pub fn start<
    's,
    E,
    R: Threads + Wait + Sync,
    G: Gate + Sync,
    A: Application + Drop + Copy + Send + 's,
>(
    scope: &Scope<'s, E>,
    rt: &'s R,
    gate: &'s G,
    alloc: Global,
    parts: Parts<A>,
    sources: Vec<Option<Source>>,
) -> Result<Node<A>, Fault>
where
    A::State: Send + 's,
    requires sources { length sources.items ≡ length parts.lanes.items }
    requires fresh { AreFresh sources.items }
    requires unused { AreUnused parts.lanes.items }
    ensures runs { (me : NodeId) → (set : QuorumTree) → (peers : List NodeId) → (caps : Capacities) → length parts.lanes.items ≡ length peers → AreLanes me peers parts.pend.input.line caps.link parts.lanes.items → IsLocal peers parts.pend parts.local → AreStages me set peers caps parts.pend parts.slot parts.apply → IfOk result (Runs me set peers caps) }
    ensures local { IfOk result (λ node. node.local ≡ parts.local) }
    ensures driven { (driven : ℕ → Bool) → AreSources driven sources.items → IfOk result (λ node. AreDriven driven (λ i. []) node.lanes.items) }
    // Each worker has the outbox ends that it was given, and each reader keeps what it receives if it was made to.
    ensures given { IfOk result (λ node. given_to node ≡ record { replies = parts.pend.outlets; said = parts.slot.outlets; answers = parts.apply.outlets; takers = map taker_from sources.items; keeps = map keeps_from parts.lanes.items }) }
    ensures only_memory { IsOkUnless result Fault.NoMemory }
{
    let Parts {
        lanes,
        local,
        pend,
        slot,
        apply,
    } = parts;
    let lanes = start_lanes(scope, rt, gate, alloc, lanes, sources)?;
    let pend = start_worker(scope, rt, gate, pend)?;
    match start_last(scope, rt, gate, slot, apply) {
        Ok((slot, apply)) => Ok(Node {
            lanes,
            local,
            pend,
            slot,
            apply,
        }),
        Err(fault) => {
            // The pending stage waits for the end of each of its producers, and what a reader leaves behind keeps the inbox open.
            drop(local.stop(rt));
            Err(fault)
        }
    }
}
