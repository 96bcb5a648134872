//! The end of a node: everything is stopped, every thread is joined, and what they left is gathered.
ghost use Rattle.std.specs.Prelude.{◌≡◌, ◌≤◌, ◌||◌, ◌++◌, ◌∷◌, ℕ, Bool, true, false, List, [], length, IfOk, IfSome, IsOkUnless, MatchResult, None, Ok, Some};
ghost use Rattle.std.specs.List.{list_any};
ghost use Rattle.std.specs.Option.{option_or};
ghost use Rattle.std.specs.Result.{result_err};
ghost use Rattle.scp_gather.specs.scp_types.specs.declared.fault.Stage.TheVariants.{Reader};
ghost use Rattle.scp_gather.specs.scp_types.specs.declared.names.NodeId.{NodeId};
ghost use Rattle.scp_gather.specs.scp_quorum.specs.QuorumTree.{QuorumTree};
ghost use Rattle.scp_gather.specs.scp_wire.specs.declared.link.LinkItem.{LinkItem};
ghost use Rattle.scp_gather.specs.scp_ends.specs.Links.{LinkEnd};
ghost use Rattle.scp_gather.specs.scp_types.specs.declared.capacities.Capacities.{Capacities};
ghost use Rattle.scp_gather.specs.scp_workers.specs.Working.{Holds};
ghost use Rattle.scp_gather.specs.scp_workers.specs.Carrying.{IsSameLink, IsCarried, HasCarried};
ghost use Rattle.scp_gather.specs.scp_shared_outbox.specs.Ends.{TakerView};
ghost use Rattle.scp_gather.specs.scp_pending.specs.Peers.{AreApart};
ghost use Rattle.scp_gather.specs.Report.{has_failed as failed, first_so};
ghost use Rattle.scp_threaded_node.specs.Seats.{AreDriven, IsDriven, Runs, tail_of};
ghost use Rattle.scp_gather.specs.Left.{Left as WhatIsLeft};
ghost use Rattle.scp_threaded_node.specs.Ended.{IsEnded, IsSentBy, AreSentBy};
ghost use Rattle.scp_threaded_node.specs.Outlets.{IsHandedBack, AreHandedBack, given_to, taker_of, taker_in};
ghost use Rattle.scp_threaded_node.specs.Faults.{NodeEnd, IsNodeEnd, IsTold, courier_fault, fault_by, fault_of, local_fault};
ghost use Rattle.scp_threaded_node.specs.inside.Ending.{HasTailFault, HaveEnded, IsLeftOf};
ghost use Rattle.scp_threaded_node.specs.declared.ending.TailLeft.{TailLeft};
ghost use Rattle.scp_threaded_node.specs.inside.Left.{AreEndsOf, IsLeft};

use crate::node::{Node, Running, Tail};
use scp_gather::below::driver::{Application, KvDriver};
use scp_gather::below::ends::{LinkDone, LinkTx, LocalDone, LocalTx};
use scp_gather::below::shared_outbox::{Outlets, Taker};
use scp_gather::below::types::{Fault, Stage};
use scp_gather::below::workers::{ApplyEnded, CourierEnded, PendEnded, ReaderEnded, SlotEnded};
use scp_gather::{Ends, Gathering, NodeReport, first_failed, gather, has_failed};
use std::alloc::Global;
use std::sync::Wait;
use std::thread::Threads;

/// How a link is left: how often it was opened, and whether it is open.
#[derive(Clone, Copy, PartialEq, Eq)]
pub struct Stood {
    pub lives: usize,
    pub is_open: bool,
}

/// What a courier's link left, and its outbox end, if the courier ended well and left the link as it should. Else `NoMemory` or `NotOpen`.
fn carried(ended: CourierEnded, stood: Stood) -> Result<TailLeft, Fault>
    ensures link { IfOk result (λ left. ended.link ≡ Some left.link) }
    ensures taker { IfOk result (λ left. left.taker ≡ Some ended.taker) }
    ensures carried { IfOk result (λ left. IsCarried stood.lives stood.is_open left.link × HasCarried ended.taker.gave left.link) }
    ensures why { result_err result ≡ courier_fault ended stood }
{
    let stands = ended.lives() as usize == stood.lives && ended.is_open() == stood.is_open;
    let (link, taker) = ended.into_parts();
    match link {
        None => Err(Fault::NoMemory),
        Some(_) if !stands => Err(Fault::NotOpen),
        Some(link) => Ok(TailLeft {
            link,
            taker: Some(taker),
        }),
    }
}

/// What the sending end of a link left: the end itself, and a courier's outbox end.
#[derive(Drop)]
struct TailLeft {
    link: LinkDone,
    taker: Option<Taker>,
}

/// Ends a link that the host drives, if its reader is there.
fn end_driven<R: Wait>(rt: &R, tail: LinkTx) -> Result<TailLeft, Fault>
    ensures same { IfOk result (λ left. (left.link ≡ tail) × (left.taker ≡ None)) }
    ensures gone { IsOkUnless result (Fault.Refused Reader) }
{
    match tail.stop(rt) {
        Ok(link) => Ok(TailLeft { link, taker: None }),
        Err(_) => Err(Fault::Refused(Stage::Reader)),
    }
}

/// Stops a link, and waits until its sender has ended. Refused if a courier failed, or didn't leave its link as it should.
fn end_tail<R: Threads + Wait>(rt: &R, tail: Tail, stood: Stood) -> Result<TailLeft, Fault>
    ensures same { IfOk result (λ left. IsSameLink (tail_of tail) left.link) }
    ensures sent { (driven : Bool) → (sent : List LinkItem) → IsDriven driven sent tail → IfOk result (λ left. IsSentBy driven sent stood left.link) }
    ensures back { IfOk result (λ left. IsHandedBack (taker_of tail) left.link left.taker) }
    ensures why { HasTailFault tail stood (result_err result) }
{
    match tail {
        Tail::Host(tail) => end_driven(rt, tail),
        Tail::Courier(thread) => carried(thread.join(rt), stood),
    }
}

/// Stops a link, and waits until its threads have ended.
fn end_lane<R: Threads + Wait>(
    rt: &R,
    lane: Running,
    stood: Stood,
) -> (ReaderEnded, Result<TailLeft, Fault>)
    ensures reader { Holds lane.reader.promise.0.value result.0 }
    ensures same { IfOk result.1 (λ left. IsSameLink (tail_of lane.tail) left.link) }
    ensures sent { (driven : Bool) → (sent : List LinkItem) → IsDriven driven sent lane.tail → IfOk result.1 (λ left. IsSentBy driven sent stood left.link) }
    ensures back { IfOk result.1 (λ left. IsHandedBack (taker_in lane) left.link left.taker) }
    ensures why { HasTailFault lane.tail stood (result_err result.1) }
{
    let Running { tail, reader } = lane;
    let link = end_tail(rt, tail, stood);
    (reader.join(rt), link)
}

/// What the links of a node left. It is complete if no link has a fault and nothing is lost.
#[derive(Drop)]
struct Lanes {
    readers: Vec<ReaderEnded>,
    links: Vec<LinkDone>,
    takers: Vec<Option<Taker>>,
    /// A reader failed.
    failed: bool,
    /// The fault of the first link whose sending end has one.
    fault: Option<Fault>,
    /// It ran out of memory.
    lost: bool,
}

/// The first of two faults that is there.
fn first(a: Option<Fault>, b: Option<Fault>) -> Option<Fault>
    ensures { result ≡ option_or a b }
{
    match a {
        Some(fault) => Some(fault),
        None => b,
    }
}

/// Why a link left nothing.
fn fault_at(link: &Result<TailLeft, Fault>) -> Option<Fault>
    ensures { result ≡ result_err link.now }
{
    match link {
        Ok(_) => None,
        Err(fault) => Some(*fault),
    }
}

/// Adds what one link left, and says whether there was memory.
fn keep(
    readers: &mut Vec<ReaderEnded>,
    links: &mut Vec<LinkDone>,
    takers: &mut Vec<Option<Taker>>,
    reader: ReaderEnded,
    left: TailLeft,
) -> bool
    ensures { result ≡ true → (readers.new.items ≡ readers.old.items ++ reader ∷ []) × (links.new.items ≡ links.old.items ++ left.link ∷ []) × (takers.new.items ≡ takers.old.items ++ left.taker ∷ []) }
{
    if readers.reserve(1).is_err() || links.reserve(1).is_err() || takers.reserve(1).is_err() {
        return false;
    }
    readers.push_reserved(reader);
    links.push_reserved(left.link);
    takers.push_reserved(left.taker);
    true
}

/// Adds what one link left.
fn add(lanes: &mut Lanes, reader: ReaderEnded, left: Result<TailLeft, Fault>)
    ensures kept { lanes.new.lost ≡ false → lanes.new.fault ≡ None → (lanes.old.lost ≡ false) × (lanes.new.readers.items ≡ lanes.old.readers.items ++ reader ∷ []) × (t : TailLeft) × (left ≡ Ok t) × (lanes.new.links.items ≡ lanes.old.links.items ++ t.link ∷ []) × (lanes.new.takers.items ≡ lanes.old.takers.items ++ t.taker ∷ []) }
    ensures failed { lanes.new.failed ≡ lanes.old.failed || failed reader }
    ensures fault { lanes.new.fault ≡ option_or lanes.old.fault (result_err left) }
{
    lanes.failed = lanes.failed || has_failed(&reader);
    lanes.fault = first(lanes.fault, fault_at(&left));
    if let Ok(left) = left {
        if !keep(
            &mut lanes.readers,
            &mut lanes.links,
            &mut lanes.takers,
            reader,
            left,
        ) {
            lanes.lost = true;
        }
    }
}

/// Stops the links of a node, in their order, and waits until their threads have ended.
fn end_lanes<R: Threads + Wait>(
    rt: &R,
    alloc: Global,
    lanes: Vec<Running>,
    stood: &[Stood],
) -> Lanes
    requires stood { length lanes.items ≤ length stood.now }
    ensures left { result.lost ≡ false → result.fault ≡ None → AreEndsOf lanes.items result.readers.items result.links.items result.takers.items }
    ensures readers { result.lost ≡ false → result.fault ≡ None → list_any failed result.readers.items ≡ result.failed }
    ensures sent { (driven : ℕ → Bool) → (sent : ℕ → List LinkItem) → AreDriven driven sent lanes.items → result.lost ≡ false → result.fault ≡ None → AreSentBy driven sent stood.now result.links.items }
    ensures ended { HaveEnded lanes.items stood.now result.failed result.fault }
{
    let mut lanes = lanes;
    let Some(last) = lanes.pop() else {
        return Lanes {
            readers: Vec::new(alloc),
            links: Vec::new(alloc),
            takers: Vec::new(alloc),
            failed: false,
            fault: None,
            lost: false,
        };
    };
    let place = lanes.len();
    let mut left = end_lanes(rt, alloc, lanes, stood);
    let (reader, tail) = end_lane(rt, last, stood[place]);
    add(&mut left, reader, tail);
    left
}

/// The fault that is reported: a stage's failure, else the first link's fault, else that of the commands, else out of memory.
fn told(stage: Option<Stage>, links: Option<Fault>, commands: Option<Fault>) -> Fault
    ensures { IsTold (fault_by stage links commands) result }
{
    if let Some(stage) = stage {
        return Fault::Refused(stage);
    }
    match first(links, commands) {
        Some(fault) => fault,
        None => Fault::NoMemory,
    }
}

/// What a node left, if nothing of it is lost.
fn collect<A: Application + Drop + Copy>(
    lanes: Lanes,
    local: Option<LocalDone>,
    pend: PendEnded,
    slot: SlotEnded<A>,
    apply: ApplyEnded<A>,
) -> Result<(Ends<A>, Vec<Option<Taker>>), Fault>
    ensures all { IfOk result (λ e. (lanes.lost ≡ false) × (local ≡ Some e.0.local) × (e.0.readers ≡ lanes.readers.items) × (e.0.links ≡ lanes.links.items) × (e.0.pend ≡ pend) × (e.0.slot ≡ slot) × (e.0.apply ≡ apply)) }
    ensures takers { IfOk result (λ e. e.1.items ≡ lanes.takers.items) }
    ensures why { MatchResult result (λ _. lanes.fault ≡ None) (IsTold (fault_by (first_so lanes.failed (failed pend) (failed slot) (failed apply)) lanes.fault (local_fault local))) }
{
    let Lanes {
        readers,
        links,
        takers,
        failed,
        fault,
        lost,
    } = lanes;
    let stage = first_failed(failed, &pend, &slot, &apply);
    match local {
        Some(local) if !lost && fault.is_none() => Ok((
            Ends {
                readers,
                links,
                local,
                pend,
                slot,
                apply,
            },
            takers,
        )),
        Some(_) => Err(told(stage, fault, None)),
        None => Err(told(stage, fault, Some(Fault::Refused(Stage::Pend)))),
    }
}

/// Ends a node's own commands.
fn end_local<R: Wait>(rt: &R, local: LocalTx) -> Option<LocalDone>
    ensures { IfSome result (λ done. done ≡ local) }
{
    match local.stop(rt) {
        Ok(done) => Some(done),
        Err(_) => None,
    }
}

/// Stops a node, and joins each of its threads.
fn stop<R: Threads + Wait, A: Application + Drop + Copy>(
    rt: &R,
    alloc: Global,
    node: Node<A>,
    stood: &[Stood],
) -> Result<(Ends<A>, Vec<Option<Taker>>), Fault>
    requires stood { length node.lanes.items ≤ length stood.now }
    ensures left { IfOk result (λ e. IsLeft node e.0 e.1.items) }
    ensures sent { (driven : ℕ → Bool) → (sent : ℕ → List LinkItem) → AreDriven driven sent node.lanes.items → IfOk result (λ e. AreSentBy driven sent stood.now e.0.links) }
    ensures ended { (x : NodeEnd A) × IsNodeEnd node stood.now x × MatchResult result (λ e. IsLeftOf x e.0) (IsTold (fault_of x)) }
{
    let Node {
        lanes,
        local,
        pend,
        slot,
        apply,
    } = node;
    let local = end_local(rt, local);
    let lanes = end_lanes(rt, alloc, lanes, stood);
    let pend = pend.join(rt);
    let slot = slot.join(rt);
    let apply = apply.join(rt);
    collect(lanes, local, pend, slot, apply)
}

/// The report of a node that has ended, and the outbox ends that its threads hand back: those into which its stages put, and for each link
/// the end of its courier. There is none for a link that the host drives.
#[derive(Drop)]
pub struct Over<A: Application = KvDriver> {
    pub report: NodeReport<A>,
    pub outlets: Outlets,
    pub takers: Vec<Option<Taker>>,
}

/// Stops a node, joins each of its threads, and gathers what they left. `stood[l]` says how link l should be left if a courier sends on it.
///
/// Refused by `Refused` with the first stage, in the order of the pipeline, that has a failed worker. Else by the fault of the first link
/// whose sending end has one. That is `NotOpen` if its courier didn't leave it as it should, `NoMemory` if its courier failed, and `Refused`
/// with the reader if that was gone. Else by `Refused` with the pending stage, if that was gone before the commands ended. Else by
/// `NoMemory`.
/// Of what the threads ended with, only what they promised is known.
pub fn end<R: Threads + Wait, A: Application + Drop + Copy>(
    rt: &R,
    alloc: Global,
    node: Node<A>,
    stood: &[Stood],
) -> Result<Over<A>, Fault>
    requires runs { (me : NodeId) × (set : QuorumTree) × (peers : List NodeId) × (caps : Capacities) × Runs me set peers caps node }
    requires stood { length node.lanes.items ≤ length stood.now }
    ensures ended { (me : NodeId) → (set : QuorumTree) → (peers : List NodeId) → (caps : Capacities) → AreApart peers → Runs me set peers caps node
        → (driven : ℕ → Bool) → (sent : ℕ → List LinkItem) → AreDriven driven sent node.lanes.items
        → IfOk result (λ over. (left : WhatIsLeft A) × IsEnded A.says A.first A.after me set peers caps node.local.sent driven sent stood.now left over.report × AreHandedBack A.says me set peers (given_to node) left over.outlets over.takers.items) }
    ensures fault { (x : NodeEnd A) × IsNodeEnd node stood.now x × MatchResult result (λ _. fault_of x ≡ None) (IsTold (fault_of x)) }
{
    let (ends, takers) = stop(rt, alloc, node, stood)?;
    let Gathering { report, outlets } = gather(ends)?;
    Ok(Over {
        report,
        outlets,
        takers,
    })
}
