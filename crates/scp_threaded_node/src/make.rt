//! The channels and workers of a node, before any thread is started.
ghost use Rattle.std.specs.Prelude.{◌≡◌, ◌≤◌, ◌+◌, [], Some, None, length, IfOk, IsOkUnless};
ghost use Rattle.scp_gather.specs.scp_types.specs.declared.limits.TheConstants.{PEER_LIMIT};
ghost use Rattle.scp_gather.specs.scp_quorum.specs.Sane.{IsSane};
ghost use Rattle.scp_gather.specs.scp_ends.specs.Ends.{AreFresh, fresh};
ghost use Rattle.scp_gather.specs.scp_ends.specs.Links.{new_link};
ghost use Rattle.scp_gather.specs.scp_workers.specs.Working.{AreUnused as HavePutNothing};
ghost use Rattle.scp_gather.specs.scp_workers.specs.Pending.{IsFor as PendsFor};
ghost use Rattle.scp_gather.specs.scp_workers.specs.Slot.{IsFor as JournalsFor};
ghost use Rattle.scp_threaded_node.specs.Seats.{IsLane, AreLanes, AreUnused, AreStages, IsLocal, SendsAs};
ghost use Rattle.scp_gather.specs.scp_types.specs.Range.{IsInRange, AreInRange};
ghost use Rattle.scp_threaded_node.specs.Outlets.{AllKeep, keeps_from};

use scp_gather::below::driver::{Application, KvDriver};
use scp_gather::below::ends::{
    DecidedRx, DecidedTx, InboxRx, InboxTx, LinkRx, LinkTx, LocalTx, ReadyRx, ReadyTx, decided,
    inbox, link, ready,
};
use scp_gather::below::quorum::{QuorumSet, SaneSet};
use scp_gather::below::shared_outbox::{Outlets, Putter};
use scp_gather::below::types::{Capacities, Fault, NodeId};
use scp_gather::below::workers::{
    ApplyWorker, PendWorker, ReaderWorker, SlotWorker, applier, pending, reader, slots,
};
use std::alloc::{AllocError, Global};
use std::sync::Arc;

/// A link to a node: its sending end, and the worker that reads it.
#[derive(Drop)]
pub struct Lane {
    pub tail: LinkTx,
    pub reader: ReaderWorker,
}

/// What a node consists of: a link from each peer, the end of its own commands, and the workers of its stages.
#[derive(Drop)]
pub struct Parts<A: Application + Drop + Copy = KvDriver> {
    pub lanes: Vec<Lane>,
    pub local: LocalTx,
    pub pend: PendWorker,
    pub slot: SlotWorker<A>,
    pub apply: ApplyWorker<A>,
}

/// A link from a peer, with a capacity that is in range.
fn link_of(
    alloc: Global,
    me: NodeId,
    peer: NodeId,
    capacity: usize,
) -> Result<(LinkTx, LinkRx), Fault>
    requires room { IsInRange capacity }
    ensures ends { IfOk result (λ r. (r.0 ≡ new_link peer me r.1.line) × (r.1 ≡ record { line = r.1.line; producers = 1; room = capacity; got = [] })) }
    ensures only_memory { IsOkUnless result Fault.NoMemory }
{
    link(alloc, peer, me, capacity)
}

/// The ends of an inbox for this number of links and the node's own commands.
fn inbox_of(alloc: Global, links: u8, capacity: usize) -> Result<(Vec<InboxTx>, InboxRx), Fault>
    requires few { links ≤ PEER_LIMIT }
    requires room { IsInRange capacity }
    ensures ends { IfOk result (λ r. AreFresh r.1.line r.0.items × (length r.0.items ≡ links + 1) × (r.1 ≡ record { line = r.1.line; producers = links + 1; room = capacity; got = [] })) }
    ensures only_memory { IsOkUnless result Fault.NoMemory }
{
    inbox(alloc, links + 1, capacity)
}

/// The ends of the channel to the slot stage, with a capacity that is in range.
fn ready_of(alloc: Global, capacity: usize) -> Result<(ReadyTx, ReadyRx), Fault>
    requires room { IsInRange capacity }
    ensures ends { IfOk result (λ r. (r.0 ≡ fresh r.1.line 0) × (r.1 ≡ record { line = r.1.line; producers = 1; room = capacity; got = [] })) }
    ensures only_memory { IsOkUnless result Fault.NoMemory }
{
    ready(alloc, capacity)
}

/// The ends of the channel to the applier, with a capacity that is in range.
fn decided_of(alloc: Global, capacity: usize) -> Result<(DecidedTx, DecidedRx), Fault>
    requires room { IsInRange capacity }
    ensures ends { IfOk result (λ r. (r.0 ≡ fresh r.1.line 0) × (r.1 ≡ record { line = r.1.line; producers = 1; room = capacity; got = [] })) }
    ensures only_memory { IsOkUnless result Fault.NoMemory }
{
    decided(alloc, capacity)
}

/// The link from a peer, and its reader, which keeps what it receives if `keeps` is set.
fn make_lane(
    alloc: Global,
    me: NodeId,
    peer: NodeId,
    place: u8,
    capacity: usize,
    tx: InboxTx,
    keeps: bool,
) -> Result<Lane, Fault>
    requires unused { (tx.sent ≡ []) × (tx.number ≡ place) }
    requires room { IsInRange capacity }
    ensures lane { IfOk result (λ x. IsLane me peer tx.line capacity place x.tail x.reader) }
    ensures unused { IfOk result (λ x. x.tail.tail.sent ≡ []) }
    ensures keeps { IfOk result (λ x. keeps_from x ≡ keeps) }
    ensures only_memory { IsOkUnless result Fault.NoMemory }
{
    let (tail, rx) = link_of(alloc, me, peer, capacity)?;
    Ok(Lane {
        tail,
        reader: reader(alloc, me, place, rx, tx, keeps),
    })
}

/// The links from the first peers, one for each of these inbox ends, in their order.
fn lanes(
    alloc: Global,
    me: NodeId,
    peers: &[NodeId],
    capacity: usize,
    rx: &InboxRx,
    ends: Vec<InboxTx>,
    keeps: bool,
) -> Result<Vec<Lane>, Fault>
    requires few { (length ends.items ≤ length peers.now) × (length peers.now ≤ PEER_LIMIT) }
    requires fresh { AreFresh rx.now.line ends.items }
    requires room { IsInRange capacity }
    ensures count { IfOk result (λ xs. length xs.items ≡ length ends.items) }
    ensures lanes { IfOk result (λ xs. AreLanes me peers.now rx.now.line capacity xs.items) }
    ensures unused { IfOk result (λ xs. AreUnused xs.items) }
    ensures keeps { IfOk result (λ xs. AllKeep keeps xs.items) }
    ensures only_memory { IsOkUnless result Fault.NoMemory }
{
    let mut rest = ends;
    let Some(last) = rest.pop() else {
        return Ok(Vec::new(alloc));
    };
    let place = rest.len();
    let mut lanes = lanes(alloc, me, peers, capacity, rx, rest, keeps)?;
    lanes.reserve(1)?;
    let next = make_lane(alloc, me, peers[place], place as u8, capacity, last, keeps)?;
    lanes.push_reserved(next);
    Ok(lanes)
}

/// The quorum set, which is sane.
fn sane(set: QuorumSet) -> Result<SaneSet, Fault>
    requires { IsSane set }
    ensures set { IfOk result (λ made. made ≡ set) }
    ensures only_memory { IsOkUnless result Fault.NoMemory }
{
    match set.into_sane() {
        Ok(set) => Ok(set),
        Err((fault, _)) => Err(fault),
    }
}

/// The worker of the pending stage, between the inbox and the slot stage.
fn make_pend(
    alloc: Global,
    me: NodeId,
    set: Arc<SaneSet>,
    peers: &[NodeId],
    outlets: Vec<Putter>,
    rx: InboxRx,
    tx: ReadyTx,
) -> Result<PendWorker, Fault>
    requires few { length peers.now ≤ PEER_LIMIT }
    requires unused { (rx.got ≡ []) × (tx.sent ≡ []) × HavePutNothing outlets.items }
    requires producers { rx.producers ≡ length peers.now + 1 }
    ensures ends { IfOk result (λ w. (w.input ≡ rx) × (w.output ≡ Some tx)) }
    ensures outlets { IfOk result (λ w. w.outlets ≡ outlets.items) }
    ensures stage { IfOk result (λ w. PendsFor me peers.now set.value w.first) }
    ensures only_memory { IsOkUnless result Fault.NoMemory }
{
    let known = Vec::from_slice(alloc, peers)?;
    let producers = peers.len() as u8 + 1;
    Ok(pending(alloc, me, known, set, outlets, rx, producers, tx))
}

/// The worker of the slot stage, between the pending stage and the applier.
fn make_slot<A: Application + Drop + Copy>(
    alloc: Global,
    me: NodeId,
    set: Arc<SaneSet>,
    peers: &[NodeId],
    application: A,
    outlets: Vec<Putter>,
    rx: ReadyRx,
    tx: DecidedTx,
) -> Result<SlotWorker<A>, AllocError>
    requires few { length peers.now ≤ PEER_LIMIT }
    requires unused { (rx.got ≡ []) × (tx.sent ≡ []) × HavePutNothing outlets.items }
    requires one { rx.producers ≡ 1 }
    ensures ends { IfOk result (λ w. (w.input ≡ rx) × (w.output ≡ Some tx)) }
    ensures outlets { IfOk result (λ w. w.outlets ≡ outlets.items) }
    ensures stage { IfOk result (λ w. JournalsFor me peers.now set.value w.first.ledger) }
{
    let known = Vec::from_slice(alloc, peers)?;
    Ok(slots(alloc, me, set, application, known, outlets, rx, tx))
}

/// The slot stage and the applier, and the end that sends to them.
fn make_last<A: Application + Drop + Copy>(
    alloc: Global,
    me: NodeId,
    set: Arc<SaneSet>,
    peers: &[NodeId],
    capacities: Capacities,
    application: A,
    said: Vec<Putter>,
    answers: Vec<Putter>,
) -> Result<(ReadyTx, SlotWorker<A>, ApplyWorker<A>), Fault>
    requires few { length peers.now ≤ PEER_LIMIT }
    requires room { AreInRange capacities }
    requires unused { HavePutNothing said.items × HavePutNothing answers.items }
    ensures ready { IfOk result (λ r. (r.0 ≡ fresh r.1.input.line 0) × (r.1.input.producers ≡ 1)) }
    ensures slot_of { IfOk result (λ r. JournalsFor me peers.now set.value r.1.first.ledger) }
    ensures decided { IfOk result (λ r. SendsAs r.2.input.line 0 r.1 × (r.2.input.producers ≡ 1)) }
    ensures rooms { IfOk result (λ r. (r.1.input.room ≡ capacities.ready) × (r.2.input.room ≡ capacities.decided)) }
    ensures outlets { IfOk result (λ r. (r.1.outlets ≡ said.items) × (r.2.outlets ≡ answers.items)) }
    ensures only_memory { IsOkUnless result Fault.NoMemory }
{
    let (tx, ready) = ready_of(alloc, usize::from(capacities.ready))?;
    let (decided, rx) = decided_of(alloc, usize::from(capacities.decided))?;
    let slot = make_slot(alloc, me, set, peers, application, said, ready, decided)?;
    Ok((tx, slot, applier(alloc, me, answers, rx)))
}

/// The stages of a node after its inbox, which has carried nothing yet.
fn make_stages<A: Application + Drop + Copy>(
    alloc: Global,
    me: NodeId,
    set: QuorumSet,
    peers: &[NodeId],
    capacities: Capacities,
    application: A,
    outlets: Outlets,
    rx: InboxRx,
) -> Result<(PendWorker, SlotWorker<A>, ApplyWorker<A>), Fault>
    requires unused { HavePutNothing outlets.pend.items × HavePutNothing outlets.slot.items × HavePutNothing outlets.apply.items }
    requires few { length peers.now ≤ PEER_LIMIT }
    requires sane { IsSane set }
    requires room { AreInRange capacities }
    requires inbox { (rx.got ≡ []) × (rx.producers ≡ length peers.now + 1) × (rx.room ≡ capacities.inbox) }
    ensures stages { IfOk result (λ r. AreStages me set peers.now capacities r.0 r.1 r.2) }
    ensures inbox { IfOk result (λ r. r.0.input ≡ rx) }
    ensures outlets { IfOk result (λ r. (r.0.outlets ≡ outlets.pend.items) × (r.1.outlets ≡ outlets.slot.items) × (r.2.outlets ≡ outlets.apply.items)) }
    ensures only_memory { IsOkUnless result Fault.NoMemory }
{
    let Outlets {
        pend: replies,
        slot: said,
        apply: answers,
    } = outlets;
    let set = Arc::new(alloc, sane(set)?)?;
    let again = Arc::try_clone(&set)?;
    let (tx, slot, apply) = make_last(
        alloc,
        me,
        again,
        peers,
        capacities,
        application,
        said,
        answers,
    )?;
    let pend = make_pend(alloc, me, set, peers, replies, rx, tx)?;
    Ok((pend, slot, apply))
}

/// The links of a node with these peers, the sending end of its own commands, and its inbox.
fn make_lanes(
    alloc: Global,
    me: NodeId,
    peers: &[NodeId],
    capacities: Capacities,
    keeps: bool,
) -> Result<(Vec<Lane>, LocalTx, InboxRx), Fault>
    requires few { length peers.now ≤ PEER_LIMIT }
    requires room { AreInRange capacities }
    ensures count { IfOk result (λ r. length r.0.items ≡ length peers.now) }
    ensures lanes { IfOk result (λ r. AreLanes me peers.now r.2.line capacities.link r.0.items × AreUnused r.0.items) }
    ensures keeps { IfOk result (λ r. AllKeep keeps r.0.items) }
    ensures local { IfOk result (λ r. r.1 ≡ fresh r.2.line (length peers.now)) }
    ensures inbox { IfOk result (λ r. (r.2.got ≡ []) × (r.2.producers ≡ length peers.now + 1) × (r.2.room ≡ capacities.inbox)) }
    ensures only_memory { IsOkUnless result Fault.NoMemory }
{
    let (mut ends, rx) = inbox_of(alloc, peers.len() as u8, usize::from(capacities.inbox))?;
    let Some(local) = ends.pop() else {
        unreachable!()
    };
    let room = usize::from(capacities.link);
    let lanes = lanes(alloc, me, peers, room, &rx, ends, keeps)?;
    Ok((lanes, LocalTx::new(local), rx))
}

/// A node with these peers and this application. Its channels have carried nothing, and nothing was put through its outlets. If `keeps` is
/// set, each link's reader keeps what it receives. The only refusal is `NoMemory`.
pub fn make_parts<A: Application + Drop + Copy>(
    alloc: Global,
    me: NodeId,
    set: QuorumSet,
    peers: &[NodeId],
    capacities: Capacities,
    application: A,
    outlets: Outlets,
    keeps: bool,
) -> Result<Parts<A>, Fault>
    requires unused { HavePutNothing outlets.pend.items × HavePutNothing outlets.slot.items × HavePutNothing outlets.apply.items }
    requires few { length peers.now ≤ PEER_LIMIT }
    requires sane { IsSane set }
    requires room { AreInRange capacities }
    ensures count { IfOk result (λ p. length p.lanes.items ≡ length peers.now) }
    ensures lanes { IfOk result (λ p. AreLanes me peers.now p.pend.input.line capacities.link p.lanes.items) }
    ensures local { IfOk result (λ p. IsLocal peers.now p.pend p.local) }
    ensures stages { IfOk result (λ p. AreStages me set peers.now capacities p.pend p.slot p.apply) }
    ensures outlets { IfOk result (λ p. (p.pend.outlets ≡ outlets.pend.items) × (p.slot.outlets ≡ outlets.slot.items) × (p.apply.outlets ≡ outlets.apply.items)) }
    ensures unused { IfOk result (λ p. AreUnused p.lanes.items × (p.local.sent ≡ [])) }
    ensures keeps { IfOk result (λ p. AllKeep keeps p.lanes.items) }
    ensures only_memory { IsOkUnless result Fault.NoMemory }
{
    let (lanes, local, rx) = make_lanes(alloc, me, peers, capacities, keeps)?;
    let (pend, slot, apply) = make_stages(
        alloc,
        me,
        set,
        peers,
        capacities,
        application,
        outlets,
        rx,
    )?;
    Ok(Parts {
        lanes,
        local,
        pend,
        slot,
        apply,
    })
}
