//! The queue of an open connection.
ghost use Rattle.std.specs.Prelude.{◌≡◌, ◌+◌, ◌<◌, ◌^◌, ◌++◌, ◌∷◌, [], IfOk, OnOk, IsOkUnless, IfSome, IsSomeAnd, IfNone, is_some, Some, None, true, false, length, map, filter, take, drop, position, option_to_list, remove, slice_get, slice_set as set, get_or};
ghost use Rattle.std.specs.List.{list_any, AllByRecursion};
ghost use Rattle.scp_wire.specs.Connections.{same_conn};
ghost use Rattle.scp_fetch.specs.Wants.{last_missed, has_conn, waiting_for};
ghost use Rattle.scp_pending.specs.Queues.{is_of, is_open, is_link_open as link_open, parked_of, others, parked_in, resolved, served, leaving_of, is_hash, is_empty as none_parked, is_at, is_held, fate, leaves_of, stays_of, stays_in, leaves_in, is_head_waiting as has_waiting_head, with_first, in_order_of, resolved_one, resolved_in, dropped, lost_by, with_parked, first_waiting as first_that_waits};
ghost use Rattle.scp_pending.specs.Rules.{is_given_up};
ghost use Rattle.std.specs.List.Sorted.{IsPermutation, IsSortedByKey};
ghost use Rattle.scp_wire.specs.scp_types.specs.Order.{conn_cmp};
ghost use Rattle.scp_wire.specs.scp_types.specs.declared.names.ConnId.{ConnId};
ghost use Rattle.scp_pending.specs.inside.Outcome.{outcome_of, HasHash, IsPlace, Adds, parked_in_all};
ghost use Rattle.scp_pending.specs.inside.Kept.{IsKept, IsQuiet};
ghost use Rattle.scp_pending.specs.declared.parked.Parked.{Parked};

use crate::parked::{Outcome, Parked, named};
use crate::ready::{DropCause, Ready};
use scp_fetch::Fetcher;
use scp_wire::Carried;
use scp_wire::below::types::{ConnId, Fault, Hash, NodeId, Seq, Slot};
use std::alloc::Global;
use std::collections::VecDeque;
use std::marker::Model;
use std::mem;

/// The messages of an open connection that are parked, in order.
#[derive(Drop)]
pub(crate) struct Queue {
    conn: ConnId,
    parked: VecDeque<Parked>,
}

impl Model for Queue {
    ghost use Rattle.std.specs.Coded.{codes};
    ghost use Rattle.scp_wire.specs.scp_xdr.specs.inside.TreeModel.{coded_row};
    ghost use Rattle.scp_wire.specs.scp_quorum.specs.inside.QuorumTree.{coded_level};
    ghost use Rattle.scp_pending.specs.Queues.{QueueView};

    ghost Value = { QueueView };

    ghost coded = { Prim.hlevel (codes, coded_row coded_level) };

    ghost view = { λ q. record { conn = q.conn; parked = q.parked.items } };
}

impl Queue {
    /// Adds the queue's messages, in order.
    pub(crate) fn add_messages(self, messages: &mut Vec<Carried>) -> Result<(), Fault>
        ensures added { OnOk result (Adds self.parked messages.old.items messages.new.items) }
        ensures only_memory { IsOkUnless result Fault.NoMemory }
    {
        let Queue { conn: _, parked } = self;
        add_each(parked, messages)
    }

    pub(crate) fn new(alloc: Global, conn: ConnId) -> Queue
        ensures { result ≡ record { conn = conn; parked = [] } }
    {
        Queue {
            conn,
            parked: VecDeque::new(alloc),
        }
    }

    /// The first message that waits for a quorum set: its number, and the hash.
    #[tactic(auto, using(crate::proofs::Foremost::first_passes, crate::proofs::Foremost::first_stands, crate::proofs::Foremost::first_of_none))]
    pub(crate) fn first_waiting(&self) -> Option<(Seq, Hash)>
        ensures { result ≡ first_that_waits self.now.parked }
    {
        for parked in &self.parked {
            if let Some(hash) = parked.waited() {
                return Some((parked.seq(), hash));
            }
        }
        None
    }

    pub(crate) fn is_of(&self, conn: &ConnId) -> bool
        ensures { result ≡ is_of conn.now self.now }
    {
        self.conn == *conn
    }

    pub(crate) fn conn(&self) -> ConnId
        ensures { result ≡ self.now.conn }
    {
        self.conn
    }

    pub(crate) fn len(&self) -> usize
        ensures len { result ≡ length self.now.parked }
        ensures small { result < 2 ^ 63 }
    {
        self.parked.len()
    }

    pub(crate) fn push(&mut self, parked: Parked) -> Result<(), Fault>
        ensures { OnOk result (self.new ≡ with_parked parked self.old) }
    {
        self.parked.push_back(parked)?;
        Ok(())
    }

    /// Whether something of the lane is parked.
    pub(crate) fn has_lane(&self, slot: Slot) -> bool
        ensures { result ≡ list_any (is_at slot.0) self.now.parked }
    {
        has_lane(&self.parked, slot)
    }

    /// Whether its head waits for the hash.
    pub(crate) fn is_head_waiting(&self, hash: &Hash) -> bool
        ensures { result ≡ has_waiting_head hash.now self.now.parked }
    {
        match self.parked.front() {
            Some(parked) => parked.waits_for(hash),
            None => false,
        }
    }

    /// Gives, of each lane, all messages before the first that waits.
    pub(crate) fn serve(
        &mut self,
        alloc: Global,
        leaving: &mut VecDeque<Ready>,
    ) -> Result<(), Fault>
        ensures stays { OnOk result (self.new ≡ stays_in self.old) }
        ensures leaves { OnOk result (leaving.new.items ≡ leaving.old.items ++ leaves_in self.old) }
    {
        serve_from(alloc, self.conn, &mut self.parked, leaving)
    }

    /// Gives all of its messages as dropped.
    pub(crate) fn drop_all(
        &self,
        cause: DropCause,
        leaving: &mut VecDeque<Ready>,
    ) -> Result<(), Fault>
        ensures { OnOk result (leaving.new.items ≡ leaving.old.items ++ map (dropped self.now.conn cause) self.now.parked) }
    {
        drop_each(self.conn, &self.parked, cause, leaving)
    }

    /// What waits for the hash has its outcome.
    pub(crate) fn settle(&mut self, hash: &Hash, outcome: &Outcome) -> Result<(), Fault>
        requires hash { HasHash (Some hash.now) outcome.now }
        ensures { OnOk result (self.new ≡ resolved_in (is_hash hash.now) (outcome_of outcome.now) self.old) }
    {
        settle_each(&mut self.parked, hash, outcome)
    }

    /// What waits for a hash that one more miss gives up is lost.
    pub(crate) fn give_up(&mut self, fetcher: &Fetcher) -> Result<(), Fault>
        ensures { OnOk result (self.new ≡ resolved_in (is_given_up fetcher.now) (lost_by DropCause.GaveUp) self.old) }
    {
        give_up_each(&mut self.parked, fetcher)
    }
}

fn is_held_by(kept: &VecDeque<Parked>, parked: &Parked) -> bool
    ensures { result ≡ is_held kept.now.items parked.now }
{
    parked.waits() || has_lane(kept, parked.slot())
}

fn has_lane(kept: &VecDeque<Parked>, slot: Slot) -> bool
    ensures { result ≡ list_any (is_at slot.0) kept.now.items }
{
    kept.iter().any(|other| other.is_at(slot))
}

fn add_each(mut parked: VecDeque<Parked>, messages: &mut Vec<Carried>) -> Result<(), Fault>
    ensures added { OnOk result (Adds parked.items messages.old.items messages.new.items) }
    ensures only_memory { IsOkUnless result Fault.NoMemory }
{
    while let Some(p) = next_parked(&mut parked) {
        messages.push(p.into_message())?;
    }
    Ok(())
}

fn next_parked(parked: &mut VecDeque<Parked>) -> Option<Parked>
    ensures items { parked.old.items ≡ option_to_list result ++ parked.new.items }
    ensures none { IfNone result (parked.old.items ≡ []) }
{
    parked.pop_front()
}

/// The messages of the queues, queue after queue.
pub(crate) fn messages_of(alloc: Global, queues: Vec<Queue>) -> Result<Vec<Carried>, Fault>
    ensures added { IfOk result (λ messages. Adds (parked_in_all queues.items) [] messages.items) }
    ensures only_memory { IsOkUnless result Fault.NoMemory }
{
    let mut messages = Vec::new(alloc);
    for queue in queues {
        queue.add_messages(&mut messages)?;
    }
    Ok(messages)
}

/// The queues in the order of their connections. The only refusal is `NoMemory`.
pub(crate) fn in_order(mut queues: Vec<Queue>) -> Result<Vec<Queue>, Fault>
    ensures same { IfOk result (λ sorted. IsPermutation queues.items sorted.items) }
    ensures sorted { IfOk result (λ sorted. IsSortedByKey (λ q. q.conn) conn_cmp sorted.items) }
    ensures only_memory { IsOkUnless result Fault.NoMemory }
{
    queues.sort_by_key(|queue: &Queue| queue.conn())?;
    Ok(queues)
}

fn drop_each(
    conn: ConnId,
    parked: &VecDeque<Parked>,
    cause: DropCause,
    leaving: &mut VecDeque<Ready>,
) -> Result<(), Fault>
    ensures { OnOk result (leaving.new.items ≡ leaving.old.items ++ map (dropped conn cause) parked.now.items) }
{
    for i in 0..parked.len() {
        let seq = parked[i].seq();
        leaving.push_back(Ready::Dropped { conn, seq, cause })?;
    }
    Ok(())
}

#[tactic(auto, using(crate::proofs::Freeing::stays_more, crate::proofs::Freeing::leaves_more, crate::proofs::Freeing::stays_less, crate::proofs::Freeing::leaves_less))]
fn serve_from(
    alloc: Global,
    conn: ConnId,
    parked: &mut VecDeque<Parked>,
    leaving: &mut VecDeque<Ready>,
) -> Result<(), Fault>
    ensures stays { OnOk result (parked.new.items ≡ stays_of parked.old.items) }
    ensures leaves { OnOk result (leaving.new.items ≡ leaving.old.items ++ leaves_of conn parked.old.items) }
{
    let mut kept = VecDeque::new(alloc);
    while let Some(p) = parked.pop_front() {
        if is_held_by(&kept, &p) {
            kept.push_back(p)?;
        } else {
            give(conn, p, leaving)?;
        }
    }
    *parked = kept;
    Ok(())
}

fn settle_each(parked: &mut VecDeque<Parked>, hash: &Hash, outcome: &Outcome) -> Result<(), Fault>
    requires hash { HasHash (Some hash.now) outcome.now }
    ensures { OnOk result (parked.new.items ≡ map (resolved_one (is_hash hash.now) (outcome_of outcome.now)) parked.old.items) }
{
    for i in 0..parked.len() {
        if parked[i].waits_for(hash) {
            settle_at(parked, i, hash, outcome)?;
        }
    }
    Ok(())
}

/// The message at this place has its outcome, if it waits for the hash; the others aren't moved.
fn settle_at(
    parked: &mut VecDeque<Parked>,
    place: usize,
    hash: &Hash,
    outcome: &Outcome,
) -> Result<(), Fault>
    requires hash { HasHash (Some hash.now) outcome.now }
    requires place { place < length parked.old.items }
    ensures { OnOk result ((d : Parked) → parked.new.items ≡ set parked.old.items place (resolved_one (is_hash hash.now) (outcome_of outcome.now) (get_or parked.old.items place d))) }
{
    let waiting = mem::replace(&mut parked[place], Parked::nothing());
    parked[place] = waiting.settled(hash, outcome)?;
    Ok(())
}

fn give_up_each(parked: &mut VecDeque<Parked>, fetcher: &Fetcher) -> Result<(), Fault>
    ensures { OnOk result (parked.new.items ≡ map (resolved_one (is_given_up fetcher.now) (lost_by DropCause.GaveUp)) parked.old.items) }
{
    for i in 0..parked.len() {
        let Some(p) = parked.pop_front() else {
            return Ok(());
        };
        parked.push_back(p.given_up(fetcher))?;
    }
    Ok(())
}

/// Gives what waits for nothing.
pub(crate) fn give(conn: ConnId, parked: Parked, leaving: &mut VecDeque<Ready>) -> Result<(), Fault>
    ensures { OnOk result (leaving.new.items ≡ leaving.old.items ++ fate conn parked) }
{
    match parked {
        Parked::Waits(_carried) => {}
        Parked::Free(delivery) => leaving.push_back(Ready::Deliver(delivery))?,
        Parked::Lost(carried, cause) => {
            let seq = carried.seq;
            drop(carried);
            leaving.push_back(Ready::Dropped { conn, seq, cause })?;
        }
    }
    Ok(())
}

/// The place of the connection's queue.
pub(crate) fn place_of(queues: &[Queue], conn: &ConnId) -> Option<usize>
    ensures place { IfSome result (λ place. IsPlace conn.now queues.now place) }
    ensures none { IfNone result (is_open conn.now queues.now ≡ false) }
{
    position_of(queues, conn)
}

fn position_of(queues: &[Queue], conn: &ConnId) -> Option<usize>
    ensures { result ≡ position (is_of conn.now) queues.now }
{
    queues.iter().position(|queue| queue.is_of(conn))
}

/// How many messages of the connection are parked, if it is open.
#[tactic(auto, using(crate::proofs::Serving::parked_shut))]
pub(crate) fn count_of(queues: &[Queue], conn: &ConnId) -> Option<usize>
    ensures open { is_some result ≡ is_open conn.now queues.now }
    ensures count { IfSome result (λ count. count ≡ length (parked_of conn.now queues.now)) }
    ensures none { IfNone result (parked_of conn.now queues.now ≡ []) }
    ensures small { IfSome result (λ count. count < 2 ^ 63) }
{
    let place = place_of(queues, conn)?;
    Some(queues[place].len())
}

/// Whether a connection from the node is open.
pub(crate) fn is_link_open(queues: &[Queue], node: &NodeId) -> bool
    ensures { result ≡ link_open node.now queues.now }
{
    queues.iter().any(|queue| queue.conn().from == *node)
}

/// Takes the connection's queue out.
pub(crate) fn take_queue(queues: &mut Vec<Queue>, conn: &ConnId) -> Option<Queue>
    requires open { is_open conn.now queues.old.items ≡ true }
    ensures found { IsSomeAnd result (λ queue. queue ≡ record { conn = conn.now; parked = parked_of conn.now queues.old.items }) }
    ensures others { queues.new.items ≡ others conn.now queues.old.items }
{
    let place = place_of(queues, conn)?;
    Some(queues.remove(place))
}

/// Parks a message at the end of the queue at a place. A queue in which it is the first goes after all others.
pub(crate) fn push_at(queues: &mut Vec<Queue>, place: usize, parked: Parked) -> Result<(), Fault>
    requires place { place < length queues.old.items }
    ensures { OnOk result ((c : ConnId) → IsPlace c queues.old.items place → queues.new.items ≡ parked_in c parked queues.old.items) }
{
    if queues[place].len() > 0 {
        return queues[place].push(parked);
    }
    let mut queue = queues.remove(place);
    queue.push(parked)?;
    queues.push(queue)?;
    Ok(())
}

fn is_among(conns: &[ConnId], conn: &ConnId) -> bool
    ensures { result ≡ has_conn conn.now conns.now }
{
    conns.iter().any(|other| *conn == *other)
}

/// If the queue's connection is one of these, what waits for the hash has its outcome, and what may leave is given. On
/// every other connection nothing waits for it.
fn resolve_on(
    alloc: Global,
    queue: &mut Queue,
    conns: &[ConnId],
    hash: &Hash,
    outcome: &Outcome,
    leaving: &mut VecDeque<Ready>,
) -> Result<(), Fault>
    requires hash { HasHash (Some hash.now) outcome.now }
    requires quiet { has_conn queue.old.conn conns.now ≡ false → IsQuiet (is_hash hash.now) queue.old }
    ensures stays { OnOk result (queue.new ≡ stays_in (resolved_in (is_hash hash.now) (outcome_of outcome.now) queue.old)) }
    ensures leaves { OnOk result (leaving.new.items ≡ leaving.old.items ++ leaves_in (resolved_in (is_hash hash.now) (outcome_of outcome.now) queue.old)) }
{
    if !is_among(conns, &queue.conn()) {
        return Ok(());
    }
    queue.settle(hash, outcome)?;
    queue.serve(alloc, leaving)
}

/// On these connections only, what waits for the hash has its outcome, and what may leave is given, queue after queue.
#[tactic(auto, using(crate::proofs::Keeping::went_begins, crate::proofs::Keeping::went_at))]
pub(crate) fn resolve_all(
    alloc: Global,
    queues: &mut Vec<Queue>,
    conns: &[ConnId],
    hash: &Hash,
    outcome: &Outcome,
    leaving: &mut VecDeque<Ready>,
) -> Result<(), Fault>
    requires hash { HasHash (Some hash.now) outcome.now }
    requires quiet { AllByRecursion (λ q. has_conn q.conn conns.now ≡ false → IsQuiet (is_hash hash.now) q) queues.old.items }
    ensures stays { OnOk result (queues.new.items ≡ served (resolved (is_hash hash.now) (outcome_of outcome.now) queues.old.items)) }
    ensures leaves { OnOk result (leaving.new.items ≡ leaving.old.items ++ leaving_of (resolved (is_hash hash.now) (outcome_of outcome.now) queues.old.items)) }
{
    for i in 0..queues.len() {
        resolve_on(alloc, &mut queues[i], conns, hash, outcome, leaving)?;
    }
    Ok(())
}

/// What waits for hashes that one more miss gives up is lost, and what may leave is given. Of several such hashes, the queues
/// whose heads wait for the first wanted one come first. Looks only into the queues of the connections that wait for them; of
/// every other one it reads the connection, and nothing that is parked.
pub(crate) fn give_up_in_order(
    alloc: Global,
    queues: &mut Vec<Queue>,
    fetcher: &Fetcher,
    leaving: &mut VecDeque<Ready>,
) -> Result<(), Fault>
    requires kept { IsKept queues.old.items fetcher.now }
    ensures stays { OnOk result (queues.new.items ≡ served (resolved (is_given_up fetcher.now) (lost_by DropCause.GaveUp) (in_order_of (last_missed fetcher.now) queues.old.items))) }
    ensures leaves { OnOk result (leaving.new.items ≡ leaving.old.items ++ leaving_of (resolved (is_given_up fetcher.now) (lost_by DropCause.GaveUp) (in_order_of (last_missed fetcher.now) queues.old.items))) }
{
    let first = fetcher.at_last_miss()?;
    put_in_order(alloc, queues, fetcher, first)?;
    let hashes = fetcher.at_last_miss()?;
    give_up_all(alloc, queues, fetcher, hashes.as_slice(), leaving)
}

/// Whether the connection waits for one of the hashes.
fn waits_for_any(fetcher: &Fetcher, hashes: &[Hash], conn: &ConnId) -> bool
    ensures { result ≡ list_any (λ hash. has_conn conn.now (waiting_for hash fetcher.now)) hashes.now }
{
    hashes
        .iter()
        .any(|hash| is_among(fetcher.waiting(hash), conn))
}

/// If the queue's connection waits for a hash that one more miss gives up, what waits for it is lost, and what may leave is
/// given. On every other connection nothing waits for one.
fn give_up_on(
    alloc: Global,
    queue: &mut Queue,
    fetcher: &Fetcher,
    hashes: &[Hash],
    leaving: &mut VecDeque<Ready>,
) -> Result<(), Fault>
    requires quiet { list_any (λ hash. has_conn queue.old.conn (waiting_for hash fetcher.now)) hashes.now ≡ false → IsQuiet (is_given_up fetcher.now) queue.old }
    ensures stays { OnOk result (queue.new ≡ stays_in (resolved_in (is_given_up fetcher.now) (lost_by DropCause.GaveUp) queue.old)) }
    ensures leaves { OnOk result (leaving.new.items ≡ leaving.old.items ++ leaves_in (resolved_in (is_given_up fetcher.now) (lost_by DropCause.GaveUp) queue.old)) }
{
    if !waits_for_any(fetcher, hashes, &queue.conn()) {
        return Ok(());
    }
    queue.give_up(fetcher)?;
    queue.serve(alloc, leaving)
}

#[tactic(auto, using(crate::proofs::Keeping::went_begins, crate::proofs::Keeping::went_at))]
fn give_up_all(
    alloc: Global,
    queues: &mut Vec<Queue>,
    fetcher: &Fetcher,
    hashes: &[Hash],
    leaving: &mut VecDeque<Ready>,
) -> Result<(), Fault>
    requires quiet { AllByRecursion (λ q. list_any (λ hash. has_conn q.conn (waiting_for hash fetcher.now)) hashes.now ≡ false → IsQuiet (is_given_up fetcher.now) q) queues.old.items }
    ensures stays { OnOk result (queues.new.items ≡ served (resolved (is_given_up fetcher.now) (lost_by DropCause.GaveUp) queues.old.items)) }
    ensures leaves { OnOk result (leaving.new.items ≡ leaving.old.items ++ leaving_of (resolved (is_given_up fetcher.now) (lost_by DropCause.GaveUp) queues.old.items)) }
{
    for i in 0..queues.len() {
        give_up_on(alloc, &mut queues[i], fetcher, hashes, leaving)?;
    }
    Ok(())
}

/// Whether the queue's head waits for the hash, if its connection is one of these; on every other one nothing waits for it.
fn comes_first(queue: &Queue, conns: &[ConnId], hash: &Hash) -> bool
    requires quiet { has_conn queue.now.conn conns.now ≡ false → IsQuiet (is_hash hash.now) queue.now }
    ensures { result ≡ has_waiting_head hash.now queue.now.parked }
{
    is_among(conns, &queue.conn()) && queue.is_head_waiting(hash)
}

/// Puts the queues whose heads wait for the hash before the others. Looks only into the queues of these connections.
#[tactic(auto, using(crate::proofs::Freeing::with_waiting, crate::proofs::Freeing::with_other))]
fn put_first(
    alloc: Global,
    queues: &mut Vec<Queue>,
    conns: &[ConnId],
    hash: &Hash,
) -> Result<(), Fault>
    requires quiet { AllByRecursion (λ q. has_conn q.conn conns.now ≡ false → IsQuiet (is_hash hash.now) q) queues.old.items }
    ensures { OnOk result (queues.new.items ≡ with_first hash.now queues.old.items) }
{
    let mut first = Vec::new(alloc);
    let mut rest = Vec::new(alloc);
    for queue in mem::replace(queues, Vec::new(alloc)) {
        if comes_first(&queue, conns, hash) {
            first.push(queue)?;
        } else {
            rest.push(queue)?;
        }
    }
    first.append(&mut rest)?;
    *queues = first;
    Ok(())
}

/// Puts the queues whose heads wait for the first of several hashes first, then those for the second, and so on.
fn put_in_order(
    alloc: Global,
    queues: &mut Vec<Queue>,
    fetcher: &Fetcher,
    hashes: Vec<Hash>,
) -> Result<(), Fault>
    requires quiet { (hash : Hash) → AllByRecursion (λ q. has_conn q.conn (waiting_for hash fetcher.now) ≡ false → IsQuiet (is_hash hash) q) queues.old.items }
    ensures { OnOk result (queues.new.items ≡ in_order_of hashes.items queues.old.items) }
{
    let mut hashes = hashes;
    while let Some(hash) = hashes.pop() {
        put_first(alloc, queues, fetcher.waiting(&hash), &hash)?;
    }
    Ok(())
}

/// Whether something of the lane is parked in the queue at a place.
pub(crate) fn has_lane_at(queues: &[Queue], place: usize, slot: Slot) -> bool
    requires place { place < length queues.now }
    ensures { (c : ConnId) → IsPlace c queues.now place → result ≡ list_any (is_at slot.0) (parked_of c queues.now) }
{
    queues[place].has_lane(slot)
}

/// How many messages are parked in the queue at a place.
pub(crate) fn count_at(queues: &[Queue], place: usize) -> usize
    requires place { place < length queues.now }
    ensures { (c : ConnId) → IsPlace c queues.now place → result ≡ length (parked_of c queues.now) }
{
    queues[place].len()
}
