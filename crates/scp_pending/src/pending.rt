//! The pending stage.
ghost use Rattle.std.specs.Prelude.{ℕ, ◌≡◌, ◌≤◌, ◌<◌, ◌^◌, ◌++◌, ◌∷◌, [], ◌↔◌, List, IfOk, OnOk, OnErr, IsOkUnless, IfNone, Err, IfSome, None, Some, true, false, length, map, filter, flat_map, option_to_list, position, remove, take, drop, count_by, is_some, slice_get};
ghost use Rattle.scp_wire.specs.scp_types.specs.declared.names.NodeId.{NodeId};
ghost use Rattle.scp_wire.specs.declared.link.Inbound.{Inbound};
ghost use Rattle.scp_fetch.specs.Store.{lookup};
ghost use Rattle.scp_fetch.specs.Wants.{waiting_for, gives_up, without};
ghost use Rattle.scp_fetch.specs.declared.want.Miss.{Miss};
ghost use Rattle.scp_pending.specs.Queues.{is_of, is_open, parked_of, others, changed, with_parked, parked_in, served, leaving_of, resolved, lost_by, dropped, is_hash, is_link_open, stays_in, leaves_in, is_held, fate, waits, first_waiting as first_that_waits};
ghost use Rattle.scp_pending.specs.Rules.{PendingView, Settled, fresh, rules, releases, reply, taken_in, entering as entering_with, link_number, opens, opened, closed_off, asks, brings, brought, enters, goes_through, overflows, parks, hears, heard_out, replies, answer as answer_for, is_full, wanted_with, asks_named, wanted_named};
ghost use Rattle.scp_pending.specs.inside.Outcome.{outcome_of, HasHash, IsPlace};
ghost use Rattle.scp_wire.specs.scp_quorum.specs.Sane.{IsSane};
ghost use Rattle.scp_wire.specs.Fitting.{IsFitting};
ghost use Rattle.scp_wire.specs.Connections.{same_node};
ghost use Rattle.scp_pending.specs.Line.{is_message_of, count_held};
ghost use Rattle.std.specs.List.Sorted.{IsStrictlySortedBy};
ghost use Rattle.scp_wire.specs.Shape.{HasShape};
ghost use Rattle.scp_pending.specs.Messages.{AreParked, message_cmp};
ghost use Rattle.scp_pending.specs.Pends.{Pends, IsSettled, IsIdle};
ghost use Rattle.scp_pending.specs.inside.Kept.{IsKept};
ghost use Rattle.scp_pending.specs.Passes.{Passes};
ghost use Rattle.scp_pending.specs.Becoming.{becoming};
ghost use Rattle.scp_pending.specs.declared.ready.Ready.{Ready};

mod becoming;

use crate::becoming::Becoming;
use crate::parked::{Outcome, Parked, named, slot_in};
use crate::queue::{
    Queue, count_at, count_of, give, give_up_in_order, has_lane_at, in_order,
    is_link_open as is_link_open_in, messages_of, place_of, push_at, resolve_all, take_queue,
};
use crate::ready::{Delivery, DropCause, Ready};
use scp_fetch::{Fetcher, SetStore, Want};
use scp_wire::below::quorum::{QuorumSet, SaneSet};
use scp_wire::below::types::{ConnId, Fault, Hash, LINK_LIMIT, NodeId, Seq};
use scp_wire::{Carried, Cause, Command, Inbound, Message, SideMessage, what_fits_a_link};
use std::alloc::{AllocError, Global};
use std::collections::VecDeque;
use std::marker::Model;
use std::sync::Arc;

/// The most messages of one connection that are parked (this project's profile).
pub const PARKED_LIMIT: usize = 64;

/// Messages that wait for their quorum sets, and what is on its way out. Unless it failed, the connections in a hash's list
/// are those on which something waits for it, so that nothing needs to be looked at elsewhere.
#[derive(Drop)]
pub struct Pending {
    failed: bool,
    parking: Parking,
}

impl Model for Pending {
    ghost use Rattle.std.specs.Prelude.{◌≡◌, false};
    ghost use Rattle.std.specs.Coded.{codes};
    ghost use Rattle.scp_wire.specs.scp_xdr.specs.inside.TreeModel.{coded_row};
    ghost use Rattle.scp_wire.specs.scp_quorum.specs.inside.QuorumTree.{coded_level};
    ghost use Rattle.scp_pending.specs.Rules.{PendingView};
    ghost use Rattle.scp_pending.specs.inside.Kept.{IsKept};

    ghost Value = { PendingView };

    ghost coded = { Prim.hlevel (codes, coded_row coded_level) };

    ghost view = { λ a. record a.parking { failed = a.failed } };

    ghost invariant = { λ a. a.failed ≡ false → IsKept a.parking.settled.queues a.parking.settled.wanted };
}

/// What is parked, stored and wanted, and what is on its way out.
#[derive(Drop)]
struct Parking {
    alloc: Global,
    me: NodeId,
    peers: Vec<NodeId>,
    store: SetStore,
    fetcher: Fetcher,
    queues: Vec<Queue>,
    leaving: VecDeque<Ready>,
}

impl Model for Parking {
    ghost use Rattle.std.specs.Prelude.{◌≤◌, length, false};
    ghost use Rattle.scp_wire.specs.scp_types.specs.declared.limits.TheConstants.{LINK_LIMIT};
    ghost use Rattle.std.specs.Coded.{codes};
    ghost use Rattle.scp_wire.specs.scp_xdr.specs.inside.TreeModel.{coded_row};
    ghost use Rattle.scp_wire.specs.scp_quorum.specs.inside.QuorumTree.{coded_level};
    ghost use Rattle.scp_pending.specs.Rules.{PendingView};

    ghost Value = { PendingView };

    ghost coded = { Prim.hlevel (codes, coded_row coded_level) };

    ghost view = { λ a. record {
      failed = false;
      settled = record { me = a.me; peers = a.peers.items; store = a.store; wanted = a.fetcher; queues = a.queues.items };
      leaving = a.leaving.items;
    } };

    ghost invariant = { λ a. length a.peers.items ≤ LINK_LIMIT };
}

impl Pending {
    /// A stage of this node that has taken nothing. `peers[l]` is the sender of link l, and `local` is the node's own
    /// quorum set. Takes no memory.
    pub fn new(alloc: Global, me: NodeId, peers: Vec<NodeId>, local: Arc<SaneSet>) -> Pending
        requires few { length peers.items ≤ LINK_LIMIT }
        ensures settled { result.settled ≡ fresh me peers.items local.value }
        ensures pends { Pends me peers.items [] [] result }
        ensures nothing_ready { result.leaving ≡ [] }
        ensures idle { IsIdle result }
    {
        let _ = local.set();
        Pending {
            failed: false,
            parking: Parking {
                alloc,
                me,
                peers,
                store: SetStore::new(alloc, local),
                fetcher: Fetcher::new(alloc),
                queues: Vec::new(alloc),
                leaving: VecDeque::new(alloc),
            },
        }
    }

    /// Takes one more item, when `next_ready` gives nothing. Returns the message for one link, if there is one: a GetSet if that
    /// link is to be asked for an envelope's set, or the answer to a GetSet. `Fault::NoMemory` leaves the stage failed; a failed
    /// one answers `Fault::Failed` and stays as it is.
    ///
    /// A connection has at most 64 parked messages. They are walked at a carried message of it, and at its end. They are also walked at a
    /// wanted Set or the twelfth miss of a hash that it waits for, and at a Tick that gives such a hash up. There each is compared with
    /// those of its connection that stay before it. Of every other connection only its name is read. A Tick, an Opened and a connection's
    /// end walk all wants, and the end of a want moves those after it. Besides, a Set is checked and hashed, the answer to a GetSet copies
    /// its set, and the rest are look-ups in hash tables.
    pub fn take(&mut self, item: Inbound) -> Result<Option<(u8, Message)>, Fault>
        requires nothing_ready { self.old.failed ≡ false → self.old.leaving ≡ [] }
        ensures reply { IfOk result (λ answer. answer ≡ reply self.old.settled item) }
        // What is answered fits a link.
        ensures fits { IfOk result (λ answer. IfSome answer (λ sent. IsFitting sent.1)) }
        ensures rules { OnOk result (self.new ≡ taken_in self.old item) }
        ensures passes { OnOk result ((me : NodeId) → (peers : List NodeId) → Passes (Pends me peers) (item ∷ []) [] self.old self.new) }
        ensures failed { OnErr result (self.new.failed ≡ true) }
        ensures failed_before { result ≡ Err Fault.Failed ↔ self.old.failed ≡ true }
        ensures same { self.old.failed ≡ true → self.new ≡ self.old }
        ensures memory { self.old.failed ≡ false → IsOkUnless result Fault.NoMemory }
    {
        if self.failed {
            return Err(Fault::Failed);
        }
        match self.parking.settle(item) {
            Ok(answer) => Ok(answer),
            Err(_) => {
                self.failed = true;
                Err(Fault::NoMemory)
            }
        }
    }

    /// The next ready thing. Takes no memory. A failed stage gives nothing.
    pub fn next_ready(&mut self) -> Option<Ready>
        ensures passes { (me : NodeId) → (peers : List NodeId) → Passes (Pends me peers) [] (option_to_list result) self.old self.new }
        ensures gives { self.old.failed ≡ false → self.old.leaving ≡ option_to_list result ++ self.new.leaving }
        ensures same { self.new ≡ record self.old { leaving = self.new.leaving } }
        ensures none { self.old.failed ≡ false → (result ≡ None ↔ self.old.leaving ≡ []) }
        ensures failed { self.old.failed ≡ true → (result ≡ None) × (self.new ≡ self.old) }
        ensures settled { (me : NodeId) → (peers : List NodeId) → (taken : List Inbound) → (given : List Ready) → Pends me peers taken given self.old → (result ≡ None ↔ IsSettled me peers taken self.old) }
        ensures unchanged { result ≡ None → self.new ≡ self.old }
    {
        if self.failed {
            return None;
        }
        next(&mut self.parking.leaving)
    }

    /// Whether something is ready, so that nothing is taken before `next_ready` gives it.
    pub fn has_ready(&self) -> bool
        ensures { result ≡ is_some (slice_get self.now.leaving 0) }
    {
        !self.parking.leaving.is_empty()
    }

    /// How many messages of the connection the stage holds: those that are ready, and those that are parked. At most
    /// 64 if nothing is ready, and 65 right after the take that cut the connection off.
    pub fn parked(&self, conn: &ConnId) -> usize
        ensures { result ≡ count_held conn.now self.now }
    {
        let ready = ready_of(&self.parking.leaving, conn);
        match count_of(&self.parking.queues, conn) {
            Some(count) => ready + count,
            None => ready,
        }
    }

    /// Whether the connection is open.
    pub fn is_open(&self, conn: &ConnId) -> bool
        ensures { result ≡ is_open conn.now self.now.settled.queues }
    {
        let Some(_) = place_of(&self.parking.queues, conn) else {
            return false;
        };
        true
    }

    /// What would become of an item if it were taken next, by what is parked, stored and wanted. A failed stage, which takes nothing, answers
    /// what would become of it. Costs a look at the item's connection, lane and hash. A quorum set is hashed, which takes the memory of its
    /// encoding; nothing else takes memory. The only refusal is `Fault::NoMemory`.
    pub fn becoming(&self, item: &Inbound) -> Result<Becoming, Fault>
        ensures is { IfOk result (λ found. found ≡ becoming self.now.settled item.now) }
        ensures only_memory { IsOkUnless result Fault.NoMemory }
    {
        self.parking.becoming(item)
    }

    /// The wants, in the order in which their hashes became wanted. The only refusal is `AllocError`.
    pub fn wants(&self) -> Result<Vec<&Want>, AllocError>
        ensures { IfOk result (λ wants. map (λ want. want.now) wants.items ≡ self.now.settled.wanted) }
    {
        self.parking.fetcher.wants()
    }

    /// The connection's first message that waits for a quorum set: its number, and the hash that it waits for.
    #[tactic(auto, using(crate::proofs::Serving::parked_shut))]
    pub fn first_waiting(&self, conn: &ConnId) -> Option<(Seq, Hash)>
        ensures { result ≡ first_that_waits (parked_of conn.now self.now.settled.queues) }
    {
        let place = place_of(&self.parking.queues, conn)?;
        self.parking.queues[place].first_waiting()
    }

    /// The connections with an envelope that waits for this hash, each once, in the order of their first wait among those; none
    /// if the hash isn't wanted. Takes no memory, and costs one look-up in a hash table.
    pub fn waiting(&self, hash: &Hash) -> &[ConnId]
        ensures { result.now ≡ waiting_for hash.now self.now.settled.wanted }
    {
        self.parking.fetcher.waiting(hash)
    }

    /// The parked messages, once nothing more is taken. They ascend by the senders and the lives of their connections, and by
    /// their numbers. For each connection they are those that are parked of it. No message is copied. The only refusal is
    /// `Fault::NoMemory`.
    pub fn into_parked(self) -> Result<Vec<Carried>, Fault>
        ensures parked { IfOk result (λ messages. (me : NodeId) → (peers : List NodeId) → (taken : List Inbound) → (given : List Ready) → Pends me peers taken given self → AreParked self messages.items) }
        ensures ascending { IfOk result (λ messages. (me : NodeId) → (peers : List NodeId) → (taken : List Inbound) → (given : List Ready) → Pends me peers taken given self → HasShape me peers taken → IsStrictlySortedBy message_cmp messages.items) }
        ensures only_memory { IsOkUnless result Fault.NoMemory }
    {
        let queues = in_order(self.parking.into_queues())?;
        let alloc = *queues.allocator();
        messages_of(alloc, queues)
    }
}

impl Parking {
    fn into_queues(self) -> Vec<Queue>
        ensures { result.items ≡ self.settled.queues }
    {
        self.queues
    }

    /// What an item does. Returns the message for one link, if there is one.
    fn settle(&mut self, item: Inbound) -> Result<Option<(u8, Message)>, Fault>
        requires kept { IsKept self.old.settled.queues self.old.settled.wanted }
        ensures reply { IfOk result (λ answer. answer ≡ reply self.old.settled item) }
        ensures fits { IfOk result (λ answer. IfSome answer (λ sent. IsFitting sent.1)) }
        ensures rules { OnOk result (self.new ≡ taken_in self.old item) }
    {
        match item {
            Inbound::Opened(conn) => {
                self.open(conn)?;
                Ok(None)
            }
            Inbound::Carried(carried) => self.bring(carried),
            Inbound::Side { conn, message } => self.hear(conn, message),
            Inbound::Closed { conn, cause } => {
                self.close(conn, cause)?;
                Ok(None)
            }
            Inbound::Local(command) => {
                self.command(command)?;
                Ok(None)
            }
        }
    }

    /// The number of the link from this node; 0 if it is no peer.
    fn link_number(&self, node: &NodeId) -> u8
        ensures number { result ≡ link_number node.now self.now.settled }
        ensures few { result < LINK_LIMIT }
    {
        match place_of_peer(&self.peers, node) {
            Some(place) => place as u8,
            None => 0,
        }
    }

    /// Whether the connection would begin: it is from a peer's link to this node, and none is open there.
    fn opens(&self, conn: &ConnId) -> bool
        ensures { result ≡ opens conn.now self.now.settled }
    {
        place_of_peer(&self.peers, &conn.from).is_some()
            && conn.to == self.me
            && !is_link_open_in(&self.queues, &conn.from)
    }

    /// The connection begins, unless one is open on its link, or it is from no peer, or to another node.
    fn open(&mut self, conn: ConnId) -> Result<(), Fault>
        ensures { OnOk result (self.new ≡ taken_in self.old (Inbound.Opened conn)) }
    {
        if !self.opens(&conn) {
            return Ok(());
        }
        self.queues.push(Queue::new(self.alloc, conn))?;
        let link = self.link_number(&conn.from);
        self.fetcher.opened(link);
        Ok(())
    }

    fn bring(&mut self, carried: Carried) -> Result<Option<(u8, Message)>, Fault>
        ensures reply { IfOk result (λ answer. answer ≡ reply self.old.settled (Inbound.Carried carried)) }
        ensures fits { IfOk result (λ answer. IfSome answer (λ sent. IsFitting sent.1)) }
        ensures rules { OnOk result (self.new ≡ taken_in self.old (Inbound.Carried carried)) }
    {
        let conn = carried.conn;
        let Some(place) = place_of(&self.queues, &conn) else {
            return Ok(None);
        };
        let held = self.is_held_back(place, &carried);
        if held && count_at(&self.queues, place) >= PARKED_LIMIT {
            self.cut_off(carried)?;
            return Ok(None);
        }
        let parked = entering(&self.store, carried)?;
        if !held {
            give(conn, parked, &mut self.leaving)?;
            return Ok(None);
        }
        self.park(place, conn, parked)
    }

    /// Whether the message would be parked: its quorum set is unknown, or something of its lane is parked. Its connection's queue is at this place.
    /// has this place.
    #[tactic(auto, using(crate::proofs::Hearing::held_entering))]
    fn is_held_back(&self, place: usize, carried: &Carried) -> bool
        requires here { IsPlace carried.now.conn self.now.settled.queues place }
        ensures { result ≡ is_held (parked_of carried.now.conn self.now.settled.queues) (entering_with self.now.settled.store carried.now) }
    {
        will_wait(&self.store, carried)
            || has_lane_at(&self.queues, place, slot_in(carried.message.get()))
    }

    /// One message too many would be parked: all that is parked of the connection is dropped, and this too, and the connection is cut off.
    fn cut_off(&mut self, carried: Carried) -> Result<(), Fault>
        requires open { is_open carried.conn self.old.settled.queues ≡ true }
        requires full { is_full carried.conn self.old.settled.queues ≡ true }
        requires held { is_held (parked_of carried.conn self.old.settled.queues) (entering_with self.old.settled.store carried) ≡ true }
        ensures { OnOk result (self.new ≡ taken_in self.old (Inbound.Carried carried)) }
    {
        let conn = carried.conn;
        self.empty(&conn, DropCause::ParkedFull)?;
        self.leaving.push_back(Ready::Dropped {
            conn,
            seq: carried.seq,
            cause: DropCause::ParkedFull,
        })?;
        self.leaving.push_back(Ready::Closed {
            conn,
            cause: Cause::ParkedFull,
        })?;
        Ok(())
    }

    fn close(&mut self, conn: ConnId, cause: Cause) -> Result<(), Fault>
        ensures { OnOk result (self.new ≡ taken_in self.old (Inbound.Closed conn cause)) }
    {
        if place_of(&self.queues, &conn).is_none() {
            return Ok(());
        }
        self.empty(&conn, DropCause::Closed)?;
        self.leaving.push_back(Ready::Closed { conn, cause })?;
        Ok(())
    }

    /// Drops all that is parked of the connection, and its queue.
    fn empty(&mut self, conn: &ConnId, cause: DropCause) -> Result<(), Fault>
        requires open { is_open conn.now self.old.settled.queues ≡ true }
        ensures { OnOk result (self.new ≡ record self.old { settled = closed_off conn.now self.old.settled; leaving = self.old.leaving ++ map (dropped conn.now cause) (parked_of conn.now self.old.settled.queues) }) }
    {
        if let Some(queue) = take_queue(&mut self.queues, conn) {
            queue.drop_all(cause, &mut self.leaving)?;
            self.fetcher.closed(conn);
        }
        Ok(())
    }

    /// Parks a message at the end of its connection's queue, which is at this place. If it waits, its quorum set is wanted, and
    /// its link is asked for the set if it wasn't yet.
    fn park(
        &mut self,
        place: usize,
        conn: ConnId,
        parked: Parked,
    ) -> Result<Option<(u8, Message)>, Fault>
        requires here { IsPlace conn self.old.settled.queues place }
        ensures reply { IfOk result (λ answer. answer ≡ asks (link_number conn.from self.old.settled) parked self.old.settled.wanted) }
        ensures fits { IfOk result (λ answer. IfSome answer (λ sent. IsFitting sent.1)) }
        ensures rules { OnOk result (self.new ≡ record self.old { settled = record self.old.settled { queues = parked_in conn parked self.old.settled.queues; wanted = wanted_with (link_number conn.from self.old.settled) conn parked self.old.settled.wanted } }) }
    {
        let hash = parked.waited();
        let answer = self.ask(hash, conn)?;
        push_at(&mut self.queues, place, parked)?;
        Ok(answer)
    }

    /// The quorum set with this hash, if there is one, is wanted, and the link is asked for it if it wasn't yet.
    fn ask(&mut self, hash: Option<Hash>, conn: ConnId) -> Result<Option<(u8, Message)>, Fault>
        ensures reply { IfOk result (λ answer. answer ≡ asks_named (link_number conn.from self.old.settled) hash self.old.settled.wanted) }
        ensures fits { IfOk result (λ answer. IfSome answer (λ sent. IsFitting sent.1)) }
        ensures rules { OnOk result (self.new ≡ record self.old { settled = record self.old.settled { wanted = wanted_named (link_number conn.from self.old.settled) conn hash self.old.settled.wanted } }) }
    {
        let Some(hash) = hash else {
            return Ok(None);
        };
        let link = self.link_number(&conn.from);
        let asks = self.fetcher.want(&hash, link, &conn)?;
        if !asks {
            return Ok(None);
        }
        Ok(Some((link, Message::GetSet(hash))))
    }

    fn hear(&mut self, conn: ConnId, message: SideMessage) -> Result<Option<(u8, Message)>, Fault>
        requires kept { IsKept self.old.settled.queues self.old.settled.wanted }
        ensures reply { IfOk result (λ answer. answer ≡ reply self.old.settled (Inbound.Side conn message)) }
        ensures fits { IfOk result (λ answer. IfSome answer (λ sent. IsFitting sent.1)) }
        ensures rules { OnOk result (self.new ≡ taken_in self.old (Inbound.Side conn message)) }
    {
        if place_of(&self.queues, &conn).is_none() {
            return Ok(None);
        }
        match message {
            SideMessage::GetSet(hash) => {
                let link = self.link_number(&conn.from);
                Ok(Some((link, self.answer_to(&hash)?)))
            }
            SideMessage::Set(set) => {
                self.hear_set(set)?;
                Ok(None)
            }
            SideMessage::NoSet(hash) => {
                self.hear_no_set(&hash)?;
                Ok(None)
            }
        }
    }

    /// The answer to a GetSet.
    fn answer_to(&self, hash: &Hash) -> Result<Message, Fault>
        ensures answer { IfOk result (λ message. message ≡ answer_for hash.now (lookup hash.now self.now.settled.store)) }
        ensures fits { IfOk result IsFitting }
    {
        match self.store.get(hash) {
            Some(set) => set_answer(set),
            None => Ok(Message::NoSet(*hash)),
        }
    }

    fn hear_set(&mut self, set: QuorumSet) -> Result<(), Fault>
        requires kept { IsKept self.old.settled.queues self.old.settled.wanted }
        ensures { OnOk result (self.new ≡ record self.old { settled = hears (SideMessage.Set set) self.old.settled; leaving = self.old.leaving ++ heard_out (SideMessage.Set set) self.old.settled }) }
    {
        match set.into_sane() {
            Ok(sane) => self.hear_sane(sane),
            Err((Fault::Insane, set)) => self.hear_insane(&set),
            Err(_) => Err(Fault::NoMemory),
        }
    }

    #[tactic(auto, using(crate::proofs::Hearing::unwanted))]
    fn hear_sane(&mut self, sane: SaneSet) -> Result<(), Fault>
        requires kept { IsKept self.old.settled.queues self.old.settled.wanted }
        ensures { OnOk result (self.new ≡ record self.old { settled = hears (SideMessage.Set sane) self.old.settled; leaving = self.old.leaving ++ heard_out (SideMessage.Set sane) self.old.settled }) }
    {
        let _ = sane.set();
        let hash = sane.hash();
        if !self.fetcher.is_wanted(&hash) {
            return Ok(());
        }
        let shared = Arc::new(self.alloc, sane)?;
        self.store.insert(Arc::try_clone(&shared)?)?;
        self.resolve(&hash, Outcome::Has(shared))?;
        Ok(())
    }

    #[tactic(auto, using(crate::proofs::Hearing::unwanted, crate::proofs::Hearing::unspelt))]
    fn hear_insane(&mut self, set: &QuorumSet) -> Result<(), Fault>
        requires kept { IsKept self.old.settled.queues self.old.settled.wanted }
        requires insane { IsSane set.now → ⊥ }
        ensures { OnOk result (self.new ≡ record self.old { settled = hears (SideMessage.Set set.now) self.old.settled; leaving = self.old.leaving ++ heard_out (SideMessage.Set set.now) self.old.settled }) }
    {
        let hash = match set.hash() {
            Ok(hash) => hash,
            Err(Fault::TooLong) => return Ok(()),
            Err(_) => return Err(Fault::NoMemory),
        };
        if self.fetcher.is_wanted(&hash) {
            self.resolve(&hash, Outcome::Lost(DropCause::BadSet))?;
        }
        Ok(())
    }

    fn hear_no_set(&mut self, hash: &Hash) -> Result<(), Fault>
        requires kept { IsKept self.old.settled.queues self.old.settled.wanted }
        ensures { OnOk result (self.new ≡ record self.old { settled = hears (SideMessage.NoSet hash.now) self.old.settled; leaving = self.old.leaving ++ heard_out (SideMessage.NoSet hash.now) self.old.settled }) }
    {
        if self.fetcher.is_at_last_miss(hash) {
            return self.lose(hash);
        }
        let _ = self.fetcher.miss(hash);
        Ok(())
    }

    /// The twelfth miss of the hash: what waits for it is lost, and what may leave is given. Looks only at the connections that
    /// wait for it.
    fn lose(&mut self, hash: &Hash) -> Result<(), Fault>
        requires kept { IsKept self.old.settled.queues self.old.settled.wanted }
        requires last { gives_up Miss.All self.old.settled.wanted hash.now ≡ true }
        ensures { OnOk result (self.new ≡ record self.old { settled = hears (SideMessage.NoSet hash.now) self.old.settled; leaving = self.old.leaving ++ heard_out (SideMessage.NoSet hash.now) self.old.settled }) }
    {
        resolve_all(
            self.alloc,
            &mut self.queues,
            self.fetcher.waiting(hash),
            hash,
            &Outcome::Lost(DropCause::GaveUp),
            &mut self.leaving,
        )?;
        let _ = self.fetcher.miss(hash);
        Ok(())
    }

    /// A set came: its hash isn't wanted anymore, what waits for it has its outcome, and what may leave is given. Looks only at
    /// the connections that wait for it.
    fn resolve(&mut self, hash: &Hash, outcome: Outcome) -> Result<(), Fault>
        requires kept { IsKept self.old.settled.queues self.old.settled.wanted }
        requires hash { HasHash (Some hash.now) outcome }
        ensures { OnOk result (self.new ≡ record self.old { settled = record self.old.settled { wanted = without hash.now self.old.settled.wanted; queues = served (resolved (is_hash hash.now) (outcome_of outcome) self.old.settled.queues) }; leaving = self.old.leaving ++ leaving_of (resolved (is_hash hash.now) (outcome_of outcome) self.old.settled.queues) }) }
    {
        resolve_all(
            self.alloc,
            &mut self.queues,
            self.fetcher.waiting(hash),
            hash,
            &outcome,
            &mut self.leaving,
        )?;
        // whether the set is sane or not, the want ends
        let _ = self.fetcher.answer(hash, true);
        Ok(())
    }

    /// A Tick is a miss of all that is wanted; every other command passes at once.
    fn command(&mut self, command: Command) -> Result<(), Fault>
        requires kept { IsKept self.old.settled.queues self.old.settled.wanted }
        ensures { OnOk result (self.new ≡ taken_in self.old (Inbound.Local command)) }
    {
        match command {
            Command::Tick => self.tick(),
            Command::Propose(slot, value) => self.pass(Command::Propose(slot, value)),
            Command::Round(slot) => self.pass(Command::Round(slot)),
            Command::Timer(slot) => self.pass(Command::Timer(slot)),
            Command::Ask(link, slot) => self.pass(Command::Ask(link, slot)),
        }
    }

    fn pass(&mut self, command: Command) -> Result<(), Fault>
        ensures { OnOk result (self.new ≡ record self.old { leaving = self.old.leaving ++ Ready.Local command ∷ [] }) }
    {
        self.leaving.push_back(Ready::Local(command))?;
        Ok(())
    }

    fn tick(&mut self) -> Result<(), Fault>
        requires kept { IsKept self.old.settled.queues self.old.settled.wanted }
        ensures { OnOk result (self.new ≡ taken_in self.old (Inbound.Local Command.Tick)) }
    {
        give_up_in_order(
            self.alloc,
            &mut self.queues,
            &self.fetcher,
            &mut self.leaving,
        )?;
        self.fetcher.miss_all();
        Ok(())
    }
}

/// The answer with this set.
fn set_answer(set: &SaneSet) -> Result<Message, Fault>
    ensures same { IfOk result (λ message. message ≡ Message.Set set.now) }
    ensures fits { IfOk result IsFitting }
{
    what_fits_a_link();
    Ok(Message::Set(set.set().copy()?))
}

/// A message that came, as it would be parked: an envelope waits for its quorum set, or has it; nothing else waits.
fn entering(store: &SetStore, carried: Carried) -> Result<Parked, Fault>
    ensures { IfOk result (λ parked. parked ≡ entering_with store.now carried) }
{
    let Some(hash) = named(carried.message.get()) else {
        return Ok(Parked::Free(Delivery::alone(carried)));
    };
    match store.get(&hash) {
        Some(set) => Ok(Parked::Free(Delivery::with_set(carried, Arc::try_clone(set)?))),
        None => Ok(Parked::Waits(carried)),
    }
}

/// Whether it is an envelope whose quorum set isn't stored.
fn will_wait(store: &SetStore, carried: &Carried) -> bool
    ensures { result ≡ waits (entering_with store.now carried.now) }
{
    match named(carried.message.get()) {
        Some(hash) => store.get(&hash).is_none(),
        None => false,
    }
}

fn place_of_peer(peers: &[NodeId], node: &NodeId) -> Option<usize>
    ensures found { result ≡ position (λ peer. same_node peer node.now) peers.now }
    ensures within { IfSome result (λ place. place < length peers.now) }
{
    peers.iter().position(|peer| *peer == *node)
}

fn next(leaving: &mut VecDeque<Ready>) -> Option<Ready>
    ensures items { leaving.old.items ≡ option_to_list result ++ leaving.new.items }
    ensures none { IfNone result (leaving.old.items ≡ []) }
{
    leaving.pop_front()
}

/// How many messages of the connection are ready.
fn ready_of(leaving: &VecDeque<Ready>, conn: &ConnId) -> usize
    ensures count { result ≡ count_by (is_message_of conn.now) leaving.now.items }
    ensures small { result < 2 ^ 63 }
{
    leaving
        .iter()
        .filter(|ready| ready.is_message_of(conn))
        .count()
}
