//! A node: one event is one step of one stage.
ghost use Rattle.std.specs.Prelude.{◌≡◌, ◌≢◌, ◌∷◌, [], ◌++◌, ◌+◌, ◌-◌, ◌<◌, ◌≤◌, ◌⊎◌, ◌↔◌, ℕ, List, length, drop, is_some, IsSome, false, true, IfOk, OnOk, OnErr, IfErr, IsOkUnless, Ok, Err, IsTrue, slice_get, option_copied, MatchOption};
ghost use Rattle.scp_theorem.specs.scp_types.specs.declared.limits.TheConstants.{WINDOW};
ghost use Rattle.scp_theorem.specs.scp_xdr.specs.Words.{IsReadingFault};
ghost use Rattle.scp_theorem.specs.scp_driver.specs.Driver.{IsBase};
ghost use Rattle.scp_theorem.specs.scp_ledger.specs.declared.journal.Fate.{Fate};
ghost use Rattle.scp_theorem.specs.scp_pending.specs.Line.{count_held};
ghost use Rattle.scp_theorem.specs.scp_ledger.specs.Timers.{AreTimers};
ghost use Rattle.scp_theorem.specs.scp_apply.specs.Applied.{value_of};
ghost use Rattle.scp_core.specs.Config.{IsConfig, IsConfigOfMany, IsConfigWithin, IsFitWithin, are_apart};
ghost use Rattle.scp_core.specs.History.{peer_at, Exchange};
ghost use Rattle.scp_core.specs.Node.{Step, Keeps, LeavesRoom, fault_after, HasLink, lives_at, room_at, queued_at, accepts_at, item_at, has_read_at};
ghost use Rattle.scp_theorem.specs.scp_outbox.specs.Handing.{waiting_at, overwritten_at};
ghost use Rattle.scp_core.specs.Theorem.{LedgerTheorem, LedgerTheoremFrom};
ghost use Rattle.scp_core.specs.Headline.{HoldsHeadline, HoldsHeadlineFrom, state_shown};
ghost use Rattle.scp_core.specs.inside.Starting.{IsNew};

use crate::config::{Config, Peers, are_peers_apart, has_peer};
use crate::decider::Decider;
use crate::event::{Event, Reply};
use crate::handing::{draw, hand_out};
use crate::laws::{
    each_node_holds_its_headline, each_node_holds_its_ledger,
    what_holds_of_a_past_holds_with_one_step_more,
};
use crate::link::{self, Link};
use crate::queue;
use crate::start::{Start, at_slot_1};
use circular_buffer::HeapCircularBuffer;
use scp_theorem::below::driver::{Application, KvDriver};
use scp_theorem::below::envelope::SharedEnvelope;
use scp_theorem::below::ledger::{
    CommandFate, Fate, Ledger, Onward, SharedDecision, timers,
    what_holds_of_a_ledger_holds_with_one_thing_more,
};
use scp_theorem::below::outbox::Outboxes;
use scp_theorem::below::pending::{Pending, Ready};
use scp_theorem::below::quorum::{QuorumSet, SaneSet};
use scp_theorem::below::slot::Timer;
use scp_theorem::below::types::{
    Capacities, ConnId, Fault, LINK_LIMIT, NodeId, PEER_LIMIT, Slot, Value,
};
use scp_theorem::below::wire::{Bytes, Command, Inbound, LinkItem};
use std::alloc::Global;
use std::marker::Model;
use std::sync::Arc;

/// A node whose links come from its peers, in order. Its values are those of the application; operation lists, if no application is named.
#[derive(Drop)]
pub struct Node<A: Application + Drop + Copy = KvDriver> {
    alloc: Global,
    me: NodeId,
    set: Arc<SaneSet>,
    peers: Peers,
    capacities: Capacities,
    links: Vec<Link>,
    inbox: HeapCircularBuffer<Inbound>,
    pending: Pending,
    pend_hand: Option<Ready>,
    ready: HeapCircularBuffer<Ready>,
    decider: Decider<A>,
    outboxes: Outboxes,
}

impl<A: Application + Drop + Copy> Model for Node<A> {
    ghost use Rattle.std.specs.Coded.{codes};
    ghost use Rattle.scp_theorem.specs.scp_xdr.specs.inside.TreeModel.{coded_row};
    ghost use Rattle.scp_theorem.specs.scp_quorum.specs.inside.QuorumTree.{coded_level};
    ghost use Rattle.scp_theorem.specs.scp_ledger.specs.inside.Coding.{machine_code};
    ghost use Rattle.scp_core.specs.Node.{NodeView};

    ghost Value = { NodeView A };

    ghost coded = { Prim.hlevel (codes, A.code, machine_code A.code, coded_row coded_level) };

    ghost view = { λ a. record {
      config = record { me = a.me; set = a.set.value; peers = a.peers; capacities = a.capacities };
      failed = a.decider.failed;
      fault = a.decider.fault;
      links = a.links.items;
      inbox = a.inbox.items;
      inbox_room = a.inbox.capacity;
      pending = a.pending;
      pend_hand = a.pend_hand;
      ready = a.ready.items;
      ready_room = a.ready.capacity;
      ledger = a.decider.ledger;
      slot_hand = a.decider.hand;
      last_command = a.decider.last_command;
      last_said = a.decider.last_said;
      decided = a.decider.queue;
      decided_room = a.decider.room;
      applier = a.decider.applier;
      outboxes = a.outboxes;
    } };
}

impl<A: Application + Drop + Copy> Node<A> {
    /// A node that has heard nothing, with a link for each of its peers. It takes all the room that its queues will need.
    /// Refused by `BadConfig` if the quorum set isn't sane, or a capacity isn't 1 to 1,024. Also if there are more than seven peers, a peer
    /// twice, or the node among its peers. Else refused by `NoMemory`.
    pub fn new(alloc: Global, config: Config, application: A) -> Result<Node<A>, Fault>
        // What holds of a list of events holds of the empty list.
        ensures theorem { IfOk result (λ node. LedgerTheorem A.says [] node) }
        // So does the headline, with the state.
        ensures headline { IfOk result (λ node. HoldsHeadline (Step A.says) A.first A.after [] node) }
        ensures config { IfOk result (λ node. node.config ≡ config) }
        ensures application { IfOk result (λ node. node.ledger.driver ≡ application) }
        ensures refused { result ≡ Err Fault.BadConfig ↔ ¬ (IsConfig config) }
        ensures only { IfErr result (λ f. (f ≡ Fault.BadConfig) ⊎ (f ≡ Fault.NoMemory)) }
    {
        each_node_holds_its_ledger::<A>();
        each_node_holds_its_headline::<A>();
        Node::made(alloc, config, application, PEER_LIMIT, at_slot_1(alloc))
    }

    /// A node as `new` makes it, but of up to a hundred peers instead of seven.
    pub fn of_many(alloc: Global, config: Config, application: A) -> Result<Node<A>, Fault>
        ensures theorem { IfOk result (λ node. LedgerTheorem A.says [] node) }
        ensures headline { IfOk result (λ node. HoldsHeadline (Step A.says) A.first A.after [] node) }
        ensures config { IfOk result (λ node. node.config ≡ config) }
        ensures application { IfOk result (λ node. node.ledger.driver ≡ application) }
        ensures refused { result ≡ Err Fault.BadConfig ↔ ¬ (IsConfigOfMany config) }
        ensures only { IfErr result (λ f. (f ≡ Fault.BadConfig) ⊎ (f ≡ Fault.NoMemory)) }
    {
        each_node_holds_its_ledger::<A>();
        each_node_holds_its_headline::<A>();
        let most = LINK_LIMIT as usize;
        Node::made(alloc, config, application, most, at_slot_1(alloc))
    }

    /// A node as `of_many` makes it, which begins with the slot after `before`, and with the state that these bytes say
    /// (`Application::write`). It keeps the bytes. With 0 and no bytes it is the one that `of_many` makes. Refused by `BadConfig` as there,
    /// then by `Malformed` or `TooLong` if the bytes say no state, else by `NoMemory`.
    pub fn begin(
        alloc: Global,
        config: Config,
        application: A,
        before: u32,
        base: Vec<u8>,
    ) -> Result<Node<A>, Fault>
        ensures theorem { IfOk result (λ node. LedgerTheoremFrom A.says (before + 1) base.items [] node) }
        ensures headline { IfOk result (λ node. HoldsHeadlineFrom (Step A.says) A.begins A.after (before + 1) base.items [] node) }
        ensures config { IfOk result (λ node. node.config ≡ config) }
        ensures application { IfOk result (λ node. node.ledger.driver ≡ application) }
        ensures base { IfOk result (λ _. IsBase A.begins A.written base.items) }
        ensures refused { result ≡ Err Fault.BadConfig ↔ ¬ (IsConfigOfMany config) }
        ensures no_state { IfErr result (λ f. IsReadingFault f → ¬ (IsBase A.begins A.written base.items)) }
        ensures only { IfErr result (λ f. (f ≡ Fault.BadConfig) ⊎ ((f ≡ Fault.NoMemory) ⊎ IsReadingFault f)) }
    {
        each_node_holds_its_ledger::<A>();
        each_node_holds_its_headline::<A>();
        let start = Start { before, base };
        Node::made(alloc, config, application, LINK_LIMIT as usize, start)
    }

    /// A node of at most this many peers, which begins so.
    fn made(
        alloc: Global,
        config: Config,
        application: A,
        most: usize,
        start: Start,
    ) -> Result<Node<A>, Fault>
        requires { most ≤ LINK_LIMIT }
        ensures theorem { IfOk result (λ node. LedgerTheoremFrom A.says (start.before + 1) start.base.items [] node) }
        ensures config { IfOk result (λ node. node.config ≡ config) }
        ensures application { IfOk result (λ node. node.ledger.driver ≡ application) }
        ensures base { IfOk result (λ _. IsBase A.begins A.written start.base.items) }
        ensures refused { result ≡ Err Fault.BadConfig ↔ ¬ (IsConfigWithin most config) }
        ensures no_state { IfErr result (λ f. IsReadingFault f → ¬ (IsBase A.begins A.written start.base.items)) }
        ensures only { IfErr result (λ f. (f ≡ Fault.BadConfig) ⊎ ((f ≡ Fault.NoMemory) ⊎ IsReadingFault f)) }
    {
        what_holds_of_a_ledger_holds_with_one_thing_more::<A>();
        let Config {
            me,
            set,
            peers,
            capacities,
        } = config;
        if !is_fit(&me, peers.as_slice(), capacities, most) {
            return Err(Fault::BadConfig);
        }
        let set = match set.into_sane() {
            Ok(set) => set,
            Err((Fault::Insane, _)) => return Err(Fault::BadConfig),
            Err(_) => return Err(Fault::NoMemory),
        };
        Node::with_set(alloc, me, set, application, peers, capacities, start)
    }

    /// A node with a configuration that is fit.
    fn with_set(
        alloc: Global,
        me: NodeId,
        set: SaneSet,
        application: A,
        peers: Peers,
        capacities: Capacities,
        start: Start,
    ) -> Result<Node<A>, Fault>
        requires few { length peers ≤ LINK_LIMIT }
        requires apart { are_apart peers ≡ true }
        ensures new { IfOk result (λ node. IsNew A.says (start.before + 1) start.base.items node) }
        ensures application { IfOk result (λ node. node.ledger.driver ≡ application) }
        ensures config { IfOk result (λ node. node.config ≡ record { me = me; set = set; peers = peers; capacities = capacities }) }
        ensures base { IfOk result (λ _. IsBase A.begins A.written start.base.items) }
        ensures refused { IfErr result (λ f. f ≢ Fault.NoMemory → ¬ (IsBase A.begins A.written start.base.items)) }
        ensures faults { IfErr result (λ f. f ≢ Fault.NoMemory → IsReadingFault f) }
        ensures not_bad { result ≢ Err Fault.BadConfig }
    {
        let count = peers.as_slice().len();
        let links = link::new_links(alloc, count, capacities.link as usize)?;
        let inbox = HeapCircularBuffer::with_capacity(alloc, capacities.inbox as usize)?;
        let ready = HeapCircularBuffer::with_capacity(alloc, capacities.ready as usize)?;
        let ledger_peers = Vec::from_slice(alloc, peers.as_slice())?;
        let set = Arc::new(alloc, set)?;
        let decider = Decider::new(
            alloc,
            me,
            Arc::try_clone(&set)?,
            application,
            ledger_peers,
            capacities.decided as usize,
            start,
        )?;
        let pending_peers = Vec::from_slice(alloc, peers.as_slice())?;
        let outboxes = Outboxes::new(alloc, count)?;
        let pending = Pending::new(alloc, me, pending_peers, Arc::try_clone(&set)?);
        Ok(Node {
            alloc,
            me,
            set,
            peers,
            capacities,
            links,
            inbox,
            pending,
            pend_hand: None,
            ready,
            decider,
            outboxes,
        })
    }

    /// Who the node is.
    pub fn me(&self) -> NodeId
        ensures { result ≡ self.now.config.me }
    {
        self.me
    }

    /// The nodes at the other ends of its links, in order.
    pub fn peers(&self) -> &[NodeId]
        ensures { result.now ≡ self.now.config.peers }
    {
        self.peers.as_slice()
    }

    /// The slot with which the node began.
    pub fn first(&self) -> Slot
        ensures { result.0 ≡ self.now.applier.first }
    {
        Slot(u64::from(self.decider.before()) + 1)
    }

    /// The bytes of the state with which the node began; none for the application's first state.
    pub fn base(&self) -> &[u8]
        ensures { result.now ≡ self.now.applier.base }
    {
        self.decider.base()
    }

    /// Every fate so far, in the order in which they were entered; of a failed node, those from before the step that failed it.
    pub fn journal(&self) -> &[Fate]
        ensures { result.now ≡ self.now.ledger.journal }
    {
        self.decider.journal()
    }

    /// Every decision so far, in the order in which they were made; of a failed node as for `journal`.
    pub fn decisions(&self) -> &[SharedDecision]
        ensures { result.now ≡ self.now.ledger.decisions }
    {
        self.decider.decisions()
    }

    /// The decisions that were applied, those of the first slot and of the slots after it, in order; of a failed node as for `journal`.
    pub fn applied(&self) -> &[SharedDecision]
        ensures { result.now ≡ self.now.applier.applied }
    {
        self.decider.applied()
    }

    /// The applied decisions of the slots after this one, in order: those that a host which knows the slots up to this one hasn't seen.
    pub fn applied_since(&self, slot: Slot) -> &[SharedDecision]
        ensures { result.now ≡ drop (slot.0 + 1 - self.now.applier.first) self.now.applier.applied }
    {
        let known = slot.0.saturating_sub(u64::from(self.decider.before()));
        behind(self.applied(), known)
    }

    /// The state that the applied values make, one after another, from the state on with which the node began; `None` once it has failed.
    pub fn state(&self) -> Option<&A::State>
        ensures { option_copied result ≡ state_shown (A.begins self.now.applier.base) A.after self.now }
    {
        self.decider.state()
    }

    /// The node's own quorum set.
    pub fn set(&self) -> &QuorumSet
        ensures { result.now ≡ self.now.config.set }
    {
        self.set.set()
    }

    /// What was taken, decided and asked, and the machines of slots. It says nothing of a failed node.
    pub fn ledger(&self) -> &Ledger<A>
        ensures { self.now.failed ≡ false → result.now ≡ self.now.ledger }
    {
        self.decider.ledger()
    }

    /// The timers that should run now: for each of the 16 open slots that of its nomination, and that of its ballot. The host chooses how
    /// long each runs. When one runs out, the host tells the node by `Round` or `Timer` of its slot. It says nothing of a failed node.
    pub fn timers(&self, alloc: Global) -> Result<Vec<Timer>, Fault>
        ensures exact { self.now.failed ≡ false → IfOk result (λ found. AreTimers self.now.ledger.machines self.now.ledger.lowest WINDOW found.items) }
        ensures only_memory { IsOkUnless result Fault.NoMemory }
    {
        timers(alloc, self.decider.ledger())
    }

    /// What is parked, wanted and open.
    pub fn pending(&self) -> &Pending
        ensures { result.now ≡ self.now.pending }
    {
        &self.pending
    }

    /// How many messages wait to go out to the peer of this link; 0 for a link that isn't there.
    pub fn waiting(&self, link: u8) -> usize
        ensures { result ≡ waiting_at self.now.outboxes link }
    {
        self.outboxes.waiting(link)
    }

    /// How many own statements for the peer of this link were lost before they were sent. A newer one of their slot and kind replaced them,
    /// or they were dropped because 64 others waited. 0 for a link that isn't there.
    pub fn overwritten(&self, link: u8) -> u64
        ensures { result ≡ overwritten_at self.now.outboxes link }
    {
        self.outboxes.overwritten(link)
    }

    /// What became of the command that the slot stage took last, at the last SlotTake that moved; `None` if that took something else, or if
    /// there was none yet. For a failed node, what it was before the step that failed it.
    pub fn last_command(&self) -> Option<CommandFate>
        ensures { result ≡ self.now.last_command }
    {
        self.decider.last_command()
    }

    /// The own statements for all peers that the slot stage handed out at the last SlotTake that moved, in order. Each is shared with its
    /// other holders. None before the first such step. For a failed node, what they were before the step that failed it.
    pub fn last_said(&self) -> &[SharedEnvelope]
        ensures { result.now ≡ self.now.last_said }
    {
        self.decider.last_said()
    }

    /// What the reader of the link takes next: the front of the link's queue.
    pub fn next_item(&self, link: u8) -> Option<&LinkItem>
        ensures { option_copied result ≡ item_at self.now link }
    {
        match self.links.get(link as usize) {
            Some(link) => link.next_item(),
            None => None,
        }
    }

    /// Whether the link's reader holds something that it read and that isn't in the inbox yet. Right after a ReaderTake that moved, it holds
    /// nothing exactly if what it took was discarded because its connection had ended.
    pub fn has_read(&self, link: u8) -> bool
        ensures { result ≡ has_read_at self.now link }
    {
        match self.links.get(link as usize) {
            Some(link) => link.has_read(),
            None => false,
        }
    }

    /// What the pending stage takes next from the inbox.
    pub fn next_inbound(&self) -> Option<&Inbound>
        ensures { option_copied result ≡ slice_get self.now.inbox 0 }
    {
        self.inbox.front()
    }

    /// What the slot stage takes next.
    pub fn next_ready(&self) -> Option<&Ready>
        ensures { option_copied result ≡ slice_get self.now.ready 0 }
    {
        self.ready.front()
    }

    /// What the applier takes next.
    pub fn next_onward(&self) -> Option<&Onward>
        ensures { option_copied result ≡ slice_get self.now.decided 0 }
    {
        self.decider.next()
    }

    /// The value of a slot, if it is applied. Constant time.
    pub fn value_at(&self, slot: Slot) -> Option<&Value>
        ensures { option_copied result ≡ value_of slot.0 self.now.applier.applied }
    {
        self.decider.value_at(slot)
    }

    /// How many items wait in the link's queue; 0 for a link that isn't there.
    pub fn queued_on(&self, link: u8) -> usize
        ensures { result ≡ queued_at self.now link }
    {
        match self.links.get(link as usize) {
            Some(link) => link.queued(),
            None => 0,
        }
    }

    /// How many things wait in the inbox, in the ready queue and in the decided queue.
    pub fn queued(&self) -> (usize, usize, usize)
        ensures { result ≡ (length self.now.inbox, length self.now.ready, length self.now.decided) }
    {
        (self.inbox.len(), self.ready.len(), self.decider.queued())
    }

    /// How often the link was opened; 0 for a link that isn't there.
    pub fn lives(&self, link: u8) -> u32
        ensures { result ≡ lives_at self.now link }
    {
        match self.links.get(link as usize) {
            Some(link) => link.life(),
            None => 0,
        }
    }

    /// How many items the link's queue can still take: its capacity minus its length; 0 for a link that isn't there. For a failed node, what
    /// it was before the step that failed it, and one more if that step's reader took an item.
    pub fn room(&self, link: u8) -> usize
        ensures { result ≡ room_at self.now link }
    {
        match self.links.get(link as usize) {
            Some(link) => link.room(),
            None => 0,
        }
    }

    /// Whether what the peer sends on the link would be accepted now: the link is open, its queue has room, and the node hasn't failed.
    pub fn accepts(&self, link: u8) -> bool
        ensures { result ≡ accepts_at self.now link }
    {
        if self.decider.has_failed() {
            return false;
        }
        match self.links.get(link as usize) {
            Some(link) => link.accepts(),
            None => false,
        }
    }

    /// Whether a step failed, because it ran out of memory or the journal was full.
    pub fn has_failed(&self) -> bool
        ensures { result ≡ self.now.failed }
    {
        self.decider.has_failed()
    }

    /// Why it failed, if it did: `JournalFull` if a step found its journal full, otherwise `NoMemory`.
    pub fn why_failed(&self) -> Option<Fault>
        ensures same { result ≡ self.now.fault }
        ensures failed { is_some result ≡ self.now.failed }
    {
        self.decider.why_failed()
    }

    /// How many messages of the connection the pending stage holds: those that are ready, and those that are parked.
    pub fn parked(&self, conn: &ConnId) -> usize
        ensures { result ≡ count_held conn.now self.now.pending }
    {
        self.pending.parked(conn)
    }

    /// Plays one event. What holds of a list of events, their replies and the node holds of the list with one more.
    ///
    /// A reader's take costs the message's length. The pending stage's take costs what `Pending::take` costs; the slot stage's, what
    /// `Ledger::take` costs; the applier's, what `Applier::take` costs. A drain costs what `scp_wire::encode` costs. An own statement is
    /// copied for each link. All else is constant. Only these takes and a drain can run out of memory.
    pub fn step(&mut self, event: Event) -> Reply
        // What the event does to this node, by the table of replies.
        ensures step { Step A.says self.old event result self.new }
        // What holds of every list of events, of their replies and of the node.
        ensures theorem { (past : List Exchange) → LedgerTheorem A.says past self.old → LedgerTheorem A.says (past ++ (event, result) ∷ []) self.new }
        // Whatever the node began with.
        ensures theorem_from { (first : ℕ) (base : List ℕ) (past : List Exchange) → LedgerTheoremFrom A.says first base past self.old → LedgerTheoremFrom A.says first base (past ++ (event, result) ∷ []) self.new }
        // So does the headline, with the state.
        ensures headline { (past : List Exchange) → LedgerTheorem A.says past self.old → HoldsHeadline (Step A.says) A.first A.after (past ++ (event, result) ∷ []) self.new }
        ensures headline_from { (first : ℕ) (base : List ℕ) (past : List Exchange) → LedgerTheoremFrom A.says first base past self.old → HoldsHeadlineFrom (Step A.says) A.begins A.after first base (past ++ (event, result) ∷ []) self.new }
        // A refusal leaves the node as it was.
        ensures same { result ≢ Reply.Accepted → result ≢ Reply.Moved → result ≢ Reply.JournalFull → result ≢ Reply.NoMemory → ((bytes : List ℕ) → result ≢ Reply.Sent bytes) → self.new ≡ self.old }
        // A node that fails keeps its journal, its decisions, the links it asked, what is applied, and how often each link was opened.
        ensures kept { (result ≡ Reply.NoMemory) ⊎ (result ≡ Reply.JournalFull) → Keeps self.old self.new }
        ensures fails { (result ≡ Reply.NoMemory) ⊎ (result ≡ Reply.JournalFull) → self.new.failed ≡ true }
        // Why it failed is kept.
        ensures why { self.new.fault ≡ fault_after result self.old.fault }
        // Each link's room is then what it was, plus one if its reader took an item.
        ensures room { (result ≡ Reply.NoMemory) ⊎ (result ≡ Reply.JournalFull) → LeavesRoom self.old event self.new }
        // A failed node answers `Failed`, and no other node does.
        ensures failed { result ≡ Reply.Failed ↔ (self.old.failed ≡ true) }
        // The journal grows only at its end.
        ensures grows { (more : List Fate) × (self.new.ledger.journal ≡ self.old.ledger.journal ++ more) }
        ensures config { self.new.config ≡ self.old.config }
    {
        what_holds_of_a_past_holds_with_one_step_more::<A>();
        each_node_holds_its_ledger::<A>();
        each_node_holds_its_headline::<A>();
        self.perform(event)
    }

    fn perform(&mut self, event: Event) -> Reply
        ensures { Step A.says self.old event result self.new }
    {
        if self.decider.has_failed() {
            return Reply::Failed;
        }
        match event {
            Event::Open(link) => self.open(link),
            Event::Send(link, bytes) => self.send(link, bytes),
            Event::Close(link) => self.close(link),
            Event::Local(command) => self.local(command),
            Event::ReaderTake(link) => self.reader_take(link),
            Event::ReaderPut(link) => self.reader_put(link),
            Event::PendTake => self.pend_take(),
            Event::PendPut => self.pend_put(),
            Event::SlotTake => self.slot_take(),
            Event::SlotPut => self.slot_put(),
            Event::ApplyTake => self.apply_take(),
            Event::Drain(link) => self.drain(link),
        }
    }

    /// The node that the link comes from.
    fn peer(&self, link: u8) -> NodeId
        ensures { result ≡ peer_at self.now.config link }
    {
        match self.peers.as_slice().get(link as usize) {
            Some(peer) => *peer,
            None => self.me,
        }
    }

    fn open(&mut self, link: u8) -> Reply
        requires { self.old.failed ≡ false }
        ensures { Step A.says self.old (Event.Open link) result self.new }
    {
        let from = self.peer(link);
        link::open(&mut self.links, link, from, self.me)
    }

    fn send(&mut self, link: u8, bytes: Bytes) -> Reply
        requires { self.old.failed ≡ false }
        ensures { Step A.says self.old (Event.Send link bytes) result self.new }
    {
        let from = self.peer(link);
        link::send(&mut self.links, link, from, self.me, bytes)
    }

    fn close(&mut self, link: u8) -> Reply
        requires { self.old.failed ≡ false }
        ensures { Step A.says self.old (Event.Close link) result self.new }
    {
        let from = self.peer(link);
        link::close(&mut self.links, link, from, self.me)
    }

    /// Whether the link that a command names is there.
    fn has_link(&self, command: &Command) -> bool
        ensures there { result ≡ true → HasLink self.now command.now }
        ensures none { result ≡ false → ¬ (HasLink self.now command.now) }
    {
        match command {
            Command::Ask(link, _) => (*link as usize) < self.links.len(),
            Command::Tick | Command::Propose(..) | Command::Round(_) | Command::Timer(_) => true,
        }
    }

    fn local(&mut self, command: Command) -> Reply
        requires { self.old.failed ≡ false }
        ensures { Step A.says self.old (Event.Local command) result self.new }
    {
        if !self.has_link(&command) {
            return Reply::NoLink;
        }
        if queue::is_full(&self.inbox) {
            return Reply::Full;
        }
        queue::put(&mut self.inbox, Inbound::Local(command));
        Reply::Accepted
    }

    fn reader_take(&mut self, link: u8) -> Reply
        requires { self.old.failed ≡ false }
        ensures { Step A.says self.old (Event.ReaderTake link) result self.new }
    {
        let reply = link::read(self.alloc, &mut self.links, link);
        if is_no_memory(&reply) {
            self.decider.fail();
        }
        reply
    }

    fn reader_put(&mut self, link: u8) -> Reply
        requires { self.old.failed ≡ false }
        ensures { Step A.says self.old (Event.ReaderPut link) result self.new }
    {
        match link::give(&mut self.links, link, queue::is_full(&self.inbox)) {
            Ok(item) => {
                queue::put(&mut self.inbox, item);
                Reply::Moved
            }
            Err(stop) => stop.reply(),
        }
    }

    fn pend_take(&mut self) -> Reply
        requires { self.old.failed ≡ false }
        ensures { Step A.says self.old Event.PendTake result self.new }
    {
        if self.pend_hand.is_some() {
            return Reply::Blocked;
        }
        if let Some(ready) = self.pending.next_ready() {
            self.pend_hand = Some(ready);
            return Reply::Moved;
        }
        let Some(item) = queue::next(&mut self.inbox) else {
            return Reply::Idle;
        };
        match self.pending.take(item) {
            Ok(answer) => {
                hand_out(&mut self.outboxes, answer);
                self.pend_hand = self.pending.next_ready();
                Reply::Moved
            }
            Err(_) => {
                self.decider.fail();
                Reply::NoMemory
            }
        }
    }

    fn pend_put(&mut self) -> Reply
        requires { self.old.failed ≡ false }
        ensures { Step A.says self.old Event.PendPut result self.new }
    {
        if self.pend_hand.is_none() {
            return Reply::Idle;
        }
        if queue::is_full(&self.ready) {
            return Reply::Blocked;
        }
        if let Some(ready) = self.pend_hand.take() {
            queue::put(&mut self.ready, ready);
        }
        Reply::Moved
    }

    fn slot_take(&mut self) -> Reply
        requires { self.old.failed ≡ false }
        ensures { Step A.says self.old Event.SlotTake result self.new }
    {
        if self.decider.has_hand() {
            return Reply::Blocked;
        }
        let Some(ready) = queue::next(&mut self.ready) else {
            return Reply::Idle;
        };
        self.decider.take(ready, &mut self.outboxes)
    }

    fn slot_put(&mut self) -> Reply
        requires { self.old.failed ≡ false }
        ensures { Step A.says self.old Event.SlotPut result self.new }
    {
        self.decider.put()
    }

    fn apply_take(&mut self) -> Reply
        requires { self.old.failed ≡ false }
        ensures { Step A.says self.old Event.ApplyTake result self.new }
    {
        match self.decider.apply() {
            Ok(answer) => {
                hand_out(&mut self.outboxes, answer);
                Reply::Moved
            }
            Err(stop) => stop.reply(),
        }
    }

    fn drain(&mut self, link: u8) -> Reply
        requires { self.old.failed ≡ false }
        ensures { Step A.says self.old (Event.Drain link) result self.new }
    {
        let sent = draw(self.alloc, &mut self.outboxes, link);
        if is_no_memory(&sent) {
            self.decider.fail();
        }
        sent
    }
}

/// Whether peers and capacities are as a configuration of at most this many peers needs them.
fn is_fit(me: &NodeId, peers: &[NodeId], capacities: Capacities, most: usize) -> bool
    requires { most ≤ LINK_LIMIT }
    ensures fit { IsTrue result ↔ IsFitWithin most me.now peers.now capacities }
    ensures few { IsTrue result → length peers.now ≤ LINK_LIMIT }
    ensures apart { IsTrue result → are_apart peers.now ≡ true }
{
    peers.len() <= most
        && are_peers_apart(peers)
        && !has_peer(peers, me)
        && capacities.are_in_range()
}

fn is_no_memory(reply: &Reply) -> bool
    ensures { IsTrue result ↔ (reply.now ≡ Reply.NoMemory) }
{
    matches!(reply, Reply::NoMemory)
}

/// The decisions after this many.
fn behind(decisions: &[SharedDecision], known: u64) -> &[SharedDecision]
    ensures { result.now ≡ drop known decisions.now }
{
    let known = usize::try_from(known).unwrap_or(usize::MAX);
    match decisions.get(known..) {
        Some(more) => more,
        None => &[],
    }
}
