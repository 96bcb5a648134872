//! The slot stage, the queue after it, and the applier.
ghost use Rattle.std.specs.Prelude.{◌≡◌, ◌≢◌, ◌+◌, ◌≤◌, ◌∷◌, [], ◌<◌, false, true, length, None, Some, is_some, IfOk, IfErr, IfSome, IsOkUnless, option_copied, slice_get, if◌then◌else◌};
ghost use Rattle.scp_theorem.specs.scp_xdr.specs.Words.{IsReadingFault};
ghost use Rattle.scp_theorem.specs.scp_driver.specs.Driver.{IsBase};
ghost use Rattle.scp_theorem.specs.scp_wire.specs.Fitting.{IsFitting};
ghost use Rattle.scp_theorem.specs.scp_apply.specs.Applied.{made_of, value_of};
ghost use Rattle.scp_core.specs.inside.Decider.{new_decider, Decides, Applies, PutsOn, fail as failed_now};
ghost use Rattle.scp_core.specs.inside.Stops.{told};

use crate::event::Reply;
use crate::queue;
use crate::said::SaidList;
use crate::stage::SlotStage;
use crate::start::Start;
use crate::stop::Stop;
use circular_buffer::HeapCircularBuffer;
use scp_theorem::below::apply::{Applier, the_next_decision_can_be_taken};
use scp_theorem::below::driver::Application;
use scp_theorem::below::envelope::SharedEnvelope;
use scp_theorem::below::ledger::{
    CommandFate, Fate, Ledger, Onward, SharedDecision,
    what_holds_of_a_ledger_holds_with_one_thing_more,
};
use scp_theorem::below::outbox::Outboxes;
use scp_theorem::below::pending::Ready;
use scp_theorem::below::quorum::SaneSet;
use scp_theorem::below::types::{Fault, NodeId, Slot, Value};
use scp_theorem::below::wire::Message;
use std::alloc::Global;
use std::marker::Model;
use std::sync::Arc;

/// What decides and applies. Until it fails, what the ledger decided was taken by the applier, waits in the queue, or is in the slot stage's
/// hand. So the applier can take what is next.
#[derive(Drop)]
pub struct Decider<A: Application + Drop + Copy> {
    /// Why it failed, if it did.
    failed: Option<Fault>,
    stage: SlotStage<A>,
    hand: Option<Onward>,
    last_command: Option<CommandFate>,
    last_said: SaidList,
    queue: HeapCircularBuffer<Onward>,
    applier: Applier<A>,
}

impl<A: Application + Drop + Copy> Model for Decider<A> {
    ghost use Rattle.std.specs.Prelude.{is_some};
    ghost use Rattle.std.specs.Coded.{codes};
    ghost use Rattle.scp_theorem.specs.scp_xdr.specs.inside.TreeModel.{coded_row};
    ghost use Rattle.scp_theorem.specs.scp_quorum.specs.inside.QuorumTree.{coded_level};
    ghost use Rattle.scp_theorem.specs.scp_ledger.specs.inside.Coding.{machine_code};
    ghost use Rattle.scp_core.specs.inside.Decider.{DeciderView, IsWell};

    ghost Value = { DeciderView A };

    ghost coded = { Prim.hlevel (codes, A.code, machine_code A.code, coded_row coded_level) };

    ghost view = { λ a. record { failed = is_some a.failed; fault = a.failed; ledger = a.stage; hand = a.hand; last_command = a.last_command; last_said = a.last_said; queue = a.queue.items; room = a.queue.capacity; applier = a.applier } };

    ghost invariant = { λ a. IsWell A.says (record { failed = is_some a.failed; fault = a.failed; ledger = a.stage; hand = a.hand; last_command = a.last_command; last_said = a.last_said; queue = a.queue.items; room = a.queue.capacity; applier = a.applier }) };
}

impl<A: Application + Drop + Copy> Decider<A> {
    /// A decider that took nothing. Refused as `Application::begin` is, else by `NoMemory`.
    pub fn new(
        alloc: Global,
        me: NodeId,
        set: Arc<SaneSet>,
        application: A,
        peers: Vec<NodeId>,
        room: usize,
        start: Start,
    ) -> Result<Decider<A>, Fault>
        requires few { length peers.items ≤ 255 }
        ensures new { IfOk result (λ d. d ≡ new_decider me set.value application peers.items room (start.before + 1) start.base.items) }
        ensures base { IfOk result (λ _. IsBase A.begins A.written start.base.items) }
        ensures refused { IfErr result (λ f. f ≢ Fault.NoMemory → ¬ (IsBase A.begins A.written start.base.items)) }
        ensures faults { IfErr result (λ f. f ≢ Fault.NoMemory → IsReadingFault f) }
    {
        let Start { before, base } = start;
        let applier = Applier::begin(alloc, before, base)?;
        let queue = HeapCircularBuffer::with_capacity(alloc, room)?;
        Ok(Decider {
            failed: None,
            stage: SlotStage::new(alloc, me, set, application, peers, before),
            hand: None,
            last_command: None,
            last_said: SaidList::new(Vec::new(alloc)),
            queue,
            applier,
        })
    }

    pub fn has_failed(&self) -> bool
        ensures { result ≡ self.now.failed }
    {
        self.failed.is_some()
    }

    /// Why it failed, if it did.
    pub fn why_failed(&self) -> Option<Fault>
        ensures same { result ≡ self.now.fault }
        ensures failed { is_some result ≡ self.now.failed }
    {
        self.failed
    }

    pub fn has_hand(&self) -> bool
        ensures full { result ≡ true → self.now.hand ≢ None }
        ensures empty { result ≡ false → self.now.hand ≡ None }
    {
        self.hand.is_some()
    }

    pub fn ledger(&self) -> &Ledger<A>
        ensures { self.now.failed ≡ false → result.now ≡ self.now.ledger }
    {
        self.stage.ledger()
    }

    /// What became of the command that the slot stage took last.
    pub fn last_command(&self) -> Option<CommandFate>
        ensures { result ≡ self.now.last_command }
    {
        self.last_command
    }

    /// The own statements for all peers that the slot stage handed out when it took last.
    pub fn last_said(&self) -> &[SharedEnvelope]
        ensures { result.now ≡ self.now.last_said }
    {
        self.last_said.as_slice()
    }

    /// What the applier takes next.
    pub fn next(&self) -> Option<&Onward>
        ensures { option_copied result ≡ slice_get self.now.queue 0 }
    {
        self.queue.front()
    }

    /// The value of a slot, if it is applied.
    pub fn value_at(&self, slot: Slot) -> Option<&Value>
        ensures { option_copied result ≡ value_of slot.0 self.now.applier.applied }
    {
        self.applier.value_at(slot)
    }

    /// How many things wait in the queue for the applier.
    pub fn queued(&self) -> usize
        ensures { result ≡ length self.now.queue }
    {
        self.queue.len()
    }

    /// The last slot before the applier's first one.
    pub fn before(&self) -> u32
        ensures { self.now.applier.first ≡ result + 1 }
    {
        self.applier.before()
    }

    /// The bytes of the state with which the applier began.
    pub fn base(&self) -> &[u8]
        ensures { result.now ≡ self.now.applier.base }
    {
        self.applier.base()
    }

    pub fn journal(&self) -> &[Fate]
        ensures { result.now ≡ self.now.ledger.journal }
    {
        self.stage.journal()
    }

    pub fn decisions(&self) -> &[SharedDecision]
        ensures { result.now ≡ self.now.ledger.decisions }
    {
        self.stage.decisions()
    }

    pub fn applied(&self) -> &[SharedDecision]
        ensures { result.now ≡ self.now.applier.applied }
    {
        self.applier.applied()
    }

    /// The state; `None` once it has failed.
    pub fn state(&self) -> Option<&A::State>
        ensures { option_copied result ≡ (if self.now.failed then None else Some (made_of (A.begins self.now.applier.base) A.after self.now.applier.applied)) }
    {
        if self.failed.is_some() {
            return None;
        }
        self.applier.state()
    }

    /// Marks it as failed from now on, out of memory.
    pub fn fail(&mut self)
        ensures { self.new ≡ failed_now self.old }
    {
        self.failed = Some(Fault::NoMemory);
    }

    /// The slot stage takes a ready thing, and what goes out to peers is put into the outboxes.
    pub fn take(&mut self, ready: Ready, outboxes: &mut Outboxes) -> Reply
        requires runs { self.old.failed ≡ false }
        requires empty { self.old.hand ≡ None }
        ensures { Decides A.says self.old outboxes.old ready result self.new outboxes.new }
    {
        what_holds_of_a_ledger_holds_with_one_thing_more::<A>();
        match self.stage.take(ready, outboxes) {
            Ok(given) => {
                self.hand = given.onward;
                self.last_command = given.command;
                self.last_said = given.said;
                Reply::Moved
            }
            Err(Fault::JournalFull) => {
                self.failed = Some(Fault::JournalFull);
                Reply::JournalFull
            }
            Err(_) => {
                self.failed = Some(Fault::NoMemory);
                Reply::NoMemory
            }
        }
    }

    /// Moves what is in the hand into the queue.
    pub fn put(&mut self) -> Reply
        requires runs { self.old.failed ≡ false }
        ensures { PutsOn self.old result self.new }
    {
        if self.hand.is_none() {
            return Reply::Idle;
        }
        if queue::is_full(&self.queue) {
            return Reply::Blocked;
        }
        if let Some(onward) = self.hand.take() {
            queue::put(&mut self.queue, onward);
        }
        Reply::Moved
    }

    /// The applier takes what is next, and gives its answer for a link, if there is one.
    pub fn apply(&mut self) -> Result<Option<(u8, Message)>, Stop>
        requires runs { self.old.failed ≡ false }
        ensures applies { Applies self.old (told result) self.new }
        ensures fits { IfOk result (λ answer. IfSome answer (λ sent. IsFitting sent.1)) }
    {
        let Some(onward) = queue::next(&mut self.queue) else {
            return Err(Stop::Idle);
        };
        the_next_decision_can_be_taken();
        match self.applier.take(onward) {
            Ok(answer) => Ok(answer),
            Err(_) => {
                self.failed = Some(Fault::NoMemory);
                Err(Stop::NoMemory)
            }
        }
    }
}
