//! Decisions in the order of their slots, applied to a state.
ghost use Rattle.std.specs.Prelude.{◌≡◌, ◌↔◌, IsTrue, ◌++◌, ◌∷◌, [], ◌+◌, ◌<◌, ◌≤◌, length, List, IfOk, IfSome, OnOk, OnErr, IsOkUnless, position, option_copied, option_map, false};
ghost use Rattle.scp_ledger.specs.scp_wire.specs.Fitting.{IsFitting};
ghost use Rattle.scp_ledger.specs.declared.journal.Decision.{Decision};
ghost use Rattle.scp_ledger.specs.Decisions.{is_at, is_decided};
ghost use Rattle.scp_apply.specs.Applied.{AreInOrder, value_of};
ghost use Rattle.scp_apply.specs.Applier.{IsInWindow, CanTake, Takes};
ghost use Rattle.scp_apply.specs.inside.Slots.{slots_view, next_in, IsApplied, IsSound, IsMade, AppliesOne, Advances, Enters};

use scp_ledger::below::driver::Application;
use scp_ledger::below::types::{Fault, Slot, Value, WINDOW};
use scp_ledger::below::wire::Message;
use scp_ledger::{DECIDED_LIMIT, Onward, SharedDecision};
use std::alloc::Global;

/// What is applied, and what is buffered until it is next.
#[derive(Drop)]
pub struct Slots {
    /// The last slot before the first one: 0 where that is slot 1.
    pub before: u32,
    /// The bytes of the state before the first slot; none for the application's first state.
    pub base: Vec<u8>,
    pub applied: Vec<SharedDecision>,
    pub buffer: Vec<SharedDecision>,
}

impl Slots {
    pub fn new(alloc: Global, before: u32, base: Vec<u8>) -> Slots
        ensures before { result.before ≡ before }
        ensures base { result.base.items ≡ base.items }
        ensures applied { result.applied.items ≡ [] }
        ensures buffer { result.buffer.items ≡ [] }
        ensures sound { IsSound result }
    {
        Slots {
            before,
            base,
            applied: Vec::new(alloc),
            buffer: Vec::new(alloc),
        }
    }

    /// The value of a slot, if it is applied. Constant time.
    pub fn value_at(&self, slot: Slot) -> Option<&Value>
        requires in_order { AreInOrder (self.now.before + 1) self.now.applied.items }
        ensures same { option_copied result ≡ value_of slot.0 self.now.applied.items }
        ensures short { IfSome result (λ value. length value.now ≤ DECIDED_LIMIT) }
    {
        let first = self.before as u64 + 1;
        if slot.0 < first {
            return None;
        }
        match self.applied.get((slot.0 - first) as usize) {
            Some(decision) => Some(&decision.get().value),
            None => None,
        }
    }

    /// Whether the decision of a slot can be taken. At most 15 are buffered.
    pub fn is_in_window(&self, slot: Slot) -> bool
        ensures { IsTrue result ↔ IsInWindow (slots_view false self.now) slot.0 }
    {
        let next = self.before as u64 + 1 + self.applied.len() as u64;
        slot.0 >= next && slot.0 - next < WINDOW && !has_slot(self.buffer.as_slice(), slot)
    }

    /// Takes what the slot stage sends on, and gives the answer for one link. A refusal keeps
    /// what was applied before. Nothing else may be used after it.
    pub fn serve<A: Application>(
        &mut self,
        state: &mut A::State,
        onward: Onward,
    ) -> Result<Option<(u8, Message)>, Fault>
        requires sound { IsSound self.old }
        requires next { CanTake (slots_view false self.old) onward }
        ensures takes { IfOk result (λ answer. Takes (slots_view false self.old) onward answer (slots_view false self.new)) }
        ensures fits { IfOk result (λ answer. IfSome answer (λ sent. IsFitting sent.1)) }
        ensures sound { OnOk result (IsSound self.new) }
        ensures before { self.new.before ≡ self.old.before }
        ensures base { self.new.base.items ≡ self.old.base.items }
        ensures made { IsMade (A.begins self.old.base.items) A.after self.old state.old → OnOk result (IsMade (A.begins self.old.base.items) A.after self.new state.new) }
        ensures err { OnErr result (self.new.applied.items ≡ self.old.applied.items) }
        ensures only_memory { IsOkUnless result Fault.NoMemory }
    {
        match onward {
            Onward::Decided(decision) => {
                self.take::<A>(state, decision)?;
                Ok(None)
            }
            Onward::Asked { link, slot } => self.record_of(link, slot),
        }
    }

    /// The record of a slot for that link, if the slot is applied.
    fn record_of(&self, link: u8, slot: Slot) -> Result<Option<(u8, Message)>, Fault>
        requires in_order { AreInOrder (self.now.before + 1) self.now.applied.items }
        ensures answer { IfOk result (λ answer. answer ≡ option_map (λ value. (link, Message.Record slot value)) (value_of slot.0 self.now.applied.items)) }
        ensures fits { IfOk result (λ answer. IfSome answer (λ sent. IsFitting sent.1)) }
        ensures only_memory { IsOkUnless result Fault.NoMemory }
    {
        match self.value_at(slot) {
            Some(value) => Ok(Some((link, Message::Record(slot, value.copy()?)))),
            None => Ok(None),
        }
    }

    /// Takes a decision, and applies what is next as long as it is there. A refusal keeps
    /// what was applied before. Nothing else may be used after it.
    fn take<A: Application>(
        &mut self,
        state: &mut A::State,
        decision: SharedDecision,
    ) -> Result<(), Fault>
        requires sound { IsSound self.old }
        requires in_window { IsInWindow (slots_view false self.old) decision.slot.0 }
        ensures ok { OnOk result (Enters A.after self.old state.old decision self.new state.new) }
        ensures before { self.new.before ≡ self.old.before }
        ensures base { self.new.base.items ≡ self.old.base.items }
        ensures err { OnErr result (self.new.applied.items ≡ self.old.applied.items) }
        ensures only_memory { IsOkUnless result Fault.NoMemory }
    {
        let applied = self.applied.len();
        let taken = self.enter::<A>(state, decision);
        if taken.is_err() {
            self.applied.truncate(applied);
        }
        taken
    }

    /// Buffers the decision, and applies what is next.
    fn enter<A: Application>(
        &mut self,
        state: &mut A::State,
        decision: SharedDecision,
    ) -> Result<(), Fault>
        requires sound { IsSound self.old }
        requires in_window { IsInWindow (slots_view false self.old) decision.slot.0 }
        ensures ok { OnOk result (Enters A.after self.old state.old decision self.new state.new) }
        ensures before { self.new.before ≡ self.old.before }
        ensures base { self.new.base.items ≡ self.old.base.items }
        ensures err { OnErr result ((more : List Decision) × (self.new.applied.items ≡ self.old.applied.items ++ more)) }
        ensures only_memory { IsOkUnless result Fault.NoMemory }
    {
        self.buffer.push(decision)?;
        self.advance::<A>(state)
    }

    /// Applies what is next, as long as it is buffered.
    fn advance<A: Application>(&mut self, state: &mut A::State) -> Result<(), Fault>
        requires is_applied { IsApplied self.old }
        ensures ok { OnOk result (Advances A.after self.old state.old self.new state.new) }
        ensures before { self.new.before ≡ self.old.before }
        ensures base { self.new.base.items ≡ self.old.base.items }
        ensures err { OnErr result ((more : List Decision) × (self.new.applied.items ≡ self.old.applied.items ++ more)) }
        ensures only_memory { IsOkUnless result Fault.NoMemory }
    {
        while let Some(place) = self.next_place() {
            self.apply_at::<A>(state, place)?;
        }
        Ok(())
    }

    /// Where the next slot's decision is buffered, if it is. At most 16 are buffered.
    fn next_place(&self) -> Option<usize>
        ensures { result ≡ position (is_at (next_in self.now)) self.now.buffer.items }
    {
        let next = self.before as u64 + 1 + self.applied.len() as u64;
        self.buffer
            .iter()
            .position(|decision| decision.get().slot.0 == next)
    }

    /// Applies the decision that is buffered at this place. After a refusal the state must not be used.
    fn apply_at<A: Application>(&mut self, state: &mut A::State, place: usize) -> Result<(), Fault>
        requires { place < length self.old.buffer.items }
        ensures ok { OnOk result (AppliesOne A.after self.old state.old place self.new state.new) }
        ensures before { self.new.before ≡ self.old.before }
        ensures base { self.new.base.items ≡ self.old.base.items }
        ensures err { OnErr result (self.new.applied.items ≡ self.old.applied.items) }
        ensures only_memory { IsOkUnless result Fault.NoMemory }
    {
        let decision = self.buffer.remove(place);
        A::apply(state, &decision.get().value)?;
        self.applied.push(decision)?;
        Ok(())
    }
}

fn has_slot(decisions: &[SharedDecision], slot: Slot) -> bool
    ensures { result ≡ is_decided slot.0 decisions.now }
{
    decisions
        .iter()
        .any(|decision| decision.get().slot.0 == slot.0)
}
