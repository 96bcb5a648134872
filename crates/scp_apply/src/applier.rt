//! An applier.
ghost use Rattle.std.specs.Prelude.{◌≡◌, ◌≢◌, ◌+◌, ◌↔◌, IsTrue, ◌⊎◌, [], true, false, OnOk, OnErr, IfOk, IfErr, IfSome, IsErrOf, None, Some, if◌then◌else◌, option_copied};
ghost use Rattle.scp_ledger.specs.scp_xdr.specs.Words.{IsReadingFault};
ghost use Rattle.scp_ledger.specs.scp_driver.specs.Driver.{IsBase};
ghost use Rattle.scp_ledger.specs.scp_wire.specs.Fitting.{IsFitting};
ghost use Rattle.scp_apply.specs.Applied.{made_of, value_of};
ghost use Rattle.scp_apply.specs.Applier.{IsApplier, IsRunning, IsInWindow, CanTake, Takes};

use crate::slots::Slots;
use scp_ledger::below::driver::Application;
use scp_ledger::below::types::{Fault, Slot, Value};
use scp_ledger::below::wire::Message;
use scp_ledger::{Onward, SharedDecision};
use std::alloc::Global;
use std::marker::Model;

/// Applies decisions in the order of their slots to the state of an application.
#[derive(Drop)]
pub struct Applier<A: Application> {
    slots: Slots,
    state: A::State,
    failed: bool,
}

impl<A: Application> Model for Applier<A> {
    ghost use Rattle.scp_apply.specs.Applier.{ApplierView};

    ghost Value = { ApplierView };

    ghost use Rattle.std.specs.Coded.{codes};

    ghost coded = { Prim.hlevel codes };

    ghost use Rattle.scp_apply.specs.inside.Slots.{applier_view, IsWell};

    ghost view = { applier_view };

    ghost invariant = { IsWell A.begins A.after };
}

impl<A: Application> Applier<A> {
    /// An applier that took nothing, with the application's first state. Its first slot is the one after `before`, so 0 is given for
    /// slot 1. Takes no memory.
    pub fn new(alloc: Global, before: u32) -> Applier<A>
        ensures empty { result ≡ record { first = before + 1; base = []; failed = false; applied = []; buffer = [] } }
        ensures known { IsApplier result }
        ensures running { IsRunning result }
    {
        let base = Vec::new(alloc);
        let slots = Slots::new(alloc, before, base);
        let state = A::new_state(alloc);
        Applier {
            slots,
            state,
            failed: false,
        }
    }

    /// An applier that took nothing, with the state that these bytes say. Its first slot is the one after `before`. It keeps the bytes.
    /// Refused as `Application::begin` is: by `Malformed` or `TooLong` if they say no state, else by `NoMemory`.
    pub fn begin(alloc: Global, before: u32, base: Vec<u8>) -> Result<Applier<A>, Fault>
        ensures empty { IfOk result (λ applier. applier ≡ record { first = before + 1; base = base.items; failed = false; applied = []; buffer = [] }) }
        ensures known { IfOk result IsApplier }
        ensures running { IfOk result IsRunning }
        ensures base { IfOk result (λ _. IsBase A.begins A.written base.items) }
        ensures refused { IfErr result (λ f. f ≢ Fault.NoMemory → ¬ (IsBase A.begins A.written base.items)) }
        ensures faults { IfErr result (λ f. f ≢ Fault.NoMemory → IsReadingFault f) }
    {
        let state = A::begin(alloc, base.as_slice())?;
        let slots = Slots::new(alloc, before, base);
        Ok(Applier {
            slots,
            state,
            failed: false,
        })
    }

    /// The last slot before its first one: 0 where that is slot 1.
    pub fn before(&self) -> u32
        ensures { self.now.first ≡ result + 1 }
    {
        self.slots.before
    }

    /// The bytes of the state with which it began; none for the application's first state.
    pub fn base(&self) -> &[u8]
        ensures { result.now ≡ self.now.base }
    {
        self.slots.base.as_slice()
    }

    /// The decisions that are applied, those of the first slot and of the slots after it, in order.
    pub fn applied(&self) -> &[SharedDecision]
        ensures same { result.now ≡ self.now.applied }
        ensures known { IsApplier self.now }
    {
        self.slots.applied.as_slice()
    }

    /// The state that the applied values make of the one that it began with, from the first to the last. A failed applier has none.
    pub fn state(&self) -> Option<&A::State>
        ensures made { option_copied result ≡ (if self.now.failed then None else Some (made_of (A.begins self.now.base) A.after self.now.applied)) }
        ensures running { self.now.failed ≡ false → IsRunning self.now }
    {
        if self.failed {
            return None;
        }
        Some(&self.state)
    }

    /// The applied decisions and the state, which a failed applier doesn't have. For when nothing more will be taken. Takes no memory.
    pub fn into_applied(self) -> (Vec<SharedDecision>, Option<A::State>)
        ensures applied { result.0.items ≡ self.applied }
        ensures made { result.1 ≡ (if self.failed then None else Some (made_of (A.begins self.base) A.after self.applied)) }
    {
        let Applier {
            slots,
            state,
            failed,
        } = self;
        let Slots { applied, .. } = slots;
        if failed {
            return (applied, None);
        }
        (applied, Some(state))
    }

    /// The value of a slot, if it is applied. Constant time.
    pub fn value_at(&self, slot: Slot) -> Option<&Value>
        ensures { option_copied result ≡ value_of slot.0 self.now.applied }
    {
        self.slots.value_at(slot)
    }

    /// Whether the decision of a slot can be taken: the slot is one of the 16 from the next on, and isn't buffered.
    pub fn can_take(&self, slot: Slot) -> bool
        ensures { IsTrue result ↔ IsInWindow self.now slot.0 }
    {
        self.slots.is_in_window(slot)
    }

    /// Takes what the slot stage sends on. A decision is buffered, and then all that is next is applied. A request for a slot's record is
    /// answered with the record, for that link, if the slot is applied.
    /// Refused by `NoMemory`, which leaves it failed, and by `Failed` if it failed before, which changes nothing.
    /// The time of a decision grows with what it makes applicable; that of an answer with the value.
    pub fn take(&mut self, onward: Onward) -> Result<Option<(u8, Message)>, Fault>
        requires next { self.old.failed ≡ false → CanTake self.old onward }
        ensures takes { IfOk result (λ answer. Takes self.old onward answer self.new) }
        // The answer fits a link.
        ensures fits { IfOk result (λ answer. IfSome answer (λ sent. IsFitting sent.1)) }
        ensures known { IsApplier self.new }
        ensures running { self.new.failed ≡ false → IsRunning self.new }
        ensures first { self.new.first ≡ self.old.first }
        ensures base { self.new.base ≡ self.old.base }
        // When each refusal comes, and what it leaves.
        ensures failed { IsErrOf result Fault.Failed ↔ (self.old.failed ≡ true) }
        ensures same { self.old.failed ≡ true → self.new ≡ self.old }
        ensures no_memory { IsErrOf result Fault.NoMemory → self.new.failed ≡ true }
        ensures read { OnErr result (self.new.applied ≡ self.old.applied) }
        ensures only { IfErr result (λ f. (f ≡ Fault.NoMemory) ⊎ (f ≡ Fault.Failed)) }
    {
        if self.failed {
            return Err(Fault::Failed);
        }
        match self.slots.serve::<A>(&mut self.state, onward) {
            Ok(answer) => Ok(answer),
            Err(_) => {
                self.failed = true;
                Err(Fault::NoMemory)
            }
        }
    }
}
