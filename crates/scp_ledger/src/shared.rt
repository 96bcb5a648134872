//! A decision that several lists share.
ghost use Rattle.std.specs.Prelude.{◌≡◌, ◌<◌, ◌≤◌, ◌↔◌, ◌⊎◌, length, IfOk, IfErr, IsOkUnless, IsErrOf};

use crate::journal::Decision;
use scp_slot::below::types::{Fault, VALUE_LIMIT};
use std::alloc::Global;
use std::marker::Model;
use std::ops::Deref;
use std::sync::Arc;

/// The most bytes of a decision's value (this project's profile).
pub const DECIDED_LIMIT: usize = VALUE_LIMIT;

/// A decision that several lists hold, kept once. Its value has at most 4,096 bytes, so a record of it fits a link. Contracts see the decision.
#[derive(Drop)]
pub struct SharedDecision(Arc<Decision>);

impl Model for SharedDecision {
    ghost use Rattle.scp_ledger.specs.declared.journal.Decision.{Decision};
    ghost use Rattle.std.specs.Prelude.{◌≤◌, length};

    ghost Value = { Decision };

    ghost view = { λ s. s.0.value };

    ghost invariant = { λ s. length s.0.value.value ≤ 4096 };
}

impl SharedDecision {
    /// Makes a decision that can be shared. Refused by `TooLong` where its value has over 4,096 bytes, else by `NoMemory`.
    pub fn new(alloc: Global, decision: Decision) -> Result<SharedDecision, Fault>
        ensures same { IfOk result (λ s. s ≡ decision) }
        ensures too_long { IsErrOf result Fault.TooLong ↔ (DECIDED_LIMIT < length decision.value) }
        ensures only { IfErr result (λ f. (f ≡ Fault.NoMemory) ⊎ (f ≡ Fault.TooLong)) }
    {
        if decision.value.as_slice().len() > DECIDED_LIMIT {
            return Err(Fault::TooLong);
        }
        Ok(SharedDecision(Arc::new(alloc, decision)?))
    }

    /// Another handle on the same decision; nothing is copied.
    pub fn share(&self) -> Result<SharedDecision, Fault>
        ensures same { IfOk result (λ s. s ≡ self.now) }
        ensures only_memory { IsOkUnless result Fault.NoMemory }
    {
        Ok(SharedDecision(Arc::try_clone(&self.0)?))
    }

    /// The decision.
    pub fn get(&self) -> &Decision
        ensures same { result.now ≡ self.now }
        ensures short { length self.now.value ≤ DECIDED_LIMIT }
    {
        &*self.0
    }
}

impl Deref for SharedDecision {
    type Target = Decision;

    ghost deref_gives = { λ s d. d ≡ s };

    /// The decision.
    fn deref(&self) -> &Decision
        ensures { result.now ≡ self.now }
    {
        self.get()
    }
}
