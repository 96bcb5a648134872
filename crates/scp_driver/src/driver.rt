//! The trait by which an application checks and combines values.
ghost use Rattle.std.specs.Prelude.{◌≡◌, ◌≢◌, ◌<◌, ◌≤◌, ℕ, List, [], length, IfOk, IfSome, All, IsOkUnless};
ghost use Rattle.scp_driver.specs.Driver.{IsFull};

use scp_kv::below::types::{Fault, Slot, Value};
use std::alloc::Global;

/// How far a value is validated.
#[derive(Clone, Copy, PartialEq, Eq)]
pub enum Level {
    Invalid,
    MaybeValid,
    FullyValidated,
}

/// What nomination asks the application: validation, combining and leaders (the SCP draft). An implementation gives its four
/// answers as functions of the slot and the values. It proves that what `extract` takes is fully validated, and so is the
/// composite of fully validated values. It also proves that a value that isn't invalid has at most 4,096 bytes, the limit of
/// values on a link.
pub trait Driver {
    ghost use Rattle.scp_driver.specs.declared.driver.Level.TheVariants.{Invalid};
    ghost use Rattle.scp_driver.specs.Driver.{Says};

    ghost says: { Says Self };

    /// How far the value is valid for the slot. Takes no memory.
    fn validate(&self, slot: Slot, value: &Value) -> Level
        ensures { result ≡ says.level self.now slot.0 value.now };

    /// What the application takes from a value that isn't fully validated, if anything. The only refusal is `Fault::NoMemory`.
    fn extract(&self, alloc: Global, slot: Slot, value: &Value) -> Result<Option<Value>, Fault>
        ensures extracted { IfOk result (λ found. found ≡ says.extracted self.now slot.0 value.now) }
        ensures only_memory { IsOkUnless result Fault.NoMemory };

    /// The composite of the candidates, of which there is at least one. The only refusal is `Fault::NoMemory`.
    fn combine(&self, alloc: Global, slot: Slot, values: &[Value]) -> Result<Value, Fault>
        requires some { values.now ≢ [] }
        ensures combined { IfOk result (λ value. value ≡ says.combined self.now slot.0 values.now) }
        ensures only_memory { IsOkUnless result Fault.NoMemory };

    /// The place of the round's leader among n nodes in order; rounds count from 1.
    fn leader(&self, slot: Slot, round: u64, n: usize) -> usize
        requires rounds { 1 ≤ round }
        requires nodes { 1 ≤ n }
        ensures place { result ≡ says.place self.now slot.0 round n }
        ensures below { result < n };

    ghost extracts_full: { (d : Self) (slot : ℕ) (v : List ℕ) → IfSome (says.extracted d slot v) (λ found. IsFull (says.level d) slot found) };

    ghost combines_full: { (d : Self) (slot : ℕ) (vs : List (List ℕ)) → vs ≢ [] → All (λ v. IsFull (says.level d) slot v) vs → IsFull (says.level d) slot (says.combined d slot vs) };

    ghost valid_is_short: { (d : Self) (slot : ℕ) (v : List ℕ) → says.level d slot v ≢ Invalid → length v ≤ 4096 };
}
