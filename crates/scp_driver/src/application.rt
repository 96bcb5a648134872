//! The trait by which an application builds its state from decided values.
ghost use Rattle.std.specs.Prelude.{◌≡◌, ◌≢◌, ◌<◌, ◌⊎◌, ℕ, List, [], All, Bool, true, IfOk, IfErr, OnOk, IsErrOf, IsOkUnless};
ghost use Rattle.scp_kv.specs.scp_xdr.specs.Words.{IsReadingFault};
ghost use Rattle.scp_driver.specs.Driver.{IsBase};

use crate::driver::Driver;
use scp_kv::below::types::{Fault, Value};
use std::alloc::Global;

/// What an application makes of the decided values, slot after slot. The state after a value depends only on the state and
/// the value, and on nothing that a single node has. So the clauses speak of the type: nodes of one application that applied
/// the same values have the same state. Any value may be decided, even one that this node finds invalid, so each has a state
/// after it. An implementation says which values it refuses, and proves that these leave the state as it was. It says which bytes
/// are written of a state, so that a node can begin with it. Contracts see the state's `Model`.
pub trait Application: Driver {
    type State: Drop;

    ghost first: { Self.State };

    ghost after: { Self.State → List ℕ → Self.State };

    ghost is_refused: { Self.State → List ℕ → Bool };

    ghost begins: { List ℕ → Self.State };

    ghost written: { Self.State → List ℕ };

    /// The state before slot 1. Takes no memory.
    fn new_state(alloc: Global) -> Self::State
        ensures { result ≡ first };

    /// The state that these bytes say: the first one, if there are none, else the one of which exactly these are written. All other bytes
    /// are refused, by `Malformed` or `TooLong`. The only other refusal is `NoMemory`.
    fn begin(alloc: Global, bytes: &[u8]) -> Result<Self::State, Fault>
        ensures begun { IfOk result (λ state. state ≡ begins bytes.now) }
        ensures known { IfOk result (λ _. IsBase begins written bytes.now) }
        ensures refused { IfErr result (λ f. f ≢ Fault.NoMemory → ¬ (IsBase begins written bytes.now)) }
        ensures faults { IfErr result (λ f. f ≢ Fault.NoMemory → IsReadingFault f) };

    /// The bytes of a state, the same at each node; `begin` reads them back. Refused by `TooLong` only if no bytes say it. The only other
    /// refusal is `NoMemory`.
    fn write(alloc: Global, state: &Self::State) -> Result<Vec<u8>, Fault>
        ensures written { IfOk result (λ bytes. bytes.items ≡ written state.now) }
        ensures read_back { IfOk result (λ bytes. begins bytes.items ≡ state.now) }
        ensures too_long { IsErrOf result Fault.TooLong → (bytes : List ℕ) → All (λ b. b < 256) bytes → begins bytes ≢ state.now }
        ensures only { IfErr result (λ f. (f ≡ Fault.NoMemory) ⊎ (f ≡ Fault.TooLong)) };

    /// Whether the value is one that leaves the state as it was. Takes no memory.
    fn refuses(state: &Self::State, value: &Value) -> bool
        ensures { result ≡ is_refused state.now value.now };

    /// Applies a value. If memory runs out, the state may be left half done, and the caller drops it.
    fn apply(state: &mut Self::State, value: &Value) -> Result<(), Fault>
        ensures after { OnOk result (state.new ≡ after state.old value.now) }
        ensures only_memory { IsOkUnless result Fault.NoMemory };

    ghost begins_first: { begins [] ≡ first };

    ghost refused_stays: { (state : Self.State) (value : List ℕ) → is_refused state value ≡ true → after state value ≡ state };
}
