//! Values that several ballots hold.
ghost use Rattle.std.specs.Prelude.{◌≡◌, IfOk, IsOkUnless};
ghost use Rattle.std.specs.Ordering.{nat_cmp};
ghost use Rattle.std.specs.Cmp.Lexicographic.{pointwise, slice_cmp};

use crate::fault::Fault;
use crate::value::Value;
use std::alloc::Global;
use std::cmp::Ordering;
use std::marker::Model;
use std::ops::Deref;
use std::sync::Arc;

/// A value that several ballots hold, kept once. Contracts see the value.
#[derive(Drop)]
pub struct SharedValue(Arc<Value>);

impl Model for SharedValue {
    ghost use Rattle.std.specs.Prelude.{List, ℕ};

    ghost Value = { List ℕ };

    ghost view = { λ v. v.0.value };
}

impl SharedValue {
    /// The value, ready to be shared.
    pub fn new(alloc: Global, value: Value) -> Result<SharedValue, Fault>
        ensures same { IfOk result (λ v. v ≡ value) }
        ensures only_memory { IsOkUnless result Fault.NoMemory }
    {
        Ok(SharedValue(Arc::new(alloc, value)?))
    }

    /// Another holder of the same value; nothing is copied.
    pub fn share(&self) -> Result<SharedValue, Fault>
        ensures same { IfOk result (λ v. v ≡ self.now) }
        ensures only_memory { IsOkUnless result Fault.NoMemory }
    {
        Ok(SharedValue(Arc::try_clone(&self.0)?))
    }

    /// The value.
    pub fn get(&self) -> &Value
        ensures { result.now ≡ self.now }
    {
        &*self.0
    }
}

impl Deref for SharedValue {
    type Target = Value;

    ghost deref_gives = { λ s v. v ≡ s };

    /// The value.
    fn deref(&self) -> &Value
        ensures { result.now ≡ self.now }
    {
        self.get()
    }
}

impl PartialEq for SharedValue {
    ghost use Rattle.std.specs.Prelude.{nat_eq};
    ghost use Rattle.std.specs.Cmp.Rules.{comparing};
    ghost use Rattle.std.proofs.Common.{rules};

    ghost eq = { pointwise nat_eq };

    ghost laws = { Prim.search (comparing, rules) };

    fn eq(&self, other: &SharedValue) -> bool {
        self.get() == other.get()
    }
}

impl Eq for SharedValue {
    ghost use Rattle.std.specs.Cmp.Rules.{comparing};
    ghost use Rattle.std.proofs.Common.{rules};

    ghost laws = { Prim.search (comparing, rules) };
}

impl PartialOrd for SharedValue {
    ghost use Rattle.std.specs.Prelude.{Some};
    ghost use Rattle.std.specs.Cmp.Rules.{comparing};
    ghost use Rattle.std.proofs.Common.{rules};

    ghost partial_cmp = { λ x y. Some (slice_cmp nat_cmp x y) };

    ghost laws = { Prim.search (comparing, rules) };

    fn partial_cmp(&self, other: &SharedValue) -> Option<Ordering> {
        Some(self.cmp(other))
    }
}

impl Ord for SharedValue {
    ghost use Rattle.std.specs.Cmp.Rules.{comparing};
    ghost use Rattle.std.proofs.Common.{rules};

    ghost cmp = { slice_cmp nat_cmp };

    ghost total = { Prim.search (comparing, rules) };

    ghost matches_partial_cmp = { Prim.search (comparing, rules) };

    ghost matches_eq = { Prim.search (comparing, rules) };

    fn cmp(&self, other: &SharedValue) -> Ordering {
        self.get().cmp(other.get())
    }
}
