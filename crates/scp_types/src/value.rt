ghost use Rattle.std.specs.Prelude.{◌≡◌, IfOk, IsOkUnless};
ghost use Rattle.std.specs.Ordering.{nat_cmp};
ghost use Rattle.std.specs.Cmp.Lexicographic.{pointwise, slice_cmp};

use crate::bytes::same_bytes;
use crate::fault::Fault;
use std::cmp::Ordering;
use std::marker::Model;

/// What is agreed on: any number of bytes. Values are ordered by their bytes, so a proper prefix is
/// less than the whole. The limit `VALUE_LIMIT` is that of the encoding (this project's profile).
/// It is tested where a value is read or written.
#[derive(Drop)]
pub struct Value(Vec<u8>);

impl Model for Value {
    ghost use Rattle.std.specs.Prelude.{List, ℕ};

    ghost Value = { List ℕ };

    ghost view = { λ v. v.0.items };
}

impl Value {
    /// The value of these bytes. Moves them, and takes no memory.
    pub fn new(bytes: Vec<u8>) -> Value
        ensures { result ≡ bytes.items }
    {
        Value(bytes)
    }

    /// The value's bytes.
    pub fn as_slice(&self) -> &[u8]
        ensures { result.now ≡ self.now }
    {
        self.0.as_slice()
    }

    /// Gives the bytes back, and takes no memory.
    pub fn into_vec(self) -> Vec<u8>
        ensures { result.items ≡ self }
    {
        let Value(inside) = self;
        inside
    }

    /// Another value of the same bytes, in the same allocator. Copies each byte once. The only
    /// refusal is `Fault::NoMemory`.
    pub fn copy(&self) -> Result<Value, Fault>
        ensures same { IfOk result (λ v. v ≡ self.now) }
        ensures only_memory { IsOkUnless result Fault.NoMemory }
    {
        Ok(Value(self.0.clone()?))
    }
}

impl PartialEq for Value {
    ghost use Rattle.std.specs.Prelude.{nat_eq};
    ghost use Rattle.std.specs.Cmp.Rules.{comparing};
    ghost use Rattle.std.proofs.Common.{rules};

    ghost eq = { pointwise nat_eq };

    ghost laws = { Prim.search (comparing, rules) };

    fn eq(&self, other: &Value) -> bool {
        same_bytes(self.0.as_slice(), other.0.as_slice())
    }
}

impl Eq for Value {
    ghost use Rattle.std.specs.Cmp.Rules.{comparing};
    ghost use Rattle.std.proofs.Common.{rules};

    ghost laws = { Prim.search (comparing, rules) };
}

impl PartialOrd for Value {
    ghost use Rattle.std.specs.Prelude.{Some};
    ghost use Rattle.std.specs.Cmp.Rules.{comparing};
    ghost use Rattle.std.proofs.Common.{rules};

    ghost partial_cmp = { λ x y. Some (slice_cmp nat_cmp x y) };

    ghost laws = { Prim.search (comparing, rules) };

    fn partial_cmp(&self, other: &Value) -> Option<Ordering> {
        Some(self.cmp(other))
    }
}

impl Ord for Value {
    ghost use Rattle.std.specs.Cmp.Rules.{comparing};
    ghost use Rattle.std.proofs.Common.{rules};

    ghost cmp = { slice_cmp nat_cmp };

    ghost total = { Prim.search (comparing, rules) };

    ghost matches_partial_cmp = { Prim.search (comparing, rules) };

    ghost matches_eq = { Prim.search (comparing, rules) };

    fn cmp(&self, other: &Value) -> Ordering {
        self.0.cmp(&other.0)
    }
}
