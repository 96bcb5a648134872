ghost use Rattle.std.specs.Prelude.{◌≡◌, ◌↔◌, IsTrue, OnOk, OnErr, IsErrOf, IsOkUnless, option_copied};
ghost use Rattle.std.specs.Ordering.{nat_cmp};
ghost use Rattle.std.specs.Cmp.Lexicographic.{slice_cmp};
ghost use Rattle.std.specs.FinMap as map;
ghost use Rattle.std.specs.List.Sorted.{IsStrictlySortedBy};
ghost use Rattle.std.specs.Map.{keys_of};
ghost use Rattle.scp_xdr.specs.Kind.{Values};
ghost use Rattle.scp_kv.specs.Op.{ops_kind, op_value, IsOps};
ghost use Rattle.scp_kv.specs.State.{after_op, after_value, IsAfterPart, PutsNewKey};

use crate::ops::{Op, ops_of};
use scp_xdr::below::types::{Fault, Value};
use std::alloc::Global;
use std::collections::BTreeMap;
use std::collections::btree_map::Iter;
use std::marker::Model;

/// The keys that were put and not deleted since, each with its last value. Contracts see a finite map from bytes to
/// bytes, in the order of the keys.
#[derive(Drop)]
pub struct KvState {
    alloc: Global,
    entries: BTreeMap<Value, Value>,
}

impl Model for KvState {
    ghost use Rattle.std.specs.FinMap as map;
    ghost use Rattle.std.specs.Coded.{coded_ℕ, coded_list};
    ghost use Rattle.scp_kv.specs.Map.{KvMap};

    ghost Value = { KvMap };

    ghost coded = { map.code (coded_list coded_ℕ) (coded_list coded_ℕ) };

    ghost view = { λ s. map.from_entries s.entries.entries };
}

impl KvState {
    /// A state without keys. Takes no memory.
    pub fn new(alloc: Global) -> KvState
        ensures { result ≡ map.empty }
    {
        KvState {
            alloc,
            entries: BTreeMap::new(alloc),
        }
    }

    /// How many keys there are. Constant time.
    pub fn len(&self) -> usize
        ensures { result ≡ map.len self.now }
    {
        self.entries.len()
    }

    /// Whether there is no key. Constant time.
    pub fn is_empty(&self) -> bool
        ensures { IsTrue result ↔ (self.now ≡ map.empty) }
    {
        self.entries.is_empty()
    }

    /// The value at the key, if the key is there. The time grows with the logarithm of the number of keys.
    pub fn get(&self, key: &Value) -> Option<&Value>
        ensures { option_copied result ≡ map.get self.now key.now }
    {
        self.entries.get(key)
    }

    /// Applies one operation: `Put` sets the key, and `Del` takes it out if it is there. The only refusal is
    /// `NoMemory`, at a `Put` of a new key; it leaves the state as it was. The time grows with the logarithm of the
    /// number of keys, and nothing is copied.
    pub fn apply(&mut self, op: Op) -> Result<(), Fault>
        ensures applied { OnOk result (self.new ≡ after_op self.old (op_value op)) }
        ensures refused { OnErr result (self.new ≡ self.old) }
        ensures only_new_key { OnErr result (PutsNewKey self.old (op_value op)) }
        ensures only_memory { IsOkUnless result Fault.NoMemory }
    {
        match op {
            Op::Put(key, value) => {
                self.entries.insert(key, value)?;
            }
            Op::Del(key) => {
                self.entries.remove(&key);
            }
        }
        Ok(())
    }

    /// The keys with their values, ascending by key. Bytes are compared from the first on, and a proper prefix is
    /// less. Each step takes constant time on average.
    pub fn lines(&self) -> Iter<'_, Value, Value>
        ensures entries { result ≡ map.entries self.now }
        ensures ascending { IsStrictlySortedBy (slice_cmp nat_cmp) (keys_of result) }
    {
        self.entries.iter()
    }
}

/// Applies the operations of the value in order if it is an operation list; any other value leaves the state as it was. The only refusal is
/// `NoMemory`, and it comes only for an operation list. After it some operations, from the first on, are applied and the rest aren't: the
/// caller must drop the state. The time grows with the value's length and, for each operation, with the logarithm of the number of keys.
pub fn apply_value(state: &mut KvState, value: &Value) -> Result<(), Fault>
    ensures applied { OnOk result (state.new ≡ after_value state.old value.now) }
    ensures only_memory { IsOkUnless result Fault.NoMemory }
    ensures memory_last { IsErrOf result Fault.NoMemory → (ops : Values ops_kind) × IsOps value.now ops }
    ensures part { OnErr result ((ops : Values ops_kind) × IsOps value.now ops × IsAfterPart state.old ops state.new) }
{
    if let Some(ops) = ops_of(state.alloc, value)? {
        for op in ops {
            state.apply(op)?;
        }
    }
    Ok(())
}
