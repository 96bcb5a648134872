//! Values that ascend by bytes, each once.
ghost use Rattle.std.specs.Prelude.{◌≡◌, ◌↔◌, ℕ, List, [], length, IsTrue, IfOk, IfErr, OnOk, IsOkUnless, Contains};
ghost use Rattle.std.specs.List.Sorted.{IsStrictlySortedBy};
ghost use Rattle.scp_vote.specs.scp_envelope.specs.Ballots.{value_cmp};
ghost use Rattle.std.proofs.Props.{props};

use scp_vote::below::envelope::ValueList;
use scp_vote::below::types::{Fault, Value};
use std::alloc::Global;

/// Values that ascend by bytes, each once.
#[derive(Drop)]
pub(crate) struct ValueSet {
    values: Vec<Value>,
    pub ghost ascending: { IsStrictlySortedBy value_cmp values.items } by { Prim.hlevel props },
}

impl ValueSet {
    ghost use Rattle.scp_nominate.specs.inside.Values.{items, Adds, IsGap};
    ghost use Rattle.scp_nominate.specs.Values.{Has};

    /// No values.
    pub(crate) fn new(alloc: Global) -> ValueSet
        ensures { items result ≡ [] }
    {
        ValueSet {
            values: Vec::new(alloc),
        }
    }

    /// How many there are.
    pub(crate) fn len(&self) -> usize
        ensures { result ≡ length (items self.now) }
    {
        self.values.len()
    }

    /// The values.
    pub(crate) fn as_slice(&self) -> &[Value]
        ensures { result.now ≡ items self.now }
    {
        self.values.as_slice()
    }

    /// The place of the value, or else the place where it would go.
    fn search(&self, value: &Value) -> Result<usize, usize>
        ensures found { IfOk result (λ at. Has self.now value.now) }
        ensures gap { IfErr result (λ at. IsGap self.now value.now at) }
    {
        self.values.binary_search(value)
    }

    /// Whether the value is there.
    pub(crate) fn contains(&self, value: &Value) -> bool
        ensures { IsTrue result ↔ Has self.now value.now }
    {
        match self.search(value) {
            Ok(_) => true,
            Err(_) => false,
        }
    }

    /// Adds the value, if it isn't there.
    pub(crate) fn insert(&mut self, value: Value) -> Result<(), Fault>
        ensures added { OnOk result (Adds self.old self.new value) }
        ensures only_memory { IsOkUnless result Fault.NoMemory }
    {
        match self.search(&value) {
            Ok(_) => Ok(()),
            Err(at) => Ok(self.values.insert(at, value)?),
        }
    }

    /// The values as a list of a statement.
    pub(crate) fn copy_list(&self, alloc: Global) -> Result<ValueList, Fault>
        ensures same { IfOk result (λ list. list ≡ items self.now) }
        ensures only_memory { IsOkUnless result Fault.NoMemory }
    {
        let mut copied = Vec::with_capacity(alloc, self.values.len())?;
        for value in &self.values {
            copied.push(value.copy()?)?;
        }
        Ok(ValueList::new(copied))
    }
}
