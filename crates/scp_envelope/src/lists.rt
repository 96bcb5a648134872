ghost use Rattle.std.specs.Prelude.{◌≡◌, ◌↔◌, IfOk, IsOkUnless, IsTrue, Contains};

use scp_xdr::below::types::{Fault, Value};
use std::marker::Model;

/// Values in order. The limit of 64 is that of the encoding (this project's profile).
#[derive(Drop)]
pub struct ValueList(Vec<Value>);

impl Model for ValueList {
    ghost use Rattle.std.specs.Prelude.{List, ℕ};

    ghost Value = { List (List ℕ) };

    ghost view = { λ v. v.0.items };
}

impl ValueList {
    /// The list of these values. Moves them, and takes no memory.
    pub fn new(values: Vec<Value>) -> ValueList
        ensures { result ≡ values.items }
    {
        ValueList(values)
    }

    /// The values.
    pub fn as_slice(&self) -> &[Value]
        ensures { result.now ≡ self.now }
    {
        self.0.as_slice()
    }

    /// Gives the values back, and takes no memory.
    pub fn into_vec(self) -> Vec<Value>
        ensures { result.items ≡ self }
    {
        let ValueList(inside) = self;
        inside
    }

    /// Another list of the same values, in the same allocator. The only refusal is `Fault::NoMemory`.
    pub fn copy(&self) -> Result<ValueList, Fault>
        ensures same { IfOk result (λ list. list ≡ self.now) }
        ensures only_memory { IsOkUnless result Fault.NoMemory }
    {
        let mut copied = Vec::with_capacity(*self.0.allocator(), self.0.len())?;
        for value in &self.0 {
            copied.push(value.copy()?)?;
        }
        Ok(ValueList(copied))
    }
}

/// Whether the value is among the values.
pub(crate) fn contains(values: &[Value], value: &Value) -> bool
    ensures { IsTrue result ↔ Contains values.now value.now }
{
    values.contains(value)
}
