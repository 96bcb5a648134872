//! A driver whose values are one byte. It knows values that may be valid, and extracts something from them.
ghost use Rattle.scp_test_voting.specs.Byte.{byte_level, first_byte, first_value, turn, first_byte_full, first_value_full, byte_is_short};

use scp_nominate::below::driver::{Driver, Level};
use scp_nominate::below::types::{Fault, Slot, Value};
use std::alloc::Global;

/// The most bytes of a value.
const LIMIT: usize = 4_096;

/// One byte is fully validated; more bytes may be valid up to the limit; no bytes, and bytes over the limit, are invalid. The first byte is
/// what is extracted from a value. The first candidate is the composite, and rounds lead in turn, whatever the slot.
#[derive(Clone, Copy)]
pub struct ByteDriver;

impl Driver for ByteDriver {
    ghost says = { record {
      level = λ d slot v. byte_level v;
      extracted = λ d slot v. first_byte v;
      combined = λ d slot vs. first_value vs;
      place = λ d slot round n. turn round n;
    } };

    fn validate(&self, _slot: Slot, value: &Value) -> Level {
        match value.as_slice() {
            [] => Level::Invalid,
            [_] => Level::FullyValidated,
            bytes if bytes.len() <= LIMIT => Level::MaybeValid,
            _ => Level::Invalid,
        }
    }

    fn extract(&self, alloc: Global, _slot: Slot, value: &Value) -> Result<Option<Value>, Fault> {
        match value.as_slice() {
            [] => Ok(None),
            [first, ..] => Ok(Some(Value::new(Vec::from_slice(alloc, &[*first])?))),
        }
    }

    fn combine(&self, _alloc: Global, _slot: Slot, values: &[Value]) -> Result<Value, Fault> {
        values[0].copy()
    }

    fn leader(&self, _slot: Slot, round: u64, n: usize) -> usize {
        ((round - 1) % n as u64) as usize
    }

    ghost extracts_full = { λ d slot v. first_byte_full v };

    ghost combines_full = { λ d slot vs some all. first_value_full vs some all };

    ghost valid_is_short = { λ d slot v valid. byte_is_short v valid };
}
