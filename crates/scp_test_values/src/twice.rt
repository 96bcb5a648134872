//! What the tests share: values and ballots, and calls that are made twice. The first call is right or out of memory; the second is right as
//! if there had been no first. If the second is out of memory, the test ends with that.
use scp_quorum::below::types::{Ballot, Fault, SharedValue, Value};
use std::alloc::Global;

/// Whether a first answer is right, or memory ran out.
pub(super) fn is_right_or_out_of_memory(answer: Result<bool, Fault>) -> bool {
    matches!(answer, Ok(true) | Err(Fault::NoMemory))
}

/// The value of these bytes.
pub(super) fn value_of(alloc: Global, bytes: &[u8]) -> Result<Value, Fault> {
    Ok(Value::new(Vec::from_slice(alloc, bytes)?))
}

/// The ballot of this counter, and of the value of these bytes.
pub(super) fn ballot_of(alloc: Global, counter: u32, bytes: &[u8]) -> Result<Ballot, Fault> {
    let value = SharedValue::new(alloc, value_of(alloc, bytes)?)?;
    Ok(Ballot { counter, value })
}
