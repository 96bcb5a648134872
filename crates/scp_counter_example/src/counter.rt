//! A counter that only grows: an application whose values are numbers.
ghost use Rattle.std.specs.Prelude.{◌≡◌, ◌≢◌, ℕ, List, [], OnOk, IfOk, IsOkUnless};
ghost use Rattle.scp_counter_example.specs.inside.Counter.{counter_says, number_in, level_of, least, least_from, raised, after_number, is_below, bytes_of, count_in};
ghost use Rattle.scp_counter_example.specs.inside.CounterLaws.{least_full, number_is_short, below_stays, none_say_zero};

use scp_turn::below::driver::place_of;
use scp_turn::below::node::{Application, Driver, Level};
use scp_turn::below::types::{Fault, Slot, Value};
use std::alloc::Global;

/// The counter. A value is a number of eight bytes, the highest first; the least candidate is the composite, so that the counter
/// grows by as little as anybody proposes; and a number below the counter is refused.
#[derive(Clone, Copy, Drop)]
pub struct Counter;

/// The number that a value spells, if it has eight bytes.
pub fn number_of(value: &Value) -> Option<u64>
    ensures { result ≡ number_in value.now }
{
    number_of_bytes(value.as_slice())
}

/// The number that eight bytes spell.
#[tactic(auto, unfolding(crate::specs::inside::Counter::number_in))]
fn number_of_bytes(bytes: &[u8]) -> Option<u64>
    ensures { result ≡ number_in bytes.now }
{
    if bytes.len() != 8 {
        return None;
    }
    match bytes.first_chunk::<8>() {
        Some(front) => Some(u64::from_be_bytes(*front)),
        None => None,
    }
}

/// The value that spells a number.
pub fn value_of(alloc: Global, number: u64) -> Result<Value, Fault> {
    Ok(Value::new(Vec::from_slice(alloc, &number.to_be_bytes())?))
}

/// The least of the values, of which there is one, by bytes.
fn least_of(values: &[Value]) -> &Value
    requires some { values.now ≢ [] }
    ensures { result.now ≡ least values.now }
{
    let mut best = &values[0];
    for value in &values[1..] {
        if value < best {
            best = value;
        }
    }
    best
}

impl Driver for Counter {
    ghost says = { counter_says };

    fn validate(&self, _slot: Slot, value: &Value) -> Level {
        match number_of(value) {
            Some(_) => Level::FullyValidated,
            None => Level::Invalid,
        }
    }

    fn extract(&self, _alloc: Global, _slot: Slot, _value: &Value) -> Result<Option<Value>, Fault> {
        Ok(None)
    }

    fn combine(&self, _alloc: Global, _slot: Slot, values: &[Value]) -> Result<Value, Fault> {
        least_of(values).copy()
    }

    fn leader(&self, slot: Slot, round: u64, n: usize) -> usize {
        place_of(slot, round, n)
    }

    ghost extracts_full = { λ d slot v. tt };

    ghost combines_full = { λ d slot vs some all. least_full vs some all };

    ghost valid_is_short = { λ d slot v valid. number_is_short v valid };
}

impl Application for Counter {
    type State = u64;

    ghost first = { 0 };

    ghost after = { after_number };

    ghost is_refused = { λ count value. is_below count (number_in value) };

    ghost begins = { count_in };

    ghost written = { bytes_of };

    fn new_state(_alloc: Global) -> u64 {
        0
    }

    fn begin(_alloc: Global, bytes: &[u8]) -> Result<u64, Fault> {
        if bytes.is_empty() {
            return Ok(0);
        }
        match number_of_bytes(bytes) {
            Some(count) => Ok(count),
            None => Err(Fault::Malformed(0)),
        }
    }

    fn write(alloc: Global, count: &u64) -> Result<Vec<u8>, Fault> {
        Ok(Vec::from_slice(alloc, &count.to_be_bytes())?)
    }

    fn refuses(count: &u64, value: &Value) -> bool {
        match number_of(value) {
            Some(number) => number < *count,
            None => true,
        }
    }

    fn apply(count: &mut u64, value: &Value) -> Result<(), Fault> {
        if let Some(number) = number_of(value) {
            if number > *count {
                *count = number;
            }
        }
        Ok(())
    }

    ghost begins_first = { none_say_zero };

    ghost refused_stays = { λ count value refused. below_stays count (number_in value) refused };
}
