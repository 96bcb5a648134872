//! The application of the product, whose values are operation lists.
ghost use Rattle.std.specs.Prelude.{◌≡◌, ◌≢◌, ◌≤◌, ℕ, List, [], true, false, not, is_some, OnOk, IfOk, IsOkUnless};
ghost use Rattle.std.specs.FinMap as map;
ghost use Rattle.scp_kv.specs.Op.{ops_in};
ghost use Rattle.scp_kv.specs.Saved.{bytes_of, state_of};
ghost use Rattle.scp_kv.specs.State.{after_value};
ghost use Rattle.scp_driver.specs.Kv.{kv_says, greatest, greatest_from, leader_place, IsGreatest, IsPlace};
ghost use Rattle.scp_driver.specs.KvLaws.{greatest_full, list_is_short, no_list_stays, none_say_the_empty_map};

use crate::application::Application;
use crate::driver::{Driver, Level};
use scp_kv::below::types::{Fault, Slot, Value};
use scp_kv::{KvState, apply_value, is_ops, the_bytes_of_a_state_are_its_own};
use std::alloc::Global;

/// The product's application (this project's profile). Operation lists are fully validated, and everything else is invalid;
/// nothing is taken from an invalid value. The composite is the greatest candidate by bytes, and nodes lead in turn. The state
/// is a map from keys to values, to which each list's operations are applied. The bytes of a state are the XDR of its entries.
#[derive(Clone, Copy)]
pub struct KvDriver;

/// The greatest of the values by bytes; there is at least one. Takes no memory.
pub fn greatest_of(values: &[Value]) -> &Value
    requires some { values.now ≢ [] }
    ensures exact { result.now ≡ greatest values.now }
    ensures greatest { IsGreatest values.now result.now }
{
    let mut best = &values[0];
    for value in &values[1..] {
        if best < value {
            best = value;
        }
    }
    best
}

impl Driver for KvDriver {
    ghost says = { kv_says };

    fn validate(&self, _slot: Slot, value: &Value) -> Level {
        if is_ops(value) {
            Level::FullyValidated
        } else {
            Level::Invalid
        }
    }

    fn extract(&self, _alloc: Global, _slot: Slot, _value: &Value) -> Result<Option<Value>, Fault> {
        Ok(None)
    }

    fn combine(&self, _alloc: Global, _slot: Slot, values: &[Value]) -> Result<Value, Fault> {
        greatest_of(values).copy()
    }

    fn leader(&self, slot: Slot, round: u64, n: usize) -> usize {
        place_of(slot, round, n)
    }

    ghost extracts_full = { λ d slot v. tt };

    ghost combines_full = { λ d slot vs some all. greatest_full vs some all };

    ghost valid_is_short = { λ d slot v valid. list_is_short v valid };
}

impl Application for KvDriver {
    type State = KvState;

    ghost first = { map.empty };

    ghost after = { after_value };

    ghost is_refused = { λ state value. not (is_some (ops_in value)) };

    ghost begins = { state_of };

    ghost written = { bytes_of };

    fn new_state(alloc: Global) -> KvState {
        KvState::new(alloc)
    }

    fn begin(alloc: Global, bytes: &[u8]) -> Result<KvState, Fault> {
        the_bytes_of_a_state_are_its_own();
        if bytes.is_empty() {
            return Ok(KvState::new(alloc));
        }
        KvState::decode(alloc, bytes)
    }

    fn write(alloc: Global, state: &KvState) -> Result<Vec<u8>, Fault> {
        the_bytes_of_a_state_are_its_own();
        state.encode(alloc)
    }

    fn refuses(_state: &KvState, value: &Value) -> bool {
        !is_ops(value)
    }

    fn apply(state: &mut KvState, value: &Value) -> Result<(), Fault> {
        apply_value(state, value)
    }

    ghost begins_first = { none_say_the_empty_map };

    ghost refused_stays = { no_list_stays };
}

/// The place (slot + round - 2) mod n, over the integers, of a round's leader among n nodes. Nodes lead in turn, and for slot 1
/// and round 1 it is the first.
pub fn place_of(slot: Slot, round: u64, n: usize) -> usize
    requires rounds { 1 ≤ round }
    requires nodes { 1 ≤ n }
    ensures exact { result ≡ leader_place slot.0 round n }
    ensures place { IsPlace slot.0 round n result }
{
    let place = u128::from(slot.0) + u128::from(round) + n as u128 - 2;
    (place % n as u128) as usize
}
