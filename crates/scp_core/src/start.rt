//! With what a node begins.
ghost use Rattle.std.specs.Prelude.{◌≡◌, []};

use std::alloc::Global;

/// The slot and the state with which a node begins.
#[derive(Drop)]
pub struct Start {
    /// The last slot before the first one: 0 where that is slot 1.
    pub before: u32,
    /// The bytes of the state before the first slot; none for the application's first state.
    pub base: Vec<u8>,
}

/// Slot 1, and the application's first state.
pub fn at_slot_1(alloc: Global) -> Start
    ensures slot { result.before ≡ 0 }
    ensures base { result.base.items ≡ [] }
{
    Start {
        before: 0,
        base: Vec::new(alloc),
    }
}
