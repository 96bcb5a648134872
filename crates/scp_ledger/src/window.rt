//! Which slots are open.
ghost use Rattle.std.specs.Prelude.{◌≡◌, ◌<◌, ◌≤◌, ◌+◌, ◌++◌, ◌∷◌, [], ◌↔◌, ℕ, IsTrue, List, OnOk, IsOkUnless, false};
ghost use Rattle.scp_ledger.specs.declared.journal.Decision.{Decision};
ghost use Rattle.scp_ledger.specs.Verdicts.{IsFar};
ghost use Rattle.scp_ledger.specs.inside.Window.{is_ahead, IsBounded, IsWindow, Passes};

use scp_slot::below::types::{Fault, Slot, WINDOW};
use std::alloc::Global;
use std::collections::BTreeSet;

/// The highest slot that can be open (this project's profile).
pub const LAST_SLOT: u64 = 4_294_967_295;

/// The lowest slot without a decision, and which slots after it have one: at most 15, since each is removed as soon as the lowest passes it.
/// Envelopes and records ask the same window.
#[derive(Drop)]
pub struct Window {
    pub lowest: u64,
    pub ahead: BTreeSet<u64>,
}

impl Window {
    /// Of no decisions: this slot is the lowest without one.
    pub fn new(alloc: Global, first: u64) -> Window
        requires low { first ≤ 4294967296 }
        ensures { IsWindow first [] result }
    {
        Window {
            lowest: first,
            ahead: BTreeSet::new(alloc),
        }
    }

    /// Whether a slot from the lowest one on has a decision.
    pub fn is_ahead(&self, slot: Slot) -> bool
        ensures { result ≡ is_ahead self.now slot.0 }
    {
        self.ahead.contains(&slot.0)
    }

    /// Whether a slot from the lowest one on is beyond the window, or above the last slot.
    pub fn is_far(&self, slot: Slot) -> bool
        requires { self.now.lowest ≤ slot.0 }
        ensures { IsTrue result ↔ IsFar self.now.lowest slot.0 }
    {
        slot.0 > LAST_SLOT || slot.0 - self.lowest >= WINDOW
    }

    /// Notes that the slot has a decision from now on.
    pub fn decide(&mut self, slot: Slot) -> Result<(), Fault>
        requires bounded { IsBounded self.old }
        requires from { self.old.lowest ≤ slot.0 }
        requires last { slot.0 ≤ LAST_SLOT }
        ensures window { OnOk result ((first : ℕ) → (ds : List Decision) → (d : Decision) → d.slot ≡ slot → IsWindow first ds self.old → IsWindow first (ds ++ d ∷ []) self.new) }
        ensures only_memory { IsOkUnless result Fault.NoMemory }
    {
        self.ahead.insert(slot.0)?;
        self.advance();
        Ok(())
    }

    /// Moves past the slots that have a decision, up to the first that has none.
    fn advance(&mut self)
        requires bounded { IsBounded self.old }
        ensures passes { Passes self.old self.new }
        ensures undecided { is_ahead self.old self.new.lowest ≡ false }
    {
        while self.ahead.remove(&self.lowest) {
            self.lowest += 1;
        }
    }
}
