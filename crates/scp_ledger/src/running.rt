//! The timers of the open slots that should run.
ghost use Rattle.std.specs.Prelude.{◌≡◌, ◌+◌, IfOk, OnOk, IsOkUnless};
ghost use Rattle.scp_ledger.specs.Timers.{AreTimersAt, AreTimersIfSlot, AreTimers};

use crate::ledger::Ledger;
use scp_slot::below::driver::Driver;
use scp_slot::below::types::{Fault, Slot, WINDOW};
use scp_slot::{Timer, add_timers};
use std::alloc::Global;

/// Adds the timers of one slot that should run.
fn add_at<D: Driver + Drop + Copy>(
    alloc: Global,
    ledger: &Ledger<D>,
    slot: Slot,
    timers: &mut Vec<Timer>,
) -> Result<(), Fault>
    ensures added { OnOk result (AreTimersAt ledger.now.machines slot.0 timers.old.items timers.new.items) }
    ensures only_memory { IsOkUnless result Fault.NoMemory }
{
    match ledger.machine(slot) {
        Some(machine) => add_timers(alloc, slot, machine, timers),
        None => Ok(()),
    }
}

/// Adds the timers of the slot this many slots ahead of the lowest one. There is no slot with a number of 2 ^ 64 or more.
fn add_ahead<D: Driver + Drop + Copy>(
    alloc: Global,
    ledger: &Ledger<D>,
    lowest: u64,
    ahead: u64,
    timers: &mut Vec<Timer>,
) -> Result<(), Fault>
    ensures added { OnOk result (AreTimersIfSlot ledger.now.machines (lowest + ahead) timers.old.items timers.new.items) }
    ensures only_memory { IsOkUnless result Fault.NoMemory }
{
    match lowest.checked_add(ahead) {
        Some(slot) => add_at(alloc, ledger, Slot(slot), timers),
        None => Ok(()),
    }
}

/// The timers that should run for the 16 slots from the lowest undecided one on, in order, a slot's round before its ballot. The only refusal
/// is `Fault::NoMemory`. Costs one search for a quorum for each slot that has a ballot.
pub fn timers<D: Driver + Drop + Copy>(
    alloc: Global,
    ledger: &Ledger<D>,
) -> Result<Vec<Timer>, Fault>
    ensures all { IfOk result (λ timers. AreTimers ledger.now.machines ledger.now.lowest WINDOW timers.items) }
    ensures only_memory { IsOkUnless result Fault.NoMemory }
{
    let mut timers = Vec::new(alloc);
    let lowest = ledger.lowest();
    for ahead in 0..WINDOW {
        add_ahead(alloc, ledger, lowest, ahead, &mut timers)?;
    }
    Ok(timers)
}
