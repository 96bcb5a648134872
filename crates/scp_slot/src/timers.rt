//! The timers of one slot that should run.
ghost use Rattle.std.specs.Prelude.{◌≡◌, OnOk, IsOkUnless};
ghost use Rattle.scp_nominate.specs.scp_vote.specs.Seen.{seen};
ghost use Rattle.scp_nominate.specs.scp_vote.specs.declared.claim.StatementKind.TheVariants.{Balloting};
ghost use Rattle.scp_slot.specs.Slot.{slot_view};
ghost use Rattle.scp_slot.specs.Timers.{own_counter, AddsRound, AddsBallot, AddsTimers};

use crate::machine::SlotMachine;
use crate::quorum::has_quorum_at;
use scp_ballot::below::ballot_rules::counter_of_pledges;
use scp_nominate::below::driver::Driver;
use scp_nominate::below::types::{Fault, Slot};
use scp_nominate::below::vote::{Board, StatementKind};
use std::alloc::Global;

/// A timer that should run: that of a slot's nomination in this round, or of its ballot of this counter.
#[derive(Clone, Copy, PartialEq, Eq)]
pub enum Timer {
    Round(Slot, u64),
    Ballot(Slot, u32),
}

/// The counter of the own ballot statement, or 0 if there is none.
fn counter_of_own(board: &Board) -> u32
    ensures { result ≡ own_counter (seen Balloting board.now) }
{
    match board.own(StatementKind::Balloting) {
        Some(own) => counter_of_pledges(&own.get().statement.pledges),
        None => 0,
    }
}

/// Adds the timer of the slot's nomination, if it should run.
fn add_round<D: Driver + Drop>(
    slot: Slot,
    machine: &SlotMachine<D>,
    timers: &mut Vec<Timer>,
) -> Result<(), Fault>
    ensures added { OnOk result (AddsRound slot (slot_view machine.now) timers.old.items timers.new.items) }
    ensures only_memory { IsOkUnless result Fault.NoMemory }
{
    let nominator = machine.nominator();
    let rounds = nominator.rounds();
    if nominator.candidates().is_empty() && !nominator.is_last_round() {
        timers.push(Timer::Round(slot, rounds))?;
    }
    Ok(())
}

/// Adds the timer of the slot's ballot, if it should run.
fn add_ballot<D: Driver + Drop>(
    alloc: Global,
    slot: Slot,
    machine: &SlotMachine<D>,
    timers: &mut Vec<Timer>,
) -> Result<(), Fault>
    ensures added { OnOk result (AddsBallot slot (slot_view machine.now) timers.old.items timers.new.items) }
    ensures only_memory { IsOkUnless result Fault.NoMemory }
{
    let board = machine.balloter().board();
    let counter = counter_of_own(board);
    if counter > 0 && has_quorum_at(alloc, board, counter)? {
        timers.push(Timer::Ballot(slot, counter))?;
    }
    Ok(())
}

/// Adds the timers of a slot that should run: that of its nomination, then that of its ballot. The only refusal is `Fault::NoMemory`. Costs
/// one search for a quorum, if there is a ballot.
pub fn add_timers<D: Driver + Drop>(
    alloc: Global,
    slot: Slot,
    machine: &SlotMachine<D>,
    timers: &mut Vec<Timer>,
) -> Result<(), Fault>
    ensures added { OnOk result (AddsTimers slot (slot_view machine.now) timers.old.items timers.new.items) }
    ensures only_memory { IsOkUnless result Fault.NoMemory }
{
    add_round(slot, machine, timers)?;
    add_ballot(alloc, slot, machine, timers)
}
