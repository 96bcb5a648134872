//! The boundaries: the ends of the ranges of commit that statements on the board vote for or accept.
ghost use Rattle.std.specs.Prelude.{◌≡◌, ◌≢◌, ◌⊎◌, ◌↔◌, Contains, Some, IsSomeAnd, IfOk, OnOk, IsOkUnless};
ghost use Rattle.scp_vote.specs.scp_types.specs.declared.ballot.Ballot.{Ballot};
ghost use Rattle.scp_ballot_rules.specs.Owed.{Bounds};
ghost use Rattle.scp_ballot_rules.specs.Told.{ballots_on};
ghost use Rattle.scp_ballot_rules.specs.Finding.{AreBoundaries};
ghost use Rattle.scp_ballot_rules.specs.inside.Finding.{Adds};

use crate::candidates::add;
use scp_vote::below::envelope::{Pledges, Prepare};
use scp_vote::below::types::{Ballot, Fault, SharedValue};
use scp_vote::{Board, StatementKind};
use std::alloc::Global;

/// The boundaries on the board, each as a ballot of its counter and value. Counter 0 is left out (this project's profile).
pub fn boundaries(alloc: Global, board: &Board) -> Result<Vec<Ballot>, Fault>
    ensures all { IfOk result (λ list. AreBoundaries (ballots_on board.now) list.items) }
    ensures only_memory { IsOkUnless result Fault.NoMemory }
{
    let mut list = Vec::new(alloc);
    for (node, entry) in board.statements(StatementKind::Balloting) {
        let _ = node;
        add_bounds(&entry.envelope.get().statement.pledges, &mut list)?;
    }
    Ok(list)
}

/// Adds both ends of a range.
fn add_ends(list: &mut Vec<Ballot>, low: u32, high: u32, value: &SharedValue) -> Result<(), Fault>
    ensures added { OnOk result (Adds (λ x. ((value.now ≡ x.value) × ((low ≡ x.counter) ⊎ (high ≡ x.counter)))) list.old.items list.new.items) }
    ensures only_memory { IsOkUnless result Fault.NoMemory }
{
    add(list, low, value)?;
    add(list, high, value)?;
    Ok(())
}

/// Adds the ends of the range that a PREPARE votes for, if it votes for one.
fn add_vote(list: &mut Vec<Ballot>, prepare: &Prepare) -> Result<(), Fault>
    ensures added { OnOk result (Adds (λ x. (prepare.now.n_commit ≢ 0) × (prepare.now.ballot.value ≡ x.value) × ((prepare.now.n_commit ≡ x.counter) ⊎ (prepare.now.n_high ≡ x.counter))) list.old.items list.new.items) }
    ensures only_memory { IsOkUnless result Fault.NoMemory }
{
    if prepare.n_commit == 0 {
        return Ok(());
    }
    add_ends(
        list,
        prepare.n_commit,
        prepare.n_high,
        &prepare.ballot.value,
    )?;
    Ok(())
}

/// Adds the boundaries of the pledges.
fn add_bounds(pledges: &Pledges, list: &mut Vec<Ballot>) -> Result<(), Fault>
    ensures added { OnOk result (Adds (λ x. Bounds pledges.now x.value x.counter) list.old.items list.new.items) }
    ensures only_memory { IsOkUnless result Fault.NoMemory }
{
    match pledges {
        Pledges::Prepare(p) => add_vote(list, p)?,
        Pledges::Confirm(c) => add_ends(list, c.n_commit, c.n_high, &c.ballot.value)?,
        Pledges::Externalize(e) => add_ends(list, e.commit.counter, e.n_high, &e.commit.value)?,
        Pledges::Nominate(_) => {}
    }
    Ok(())
}
