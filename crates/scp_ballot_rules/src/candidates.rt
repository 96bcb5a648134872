//! The candidate ballots: those that statements on the board name.
ghost use Rattle.std.specs.Prelude.{◌≡◌, ◌≢◌, ◌⊎◌, ◌↔◌, IsTrue, Contains, Some, IsSomeAnd, IfOk, OnOk, IsOkUnless};
ghost use Rattle.scp_vote.specs.scp_types.specs.declared.ballot.Ballot.{Ballot};
ghost use Rattle.scp_ballot_rules.specs.Owed.{Names};
ghost use Rattle.scp_ballot_rules.specs.Told.{ballots_on};
ghost use Rattle.scp_ballot_rules.specs.Finding.{AreCandidates};
ghost use Rattle.scp_ballot_rules.specs.inside.Finding.{Adds};

use scp_vote::below::envelope::{Confirm, Externalize, Pledges, Prepare};
use scp_vote::below::types::{Ballot, Fault, SharedValue};
use scp_vote::{Board, StatementKind};
use std::alloc::Global;

/// The candidate ballots, and no others; counter 0 is left out (this project's profile). They are gathered anew for each rule
/// that is tried. A board of 1,000 nodes gives at most 3,000, and each is compared with those before it.
pub fn candidates(alloc: Global, board: &Board) -> Result<Vec<Ballot>, Fault>
    ensures all { IfOk result (λ list. AreCandidates (ballots_on board.now) list.items) }
    ensures only_memory { IsOkUnless result Fault.NoMemory }
{
    let mut list = Vec::new(alloc);
    for (node, entry) in board.statements(StatementKind::Balloting) {
        let _ = node;
        add_named(&entry.envelope.get().statement.pledges, &mut list)?;
    }
    Ok(list)
}

/// Whether it is the ballot of this counter and value.
fn is_ballot_of(ballot: &Ballot, counter: u32, value: &SharedValue) -> bool
    ensures { IsTrue result ↔ ((record { counter = counter; value = value.now }) ≡ ballot.now) }
{
    ballot.counter == counter && ballot.value == *value
}

/// Whether the ballot of this counter and value is in the list.
fn holds(list: &[Ballot], counter: u32, value: &SharedValue) -> bool
    ensures { IsTrue result ↔ Contains list.now (record { counter = counter; value = value.now }) }
{
    list.iter()
        .any(|ballot| is_ballot_of(ballot, counter, value))
}

/// Adds a copy of the ballot, unless its counter is 0 or the list has it.
pub(crate) fn add(list: &mut Vec<Ballot>, counter: u32, value: &SharedValue) -> Result<(), Fault>
    ensures added { OnOk result (Adds (λ x. ((record { counter = counter; value = value.now }) ≡ x)) list.old.items list.new.items) }
    ensures only_memory { IsOkUnless result Fault.NoMemory }
{
    if counter == 0 || holds(list.as_slice(), counter, value) {
        return Ok(());
    }
    let value = value.share()?;
    list.push(Ballot { counter, value })?;
    Ok(())
}

fn add_some(list: &mut Vec<Ballot>, ballot: &Option<Ballot>) -> Result<(), Fault>
    ensures added { OnOk result (Adds (λ x. (ballot.now ≡ Some x)) list.old.items list.new.items) }
    ensures only_memory { IsOkUnless result Fault.NoMemory }
{
    match ballot {
        Some(ballot) => {
            add(list, ballot.counter, &ballot.value)?;
            Ok(())
        }
        None => Ok(()),
    }
}

fn add_prepare(prepare: &Prepare, list: &mut Vec<Ballot>) -> Result<(), Fault>
    ensures added { OnOk result (Adds (λ x. ((prepare.now.ballot ≡ x) ⊎ (prepare.now.prepared ≡ Some x) ⊎ (prepare.now.prepared_prime ≡ Some x))) list.old.items list.new.items) }
    ensures only_memory { IsOkUnless result Fault.NoMemory }
{
    add(list, prepare.ballot.counter, &prepare.ballot.value)?;
    add_some(list, &prepare.prepared)?;
    add_some(list, &prepare.prepared_prime)?;
    Ok(())
}

fn add_confirm(confirm: &Confirm, list: &mut Vec<Ballot>) -> Result<(), Fault>
    ensures added { OnOk result (Adds (λ x. ((confirm.now.ballot ≡ x) ⊎ ((record { counter = confirm.now.n_prepared; value = confirm.now.ballot.value }) ≡ x) ⊎ ((record { counter = confirm.now.n_high; value = confirm.now.ballot.value }) ≡ x))) list.old.items list.new.items) }
    ensures only_memory { IsOkUnless result Fault.NoMemory }
{
    let value = &confirm.ballot.value;
    add(list, confirm.ballot.counter, value)?;
    add(list, confirm.n_prepared, value)?;
    add(list, confirm.n_high, value)?;
    Ok(())
}

fn add_externalize(externalize: &Externalize, list: &mut Vec<Ballot>) -> Result<(), Fault>
    ensures added { OnOk result (Adds (λ x. ((externalize.now.commit ≡ x) ⊎ ((record { counter = externalize.now.n_high; value = externalize.now.commit.value }) ≡ x))) list.old.items list.new.items) }
    ensures only_memory { IsOkUnless result Fault.NoMemory }
{
    let value = &externalize.commit.value;
    add(list, externalize.commit.counter, value)?;
    add(list, externalize.n_high, value)?;
    Ok(())
}

/// Adds the ballots that the pledges name.
fn add_named(pledges: &Pledges, list: &mut Vec<Ballot>) -> Result<(), Fault>
    ensures added { OnOk result (Adds (λ x. Names pledges.now x) list.old.items list.new.items) }
    ensures only_memory { IsOkUnless result Fault.NoMemory }
{
    match pledges {
        Pledges::Prepare(prepare) => add_prepare(prepare, list)?,
        Pledges::Confirm(confirm) => add_confirm(confirm, list)?,
        Pledges::Externalize(externalize) => add_externalize(externalize, list)?,
        Pledges::Nominate(_) => {}
    }
    Ok(())
}
