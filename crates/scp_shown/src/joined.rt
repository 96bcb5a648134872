//! What is heard of a ledger, by its entries in their order.
ghost use Rattle.std.specs.Prelude.{◌≡◌, ◌↔◌, [], map, IfOk, OnOk, IsOkUnless, IsTrue};
ghost use Rattle.std.specs.Option.{option_map, ForSome};
ghost use Rattle.std.specs.List.{AllByRecursion};
ghost use Rattle.scp_history.specs.scp_envelope.specs.Newer.{IsNewer};
ghost use Rattle.scp_history.specs.scp_judged.specs.Verdicts.{heard_of};
ghost use Rattle.scp_history.specs.scp_judged.specs.Certified.{IsSaneHeard};
ghost use Rattle.scp_shown.specs.Parts.{entry_of, all_counting};
ghost use Rattle.scp_shown.specs.Joined.{IsNextBallot, JoinsOne, Joins};

use crate::part::Part;
use scp_history::below::envelope::{Statement, newer};
use scp_history::below::judged::{Said, last_ballot};
use scp_history::below::types::Fault;
use scp_history::below::vote::{StatementKind, kind_of_pledges};
use std::alloc::Global;
use std::sync::Arc;

/// Whether the statement is newer than the last one, if there is one.
fn is_newer_than(last: Option<&Said>, statement: &Statement) -> bool
    ensures { IsTrue result ↔ ForSome (option_map (λ one. heard_of one.now) last.entry) (λ h. IsNewer h.statement statement.now) }
{
    match last {
        Some(said) => newer(&said.envelope.get().statement, statement),
        None => true,
    }
}

/// Whether it is a sane ballot statement that is the first of its node, or newer than the last one.
fn is_next(joined: &[Said], said: &Said) -> bool
    ensures { IsTrue result ↔ IsNextBallot (map heard_of joined.now) (heard_of said.now) }
{
    let statement = &said.envelope.get().statement;
    if !statement.sane() {
        return false;
    }
    match kind_of_pledges(&statement.pledges) {
        StatementKind::Nomination => false,
        StatementKind::Balloting => is_newer_than(last_ballot(joined, statement.node), statement),
    }
}

/// The same statement and set, shared.
fn share(said: &Said) -> Result<Said, Fault>
    ensures same { IfOk result (λ shared. heard_of shared ≡ heard_of said.now) }
    ensures only_memory { IsOkUnless result Fault.NoMemory }
{
    let envelope = said.envelope.share()?;
    let set = Arc::try_clone(&said.set)?;
    Ok(Said { envelope, set })
}

/// Adds a statement if it is the next of its node.
fn join_one(joined: &mut Vec<Said>, said: &Said) -> Result<(), Fault>
    ensures joins { OnOk result (JoinsOne (map heard_of joined.old.items) (heard_of said.now) (map heard_of joined.new.items)) }
    ensures only_memory { IsOkUnless result Fault.NoMemory }
{
    if !is_next(joined, said) {
        return Ok(());
    }
    let shared = share(said)?;
    joined.push(shared)?;
    Ok(())
}

/// Adds what counts of one entry more: each ballot statement that is the first of its node, or newer than the last one.
fn join(joined: &mut Vec<Said>, counting: &[Said]) -> Result<(), Fault>
    ensures joins { OnOk result (Joins (map heard_of joined.old.items) (map heard_of counting.now) (map heard_of joined.new.items)) }
    ensures only_memory { IsOkUnless result Fault.NoMemory }
{
    for said in counting {
        join_one(joined, said)?;
    }
    Ok(())
}

/// What is heard of a ledger: of what counts of its entries, each ballot statement that is the first of its node, or newer than the last one. The
/// only refusal is `Fault::NoMemory`. Goes over what is heard for each statement.
pub(crate) fn joined_of(alloc: Global, parts: &[Part<'_>]) -> Result<Vec<Said>, Fault>
    ensures joins { IfOk result (λ joined. Joins [] (all_counting (map entry_of parts.now)) (map heard_of joined.items)) }
    ensures sane { IfOk result (λ joined. AllByRecursion IsSaneHeard (map heard_of joined.items)) }
    ensures only_memory { IsOkUnless result Fault.NoMemory }
{
    let mut joined = Vec::new(alloc);
    for part in parts {
        join(&mut joined, &part.ledger.judged.counting)?;
    }
    Ok(joined)
}
