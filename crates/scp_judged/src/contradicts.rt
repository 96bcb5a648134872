//! Which statements contradict each other.
ghost use Rattle.std.specs.Prelude.{◌≡◌, ◌↔◌, ◌<◌, ◌⊎◌, ℕ, map, Contains, IfOk, OnOk, IsOkUnless, IsTrue, length};
ghost use Rattle.scp_judged.specs.Contradicts.{Contradict, ContradictAt};
ghost use Rattle.scp_judged.specs.inside.Adding.{AddsWhere};

use crate::messages::Message;
use scp_ledger::below::envelope::{
    Confirm, Externalize, Nominate, Pledges, Prepare, Statement, newer,
};
use scp_ledger::below::types::{Ballot, Fault, Value};
use scp_ledger::below::vote::kind_of_pledges;
use std::alloc::{AllocError, Global};

fn are_same_ballots(a: &Ballot, b: &Ballot) -> bool
    ensures { IsTrue result ↔ (a.now ≡ b.now) }
{
    a.counter == b.counter && a.value == b.value
}

fn are_same_optional(a: &Option<Ballot>, b: &Option<Ballot>) -> bool
    ensures { IsTrue result ↔ (a.now ≡ b.now) }
{
    match (a, b) {
        (Some(a), Some(b)) => are_same_ballots(a, b),
        (None, None) => true,
        _ => false,
    }
}

fn are_same_values(a: &[Value], b: &[Value]) -> bool
    ensures { IsTrue result ↔ (a.now ≡ b.now) }
{
    a == b
}

fn are_same_prepares(a: &Prepare, b: &Prepare) -> bool
    ensures { IsTrue result ↔ (a.now ≡ b.now) }
{
    a.set_hash == b.set_hash
        && are_same_ballots(&a.ballot, &b.ballot)
        && are_same_optional(&a.prepared, &b.prepared)
        && are_same_optional(&a.prepared_prime, &b.prepared_prime)
        && a.n_commit == b.n_commit
        && a.n_high == b.n_high
}

fn are_same_confirms(a: &Confirm, b: &Confirm) -> bool
    ensures { IsTrue result ↔ (a.now ≡ b.now) }
{
    are_same_ballots(&a.ballot, &b.ballot)
        && a.n_prepared == b.n_prepared
        && a.n_commit == b.n_commit
        && a.n_high == b.n_high
        && a.set_hash == b.set_hash
}

fn are_same_externalizes(a: &Externalize, b: &Externalize) -> bool
    ensures { IsTrue result ↔ (a.now ≡ b.now) }
{
    are_same_ballots(&a.commit, &b.commit) && a.n_high == b.n_high && a.set_hash == b.set_hash
}

fn are_same_nominations(a: &Nominate, b: &Nominate) -> bool
    ensures { IsTrue result ↔ (a.now ≡ b.now) }
{
    a.set_hash == b.set_hash
        && are_same_values(a.votes.as_slice(), b.votes.as_slice())
        && are_same_values(a.accepted.as_slice(), b.accepted.as_slice())
}

fn are_same_pledges(a: &Pledges, b: &Pledges) -> bool
    ensures { IsTrue result ↔ (a.now ≡ b.now) }
{
    match (a, b) {
        (Pledges::Prepare(a), Pledges::Prepare(b)) => are_same_prepares(a, b),
        (Pledges::Confirm(a), Pledges::Confirm(b)) => are_same_confirms(a, b),
        (Pledges::Externalize(a), Pledges::Externalize(b)) => are_same_externalizes(a, b),
        (Pledges::Nominate(a), Pledges::Nominate(b)) => are_same_nominations(a, b),
        _ => false,
    }
}

/// Whether the statements are of one node, slot and kind, and neither equal nor newer than the other. Takes no memory.
pub fn contradict(s: &Statement, t: &Statement) -> bool
    ensures { IsTrue result ↔ Contradict s.now t.now }
{
    s.node == t.node
        && s.slot == t.slot
        && kind_of_pledges(&s.pledges) == kind_of_pledges(&t.pledges)
        && !are_same_pledges(&s.pledges, &t.pledges)
        && !newer(s, t)
        && !newer(t, s)
}

/// Adds the place of two messages if their statements contradict each other.
fn add_if(
    found: &mut Vec<(usize, usize)>,
    first: &Message,
    last: &Message,
    place: (usize, usize),
) -> Result<(), AllocError>
    ensures { OnOk result (AddsWhere (Contradict first.now.envelope.statement last.now.envelope.statement) found.old.items found.new.items place) }
{
    if !contradict(
        &first.envelope.get().statement,
        &last.envelope.get().statement,
    ) {
        return Ok(());
    }
    found.push(place)?;
    Ok(())
}

/// Adds the places before this one whose statements contradict the one there.
fn add_earlier(
    found: &mut Vec<(usize, usize)>,
    messages: &[Message],
    at: usize,
) -> Result<(), AllocError>
    requires { at < length messages.now }
    ensures { OnOk result ((i j : ℕ) → Contains found.new.items (i, j) ↔ (Contains found.old.items (i, j) ⊎ ((j ≡ at) × ContradictAt (map (λ m. m.envelope.statement) messages.now) i j))) }
{
    let last = &messages[at];
    for i in 0..at {
        let first = &messages[i];
        add_if(found, first, last, (i, at))?;
    }
    Ok(())
}

/// The places of each two messages whose statements contradict each other, the earlier first, ascending by the later. The only refusal is
/// `Fault::NoMemory`. Compares the node of each with that of each later one.
pub fn contradictions(alloc: Global, messages: &[Message]) -> Result<Vec<(usize, usize)>, Fault>
    ensures exact { IfOk result (λ found. (i j : ℕ) → Contains found.items (i, j) ↔ ContradictAt (map (λ m. m.envelope.statement) messages.now) i j) }
    ensures only_memory { IsOkUnless result Fault.NoMemory }
{
    let mut found = Vec::new(alloc);
    for at in 0..messages.len() {
        add_earlier(&mut found, messages, at)?;
    }
    Ok(found)
}
