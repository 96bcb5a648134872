//! Which of two statements is newer.
ghost use Rattle.std.specs.Prelude.{◌≡◌, ◌↔◌, ◌⊎◌, IsTrue};
ghost use Rattle.std.specs.declared.cmp.Ordering.TheVariants.{Less};
ghost use Rattle.scp_envelope.specs.Newer.{prepare_cmp, confirm_cmp, IsNewerNominate, ContainsAll, ArePledgesNewer, IsNewer};

use crate::lists::contains;
use crate::statement::{Confirm, Nominate, Pledges, Prepare, Statement};
use scp_xdr::below::types::Value;

/// Whether `new` is newer than `old`. False unless both are of one node and slot, and both are nominations or both ballot
/// statements. A NOMINATE is newer if both its lists contain the old ones and one has a value more. Of ballot statements
/// a later kind is newer (PREPARE, CONFIRM, EXTERNALIZE). Within PREPARE the greater one is newer, by ballot, prepared,
/// preparedPrime and nH, where an absent ballot is less than any; within CONFIRM, by ballot, nPrepared and nH. Lists of n
/// and m values cost n m comparisons.
pub fn newer(old: &Statement, new: &Statement) -> bool
    ensures { IsTrue result ↔ IsNewer old.now new.now }
{
    old.node == new.node && old.slot == new.slot && are_pledges_newer(&old.pledges, &new.pledges)
}

fn are_pledges_newer(old: &Pledges, new: &Pledges) -> bool
    ensures { IsTrue result ↔ ArePledgesNewer old.now new.now }
{
    match (old, new) {
        (Pledges::Prepare(old), Pledges::Prepare(new)) => is_newer_prepare(old, new),
        (Pledges::Prepare(_), Pledges::Confirm(_)) => true,
        (Pledges::Prepare(_), Pledges::Externalize(_)) => true,
        (Pledges::Confirm(old), Pledges::Confirm(new)) => is_newer_confirm(old, new),
        (Pledges::Confirm(_), Pledges::Externalize(_)) => true,
        (Pledges::Nominate(old), Pledges::Nominate(new)) => is_newer_nominate(old, new),
        _ => false,
    }
}

fn is_newer_prepare(old: &Prepare, new: &Prepare) -> bool
    ensures { IsTrue result ↔ (prepare_cmp old.now new.now ≡ Less) }
{
    let by_ballot = old.ballot.cmp(&new.ballot);
    let by_prepared = old.prepared.cmp(&new.prepared);
    let by_prime = old.prepared_prime.cmp(&new.prepared_prime);
    let by_high = old.n_high.cmp(&new.n_high);
    by_ballot
        .then(by_prepared.then(by_prime.then(by_high)))
        .is_lt()
}

fn is_newer_confirm(old: &Confirm, new: &Confirm) -> bool
    ensures { IsTrue result ↔ (confirm_cmp old.now new.now ≡ Less) }
{
    let by_ballot = old.ballot.cmp(&new.ballot);
    let by_prepared = old.n_prepared.cmp(&new.n_prepared);
    let by_high = old.n_high.cmp(&new.n_high);
    by_ballot.then(by_prepared.then(by_high)).is_lt()
}

/// Whether the new values contain each old one.
fn contains_all(new: &[Value], old: &[Value]) -> bool
    ensures { IsTrue result ↔ ContainsAll new.now old.now }
{
    old.iter().all(|value| contains(new, value))
}

fn is_newer_nominate(old: &Nominate, new: &Nominate) -> bool
    ensures { IsTrue result ↔ IsNewerNominate old.now new.now }
{
    keeps_values(old, new) && is_larger(old, new)
}

/// Whether both new lists contain the old ones.
fn keeps_values(old: &Nominate, new: &Nominate) -> bool
    ensures { IsTrue result ↔ (ContainsAll new.now.votes old.now.votes × ContainsAll new.now.accepted old.now.accepted) }
{
    contains_all(new.votes.as_slice(), old.votes.as_slice())
        && contains_all(new.accepted.as_slice(), old.accepted.as_slice())
}

/// Whether one of the new lists has a value that the old one doesn't have.
fn is_larger(old: &Nominate, new: &Nominate) -> bool
    ensures { IsTrue result ↔ ((¬ (ContainsAll old.now.votes new.now.votes)) ⊎ (¬ (ContainsAll old.now.accepted new.now.accepted))) }
{
    !contains_all(old.votes.as_slice(), new.votes.as_slice())
        || !contains_all(old.accepted.as_slice(), new.accepted.as_slice())
}
