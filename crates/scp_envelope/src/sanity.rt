//! Which statements are sane.
ghost use Rattle.std.specs.Prelude.{◌↔◌, IsTrue};
ghost use Rattle.std.specs.List.Sorted.{IsStrictlySortedBy};
ghost use Rattle.scp_envelope.specs.Ballots.{value_cmp};
ghost use Rattle.scp_envelope.specs.Sane.{AreApart, IsSanePrepare, IsSaneConfirm, IsSaneExternalize, IsSaneNominate, IsSane};

use crate::statement::{Confirm, Externalize, Nominate, Pledges, Prepare, Statement};
use scp_xdr::below::types::{Ballot, Value};

impl Statement {
    /// Whether the statement is sane (this project's profile). PREPARE: the ballot's counter is above 0; if both are
    /// there, preparedPrime is less than prepared and incompatible with it; nH is 0, or prepared is there and nH is at
    /// most its counter; nC is 0, or nH isn't 0 and nC <= nH <= the ballot's counter. CONFIRM: the ballot's counter is
    /// above 0, and nCommit <= nH <= that counter. EXTERNALIZE: the commit's counter is above 0 and at most nH.
    /// NOMINATE: not both lists are empty, and each ascends strictly by bytes.
    pub fn sane(&self) -> bool
        ensures { IsTrue result ↔ IsSane self.now.pledges }
    {
        match &self.pledges {
            Pledges::Prepare(prepare) => is_sane_prepare(prepare),
            Pledges::Confirm(confirm) => is_sane_confirm(confirm),
            Pledges::Externalize(externalize) => is_sane_externalize(externalize),
            Pledges::Nominate(nominate) => is_sane_nominate(nominate),
        }
    }
}

fn are_apart(prepared: &Option<Ballot>, prime: &Option<Ballot>) -> bool
    ensures { IsTrue result ↔ AreApart prepared.now prime.now }
{
    match (prepared, prime) {
        (Some(prepared), Some(prime)) => prime < prepared && prime.value != prepared.value,
        _ => true,
    }
}

fn is_sane_prepare(prepare: &Prepare) -> bool
    ensures { IsTrue result ↔ IsSanePrepare prepare.now }
{
    let high = prepare.n_high;
    let is_prepared = match &prepare.prepared {
        Some(prepared) => high <= prepared.counter,
        None => false,
    };
    let commits = high != 0 && prepare.n_commit <= high && high <= prepare.ballot.counter;
    prepare.ballot.counter > 0
        && are_apart(&prepare.prepared, &prepare.prepared_prime)
        && (high == 0 || is_prepared)
        && (prepare.n_commit == 0 || commits)
}

fn is_sane_confirm(confirm: &Confirm) -> bool
    ensures { IsTrue result ↔ IsSaneConfirm confirm.now }
{
    confirm.ballot.counter > 0
        && confirm.n_high <= confirm.ballot.counter
        && confirm.n_commit <= confirm.n_high
}

fn is_sane_externalize(externalize: &Externalize) -> bool
    ensures { IsTrue result ↔ IsSaneExternalize externalize.now }
{
    externalize.commit.counter > 0 && externalize.n_high >= externalize.commit.counter
}

fn is_sane_nominate(nominate: &Nominate) -> bool
    ensures { IsTrue result ↔ IsSaneNominate nominate.now }
{
    let votes = nominate.votes.as_slice();
    let accepted = nominate.accepted.as_slice();
    (!votes.is_empty() || !accepted.is_empty()) && is_ascending(votes) && is_ascending(accepted)
}

/// Whether each value is less than the next.
fn is_ascending(values: &[Value]) -> bool
    ensures { IsTrue result ↔ IsStrictlySortedBy value_cmp values.now }
{
    values.is_sorted_by(|value, next| value < next)
}
