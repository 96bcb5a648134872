//! Whether two own statements are equal. Each test is that of `specs/inside/Alike.antt`, of which `proofs/Equal.antt` shows that it passes exactly
//! what is equal.
ghost use Rattle.std.specs.Prelude.{◌≡◌, option_map};
ghost use Rattle.scp_epoch.specs.inside.Alike.{same_ballot as ballots_alike, same_ballots as both_alike, same_values as values_alike, same_prepare as prepares_alike, same_confirm as confirms_alike, same_externalize as externalizes_alike, same_nominate as nominates_alike, same_pledges as pledges_alike, same_statement as statements_alike, same_envelope as envelopes_alike, same_own as owns_alike, same_said as said_alike};

use scp_again::below::envelope::{
    Confirm, Envelope, Externalize, Nominate, Pledges, Prepare, Statement,
};
use scp_again::below::ledger::Origin;
use scp_again::below::types::{Ballot, Value};

fn same_ballot(one: &Ballot, other: &Ballot) -> bool
    ensures { result ≡ ballots_alike one.now other.now }
{
    one.counter == other.counter && one.value == other.value
}

fn same_ballots(one: &Option<Ballot>, other: &Option<Ballot>) -> bool
    ensures { result ≡ both_alike one.now other.now }
{
    match (one, other) {
        (None, None) => true,
        (Some(one), Some(other)) => same_ballot(one, other),
        (None, Some(_)) | (Some(_), None) => false,
    }
}

fn same_values(one: &[Value], other: &[Value]) -> bool
    ensures { result ≡ values_alike one.now other.now }
{
    one == other
}

fn same_prepare(one: &Prepare, other: &Prepare) -> bool
    ensures { result ≡ prepares_alike one.now other.now }
{
    one.set_hash == other.set_hash
        && same_ballot(&one.ballot, &other.ballot)
        && same_ballots(&one.prepared, &other.prepared)
        && same_ballots(&one.prepared_prime, &other.prepared_prime)
        && one.n_commit == other.n_commit
        && one.n_high == other.n_high
}

fn same_confirm(one: &Confirm, other: &Confirm) -> bool
    ensures { result ≡ confirms_alike one.now other.now }
{
    same_ballot(&one.ballot, &other.ballot)
        && one.n_prepared == other.n_prepared
        && one.n_commit == other.n_commit
        && one.n_high == other.n_high
        && one.set_hash == other.set_hash
}

fn same_externalize(one: &Externalize, other: &Externalize) -> bool
    ensures { result ≡ externalizes_alike one.now other.now }
{
    same_ballot(&one.commit, &other.commit)
        && one.n_high == other.n_high
        && one.set_hash == other.set_hash
}

fn same_nominate(one: &Nominate, other: &Nominate) -> bool
    ensures { result ≡ nominates_alike one.now other.now }
{
    one.set_hash == other.set_hash
        && same_values(one.votes.as_slice(), other.votes.as_slice())
        && same_values(one.accepted.as_slice(), other.accepted.as_slice())
}

fn same_pledges(one: &Pledges, other: &Pledges) -> bool
    ensures { result ≡ pledges_alike one.now other.now }
{
    match (one, other) {
        (Pledges::Prepare(one), Pledges::Prepare(other)) => same_prepare(one, other),
        (Pledges::Confirm(one), Pledges::Confirm(other)) => same_confirm(one, other),
        (Pledges::Externalize(one), Pledges::Externalize(other)) => same_externalize(one, other),
        (Pledges::Nominate(one), Pledges::Nominate(other)) => same_nominate(one, other),
        _ => false,
    }
}

/// Whether what two statements say is equal, or neither is there.
pub fn same_said(one: Option<&Statement>, other: Option<&Statement>) -> bool
    ensures { result ≡ said_alike (option_map (λ s. s.now.pledges) one.entry) (option_map (λ s. s.now.pledges) other.entry) }
{
    match (one, other) {
        (None, None) => true,
        (Some(one), Some(other)) => same_pledges(&one.pledges, &other.pledges),
        (None, Some(_)) | (Some(_), None) => false,
    }
}

fn same_statement(one: &Statement, other: &Statement) -> bool
    ensures { result ≡ statements_alike one.now other.now }
{
    one.node == other.node && one.slot == other.slot && same_pledges(&one.pledges, &other.pledges)
}

fn same_envelope(one: &Envelope, other: &Envelope) -> bool
    ensures { result ≡ envelopes_alike one.now other.now }
{
    same_statement(&one.statement, &other.statement)
        && one.signature.as_slice() == other.signature.as_slice()
}

/// Whether the own EXTERNALIZEs of two decisions are equal, or neither has one.
pub fn same_own(one: &Origin, other: &Origin) -> bool
    ensures { result ≡ owns_alike one.now other.now }
{
    match (one, other) {
        (Origin::Named { .. }, Origin::Named { .. }) => true,
        (Origin::Machine { own: one, .. }, Origin::Machine { own: other, .. }) => {
            same_envelope(one.get(), other.get())
        }
        (Origin::Named { .. }, Origin::Machine { .. })
        | (Origin::Machine { .. }, Origin::Named { .. }) => false,
    }
}
