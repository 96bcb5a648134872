//! Which claims a statement votes for and accepts (the SCP draft, in this project's profile). No test here takes memory.
ghost use Rattle.std.specs.Prelude.{◌↔◌, IsTrue, IsSomeAnd};
ghost use Rattle.scp_envelope.specs.Claims.{IsCovered, VotesPrepare, AcceptsPrepare, VotesCommit, AcceptsCommit, VotesValue, AcceptsValue};

use crate::lists::contains;
use crate::statement::{Pledges, Statement};
use scp_xdr::below::types::{Ballot, Value};

/// Whether the ballot is less than or equal to the other and compatible with it.
fn is_covered(ballot: &Ballot, top: &Ballot) -> bool
    ensures { IsTrue result ↔ IsCovered ballot.now top.now }
{
    ballot.counter <= top.counter && ballot.value == top.value
}

/// Whether there is a ballot that covers this one.
fn is_covered_by_some(ballot: &Ballot, top: &Option<Ballot>) -> bool
    ensures { IsTrue result ↔ IsSomeAnd top.now (λ top. IsCovered ballot.now top) }
{
    match top {
        Some(top) => is_covered(ballot, top),
        None => false,
    }
}

impl Statement {
    /// Whether the statement votes to prepare the ballot. A PREPARE votes for each ballot of its ballot's value up to its
    /// counter, a CONFIRM for each ballot of its value. No other statement does.
    pub fn votes_prepare(&self, ballot: &Ballot) -> bool
        ensures { IsTrue result ↔ VotesPrepare self.now.pledges ballot.now }
    {
        match &self.pledges {
            Pledges::Prepare(prepare) => is_covered(ballot, &prepare.ballot),
            Pledges::Confirm(confirm) => ballot.value == confirm.ballot.value,
            Pledges::Externalize(_) => false,
            Pledges::Nominate(_) => false,
        }
    }

    /// Whether the statement accepts the ballot as prepared. A PREPARE accepts what prepared or preparedPrime covers: their values,
    /// up to their counters. A CONFIRM accepts its value up to nPrepared, an EXTERNALIZE its value at each counter. No NOMINATE does.
    pub fn accepts_prepare(&self, ballot: &Ballot) -> bool
        ensures { IsTrue result ↔ AcceptsPrepare self.now.pledges ballot.now }
    {
        match &self.pledges {
            Pledges::Prepare(prepare) => {
                is_covered_by_some(ballot, &prepare.prepared)
                    || is_covered_by_some(ballot, &prepare.prepared_prime)
            }
            Pledges::Confirm(confirm) => {
                ballot.value == confirm.ballot.value && ballot.counter <= confirm.n_prepared
            }
            Pledges::Externalize(externalize) => ballot.value == externalize.commit.value,
            Pledges::Nominate(_) => false,
        }
    }

    /// Whether the statement votes to commit the ballot of this counter and value. A PREPARE whose nC isn't 0 votes for
    /// its ballot's value from nC to nH, a CONFIRM for its value from nCommit on. No other statement does.
    pub fn votes_commit(&self, counter: u32, value: &Value) -> bool
        ensures { IsTrue result ↔ VotesCommit self.now.pledges counter value.now }
    {
        match &self.pledges {
            Pledges::Prepare(prepare) => {
                prepare.n_commit != 0
                    && value == prepare.ballot.value.get()
                    && prepare.n_commit <= counter
                    && counter <= prepare.n_high
            }
            Pledges::Confirm(confirm) => {
                value == confirm.ballot.value.get() && confirm.n_commit <= counter
            }
            Pledges::Externalize(_) => false,
            Pledges::Nominate(_) => false,
        }
    }

    /// Whether the statement accepts the ballot of this counter and value as committed. A CONFIRM accepts its value from
    /// nCommit to nH, an EXTERNALIZE its value from its commit's counter on. No other statement does.
    pub fn accepts_commit(&self, counter: u32, value: &Value) -> bool
        ensures { IsTrue result ↔ AcceptsCommit self.now.pledges counter value.now }
    {
        match &self.pledges {
            Pledges::Prepare(_) => false,
            Pledges::Confirm(confirm) => {
                value == confirm.ballot.value.get()
                    && confirm.n_commit <= counter
                    && counter <= confirm.n_high
            }
            Pledges::Externalize(externalize) => {
                value == externalize.commit.value.get() && externalize.commit.counter <= counter
            }
            Pledges::Nominate(_) => false,
        }
    }

    /// Whether the statement votes to nominate the value: it is a NOMINATE with the value in votes. Compares up to n values.
    pub fn votes_value(&self, value: &Value) -> bool
        ensures { IsTrue result ↔ VotesValue self.now.pledges value.now }
    {
        match &self.pledges {
            Pledges::Nominate(nominate) => contains(nominate.votes.as_slice(), value),
            _ => false,
        }
    }

    /// Whether the statement accepts the value as nominated: it is a NOMINATE with the value in accepted. Compares up to n values.
    pub fn accepts_value(&self, value: &Value) -> bool
        ensures { IsTrue result ↔ AcceptsValue self.now.pledges value.now }
    {
        match &self.pledges {
            Pledges::Nominate(nominate) => contains(nominate.accepted.as_slice(), value),
            _ => false,
        }
    }
}
