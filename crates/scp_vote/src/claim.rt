//! Claims, and how a statement supports them.
ghost use Rattle.std.specs.Prelude.{◌≡◌, ◌↔◌, IsTrue};
ghost use Rattle.scp_vote.specs.Claims.{Stands};
ghost use Rattle.scp_vote.specs.declared.claim.Support.TheVariants.{VotesOrAccepts, Accepts};
ghost use Rattle.scp_vote.specs.Board.{kind_of_pledges};

use scp_envelope::{Pledges, Statement};
use scp_quorum::below::types::{Ballot, SharedValue, Value};

/// What nodes vote for and accept (the SCP draft).
#[derive(Drop)]
pub enum Claim {
    /// The ballot is prepared.
    Prepared(Ballot),
    /// The value is committed at each counter from the first to the second.
    Committed(u32, u32, SharedValue),
    /// The value is nominated.
    Nominated(Value),
}

/// The two kinds of statements: those of nomination, and ballot statements.
#[derive(Clone, Copy, PartialEq, Eq)]
pub enum StatementKind {
    Nomination,
    Balloting,
}

impl Claim {
    ghost use Rattle.scp_vote.specs.Board.{kind_of};

    /// The kind of the statements that can support the claim.
    pub fn kind(&self) -> StatementKind
        ensures { result ≡ kind_of self.now }
    {
        match self {
            Claim::Nominated(_) => StatementKind::Nomination,
            _ => StatementKind::Balloting,
        }
    }
}

/// The kind of a statement with these pledges.
pub fn kind_of_pledges(pledges: &Pledges) -> StatementKind
    ensures { result ≡ kind_of_pledges pledges.now }
{
    match pledges {
        Pledges::Nominate(_) => StatementKind::Nomination,
        _ => StatementKind::Balloting,
    }
}

/// How a statement supports a claim: it votes for it or accepts it, or it accepts it.
#[derive(Clone, Copy, PartialEq, Eq)]
pub enum Support {
    VotesOrAccepts,
    Accepts,
}

/// Whether the statement supports the claim in this way. Takes no memory.
pub fn stands(support: Support, claim: &Claim, statement: &Statement) -> bool
    ensures { IsTrue result ↔ Stands support claim.now statement.now.pledges }
{
    match claim {
        Claim::Prepared(ballot) => match support {
            Support::Accepts => statement.accepts_prepare(ballot),
            Support::VotesOrAccepts => {
                statement.votes_prepare(ballot) || statement.accepts_prepare(ballot)
            }
        },
        Claim::Committed(low, high, value) => match support {
            Support::Accepts => accepts_range(statement, *low, *high, value.get()),
            Support::VotesOrAccepts => supports_range(statement, *low, *high, value.get()),
        },
        Claim::Nominated(value) => match support {
            Support::Accepts => statement.accepts_value(value),
            Support::VotesOrAccepts => {
                statement.votes_value(value) || statement.accepts_value(value)
            }
        },
    }
}

ghost use Rattle.scp_vote.specs.Claims.{AcceptsCommits, SupportsCommits};

/// Whether the statement votes for the claim or accepts it. If it is known to accept it, its votes aren't looked at.
#[tactic(auto, using(crate::proofs::Supporting::accepts_supports))]
pub(crate) fn stands_too(claim: &Claim, statement: &Statement, accepts: bool) -> bool
    requires { IsTrue accepts ↔ Stands Accepts claim.now statement.now.pledges }
    ensures { IsTrue result ↔ Stands VotesOrAccepts claim.now statement.now.pledges }
{
    if accepts {
        return true;
    }
    stands(Support::VotesOrAccepts, claim, statement)
}

/// Whether the statement accepts each commit of the range. Testing both ends is enough.
fn accepts_range(statement: &Statement, low: u32, high: u32, value: &Value) -> bool
    ensures { IsTrue result ↔ AcceptsCommits statement.now.pledges low high value.now }
{
    high < low || (statement.accepts_commit(low, value) && statement.accepts_commit(high, value))
}

/// Whether for each commit of the range, by itself, the statement votes for it or accepts it. Testing both ends is enough.
fn supports_range(statement: &Statement, low: u32, high: u32, value: &Value) -> bool
    ensures { IsTrue result ↔ SupportsCommits statement.now.pledges low high value.now }
{
    high < low || (supports_one(statement, low, value) && supports_one(statement, high, value))
}

ghost use Rattle.scp_vote.specs.Claims.{SupportsCommit};

fn supports_one(statement: &Statement, counter: u32, value: &Value) -> bool
    ensures { IsTrue result ↔ SupportsCommit statement.now.pledges counter value.now }
{
    statement.votes_commit(counter, value) || statement.accepts_commit(counter, value)
}
