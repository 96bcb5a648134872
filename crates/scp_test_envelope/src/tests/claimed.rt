//! What statements vote for and accept.
use super::*;
use std::process::Abort;
use std::test::*;

const MAX: u32 = u32::MAX;

/// What a claim is about: a ballot to prepare, a counter and a value to commit, or a value to nominate.
#[derive(Clone, Copy, Debug)]
enum Of {
    Prepare,
    Commit,
    Nominate,
}

/// Whether the statement votes for this claim about the ballot, and whether it accepts it.
fn claims(statement: &Statement, of: Of, ballot: &Ballot) -> (bool, bool) {
    let counter = ballot.counter;
    let value = ballot.value.get();
    match of {
        Of::Prepare => (
            statement.votes_prepare(ballot),
            statement.accepts_prepare(ballot),
        ),
        Of::Commit => (
            statement.votes_commit(counter, value),
            statement.accepts_commit(counter, value),
        ),
        Of::Nominate => (statement.votes_value(value), statement.accepts_value(value)),
    }
}

/// Whether the statement makes this claim about the ballot as the row says: whether it votes for it, and whether it accepts it.
fn is_claimed(
    alloc: Global,
    statement: &Statement,
    of: Of,
    row: &(Short, bool, bool),
) -> Result<bool, Fault> {
    let (short, votes, accepts) = row;
    let ballot = ballot(alloc, *short)?;
    Ok(claims(statement, of, &ballot) == (*votes, *accepts))
}

/// A statement, and what it claims about some ballots.
type Claims = (Said, Of, &'static [(Short, bool, bool)]);

const PREPARED: [Claims; 10] = [
    // up to its ballot
    (
        Said::Prepare((3, 5), None, None, 0, 0),
        Of::Prepare,
        &[
            ((0, 5), true, false),
            ((2, 5), true, false),
            ((3, 5), true, false),
            ((4, 5), false, false),
            ((2, 4), false, false),
            ((3, 4), false, false),
            ((MAX, 5), false, false),
        ],
    ),
    (
        Said::Prepare((MAX, 5), None, None, 0, 0),
        Of::Prepare,
        &[((MAX, 5), true, false), ((MAX, 4), false, false)],
    ),
    // one of prepared and preparedPrime is enough
    (
        Said::Prepare((9, 9), Some((MAX, 5)), None, 0, 0),
        Of::Prepare,
        &[
            ((0, 5), false, true),
            ((MAX, 5), false, true),
            ((MAX, 4), false, false),
        ],
    ),
    (
        Said::Prepare((9, 9), None, Some((MAX, 4)), 0, 0),
        Of::Prepare,
        &[
            ((0, 4), false, true),
            ((MAX, 4), false, true),
            ((MAX, 5), false, false),
        ],
    ),
    (
        Said::Prepare((9, 9), Some((3, 5)), Some((2, 4)), 0, 0),
        Of::Prepare,
        &[
            ((3, 5), false, true),
            ((1, 5), false, true),
            ((4, 5), false, false),
            ((2, 4), false, true),
            ((3, 4), false, false),
            ((1, 6), false, false),
            ((1, 9), true, false),
        ],
    ),
    // a CONFIRM votes for each counter, and accepts some
    (
        Said::Confirm((3, 5), 4, 2, 3),
        Of::Prepare,
        &[
            ((0, 5), true, true),
            ((4, 5), true, true),
            ((5, 5), true, false),
            ((MAX, 5), true, false),
            ((1, 4), false, false),
        ],
    ),
    (
        Said::Confirm((3, 5), 0, 2, 3),
        Of::Prepare,
        &[((0, 5), true, true), ((1, 5), true, false)],
    ),
    (
        Said::Confirm((3, 5), MAX, 2, 3),
        Of::Prepare,
        &[((MAX, 5), true, true), ((MAX, 4), false, false)],
    ),
    // an EXTERNALIZE accepts each counter
    (
        Said::Externalize((3, 5), 4),
        Of::Prepare,
        &[
            ((0, 5), false, true),
            ((3, 5), false, true),
            ((MAX, 5), false, true),
            ((3, 4), false, false),
        ],
    ),
    (
        Said::Nominate(b"a", b"a"),
        Of::Prepare,
        &[((1, b'a'), false, false)],
    ),
];

const COMMITTED: [Claims; 11] = [
    // a PREPARE votes for those within its range
    (
        Said::Prepare((3, 5), None, None, 0, 3),
        Of::Commit,
        &[
            ((0, 5), false, false),
            ((2, 5), false, false),
            ((3, 5), false, false),
        ],
    ),
    (
        Said::Prepare((3, 5), None, None, 2, 3),
        Of::Commit,
        &[
            ((1, 5), false, false),
            ((2, 5), true, false),
            ((3, 5), true, false),
            ((4, 5), false, false),
            ((2, 4), false, false),
        ],
    ),
    (
        Said::Prepare((3, 5), None, None, 3, 3),
        Of::Commit,
        &[
            ((2, 5), false, false),
            ((3, 5), true, false),
            ((4, 5), false, false),
            ((MAX, 5), false, false),
        ],
    ),
    (
        Said::Prepare((3, 5), None, None, 1, MAX),
        Of::Commit,
        &[((MAX, 5), true, false)],
    ),
    (
        Said::Prepare((MAX, 5), None, None, MAX, MAX),
        Of::Commit,
        &[((MAX - 1, 5), false, false), ((MAX, 5), true, false)],
    ),
    // a CONFIRM from its lowest on
    (
        Said::Confirm((9, 5), 9, 2, 3),
        Of::Commit,
        &[
            ((1, 5), false, false),
            ((2, 5), true, true),
            ((3, 5), true, true),
            ((4, 5), true, false),
            ((MAX, 5), true, false),
            ((2, 4), false, false),
        ],
    ),
    (
        Said::Confirm((9, 5), 9, 3, 3),
        Of::Commit,
        &[
            ((2, 5), false, false),
            ((3, 5), true, true),
            ((4, 5), true, false),
        ],
    ),
    (
        Said::Confirm((9, 5), 9, 0, MAX),
        Of::Commit,
        &[((0, 5), true, true), ((MAX, 5), true, true)],
    ),
    // an EXTERNALIZE accepts from its commit on
    (
        Said::Externalize((3, 5), 4),
        Of::Commit,
        &[
            ((2, 5), false, false),
            ((3, 5), false, true),
            ((5, 5), false, true),
            ((MAX, 5), false, true),
            ((3, 4), false, false),
        ],
    ),
    (
        Said::Externalize((MAX, 5), MAX),
        Of::Commit,
        &[((MAX - 1, 5), false, false), ((MAX, 5), false, true)],
    ),
    (
        Said::Nominate(b"a", b"a"),
        Of::Commit,
        &[((1, b'a'), false, false)],
    ),
];

const NOMINATED: [Claims; 4] = [
    (
        Said::Nominate(b"ab", b"bc"),
        Of::Nominate,
        &[
            ((0, b'a'), true, false),
            ((0, b'b'), true, true),
            ((0, b'c'), false, true),
            ((0, b'd'), false, false),
        ],
    ),
    // ballot statements claim no values
    (
        Said::Prepare((3, 5), Some((3, 5)), None, 1, 3),
        Of::Nominate,
        &[((0, 5), false, false)],
    ),
    (
        Said::Confirm((3, 5), 3, 1, 3),
        Of::Nominate,
        &[((0, 5), false, false)],
    ),
    (
        Said::Externalize((3, 5), 3),
        Of::Nominate,
        &[((0, 5), false, false)],
    ),
];

/// Each statement claims what its rows say.
fn expect_claims(rt: &impl Abort, alloc: Global, each: &[Claims]) -> Result<(), Fault> {
    for (said, of, rows) in each {
        let statement = stated(alloc, *said)?;
        for row in *rows {
            assert!(rt;
                is_claimed(alloc, &statement, *of, row)?,
                "{said:?} {of:?} {row:?}"
            );
        }
    }
    Ok(())
}

#[test]
fn statements_claim_what_they_say(rt: HostRuntime) -> Result<(), Fail> {
    expect_claims(&rt, rt.alloc(), &PREPARED)?;
    expect_claims(&rt, rt.alloc(), &COMMITTED)?;
    expect_claims(&rt, rt.alloc(), &NOMINATED)?;
    Ok(())
}
