//! What statements claim; whose statements count on a board; and which claims are accepted and confirmed.
use crate::short::{Said, ShortSet, ballot, envelope, set, value};
use scp_nominate::below::types::{Fault, NodeId, SharedValue, Slot};
use scp_nominate::below::vote::*;
use std::alloc::Global;
use std::collections::BTreeSet;
use std::process::Abort;
use std::test::*;

/// A node, what it says, and the set that is delivered with it.
type Put = (u8, Said, ShortSet);

/// What is claimed.
#[derive(Clone, Copy, Debug)]
enum Claimed {
    Prepared(u32, u8),
    Committed(u32, u32, u8),
    Nominated(u8),
}

/// A claim, whether it is accepted, and its certificate if it is confirmed.
type Case = (Claimed, bool, Option<&'static [u8]>);

fn claim(alloc: Global, claimed: Claimed) -> Result<Claim, Fault> {
    match claimed {
        Claimed::Prepared(counter, byte) => Ok(Claim::Prepared(ballot(alloc, (counter, byte))?)),
        Claimed::Committed(low, high, byte) => {
            let value = SharedValue::new(alloc, value(alloc, &[byte])?)?;
            Ok(Claim::Committed(low, high, value))
        }
        Claimed::Nominated(byte) => Ok(Claim::Nominated(value(alloc, &[byte])?)),
    }
}

/// What is said, what is claimed, whether it votes for or accepts that, and whether it accepts it.
const STANDS: [(Said, Claimed, bool, bool); 14] = [
    (LOWER, Claimed::Prepared(3, 5), true, false),
    (LOWER, Claimed::Prepared(4, 5), false, false),
    (LOWER, Claimed::Prepared(1, 4), true, true),
    (
        Said::Prepare((5, 5), Some((5, 5)), 2, 4),
        Claimed::Committed(2, 4, 5),
        true,
        false,
    ),
    (
        Said::Prepare((5, 5), Some((5, 5)), 2, 4),
        Claimed::Committed(2, 5, 5),
        false,
        false,
    ),
    (
        Said::Prepare((5, 5), Some((5, 5)), 0, 4),
        Claimed::Committed(0, 0, 5),
        false,
        false,
    ),
    (COMMITS, Claimed::Prepared(9, 5), true, false),
    (COMMITS, Claimed::Committed(3, 9, 5), true, false),
    (COMMITS, Claimed::Committed(2, 4, 5), true, true),
    (COMMITS, Claimed::Committed(9, 1, 4), true, true),
    (DECIDES, Claimed::Prepared(u32::MAX, 5), true, true),
    (DECIDES, Claimed::Committed(3, u32::MAX, 5), true, true),
    (DECIDES, Claimed::Committed(2, 4, 5), false, false),
    (
        Said::Nominate(&[&[5]], &[&[6]]),
        Claimed::Nominated(5),
        true,
        false,
    ),
];

const LOWER: Said = Said::Prepare((3, 5), Some((2, 4)), 0, 0);

const COMMITS: Said = Said::Confirm((5, 5), 3, 2, 4);

const DECIDES: Said = Said::Externalize((3, 5), 4);

/// Whether the statement supports and accepts the claim as the case says, and is of the claim's kind.
fn is_standing(alloc: Global, case: (Said, Claimed, bool, bool)) -> Result<bool, Fault> {
    let (said, claimed, supports, accepts) = case;
    let envelope = envelope(alloc, 1, said)?;
    let claim = claim(alloc, claimed)?;
    let statement = &envelope.get().statement;
    Ok(
        stands(Support::VotesOrAccepts, &claim, statement) == supports
            && stands(Support::Accepts, &claim, statement) == accepts
            && claim.kind() == kind_of_pledges(&statement.pledges),
    )
}

#[test]
fn statements_stand_by_claims(rt: HostRuntime) -> Result<(), Fail> {
    for case in STANDS {
        assert!(rt; is_standing(rt.alloc(), case)?, "at {case:?}");
    }
    Ok(())
}

fn put(alloc: Global, board: &mut Board, put: Put) -> Result<(), Fault> {
    let (number, said, short) = put;
    let delivered = set(alloc, short)?;
    board.put(envelope(alloc, number, said)?, delivered)
}

/// The board of node 1 with this set, after these puts.
fn board_of(alloc: Global, local: ShortSet, puts: &[Put]) -> Result<Board, Fault> {
    let mut board = Board::new(alloc, NodeId([1; 32]), set(alloc, local)?);
    for one in puts {
        put(alloc, &mut board, *one)?;
    }
    Ok(board)
}

/// Whether these are exactly the nodes, or there are none on either side.
fn are_nodes(found: &Option<BTreeSet<NodeId>>, want: Option<&[u8]>) -> bool {
    match (found, want) {
        (Some(found), Some(want)) => {
            found.len() == want.len()
                && want
                    .iter()
                    .all(|number| found.contains(&NodeId([*number; 32])))
        }
        (None, None) => true,
        _ => false,
    }
}

/// Whether the board answers as the case says.
fn is_case(alloc: Global, board: &Board, case: Case) -> Result<bool, Fault> {
    let (claimed, accepted, certificate) = case;
    let claim = claim(alloc, claimed)?;
    Ok(
        board.accepted(&claim)? == accepted
            && board.confirmed(&claim)? == certificate.is_some()
            && are_nodes(&board.certificate(&claim)?, certificate),
    )
}

/// The first case that the board of these puts doesn't answer as the case says.
fn first_wrong(
    alloc: Global,
    local: ShortSet,
    puts: &[Put],
    cases: &[Case],
) -> Result<Option<Case>, Fault> {
    let board = board_of(alloc, local, puts)?;
    for case in cases {
        if !is_case(alloc, &board, *case)? {
            return Ok(Some(*case));
        }
    }
    Ok(None)
}

/// All three of nodes 1, 2 and 3.
const ALL: ShortSet = (3, &[1, 2, 3]);

/// Two of nodes 1, 2 and 3.
const TWO: ShortSet = (2, &[1, 2, 3]);

/// A set that no board here satisfies.
const FAR: ShortSet = (1, &[9]);

/// Ballot 2 of value 5 is voted for.
const VOTES: Said = Said::Prepare((2, 5), None, 0, 0);

/// Ballot 2 of value 5 is accepted as prepared.
const ACCEPTS: Said = Said::Prepare((2, 5), Some((2, 5)), 0, 0);

const PREPARED: Claimed = Claimed::Prepared(2, 5);

/// Boards of node 1, each with the local set, the puts and the answers.
const BOARDS: [(ShortSet, &[Put], &[Case]); 14] = [
    // nobody says anything
    (TWO, &[], &[(PREPARED, false, None)]),
    // a quorum that votes accepts, and confirms nothing
    (
        TWO,
        &[(1, VOTES, TWO), (2, VOTES, TWO)],
        &[(PREPARED, true, None)],
    ),
    // two of three don't wait for the third, which needs more
    (
        TWO,
        &[(1, VOTES, TWO), (2, VOTES, ALL)],
        &[(PREPARED, false, None)],
    ),
    // a quorum has this node
    (
        TWO,
        &[(2, VOTES, TWO), (3, VOTES, TWO)],
        &[(PREPARED, false, None)],
    ),
    // voters that block make nothing accepted; acceptors that block do, and they confirm nothing
    (ALL, &[(2, VOTES, ALL)], &[(PREPARED, false, None)]),
    (ALL, &[(2, ACCEPTS, ALL)], &[(PREPARED, true, None)]),
    // a quorum that accepts confirms; node 3, whose set isn't satisfied, isn't in it
    (
        TWO,
        &[(1, ACCEPTS, TWO), (2, ACCEPTS, TWO), (3, ACCEPTS, FAR)],
        &[(PREPARED, true, Some(&[1, 2]))],
    ),
    // for the own statement the local set counts, whatever is delivered with it
    (
        TWO,
        &[(1, ACCEPTS, FAR), (2, ACCEPTS, TWO)],
        &[(PREPARED, true, Some(&[1, 2]))],
    ),
    (
        TWO,
        &[(1, VOTES, (1, &[1])), (3, VOTES, FAR)],
        &[(PREPARED, false, None)],
    ),
    // for another node's EXTERNALIZE that node alone counts
    (
        TWO,
        &[(1, ACCEPTS, TWO), (3, Said::Externalize((1, 5), 1), FAR)],
        &[(PREPARED, true, Some(&[1, 3]))],
    ),
    // 2 of {1, 2}, 2 of {2, 3}, 1 of {3}: node 1 needs all three
    (
        (2, &[1, 2]),
        &[(1, ACCEPTS, (2, &[1, 2])), (2, ACCEPTS, (2, &[2, 3]))],
        &[(PREPARED, true, None)],
    ),
    (
        (2, &[1, 2]),
        &[
            (1, ACCEPTS, (2, &[1, 2])),
            (2, ACCEPTS, (2, &[2, 3])),
            (3, ACCEPTS, (1, &[3])),
        ],
        &[(PREPARED, true, Some(&[1, 2, 3]))],
    ),
    // each claim is accepted and confirmed once; an empty range asks nothing of a statement
    (
        TWO,
        &BOTH_KINDS,
        &[
            (Claimed::Nominated(5), true, Some(&[1, 2])),
            (Claimed::Nominated(4), false, None),
            (Claimed::Prepared(3, 5), true, Some(&[1, 2])),
            (Claimed::Prepared(4, 5), true, None),
            (Claimed::Committed(4, 6, 5), true, Some(&[1, 2])),
            (Claimed::Committed(4, 7, 5), true, None),
            (Claimed::Committed(2, 6, 5), false, None),
            (Claimed::Committed(6, 4, 8), true, Some(&[1, 2])),
        ],
    ),
    // no two quorums confirm a range: nodes 1 and 2 accept its low end, nodes 1 and 3 its high end, and only node 1 accepts all of it
    (
        TWO,
        &[
            (1, Said::Confirm((9, 5), 9, 2, 8), TWO),
            (2, Said::Confirm((9, 5), 9, 2, 4), TWO),
            (3, Said::Confirm((9, 5), 9, 6, 8), TWO),
        ],
        &[
            (Claimed::Committed(2, 2, 5), true, Some(&[1, 2])),
            (Claimed::Committed(8, 8, 5), true, Some(&[1, 3])),
            (Claimed::Committed(2, 8, 5), true, None),
        ],
    ),
];

/// Nodes 1 and 2 nominate, accept and commit.
const BOTH_KINDS: [Put; 4] = [
    (1, Said::Nominate(&[&[5]], &[&[5]]), TWO),
    (2, Said::Nominate(&[&[5]], &[&[5]]), TWO),
    (1, Said::Confirm((9, 5), 4, 2, 6), TWO),
    (2, Said::Confirm((9, 5), 3, 4, 9), TWO),
];

/// Node 2 goes from one set to another and back; node 3 is in its first group. Only node 2 is moved.
const MOVES: [Put; 6] = [
    (1, ACCEPTS, TWO),
    (2, ACCEPTS, ALL),
    (3, VOTES, ALL),
    (2, ACCEPTS, FAR),
    (2, ACCEPTS, (1, &[2])),
    (2, ACCEPTS, ALL),
];

/// What is confirmed after this many of the moves.
const MOVED: [(usize, Option<&[u8]>); 4] = [(3, None), (4, None), (5, Some(&[1, 2])), (6, None)];

#[test]
fn boards_answer_as_worked_out(rt: HostRuntime) -> Result<(), Fail> {
    for (local, puts, cases) in &BOARDS {
        let wrong = first_wrong(rt.alloc(), *local, puts, cases)?;
        assert!(rt; wrong.is_none(), "{local:?} {puts:?} {wrong:?}");
    }
    for (count, certificate) in MOVED {
        let case = (PREPARED, true, certificate);
        let wrong = first_wrong(rt.alloc(), TWO, &MOVES[..count], &[case])?;
        assert!(rt; wrong.is_none(), "after {count}");
    }
    Ok(())
}

/// Whether the node's envelope of this kind is by this node, on slot 7, with the node's signature.
fn is_kept(board: &Board, kind: StatementKind, number: u8) -> bool {
    match board.statement(kind, &NodeId([number; 32])) {
        Some(kept) => {
            kept.statement.slot == Slot(7)
                && kept.statement.node == NodeId([number; 32])
                && kept.signature.as_slice() == [number].as_slice()
        }
        None => false,
    }
}

#[test]
fn a_board_tells_what_was_put(rt: HostRuntime) -> Result<(), Fail> {
    let board = board_of(rt.alloc(), TWO, &BOTH_KINDS[..3])?;
    for (kind, number, kept) in [
        (StatementKind::Nomination, 1, true),
        (StatementKind::Nomination, 2, true),
        (StatementKind::Balloting, 1, true),
        (StatementKind::Balloting, 2, false),
    ] {
        assert!(rt; is_kept(&board, kind, number) == kept);
    }
    assert!(rt; board.own(StatementKind::Balloting).is_some());
    assert_eq!(rt; board.statements(StatementKind::Nomination).len(), 2);
    assert_eq!(rt; board.statements(StatementKind::Balloting).len(), 1);
    assert!(rt; board.me() == NodeId([1; 32]));
    assert_eq!(rt; board.local().set().threshold(), 2);
    Ok(())
}

/// Puts what node 2 says with its own set. A put that runs out of memory leaves nothing, and is made again.
fn put_again(rt: &impl Abort, alloc: Global, board: &mut Board) -> Result<(), Fault> {
    match put(alloc, board, (2, ACCEPTS, (1, &[2]))) {
        Err(Fault::NoMemory) => {
            assert!(rt; !is_kept(board, StatementKind::Balloting, 2));
            put(alloc, board, (2, ACCEPTS, (1, &[2])))
        }
        answer => answer,
    }
}

/// Whether the board answers as the case says. An answer that runs out of memory is asked for again.
fn is_case_again(alloc: Global, board: &Board, case: Case) -> Result<bool, Fault> {
    match is_case(alloc, board, case) {
        Err(Fault::NoMemory) => is_case(alloc, board, case),
        answer => answer,
    }
}

#[test]
fn a_refused_call_is_made_again(rt: HostRuntime) -> Result<(), Fail> {
    let mut board = board_of(rt.alloc(), TWO, &[(1, ACCEPTS, TWO)])?;
    put_again(&rt, rt.alloc(), &mut board)?;
    let case = (PREPARED, true, Some([1, 2].as_slice()));
    assert!(rt; is_case_again(rt.alloc(), &board, case)?);
    Ok(())
}
