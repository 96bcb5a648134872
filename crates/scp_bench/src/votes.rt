use crate::quorum::{node, set_of, two_thirds};
use scp_slot::below::envelope::{Envelope, Pledges, Prepare, SharedEnvelope, Signature, Statement};
use scp_slot::below::quorum::SaneSet;
use scp_slot::below::types::{Ballot, Fault, SharedValue, Slot, Value};
use scp_slot::below::vote::{Board, Claim};
use std::alloc::Global;
use std::sync::Arc;

/// How many nodes a set of a node's own names.
const OWN: u32 = 100;

/// About as many statements are walked, or nodes of sets looked up, whatever the board's size is.
const WORK: u32 = 1_000_000;

/// Who has which quorum set.
#[derive(Clone, Copy)]
pub enum Sharing {
    /// All nodes share one set, of two thirds of them and one more.
    One,
    /// Each node has a set of its own, of two thirds and one more of the 100 nodes that follow it in a ring.
    Each,
}

/// What was answered.
#[derive(Clone, Copy)]
struct Votes {
    /// How often each question was asked.
    asked: u64,
    accepted: u64,
    confirmed: u64,
}

fn ballot(alloc: Global, counter: u32, byte: u8) -> Result<Ballot, Fault> {
    let value = SharedValue::new(alloc, Value::new(vec![in alloc; byte; 32]?))?;
    Ok(Ballot { counter, value })
}

/// A PREPARE that votes for ballot 2 and accepts ballot 1; each tenth node's is of another value.
fn envelope(alloc: Global, number: u32, set: &SaneSet) -> Result<Envelope, Fault> {
    let byte = if number % 10 == 9 { 6 } else { 5 };
    let pledges = Pledges::Prepare(Prepare {
        set_hash: set.hash(),
        ballot: ballot(alloc, 2, byte)?,
        prepared: Some(ballot(alloc, 1, byte)?),
        prepared_prime: None,
        n_commit: 0,
        n_high: 0,
    });
    Ok(Envelope {
        statement: Statement {
            node: node(number),
            slot: Slot(1),
            pledges,
        },
        signature: Signature::new(Vec::new(alloc)),
    })
}

/// The set of a node.
fn set_at(alloc: Global, sharing: Sharing, nodes: u32, number: u32) -> Result<Arc<SaneSet>, Fault> {
    match sharing {
        Sharing::One => set_of(alloc, two_thirds(nodes), 0, nodes, 0),
        Sharing::Each => {
            let len = nodes.min(OWN);
            set_of(alloc, two_thirds(len), number.wrapping_add(1), len, nodes)
        }
    }
}

/// Puts the statement of a node on the board. A set that is shared is delivered with each anew.
fn put(
    alloc: Global,
    board: &mut Board,
    sharing: Sharing,
    nodes: u32,
    number: u32,
) -> Result<(), Fault> {
    let set = set_at(alloc, sharing, nodes, number)?;
    let envelope = SharedEnvelope::new(alloc, envelope(alloc, number, &set)?)?;
    board.put(envelope, set)
}

/// A board of node 0 with a statement of each node.
fn board_of(alloc: Global, sharing: Sharing, nodes: u32) -> Result<Board, Fault> {
    let mut board = Board::new(alloc, node(0), set_at(alloc, sharing, nodes, 0)?);
    for number in 0..nodes {
        put(alloc, &mut board, sharing, nodes, number)?;
    }
    Ok(board)
}

/// How often each question is asked.
fn rounds(sharing: Sharing, nodes: u32) -> u32 {
    let cost = match sharing {
        Sharing::One => nodes,
        Sharing::Each => nodes.saturating_mul(nodes.min(OWN)),
    };
    WORK.checked_div(cost).unwrap_or(0)
}

impl Votes {
    /// Asks of a claim whether it is accepted and whether it is confirmed.
    fn ask(&mut self, board: &Board, claim: &Claim) -> Result<(), Fault> {
        self.asked = self.asked.wrapping_add(1);
        if board.accepted(claim)? {
            self.accepted = self.accepted.wrapping_add(1);
        }
        if board.confirmed(claim)? {
            self.confirmed = self.confirmed.wrapping_add(1);
        }
        Ok(())
    }

    /// Asks so often of each claim, in turn.
    fn ask_all(&mut self, board: &Board, claims: &[Claim], rounds: u32) -> Result<(), Fault> {
        for _ in 0..rounds {
            for claim in claims {
                self.ask(board, claim)?;
            }
        }
        Ok(())
    }
}

/// A ballot that is confirmed as prepared, and one that is voted for.
fn claims(alloc: Global) -> Result<Vec<Claim>, Fault> {
    let mut claims = Vec::with_capacity(alloc, 2)?;
    for counter in 1..=2 {
        claims.push(Claim::Prepared(ballot(alloc, counter, 5)?))?;
    }
    Ok(claims)
}

/// What a board of so many nodes answers.
fn votes_of(alloc: Global, sharing: Sharing, nodes: u32) -> Result<Votes, Fault> {
    let claims = claims(alloc)?;
    let board = board_of(alloc, sharing, nodes)?;
    let mut votes = Votes {
        asked: 0,
        accepted: 0,
        confirmed: 0,
    };
    votes.ask_all(&board, claims.as_slice(), rounds(sharing, nodes))?;
    Ok(votes)
}

/// Asks again and again of two ballots whether they are accepted and confirmed as prepared, over a board of so many nodes, at most
/// 1,000 where they share a set.
pub fn count_votes(alloc: Global, sharing: Sharing, nodes: u32) -> Result<String, Fault> {
    let Votes {
        asked,
        accepted,
        confirmed,
    } = votes_of(alloc, sharing, nodes)?;
    Ok(format!(in alloc; "asked {asked} accepted {accepted} confirmed {confirmed}")?)
}
