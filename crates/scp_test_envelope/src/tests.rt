//! Statements that the tests share, in short. A ballot is its counter and the one byte of its value; a list is one byte for each of its values.
mod claimed;
mod copied;
mod ordered;

use scp_envelope::below::types::{Ballot, Fault, Hash, NodeId, SharedValue, Slot, Value};
use scp_envelope::*;
use std::alloc::Global;

type Short = (u32, u8);

/// A byte that means a value of 4,097 bytes, one more than are encoded.
const OVER: u8 = 255;

/// A statement of node 1 on slot 1.
#[derive(Clone, Copy, Debug)]
enum Said {
    /// Ballot, prepared, preparedPrime, nC and nH.
    Prepare(Short, Option<Short>, Option<Short>, u32, u32),
    /// Ballot, nPrepared, nCommit and nH.
    Confirm(Short, u32, u32, u32),
    /// Commit and nH.
    Externalize(Short, u32),
    /// Votes and accepted.
    Nominate(&'static [u8], &'static [u8]),
}

/// The value of this byte, or a long one.
fn value(alloc: Global, byte: u8) -> Result<Value, Fault> {
    let len = if byte == OVER { 4_097 } else { 1 };
    Ok(Value::new(vec![in alloc; byte; len]?))
}

fn ballot(alloc: Global, short: Short) -> Result<Ballot, Fault> {
    let (counter, byte) = short;
    let value = SharedValue::new(alloc, value(alloc, byte)?)?;
    Ok(Ballot { counter, value })
}

fn optional(alloc: Global, short: Option<Short>) -> Result<Option<Ballot>, Fault> {
    match short {
        Some(short) => Ok(Some(ballot(alloc, short)?)),
        None => Ok(None),
    }
}

fn list(alloc: Global, bytes: &[u8]) -> Result<ValueList, Fault> {
    let mut values = Vec::new(alloc);
    for byte in bytes {
        values.push(value(alloc, *byte)?)?;
    }
    Ok(ValueList::new(values))
}

/// What the statement says, in full.
fn pledges(alloc: Global, said: Said) -> Result<Pledges, Fault> {
    let set_hash = Hash([2; 32]);
    match said {
        Said::Prepare(short, prepared, prime, n_commit, n_high) => Ok(Pledges::Prepare(Prepare {
            set_hash,
            ballot: ballot(alloc, short)?,
            prepared: optional(alloc, prepared)?,
            prepared_prime: optional(alloc, prime)?,
            n_commit,
            n_high,
        })),
        Said::Confirm(short, n_prepared, n_commit, n_high) => Ok(Pledges::Confirm(Confirm {
            ballot: ballot(alloc, short)?,
            n_prepared,
            n_commit,
            n_high,
            set_hash,
        })),
        Said::Externalize(short, n_high) => Ok(Pledges::Externalize(Externalize {
            commit: ballot(alloc, short)?,
            n_high,
            set_hash,
        })),
        Said::Nominate(votes, accepted) => Ok(Pledges::Nominate(Nominate {
            set_hash,
            votes: list(alloc, votes)?,
            accepted: list(alloc, accepted)?,
        })),
    }
}

/// The statement in full.
fn stated(alloc: Global, said: Said) -> Result<Statement, Fault> {
    Ok(Statement {
        node: NodeId([1; 32]),
        slot: Slot(1),
        pledges: pledges(alloc, said)?,
    })
}
