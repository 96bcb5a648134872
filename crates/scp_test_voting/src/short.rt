//! Statements in short, all of slot 7. A node is one byte; a ballot is its counter and its
//! value of one byte; a quorum set is its threshold and its nodes.
use scp_nominate::below::envelope::*;
use scp_nominate::below::quorum::{QuorumSet, SaneSet};
use scp_nominate::below::types::{Ballot, Fault, Hash, NodeId, SharedValue, Slot, Value};
use std::alloc::Global;
use std::sync::Arc;

pub type ShortBallot = (u32, u8);

pub type ShortSet = (u32, &'static [u8]);

pub type Values = &'static [&'static [u8]];

/// What a node says.
#[derive(Clone, Copy, Debug)]
pub enum Said {
    /// Ballot, prepared, nC and nH.
    Prepare(ShortBallot, Option<ShortBallot>, u32, u32),
    /// Ballot, nPrepared, nCommit and nH.
    Confirm(ShortBallot, u32, u32, u32),
    /// Commit and nH.
    Externalize(ShortBallot, u32),
    /// Votes, and what is accepted.
    Nominate(Values, Values),
}

pub fn value(alloc: Global, bytes: &[u8]) -> Result<Value, Fault> {
    Ok(Value::new(Vec::from_slice(alloc, bytes)?))
}

pub fn ballot(alloc: Global, short: ShortBallot) -> Result<Ballot, Fault> {
    Ok(Ballot {
        counter: short.0,
        value: SharedValue::new(alloc, value(alloc, &[short.1])?)?,
    })
}

fn list(alloc: Global, values: Values) -> Result<ValueList, Fault> {
    let mut copied = Vec::new(alloc);
    for bytes in values {
        copied.push(value(alloc, bytes)?)?;
    }
    Ok(ValueList::new(copied))
}

fn pledges(alloc: Global, said: Said) -> Result<Pledges, Fault> {
    let set_hash = Hash([0; 32]);
    match said {
        Said::Prepare(short, prepared, n_commit, n_high) => Ok(Pledges::Prepare(Prepare {
            set_hash,
            ballot: ballot(alloc, short)?,
            prepared: match prepared {
                Some(short) => Some(ballot(alloc, short)?),
                None => None,
            },
            prepared_prime: None,
            n_commit,
            n_high,
        })),
        Said::Confirm(short, n_prepared, n_commit, n_high) => Ok(Pledges::Confirm(Confirm {
            ballot: ballot(alloc, short)?,
            n_prepared,
            n_commit,
            n_high,
            set_hash,
        })),
        Said::Externalize(short, n_high) => Ok(Pledges::Externalize(Externalize {
            commit: ballot(alloc, short)?,
            n_high,
            set_hash,
        })),
        Said::Nominate(votes, accepted) => Ok(Pledges::Nominate(Nominate {
            set_hash,
            votes: list(alloc, votes)?,
            accepted: list(alloc, accepted)?,
        })),
    }
}

/// What the node says, with its number as the signature.
pub fn envelope(alloc: Global, number: u8, said: Said) -> Result<SharedEnvelope, Fault> {
    let signature = Signature::new(Vec::from_slice(alloc, &[number])?);
    let statement = Statement {
        node: NodeId([number; 32]),
        slot: Slot(7),
        pledges: pledges(alloc, said)?,
    };
    SharedEnvelope::new(
        alloc,
        Envelope {
            statement,
            signature,
        },
    )
}

pub fn set(alloc: Global, short: ShortSet) -> Result<Arc<SaneSet>, Fault> {
    let mut nodes = Vec::new(alloc);
    for number in short.1 {
        nodes.push(NodeId([*number; 32]))?;
    }
    match QuorumSet::of_nodes(short.0, nodes).into_sane() {
        Ok(sane) => Ok(Arc::new(alloc, sane)?),
        Err((fault, _)) => Err(fault),
    }
}
