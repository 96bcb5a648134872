//! Messages of node 1, in short.
use scp_outbox::below::envelope::{
    Envelope, Nominate, Pledges, Prepare, Signature, Statement, ValueList,
};
use scp_outbox::below::quorum::QuorumSet;
use scp_outbox::below::types::{Ballot, Fault, Hash, NodeId, SharedValue, Slot, Value};
use scp_outbox::below::wire::{BoxedEnvelope, Message};
use std::alloc::Global;

/// A message. Slots are given by their numbers, and values by their number of bytes.
#[derive(Clone, Copy, Debug)]
pub enum Short {
    /// Asks for the set whose hash is 32 times this byte.
    AsksSet(u8),
    /// A set of this many nodes.
    Set(usize),
    AsksRecord(u64),
    /// The record of a slot, with its value.
    Record(u64, usize),
    /// From a slot on, this many values, each of this many bytes.
    Batch(u64, usize, usize),
    /// On a slot, votes for this many values: one of this many bytes, one of one more, and so on.
    Votes(u64, usize, usize),
    /// On a slot, a ballot with this counter.
    Prepares(u64, u32),
}

/// A value of this many bytes.
fn value(alloc: Global, len: usize) -> Result<Value, Fault> {
    Ok(Value::new(vec![in alloc; 7; len]?))
}

/// This many values: the first of this many bytes, and each with so many more than the one before.
fn values(alloc: Global, count: usize, len: usize, more: usize) -> Result<ValueList, Fault> {
    let mut values = Vec::new(alloc);
    let mut next = len;
    for _ in 0..count {
        values.push(value(alloc, next)?)?;
        next = next.saturating_add(more);
    }
    Ok(ValueList::new(values))
}

/// The message of an envelope of node 1.
fn said(alloc: Global, slot: u64, pledges: Pledges) -> Result<Message, Fault> {
    let envelope = Envelope {
        statement: Statement {
            node: NodeId([1; 32]),
            slot: Slot(slot),
            pledges,
        },
        signature: Signature::new(Vec::new(alloc)),
    };
    Ok(Message::Envelope(BoxedEnvelope::new(alloc, envelope)?))
}

/// The message.
pub fn message(alloc: Global, short: Short) -> Result<Message, Fault> {
    match short {
        Short::AsksSet(byte) => Ok(Message::GetSet(Hash([byte; 32]))),
        Short::Set(count) => {
            let nodes = vec![in alloc; NodeId([5; 32]); count]?;
            Ok(Message::Set(QuorumSet::of_nodes(1, nodes)))
        }
        Short::AsksRecord(slot) => Ok(Message::GetRecord(Slot(slot))),
        Short::Record(slot, len) => Ok(Message::Record(Slot(slot), value(alloc, len)?)),
        Short::Batch(first, count, len) => Ok(Message::Records {
            first: Slot(first),
            values: values(alloc, count, len, 0)?,
        }),
        Short::Votes(slot, count, len) => {
            let nominate = Nominate {
                set_hash: Hash([0; 32]),
                votes: values(alloc, count, len, 1)?,
                accepted: ValueList::new(Vec::new(alloc)),
            };
            said(alloc, slot, Pledges::Nominate(nominate))
        }
        Short::Prepares(slot, counter) => {
            let ballot = Ballot {
                counter,
                value: SharedValue::new(alloc, value(alloc, 1)?)?,
            };
            let prepare = Prepare {
                set_hash: Hash([0; 32]),
                ballot,
                prepared: None,
                prepared_prime: None,
                n_commit: 0,
                n_high: 0,
            };
            said(alloc, slot, Pledges::Prepare(prepare))
        }
    }
}
