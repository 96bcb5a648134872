//! Nodes, quorum sets and messages.
use scp_apply::below::envelope::{Envelope, Pledges, Signature, Statement};
use scp_apply::below::pending::Pending;
use scp_apply::below::quorum::{QuorumSet, SaneSet};
use scp_apply::below::types::{ConnId, Fault, Hash, NodeId, Seq, Slot, Value};
use scp_apply::below::wire::{BoxedEnvelope, Carried, FittingMessage, Inbound, Message};
use std::alloc::Global;
use std::sync::Arc;

pub const ME: NodeId = NodeId([1; 32]);

pub const TWO: NodeId = NodeId([2; 32]);

pub const THREE: NodeId = NodeId([3; 32]);

pub const FOUR: NodeId = NodeId([4; 32]);

/// One operation: put a 1.
const PUT_A: [u8; 24] = [
    0, 0, 0, 1, 0, 0, 0, 0, 0, 0, 0, 1, 97, 0, 0, 0, 0, 0, 0, 1, 49, 0, 0, 0,
];

/// The value that puts a 1.
pub fn value(alloc: Global) -> Result<Value, Fault> {
    Ok(Value::new(Vec::from_slice(alloc, &PUT_A)?))
}

/// A life of the link from a node to node 1.
pub fn conn(from: NodeId, life: u32) -> ConnId {
    ConnId { from, to: ME, life }
}

/// The quorum set of this number: 1 is node 1's own, both of nodes 1 and 2; each other is node 2 alone.
pub fn set(alloc: Global, number: u8) -> Result<QuorumSet, Fault> {
    let (threshold, nodes) = match number {
        1 => (2, [ME, TWO].as_slice()),
        _ => (1, [TWO].as_slice()),
    };
    Ok(QuorumSet::of_nodes(threshold, Vec::from_slice(alloc, nodes)?))
}

pub fn hash(alloc: Global, number: u8) -> Result<Hash, Fault> {
    set(alloc, number)?.hash()
}

/// Node 1's own set.
pub fn own(alloc: Global) -> Result<Arc<SaneSet>, Fault> {
    match set(alloc, 1)?.into_sane() {
        Ok(own) => Ok(Arc::new(alloc, own)?),
        Err(_) => Err(Fault::NoMemory),
    }
}

/// The pending stage of node 1, with links from nodes 2, 3 and 4.
pub fn stage(alloc: Global) -> Result<Pending, Fault> {
    let own = own(alloc)?;
    let peers = Vec::from_slice(alloc, &[TWO, THREE, FOUR])?;
    Ok(Pending::new(alloc, ME, peers, own))
}

/// What a node says of a slot.
pub fn says(alloc: Global, node: NodeId, slot: u64, pledges: Pledges) -> Result<Message, Fault> {
    let envelope = Envelope {
        statement: Statement {
            node,
            slot: Slot(slot),
            pledges,
        },
        signature: Signature::new(Vec::new(alloc)),
    };
    Ok(Message::Envelope(BoxedEnvelope::new(alloc, envelope)?))
}

/// The message of this number on a connection.
pub fn carried(conn: ConnId, seq: u64, message: Message) -> Result<Inbound, Fault> {
    let Ok(message) = FittingMessage::new(message) else {
        return Err(Fault::TooLong);
    };
    if !message.get().is_carried() {
        return Err(Fault::TooLong);
    }
    Ok(Inbound::Carried(Carried {
        conn,
        seq: Seq(seq),
        message,
    }))
}
