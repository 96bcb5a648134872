//! Events of a node, and nodes that are lent to a test's closure.
use Act::*;
use Seen::*;
use scp_core::below::envelope::{
    Envelope, Externalize, Nominate, Pledges, Signature, Statement, ValueList,
};
use scp_core::below::quorum::QuorumSet;
use scp_core::below::types::{Ballot, ConnId, Fault, NodeId, SharedValue, Slot, Value};
use scp_core::below::wire::{BoxedEnvelope, Message, encode};
use scp_core::{
    Bytes, Capacities, Cause, Command, Config, DropCause, Event, Fate, KvDriver, Node, Peers,
    Reply, Verdict,
};
use std::alloc::Global;

/// What happens at node 1, whose link 0 is from node 2. A quorum set goes by its number: 1 is the node's own, 2 of both nodes; 2 is 1 of node
/// 2; 3 is the node alone; and 0, which isn't sane, is 0 of node 2.
#[derive(Clone, Copy)]
pub enum Act {
    Open(u8),
    Close(u8),
    /// A record of this slot, that puts a 1.
    Record(u64),
    /// A batch of three such records, the first of this slot.
    Records(u64),
    GetRecord,
    /// A nomination of node 2 for slot 1 that names this set.
    Names(u8),
    Set(u8),
    /// An EXTERNALIZE of node 2 for slot 1 that names the node's own set.
    Externalizes,
    /// A value is proposed for this slot.
    Propose(u64),
    /// Link 0 is asked for the record of this slot.
    Ask(u64),
    /// A link that isn't there is asked for a record.
    AskNobody,
    Tick,
    ReaderTake(u8),
    ReaderPut(u8),
    PendTake,
    PendPut,
    SlotTake,
    SlotPut,
    ApplyTake,
    Drain(u8),
}

/// A reply, without the bytes that it sends.
#[derive(Clone, Copy, PartialEq, Eq)]
pub enum Said {
    Sent,
    Accepted,
    Moved,
    Idle,
    Blocked,
    Full,
    NotOpen,
    AlreadyOpen,
    LivesSpent,
    NoLink,
    Failed,
    JournalFull,
    NoMemory,
}

/// What became of a message, by its number, or of a connection.
#[derive(Clone, Copy, PartialEq, Eq)]
pub enum Seen {
    Taken(u64, Verdict),
    Dropped(u64, DropCause),
    Closed(Cause),
}

pub const ME: NodeId = NodeId([1; 32]);

pub const PEER: NodeId = NodeId([2; 32]);

/// The first life of link 0.
pub const CONN: ConnId = ConnId {
    from: PEER,
    to: ME,
    life: 1,
};

/// One operation: put a 1.
const PUT_A: [u8; 24] = [
    0, 0, 0, 1, 0, 0, 0, 0, 0, 0, 0, 1, 97, 0, 0, 0, 0, 0, 0, 1, 49, 0, 0, 0,
];

pub const ONE: Capacities = Capacities {
    link: 1,
    inbox: 1,
    ready: 1,
    decided: 1,
};

pub const MANY: Capacities = Capacities {
    link: 64,
    inbox: 64,
    ready: 64,
    decided: 64,
};

/// Each stage, in the pipeline's order.
pub const STAGES: [Act; 7] = [
    ReaderTake(0),
    ReaderPut(0),
    PendTake,
    PendPut,
    SlotTake,
    SlotPut,
    ApplyTake,
];

/// The set of this number.
fn set(alloc: Global, number: u8) -> Result<QuorumSet, Fault> {
    Ok(match number {
        0 => QuorumSet::of_nodes(0, Vec::from_slice(alloc, &[PEER])?),
        1 => QuorumSet::of_nodes(2, Vec::from_slice(alloc, &[ME, PEER])?),
        3 => QuorumSet::of_nodes(1, Vec::from_slice(alloc, &[ME])?),
        _ => QuorumSet::of_nodes(1, Vec::from_slice(alloc, &[PEER])?),
    })
}

/// The configuration of node 1 with this set.
pub fn config(
    alloc: Global,
    number: u8,
    peers: &[NodeId],
    capacities: Capacities,
) -> Result<Config, Fault> {
    let peers = Peers::new(Vec::from_slice(alloc, peers)?);
    Ok(Config {
        me: ME,
        set: set(alloc, number)?,
        peers,
        capacities,
    })
}

/// Whether the closure holds of a new node with this set and one link. No test owns a node: the proof of dropping one is here, once.
pub fn is_so<F: FnOnce(&mut Node) -> Result<bool, Fault>>(
    alloc: Global,
    number: u8,
    capacities: Capacities,
    told: F,
) -> Result<bool, Fault>
    requires { F.IsAlwaysCallable told }
{
    let config = config(alloc, number, &[PEER], capacities)?;
    let mut node = Node::new(alloc, config, KvDriver)?;
    told(&mut node)
}

/// The value that puts a 1.
fn value(alloc: Global) -> Result<Value, Fault> {
    Ok(Value::new(Vec::from_slice(alloc, &PUT_A)?))
}

/// This many such values.
fn values(alloc: Global, count: usize) -> Result<ValueList, Fault> {
    let mut values = Vec::new(alloc);
    for _ in 0..count {
        values.push(value(alloc)?)?;
    }
    Ok(ValueList::new(values))
}

/// A nomination that names this set.
fn nominates(alloc: Global, number: u8) -> Result<Pledges, Fault> {
    let set_hash = set(alloc, number)?.hash()?;
    Ok(Pledges::Nominate(Nominate {
        set_hash,
        votes: values(alloc, 1)?,
        accepted: ValueList::new(Vec::new(alloc)),
    }))
}

/// An EXTERNALIZE that names the node's own set.
fn externalizes(alloc: Global) -> Result<Pledges, Fault> {
    let set_hash = set(alloc, 1)?.hash()?;
    let value = SharedValue::new(alloc, value(alloc)?)?;
    Ok(Pledges::Externalize(Externalize {
        commit: Ballot { counter: 1, value },
        n_high: 1,
        set_hash,
    }))
}

/// What node 2 says of slot 1.
fn says(alloc: Global, pledges: Pledges) -> Result<Message, Fault> {
    let envelope = Envelope {
        statement: Statement {
            node: PEER,
            slot: Slot(1),
            pledges,
        },
        signature: Signature::new(Vec::new(alloc)),
    };
    Ok(Message::Envelope(BoxedEnvelope::new(alloc, envelope)?))
}

/// The message is sent on link 0.
fn sends(alloc: Global, message: &Message) -> Result<Event, Fault> {
    Ok(Event::Send(0, Bytes::new(encode(alloc, message)?)))
}

impl Act {
    pub fn event(self, alloc: Global) -> Result<Event, Fault> {
        Ok(match self {
            Open(link) => Event::Open(link),
            Close(link) => Event::Close(link),
            Record(slot) => {
                return sends(alloc, &Message::Record(Slot(slot), value(alloc)?));
            }
            Records(first) => {
                let values = values(alloc, 3)?;
                let first = Slot(first);
                return sends(alloc, &Message::Records { first, values });
            }
            GetRecord => return sends(alloc, &Message::GetRecord(Slot(1))),
            Names(number) => return sends(alloc, &says(alloc, nominates(alloc, number)?)?),
            Set(number) => return sends(alloc, &Message::Set(set(alloc, number)?)),
            Externalizes => return sends(alloc, &says(alloc, externalizes(alloc)?)?),
            Propose(slot) => Event::Local(Command::Propose(Slot(slot), value(alloc)?)),
            Ask(slot) => Event::Local(Command::Ask(0, Slot(slot))),
            AskNobody => Event::Local(Command::Ask(1, Slot(1))),
            Tick => Event::Local(Command::Tick),
            ReaderTake(link) => Event::ReaderTake(link),
            ReaderPut(link) => Event::ReaderPut(link),
            PendTake => Event::PendTake,
            PendPut => Event::PendPut,
            SlotTake => Event::SlotTake,
            SlotPut => Event::SlotPut,
            ApplyTake => Event::ApplyTake,
            Drain(link) => Event::Drain(link),
        })
    }
}

pub fn kind_of(reply: &Reply) -> Said {
    match reply {
        Reply::Sent(_) => Said::Sent,
        Reply::Accepted => Said::Accepted,
        Reply::Moved => Said::Moved,
        Reply::Idle => Said::Idle,
        Reply::Blocked => Said::Blocked,
        Reply::Full => Said::Full,
        Reply::NotOpen => Said::NotOpen,
        Reply::AlreadyOpen => Said::AlreadyOpen,
        Reply::LivesSpent => Said::LivesSpent,
        Reply::NoLink => Said::NoLink,
        Reply::Failed => Said::Failed,
        Reply::JournalFull => Said::JournalFull,
        Reply::NoMemory => Said::NoMemory,
    }
}

pub fn reply(alloc: Global, node: &mut Node, act: Act) -> Result<Said, Fault> {
    let event = act.event(alloc)?;
    Ok(kind_of(&node.step(event)))
}

/// Each stage once. Returns the reply of a failed one, else whether something moved.
pub fn round(alloc: Global, node: &mut Node) -> Result<Said, Fault> {
    let mut last = Said::Idle;
    for act in STAGES {
        match reply(alloc, node, act)? {
            Said::Moved => last = Said::Moved,
            Said::Idle | Said::Blocked => {}
            other => return Ok(other),
        }
    }
    Ok(last)
}

/// Rounds until nothing moves.
pub fn settle(alloc: Global, node: &mut Node) -> Result<Said, Fault> {
    for _ in 0..200 {
        let last = round(alloc, node)?;
        if last != Said::Moved {
            return Ok(last);
        }
    }
    Ok(Said::Moved)
}

/// All of these, each this many times, and after each the stages until nothing moves. `Idle` if each was accepted and the node came to rest.
pub fn play(alloc: Global, node: &mut Node, acts: &[(u32, Act)]) -> Result<Said, Fault> {
    for (times, act) in acts {
        for _ in 0..*times {
            let first = reply(alloc, node, *act)?;
            if first != Said::Accepted {
                return Ok(first);
            }
            let last = settle(alloc, node)?;
            if last != Said::Idle {
                return Ok(last);
            }
        }
    }
    Ok(Said::Idle)
}

/// All of these happen, each is accepted, and the node comes to rest after it. `NoMemory` if a step ran out of memory.
pub fn bring(alloc: Global, node: &mut Node, acts: &[(u32, Act)]) -> Result<(), Fault> {
    match play(alloc, node, acts)? {
        Said::Idle => Ok(()),
        Said::NoMemory => Err(Fault::NoMemory),
        _ => Err(Fault::Failed),
    }
}

pub fn outcome(fate: &Fate) -> Seen {
    match fate {
        Fate::Taken { seq, verdict, .. } => Taken(seq.0, *verdict),
        Fate::Dropped { seq, cause, .. } => Dropped(seq.0, *cause),
        Fate::Closed { cause, .. } => Closed(*cause),
    }
}

/// Whether the node has failed: it answers so whatever comes, and has no state.
pub fn is_failed(node: &mut Node) -> bool {
    let first = kind_of(&node.step(Event::Close(0)));
    let second = kind_of(&node.step(Event::Open(7)));
    first == Said::Failed && second == Said::Failed && node.state().is_none()
}
