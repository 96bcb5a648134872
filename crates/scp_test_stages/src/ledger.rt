//! The answers of a ledger, and what its refusals leave.
use crate::parts::{FOUR, ME, THREE, TWO, carried, conn, hash, own, says, stage, value};
use Act::*;
use On::*;
use Verdict::*;
use scp_apply::below::driver::KvDriver;
use scp_apply::below::envelope::{Externalize, Pledges};
use scp_apply::below::ledger::{CommandFate, Ledger, Onward, Origin, SharedDecision, Verdict};
use scp_apply::below::pending::{DropCause, Pending, Ready};
use scp_apply::below::types::{Ballot, Fault, NodeId, Seq, SharedValue, Slot};
use scp_apply::below::wire::{Cause, Command, Inbound, Message};
use std::alloc::Global;
use std::process::Abort;
use std::test::*;

/// What a ledger takes: a message of a node, or something else. Its peers are nodes 2 and 3, but not node 4.
#[derive(Clone, Copy)]
enum Act {
    Record(NodeId, u64),
    GetRecord(NodeId, u64),
    /// An EXTERNALIZE of node 2 for this slot, of a commit of the value with counter 1.
    Externalizes(u64),
    Drop,
    Close,
    Tick,
    Ask(u8, u64),
}

/// What goes on to the applier.
#[derive(Clone, Copy, PartialEq, Eq)]
enum On {
    Nothing,
    Slot(u64),
    Asks(u8, u64),
}

/// What is taken, this many times, and the answer each time.
type Row = (u32, Act, Option<Verdict>, Option<CommandFate>, On);

fn externalize(alloc: Global, slot: u64) -> Result<Message, Fault> {
    let set_hash = hash(alloc, 1)?;
    let commit = Ballot {
        counter: 1,
        value: SharedValue::new(alloc, value(alloc)?)?,
    };
    let pledges = Pledges::Externalize(Externalize {
        commit,
        n_high: 1,
        set_hash,
    });
    says(alloc, TWO, slot, pledges)
}

/// The message that an act is, if it is one, as the first of its node's connection.
fn message(alloc: Global, act: Act) -> Result<Inbound, Fault> {
    match act {
        Record(from, slot) => {
            let message = Message::Record(Slot(slot), value(alloc)?);
            carried(conn(from, 1), 0, message)
        }
        GetRecord(from, slot) => carried(conn(from, 1), 0, Message::GetRecord(Slot(slot))),
        Externalizes(slot) => carried(conn(TWO, 1), 0, externalize(alloc, slot)?),
        _ => Err(Fault::BadConfig),
    }
}

/// What a pending stage gives for that message, once its connection is open.
fn delivered(
    alloc: Global,
    pending: &mut Pending,
    from: NodeId,
    act: Act,
) -> Result<Option<Ready>, Fault> {
    if pending.next_ready().is_some() {
        return Ok(None);
    }
    let _ = pending.take(Inbound::Opened(conn(from, 1)))?;
    if pending.next_ready().is_some() {
        return Ok(None);
    }
    let message = message(alloc, act)?;
    let _ = pending.take(message)?;
    Ok(pending.next_ready())
}

fn came(alloc: Global, from: NodeId, act: Act) -> Result<Option<Ready>, Fault> {
    let mut pending = stage(alloc)?;
    delivered(alloc, &mut pending, from, act)
}

fn ready(alloc: Global, act: Act) -> Result<Option<Ready>, Fault> {
    match act {
        Record(from, _) | GetRecord(from, _) => came(alloc, from, act),
        Externalizes(_) => came(alloc, TWO, act),
        Drop => Ok(Some(Ready::Dropped {
            conn: conn(TWO, 1),
            seq: Seq(0),
            cause: DropCause::GaveUp,
        })),
        Close => Ok(Some(Ready::Closed {
            conn: conn(TWO, 1),
            cause: Cause::Link,
        })),
        Tick => Ok(Some(Ready::Local(Command::Tick))),
        Ask(link, slot) => Ok(Some(Ready::Local(Command::Ask(link, Slot(slot))))),
    }
}

/// Whether the closure holds of a new ledger. No test owns one: the proof of dropping it is here, once.
fn is_so<F: FnOnce(&mut Ledger<KvDriver>) -> Result<bool, Fault>>(
    alloc: Global,
    told: F,
) -> Result<bool, Fault>
    requires { F.IsAlwaysCallable told }
{
    let local = own(alloc)?;
    let peers = Vec::from_slice(alloc, &[TWO, THREE])?;
    let mut ledger = Ledger::new(alloc, ME, local, KvDriver, peers, 0);
    told(&mut ledger)
}

fn kind_of(onward: &Option<Onward>) -> On {
    match onward {
        None => Nothing,
        Some(Onward::Decided(decision)) => On::Slot(decision.slot.0),
        Some(Onward::Asked { link, slot }) => Asks(*link, slot.0),
    }
}

/// Whether the row is taken and answered as written.
fn takes(alloc: Global, ledger: &mut Ledger<KvDriver>, row: &Row) -> Result<bool, Fault> {
    let (times, act, verdict, command, onward) = *row;
    for _ in 0..times {
        let Some(ready) = ready(alloc, act)? else {
            return Ok(false);
        };
        let took = ledger.take(ready)?;
        if took.verdict != verdict || took.command != command || kind_of(&took.onward) != onward {
            return Ok(false);
        }
    }
    Ok(true)
}

fn takes_all(alloc: Global, ledger: &mut Ledger<KvDriver>, rows: &[Row]) -> Result<bool, Fault> {
    for row in rows {
        if !takes(alloc, ledger, row)? {
            return Ok(false);
        }
    }
    Ok(true)
}

/// Messages, commands, and what is neither.
const EACH_KIND: [Row; 11] = [
    (1, GetRecord(TWO, 7), Some(Forwarded), None, Asks(0, 7)),
    (1, GetRecord(THREE, 8), Some(Forwarded), None, Asks(1, 8)),
    (1, GetRecord(FOUR, 8), Some(Forwarded), None, Asks(2, 8)),
    (1, Drop, None, None, Nothing),
    (1, Tick, None, None, Nothing),
    (1, Close, None, None, Nothing),
    (1, Ask(1, 2), Some(Fresh), Some(CommandFate::Asked), Nothing),
    (1, Record(TWO, 2), Some(Unasked), None, Nothing),
    (1, Record(THREE, 2), Some(Decided), None, On::Slot(2)),
    (
        1,
        Ask(1, 2),
        Some(Already),
        Some(CommandFate::Decided),
        Nothing,
    ),
    (1, Externalizes(1), Some(Fresh), None, On::Slot(1)),
];

/// Whether all of that is answered so, and the decisions are in the order in which they came.
fn answers(alloc: Global, ledger: &mut Ledger<KvDriver>) -> Result<bool, Fault> {
    if !takes_all(alloc, ledger, &EACH_KIND)? {
        return Ok(false);
    }
    let is_it = match ledger.decisions() {
        [first, second] => first.slot == Slot(2) && is_by_both(alloc, second)?,
        _ => false,
    };
    let slots = ledger.first() == 1 && ledger.lowest() == 3;
    Ok(is_it && slots && ledger.journal().len() == 8)
}

/// Whether the decision is for slot 1, by the votes of nodes 1 and 2, for the commit with counter 1.
fn is_by_both(alloc: Global, decision: &SharedDecision) -> Result<bool, Fault> {
    let Origin::Machine { n, quorum, own } = &decision.origin else {
        return Ok(false);
    };
    let nodes = quorum.nodes(alloc)?;
    Ok(
        decision.slot == Slot(1)
            && *n == 1
            && nodes.as_slice() == [ME, TWO].as_slice()
            && quorum.count() == 2
            && quorum.contains(ME)
            && quorum.contains(TWO)
            && own.statement.node == ME,
    )
}

#[test]
fn each_kind_has_its_answer(rt: HostRuntime) -> Result<(), Fail> {
    let alloc = rt.alloc();
    assert!(rt; is_so(alloc, |ledger| answers(alloc, ledger))?);
    Ok(())
}

/// The end of a connection adds an entry; an ask and a tick add none.
const END: Row = (1, Close, None, None, Nothing);

const ENDS: Row = (1_000_000, Close, None, None, Nothing);

const ASK: Row = (1, Ask(0, 1), Some(Fresh), Some(CommandFate::Asked), Nothing);

const TICK: Row = (1, Tick, None, None, Nothing);

/// Whether a record is taken; or the ledger runs out of memory, has failed, and keeps its entries.
fn is_taken_or_fails(alloc: Global, ledger: &mut Ledger<KvDriver>) -> Result<bool, Fault> {
    let entered = takes_all(alloc, ledger, &[END, ASK])?;
    let Some(record) = ready(alloc, Record(TWO, 1))? else {
        return Ok(false);
    };
    match ledger.take(record) {
        Ok(took) => Ok(entered && took.verdict == Some(Decided) && ledger.journal().len() == 2),
        Err(fault) => Ok(
            entered
                && fault == Fault::NoMemory
                && ledger.journal().len() == 1
                && ledger.decisions().is_empty()
                && matches!(ledger.take(Ready::Local(Command::Tick)), Err(Fault::Failed)),
        ),
    }
}

#[test]
fn a_ledger_without_memory_fails(rt: HostRuntime) -> Result<(), Fail> {
    let alloc = rt.alloc();
    assert!(rt; is_so(alloc, |ledger| is_taken_or_fails(alloc, ledger))?);
    Ok(())
}

/// Whether the full journal refuses one more end, and keeps its entries.
fn is_full(alloc: Global, ledger: &mut Ledger<KvDriver>) -> Result<bool, Fault> {
    match takes(alloc, ledger, &END) {
        Ok(_) => Ok(false),
        Err(Fault::JournalFull) => Ok(ledger.journal().len() == 1_000_000),
        Err(fault) => Err(fault),
    }
}

/// Whether a journal of 1,000,000 entries refuses one more, twice, and still takes what adds none.
fn takes_no_more(alloc: Global, ledger: &mut Ledger<KvDriver>) -> Result<bool, Fault> {
    Ok(
        takes(alloc, ledger, &ENDS)?
            && is_full(alloc, ledger)?
            && is_full(alloc, ledger)?
            && takes(alloc, ledger, &TICK)?,
    )
}

#[test]
fn a_full_journal_takes_no_more(rt: HostRuntime) -> Result<(), Fail> {
    let alloc = rt.alloc();
    assert!(rt; is_so(alloc, |ledger| takes_no_more(alloc, ledger))?);
    Ok(())
}
