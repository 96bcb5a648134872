use scp_workers::below::ends::{
    Gate, InboxRx, Item, LinkTx, Moment, Open, Place, Stage, inbox, link,
};
use scp_workers::below::types::{Fault, NodeId};
use scp_workers::below::wire::{Bytes, Cause, Inbound, Message};
use scp_workers::{ReaderWorker, reader};
use std::alloc::Global;
use std::process::Abort;
use std::sync::Wait;
use std::sync::atomic::{AtomicU64, Ordering};
use std::test::*;

const ME: NodeId = NodeId([1; 32]);

const PEER: NodeId = NodeId([2; 32]);

/// Counts the calls of each moment, and checks that each gives its count.
#[derive(Drop)]
struct Counting {
    taken: AtomicU64,
    putting: AtomicU64,
    wrong: AtomicU64,
}

impl Gate for Counting {
    fn at(&self, place: Place) {
        let calls = match place.moment {
            Moment::Taken => &self.taken,
            Moment::Putting => &self.putting,
        };
        let before = calls.fetch_add(1, Ordering::SeqCst);
        if before.checked_add(1) != Some(place.count) || place.stage != Stage::Reader(0) {
            self.wrong.fetch_add(1, Ordering::SeqCst);
        }
    }
}

/// The worker of link 0's reader, between a link and an inbox that hold everything, with the ends outside.
fn between(alloc: Global) -> Result<(LinkTx, ReaderWorker, InboxRx), Fault> {
    let (tx, rx) = link(alloc, PEER, ME, 8)?;
    let (mut ends, out) = inbox(alloc, 1, 8)?;
    match ends.pop() {
        Some(end) => Ok((tx, reader(alloc, ME, 0, rx, end, false), out)),
        None => Err(Fault::BadConfig),
    }
}

/// The batch of the records of slots 5 to 7, each with a value of one byte.
const BATCH: [u8; 40] = [
    0, 0, 0, 7, 0, 0, 0, 0, 0, 0, 0, 5, 0, 0, 0, 3, // the kind, the first slot, three values
    0, 0, 0, 1, 9, 0, 0, 0, 0, 0, 0, 1, 9, 0, 0, 0, 0, 0, 0, 1, 9, 0, 0, 0,
];

/// Opens the link, sends the batch and then a byte that encodes nothing, closes the link and ends it. Returns whether all were sent.
fn send_all<R: Wait>(rt: &R, alloc: Global, mut tx: LinkTx) -> Result<bool, Fault> {
    let batch = Bytes::new(BATCH.to_vec(alloc)?);
    let bad = Bytes::new([9].to_vec(alloc)?);
    Ok(
        tx.open(rt).is_ok()
            && tx.send(rt, batch).is_ok()
            && tx.send(rt, bad).is_ok()
            && tx.close(rt).is_ok()
            && tx.stop(rt).is_ok(),
    )
}

/// What comes next: 1 is an opening, 2 a close as malformed, 3 the end. 100 plus a number from 0 to 2 is
/// the record with that number, if its slot is 5 plus the number.
fn next<R: Wait>(rt: &R, rx: &mut InboxRx) -> u64 {
    match rx.recv_as(rt) {
        Ok(Item::One(0, Inbound::Opened(_))) => 1,
        Ok(
            Item::One(
                0,
                Inbound::Closed {
                    cause: Cause::Malformed,
                    ..
                },
            ),
        ) => 2,
        Ok(Item::Stop(0)) => 3,
        Ok(Item::One(0, Inbound::Carried(carried))) => match carried.message.get() {
            Message::Record(slot, _) if carried.seq.0 < 3 && slot.0 == 5 + carried.seq.0 => {
                100 + carried.seq.0
            }
            _ => 0,
        },
        _ => 0,
    }
}

#[test]
fn a_reader_sends_what_its_link_is_read_as(rt: HostRuntime) -> Result<(), Fail> {
    let gate = Counting {
        taken: AtomicU64::new(0),
        putting: AtomicU64::new(0),
        wrong: AtomicU64::new(0),
    };
    let (tx, worker, mut out) = between(rt.alloc())?;
    assert!(rt; send_all(&rt, rt.alloc(), tx)?);
    assert!(rt; worker.run(&rt, &gate).well());
    for wanted in [1, 100, 101, 102, 2, 3] {
        assert_eq!(rt; next(&rt, &mut out), wanted);
    }
    assert_eq!(rt; gate.taken.load(Ordering::SeqCst), 5);
    assert_eq!(rt; gate.putting.load(Ordering::SeqCst), 6);
    assert_eq!(rt; gate.wrong.load(Ordering::SeqCst), 0);
    Ok(())
}

#[test]
fn a_reader_without_an_inbox_hears_its_link_to_the_end(rt: HostRuntime) -> Result<(), Fail> {
    let (tx, worker, out) = between(rt.alloc())?;
    drop(out);
    assert!(rt; send_all(&rt, rt.alloc(), tx)?);
    let ended = worker.run(&rt, &Open);
    assert!(rt; !ended.well() && !ended.is_cut_off());
    Ok(())
}
