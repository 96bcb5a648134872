//! A courier between an outbox and a link, whose reader is in another thread, or gone.
ghost use Rattle.std.specs.Prelude.{◌≡◌, [], IfOk};

use scp_workers::Courier;
use scp_workers::below::ends::{Gate, Item, LinkRx, Moment, Place, link};
use scp_workers::below::outbox::Mark;
use scp_workers::below::shared_outbox::{Marker, Putter, Taker, make};
use scp_workers::below::types::{Fault, NodeId};
use scp_workers::below::wire::{FittingMessage, LinkItem, decode};
use std::alloc::Global;
use std::sync::{Mutex, Wait};
use std::test::*;
use std::thread;

const ME: NodeId = NodeId([1; 32]);

const PEER: NodeId = NodeId([2; 32]);

/// The message that asks for the set whose hash is 32 times this byte.
fn request(byte: u8) -> [u8; 36] {
    let mut bytes = [byte; 36];
    bytes[..4].copy_from_slice(&[0, 0, 0, 2]);
    bytes
}

/// The message of a NOMINATE of the slot, by node 1, which votes for one value of four bytes.
fn nomination(slot: u64) -> [u8; 104] {
    let mut bytes = [0; 104];
    bytes[3] = 1; // an envelope
    bytes[8..40].copy_from_slice(&[1; 32]);
    bytes[40..48].copy_from_slice(&slot.to_be_bytes());
    bytes[51] = 3; // NOMINATE
    bytes[87] = 1;
    bytes[91] = 4;
    bytes[92..96].copy_from_slice(&[7; 4]);
    bytes
}

/// Puts requests for the sets of hashes 5 and 6, and NOMINATEs of slots 1 to 64.
fn fill<R: Wait>(rt: &R, alloc: Global, putter: &mut Putter) -> Result<(), Fault> {
    for byte in 5..7u8 {
        putter.put(rt, FittingMessage::of(decode(alloc, &request(byte))?));
    }
    for slot in 1..65u64 {
        putter.put(rt, FittingMessage::of(decode(alloc, &nomination(slot))?));
    }
    Ok(())
}

/// The ends of an outbox that holds the mark Opened and what `fill` puts, 67 things, and that has given nothing.
fn filled<R: Wait>(rt: &R, alloc: Global) -> Result<(Marker, Taker), Fault>
    ensures { IfOk result (λ ends. ends.1.gave ≡ []) }
{
    let (mut putters, mut marker, taker) = make(alloc, 1)?;
    marker.mark(rt, Mark::Opened)?;
    let Some(mut putter) = putters.pop() else {
        return Err(Fault::BadConfig);
    };
    fill(rt, alloc, &mut putter)?;
    Ok((marker, taker))
}

/// When 67 things were taken, marks that the link closes and the courier stops. Neither mark is refused, since no other one waits.
#[derive(Drop)]
struct StopsBehind<R: Wait> {
    rt: R,
    marker: Mutex<Marker>,
}

impl<R: Wait> Gate for StopsBehind<R> {
    fn at(&self, place: Place) {
        if place.moment == Moment::Taken && place.count == 67 {
            let mut marker = self.marker.lock(&self.rt);
            let _ = marker.mark(&self.rt, Mark::Closed);
            let _ = marker.mark(&self.rt, Mark::Stop);
        }
    }
}

/// Whether these bytes come next.
fn comes<R: Wait>(rt: &R, rx: &mut LinkRx, wanted: &[u8]) -> bool {
    matches!(rx.recv_as(rt), Ok(Item::One(_, LinkItem::Bytes(_, bytes))) if bytes.as_slice() == wanted)
}

/// Whether all that `filled` holds comes, in order, between an open and a close, and then the end.
fn comes_whole<R: Wait>(rt: &R, mut rx: LinkRx) -> bool {
    let mut all = matches!(rx.recv_as(rt), Ok(Item::One(_, LinkItem::Opened(_))));
    for byte in 5..7u8 {
        all &= comes(rt, &mut rx, &request(byte));
    }
    for slot in 1..65u64 {
        all &= comes(rt, &mut rx, &nomination(slot));
    }
    all &= matches!(rx.recv_as(rt), Ok(Item::One(_, LinkItem::Closed(_))));
    all && matches!(rx.recv_as(rt), Ok(Item::Stop(_)))
}

#[test]
fn a_courier_carries_all_in_order(rt: HostRuntime) -> Result<(), Fail> {
    let alloc = rt.alloc();
    let (tx, rx) = link(alloc, ME, PEER, 4)?;
    let (marker, taker) = filled(&rt, alloc)?;
    let reader = thread::spawn(&rt, move || comes_whole(&rt, rx))?;
    let gate = StopsBehind {
        rt,
        marker: Mutex::new(marker),
    };
    let ended = Courier::new(alloc, ME, 0, taker, tx).run(&rt, &gate);
    assert!(rt; reader.join(&rt));
    assert!(rt; ended.well());
    Ok(())
}

#[test]
fn a_courier_whose_link_is_gone_goes_on_to_the_stop(rt: HostRuntime) -> Result<(), Fail> {
    let alloc = rt.alloc();
    let (tx, rx) = link(alloc, ME, PEER, 1)?;
    drop(rx);
    let (marker, taker) = filled(&rt, alloc)?;
    let gate = StopsBehind {
        rt,
        marker: Mutex::new(marker),
    };
    let ended = Courier::new(alloc, ME, 0, taker, tx).run(&rt, &gate);
    assert!(rt; !ended.well());
    Ok(())
}
