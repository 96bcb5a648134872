ghost use Rattle.std.specs.Prelude.{◌≡◌, ◌∷◌, [], IfOk};

use scp_workers::below::outbox::{Mark, Out};
use scp_workers::below::shared_outbox::{
    Marker, Putter, Taker, ends_cross_threads, make, take_back,
};
use scp_workers::below::types::{Fault, Hash};
use scp_workers::below::wire::{FittingMessage, Message};
use std::alloc::{AllocError, Global};
use std::sync::Wait;
use std::test::*;
use std::thread;
use std::thread::Threads;

/// Asks for the sets whose hashes are 32 equal bytes, from `first` on, below `end`.
fn ask_all<R: Wait>(rt: &R, mut putter: Putter, first: u8, end: u8) -> Putter
    ensures { (result.desk ≡ putter.desk) × (result.number ≡ putter.number) }
{
    for byte in first..end {
        putter.put(rt, FittingMessage::of(Message::GetSet(Hash([byte; 32]))));
    }
    putter
}

/// Whether the mark Opened is given, and then the bytes from 1 to 30 and from 101 to 130, each of the two in its order.
fn are_both_whole<R: Wait>(rt: &R, taker: &mut Taker) -> bool
    ensures { (taker.new.desk ≡ taker.old.desk) × (taker.new.producers ≡ taker.old.producers) }
{
    let mut all = matches!(taker.next(rt), Out::Mark(Mark::Opened));
    let mut low = 1u8;
    let mut high = 101u8;
    for _ in 0..60u8 {
        let byte = match taker.next(rt) {
            Out::Message(Message::GetSet(hash)) => hash.0[0],
            _ => 0,
        };
        if byte == low {
            low = low.saturating_add(1);
        } else if byte == high {
            high = high.saturating_add(1);
        } else {
            all = false;
        }
    }
    all && low == 31 && high == 131
}

#[test]
fn what_two_threads_put_is_given_whole(rt: HostRuntime) -> Result<(), Fail> {
    ends_cross_threads();
    let (mut putters, mut marker, mut taker) = make(rt.alloc(), 2)?;
    let second = putters.pop().expect(&rt, "producer 1");
    let first = putters.pop().expect(&rt, "producer 0");
    let low = thread::spawn(&rt, move || ask_all(&rt, first, 1, 31))?;
    let high = thread::spawn(&rt, move || ask_all(&rt, second, 101, 131))?;
    assert!(rt; marker.mark(&rt, Mark::Opened).is_ok());
    assert!(rt; are_both_whole(&rt, &mut taker));
    low.join(&rt);
    high.join(&rt);
    Ok(())
}

#[test]
fn the_17th_mark_is_refused(rt: HostRuntime) -> Result<(), Fail> {
    let (_putters, mut marker, mut taker) = make(rt.alloc(), 0)?;
    for _ in 0..16u8 {
        assert!(rt; marker.mark(&rt, Mark::Stop).is_ok());
    }
    assert!(rt; marker.mark(&rt, Mark::Closed) == Err(Fault::Full));
    for _ in 0..16u8 {
        assert!(rt; matches!(taker.next(&rt), Out::Mark(Mark::Stop)));
    }
    assert!(rt; marker.mark(&rt, Mark::Closed).is_ok());
    Ok(())
}

#[test]
fn unused_ends_are_taken_back(rt: HostRuntime) -> Result<(), Fail> {
    let (putters, mut marker, mut taker) = make(rt.alloc(), 3)?;
    assert!(rt; marker.mark(&rt, Mark::Stop).is_ok());
    assert!(rt; matches!(taker.next(&rt), Out::Mark(Mark::Stop)));
    let left = take_back(&rt, putters, marker, taker);
    assert!(rt; left.len() == 0);
    Ok(())
}

/// The ends of two producers, in the order of their numbers.
fn both(alloc: Global, first: Putter, second: Putter) -> Result<Vec<Putter>, AllocError>
    ensures { IfOk result (λ v. v.items ≡ first ∷ second ∷ []) }
{
    let mut all = Vec::new(alloc);
    all.push(first)?;
    all.push(second)?;
    Ok(all)
}

/// Whether what two threads put is given whole. Then all ends are taken back, and what was given comes from what they put.
fn is_taken_back<R: Threads + Wait + Sync>(
    rt: &R,
    alloc: Global,
    first: Putter,
    second: Putter,
    mut marker: Marker,
    mut taker: Taker,
) -> Result<bool, Fault>
    requires first { (first.desk ≡ taker.desk) × (first.number ≡ 0) }
    requires second { (second.desk ≡ taker.desk) × (second.number ≡ 1) }
    requires rest { (marker.desk ≡ taker.desk) × (taker.producers ≡ 2) }
{
    ends_cross_threads();
    marker.mark(rt, Mark::Opened)?;
    let (low, high) = thread::join(
        rt,
        move || -> Putter
            ensures { (result.desk ≡ first.desk) × (result.number ≡ first.number) }
        { ask_all(rt, first, 1, 31) },
        move || -> Putter
            ensures { (result.desk ≡ second.desk) × (result.number ≡ second.number) }
        { ask_all(rt, second, 101, 131) },
    );
    let whole = are_both_whole(rt, &mut taker);
    let left = take_back(rt, both(alloc, low, high)?, marker, taker);
    Ok(whole && left.len() == 0)
}

#[test]
fn all_ends_are_taken_back_after_two_threads(rt: HostRuntime) -> Result<(), Fail> {
    let (mut putters, marker, taker) = make(rt.alloc(), 2)?;
    let second = putters.pop().expect(&rt, "producer 1");
    let first = putters.pop().expect(&rt, "producer 0");
    assert!(rt; is_taken_back(&rt, rt.alloc(), first, second, marker, taker)?);
    Ok(())
}
