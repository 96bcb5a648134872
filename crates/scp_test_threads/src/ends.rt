use scp_workers::below::ends::{InboxRx, InboxTx, Item, LinkRx, LinkTx, NotSent, inbox, link};
use scp_workers::below::types::{ConnId, Fault, NodeId};
use scp_workers::below::wire::{Bytes, Cause, Inbound, LinkItem};
use std::alloc::Global;
use std::sync::Wait;
use std::test::*;
use std::thread;
use std::thread::{JoinHandle, Threads};

const ME: NodeId = NodeId([1; 32]);

const PEER: NodeId = NodeId([2; 32]);

/// The end of the life of this number.
fn end_of(life: u32) -> Inbound {
    Inbound::Closed {
        conn: ConnId {
            from: PEER,
            to: ME,
            life,
        },
        cause: Cause::Link,
    }
}

/// The end of the only producer of an inbox with this much room, and the inbox.
fn lone(alloc: Global, room: usize) -> Result<(InboxTx, InboxRx), Fault> {
    let (mut ends, rx) = inbox(alloc, 1, room)?;
    match ends.pop() {
        Some(end) => Ok((end, rx)),
        None => Err(Fault::BadConfig),
    }
}

/// Puts the lives 0 to 999, and ends. Returns whether all were sent.
fn put_all<R: Wait>(rt: &R, mut end: InboxTx) -> bool {
    for life in 0..1000u32 {
        if end.send_as(rt, end_of(life)).is_err() {
            return false;
        }
    }
    end.stop(rt).is_ok()
}

/// A thread that puts all.
fn putting<R: Threads + Wait + Copy + Send + 'static>(
    rt: R,
    end: InboxTx,
) -> Result<JoinHandle<bool>, Fail> {
    Ok(thread::spawn(&rt, move || put_all(&rt, end))?)
}

/// The producer of the next item, and the life that it names; no life at its end.
fn next<R: Wait>(rt: &R, rx: &mut InboxRx) -> Option<(u8, Option<u32>)> {
    match rx.recv_as(rt) {
        Ok(Item::One(number, Inbound::Closed { conn, .. })) => Some((number, Some(conn.life))),
        Ok(Item::Stop(number)) => Some((number, None)),
        _ => None,
    }
}

/// Hands on what comes, and ends after its producer. Returns whether all were sent.
fn hand_on<R: Wait>(rt: &R, mut rx: InboxRx, mut end: InboxTx) -> bool {
    for _ in rt.forever() {
        match rx.recv_before(rt, &mut end) {
            Ok(Item::One(_, thing)) => {
                if end.send_as(rt, thing).is_err() {
                    return false;
                }
            }
            Ok(Item::Stop(_)) => return end.stop(rt).is_ok(),
            Err(_) => return false,
        }
    }
    false
}

/// A thread that hands on.
fn handing<R: Threads + Wait + Copy + Send + 'static>(
    rt: R,
    between: InboxRx,
    onward: InboxTx,
) -> Result<JoinHandle<bool>, Fail> {
    Ok(thread::spawn(&rt, move || hand_on(&rt, between, onward))?)
}

/// Sends three lives, wakes their receiver, and receives each. The thread that hands them on then sleeps, and wakes this one before that.
fn send_three<R: Wait>(rt: &R, end: &mut InboxTx, rx: &mut InboxRx) -> bool {
    for life in 0..3u32 {
        if end.send_as(rt, end_of(life)).is_err() {
            return false;
        }
    }
    end.flush();
    for life in 0..3u32 {
        if next(rt, rx) != Some((0, Some(life))) {
            return false;
        }
    }
    true
}

/// Does that 200 times, and ends. Returns whether each life came, and then the end.
fn send_and_wait<R: Wait>(rt: &R, mut end: InboxTx, rx: &mut InboxRx) -> bool {
    for _ in 0..200u32 {
        if !send_three(rt, &mut end, rx) {
            return false;
        }
    }
    end.stop(rt).is_ok() && next(rt, rx) == Some((0, None))
}

#[test]
fn who_waits_has_told_of_what_it_put(rt: HostRuntime) -> Result<(), Fail> {
    for room in [1usize, 2, 64] {
        let (end, between) = lone(rt.alloc(), room)?;
        let (onward, mut rx) = lone(rt.alloc(), room)?;
        let handing = handing(rt, between, onward)?;
        assert!(rt; send_and_wait(&rt, end, &mut rx));
        assert!(rt; handing.join(&rt));
    }
    Ok(())
}

/// The ends of the two producers of an inbox with room for one, and the inbox.
fn two_to_one(alloc: Global) -> Result<(InboxTx, InboxTx, InboxRx), Fault> {
    let (mut ends, rx) = inbox(alloc, 2, 1)?;
    match (ends.pop(), ends.pop()) {
        (Some(second), Some(first)) => Ok((first, second, rx)),
        _ => Err(Fault::BadConfig),
    }
}

/// Whether the lives 0 to 999 of each of two producers come in order, and then the producer's end.
fn come_in_order<R: Wait>(rt: &R, rx: &mut InboxRx) -> bool {
    let mut seen = [0u32; 2];
    let mut stops = [false; 2];
    for _ in 0..2002u32 {
        match next(rt, rx) {
            Some((number, life)) if number < 2 => {
                let place = usize::from(number);
                if stops[place] {
                    return false;
                }
                match life {
                    Some(life) if life == seen[place] => seen[place] = life.saturating_add(1),
                    None if seen[place] == 1000 => stops[place] = true,
                    _ => return false,
                }
            }
            _ => return false,
        }
    }
    stops[0] && stops[1]
}

#[test]
fn each_producers_items_come_out_in_its_order(rt: HostRuntime) -> Result<(), Fail> {
    let (first, second, mut rx) = two_to_one(rt.alloc())?;
    let one = putting(rt, first)?;
    let other = putting(rt, second)?;
    assert!(rt; come_in_order(&rt, &mut rx));
    assert!(rt; one.join(&rt));
    assert!(rt; other.join(&rt));
    Ok(())
}

#[test]
fn a_look_finds_what_is_there(rt: HostRuntime) -> Result<(), Fail> {
    let (mut end, mut rx) = lone(rt.alloc(), 64)?;
    assert!(rt; matches!(rx.try_recv_as(&rt), Ok(None)));
    assert!(rt; end.send_as(&rt, end_of(7)).is_ok());
    assert!(rt;
        matches!(
            rx.try_recv_as(&rt),
            Ok(Some(Item::One(0, Inbound::Closed { .. })))
        )
    );
    assert!(rt; matches!(rx.try_recv_as(&rt), Ok(None)));
    drop(end);
    assert!(rt; rx.try_recv_as(&rt).is_err());
    Ok(())
}

#[test]
fn a_link_has_65535_lives(rt: HostRuntime) -> Result<(), Fail> {
    let (mut tx, mut rx) = link(rt.alloc(), PEER, ME, 4)?;
    let bytes = Bytes::new([7].to_vec(rt.alloc())?);
    assert!(rt; matches!(tx.send(&rt, bytes), Err(NotSent::Refused(Fault::NotOpen))));
    assert!(rt; matches!(tx.close(&rt), Err(NotSent::Refused(Fault::NotOpen))));
    for life in 1..65_536u32 {
        assert!(rt; tx.open(&rt).is_ok() && rx.recv_as(&rt).is_ok(), "{life}");
        if life == 1 {
            assert!(rt; matches!(tx.open(&rt), Err(NotSent::Refused(Fault::AlreadyOpen))));
        }
        assert!(rt; tx.close(&rt).is_ok() && rx.recv_as(&rt).is_ok(), "{life}");
    }
    assert!(rt; matches!(tx.open(&rt), Err(NotSent::Refused(Fault::LivesSpent))));
    Ok(())
}

#[test]
fn sizes_have_their_limits(rt: HostRuntime) {
    for (producers, room) in [(0u8, 1usize), (9, 1), (1, 0), (1, 1025)] {
        assert!(rt; matches!(inbox(rt.alloc(), producers, room), Err(Fault::BadConfig)));
    }
    assert!(rt; inbox(rt.alloc(), 8, 1024).is_ok());
}

/// Receives one item, and ends. Returns whether it was an opening.
fn take_one<R: Wait>(rt: &R, mut rx: LinkRx) -> bool {
    matches!(rx.recv_as(rt), Ok(Item::One(0, LinkItem::Opened(_))))
}

/// Whether this byte, sent on the first life, is handed back.
fn is_handed_back(answer: &Result<(), NotSent>, byte: u8) -> bool {
    match answer {
        Err(NotSent::Gone(LinkItem::Bytes(conn, bytes))) => {
            conn.life == 1 && bytes.as_slice() == [byte].as_slice()
        }
        _ => false,
    }
}

#[test]
fn what_no_reader_will_take_is_handed_back(rt: HostRuntime) -> Result<(), Fail> {
    let seven = Bytes::new([7].to_vec(rt.alloc())?);
    let eight = Bytes::new([8].to_vec(rt.alloc())?);
    let (mut tx, rx) = link(rt.alloc(), PEER, ME, 1)?;
    let reader = thread::spawn(&rt, move || take_one(&rt, rx))?;
    assert!(rt; tx.open(&rt).is_ok());
    // the first may still find room
    let (answer, byte) = match tx.send(&rt, seven) {
        Ok(()) => (tx.send(&rt, eight), 8),
        answer => (answer, 7),
    };
    assert!(rt; is_handed_back(&answer, byte));
    assert!(rt; tx.stop(&rt).is_err());
    assert!(rt; reader.join(&rt));
    Ok(())
}
