//! Nodes whose stages run in threads.
use super::{REPORT, SCRIPT};
use scp_live_process::below::ends::{Gate, Moment, Place, Stage};
use scp_live_process::below::line::{MemoryIn, MemoryOut, play_gated};
use scp_live_process::below::types::NodeId;
use std::process::Abort;
use std::sync::atomic::{AtomicU64, Ordering};
use std::thread;

/// The most yields of one who waits for the other.
const MOST_YIELDS: u32 = 1_000_000;

/// Holds two workers of node 1 until both have come, and then two others. A body that runs the stages one after another never gets both.
/// It also counts what node 1's applier reports: how often it received something, and which time it said it was.
#[derive(Drop)]
struct Meetings {
    /// How many came to the first place: the reader with what it received first, and the pending stage before it sends first.
    first: AtomicU64,
    /// How many came to the second: the pending stage before it sends again, and the slot stage with what it received first.
    second: AtomicU64,
    /// How often one came alone.
    missed: AtomicU64,
    received: AtomicU64,
    last: AtomicU64,
}

impl Meetings {
    /// Waits for the other one.
    fn meet(&self, came: &AtomicU64) {
        came.fetch_add(1, Ordering::SeqCst);
        for _ in 0..MOST_YIELDS {
            if came.load(Ordering::SeqCst) >= 2 {
                return;
            }
            thread::yield_now();
        }
        self.missed.fetch_add(1, Ordering::SeqCst);
    }
}

impl Gate for Meetings {
    fn at(&self, place: Place) {
        if place.node != NodeId([1; 32]) {
            return;
        }
        match (place.stage, place.moment, place.count) {
            (Stage::Reader(_), Moment::Taken, 1) | (Stage::Pend, Moment::Putting, 1) => {
                self.meet(&self.first)
            }
            (Stage::Pend, Moment::Putting, 2) | (Stage::Slot, Moment::Taken, 1) => {
                self.meet(&self.second)
            }
            (Stage::Apply, Moment::Taken, count) => {
                self.received.fetch_add(1, Ordering::SeqCst);
                self.last.store(count, Ordering::SeqCst);
            }
            _ => {}
        }
    }
}

/// The applier of a node that decides one slot receives that decision and its end, and reports each.
#[test]
fn stages_run_at_once(rt: HostRuntime) {
    let gate = Meetings {
        first: AtomicU64::new(0),
        second: AtomicU64::new(0),
        missed: AtomicU64::new(0),
        received: AtomicU64::new(0),
        last: AtomicU64::new(0),
    };
    let mut writer = MemoryOut::new(Vec::new(rt.alloc()));
    let mut reader = MemoryIn::new(SCRIPT);
    let played = play_gated(&rt, &gate, rt.alloc(), &mut reader, &mut writer);
    assert_eq!(rt; played, Ok(()));
    assert_eq!(rt; gate.missed.load(Ordering::SeqCst), 0);
    assert_eq!(rt; gate.first.load(Ordering::SeqCst), 2);
    assert_eq!(rt; gate.second.load(Ordering::SeqCst), 2);
    assert_eq!(rt; gate.received.load(Ordering::SeqCst), 2);
    assert_eq!(rt; gate.last.load(Ordering::SeqCst), 2);
    assert!(rt; writer.text() == REPORT);
}
