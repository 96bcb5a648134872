//! The gate that counts what the appliers receive.
use scp_threaded_node::below::ends::{Gate, Moment, Place, Stage};
use scp_threaded_node::below::types::{NODE_LIMIT, NodeId};
use std::sync::Wait;
use std::sync::atomic::{AtomicU64, Ordering};
use std::thread;
use std::time::Duration;

/// The most yields of a wait, and of a try to leave a mark.
pub const MOST_YIELDS: u32 = 1_000_000;

/// A wait yields only after this many sleeps in a row in which the applier received nothing.
const MOST_SLEEPS: u32 = 250;

/// The length of one sleep, in milliseconds, while the applier receives nothing.
const SLEEP_MILLIS: u64 = 1;

/// A borrowed gate.
#[derive(Drop)]
pub struct Lent<'g, G>(&'g G);

impl<'g, G: Gate> Lent<'g, G> {
    /// Borrows this gate.
    pub fn new(gate: &'g G) -> Lent<'g, G> {
        Lent(gate)
    }
}

impl<'g, G: Gate> Gate for Lent<'g, G> {
    fn at(&self, place: Place) {
        self.0.at(place);
    }

    fn may_hold(&self) -> bool {
        self.0.may_hold()
    }
}

/// A gate around another one. It counts how often the applier of each node received something, and then calls the other gate. A thread that
/// waits for such a receive sleeps on the count.
#[derive(Drop)]
pub struct Counting<G> {
    inner: G,
    received: [AtomicU64; NODE_LIMIT],
    /// The number of threads that wait.
    waiting: AtomicU64,
}

impl<G: Gate> Gate for Counting<G> {
    fn at(&self, place: Place) {
        if place.stage == Stage::Apply && place.moment == Moment::Taken {
            self.count(place.node);
        }
        self.inner.at(place);
    }

    fn may_hold(&self) -> bool {
        self.inner.may_hold()
    }
}

impl<G: Gate> Counting<G> {
    /// A counting gate around this one; nothing was received yet.
    pub fn new(inner: G) -> Counting<G> {
        Counting {
            inner,
            received: [
                AtomicU64::new(0),
                AtomicU64::new(0),
                AtomicU64::new(0),
                AtomicU64::new(0),
                AtomicU64::new(0),
                AtomicU64::new(0),
                AtomicU64::new(0),
                AtomicU64::new(0),
            ],
            waiting: AtomicU64::new(0),
        }
    }

    /// Counts one receive of this node's applier. The id of a script's node is 32 bytes of its number.
    fn count(&self, node: NodeId) {
        if let Some(received) = self.of(node.0[0]) {
            received.fetch_add(1, Ordering::SeqCst);
            if self.waiting.load(Ordering::SeqCst) != 0 {
                received.wake_all();
            }
        }
    }

    fn of(&self, number: u8) -> Option<&AtomicU64> {
        self.received.get(usize::from(number).wrapping_sub(1))
    }

    /// The number of receives of the applier of the node of this number; 0 if there is no such node.
    pub fn received(&self, number: u8) -> u64 {
        match self.of(number) {
            Some(received) => received.load(Ordering::SeqCst),
            None => 0,
        }
    }

    /// Waits until the applier of the node of this number received this many things. It sleeps until the applier has received nothing for a
    /// quarter of a second, and then yields, at most 1,000,000 times. Returns whether the applier received them.
    pub fn wait<R: Wait>(&self, rt: &R, number: u8, things: u64) -> bool {
        self.waiting.fetch_add(1, Ordering::SeqCst);
        let slept = self.sleeps_until(rt, number, things);
        self.waiting.fetch_sub(1, Ordering::SeqCst);
        slept || self.yields_until(number, things)
    }

    /// Sleeps until the applier received this many things, or has received nothing for a quarter of a second.
    fn sleeps_until<R: Wait>(&self, rt: &R, number: u8, things: u64) -> bool {
        let Some(received) = self.of(number) else {
            return things == 0;
        };
        let mut seen = 0;
        let mut quiet = 0;
        for _ in rt.forever() {
            let now = received.load(Ordering::SeqCst);
            if now >= things || quiet >= MOST_SLEEPS {
                return now >= things;
            }
            quiet = if now == seen { quiet + 1 } else { 0 };
            seen = now;
            let most = Duration::from_millis(SLEEP_MILLIS);
            received.park_timeout(rt, (now & 0xffff_ffff) as u32, most);
        }
        false
    }

    /// Yields until the applier received this many things, at most 1,000,000 times.
    fn yields_until(&self, number: u8, things: u64) -> bool {
        for _ in 0..MOST_YIELDS {
            if self.received(number) >= things {
                return true;
            }
            thread::yield_now();
        }
        false
    }
}
