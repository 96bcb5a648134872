//! How the two sides of a channel wait for each other. What is put is there at once; a sleeper is woken late.
ghost use Rattle.std.specs.Prelude.{◌≡◌, MatchOption, MatchResult};
ghost use Rattle.crossbeam_channel.specs.Claims.{view, IsSeatAt};
ghost use Rattle.crossbeam_channel.specs.Ends.{sends_on, receives_on, ruled_capacity};
ghost use Rattle.crossbeam_channel.specs.Fifo.{Pushes, Pops, Learns};

use crossbeam_channel::protocol::{Lesson, Outcome, Protocol};
use crossbeam_channel::{Pass, RuledReceiver, RuledSender, TryRecvError, TrySendError};
use std::hint;
use std::sync::atomic::{AtomicU64, Ordering};
use std::sync::{Arc, Wait};

/// How often an end tries before it sleeps.
const TRIES: u32 = 4;

/// The most things that a sender puts without waking its receiver.
const MOST_UNTOLD: u64 = 32;

/// The threads that sleep at one side of a channel, and how often they were rung for.
///
/// A sleeper reads the count of rings, is counted, looks once more, and then sleeps until a ring comes. Whoever it waits for acts first, and
/// then looks whether a sleeper is counted. So either the sleeper's last look finds what was done, or a ring comes.
#[derive(Drop)]
struct Bell {
    rings: AtomicU64,
    /// At least the number of sleepers. One that found what it looked for stays counted until the next ring, which then wakes nobody.
    asleep: AtomicU64,
}

impl Bell {
    fn new() -> Bell {
        Bell {
            rings: AtomicU64::new(0),
            asleep: AtomicU64::new(0),
        }
    }

    /// Wakes all sleepers.
    fn ring_for_all(&self) {
        if self.asleep.load(Ordering::SeqCst) != 0 && self.asleep.swap(0, Ordering::SeqCst) != 0 {
            self.rings.fetch_add(1, Ordering::SeqCst);
            self.rings.wake_all();
        }
    }

    /// Wakes this many sleepers; all of them if there are no more, or if another one is counted meanwhile.
    fn ring_for(&self, most: u64) {
        let asleep = self.asleep.load(Ordering::SeqCst);
        let left = asleep.saturating_sub(most);
        if left == 0 || !self.leaves(asleep, left) {
            self.ring_for_all();
            return;
        }
        self.rings.fetch_add(1, Ordering::SeqCst);
        for _ in 0..most {
            self.rings.wake_one();
        }
    }

    /// Counts those who are left asleep, unless somebody else counts meanwhile. Returns whether it did.
    fn leaves(&self, asleep: u64, left: u64) -> bool {
        self.asleep
            .compare_exchange(asleep, left, Ordering::SeqCst, Ordering::SeqCst)
            .is_ok()
    }

    /// To be called before the last look; `sleep` then takes the answer.
    fn listen(&self) -> u32 {
        let seen = self.rings.load(Ordering::SeqCst);
        self.asleep.fetch_add(1, Ordering::SeqCst);
        (seen & 0xffff_ffff) as u32
    }

    fn sleep<R: Wait>(&self, rt: &R, heard: u32) {
        self.rings.park(rt, heard);
    }
}

/// The bells of a channel: the receiver sleeps on one, and whoever waits for room on the other.
#[derive(Drop)]
pub(crate) struct Bells {
    things: Bell,
    room: Bell,
}

impl Bells {
    pub(crate) fn new() -> Bells {
        Bells {
            things: Bell::new(),
            room: Bell::new(),
        }
    }
}

/// An end's hold of its channel's bells, and how much the end did since it last rang. When the end goes, both bells are rung.
pub(crate) struct Ringer {
    bells: Arc<Bells>,
    untold: u64,
    most: u64,
}

impl Drop for Ringer {
    fn drop(self) {
        let Self {
            bells,
            untold: _,
            most: _,
        } = self;
        bells.things.ring_for_all();
        bells.room.ring_for_all();
    }
}

/// Half of the room, at least 1.
fn half_of(capacity: usize) -> u64 {
    (capacity as u64 / 2).max(1)
}

impl Ringer {
    /// The hold of a sending end.
    pub(crate) fn of_sender(bells: Arc<Bells>, capacity: usize) -> Ringer {
        Ringer {
            bells,
            untold: 0,
            most: half_of(capacity).min(MOST_UNTOLD),
        }
    }

    /// The hold of a receiving end.
    pub(crate) fn of_receiver(bells: Arc<Bells>, capacity: usize) -> Ringer {
        Ringer {
            bells,
            untold: 0,
            most: half_of(capacity),
        }
    }

    /// Rings for the receiver, if something was put since the last ring.
    pub(crate) fn tell_receiver(&mut self) {
        if self.untold > 0 {
            self.call_receiver();
        }
    }

    /// Rings for the receiver, whoever put what is there: before a wait for room, and after a producer's end.
    pub(crate) fn call_receiver(&mut self) {
        self.untold = 0;
        self.bells.things.ring_for_all();
    }

    /// Wakes as many senders as there are places that none was woken for.
    fn tell_senders(&mut self) {
        let room = self.untold;
        if room > 0 {
            self.untold = 0;
            self.bells.room.ring_for(room);
        }
    }

    fn put(&mut self) {
        self.untold = self.untold.saturating_add(1);
        if self.untold >= self.most {
            self.tell_receiver();
        }
    }

    fn taken(&mut self) {
        self.untold = self.untold.saturating_add(1);
        if self.untold >= self.most {
            self.tell_senders();
        }
    }
}

/// How far a call has waited.
#[derive(Drop)]
struct Patience {
    tries: u32,
    heard: Option<u32>,
}

impl Patience {
    fn new() -> Patience {
        Patience {
            tries: 0,
            heard: None,
        }
    }

    /// Lets the call try again at once a few times, then once more while it listens, and then sleeps.
    fn wait<R: Wait>(&mut self, rt: &R, bell: &Bell) {
        match self.heard {
            Some(heard) => {
                bell.sleep(rt, heard);
                self.heard = None;
            }
            None => {
                if self.tries < TRIES {
                    self.tries += 1;
                    hint::spin_loop();
                } else {
                    self.heard = Some(bell.listen());
                }
            }
        }
    }
}

/// Sends as the channel's `send_as` does.
pub(crate) fn send_late<T: Drop, V, P: Protocol<T, V>, M: Outcome<T, V> + Lesson<T, V>, R: Wait>(
    rt: &R,
    sender: &RuledSender<T, V, P>,
    ringer: &mut Ringer,
    pass: &mut Pass<T, V>,
    mut msg: T,
) -> Result<(), T>
    requires channel { IsSeatAt (sends_on sender.now) pass.old }
    requires rule { Pushes P.holds (ruled_capacity (sends_on sender.now)) pass.old.id (view pass.old) msg (M.then (view pass.old) msg) × Learns P.holds pass.old.id (view pass.old) (M.fact (view pass.old)) }
    ensures channel { IsSeatAt (sends_on sender.now) pass.new × (pass.new.id ≡ pass.old.id) }
    ensures rule { MatchResult result (λ _. M.then (view pass.old) msg (view pass.new)) (λ back. (back ≡ msg) × (view pass.new ≡ view pass.old)) }
{
    let mut patience = Patience::new();
    for _ in rt.forever() {
        match sender.try_send_as::<M, R>(rt, pass, msg) {
            Ok(()) => {
                ringer.put();
                return Ok(());
            }
            Err(TrySendError::Full(back)) => msg = back,
            Err(e) => return Err(e.into_inner()),
        }
        ringer.call_receiver();
        patience.wait(rt, &ringer.bells.room);
    }
    unreachable!()
}

/// Looks for an item as the channel's `try_recv_as` does: `None` if there is none now.
pub(crate) fn look<T: Drop, V, P: Protocol<T, V>, M: Outcome<T, V> + Lesson<T, V>, R: Wait>(
    rt: &R,
    receiver: &RuledReceiver<T, V, P>,
    ringer: &mut Ringer,
    pass: &mut Pass<T, V>,
) -> Result<Option<T>, ()>
    requires channel { IsSeatAt (receives_on receiver.now) pass.old }
    requires rule { Pops P.holds pass.old.id (view pass.old) (M.then (view pass.old)) × Learns P.holds pass.old.id (view pass.old) (M.fact (view pass.old)) }
    ensures channel { IsSeatAt (receives_on receiver.now) pass.new × (pass.new.id ≡ pass.old.id) }
    ensures rule { MatchResult result (λ found. MatchOption found (view pass.new ≡ view pass.old) (λ x. M.then (view pass.old) x (view pass.new))) (λ _. view pass.new ≡ view pass.old) }
{
    match receiver.try_recv_as::<M, R>(rt, pass) {
        Ok(msg) => {
            ringer.taken();
            Ok(Some(msg))
        }
        Err(TryRecvError::Empty) => {
            ringer.tell_senders();
            Ok(None)
        }
        Err(TryRecvError::Disconnected) => Err(()),
    }
}

/// Receives as the channel's `recv_as` does.
pub(crate) fn recv_late<T: Drop, V, P: Protocol<T, V>, M: Outcome<T, V> + Lesson<T, V>, R: Wait>(
    rt: &R,
    receiver: &RuledReceiver<T, V, P>,
    ringer: &mut Ringer,
    pass: &mut Pass<T, V>,
) -> Result<T, ()>
    requires channel { IsSeatAt (receives_on receiver.now) pass.old }
    requires rule { Pops P.holds pass.old.id (view pass.old) (M.then (view pass.old)) × Learns P.holds pass.old.id (view pass.old) (M.fact (view pass.old)) }
    ensures channel { IsSeatAt (receives_on receiver.now) pass.new × (pass.new.id ≡ pass.old.id) }
    ensures rule { MatchResult result (λ x. M.then (view pass.old) x (view pass.new)) (λ _. view pass.new ≡ view pass.old) }
{
    let mut patience = Patience::new();
    for _ in rt.forever() {
        match look::<T, V, P, M, R>(rt, receiver, ringer, pass) {
            Ok(Some(msg)) => return Ok(msg),
            Ok(None) => {}
            Err(()) => return Err(()),
        }
        patience.wait(rt, &ringer.bells.things);
    }
    unreachable!()
}
