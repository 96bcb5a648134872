//! An outbox in its place, behind its lock: what one turn does there.
ghost use Rattle.std.specs.Prelude.{◌≡◌, ◌≢◌, ◌∷◌, true, ◌≤◌, length, IsOkUnless, MatchResult};
ghost use Rattle.crossbeam_queue.specs.Fifo.{Pushes};
ghost use Rattle.crossbeam_queue.specs.Passes.{view, IsPassOf, ruled_capacity};
ghost use Rattle.scp_outbox.specs.scp_wire.specs.Fitting.{IsFitting};
ghost use Rattle.scp_outbox.specs.Outbox.{IfMessage};
ghost use Rattle.scp_shared_outbox.specs.declared.turn.Turn.TheVariants as turn;
ghost use Rattle.scp_shared_outbox.specs.Turns.{Stands};
ghost use Rattle.scp_shared_outbox.specs.inside.Rule.{Kept, IsInHand, IsMine, IsPutter, HasTaken, after, emptied, Gave};

use crate::rule::{Leaves, Pass, Place, Said, TakesOut, Tells};
use crate::turn::Part;
use crossbeam_queue::protocol::Outcome;
use scp_outbox::below::types::Fault;
use scp_outbox::below::wire::FittingMessage;
use scp_outbox::{MARK_LIMIT, Mark, Out, Outbox};
use std::marker::Brand;
use std::sync::{Condvar, Mutex, Wait};

/// An outbox in its place. Under the lock is the count of own statements that were lost. Whoever has the lock takes the outbox
/// out of its place, and puts it back.
#[derive(Drop)]
pub(crate) struct Desk {
    pub(crate) place: Place,
    pub(crate) lost: Mutex<u64>,
    pub(crate) changed: Condvar,
}

/// Takes the outbox out. Whoever has the lock, or all ends, finds it there.
pub(crate) fn take_out<R: Wait>(rt: &R, place: &Place, pass: &mut Pass) -> Outbox
    requires place { IsPassOf place.now pass.old }
    ensures place { IsPassOf place.now pass.new }
    ensures rule { IsInHand (view pass.old) result (view pass.new) }
{
    for _ in rt.forever() {
        if let Some(outbox) = place.try_pop_as::<TakesOut>(pass) {
            return outbox;
        }
    }
    unreachable!()
}

/// Puts the outbox back. Whoever took it out finds the place empty.
fn put_back<M: Outcome<Outbox, Part>, R: Wait>(
    rt: &R,
    place: &Place,
    pass: &mut Pass,
    mut outbox: Outbox,
)
    requires place { IsPassOf place.now pass.old }
    requires rule { Pushes Kept (ruled_capacity place.now) pass.old.id (view pass.old) outbox (M.then (view pass.old) outbox) }
    ensures place { IsPassOf place.now pass.new }
    ensures rule { M.then (view pass.old) outbox (view pass.new) }
{
    for _ in rt.forever() {
        match place.try_push_as::<M>(pass, outbox) {
            Ok(()) => return,
            Err(back) => outbox = back,
        }
    }
    unreachable!()
}

/// Puts the outbox back as it was.
fn leave<R: Wait>(rt: &R, place: &Place, pass: &mut Pass, outbox: Outbox)
    requires place { IsPassOf place.now pass.old }
    requires holds { (view pass.old).holds ≡ true }
    requires stands { Stands (view pass.old).turns outbox }
    ensures place { IsPassOf place.now pass.new }
    ensures rule { view pass.new ≡ emptied (view pass.old) }
{
    put_back::<Leaves, R>(rt, place, pass, outbox);
}

/// Puts the outbox back after a turn.
fn tell<J: Said, R: Wait>(rt: &R, place: &Place, pass: &mut Pass, outbox: Outbox)
    requires place { IsPassOf place.now pass.old }
    requires holds { (view pass.old).holds ≡ true }
    requires mine { IsMine J.turn (view pass.old) }
    requires stands { Stands (J.turn ∷ (view pass.old).turns) outbox }
    ensures place { IsPassOf place.now pass.new }
    ensures rule { view pass.new ≡ after J.turn (view pass.old) }
{
    put_back::<Tells<J>, R>(rt, place, pass, outbox);
}

/// A producer's turn. Returns how many own statements were lost so far.
pub(crate) fn put<J: Said, R: Wait>(
    rt: &R,
    place: &Place,
    pass: &mut Pass,
    number: u8,
    message: FittingMessage,
) -> u64
    requires place { IsPassOf place.now pass.old }
    requires said { J.turn ≡ turn.Puts number message }
    requires mine { IsPutter number (view pass.old) }
    ensures place { IsPassOf place.now pass.new }
    ensures rule { view pass.new ≡ after (turn.Puts number message) (view pass.old) }
{
    let mut outbox = take_out(rt, place, pass);
    outbox.put(message);
    let lost = outbox.overwritten();
    tell::<J, R>(rt, place, pass, outbox);
    lost
}

/// A turn of the end that leaves marks.
pub(crate) fn mark<J: Said, R: Wait>(
    rt: &R,
    place: &Place,
    pass: &mut Pass,
    mark: Mark,
) -> Result<(), Fault>
    requires place { IsPassOf place.now pass.old }
    requires said { J.turn ≡ turn.Marks mark }
    requires mine { (view pass.old).marks ≡ true }
    ensures place { IsPassOf place.now pass.new }
    ensures rule { MatchResult result (λ _. view pass.new ≡ after (turn.Marks mark) (view pass.old)) (λ _. (MARK_LIMIT ≤ length (view pass.old).marked) × (view pass.new ≡ emptied (view pass.old))) }
    ensures only { IsOkUnless result Fault.Full }
{
    let mut outbox = take_out(rt, place, pass);
    match outbox.mark(mark) {
        Ok(()) => {
            tell::<J, R>(rt, place, pass, outbox);
            Ok(())
        }
        Err(fault) => {
            leave(rt, place, pass, outbox);
            Err(fault)
        }
    }
}

/// A turn of the end that is given what waits. Returns `Out::Nothing` if nothing waits.
fn give<R: Wait>(rt: &R, place: &Place, pass: &mut Pass) -> Out
    requires place { IsPassOf place.now pass.old }
    requires mine { (view pass.old).takes ≡ true }
    ensures place { IsPassOf place.now pass.new }
    ensures rule { Gave result (view pass.old) (view pass.new) }
    ensures fits { IfMessage result IsFitting }
{
    let mut outbox = take_out(rt, place, pass);
    let given = outbox.next();
    tell_given::<Brand, R>(rt, place, pass, outbox, &given);
    given
}

/// Puts the outbox back after this was given, or nothing was.
fn tell_given<J: Said, R: Wait>(rt: &R, place: &Place, pass: &mut Pass, outbox: Outbox, given: &Out)
    requires place { IsPassOf place.now pass.old }
    requires holds { (view pass.old).holds ≡ true }
    requires mine { (view pass.old).takes ≡ true }
    requires said { J.turn ≡ turn.Gives given.now }
    requires stands { Stands (turn.Gives given.now ∷ (view pass.old).turns) outbox }
    ensures place { IsPassOf place.now pass.new }
    ensures rule { Gave given.now (view pass.old) (view pass.new) }
{
    match given {
        Out::Nothing => leave(rt, place, pass, outbox),
        _ => tell::<J, R>(rt, place, pass, outbox),
    }
}

/// Turns of the end that is given what waits, until something is given; it sleeps while nothing waits.
pub(crate) fn next<R: Wait>(rt: &R, desk: &Desk, pass: &mut Pass) -> Out
    requires place { IsPassOf desk.now.place pass.old }
    requires mine { (view pass.old).takes ≡ true }
    ensures place { IsPassOf desk.now.place pass.new }
    ensures rule { HasTaken (view pass.old) result (view pass.new) }
    ensures some { result ≢ Out.Nothing }
    ensures fits { IfMessage result IsFitting }
{
    let mut lost = desk.lost.lock(rt);
    for _ in rt.forever() {
        match give(rt, &desk.place, pass) {
            Out::Nothing => lost = desk.changed.wait(rt, lost),
            given => return given,
        }
    }
    unreachable!()
}
