//! What a worker does with a thing: it takes it into its stage, and sends what the stage gives.
ghost use Rattle.std.specs.Prelude.{◌≡◌, true, false, [], ◌∷◌, ◌++◌, option_to_list};
ghost use Rattle.scp_workers.specs.Working.{IsSameOutput, AreSameOutlets, sent_by};
ghost use Rattle.scp_workers.specs.inside.Working.{GivesOn, TakesOn, RanTo, MayTake};

use crate::handing::hand_out;
use crate::stage::{Given, Stage};
use crate::telling::about_to_send;
use scp_ends::{Counter, Gate, Law, Tx};
use scp_shared_outbox::Putter;
use std::sync::Wait;

/// Sends a thing. Returns whether it was sent.
fn send<U: Drop, M: Law<U>, R: Wait, G: Gate>(
    rt: &R,
    gate: &G,
    counter: &mut Counter,
    tx: &mut Option<Tx<U, M>>,
    thing: U,
) -> bool
    requires { M.fits (sent_by tx.old ++ thing ∷ []) }
    ensures same { IsSameOutput tx.old tx.new }
    ensures sent { result ≡ true → sent_by tx.new ≡ sent_by tx.old ++ thing ∷ [] }
{
    about_to_send(gate, counter, tx);
    match tx {
        Some(tx) => tx.send_as(rt, thing).is_ok(),
        None => false,
    }
}

/// Sends a thing, if there is one. Returns whether nothing was lost.
fn send_any<U: Drop, M: Law<U>, R: Wait, G: Gate>(
    rt: &R,
    gate: &G,
    counter: &mut Counter,
    tx: &mut Option<Tx<U, M>>,
    thing: Option<U>,
) -> bool
    requires { M.fits (sent_by tx.old ++ option_to_list thing) }
    ensures same { IsSameOutput tx.old tx.new }
    ensures sent { result ≡ true → sent_by tx.new ≡ sent_by tx.old ++ option_to_list thing }
{
    match thing {
        Some(thing) => send(rt, gate, counter, tx, thing),
        None => true,
    }
}

/// What became of the next thing that a stage gives.
#[derive(Clone, Copy, PartialEq, Eq)]
enum Gave {
    Sent,
    Nothing,
    Lost,
}

/// Sends the next thing that the stage gives, if there is one.
fn give_one<T: Drop, L: Law<T>, U: Drop, M: Law<U>, S: Stage<T, L, U, M>, R: Wait, G: Gate>(
    rt: &R,
    gate: &G,
    counter: &mut Counter,
    stage: &mut S,
    tx: &mut Option<Tx<U, M>>,
) -> Gave
    requires { RanTo S.runs (sent_by tx.old) stage.old }
    ensures same { IsSameOutput tx.old tx.new }
    ensures gives { (result ≡ Gave.Lost → ⊥) → GivesOn S.runs stage.old (sent_by tx.old) stage.new (sent_by tx.new) }
    ensures nothing { result ≡ Gave.Nothing → S.rests stage.new }
{
    let Some(thing) = stage.give() else {
        return Gave::Nothing;
    };
    if send(rt, gate, counter, tx, thing) {
        Gave::Sent
    } else {
        Gave::Lost
    }
}

/// Sends all that the stage gives. Returns whether nothing was lost.
fn give_all<T: Drop, L: Law<T>, U: Drop, M: Law<U>, S: Stage<T, L, U, M>, R: Wait, G: Gate>(
    rt: &R,
    gate: &G,
    counter: &mut Counter,
    stage: &mut S,
    tx: &mut Option<Tx<U, M>>,
) -> bool
    requires { RanTo S.runs (sent_by tx.old) stage.old }
    ensures same { IsSameOutput tx.old tx.new }
    ensures gives { result ≡ true → GivesOn S.runs stage.old (sent_by tx.old) stage.new (sent_by tx.new) × S.rests stage.new }
{
    for _ in rt.forever() {
        match give_one::<T, L, U, M, S, R, G>(rt, gate, counter, stage, tx) {
            Gave::Sent => {}
            Gave::Nothing => return true,
            Gave::Lost => return false,
        }
    }
    false
}

/// Takes a thing into the stage, hands out what goes to peers, and sends all that the stage gives then. Returns whether nothing was lost.
fn take_one<T: Drop, L: Law<T>, U: Drop, M: Law<U>, S: Stage<T, L, U, M>, R: Wait, G: Gate>(
    rt: &R,
    gate: &G,
    counter: &mut Counter,
    outlets: &mut Vec<Putter>,
    stage: &mut S,
    tx: &mut Option<Tx<U, M>>,
    thing: T,
) -> bool
    requires rests { S.rests stage.old }
    requires may { MayTake S.runs L.fits thing (sent_by tx.old) stage.old }
    ensures same { IsSameOutput tx.old tx.new }
    ensures outlets { AreSameOutlets outlets.old.items outlets.new.items }
    ensures takes { result ≡ true → TakesOn S.runs thing stage.old (sent_by tx.old) outlets.old.items stage.new (sent_by tx.new) outlets.new.items × S.rests stage.new }
{
    let Some(given) = stage.take(thing) else {
        return false;
    };
    let Given { onward, outs } = given;
    let Ok(()) = hand_out(rt, outlets, outs) else {
        return false;
    };
    send_any(rt, gate, counter, tx, onward)
        && give_all::<T, L, U, M, S, R, G>(rt, gate, counter, stage, tx)
}

/// The same, unless something was lost before. Returns whether something is lost.
pub(crate) fn take_or_lose<
    T: Drop,
    L: Law<T>,
    U: Drop,
    M: Law<U>,
    S: Stage<T, L, U, M>,
    R: Wait,
    G: Gate,
>(
    rt: &R,
    gate: &G,
    counter: &mut Counter,
    outlets: &mut Vec<Putter>,
    stage: &mut S,
    tx: &mut Option<Tx<U, M>>,
    failed: bool,
    thing: T,
) -> bool
    requires rests { failed ≡ false → S.rests stage.old }
    requires may { failed ≡ false → MayTake S.runs L.fits thing (sent_by tx.old) stage.old }
    ensures same { IsSameOutput tx.old tx.new }
    ensures outlets { AreSameOutlets outlets.old.items outlets.new.items }
    ensures lost { failed ≡ true → result ≡ true }
    ensures takes { result ≡ false → (failed ≡ false) × TakesOn S.runs thing stage.old (sent_by tx.old) outlets.old.items stage.new (sent_by tx.new) outlets.new.items × S.rests stage.new }
{
    failed || !take_one::<T, L, U, M, S, R, G>(rt, gate, counter, outlets, stage, tx, thing)
}
