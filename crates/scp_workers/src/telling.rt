//! What a worker does before it may wait: it wakes whoever waits for what it sent.
ghost use Rattle.std.specs.Prelude.{◌≡◌, ℕ, ◌<◌, [], ◌∷◌, ◌++◌, IfOk, MatchResult};
ghost use Rattle.scp_ends.specs.Order.{number_of, of, values};

use scp_ends::{Counter, Gate, Gone, Item, Law, Nobody, Rx, Tx};
use std::sync::Wait;

/// Wakes the consumer of an end, if there is one, if the gate may hold the worker.
fn tell_before<T: Drop, L: Law<T>, G: Gate>(gate: &G, tx: &mut Option<Tx<T, L>>)
    ensures { tx.new ≡ tx.old }
{
    if gate.may_hold() {
        if let Some(tx) = tx {
            tx.flush();
        }
    }
}

/// Receives the next item. Before it waits, it wakes the consumer of `tx`, if there is one.
fn receive_before<T: Drop, L: Law<T>, U: Drop, M: Law<U>, R: Wait>(
    rt: &R,
    rx: &mut Rx<T, L>,
    tx: &mut Option<Tx<U, M>>,
) -> Result<Item<T>, Gone<Nobody>>
    ensures same { tx.new ≡ tx.old }
    ensures received { MatchResult result (λ x. (rx.new ≡ record rx.old { got = rx.old.got ++ x ∷ [] }) × (number_of x < rx.old.producers)) (λ _. rx.new ≡ rx.old) }
    ensures fits { IfOk result (λ x. (p : ℕ) → L.fits (values (of p (rx.old.got ++ x ∷ [])))) }
    ensures alone { rx.old.producers ≡ 1 → IfOk result (λ x. L.fits (values (rx.old.got ++ x ∷ []))) }
{
    match tx {
        Some(tx) => rx.recv_before(rt, tx),
        None => rx.recv_as(rt),
    }
}

/// Receives the next item, of any producer, and calls the gate.
pub(crate) fn receive<T: Drop, L: Law<T>, U: Drop, M: Law<U>, R: Wait, G: Gate>(
    rt: &R,
    gate: &G,
    counter: &mut Counter,
    rx: &mut Rx<T, L>,
    tx: &mut Option<Tx<U, M>>,
) -> Result<Item<T>, Gone<Nobody>>
    ensures same { tx.new ≡ tx.old }
    ensures received { MatchResult result (λ x. (rx.new ≡ record rx.old { got = rx.old.got ++ x ∷ [] }) × (number_of x < rx.old.producers)) (λ _. rx.new ≡ rx.old) }
    ensures fits { IfOk result (λ x. (p : ℕ) → L.fits (values (of p (rx.old.got ++ x ∷ [])))) }
    ensures alone { rx.old.producers ≡ 1 → IfOk result (λ x. L.fits (values (rx.old.got ++ x ∷ []))) }
{
    let item = receive_before(rt, rx, tx)?;
    tell_before(gate, tx);
    counter.taken(gate);
    Ok(item)
}

/// The worker is about to send something, perhaps its end: if it has a sending end, counts that and calls the gate.
pub(crate) fn about_to_send<T: Drop, L: Law<T>, G: Gate>(
    gate: &G,
    counter: &mut Counter,
    tx: &mut Option<Tx<T, L>>,
)
    ensures { tx.new ≡ tx.old }
{
    if tx.is_some() {
        tell_before(gate, tx);
        counter.putting(gate);
    }
}
