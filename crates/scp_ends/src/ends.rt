//! The ends of a channel, each with its pass.
ghost use Rattle.std.specs.Prelude.{◌≡◌, ℕ, ◌+◌, ◌<◌, ◌≤◌, List, [], ◌∷◌, ◌++◌, true, length, IfOk, IfSome, MatchOption, MatchResult};
ghost use Rattle.crossbeam_channel.specs.Claims.{IsSeatAt};
ghost use Rattle.crossbeam_channel.specs.Claims as claims;
ghost use Rattle.scp_ends.specs.declared.item.Item.{Item};
ghost use Rattle.crossbeam_channel.specs.Ends.{sends_on, receives_on, ruled_capacity};
ghost use Rattle.scp_ends.specs.Order as order;
ghost use Rattle.scp_ends.specs.Ends as ends;
ghost use Rattle.scp_ends.specs.inside.Passes as passes;

use crate::item::{Item, View};
use crate::rule::{InOrder, Law, Receives, Sends, Takes, Told};
use crate::waiting::{Ringer, look, recv_late, send_late};
use crossbeam_channel::{Pass, RuledReceiver, RuledSender};
use std::marker::Model;
use std::sync::Wait;

/// What was to be sent when the other end was gone.
#[derive(Drop)]
pub struct Gone<T>(pub T);

/// No producer is there any more; only a receive finds this.
#[derive(Drop)]
pub struct Nobody(());

/// A producer's end.
#[derive(Drop)]
pub struct Tx<T: Drop, L: Law<T>> {
    sender: RuledSender<Item<T>, View<T>, InOrder<L>>,
    pass: Pass<Item<T>, View<T>>,
    number: u8,
    ringer: Ringer,
}

impl<T: Drop, L: Law<T>> Model for Tx<T, L> {
    ghost Value = { ends.Sender T };

    ghost view = { λ s. passes.sender_of s.number s.pass };

    ghost invariant = { λ s. IsSeatAt (sends_on s.sender) s.pass × passes.IsSending s.number s.pass × passes.HasRoom (ruled_capacity (sends_on s.sender)) s.pass };
}

/// A producer's end that couldn't be ended because the consumer is gone; only `stop` makes one.
#[derive(Drop)]
pub struct Unheard<T: Drop, L: Law<T>> {
    end: Tx<T, L>,
}

impl<T: Drop, L: Law<T>> Model for Unheard<T, L> {
    ghost Value = { ends.Sender T };

    ghost view = { λ u. u.end };
}

impl<T: Drop, L: Law<T>> Unheard<T, L> {
    /// The end.
    pub(crate) fn into_end(self) -> Tx<T, L>
        ensures { result ≡ self }
    {
        let Unheard { end } = self;
        end
    }
}

/// What a producer that has ended leaves.
#[derive(Drop)]
pub struct Done<T: Drop, L: Law<T>> {
    sender: RuledSender<Item<T>, View<T>, InOrder<L>>,
    pass: Pass<Item<T>, View<T>>,
    number: u8,
    ringer: Ringer,
}

impl<T: Drop, L: Law<T>> Model for Done<T, L> {
    ghost Value = { ends.Sender T };

    ghost view = { λ s. passes.sender_of s.number s.pass };

    ghost invariant = { λ s. IsSeatAt (sends_on s.sender) s.pass × passes.IsEnded s.number s.pass };
}

/// The consumer's end.
#[derive(Drop)]
pub struct Rx<T: Drop, L: Law<T>> {
    receiver: RuledReceiver<Item<T>, View<T>, InOrder<L>>,
    pass: Pass<Item<T>, View<T>>,
    ringer: Ringer,
}

impl<T: Drop, L: Law<T>> Model for Rx<T, L> {
    ghost Value = { ends.Receiver T };

    ghost view = { λ s. passes.receiver_of s.pass };

    ghost invariant = { λ s. IsSeatAt (receives_on s.receiver) s.pass × passes.IsReceiving s.pass };
}

impl<T: Drop, L: Law<T>> Tx<T, L> {
    pub(crate) fn made(
        sender: RuledSender<Item<T>, View<T>, InOrder<L>>,
        pass: Pass<Item<T>, View<T>>,
        number: u8,
        ringer: Ringer,
    ) -> Tx<T, L>
        requires seat { IsSeatAt (sends_on sender) pass }
        requires fresh { claims.view pass ≡ passes.sender (ruled_capacity (sends_on sender)) number [] }
        ensures { result ≡ ends.fresh (passes.line_of pass) number }
    {
        Tx {
            sender,
            pass,
            number,
            ringer,
        }
    }

    /// Sends one thing. If the consumer is gone, hands the thing back.
    pub fn send_as<R: Wait>(&mut self, rt: &R, thing: T) -> Result<(), Gone<T>>
        requires { L.fits (self.old.sent ++ thing ∷ []) }
        ensures { MatchResult result (λ _. self.new ≡ record self.old { sent = self.old.sent ++ thing ∷ [] }) (λ e. (e.0 ≡ thing) × (self.new ≡ self.old)) }
    {
        match send_late::<Item<T>, View<T>, InOrder<L>, Sends, R>(
            rt,
            &self.sender,
            &mut self.ringer,
            &mut self.pass,
            Item::One(self.number, thing),
        ) {
            Ok(()) => Ok(()),
            Err(e) => match e {
                Item::One(_, back) => Err(Gone(back)),
                Item::Stop(_) => unreachable!(),
            },
        }
    }

    /// Wakes the consumer if it wasn't woken for all that was put. To be called before this thread waits for something else.
    pub fn flush(&mut self)
        ensures { self.new ≡ self.old }
    {
        self.ringer.tell_receiver();
    }

    /// Ends the producer. If the consumer is gone, hands the end back.
    pub fn stop<R: Wait>(mut self, rt: &R) -> Result<Done<T, L>, Unheard<T, L>>
        ensures { MatchResult result (λ d. d ≡ self) (λ e. e ≡ self) }
    {
        match send_late::<Item<T>, View<T>, InOrder<L>, Sends, R>(
            rt,
            &self.sender,
            &mut self.ringer,
            &mut self.pass,
            Item::Stop(self.number),
        ) {
            Ok(()) => {
                self.ringer.call_receiver();
                Ok(Done {
                    sender: self.sender,
                    pass: self.pass,
                    number: self.number,
                    ringer: self.ringer,
                })
            }
            Err(_) => Err(Unheard { end: self }),
        }
    }
}

impl<T: Drop, L: Law<T>> Rx<T, L> {
    pub(crate) fn made(
        receiver: RuledReceiver<Item<T>, View<T>, InOrder<L>>,
        pass: Pass<Item<T>, View<T>>,
        ringer: Ringer,
    ) -> Rx<T, L>
        requires seat { IsSeatAt (receives_on receiver) pass }
        requires gets { (claims.view pass).gets ≡ true }
        ensures { result ≡ passes.receiver_of pass }
    {
        Rx {
            receiver,
            pass,
            ringer,
        }
    }

    /// Receives the next item, of any producer.
    pub fn recv_as<R: Wait>(&mut self, rt: &R) -> Result<Item<T>, Gone<Nobody>>
        ensures received { MatchResult result (λ x. (self.new ≡ record self.old { got = self.old.got ++ x ∷ [] }) × (order.number_of x < self.old.producers)) (λ _. self.new ≡ self.old) }
        ensures fits { IfOk result (λ x. (p : ℕ) → L.fits (order.values (order.of p (self.old.got ++ x ∷ [])))) }
        ensures alone { self.old.producers ≡ 1 → IfOk result (λ x. L.fits (order.values (self.old.got ++ x ∷ []))) }
    {
        match recv_late::<Item<T>, View<T>, InOrder<L>, Receives<L>, R>(
            rt,
            &self.receiver,
            &mut self.ringer,
            &mut self.pass,
        ) {
            Ok(item) => Ok(item),
            Err(()) => Err(Gone(Nobody(()))),
        }
    }

    /// Receives the next item, of any producer, if there is one; otherwise `None`.
    pub fn try_recv_as<R: Wait>(&mut self, rt: &R) -> Result<Option<Item<T>>, Gone<Nobody>>
        ensures received { MatchResult result (λ found. MatchOption found (self.new ≡ self.old) (λ x. (self.new ≡ record self.old { got = self.old.got ++ x ∷ [] }) × (order.number_of x < self.old.producers))) (λ _. self.new ≡ self.old) }
        ensures fits { IfOk result (λ found. IfSome found (λ x. (p : ℕ) → L.fits (order.values (order.of p (self.old.got ++ x ∷ []))))) }
        ensures alone { self.old.producers ≡ 1 → IfOk result (λ found. IfSome found (λ x. L.fits (order.values (self.old.got ++ x ∷ [])))) }
    {
        match look::<Item<T>, View<T>, InOrder<L>, Receives<L>, R>(
            rt,
            &self.receiver,
            &mut self.ringer,
            &mut self.pass,
        ) {
            Ok(found) => Ok(found),
            Err(()) => Err(Gone(Nobody(()))),
        }
    }

    /// Receives the next item, of any producer. Before it waits, it wakes the consumer of `out`.
    pub fn recv_before<R: Wait, U: Drop, M: Law<U>>(
        &mut self,
        rt: &R,
        out: &mut Tx<U, M>,
    ) -> Result<Item<T>, Gone<Nobody>>
        ensures same { out.new ≡ out.old }
        ensures received { MatchResult result (λ x. (self.new ≡ record self.old { got = self.old.got ++ x ∷ [] }) × (order.number_of x < self.old.producers)) (λ _. self.new ≡ self.old) }
        ensures fits { IfOk result (λ x. (p : ℕ) → L.fits (order.values (order.of p (self.old.got ++ x ∷ [])))) }
        ensures alone { self.old.producers ≡ 1 → IfOk result (λ x. L.fits (order.values (self.old.got ++ x ∷ []))) }
    {
        if let Some(item) = self.try_recv_as(rt)? {
            return Ok(item);
        }
        out.flush();
        self.recv_as(rt)
    }

    /// Takes a producer's pass back. What the producer sent is what was received of it, followed by what the channel holds of it.
    pub fn take_back(&mut self, done: Done<T, L>)
        requires { done.line ≡ self.old.line }
        ensures same { self.new ≡ self.old }
        ensures queued { ends.IsQueued self.old done }
        ensures whole { ends.stopped done.number self.old.got ≡ true → ends.heard done.number self.old.got ≡ done.sent }
        ensures alone { self.old.producers ≡ 1 → ends.HeardAll self.old → order.values self.old.got ≡ done.sent }
    {
        let Done {
            sender,
            pass,
            number: _,
            ringer: _ringer,
        } = done;
        sender.absorb::<Takes>(&mut self.pass, pass);
        sender.learn_as::<Told>(&mut self.pass);
    }
}
