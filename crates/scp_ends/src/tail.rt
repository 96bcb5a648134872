//! The sending end of a link.
ghost use Rattle.std.specs.Prelude.{◌≡◌, ◌↔◌, ◌⊎◌, [], true, false, OnOk, OnErr, IfErr, MatchResult, IsErrOf};
ghost use Rattle.scp_ledger.specs.scp_wire.specs.declared.link.LinkItem.TheVariants as item;
ghost use Rattle.scp_ledger.specs.scp_wire.specs.Tails.{GoesNext};
ghost use Rattle.scp_ends.specs.Ends.{IsQueued, HeardAll};
ghost use Rattle.scp_ends.specs.Order.{values};
ghost use Rattle.scp_ends.specs.Links.{LinkEnd, stands, conn_now, conn_next, with_item, IsLink};

use crate::ends::{Done, Gone, Rx, Tx};
use crate::rule::Any;
use scp_ledger::below::types::{Fault, NodeId};
use scp_ledger::below::wire::{Bytes, LinkItem, Next, Tail, a_beginning_keeps_the_shape};
use std::marker::Model;
use std::sync::Wait;

/// Why nothing was sent over a link.
#[derive(Drop)]
pub enum NotSent {
    /// `Fault::NotOpen`, `Fault::AlreadyOpen` or `Fault::LivesSpent`.
    Refused(Fault),
    /// The receiving end is gone; this is what was to be sent.
    Gone(LinkItem),
}

impl From<Fault> for NotSent {
    ghost use Rattle.scp_ends.specs.declared.tail.NotSent.TheVariants.{Refused};

    ghost from_gives = { λ fault e. e ≡ Refused fault };

    fn from(fault: Fault) -> NotSent {
        NotSent::Refused(fault)
    }
}

/// The sending end of the link from one node to another. Each opening of the link is a connection of its own.
#[derive(Drop)]
pub struct LinkTx {
    from: NodeId,
    to: NodeId,
    tail: Tx<LinkItem, Any>,
    at: Tail,
}

impl Model for LinkTx {
    ghost use Rattle.std.specs.Prelude.{◌≡◌};
    ghost use Rattle.scp_ends.specs.Links.{LinkEnd, stands, IsLink};

    ghost Value = { LinkEnd };

    ghost view = { λ k. record { from = k.from; to = k.to; tail = k.tail } };

    ghost invariant = { λ k. IsLink (record { from = k.from; to = k.to; tail = k.tail }) × (stands (record { from = k.from; to = k.to; tail = k.tail }) ≡ k.at) };
}

/// What the sending end of a link leaves when it has ended.
pub struct LinkDone {
    from: NodeId,
    to: NodeId,
    tail: Done<LinkItem, Any>,
}

impl Drop for LinkDone {
    fn drop(self) {
        let LinkDone {
            from: _,
            to: _,
            tail: _,
        } = self;
    }
}

impl Model for LinkDone {
    ghost use Rattle.scp_ends.specs.Links.{LinkEnd, IsLink};

    ghost Value = { LinkEnd };

    ghost view = { λ k. record { from = k.from; to = k.to; tail = k.tail } };

    ghost invariant = { λ k. IsLink (record { from = k.from; to = k.to; tail = k.tail }) };
}

impl LinkTx {
    pub(crate) fn made(from: NodeId, to: NodeId, tail: Tx<LinkItem, Any>) -> LinkTx
        requires { tail.sent ≡ [] }
        ensures { result ≡ record { from = from; to = to; tail = tail } }
    {
        LinkTx {
            from,
            to,
            tail,
            at: Tail::new(),
        }
    }

    /// How often the link was opened.
    pub fn lives(&self) -> u32
        ensures { result ≡ (stands self.now).life }
    {
        self.at.life()
    }

    /// Whether the link is open.
    pub fn is_open(&self) -> bool
        ensures { result ≡ (stands self.now).is_open }
    {
        self.at.is_open()
    }

    /// Opens the link: its next connection begins. Refused by `AlreadyOpen`, and by `LivesSpent` after 65,535 lives.
    pub fn open<R: Wait>(&mut self, rt: &R) -> Result<(), NotSent>
        ensures opened { OnOk result (self.new ≡ with_item self.old (item.Opened (conn_next self.old))) }
        ensures same { OnErr result (self.new ≡ self.old) }
        ensures already_open { IsErrOf result (NotSent.Refused Fault.AlreadyOpen) ↔ ((stands self.old).is_open ≡ true) }
        ensures lives_spent { IsErrOf result (NotSent.Refused Fault.LivesSpent) ↔ (((stands self.old).is_open ≡ false) × ((stands self.old).life ≡ 65535)) }
        ensures only { IfErr result (λ e. (e ≡ NotSent.Refused Fault.AlreadyOpen) ⊎ ((e ≡ NotSent.Refused Fault.LivesSpent) ⊎ (e ≡ NotSent.Gone (item.Opened (conn_next self.old))))) }
    {
        let next = self.at.opening(self.from, self.to)?;
        self.push(rt, next)
    }

    /// Sends bytes on the open connection. Refused by `NotOpen`.
    pub fn send<R: Wait>(&mut self, rt: &R, bytes: Bytes) -> Result<(), NotSent>
        ensures sent { OnOk result (self.new ≡ with_item self.old (item.Bytes (conn_now self.old) bytes)) }
        ensures same { OnErr result (self.new ≡ self.old) }
        ensures not_open { IsErrOf result (NotSent.Refused Fault.NotOpen) ↔ ((stands self.old).is_open ≡ false) }
        ensures only { IfErr result (λ e. (e ≡ NotSent.Refused Fault.NotOpen) ⊎ (e ≡ NotSent.Gone (item.Bytes (conn_now self.old) bytes))) }
    {
        let next = self.at.carrying(self.from, self.to, bytes)?;
        self.push(rt, next)
    }

    /// Closes the open connection. Refused by `NotOpen`.
    pub fn close<R: Wait>(&mut self, rt: &R) -> Result<(), NotSent>
        ensures closed { OnOk result (self.new ≡ with_item self.old (item.Closed (conn_now self.old))) }
        ensures same { OnErr result (self.new ≡ self.old) }
        ensures not_open { IsErrOf result (NotSent.Refused Fault.NotOpen) ↔ ((stands self.old).is_open ≡ false) }
        ensures only { IfErr result (λ e. (e ≡ NotSent.Refused Fault.NotOpen) ⊎ (e ≡ NotSent.Gone (item.Closed (conn_now self.old)))) }
    {
        let next = self.at.closing(self.from, self.to)?;
        self.push(rt, next)
    }

    /// Wakes the reader if it wasn't woken for all that was sent. To be called before this thread waits for something else.
    pub fn flush(&mut self)
        ensures { self.new ≡ self.old }
    {
        self.tail.flush();
    }

    /// Ends the link. If the receiving end is gone, hands the end back.
    pub fn stop<R: Wait>(self, rt: &R) -> Result<LinkDone, Gone<LinkTx>>
        ensures { MatchResult result (λ d. d ≡ self) (λ e. e.0 ≡ self) }
    {
        let LinkTx { from, to, tail, at } = self;
        match tail.stop(rt) {
            Ok(tail) => Ok(LinkDone { from, to, tail }),
            Err(unheard) => Err(Gone(LinkTx {
                from,
                to,
                tail: unheard.into_end(),
                at,
            })),
        }
    }

    /// Sends what goes next.
    fn push<R: Wait>(&mut self, rt: &R, next: Next) -> Result<(), NotSent>
        requires next { GoesNext self.old.from self.old.to (stands self.old) next }
        ensures sent { OnOk result (self.new ≡ with_item self.old next.item) }
        ensures same { OnErr result (self.new ≡ self.old) }
        ensures only { IfErr result (λ e. e ≡ NotSent.Gone next.item) }
    {
        a_beginning_keeps_the_shape();
        match self.tail.send_as(rt, next.item) {
            Ok(()) => {
                self.at = next.tail;
                Ok(())
            }
            Err(Gone(item)) => Err(NotSent::Gone(item)),
        }
    }
}

impl LinkDone {
    /// Gives the link's pass back to its receiving end. What was sent is what was received, followed by what the link holds.
    pub fn return_to(self, rx: &mut Rx<LinkItem, Any>)
        requires line { self.tail.line ≡ rx.old.line }
        ensures same { rx.new ≡ rx.old }
        ensures link { IsLink self }
        ensures queued { IsQueued rx.old self.tail }
        ensures alone { rx.old.producers ≡ 1 → HeardAll rx.old → values rx.old.got ≡ self.tail.sent }
    {
        let LinkDone {
            from: _,
            to: _,
            tail,
        } = self;
        rx.take_back(tail);
    }
}
