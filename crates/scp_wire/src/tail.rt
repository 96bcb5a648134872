//! The sending end of a link, and what goes over the link next.
ghost use Rattle.std.specs.Prelude.{◌≡◌, ◌↔◌, ◌+◌, ◌<◌, ◌⊎◌, true, false, IfOk, IfErr, OnOk, OnErr, IsErrOf, IsOkUnless};
ghost use Rattle.scp_wire.specs.declared.link.LinkItem.TheVariants as item;
ghost use Rattle.scp_wire.specs.Connections.{conn_at};
ghost use Rattle.scp_wire.specs.Shape.{never_open};
ghost use Rattle.scp_wire.specs.Tails.{GoesNext};

use crate::link::{Bytes, LinkItem};
use scp_quorum::below::types::{ConnId, Fault, LIFE_LIMIT, NodeId};
use std::marker::Model;

/// The sending end of a link: how often the link was opened, and whether it is open. Whoever sends what a call gives
/// keeps the tail that the call gives with it.
#[derive(Drop)]
pub struct Tail {
    life: u32,
    is_open: bool,
}

impl Model for Tail {
    ghost use Rattle.std.specs.Prelude.{◌≤◌};
    ghost use Rattle.std.specs.Coded.{codes};
    ghost use Rattle.scp_wire.specs.Shape as shape;

    ghost Value = { shape.Tail };

    ghost coded = { Prim.hlevel (codes) };

    ghost view = { λ t. record { life = t.life; is_open = t.is_open } };

    ghost invariant = { λ t. t.life ≤ 65535 };
}

/// What goes over a link next, and the link's tail after it.
#[derive(Drop)]
pub struct Next {
    /// What is sent.
    pub item: LinkItem,
    /// The tail once it is sent.
    pub tail: Tail,
}

impl Tail {
    /// The tail of a link that was never open.
    pub fn new() -> Tail
        ensures { result ≡ never_open }
    {
        Tail {
            life: 0,
            is_open: false,
        }
    }

    /// How often the link was opened.
    pub fn life(&self) -> u32
        ensures { result ≡ self.now.life }
    {
        self.life
    }

    /// Whether the link is open.
    pub fn is_open(&self) -> bool
        ensures { result ≡ self.now.is_open }
    {
        self.is_open
    }

    /// What opens the link: its next life, a connection of its own, begins. Refused by `AlreadyOpen`, and by `LivesSpent` after
    /// 65,535 lives.
    pub fn opening(&self, from: NodeId, to: NodeId) -> Result<Next, Fault>
        ensures opened { IfOk result (λ next. next ≡ record { item = item.Opened (conn_at from to (self.now.life + 1)); tail = record { life = self.now.life + 1; is_open = true } }) }
        ensures was_closed { OnOk result ((self.now.is_open ≡ false) × (self.now.life < 65535)) }
        ensures next { IfOk result (λ next. GoesNext from to self.now next) }
        ensures already_open { IsErrOf result Fault.AlreadyOpen ↔ (self.now.is_open ≡ true) }
        ensures lives_spent { IsErrOf result Fault.LivesSpent ↔ ((self.now.is_open ≡ false) × (self.now.life ≡ 65535)) }
        ensures only { IfErr result (λ e. (e ≡ Fault.AlreadyOpen) ⊎ (e ≡ Fault.LivesSpent)) }
    {
        if self.is_open {
            return Err(Fault::AlreadyOpen);
        }
        if self.life == LIFE_LIMIT {
            return Err(Fault::LivesSpent);
        }
        let life = self.life + 1;
        Ok(Next {
            item: LinkItem::Opened(ConnId { from, to, life }),
            tail: Tail {
                life,
                is_open: true,
            },
        })
    }

    /// What carries these bytes on the open connection. Refused by `NotOpen`.
    pub fn carrying(&self, from: NodeId, to: NodeId, bytes: Bytes) -> Result<Next, Fault>
        ensures carried { IfOk result (λ next. next ≡ record { item = item.Bytes (conn_at from to self.now.life) bytes; tail = self.now }) }
        ensures next { IfOk result (λ next. GoesNext from to self.now next) }
        ensures was_open { OnOk result (self.now.is_open ≡ true) }
        ensures not_open { OnErr result (self.now.is_open ≡ false) }
        ensures only { IsOkUnless result Fault.NotOpen }
    {
        if !self.is_open {
            return Err(Fault::NotOpen);
        }
        let life = self.life;
        Ok(Next {
            item: LinkItem::Bytes(ConnId { from, to, life }, bytes),
            tail: Tail {
                life,
                is_open: self.is_open,
            },
        })
    }

    /// What closes the open connection. Refused by `NotOpen`.
    pub fn closing(&self, from: NodeId, to: NodeId) -> Result<Next, Fault>
        ensures closed { IfOk result (λ next. next ≡ record { item = item.Closed (conn_at from to self.now.life); tail = record { life = self.now.life; is_open = false } }) }
        ensures next { IfOk result (λ next. GoesNext from to self.now next) }
        ensures was_open { OnOk result (self.now.is_open ≡ true) }
        ensures not_open { OnErr result (self.now.is_open ≡ false) }
        ensures only { IsOkUnless result Fault.NotOpen }
    {
        if !self.is_open {
            return Err(Fault::NotOpen);
        }
        let life = self.life;
        Ok(Next {
            item: LinkItem::Closed(ConnId { from, to, life }),
            tail: Tail {
                life,
                is_open: false,
            },
        })
    }
}
