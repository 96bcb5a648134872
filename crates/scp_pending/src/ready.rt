//! What the pending stage gives to the slot stage.
ghost use Rattle.std.specs.Prelude.{◌≡◌, option_map, true, Some, None};
ghost use Rattle.scp_wire.specs.Carried.{is_carried};
ghost use Rattle.scp_wire.specs.Fitting.{IsFitting};
ghost use Rattle.scp_wire.specs.Sets.{IsSetOf};
ghost use Rattle.scp_pending.specs.Queues.{named, hash_of};
ghost use Rattle.scp_pending.specs.Line.{is_message_of as is_it};

use scp_wire::below::quorum::SaneSet;
use scp_wire::below::types::{ConnId, Seq};
use scp_wire::{Carried, Cause, Command, FittingMessage, Message};
use std::marker::Model;
use std::sync::Arc;

/// Why a message was dropped.
#[derive(Clone, Copy, PartialEq, Eq)]
pub enum DropCause {
    /// The quorum set that it names came, and isn't sane.
    BadSet,
    /// The quorum set that it names was missed twelve times.
    GaveUp,
    /// Its connection was closed while it was parked.
    Closed,
    /// It was one of 65 messages of its connection, and only 64 may be parked.
    ParkedFull,
}

/// A carried message on its way to the slot stage, which breaks no limit. With an envelope there is a sane quorum set whose hash the envelope
/// names; with any other message there is none.
#[derive(Drop)]
pub struct Delivery {
    conn: ConnId,
    seq: Seq,
    message: FittingMessage,
    set: Option<Arc<SaneSet>>,
}

impl Model for Delivery {
    ghost use Rattle.std.specs.Prelude.{◌≡◌, option_map, true};
    ghost use Rattle.std.specs.Coded.{codes};
    ghost use Rattle.scp_wire.specs.scp_xdr.specs.inside.TreeModel.{coded_row};
    ghost use Rattle.scp_wire.specs.scp_quorum.specs.inside.QuorumTree.{coded_level};
    ghost use Rattle.scp_wire.specs.Carried.{is_carried};
    ghost use Rattle.scp_wire.specs.Sets.{IsSetOf};
    ghost use Rattle.scp_pending.specs.Delivery.{DeliveryView};

    ghost Value = { DeliveryView };

    ghost coded = { Prim.hlevel (codes, coded_row coded_level) };

    ghost view = { λ d. record { conn = d.conn; seq = d.seq; message = d.message; set = option_map (λ s. s.value) d.set } };

    ghost invariant = { λ d. (is_carried d.message ≡ true) × IsSetOf d.message (option_map (λ s. s.value) d.set) };
}

impl Delivery {
    /// A message that names no quorum set.
    pub(crate) fn alone(carried: Carried) -> Delivery
        requires alone { named carried.message ≡ None }
        ensures { result ≡ record { conn = carried.conn; seq = carried.seq; message = carried.message; set = None } }
    {
        let Carried { conn, seq, message } = carried;
        Delivery {
            conn,
            seq,
            message,
            set: None,
        }
    }

    /// An envelope with the quorum set that it names.
    pub(crate) fn with_set(carried: Carried, set: Arc<SaneSet>) -> Delivery
        requires named { named carried.message ≡ Some (hash_of set.value) }
        ensures { result ≡ record { conn = carried.conn; seq = carried.seq; message = carried.message; set = Some set.value } }
    {
        let _ = set.set();
        let Carried { conn, seq, message } = carried;
        Delivery {
            conn,
            seq,
            message,
            set: Some(set),
        }
    }

    /// The connection that it came over.
    pub fn conn(&self) -> ConnId
        ensures { result ≡ self.now.conn }
    {
        self.conn
    }

    /// Its number among the carried messages of its connection, from 0.
    pub fn seq(&self) -> Seq
        ensures { result ≡ self.now.seq }
    {
        self.seq
    }

    /// The message: an envelope, a request for a record, or a record.
    pub fn message(&self) -> &Message
        ensures same { result.now ≡ self.now.message }
        ensures carried { is_carried self.now.message ≡ true }
        // It breaks no limit: a record's value has at most 4,096 bytes.
        ensures fits { IsFitting self.now.message }
    {
        self.message.get()
    }

    /// The quorum set that comes with an envelope: it is sane, and the envelope names its hash. None with any other
    /// message.
    pub fn set(&self) -> Option<&Arc<SaneSet>>
        ensures same { option_map (λ set. set.now.value) result ≡ self.now.set }
        ensures its_set { IsSetOf self.now.message self.now.set }
    {
        self.set.as_ref()
    }

    /// The message as it came, without its set. Takes no memory.
    pub(crate) fn into_carried(self) -> Carried
        ensures conn { result.conn ≡ self.conn }
        ensures seq { result.seq ≡ self.seq }
        ensures message { result.message ≡ self.message }
    {
        let Delivery {
            conn,
            seq,
            message,
            set: _set,
        } = self;
        Carried { conn, seq, message }
    }

    /// Its parts. Takes no memory.
    pub fn into_parts(self) -> (ConnId, Seq, Message, Option<Arc<SaneSet>>)
        ensures conn { result.0 ≡ self.conn }
        ensures seq { result.1 ≡ self.seq }
        ensures message { result.2 ≡ self.message }
        ensures set { option_map (λ set. set.value) result.3 ≡ self.set }
        ensures carried { is_carried self.message ≡ true }
        ensures fits { IsFitting self.message }
        ensures its_set { IsSetOf self.message self.set }
    {
        let Delivery {
            conn,
            seq,
            message,
            set,
        } = self;
        (conn, seq, message.into_inner(), set)
    }
}

/// What is ready for the slot stage.
#[derive(Drop)]
pub enum Ready {
    /// A message is taken.
    Deliver(Delivery),
    /// The message with this number on its connection is dropped.
    Dropped {
        conn: ConnId,
        seq: Seq,
        cause: DropCause,
    },
    /// The connection ended.
    Closed {
        conn: ConnId,
        cause: Cause,
    },
    /// A local command.
    Local(Command),
}

impl Ready {
    /// Whether it is a message of the connection.
    pub(crate) fn is_message_of(&self, conn: &ConnId) -> bool
        ensures { result ≡ is_it conn.now self.now }
    {
        match self {
            Ready::Deliver(delivery) => delivery.conn() == *conn,
            Ready::Dropped { conn: of, .. } => *of == *conn,
            Ready::Closed { .. } | Ready::Local(_) => false,
        }
    }
}
