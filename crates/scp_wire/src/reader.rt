//! The reader of one link.
ghost use Rattle.std.specs.Prelude.{List, [], ◌∷◌, ◌++◌, ◌+◌, ◌^◌, ◌≤◌, length, false, ◌≡◌, ◌≢◌, ◌↔◌, IfOk, OnOk, OnErr, IfNone, IsTrue, IsOkUnless, Some, None, true, drop, option_to_list};
ghost use Rattle.scp_wire.specs.declared.link.LinkItem.{LinkItem};
ghost use Rattle.scp_wire.specs.declared.link.Inbound.{Inbound};
ghost use Rattle.scp_wire.specs.Carried.{is_carried};
ghost use Rattle.scp_wire.specs.Fitting.{IsFitting};
ghost use Rattle.scp_wire.specs.LinkReading.{reading, after, unread, brought_each, after_each, records_from, brought_one, after_one, brought, after_read, first_of, taken_by, HasRead};
ghost use Rattle.scp_wire.specs.inside.LinkReading.{HasRoom};

use crate::carried::Carried;
use crate::codec::decode;
use crate::fitting::FittingMessage;
use crate::link::{Cause, Inbound, LinkItem};
use crate::message::Message;
use crate::side::SideMessage;
use scp_envelope::ValueList;
use scp_quorum::below::types::{CARRIED_LIMIT, ConnId, Fault, Seq, Slot};
use std::alloc::Global;
use std::collections::VecDeque;
use std::marker::Model;

/// Where a reader is on its link.
#[derive(Drop)]
struct Place {
    ended: bool,
    next: u64,
}

impl Model for Place {
    ghost use Rattle.std.specs.Prelude.{◌≤◌};
    ghost use Rattle.std.specs.Coded.{codes};
    ghost use Rattle.scp_wire.specs.LinkReading.{ReaderView};

    ghost Value = { ReaderView };

    ghost coded = { Prim.hlevel (codes) };

    ghost view = { λ a. record { ended = a.ended; next = a.next } };

    ghost invariant = { λ a. a.next ≤ 1000000 };
}

/// Reads the items of one link in turn. Contracts see whether its connection is over, the next number, and what was read of a
/// batch and has still to be given.
#[derive(Drop)]
pub struct LinkReader {
    at: Place,
    rest: VecDeque<Inbound>,
}

impl Model for LinkReader {
    ghost use Rattle.std.specs.Coded.{codes};
    ghost use Rattle.scp_quorum.specs.scp_xdr.specs.inside.TreeModel.{coded_row};
    ghost use Rattle.scp_quorum.specs.inside.QuorumTree.{coded_level};
    ghost use Rattle.scp_wire.specs.LinkReading.{ReaderState};

    ghost Value = { ReaderState };

    ghost coded = { Prim.hlevel (codes, coded_row coded_level) };

    ghost view = { λ a. record { at = a.at; rest = a.rest.items } };
}

impl LinkReader {
    /// A reader for a link that was never open. Takes no memory.
    pub fn new(alloc: Global) -> LinkReader
        ensures unread { result ≡ record { at = unread; rest = [] } }
        ensures nothing { HasRead [] [] result }
    {
        LinkReader {
            at: Place {
                ended: true,
                next: 0,
            },
            rest: VecDeque::new(alloc),
        }
    }

    /// Reads the link's next item, if nothing is left of a batch. `None` if the item is discarded, since its connection ended
    /// before. Of a batch it gives the first record, and `rest` gives the others.
    pub fn take(&mut self, alloc: Global, item: LinkItem) -> Result<Option<Inbound>, Fault>
        requires no_rest { self.old.rest ≡ [] }
        // What is given is the first thing that the item is read as.
        ensures reading { IfOk result (λ got. got ≡ first_of (reading self.old.at item)) }
        // The reader has gone past it, and keeps the others.
        ensures after { OnOk result (self.new ≡ taken_by self.old item) }
        // What was read of a list of items becomes what is read of the list with this item.
        ensures reads { (items : List LinkItem) → (given : List Inbound) → HasRead items given self.old → IfOk result (λ got. HasRead (items ++ item ∷ []) (given ++ option_to_list got) self.new) }
        // A refusal leaves the reader as it was.
        ensures unchanged { OnErr result (self.new ≡ self.old) }
        // The only refusal is `NoMemory`.
        ensures only_memory { IsOkUnless result Fault.NoMemory }
    {
        self.read(alloc, item)
    }

    /// Whether something is left of a batch.
    pub fn has_rest(&self) -> bool
        ensures some { IsTrue result ↔ (self.now.rest ≢ []) }
        ensures none { (result ≡ false) ↔ (self.now.rest ≡ []) }
    {
        !self.rest.is_empty()
    }

    /// The next record of what is left of a batch. Takes no memory.
    pub fn rest(&mut self) -> Option<Inbound>
        ensures gives { self.old.rest ≡ option_to_list result ++ self.new.rest }
        ensures none { result ≡ None ↔ self.old.rest ≡ [] }
        ensures same { self.new.at ≡ self.old.at }
        ensures reads { (items : List LinkItem) → (given : List Inbound) → HasRead items given self.old → HasRead items (given ++ option_to_list result) self.new }
    {
        next(&mut self.rest)
    }

    /// What an item is read as.
    fn read(&mut self, alloc: Global, item: LinkItem) -> Result<Option<Inbound>, Fault>
        requires no_rest { self.old.rest ≡ [] }
        ensures reading { IfOk result (λ got. got ≡ first_of (reading self.old.at item)) }
        ensures after { OnOk result (self.new ≡ taken_by self.old item) }
        ensures unchanged { OnErr result (self.new ≡ self.old) }
        ensures only_memory { IsOkUnless result Fault.NoMemory }
    {
        match item {
            LinkItem::Opened(conn) => {
                self.at = Place {
                    ended: false,
                    next: 0,
                };
                Ok(Some(Inbound::Opened(conn)))
            }
            LinkItem::Bytes(conn, bytes) => {
                if self.at.ended {
                    return Ok(None);
                }
                match decode(alloc, bytes.as_slice()) {
                    Ok(message) => self.bring(alloc, conn, message),
                    Err(Fault::NoMemory) => Err(Fault::NoMemory),
                    Err(_) => Ok(Some(self.at.end(conn, Cause::Malformed))),
                }
            }
            LinkItem::Closed(conn) => {
                if self.at.ended {
                    return Ok(None);
                }
                Ok(Some(self.at.end(conn, Cause::Link)))
            }
        }
    }

    /// What a message brings: the first thing is returned, the others are kept.
    #[tactic(auto, using(crate::proofs::Shapes::carried_alone))]
    fn bring(
        &mut self,
        alloc: Global,
        conn: ConnId,
        message: Message,
    ) -> Result<Option<Inbound>, Fault>
        requires no_rest { self.old.rest ≡ [] }
        requires runs { self.old.at.ended ≡ false }
        requires room { HasRoom message }
        requires fits { IsFitting message }
        ensures reading { IfOk result (λ got. got ≡ first_of (brought conn self.old.at.next (Some message))) }
        ensures after { OnOk result (self.new ≡ record { at = after_read self.old.at (Some message); rest = drop 1 (brought conn self.old.at.next (Some message)) }) }
        ensures unchanged { OnErr result (self.new ≡ self.old) }
        ensures only_memory { IsOkUnless result Fault.NoMemory }
    {
        let message = match message {
            Message::GetSet(hash) => SideMessage::GetSet(hash),
            Message::Set(set) => SideMessage::Set(set),
            Message::NoSet(hash) => SideMessage::NoSet(hash),
            Message::Records { first, values } => {
                self.rest = self.at.number_all(alloc, conn, first, values)?;
                return Ok(next(&mut self.rest));
            }
            Message::Envelope(_) | Message::GetRecord(_) | Message::Record(..) => {
                return Ok(Some(self.at.carry(conn, message)));
            }
        };
        Ok(Some(Inbound::Side { conn, message }))
    }
}

impl Place {
    /// The records of a batch, each with its number, up to the first that is one carried message too many.
    fn number_all(
        &mut self,
        alloc: Global,
        conn: ConnId,
        first: Slot,
        values: ValueList,
    ) -> Result<VecDeque<Inbound>, Fault>
        requires last { first.0 + length values ≤ 2 ^ 64 }
        requires runs { self.old.ended ≡ false }
        requires fits { IsFitting (Message.Records first values) }
        ensures read { IfOk result (λ read. read.items ≡ brought_each conn self.old.next (records_from first.0 values)) }
        ensures after { OnOk result (self.new ≡ after_each self.old (records_from first.0 values)) }
        ensures unchanged { OnErr result (self.new ≡ self.old) }
        ensures only_memory { IsOkUnless result Fault.NoMemory }
    {
        let mut read = VecDeque::with_capacity(alloc, values.as_slice().len())?;
        let mut at = Place {
            ended: self.ended,
            next: self.next,
        };
        for value in values.into_vec() {
            if !at.ended {
                let slot = Slot(first.0 + read.len() as u64);
                read.push_back(at.carry(conn, Message::Record(slot, value)))?;
            }
        }
        self.ended = at.ended;
        self.next = at.next;
        Ok(read)
    }

    /// The connection ends.
    fn end(&mut self, conn: ConnId, cause: Cause) -> Inbound
        ensures read { result ≡ Inbound.Closed conn cause }
        ensures after { self.new ≡ record self.old { ended = true } }
    {
        self.ended = true;
        Inbound::Closed { conn, cause }
    }

    /// What a carried message brings.
    fn carry(&mut self, conn: ConnId, message: Message) -> Inbound
        requires carried { is_carried message ≡ true }
        requires fits { IsFitting message }
        ensures read { result ≡ brought_one conn self.old.next message }
        ensures after { self.new ≡ after_one self.old message }
    {
        if self.next == CARRIED_LIMIT {
            return self.end(conn, Cause::Spent);
        }
        let seq = Seq(self.next);
        self.next += 1;
        Inbound::Carried(Carried {
            conn,
            seq,
            message: FittingMessage::of(message),
        })
    }
}

fn next(rest: &mut VecDeque<Inbound>) -> Option<Inbound>
    ensures items { rest.old.items ≡ option_to_list result ++ rest.new.items }
    ensures none { IfNone result (rest.old.items ≡ []) }
{
    rest.pop_front()
}
