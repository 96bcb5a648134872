//! What would become of an item that is taken next.
ghost use Rattle.std.specs.Prelude.{◌≡◌, ◌⊎◌, true, IfOk, IsOkUnless};
ghost use Rattle.scp_wire.specs.declared.link.Inbound.{Inbound};
ghost use Rattle.scp_pending.specs.Queues.{is_open, parked_of, is_held, waited_by};
ghost use Rattle.scp_pending.specs.Rules.{entering as entering_with};
ghost use Rattle.scp_pending.specs.Becoming.{becoming, command_becomes, set_becomes, side_becomes, enters_as, why_parked};
ghost use Rattle.scp_pending.specs.inside.Outcome.{IsPlace};

use super::{PARKED_LIMIT, Parking};
use crate::becoming::{Becoming, Why};
use crate::parked::named;
use crate::queue::{count_at, place_of};
use scp_fetch::SetStore;
use scp_wire::below::quorum::QuorumSet;
use scp_wire::below::types::{ConnId, Fault, Hash};
use scp_wire::{Carried, Command, Inbound, SideMessage};

impl Parking {
    /// What becomes of an item. Only a quorum set takes memory.
    pub(crate) fn becoming(&self, item: &Inbound) -> Result<Becoming, Fault>
        ensures is { IfOk result (λ found. found ≡ becoming self.now.settled item.now) }
        ensures only_memory { IsOkUnless result Fault.NoMemory }
    {
        match item {
            Inbound::Opened(conn) => Ok(self.beginning_becomes(conn)),
            Inbound::Carried(carried) => Ok(self.carried_becomes(carried)),
            Inbound::Side { conn, message } => self.side_becomes(conn, message),
            Inbound::Closed { .. } => Ok(Becoming::Nothing),
            Inbound::Local(command) => Ok(command_becomes(command)),
        }
    }

    /// What becomes of the beginning of a connection.
    fn beginning_becomes(&self, conn: &ConnId) -> Becoming
        ensures { result ≡ becoming self.now.settled (Inbound.Opened conn.now) }
    {
        if self.opens(conn) {
            Becoming::Opens
        } else {
            Becoming::Nothing
        }
    }

    /// What becomes of a numbered message.
    fn carried_becomes(&self, carried: &Carried) -> Becoming
        ensures { result ≡ becoming self.now.settled (Inbound.Carried carried.now) }
    {
        match place_of(&self.queues, &carried.conn) {
            Some(place) => self.enters_as(place, carried),
            None => Becoming::Discarded,
        }
    }

    /// What becomes of a numbered message whose connection's queue is at this place.
    fn enters_as(&self, place: usize, carried: &Carried) -> Becoming
        requires here { IsPlace carried.now.conn self.now.settled.queues place }
        ensures { result ≡ enters_as carried.now (entering_with self.now.settled.store carried.now) self.now.settled }
    {
        if !self.is_held_back(place, carried) {
            return Becoming::Goes;
        }
        if count_at(&self.queues, place) >= PARKED_LIMIT {
            return Becoming::Parks(Why::Over);
        }
        Becoming::Parks(self.why(carried))
    }

    /// Why a message is parked that doesn't pass through.
    fn why(&self, carried: &Carried) -> Why
        ensures { result ≡ why_parked carried.now (entering_with self.now.settled.store carried.now) self.now.settled }
    {
        let Some(hash) = waited_in(&self.store, carried) else {
            return Why::Behind;
        };
        let link = self.link_number(&carried.conn.from);
        if self.fetcher.asked(&hash, link) {
            Why::Waits
        } else {
            Why::Asks
        }
    }

    /// What becomes of a side message.
    fn side_becomes(&self, conn: &ConnId, message: &SideMessage) -> Result<Becoming, Fault>
        ensures is { IfOk result (λ found. found ≡ becoming self.now.settled (Inbound.Side conn.now message.now)) }
        ensures only_memory { IsOkUnless result Fault.NoMemory }
    {
        match place_of(&self.queues, conn) {
            Some(_) => self.live_becomes(message),
            None => Ok(Becoming::Discarded),
        }
    }

    /// What becomes of a side message on an open connection.
    fn live_becomes(&self, message: &SideMessage) -> Result<Becoming, Fault>
        ensures is { IfOk result (λ found. found ≡ side_becomes message.now self.now.settled) }
        ensures only_memory { IsOkUnless result Fault.NoMemory }
    {
        match message {
            SideMessage::GetSet(_) => Ok(Becoming::Answered),
            SideMessage::Set(set) => self.set_becomes(set),
            SideMessage::NoSet(hash) => {
                if self.fetcher.is_wanted(hash) {
                    Ok(Becoming::Missed)
                } else {
                    Ok(Becoming::Unwanted)
                }
            }
        }
    }

    /// What becomes of a quorum set that came.
    fn set_becomes(&self, set: &QuorumSet) -> Result<Becoming, Fault>
        ensures is { IfOk result (λ found. found ≡ set_becomes set.now self.now.settled) }
        ensures only_memory { IsOkUnless result Fault.NoMemory }
    {
        let hash = match set.hash() {
            Ok(hash) => hash,
            Err(Fault::TooLong) => return Ok(Becoming::Unwanted),
            Err(_) => return Err(Fault::NoMemory),
        };
        if !self.fetcher.is_wanted(&hash) {
            return Ok(Becoming::Unwanted);
        }
        if set.is_sane() {
            Ok(Becoming::Stored)
        } else {
            Ok(Becoming::BadSet)
        }
    }
}

/// The hash that a message would wait for: that of the quorum set which an envelope names, if the set isn't stored.
fn waited_in(store: &SetStore, carried: &Carried) -> Option<Hash>
    ensures { result ≡ waited_by (entering_with store.now carried.now) }
{
    let hash = named(carried.message.get())?;
    match store.get(&hash) {
        Some(_) => None,
        None => Some(hash),
    }
}

/// What becomes of a command.
fn command_becomes(command: &Command) -> Becoming
    ensures { result ≡ command_becomes command.now }
{
    match command {
        Command::Tick => Becoming::Ticks,
        Command::Propose(..) | Command::Round(_) | Command::Timer(_) | Command::Ask(..) => {
            Becoming::Nothing
        }
    }
}
