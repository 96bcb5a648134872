//! What a step tells, as far as it is known before it is done.
ghost use Rattle.std.specs.Prelude.{◌≡◌, ◌∷◌, ◌++◌, [], IfOk, OnOk, map, option_copied};
ghost use Rattle.scp_facts.specs.Facts.{conn_on as conn_by, conn_of_bytes as conn_by_bytes, missed, all_missed, missed_by, beginning_tells as beginning_told, carried_tells as carried_told, side_tells as side_told, command_tells as command_told, item_tells as item_told, first_tells as first_told, pending_tells as pending_told, command_in as command_by, asked_in as asked_by};

use crate::fact::{Fact, FactList};
use scp_turn::below::fetch::Want;
use scp_turn::below::ledger::Onward;
use scp_turn::below::pending::{Becoming, Pending, Ready};
use scp_turn::below::types::{ConnId, Fault, Hash, Slot};
use scp_turn::below::wire::{Carried, Inbound, LinkItem, SideMessage};
use scp_turn::{Command, Node};
use std::alloc::Global;

/// Nothing is told.
pub(crate) fn none(alloc: Global) -> FactList
    ensures { result ≡ [] }
{
    FactList::new(Vec::new(alloc))
}

/// One thing is told.
pub(crate) fn one(alloc: Global, fact: Fact) -> Result<FactList, Fault>
    ensures { IfOk result (λ facts. facts ≡ fact ∷ []) }
{
    let mut facts = Vec::new(alloc);
    facts.push(fact)?;
    Ok(FactList::new(facts))
}

/// The connection that is open on the link: its last life.
pub(crate) fn conn_on(node: &Node, link: u8) -> ConnId
    ensures { result ≡ conn_by node.now link }
{
    let to = node.me();
    let from = match node.peers().get(link as usize) {
        Some(peer) => *peer,
        None => to,
    };
    let life = node.lives(link);
    ConnId { from, to, life }
}

/// The connection of bytes, where they are what the reader takes.
pub(crate) fn conn_of_bytes(item: Option<&LinkItem>) -> Option<ConnId>
    ensures { result ≡ conn_by_bytes (option_copied item.entry) }
{
    match item {
        Some(LinkItem::Bytes(conn, _)) => Some(*conn),
        Some(LinkItem::Opened(_) | LinkItem::Closed(_)) | None => None,
    }
}

/// The command, where it is one that the slot stage takes next.
pub(crate) fn command_in(ready: Option<&Ready>) -> Result<Option<Command>, Fault>
    ensures { IfOk result (λ command. command ≡ command_by (option_copied ready.entry)) }
{
    match ready {
        Some(Ready::Local(command)) => Ok(Some(command.copy()?)),
        Some(Ready::Deliver(_) | Ready::Dropped { .. } | Ready::Closed { .. }) | None => Ok(None),
    }
}

/// The link and the slot of a request, where one is what the applier takes.
pub(crate) fn asked_in(onward: Option<&Onward>) -> Option<(u8, Slot)>
    ensures { result ≡ asked_by (option_copied onward.entry) }
{
    match onward {
        Some(Onward::Asked { link, slot }) => Some((*link, *slot)),
        Some(Onward::Decided(_)) | None => None,
    }
}

// ---- what the pending stage takes

/// Another message that equals this one.
fn copied(message: &SideMessage) -> Result<SideMessage, Fault>
    ensures { IfOk result (λ copied. copied ≡ message.now) }
{
    match message {
        SideMessage::GetSet(hash) => Ok(SideMessage::GetSet(*hash)),
        SideMessage::Set(set) => Ok(SideMessage::Set(set.copy()?)),
        SideMessage::NoSet(hash) => Ok(SideMessage::NoSet(*hash)),
    }
}

/// Adds the miss that a wanted hash has now.
fn add_missed(facts: &mut Vec<Fact>, want: &Want) -> Result<(), Fault>
    ensures { OnOk result (facts.new.items ≡ facts.old.items ++ missed want.now ∷ []) }
{
    facts.push(Fact::Missed {
        hash: want.hash,
        misses: u16::from(want.misses) + 1,
    })?;
    Ok(())
}

/// Adds the misses of all these.
fn add_all_missed(facts: &mut Vec<Fact>, wants: &[&Want]) -> Result<(), Fault>
    ensures { OnOk result (facts.new.items ≡ facts.old.items ++ all_missed (map (λ want. want.now) wants.now)) }
{
    for want in wants {
        add_missed(facts, *want)?;
    }
    Ok(())
}

/// Adds the miss of the hash among these.
fn add_missed_of(facts: &mut Vec<Fact>, wants: &[&Want], hash: &Hash) -> Result<(), Fault>
    ensures { OnOk result (facts.new.items ≡ facts.old.items ++ missed_by (SideMessage.NoSet hash.now) (map (λ want. want.now) wants.now)) }
{
    for want in wants {
        if *hash == want.hash {
            add_missed(facts, *want)?;
        }
    }
    Ok(())
}

/// Adds the miss of the hash that a message says there is no set of, where that is wanted.
fn add_miss(facts: &mut Vec<Fact>, pending: &Pending, message: &SideMessage) -> Result<(), Fault>
    ensures { OnOk result (facts.new.items ≡ facts.old.items ++ missed_by message.now pending.now.settled.wanted) }
{
    match message {
        SideMessage::NoSet(hash) => {
            let wants = pending.wants()?;
            add_missed_of(facts, wants.as_slice(), hash)
        }
        SideMessage::GetSet(_) | SideMessage::Set(_) => Ok(()),
    }
}

fn beginning_tells(alloc: Global, conn: ConnId, became: Becoming) -> Result<FactList, Fault>
    ensures { IfOk result (λ facts. facts ≡ beginning_told conn became) }
{
    match became {
        Becoming::Opens => one(alloc, Fact::Opened(conn)),
        _ => Ok(none(alloc)),
    }
}

/// The message is copied where it is parked.
fn carried_tells(alloc: Global, carried: &Carried, became: Becoming) -> Result<FactList, Fault>
    ensures { IfOk result (λ facts. facts ≡ carried_told carried.now became) }
{
    match became {
        Becoming::Discarded => one(alloc, Fact::Discarded(carried.conn)),
        Becoming::Parks(why) => one(
            alloc,
            Fact::Parked {
                conn: carried.conn,
                seq: carried.seq,
                why,
                message: carried.message.get().copy()?,
            },
        ),
        _ => Ok(none(alloc)),
    }
}

/// A miss, and behind it which miss it is.
fn miss_tells(
    alloc: Global,
    pending: &Pending,
    conn: ConnId,
    message: &SideMessage,
) -> Result<FactList, Fault>
    ensures { IfOk result (λ facts. facts ≡ side_told conn message.now pending.now.settled.wanted Becoming.Missed) }
{
    let mut facts = Vec::new(alloc);
    facts.push(Fact::Heard {
        conn,
        became: Becoming::Missed,
        message: copied(message)?,
    })?;
    add_miss(&mut facts, pending, message)?;
    Ok(FactList::new(facts))
}

/// A quorum set is copied.
fn side_tells(
    alloc: Global,
    pending: &Pending,
    conn: ConnId,
    message: &SideMessage,
    became: Becoming,
) -> Result<FactList, Fault>
    ensures { IfOk result (λ facts. facts ≡ side_told conn message.now pending.now.settled.wanted became) }
{
    match became {
        Becoming::Discarded => one(alloc, Fact::Discarded(conn)),
        Becoming::Missed => miss_tells(alloc, pending, conn, message),
        _ => one(
            alloc,
            Fact::Heard {
                conn,
                became,
                message: copied(message)?,
            },
        ),
    }
}

/// That time passed, and the misses of all that is wanted.
fn tick_tells(alloc: Global, pending: &Pending) -> Result<FactList, Fault>
    ensures { IfOk result (λ facts. facts ≡ command_told pending.now.settled.wanted Becoming.Ticks) }
{
    let mut facts = Vec::new(alloc);
    facts.push(Fact::Ticked)?;
    let wants = pending.wants()?;
    add_all_missed(&mut facts, wants.as_slice())?;
    Ok(FactList::new(facts))
}

fn command_tells(alloc: Global, pending: &Pending, became: Becoming) -> Result<FactList, Fault>
    ensures { IfOk result (λ facts. facts ≡ command_told pending.now.settled.wanted became) }
{
    match became {
        Becoming::Ticks => tick_tells(alloc, pending),
        _ => Ok(none(alloc)),
    }
}

/// What an item tells that becomes this.
fn item_tells(
    alloc: Global,
    pending: &Pending,
    item: &Inbound,
    became: Becoming,
) -> Result<FactList, Fault>
    ensures { IfOk result (λ facts. facts ≡ item_told pending.now.settled item.now became) }
{
    match item {
        Inbound::Opened(conn) => beginning_tells(alloc, *conn, became),
        Inbound::Carried(carried) => carried_tells(alloc, carried, became),
        Inbound::Side { conn, message } => side_tells(alloc, pending, *conn, message, became),
        Inbound::Closed { .. } => Ok(none(alloc)),
        Inbound::Local(_) => command_tells(alloc, pending, became),
    }
}

/// What the first item of the inbox tells.
fn first_tells(alloc: Global, pending: &Pending, first: Option<&Inbound>) -> Result<FactList, Fault>
    ensures { IfOk result (λ facts. facts ≡ first_told pending.now.settled (option_copied first.entry)) }
{
    match first {
        Some(item) => {
            let became = pending.becoming(item)?;
            item_tells(alloc, pending, item, became)
        }
        None => Ok(none(alloc)),
    }
}

/// What the item tells that the pending stage takes, where it takes one.
pub(crate) fn pending_tells(alloc: Global, node: &Node) -> Result<FactList, Fault>
    ensures { IfOk result (λ facts. facts ≡ pending_told node.now) }
{
    let pending = node.pending();
    if pending.has_ready() {
        return Ok(none(alloc));
    }
    first_tells(alloc, pending, node.next_inbound())
}
