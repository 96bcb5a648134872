//! The topics of facts, and the messages that they belong to.
ghost use Rattle.std.specs.Prelude.{◌≡◌, List, IfOk, IsOkUnless, option_copied, slice_get};
ghost use Rattle.scp_words.specs.scp_wire.specs.Reading.{reading_of};
ghost use Rattle.scp_draw_marks.specs.Topics.{same_slot as same_slots, of_slot as by_slot, of_none as by_none, kind_of_pledges as kind_by_pledges, topic_of_envelope as topic_by_envelope, topic_of_message as topic_by_message, topic_of_reading, numbers_of_message as numbers_by_message, numbers_of_reading, has_number as has_number_so, is_of as is_of_so, topic_of_command as topic_by_command, topic_of_letter as topic_by_letter, topic_of_entry as topic_by_entry, topic_of_decision as topic_by_decision, came_by_entry as came_by_fate, came_by as came_by_fact};
ghost use Rattle.scp_draw_marks.specs.Places.{letter_of, topic_of_fact as topic_by_fact};

use crate::topic::{Kind, Letter, Topic};
use scp_facts::Fact;
use scp_facts::below::node::{Command, Decision, Fate, Node, SharedDecision};
use scp_words::below::envelope::{Envelope, Pledges};
use scp_words::below::types::{ConnId, Fault};
use scp_words::below::wire::{Message, decode};
use std::alloc::Global;

/// Whether both are of the same slot, or both are of none.
pub fn same_slot(one: Option<u64>, other: Option<u64>) -> bool
    ensures { result ≡ same_slots one other }
{
    match (one, other) {
        (None, None) => true,
        (Some(one), Some(other)) => one == other,
        (None, Some(_)) | (Some(_), None) => false,
    }
}

fn of_slot(kind: Kind, slot: u64) -> Topic
    ensures { result ≡ by_slot kind slot }
{
    Topic {
        kind,
        slot: Some(slot),
    }
}

fn of_none(kind: Kind) -> Topic
    ensures { result ≡ by_none kind }
{
    Topic { kind, slot: None }
}

// ---- messages

fn kind_of_pledges(pledges: &Pledges) -> Kind
    ensures { result ≡ kind_by_pledges pledges.now }
{
    match pledges {
        Pledges::Nominate(_) => Kind::Nominate,
        Pledges::Prepare(_) => Kind::Prepare,
        Pledges::Confirm(_) => Kind::Confirm,
        Pledges::Externalize(_) => Kind::Externalize,
    }
}

fn topic_of_envelope(envelope: &Envelope) -> Topic
    ensures { result ≡ topic_by_envelope envelope.now }
{
    let statement = &envelope.statement;
    of_slot(kind_of_pledges(&statement.pledges), statement.slot.0)
}

fn topic_of_message(message: &Message) -> Topic
    ensures { result ≡ topic_by_message message.now }
{
    match message {
        Message::Envelope(envelope) => topic_of_envelope(envelope.get()),
        Message::GetSet(_) | Message::Set(_) | Message::NoSet(_) => of_none(Kind::Sets),
        Message::GetRecord(slot) => of_slot(Kind::Records, slot.0),
        Message::Record(slot, _) => of_slot(Kind::Records, slot.0),
        Message::Records { first, .. } => of_slot(Kind::Records, first.0),
    }
}

fn numbers_of_message(message: &Message) -> usize
    ensures { result ≡ numbers_by_message message.now }
{
    match message {
        Message::Envelope(_) | Message::GetRecord(_) | Message::Record(..) => 1,
        Message::GetSet(_) | Message::Set(_) | Message::NoSet(_) => 0,
        Message::Records { values, .. } => values.as_slice().len(),
    }
}

/// The topic of these bytes, and how many numbers they take on their connection.
pub fn post_of(alloc: Global, bytes: &[u8]) -> Result<(Topic, usize), Fault>
    ensures topic { IfOk result (λ post. post.0 ≡ topic_of_reading (reading_of bytes.now)) }
    ensures numbers { IfOk result (λ post. post.1 ≡ numbers_of_reading (reading_of bytes.now)) }
    ensures only_memory { IsOkUnless result Fault.NoMemory }
{
    match decode(alloc, bytes) {
        Ok(message) => Ok((topic_of_message(&message), numbers_of_message(&message))),
        Err(Fault::NoMemory) => Err(Fault::NoMemory),
        Err(_) => Ok((of_none(Kind::Links), 0)),
    }
}

// ---- letters

fn has_number(letter: &Letter, seq: Option<u64>) -> bool
    ensures { result ≡ has_number_so seq letter.now }
{
    match seq {
        Some(seq) => letter.seq == seq,
        None => true,
    }
}

/// Whether the letter is of this connection and has this number. Without a number, any letter of the connection is meant.
pub fn is_of(letter: &Letter, conn: &ConnId, seq: Option<u64>) -> bool
    ensures { result ≡ is_of_so conn.now seq letter.now }
{
    letter.conn == *conn && has_number(letter, seq)
}

// ---- commands and the journal

fn topic_of_command(command: &Command) -> Topic
    ensures { result ≡ topic_by_command command.now }
{
    match command {
        Command::Tick => of_none(Kind::Commands),
        Command::Propose(slot, _) => of_slot(Kind::Commands, slot.0),
        Command::Round(slot) => of_slot(Kind::Commands, slot.0),
        Command::Timer(slot) => of_slot(Kind::Commands, slot.0),
        Command::Ask(_, slot) => of_slot(Kind::Commands, slot.0),
    }
}

fn topic_of_letter(letter: Option<Letter>) -> Topic
    ensures { result ≡ topic_by_letter letter }
{
    match letter {
        Some(letter) => letter.topic,
        None => of_none(Kind::Links),
    }
}

fn topic_of_entry(letter: Option<Letter>, fate: Option<&Fate>) -> Topic
    ensures { result ≡ topic_by_entry letter (option_copied fate.entry) }
{
    match fate {
        Some(Fate::Taken { message, .. }) => topic_of_message(message),
        Some(Fate::Dropped { .. }) => topic_of_letter(letter),
        Some(Fate::Closed { .. }) | None => of_none(Kind::Links),
    }
}

fn topic_of_decision(decisions: &[SharedDecision], place: usize) -> Topic
    ensures { result ≡ topic_by_decision (slice_get decisions.now place) }
{
    match decisions.get(place) {
        Some(decision) => of_slot(Kind::Decisions, decision.get().slot.0),
        None => of_none(Kind::Decisions),
    }
}

// ---- facts

fn came_by_entry(fate: Option<&Fate>) -> Option<(ConnId, u64)>
    ensures { result ≡ came_by_fate (option_copied fate.entry) }
{
    match fate {
        Some(Fate::Taken { conn, seq, .. }) => Some((*conn, seq.0)),
        Some(Fate::Dropped { conn, seq, .. }) => Some((*conn, seq.0)),
        Some(Fate::Closed { .. }) | None => None,
    }
}

/// The connection and number of the message of a fact, if it has one.
pub fn came_by(node: &Node, fact: &Fact) -> Option<(ConnId, u64)>
    ensures { result ≡ came_by_fact node.now fact.now }
{
    match fact {
        Fact::Parked { conn, seq, .. } => Some((*conn, seq.0)),
        Fact::Entered { entry, .. } => came_by_entry(node.journal().get(*entry)),
        _ => None,
    }
}

/// The topic of a fact, with the letter of its message. Messages that were sent are decoded.
pub fn topic_of_fact(
    alloc: Global,
    node: &Node,
    letter: Option<Letter>,
    fact: &Fact,
) -> Result<Topic, Fault>
    ensures topic { (letters : List Letter) → letter ≡ letter_of (came_by_fact node.now fact.now) letters → IfOk result (λ topic. topic ≡ topic_by_fact node.now letters fact.now) }
    ensures only_memory { IsOkUnless result Fault.NoMemory }
{
    Ok(match fact {
        Fact::Full | Fact::Discarded(_) | Fact::Opened(_) => of_none(Kind::Links),
        Fact::Came(_, bytes) | Fact::Sent(_, bytes) => post_of(alloc, bytes.as_slice())?.0,
        Fact::Given(command) | Fact::Obeyed(_, command) => topic_of_command(command),
        Fact::Parked { message, .. } => topic_of_message(message),
        Fact::Heard { .. } | Fact::Ticked | Fact::Missed { .. } => of_none(Kind::Sets),
        Fact::Entered { entry, .. } => topic_of_entry(letter, node.journal().get(*entry)),
        Fact::Says(envelope) => topic_of_envelope(envelope.get()),
        Fact::Decided(place) => topic_of_decision(node.decisions(), *place),
        Fact::Applied(place) => topic_of_decision(node.applied(), *place),
        Fact::Answers { slot, .. } => of_slot(Kind::Records, slot.0),
    })
}
