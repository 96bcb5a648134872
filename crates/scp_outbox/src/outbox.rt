//! What waits for one peer.
ghost use Rattle.std.specs.Prelude.{◌≡◌, ◌≢◌, ◌∷◌, ◌++◌, [], ◌<◌, ◌↔◌, ◌==◌, ◌≤◌, length, IfOk, OnOk, OnErr, IsOk, IsTrue, IsOkUnless, Ok, Err, position, Some, None, slice_get, slice_set, MatchOption, false, ◌+◌};
ghost use Rattle.scp_wire.specs.scp_envelope.specs.Newer.{IsNewer};
ghost use Rattle.scp_wire.specs.Boxed.{Boxed};
ghost use Rattle.scp_outbox.specs.Outbox.{are_alike, is_nomination as is_nominating, live_after, Puts, Gives, IsOutbox, GoesLast, Takes, Replaces, StatementsTake, IfMessage};
ghost use Rattle.scp_outbox.specs.inside.Statements.{is_statement};
ghost use Rattle.scp_wire.specs.Fitting.{IsFitting};

use crate::mark::{Mark, Out};
use circular_buffer::HeapCircularBuffer;
use scp_wire::below::envelope::{Pledges, Statement, newer};
use scp_wire::below::types::Fault;
use scp_wire::{BoxedEnvelope, FittingMessage, Message};
use std::alloc::Global;
use std::marker::Model;

/// The most marks that wait (this project's profile).
pub const MARK_LIMIT: usize = 16;

/// The most requests and answers that wait, and the most statements (this project's profile).
pub const WAITING_LIMIT: usize = 64;

/// What waits for one peer. Contracts see whether the link is live; the marks, the requests and answers, and the
/// statements, each as a list; and how many statements were lost.
#[derive(Drop)]
pub struct Outbox {
    live: bool,
    marks: HeapCircularBuffer<Mark>,
    ring: HeapCircularBuffer<Message>,
    statements: HeapCircularBuffer<BoxedEnvelope>,
    overwritten: u64,
}

impl Model for Outbox {
    ghost use Rattle.scp_outbox.specs.Outbox.{OutboxView};

    ghost Value = { OutboxView };

    ghost use Rattle.std.specs.Coded.{codes};
    ghost use Rattle.scp_wire.specs.scp_xdr.specs.inside.TreeModel.{coded_row};
    ghost use Rattle.scp_wire.specs.scp_quorum.specs.inside.QuorumTree.{coded_level};

    ghost coded = { Prim.hlevel (codes, coded_row coded_level) };

    ghost use Rattle.scp_outbox.specs.inside.Outbox.{outbox_view, IsSound};

    ghost view = { outbox_view };

    ghost invariant = { IsSound };
}

impl Outbox {
    /// An outbox in which nothing waits, for a link that is live or isn't: messages are given only while it is live. Takes
    /// all the memory that it ever needs. The only refusal is `Fault::NoMemory`.
    pub fn new(alloc: Global, live: bool) -> Result<Outbox, Fault>
        // Nothing waits, and nothing was lost.
        ensures made { IfOk result (λ o. o ≡ record { live = live; marks = []; ring = []; statements = []; overwritten = 0 }) }
        // The only refusal is `NoMemory`.
        ensures only_memory { IsOkUnless result Fault.NoMemory }
    {
        Ok(Outbox {
            live,
            marks: HeapCircularBuffer::with_capacity(alloc, MARK_LIMIT)?,
            ring: HeapCircularBuffer::with_capacity(alloc, WAITING_LIMIT)?,
            statements: HeapCircularBuffer::with_capacity(alloc, WAITING_LIMIT)?,
            overwritten: 0,
        })
    }

    /// How many messages wait: requests and answers, and statements.
    pub fn len(&self) -> usize
        ensures { result ≡ length self.now.ring + length self.now.statements }
    {
        self.ring.len() + self.statements.len()
    }

    /// How many own statements were lost, before they were given, since the outbox was made: those that a newer one of
    /// their slot and kind replaced, and those that were dropped because 64 others waited. A statement that comes and isn't
    /// newer than the one that waits isn't counted, nor are requests and answers.
    pub fn overwritten(&self) -> u64
        ensures { result ≡ self.now.overwritten }
    {
        self.overwritten
    }

    /// Lets a message wait. Is never refused, takes no memory and waits for nobody, whether the link is live or not.
    ///
    /// A request or an answer goes last among these; if 64 wait, the oldest is overwritten. If a statement of the same slot and kind
    /// (nomination or ballot) waits, a newer statement takes its place, and one that isn't newer is dropped. If none waits, it goes last,
    /// and over 64 the first is dropped. What is replaced, and what is dropped as the first of over 64, counts as overwritten. A statement
    /// is compared with at most 64 others by slot and kind, and with one by content.
    pub fn put(&mut self, message: FittingMessage)
        // How the lists change, and what is lost.
        ensures puts { Puts self.old message self.new }
        // The limits, and one statement of each slot and kind.
        ensures known { IsOutbox self.new }
    {
        match message.into_inner() {
            Message::Envelope(envelope) => self.put_statement(envelope),
            other => self.put_other(other),
        }
    }

    /// Lets a mark wait; it takes effect when it is given. `Fault::Full` exactly where 16 marks wait, and then nothing
    /// changes. Takes no memory.
    pub fn mark(&mut self, mark: Mark) -> Result<(), Fault>
        // It waits if there is room.
        ensures room { IsOk result ↔ (length self.old.marks < MARK_LIMIT) }
        // It goes last.
        ensures ok { OnOk result (self.new ≡ record self.old { marks = self.old.marks ++ mark ∷ [] }) }
        // A refusal leaves all as it was.
        ensures err { OnErr result (self.new ≡ self.old) }
        // The only refusal is `Full`.
        ensures only { IsOkUnless result Fault.Full }
        // The limits, and one statement of each slot and kind.
        ensures known { IsOutbox self.new }
    {
        match self.marks.try_push_back(mark) {
            Ok(()) => Ok(()),
            Err(_) => Err(Fault::Full),
        }
    }

    /// What is to be sent next: the first mark; if none waits and the link is live, the oldest request or answer; if none
    /// of these waits either, the first statement; else `Out::Nothing`. What was given is gone. The mark Opened makes the
    /// link live, and Closed makes it not live. Takes no memory.
    pub fn next(&mut self) -> Out
        // What is given, and what is left.
        ensures gives { Gives self.old result self.new }
        // A message that is given fits a link.
        ensures fits { IfMessage result IsFitting }
        // The limits, and one statement of each slot and kind.
        ensures known { IsOutbox self.new }
    {
        if let Some(mark) = take_front(&mut self.marks) {
            self.live = is_live_after(mark, self.live);
            return Out::Mark(mark);
        }
        if !self.live {
            return Out::Nothing;
        }
        if let Some(message) = take_front(&mut self.ring) {
            return Out::Message(message);
        }
        if let Some(envelope) = take_front(&mut self.statements) {
            return Out::Message(Message::Envelope(envelope));
        }
        Out::Nothing
    }

    /// A law of every outbox, wherever it is, also behind a lock between any two turns. At most 16 marks, 64 requests
    /// and answers and 64 statements wait, at most one statement of each slot and kind, and each message fits a link.
    /// Does nothing.
    pub fn keeps_its_limits(&self)
        ensures known { IsOutbox self.now }
    {
        let _live = self.live;
    }

    /// Lets a request or an answer wait.
    fn put_other(&mut self, message: Message)
        requires other { is_statement message ≡ false }
        requires fits { IsFitting message }
        ensures puts { Puts self.old message self.new }
        ensures known { IsOutbox self.new }
    {
        self.ring.push_back(message);
    }

    /// Lets a statement wait.
    fn put_statement(&mut self, envelope: BoxedEnvelope)
        requires { IsFitting (Message.Envelope envelope) }
        ensures puts { StatementsTake self.old envelope self.new }
        ensures known { IsOutbox self.new }
    {
        let lost = take_statement(&mut self.statements, envelope);
        self.overwritten = self.overwritten.saturating_add(lost);
    }
}

/// Takes the first item out, if there is one.
fn take_front<T>(items: &mut HeapCircularBuffer<T>) -> Option<T>
    ensures taken { MatchOption result ((items.old.items ≡ []) × (items.new.items ≡ [])) (λ item. items.old.items ≡ item ∷ items.new.items) }
    ensures capacity { items.new.capacity ≡ items.old.capacity }
{
    items.pop_front()
}

/// Whether the link is live once the mark was given.
fn is_live_after(mark: Mark, live: bool) -> bool
    ensures { result ≡ live_after mark live }
{
    match mark {
        Mark::Opened => true,
        Mark::Closed => false,
        Mark::Stop => live,
    }
}

/// Whether both are about one slot, and both are nominations or both ballot statements.
fn is_alike(left: &Statement, right: &Statement) -> bool
    ensures { result ≡ are_alike left.now right.now }
{
    left.slot.0 == right.slot.0 && is_nomination(&left.pledges) == is_nomination(&right.pledges)
}

/// Whether it is a nomination, and not a ballot statement.
fn is_nomination(pledges: &Pledges) -> bool
    ensures { result ≡ is_nominating pledges.now }
{
    matches!(pledges, Pledges::Nominate(_))
}

/// The place of the statement with the envelope's slot and kind, if one waits.
fn place_of(
    statements: &HeapCircularBuffer<BoxedEnvelope>,
    envelope: &BoxedEnvelope,
) -> Option<usize>
    ensures { result ≡ position (λ held. are_alike held.value.statement envelope.now.value.statement) statements.now.items }
{
    statements.iter().position(|held| is_alike(&held.get().statement, &envelope.get().statement))
}

/// Lets a statement wait among these. Returns how many were lost.
fn take_statement(
    statements: &mut HeapCircularBuffer<BoxedEnvelope>,
    envelope: BoxedEnvelope,
) -> u64
    requires room { statements.old.capacity ≡ WAITING_LIMIT }
    requires few { length statements.old.items ≤ WAITING_LIMIT }
    ensures takes { Takes statements.old.items envelope statements.new.items result }
    ensures capacity { statements.new.capacity ≡ WAITING_LIMIT }
{
    match place_of(statements, &envelope) {
        None => push_last(statements, envelope),
        Some(place) => replace(statements, place, envelope),
    }
}

/// Puts a statement last. Returns how many were lost.
fn push_last(statements: &mut HeapCircularBuffer<BoxedEnvelope>, envelope: BoxedEnvelope) -> u64
    requires room { statements.old.capacity ≡ WAITING_LIMIT }
    requires few { length statements.old.items ≤ WAITING_LIMIT }
    ensures last { GoesLast statements.old.items envelope statements.new.items result }
    ensures capacity { statements.new.capacity ≡ WAITING_LIMIT }
{
    let lost = if statements.len() < WAITING_LIMIT {
        0
    } else {
        1
    };
    statements.push_back(envelope);
    lost
}

/// Whether the statement is newer than the one at this place.
fn is_newer_there(
    statements: &HeapCircularBuffer<BoxedEnvelope>,
    place: usize,
    envelope: &BoxedEnvelope,
) -> bool
    requires { place < length statements.now.items }
    ensures { (held : Boxed) × (slice_get statements.now.items place ≡ Some held) × (IsTrue result ↔ IsNewer held.value.statement envelope.now.value.statement) }
{
    match statements.get(place) {
        Some(held) => newer(&held.get().statement, &envelope.get().statement),
        None => false,
    }
}

/// Puts the envelope at this place.
fn write_there(
    statements: &mut HeapCircularBuffer<BoxedEnvelope>,
    place: usize,
    envelope: BoxedEnvelope,
)
    requires { place < length statements.old.items }
    ensures written { statements.new.items ≡ slice_set statements.old.items place envelope }
    ensures capacity { statements.new.capacity ≡ statements.old.capacity }
{
    if let Some(held) = statements.get_mut(place) {
        *held = envelope;
    }
}

/// Puts the envelope at this place if its statement is newer. Returns how many were lost.
fn replace(
    statements: &mut HeapCircularBuffer<BoxedEnvelope>,
    place: usize,
    envelope: BoxedEnvelope,
) -> u64
    requires { place < length statements.old.items }
    ensures replaces { Replaces statements.old.items place envelope statements.new.items result }
    ensures capacity { statements.new.capacity ≡ statements.old.capacity }
{
    if is_newer_there(statements, place, &envelope) {
        write_there(statements, place, envelope);
        1
    } else {
        0
    }
}
