//! What a step tells that is known once it is done.
ghost use Rattle.std.specs.Prelude.{◌≡◌, ◌∷◌, ◌++◌, [], IfOk, OnOk, length, map};
ghost use Rattle.scp_facts.specs.Facts.{offered as offered_by, drained as drained_by, discarded as discarded_by, places, entered as entered_at, obeyed as obeyed_by, slot_tells as slot_told, answers as answered_by, applier_tells as applier_told};

use crate::fact::{Fact, FactList};
use crate::standing::way_of_entry;
use scp_turn::below::envelope::SharedEnvelope;
use scp_turn::below::types::{ConnId, Fault, Slot};
use scp_turn::{Command, CommandFate, Node, Reply};
use std::alloc::Global;

/// What an offer tells: these, where it was accepted, or that there was no room.
pub(crate) fn offered(alloc: Global, facts: FactList, reply: &Reply) -> Result<Vec<Fact>, Fault>
    ensures { IfOk result (λ told. told.items ≡ offered_by facts reply.now) }
{
    match reply {
        Reply::Accepted => Ok(facts.into_vec()),
        Reply::Full => one(alloc, Fact::Full),
        _ => Ok(Vec::new(alloc)),
    }
}

/// One fact.
fn one(alloc: Global, fact: Fact) -> Result<Vec<Fact>, Fault>
    ensures { IfOk result (λ told. told.items ≡ fact ∷ []) }
{
    let mut facts = Vec::new(alloc);
    facts.push(fact)?;
    Ok(facts)
}

/// The bytes that were sent over this link, copied.
pub(crate) fn drained(alloc: Global, link: u8, reply: &Reply) -> Result<Vec<Fact>, Fault>
    ensures { IfOk result (λ told. told.items ≡ drained_by link reply.now) }
{
    match reply {
        Reply::Sent(bytes) => one(alloc, Fact::Sent(link, bytes.copy()?)),
        _ => Ok(Vec::new(alloc)),
    }
}

/// Bytes of this connection, of which a reader read nothing.
pub(crate) fn discarded(
    alloc: Global,
    conn: Option<ConnId>,
    has_read: bool,
) -> Result<Vec<Fact>, Fault>
    ensures { IfOk result (λ told. told.items ≡ discarded_by conn has_read) }
{
    match conn {
        Some(conn) => {
            if has_read {
                Ok(Vec::new(alloc))
            } else {
                one(alloc, Fact::Discarded(conn))
            }
        }
        None => Ok(Vec::new(alloc)),
    }
}

/// The journal's entry at this place.
fn entered(node: &Node, place: usize) -> Result<Fact, Fault>
    ensures { IfOk result (λ fact. fact ≡ entered_at node.now place) }
{
    let standing = way_of_entry(node, node.journal().get(place))?;
    Ok(Fact::Entered {
        entry: place,
        standing,
    })
}

/// Adds the journal's entry at this place.
fn add_entry(facts: &mut Vec<Fact>, node: &Node, place: usize) -> Result<(), Fault>
    ensures { OnOk result (facts.new.items ≡ facts.old.items ++ entered_at node.now place ∷ []) }
{
    facts.push(entered(node, place)?)?;
    Ok(())
}

/// Adds the entries that are new, of a journal of so many.
fn add_entries(facts: &mut Vec<Fact>, node: &Node, before: usize, now: usize) -> Result<(), Fault>
    ensures { OnOk result (facts.new.items ≡ facts.old.items ++ map (entered_at node.now) (places before now)) }
{
    for place in before..now {
        add_entry(facts, node, place)?;
    }
    Ok(())
}

/// Adds the command that was taken, with what became of it.
fn add_obeyed(
    facts: &mut Vec<Fact>,
    command: Option<Command>,
    fate: Option<CommandFate>,
) -> Result<(), Fault>
    ensures { OnOk result (facts.new.items ≡ facts.old.items ++ obeyed_by command fate) }
{
    match (command, fate) {
        (Some(command), Some(fate)) => {
            facts.push(Fact::Obeyed(fate, command))?;
            Ok(())
        }
        _ => Ok(()),
    }
}

/// Adds one own statement, shared.
fn add_said_one(facts: &mut Vec<Fact>, envelope: &SharedEnvelope) -> Result<(), Fault>
    ensures { OnOk result (facts.new.items ≡ facts.old.items ++ Fact.Says envelope.now ∷ []) }
{
    facts.push(Fact::Says(envelope.share()?))?;
    Ok(())
}

/// Adds the own statements.
fn add_said(facts: &mut Vec<Fact>, said: &[SharedEnvelope]) -> Result<(), Fault>
    ensures { OnOk result (facts.new.items ≡ facts.old.items ++ map (λ envelope. Fact.Says envelope) said.now) }
{
    for envelope in said {
        add_said_one(facts, envelope)?;
    }
    Ok(())
}

/// Adds the decisions that are new, of so many.
fn add_decided(facts: &mut Vec<Fact>, before: usize, now: usize) -> Result<(), Fault>
    ensures { OnOk result (facts.new.items ≡ facts.old.items ++ map (λ place. Fact.Decided place) (places before now)) }
{
    for place in before..now {
        facts.push(Fact::Decided(place))?;
    }
    Ok(())
}

/// Adds what is newly applied, of so many.
fn add_applied(facts: &mut Vec<Fact>, before: usize, now: usize) -> Result<(), Fault>
    ensures { OnOk result (facts.new.items ≡ facts.old.items ++ map (λ place. Fact.Applied place) (places before now)) }
{
    for place in before..now {
        facts.push(Fact::Applied(place))?;
    }
    Ok(())
}

/// What the slot stage tells, where there were so many entries and decisions before, and it took this command.
pub(crate) fn slot_tells(
    alloc: Global,
    entries: usize,
    decisions: usize,
    command: Option<Command>,
    node: &Node,
) -> Result<Vec<Fact>, Fault>
    ensures { IfOk result (λ told. told.items ≡ slot_told entries decisions command node.now) }
{
    let mut facts = Vec::new(alloc);
    add_entries(&mut facts, node, entries, node.journal().len())?;
    add_obeyed(&mut facts, command, node.last_command())?;
    add_said(&mut facts, node.last_said())?;
    add_decided(&mut facts, decisions, node.decisions().len())?;
    Ok(facts)
}

/// Adds whether there is a record to send, where one was asked for.
fn add_answer(facts: &mut Vec<Fact>, node: &Node, asked: Option<(u8, Slot)>) -> Result<(), Fault>
    ensures { OnOk result (facts.new.items ≡ facts.old.items ++ answered_by asked node.now.applier.applied) }
{
    match asked {
        Some((link, slot)) => {
            let is_there = node.value_at(slot).is_some();
            facts.push(Fact::Answers {
                link,
                slot,
                is_there,
            })?;
            Ok(())
        }
        None => Ok(()),
    }
}

/// What the applier tells, where so much was applied before, and it took this request.
pub(crate) fn applier_tells(
    alloc: Global,
    before: usize,
    asked: Option<(u8, Slot)>,
    node: &Node,
) -> Result<Vec<Fact>, Fault>
    ensures { IfOk result (λ told. told.items ≡ applier_told before asked node.now) }
{
    let mut facts = Vec::new(alloc);
    add_applied(&mut facts, before, node.applied().len())?;
    add_answer(&mut facts, node, asked)?;
    Ok(facts)
}
