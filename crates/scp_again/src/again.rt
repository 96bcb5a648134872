//! What a node sends once more to a peer.
ghost use Rattle.std.specs.Prelude.{◌≡◌, ◌++◌, ◌+◌, ◌∷◌, [], IfOk, OnOk, IsOkUnless, Some};
ghost use Rattle.std.specs.Option.{option_map};
ghost use Rattle.scp_core.specs.scp_types.specs.declared.fault.Fault.{Fault};
ghost use Rattle.scp_core.specs.scp_nominate.specs.Nomination.{own};
ghost use Rattle.scp_core.specs.scp_slot.specs.Slot.{slot_view};
ghost use Rattle.scp_core.specs.scp_ledger.specs.Seen.{machine_at};
ghost use Rattle.scp_again.specs.Again.{last_of, enveloped, own_messages, emitted_by, asked_for, again_at, slots_again, decided_again, own_of, again_of};

use scp_core::below::driver::Driver;
use scp_core::below::envelope::{Envelope, SharedEnvelope, Signature, Statement};
use scp_core::below::ledger::{Ledger, Origin, SharedDecision};
use scp_core::below::slot::SlotMachine;
use scp_core::below::types::{Fault, NodeId, Slot, WINDOW};
use scp_core::below::vote::StatementKind;
use scp_core::below::wire::{BoxedEnvelope, Message};
use std::alloc::{AllocError, Global};

/// Adds an envelope as a message.
fn add_envelope(out: &mut Vec<Message>, envelope: &SharedEnvelope) -> Result<(), Fault>
    ensures added { OnOk result (out.new.items ≡ out.old.items ++ enveloped envelope.now ∷ []) }
    ensures only_memory { IsOkUnless result Fault.NoMemory }
{
    out.reserve(1)?;
    let shared = envelope.share()?;
    out.push_reserved(Message::Envelope(BoxedEnvelope::from_shared(shared)));
    Ok(())
}

/// Adds the own EXTERNALIZE of a decision, if the decision has one.
fn add_origin(out: &mut Vec<Message>, origin: &Origin) -> Result<(), Fault>
    ensures added { OnOk result (out.new.items ≡ out.old.items ++ own_of origin.now) }
    ensures only_memory { IsOkUnless result Fault.NoMemory }
{
    match origin {
        Origin::Machine { own, .. } => add_envelope(out, own),
        Origin::Named { .. } => Ok(()),
    }
}

/// The last decisions, at most 16.
fn last(decisions: &[SharedDecision]) -> &[SharedDecision]
    ensures { result.now ≡ last_of WINDOW decisions.now }
{
    &decisions[decisions.len().saturating_sub(WINDOW as usize)..]
}

/// Adds the own EXTERNALIZE of each of the last decisions that has one.
fn add_decided(out: &mut Vec<Message>, decisions: &[SharedDecision]) -> Result<(), Fault>
    ensures added { OnOk result (out.new.items ≡ out.old.items ++ decided_again decisions.now) }
    ensures only_memory { IsOkUnless result Fault.NoMemory }
{
    for decision in last(decisions) {
        add_origin(out, &decision.get().origin)?;
    }
    Ok(())
}

/// The envelope of a statement's pledges, of this node and slot, without a signature.
fn own_envelope(
    alloc: Global,
    me: NodeId,
    slot: Slot,
    statement: &Statement,
) -> Result<BoxedEnvelope, Fault>
    ensures made { IfOk result (λ made. made.value ≡ record { statement = record { node = me; slot = slot; pledges = statement.now.pledges }; signature = [] }) }
    ensures only_memory { IsOkUnless result Fault.NoMemory }
{
    let Statement { pledges, .. } = statement.copy()?;
    let envelope = Envelope {
        statement: Statement {
            node: me,
            slot,
            pledges,
        },
        signature: Signature::new(Vec::new(alloc)),
    };
    BoxedEnvelope::new(alloc, envelope)
}

/// Adds an own statement, if there is one: its pledges, of this node and slot, without a signature.
fn add_own(
    alloc: Global,
    out: &mut Vec<Message>,
    me: NodeId,
    slot: Slot,
    statement: Option<&Statement>,
) -> Result<(), Fault>
    ensures added { OnOk result (out.new.items ≡ out.old.items ++ own_messages me slot.0 (option_map (λ s. s.now.pledges) statement.entry)) }
    ensures only_memory { IsOkUnless result Fault.NoMemory }
{
    let Some(statement) = statement else {
        return Ok(());
    };
    out.reserve(1)?;
    let envelope = own_envelope(alloc, me, slot, statement)?;
    out.push_reserved(Message::Envelope(envelope));
    Ok(())
}

/// The statement of an envelope, if there is one.
fn statement_of(envelope: Option<&SharedEnvelope>) -> Option<&Statement>
    ensures { option_map (λ s. s.now.pledges) result ≡ option_map (λ e. e.now.statement.pledges) envelope.entry }
{
    match envelope {
        Some(envelope) => Some(&envelope.get().statement),
        None => None,
    }
}

/// The own nomination on a machine's board. It is the one that was emitted last.
fn nominated<D: Driver + Drop + Copy>(machine: &SlotMachine<D>) -> Option<&Statement>
    ensures { option_map (λ s. s.now.pledges) result ≡ own (slot_view machine.now).nomination }
{
    statement_of(machine.nominator().board().own(StatementKind::Nomination))
}

/// The ballot statement that a machine emitted last. The one on its board may never have been emitted.
fn balloted<D: Driver + Drop + Copy>(machine: &SlotMachine<D>) -> Option<&Statement>
    ensures { option_map (λ s. s.now.pledges) result ≡ (slot_view machine.now).ballots.emitted }
{
    machine.balloter().emitted()
}

/// Adds the own statements that a slot's machine emitted last.
fn add_machine<D: Driver + Drop + Copy>(
    alloc: Global,
    out: &mut Vec<Message>,
    me: NodeId,
    slot: Slot,
    machine: &SlotMachine<D>,
) -> Result<(), Fault>
    ensures added { OnOk result (out.new.items ≡ out.old.items ++ emitted_by me slot.0 (Some machine.now)) }
    ensures only_memory { IsOkUnless result Fault.NoMemory }
{
    add_own(alloc, out, me, slot, nominated(machine))?;
    add_own(alloc, out, me, slot, balloted(machine))
}

/// Adds the own statements that a slot's machine emitted last, if there is a machine.
fn add_open<D: Driver + Drop + Copy>(
    alloc: Global,
    out: &mut Vec<Message>,
    ledger: &Ledger<D>,
    slot: u64,
) -> Result<(), Fault>
    ensures added { OnOk result (out.new.items ≡ out.old.items ++ emitted_by ledger.now.me slot (machine_at ledger.now.machines slot)) }
    ensures only_memory { IsOkUnless result Fault.NoMemory }
{
    match ledger.machine(Slot(slot)) {
        Some(machine) => add_machine(alloc, out, ledger.me(), Slot(slot), machine),
        None => Ok(()),
    }
}

/// Adds the request for a slot's record, if the node asked for it on this link.
fn add_asked<D: Driver + Drop + Copy>(
    out: &mut Vec<Message>,
    ledger: &Ledger<D>,
    link: u8,
    slot: u64,
) -> Result<(), AllocError>
    ensures added { OnOk result (out.new.items ≡ out.old.items ++ asked_for ledger.now.asked link slot) }
{
    if ledger.was_asked(link, Slot(slot)) {
        out.reserve(1)?;
        out.push_reserved(Message::GetRecord(Slot(slot)));
    }
    Ok(())
}

/// Adds what is sent once more about the slot this many slots after the lowest undecided one.
fn add_slot<D: Driver + Drop + Copy>(
    alloc: Global,
    out: &mut Vec<Message>,
    ledger: &Ledger<D>,
    link: u8,
    ahead: u64,
) -> Result<(), Fault>
    ensures added { OnOk result (out.new.items ≡ out.old.items ++ again_at ledger.now link (ledger.now.lowest + ahead)) }
    ensures only_memory { IsOkUnless result Fault.NoMemory }
{
    let Some(slot) = ledger.lowest().checked_add(ahead) else {
        return Ok(());
    };
    add_asked(out, ledger, link, slot)?;
    add_open(alloc, out, ledger, slot)
}

/// The messages that a node with this ledger sends once more to the peer of a link, whose connection may have lost them. Of the last 16
/// decisions, the EXTERNALIZE of each that the node's own machine made. For each of the 16 open slots, the request for its record, if the node
/// asked for it on this link, and the own statements that were emitted last, of nomination and of ballots. Refused only by `NoMemory`.
pub fn messages_again<D: Driver + Drop + Copy>(
    alloc: Global,
    ledger: &Ledger<D>,
    link: u8,
) -> Result<Vec<Message>, Fault>
    ensures exact { IfOk result (λ messages. messages.items ≡ again_of ledger.now link) }
    ensures only_memory { IsOkUnless result Fault.NoMemory }
{
    let mut out = Vec::new(alloc);
    add_decided(&mut out, ledger.decisions())?;
    for ahead in 0..WINDOW {
        add_slot(alloc, &mut out, ledger, link, ahead)?;
    }
    Ok(out)
}
