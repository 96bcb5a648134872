//! The lines of a node's slots.
ghost use Rattle.std.specs.Prelude.{◌≡◌, ◌↔◌, ◌++◌, false, find, Some, IsTrue, IfOk, OnOk, IsOkUnless, string_bytes, option_copied};
ghost use Rattle.std.specs.List.{list_any};
ghost use Rattle.scp_turn.specs.scp_ledger.specs.Decisions.{is_at};
ghost use Rattle.scp_turn.specs.scp_ledger.specs.Seen.{is_asked, machine_at};
ghost use Rattle.scp_stand_slot.specs.Adding.{Adds};
ghost use Rattle.scp_stand_node.specs.Links.{script_of};
ghost use Rattle.scp_stand_node.specs.Slots.{decided_text, asked_of, asked_text, is_machines, is_of, is_judged, moves, rests, is_taken, is_taken_in, is_begun, IsHidden, IsToldOf, IsSlotText, slot_above, IsTextOf, IsTextAbove, AreTexts};

use crate::links::number_of;
use crate::others::{add_if, links, lowest_of, peer_of};
use crate::stand::{Lines, Seen};
use scp_stand_slot::below::script::Command;
use scp_stand_slot::below::text::Term;
use scp_stand_slot::{Names, Place, is_blank, write_machine, write_nodes, write_slot_words};
use scp_turn::below::driver::KvDriver;
use scp_turn::below::ledger::LAST_SLOT;
use scp_turn::below::node::{Fate, Node, SharedDecision, Verdict};
use scp_turn::below::slot::SlotMachine;
use scp_turn::below::types::{Fault, NodeId, Slot, WINDOW};
use scp_turn::below::wire::Message;
use std::alloc::Global;

/// Whether this is the decision of the slot.
fn is_decision_of(decision: &SharedDecision, slot: u64) -> bool
    ensures { result ≡ is_at slot decision.now }
{
    decision.get().slot.0 == slot
}

/// The decision of a slot.
fn decision_of<'a>(decisions: &'a [SharedDecision], slot: u64) -> Option<&'a SharedDecision>
    ensures { option_copied result ≡ find (is_at slot) decisions.now }
{
    for decision in decisions {
        if is_decision_of(decision, slot) {
            return Some(decision);
        }
    }
    None
}

/// Adds the line of a decision that isn't applied yet.
fn write_decision(
    out: &mut String,
    names: &Names,
    me: NodeId,
    lowest: u64,
    slot: u64,
    decision: Option<&SharedDecision>,
) -> Result<(), Fault>
    ensures added { OnOk result (string_bytes out.new ≡ string_bytes out.old ++ decided_text names.now me lowest slot (option_copied decision.entry)) }
    ensures only_memory { IsOkUnless result Fault.NoMemory }
{
    if let Some(decision) = decision {
        write_slot_words(out, names, me, slot)?;
        out.push_str(" decided ")?;
        decision.get().value.write(out)?;
        writeln!(out, " waits {lowest}")?;
    }
    Ok(())
}

/// Adds the line of a slot's decision that isn't applied yet.
fn write_decided(
    out: &mut String,
    names: &Names,
    node: &Node,
    lowest: u64,
    slot: u64,
) -> Result<(), Fault>
    ensures added { OnOk result (string_bytes out.new ≡ string_bytes out.old ++ decided_text names.now node.now.config.me lowest slot (find (is_at slot) node.now.ledger.decisions)) }
    ensures only_memory { IsOkUnless result Fault.NoMemory }
{
    write_decision(
        out,
        names,
        node.me(),
        lowest,
        slot,
        decision_of(node.decisions(), slot),
    )?;
    Ok(())
}

/// Whether the node at the other end of a link was asked for the slot's record.
fn is_asked_of(node: &Node, slot: u64, link: u8) -> bool
    requires runs { node.now.failed ≡ false }
    ensures { result ≡ is_asked node.now.ledger.asked (record { link = link; slot = record { 0 = slot } }) }
{
    node.ledger().was_asked(link, Slot(slot))
}

/// The nodes that were asked for the slot's record.
fn nodes_asked(alloc: Global, node: &Node, slot: u64) -> Result<Vec<NodeId>, Fault>
    requires runs { node.now.failed ≡ false }
    ensures nodes { IfOk result (λ nodes. nodes.items ≡ asked_of node.now slot) }
    ensures only_memory { IsOkUnless result Fault.NoMemory }
{
    let mut nodes = Vec::new(alloc);
    for link in 0..links(node) {
        let is_asked = is_asked_of(node, slot, link);
        add_if(&mut nodes, is_asked, peer_of(node, link))?;
    }
    Ok(nodes)
}

/// Adds the line of the nodes that were asked, if there are any.
fn write_nodes_asked(
    out: &mut String,
    names: &Names,
    me: NodeId,
    slot: u64,
    nodes: &[NodeId],
) -> Result<(), Fault>
    ensures added { OnOk result (string_bytes out.new ≡ string_bytes out.old ++ asked_text names.now me slot nodes.now) }
    ensures only_memory { IsOkUnless result Fault.NoMemory }
{
    if nodes.is_empty() {
        return Ok(());
    }
    write_slot_words(out, names, me, slot)?;
    out.push_str(" asked ")?;
    write_nodes(out, names, nodes)?;
    out.push_str("\n")?;
    Ok(())
}

/// Adds the line of the nodes that were asked for a slot's record.
fn write_asked(
    out: &mut String,
    alloc: Global,
    names: &Names,
    node: &Node,
    slot: u64,
) -> Result<(), Fault>
    requires runs { node.now.failed ≡ false }
    ensures added { OnOk result (string_bytes out.new ≡ string_bytes out.old ++ asked_text names.now node.now.config.me slot (asked_of node.now slot)) }
    ensures only_memory { IsOkUnless result Fault.NoMemory }
{
    let nodes = nodes_asked(alloc, node, slot)?;
    write_nodes_asked(out, names, node.me(), slot, nodes.as_slice())?;
    Ok(())
}

/// Whether the command begins a round of the slot at the node, or fires the slot's timer there.
fn is_move(command: &Command, number: u8, slot: u64) -> bool
    ensures { result ≡ moves number slot command.now }
{
    match command {
        Command::Round { node, slot: of } => *node == number && *of == slot,
        Command::Timer { node, slot: of } => *node == number && *of == slot,
        _ => false,
    }
}

/// Whether the command lets the nodes settle.
fn does_rest(command: &Command) -> bool
    ensures { result ≡ rests command.now }
{
    match command {
        Command::Settle | Command::Wait { .. } => true,
        _ => false,
    }
}

/// Whether one of the commands does.
fn do_rest(lines: &[Command]) -> bool
    ensures { result ≡ list_any rests lines.now }
{
    lines.iter().any(|command| does_rest(command))
}

/// Whether the node took a round or a timer of the slot: a command says so, and a later one lets the nodes settle.
fn was_taken(played: &[Command], number: u8, slot: u64) -> bool
    ensures { result ≡ is_taken number slot played.now }
{
    for (index, command) in played.iter().enumerate() {
        if is_move(command, number, slot) {
            return do_rest(&played[index + 1..]);
        }
    }
    false
}

/// Whether the verdict is one that a slot's machine gives on another node's envelope.
fn is_machine_verdict(verdict: Verdict) -> bool
    ensures { result ≡ is_machines verdict }
{
    match verdict {
        Verdict::BadStatement | Verdict::BadValue | Verdict::Stale | Verdict::Fresh => true,
        _ => false,
    }
}

/// Whether the message is an envelope of the slot.
fn is_envelope_of(message: &Message, slot: u64) -> bool
    ensures { result ≡ is_of slot message.now }
{
    match message {
        Message::Envelope(envelope) => envelope.get().statement.slot.0 == slot,
        _ => false,
    }
}

/// Whether the entry is an envelope of the slot that its machine judged. It is another node's: an own one is refused before that.
fn is_judgement(fate: &Fate, slot: u64) -> bool
    ensures { result ≡ is_judged slot fate.now }
{
    match fate {
        Fate::Taken {
            message,
            verdict,
            ..
        } => is_envelope_of(message, slot) && is_machine_verdict(*verdict),
        _ => false,
    }
}

/// Whether any entry is.
fn has_judgement(journal: &[Fate], slot: u64) -> bool
    ensures { result ≡ list_any (is_judged slot) journal.now }
{
    for fate in journal {
        if is_judgement(fate, slot) {
            return true;
        }
    }
    false
}

/// The same, if the node plays in a script.
fn was_taken_in(lines: Option<Lines<'_>>, number: u8, slot: u64) -> bool
    ensures { result ≡ is_taken_in (script_of lines.entry) number slot }
{
    match lines {
        Some(lines) => was_taken(lines.played, number, slot),
        None => false,
    }
}

/// Whether something began the slot at the node: another node's envelope, or a round or timer of a script that the node took. The node's
/// own envelope doesn't begin it, nor does a refused proposal.
fn has_begun(node: &Node, lines: Option<Lines<'_>>, slot: u64) -> bool
    ensures { result ≡ is_begun node.now.config.me slot node.now.ledger.journal (script_of lines.entry) }
{
    if has_judgement(node.journal(), slot) {
        return true;
    }
    was_taken_in(lines, number_of(node.me()), slot)
}

/// Whether the machine isn't shown.
fn is_left_out(
    node: &Node,
    lines: Option<Lines<'_>>,
    slot: u64,
    machine: &SlotMachine<KvDriver>,
) -> bool
    ensures { IsTrue result ↔ IsHidden node.now.config.me slot node.now.ledger.journal (script_of lines.entry) machine.now }
{
    if has_begun(node, lines, slot) {
        return false;
    }
    is_blank(machine)
}

/// Adds the lines of the machine, if it is shown.
fn write_told(
    out: &mut String,
    seen: Seen<'_>,
    members: &[NodeId],
    slot: u64,
    machine: &SlotMachine<KvDriver>,
) -> Result<(), Fault>
    ensures added { OnOk result (Adds (string_bytes out.old) (string_bytes out.new) (IsToldOf seen.entry.names.now seen.entry.node.now.config.me members.now slot seen.entry.node.now.ledger.journal (script_of seen.entry.lines) (Some machine.now))) }
    ensures only_memory { IsOkUnless result Fault.NoMemory }
{
    if is_left_out(seen.node, seen.lines, slot, machine) {
        return Ok(());
    }
    let place = Place {
        alloc: seen.alloc,
        slot,
        members,
    };
    write_machine(out, place, seen.names, seen.node.me(), machine)?;
    Ok(())
}

/// Adds the lines of the machine, if there is one.
fn write_machine_of(
    out: &mut String,
    seen: Seen<'_>,
    members: &[NodeId],
    slot: u64,
    machine: Option<&SlotMachine<KvDriver>>,
) -> Result<(), Fault>
    ensures added { OnOk result (Adds (string_bytes out.old) (string_bytes out.new) (IsToldOf seen.entry.names.now seen.entry.node.now.config.me members.now slot seen.entry.node.now.ledger.journal (script_of seen.entry.lines) (option_copied machine.entry))) }
    ensures only_memory { IsOkUnless result Fault.NoMemory }
{
    match machine {
        Some(machine) => write_told(out, seen, members, slot, machine),
        None => Ok(()),
    }
}

/// Adds the lines of the slot's machine.
fn write_its_machine(
    out: &mut String,
    seen: Seen<'_>,
    members: &[NodeId],
    slot: u64,
) -> Result<(), Fault>
    requires runs { seen.node.now.failed ≡ false }
    ensures added { OnOk result (Adds (string_bytes out.old) (string_bytes out.new) (IsToldOf seen.entry.names.now seen.entry.node.now.config.me members.now slot seen.entry.node.now.ledger.journal (script_of seen.entry.lines) (machine_at seen.entry.node.now.ledger.machines slot))) }
    ensures only_memory { IsOkUnless result Fault.NoMemory }
{
    let machine = seen.node.ledger().machine(Slot(slot));
    write_machine_of(out, seen, members, slot, machine)?;
    Ok(())
}

/// Adds the lines of a slot.
fn write_slot(
    out: &mut String,
    seen: Seen<'_>,
    members: &[NodeId],
    lowest: u64,
    slot: u64,
) -> Result<(), Fault>
    requires runs { seen.node.now.failed ≡ false }
    requires lowest { lowest ≡ seen.node.now.ledger.lowest }
    ensures added { OnOk result (Adds (string_bytes out.old) (string_bytes out.new) (IsSlotText seen.entry.names.now members.now (script_of seen.entry.lines) seen.entry.node.now slot)) }
    ensures only_memory { IsOkUnless result Fault.NoMemory }
{
    write_decided(out, seen.names, seen.node, lowest, slot)?;
    write_asked(out, seen.alloc, seen.names, seen.node, slot)?;
    write_its_machine(out, seen, members, slot)?;
    Ok(())
}

/// Adds the lines of the slot, if there is one.
fn write_slot_if(
    out: &mut String,
    seen: Seen<'_>,
    members: &[NodeId],
    lowest: u64,
    slot: Option<u64>,
) -> Result<(), Fault>
    requires runs { seen.node.now.failed ≡ false }
    requires lowest { lowest ≡ seen.node.now.ledger.lowest }
    ensures added { OnOk result (Adds (string_bytes out.old) (string_bytes out.new) (IsTextOf (IsSlotText seen.entry.names.now members.now (script_of seen.entry.lines) seen.entry.node.now) slot)) }
    ensures only_memory { IsOkUnless result Fault.NoMemory }
{
    match slot {
        Some(slot) => write_slot(out, seen, members, lowest, slot),
        None => Ok(()),
    }
}

/// The slot this many after the lowest one, if it isn't after the last slot.
fn slot_at(lowest: u64, place: u64) -> Option<u64>
    ensures { result ≡ slot_above lowest place }
{
    let slot = lowest.saturating_add(place);
    if slot > LAST_SLOT {
        return None;
    }
    Some(slot)
}

/// Adds the lines of the slot this many after the lowest one, if it isn't after the last slot.
fn write_slot_above(
    out: &mut String,
    seen: Seen<'_>,
    members: &[NodeId],
    lowest: u64,
    place: u64,
) -> Result<(), Fault>
    requires runs { seen.node.now.failed ≡ false }
    requires lowest { lowest ≡ seen.node.now.ledger.lowest }
    ensures added { OnOk result (Adds (string_bytes out.old) (string_bytes out.new) (IsTextAbove seen.entry.names.now members.now (script_of seen.entry.lines) seen.entry.node.now place)) }
    ensures only_memory { IsOkUnless result Fault.NoMemory }
{
    write_slot_if(out, seen, members, lowest, slot_at(lowest, place))
}

/// Adds the lines of this many slots, from the lowest one on.
fn write_slots_above(
    out: &mut String,
    seen: Seen<'_>,
    members: &[NodeId],
    lowest: u64,
    window: u64,
) -> Result<(), Fault>
    requires runs { seen.node.now.failed ≡ false }
    requires lowest { lowest ≡ seen.node.now.ledger.lowest }
    ensures added { OnOk result (Adds (string_bytes out.old) (string_bytes out.new) (AreTexts (IsTextAbove seen.entry.names.now members.now (script_of seen.entry.lines) seen.entry.node.now) window)) }
    ensures only_memory { IsOkUnless result Fault.NoMemory }
{
    for place in 0..window {
        write_slot_above(out, seen, members, lowest, place)?;
    }
    Ok(())
}

/// Adds the lines of each slot of the window.
pub fn write_slots(out: &mut String, seen: Seen<'_>, members: &[NodeId]) -> Result<(), Fault>
    requires runs { seen.node.now.failed ≡ false }
    ensures added { OnOk result (Adds (string_bytes out.old) (string_bytes out.new) (AreTexts (IsTextAbove seen.entry.names.now members.now (script_of seen.entry.lines) seen.entry.node.now) WINDOW)) }
    ensures only_memory { IsOkUnless result Fault.NoMemory }
{
    write_slots_above(out, seen, members, lowest_of(seen.node), WINDOW)?;
    Ok(())
}
