//! The status of a slot's machine.
ghost use Rattle.std.specs.Prelude.{◌≡◌, ◌↔◌, ◌++◌, IfOk, OnOk, IsOkUnless, IsTrue, None, is_some, string_bytes};
ghost use Rattle.scp_slot.specs.scp_types.specs.declared.names.NodeId.{NodeId};
ghost use Rattle.scp_slot.specs.scp_vote.specs.Seen.{seen};
ghost use Rattle.scp_slot.specs.scp_nominate.specs.Nomination.{nomination};
ghost use Rattle.scp_slot.specs.Slot.{slot_view};
ghost use Rattle.scp_stand_slot.specs.Adding.{Adds};
ghost use Rattle.scp_stand_slot.specs.Machine.{AreFacts, said_lines, needs_lines, IsMachineText, IsBlankMachine};
ghost use Rattle.scp_stand_slot.specs.inside.Facts.{facts_of};

use crate::facts::{lacking, leaders, others, silent, to_nominate};
use crate::lines::{
    sent, write_heard, write_phase, write_rounds, write_said, write_silent, write_votes,
};
use crate::names::Names;
use crate::needs::write_needs;
use scp_slot::SlotMachine;
use scp_slot::below::driver::KvDriver;
use scp_slot::below::nominate::Nominator;
use scp_slot::below::types::{Fault, NodeId, Slot};
use scp_slot::below::vote::{Board, StatementKind};
use scp_stand_needs::{Need, needs_of_ballots};
use std::alloc::Global;

/// The place of the lines: a slot, and the members, which are the nodes of the node's set and itself.
#[derive(Clone, Copy)]
pub struct Place<'a> {
    pub alloc: Global,
    pub slot: u64,
    pub members: &'a [NodeId],
}

/// What a machine shows.
#[derive(Drop)]
struct Shown<'a> {
    nominator: &'a Nominator<KvDriver>,
    nominations: &'a Board,
    ballots: &'a Board,
    leaders: Vec<NodeId>,
    others: Vec<NodeId>,
    to_nominate: Vec<Need>,
    to_ballot: Vec<Need>,
}

/// What the machine shows at this place.
fn what_it_shows<'a>(
    place: Place<'_>,
    me: NodeId,
    machine: &'a SlotMachine<KvDriver>,
) -> Result<Shown<'a>, Fault>
    ensures nomination { IfOk result (λ shown. nomination shown.nominator.now ≡ (slot_view machine.now).nomination) }
    ensures facts { IfOk result (λ shown. AreFacts me place.entry.members.now place.entry.slot machine.now (facts_of shown)) }
    ensures only_memory { IsOkUnless result Fault.NoMemory }
{
    let alloc = place.alloc;
    let nominator = machine.nominator();
    let nominations = nominator.board();
    let ballots = machine.balloter().board();
    Ok(Shown {
        nominator,
        nominations,
        ballots,
        leaders: leaders(alloc, Slot(place.slot), nominator.rounds(), place.members)?,
        others: others(alloc, me, nominations, ballots)?,
        to_nominate: to_nominate(alloc, place.members, nominator, nominations)?,
        to_ballot: needs_of_ballots(alloc, place.members, ballots)?,
    })
}

/// Adds the lines of the rounds, the phase, and the statements.
fn write_what_is_said(
    out: &mut String,
    names: &Names,
    me: NodeId,
    slot: u64,
    shown: &Shown<'_>,
) -> Result<(), Fault>
    ensures added { OnOk result (string_bytes out.new ≡ string_bytes out.old ++ said_lines names.now me slot (nomination shown.now.nominator.now) (facts_of shown.now)) }
    ensures only_memory { IsOkUnless result Fault.NoMemory }
{
    let nominator = shown.nominator;
    let nominations = shown.nominations;
    let ballots = shown.ballots;
    let nomination = nominations.own(StatementKind::Nomination);
    let ballot = ballots.own(StatementKind::Balloting);
    let said = sent(ballot);
    let leaders = shown.leaders.as_slice();
    write_rounds(
        out,
        names,
        me,
        slot,
        leaders,
        nomination,
        nominator.rounds(),
        nominator.proposal(),
    )?;
    write_phase(out, names, me, slot, ballot, nominator)?;
    write_said(out, names, me, slot, "own", me, nomination)?;
    write_said(out, names, me, slot, "own", me, said)?;
    write_heard(
        out,
        names,
        me,
        slot,
        nominations,
        ballots,
        shown.others.as_slice(),
    )
}

/// Adds the lines of the nodes that said nothing, and of what the next steps need.
fn write_what_is_needed(
    out: &mut String,
    place: Place<'_>,
    names: &Names,
    me: NodeId,
    shown: &Shown<'_>,
) -> Result<(), Fault>
    ensures added { OnOk result (string_bytes out.new ≡ string_bytes out.old ++ needs_lines names.now me place.entry.members.now place.entry.slot (is_some (nomination shown.now.nominator.now).proposal) (facts_of shown.now)) }
    ensures only_memory { IsOkUnless result Fault.NoMemory }
{
    let Place {
        alloc,
        slot,
        members,
    } = place;
    let nominations = shown.nominations;
    let proposes = shown.nominator.proposal().is_some();
    let nodes = silent(alloc, &me, nominations, shown.ballots, members)?;
    let voters = lacking(alloc, &me, proposes, nominations, shown.leaders.as_slice())?;
    let own = nominations.own(StatementKind::Nomination);
    write_silent(out, names, me, slot, nodes.as_slice())?;
    write_votes(out, names, me, slot, own, voters.as_slice())?;
    write_needs(out, names, me, slot, shown.to_nominate.as_slice())?;
    write_needs(out, names, me, slot, shown.to_ballot.as_slice())
}

/// Adds the lines of a slot's machine.
pub fn write_machine(
    out: &mut String,
    place: Place<'_>,
    names: &Names,
    me: NodeId,
    machine: &SlotMachine<KvDriver>,
) -> Result<(), Fault>
    ensures added { OnOk result (Adds (string_bytes out.old) (string_bytes out.new) (IsMachineText names.now me place.entry.members.now place.entry.slot machine.now)) }
    ensures only_memory { IsOkUnless result Fault.NoMemory }
{
    let shown = what_it_shows(place, me, machine)?;
    write_what_is_said(out, names, me, place.slot, &shown)?;
    write_what_is_needed(out, place, names, me, &shown)
}

/// Whether no statement of this kind is on the board.
fn is_empty(board: &Board, kind: StatementKind) -> bool
    ensures { IsTrue result ↔ ((v : NodeId) → (seen kind board.now).statement v ≡ None) }
{
    board.statements(kind).is_empty()
}

/// Whether there was exactly one round, and nothing is proposed.
fn is_untouched(nominator: &Nominator<KvDriver>) -> bool
    ensures { IsTrue result ↔ (((nomination nominator.now).rounds ≡ 1) × ((nomination nominator.now).proposal ≡ None)) }
{
    if nominator.rounds() != 1 {
        return false;
    }
    nominator.proposal().is_none()
}

/// Whether there is no statement on either board.
fn is_unheard(machine: &SlotMachine<KvDriver>) -> bool
    ensures { IsTrue result ↔ (((v : NodeId) → (slot_view machine.now).nomination.board.statement v ≡ None) × ((v : NodeId) → (slot_view machine.now).ballots.board.statement v ≡ None)) }
{
    if !is_empty(machine.nominator().board(), StatementKind::Nomination) {
        return false;
    }
    is_empty(machine.balloter().board(), StatementKind::Balloting)
}

/// Whether nothing that came changed the machine: it heard and said nothing, has no proposal, and had exactly one round.
pub fn is_blank(machine: &SlotMachine<KvDriver>) -> bool
    ensures { IsTrue result ↔ IsBlankMachine machine.now }
{
    if !is_untouched(machine.nominator()) {
        return false;
    }
    is_unheard(machine)
}
