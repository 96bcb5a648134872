//! The lines of a slot's machine.
ghost use Rattle.std.specs.Prelude.{◌≡◌, ◌++◌, Some, OnOk, IsOkUnless, codes, flat_map, option_map, option_copied, string_bytes};
ghost use Rattle.std.specs.List.{list_any};
ghost use Rattle.scp_script.specs.scp_wire.specs.Connections.{same_node};
ghost use Rattle.scp_slot.specs.scp_nominate.specs.Nomination.{nomination};
ghost use Rattle.scp_stand_slot.specs.Machine.{leads_word, has_value as has_value_of, names_value, proposal_text, rounds_line, is_sent as is_sent_of, phase_word, candidate_text, phase_line, sent as sent_of, statement_line, lines_of, silent_line, votes_line};

use crate::names::Names;
use crate::statements::write_statement;
use crate::texts::{write_nodes, write_slot_words, write_value};
use scp_slot::below::driver::{Driver, KvDriver};
use scp_slot::below::envelope::{Pledges, SharedEnvelope};
use scp_slot::below::nominate::Nominator;
use scp_slot::below::types::{Fault, NodeId, Slot, Value};
use scp_slot::below::vote::{Board, StatementKind};

/// Whether the node leads.
fn leads(leaders: &[NodeId], me: NodeId) -> bool
    ensures { result ≡ list_any (λ v. same_node v me) leaders.now }
{
    leaders.iter().any(|leader| *leader == me)
}

fn word_of(leads: bool) -> &'static str
    ensures { result.now ≡ leads_word leads }
{
    if leads { "leads " } else { "waits " }
}

/// Whether the value is one of these.
fn has_value(values: &[Value], value: &Value) -> bool
    ensures { result ≡ has_value_of values.now value.now }
{
    values.iter().any(|other| *other == *value)
}

/// Whether the pledges nominate the value: they vote for it or have accepted it.
fn names_in(pledges: &Pledges, value: &Value) -> bool
    ensures { result ≡ names_value (Some pledges.now) value.now }
{
    match pledges {
        Pledges::Nominate(p) => {
            has_value(p.votes.as_slice(), value) || has_value(p.accepted.as_slice(), value)
        }
        _ => false,
    }
}

/// Whether the node's own nomination votes for the value or has accepted it.
fn votes_for(own: Option<&SharedEnvelope>, value: &Value) -> bool
    ensures { result ≡ names_value (option_map (λ e. e.now.statement.pledges) own.entry) value.now }
{
    match own {
        Some(own) => names_in(&own.get().statement.pledges, value),
        None => false,
    }
}

/// Adds a proposal, and whether this node leads with it.
fn write_proposal(
    out: &mut String,
    me: NodeId,
    leaders: &[NodeId],
    own: Option<&SharedEnvelope>,
    proposal: Option<&Value>,
) -> Result<(), Fault>
    ensures added { OnOk result (string_bytes out.new ≡ string_bytes out.old ++ proposal_text me leaders.now (option_map (λ e. e.now.statement.pledges) own.entry) (option_copied proposal.entry)) }
    ensures only_memory { IsOkUnless result Fault.NoMemory }
{
    match proposal {
        None => {
            out.push_str("none")?;
            Ok(())
        }
        Some(value) => {
            out.push_str(word_of(leads(leaders, me) && votes_for(own, value)))?;
            write_value(out, value)
        }
    }
}

/// Adds the rounds, their leaders, and the proposal.
pub(crate) fn write_rounds(
    out: &mut String,
    names: &Names,
    me: NodeId,
    slot: u64,
    leaders: &[NodeId],
    own: Option<&SharedEnvelope>,
    rounds: u64,
    proposal: Option<&Value>,
) -> Result<(), Fault>
    ensures added { OnOk result (string_bytes out.new ≡ string_bytes out.old ++ rounds_line names.now me slot leaders.now (option_map (λ e. e.now.statement.pledges) own.entry) rounds (option_copied proposal.entry)) }
    ensures only_memory { IsOkUnless result Fault.NoMemory }
{
    write_slot_words(out, names, me, slot)?;
    write!(out, " nominates round {rounds} leaders ")?;
    write_nodes(out, names, leaders)?;
    out.push_str(" proposal ")?;
    write_proposal(out, me, leaders, own, proposal)?;
    out.push_str("\n")?;
    Ok(())
}

/// The phase of the node, from its own ballot statement, if that is sent.
fn phase_of(own: Option<&SharedEnvelope>) -> &'static str
    ensures { result.now ≡ phase_word (option_map (λ e. e.now.statement.pledges) own.entry) }
{
    match own {
        None => "nominate",
        Some(own) => match &own.get().statement.pledges {
            Pledges::Prepare(p) => {
                if 0 < p.ballot.counter {
                    "prepare"
                } else {
                    "nominate"
                }
            }
            Pledges::Confirm(_) => "confirm",
            Pledges::Externalize(_) => "externalize",
            Pledges::Nominate(_) => "nominate",
        },
    }
}

/// Adds the value to which all candidates are combined, or a dash if there are none.
fn write_candidate(
    out: &mut String,
    slot: u64,
    nominator: &Nominator<KvDriver>,
) -> Result<(), Fault>
    ensures added { OnOk result (string_bytes out.new ≡ string_bytes out.old ++ candidate_text (nomination nominator.now).lists.candidates) }
    ensures only_memory { IsOkUnless result Fault.NoMemory }
{
    let candidates = nominator.candidates();
    match candidates {
        [] => {
            out.push_str("-")?;
            Ok(())
        }
        [_, ..] => {
            let driver = nominator.driver();
            let value = driver.combine(*out.allocator(), Slot(slot), candidates)?;
            write_value(out, &value)
        }
    }
}

/// Adds the phase, and the value to which all candidates are combined.
pub(crate) fn write_phase(
    out: &mut String,
    names: &Names,
    me: NodeId,
    slot: u64,
    own: Option<&SharedEnvelope>,
    nominator: &Nominator<KvDriver>,
) -> Result<(), Fault>
    ensures added { OnOk result (string_bytes out.new ≡ string_bytes out.old ++ phase_line names.now me slot (option_map (λ e. e.now.statement.pledges) own.entry) (nomination nominator.now).lists.candidates) }
    ensures only_memory { IsOkUnless result Fault.NoMemory }
{
    let phase = phase_of(own);
    write_slot_words(out, names, me, slot)?;
    write!(out, " phase {phase} candidate ")?;
    write_candidate(out, slot, nominator)?;
    out.push_str("\n")?;
    Ok(())
}

/// Whether the node's own statement is sent. Each is, except a PREPARE of counter 0.
fn is_sent(pledges: &Pledges) -> bool
    ensures { result ≡ is_sent_of pledges.now }
{
    match pledges {
        Pledges::Prepare(p) => 0 < p.ballot.counter,
        _ => true,
    }
}

/// The node's own statement, if it is sent.
fn sent_one<'a>(own: &'a SharedEnvelope) -> Option<&'a SharedEnvelope>
    ensures { option_map (λ e. e.now) result ≡ sent_of (Some own.entry.now) }
{
    if is_sent(&own.get().statement.pledges) {
        Some(own)
    } else {
        None
    }
}

/// The node's own statement, if there is one and it is sent.
pub(crate) fn sent<'a>(own: Option<&'a SharedEnvelope>) -> Option<&'a SharedEnvelope>
    ensures { option_map (λ e. e.now) result ≡ sent_of (option_map (λ e. e.now) own.entry) }
{
    match own {
        Some(own) => sent_one(own),
        None => None,
    }
}

/// Adds a node's statement after a word, if there is one.
pub(crate) fn write_said(
    out: &mut String,
    names: &Names,
    me: NodeId,
    slot: u64,
    word: &str,
    node: NodeId,
    statement: Option<&SharedEnvelope>,
) -> Result<(), Fault>
    ensures added { OnOk result (string_bytes out.new ≡ string_bytes out.old ++ statement_line names.now me slot word.now node (option_map (λ e. e.now) statement.entry)) }
    ensures only_memory { IsOkUnless result Fault.NoMemory }
{
    let Some(statement) = statement else {
        return Ok(());
    };
    write_slot_words(out, names, me, slot)?;
    write!(out, " {word} ")?;
    write_statement(out, names, node, slot, statement.get())?;
    out.push_str("\n")?;
    Ok(())
}

/// Adds a node's newest statements.
fn write_node(
    out: &mut String,
    names: &Names,
    me: NodeId,
    slot: u64,
    nominations: &Board,
    ballots: &Board,
    node: &NodeId,
) -> Result<(), Fault>
    ensures added { OnOk result (string_bytes out.new ≡ string_bytes out.old ++ lines_of names.now me slot (codes "heard") nominations.now ballots.now node.now) }
    ensures only_memory { IsOkUnless result Fault.NoMemory }
{
    let nomination = nominations.statement(StatementKind::Nomination, node);
    write_said(out, names, me, slot, "heard", *node, nomination)?;
    let ballot = ballots.statement(StatementKind::Balloting, node);
    write_said(out, names, me, slot, "heard", *node, ballot)
}

/// Adds the newest statements of these nodes.
pub(crate) fn write_heard(
    out: &mut String,
    names: &Names,
    me: NodeId,
    slot: u64,
    nominations: &Board,
    ballots: &Board,
    nodes: &[NodeId],
) -> Result<(), Fault>
    ensures added { OnOk result (string_bytes out.new ≡ string_bytes out.old ++ flat_map (lines_of names.now me slot (codes "heard") nominations.now ballots.now) nodes.now) }
    ensures only_memory { IsOkUnless result Fault.NoMemory }
{
    for node in nodes {
        write_node(out, names, me, slot, nominations, ballots, node)?;
    }
    Ok(())
}

/// Adds the nodes that said nothing, if there are any.
pub(crate) fn write_silent(
    out: &mut String,
    names: &Names,
    me: NodeId,
    slot: u64,
    nodes: &[NodeId],
) -> Result<(), Fault>
    ensures added { OnOk result (string_bytes out.new ≡ string_bytes out.old ++ silent_line names.now me slot nodes.now) }
    ensures only_memory { IsOkUnless result Fault.NoMemory }
{
    match nodes {
        [] => Ok(()),
        [_, ..] => {
            write_slot_words(out, names, me, slot)?;
            out.push_str(" silent ")?;
            write_nodes(out, names, nodes)?;
            out.push_str("\n")?;
            Ok(())
        }
    }
}

/// Adds the leaders from which no vote can come, if this node votes for nothing yet.
pub(crate) fn write_votes(
    out: &mut String,
    names: &Names,
    me: NodeId,
    slot: u64,
    own: Option<&SharedEnvelope>,
    nodes: &[NodeId],
) -> Result<(), Fault>
    ensures added { OnOk result (string_bytes out.new ≡ string_bytes out.old ++ votes_line names.now me slot (option_map (λ e. e.now.statement.pledges) own.entry) nodes.now) }
    ensures only_memory { IsOkUnless result Fault.NoMemory }
{
    match own {
        Some(_) => Ok(()),
        None => {
            write_slot_words(out, names, me, slot)?;
            out.push_str(" needs vote from ")?;
            write_nodes(out, names, nodes)?;
            out.push_str("\n")?;
            Ok(())
        }
    }
}
