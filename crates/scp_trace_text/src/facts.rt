//! The lines of facts.
ghost use Rattle.std.specs.Prelude.{◌≡◌, ◌++◌, ◌∷◌, IfOk, OnOk, IsOkUnless, map, option_map, slice_get, Some, string_bytes};
ghost use Rattle.scp_facts.specs.scp_core.specs.History.{peer_at};
ghost use Rattle.scp_stand_slot.specs.Names.{node_name};
ghost use Rattle.scp_trace_text.specs.Words.{side_word};
ghost use Rattle.scp_trace_text.specs.Facts.{full_line, discarded_line, opened_line, parked_line, side_line, tick_line, missed_line, took_line, conflict_line, dropped_line, closed_line, entry_lines, command_line, says_line, machine_words, record_words, origin_words, decided_line, applied_line, answers_line, sent_line, fact_line};

use crate::commands::{peer_of, write_command};
use crate::messages::{
    write_conn, write_envelope, write_message, write_place, write_sent, write_side,
};
use crate::words::{verdict_of, word_of_answer, word_of_side, word_of_why};
use scp_facts::Fact;
use scp_facts::below::turn::{
    Command, CommandFate, Decision, Fate, Node, Origin, SharedDecision, Verdict,
};
use scp_stand_slot::below::text::Term;
use scp_stand_slot::{Names, write_nodes};
use scp_words::below::envelope::SharedEnvelope;
use scp_words::below::ledger::Quorum;
use scp_words::below::pending::{Becoming, DropCause, Why};
use scp_words::below::types::{ConnId, Fault, Hash, NodeId, Seq, Slot};
use scp_words::below::wire::{Cause, Message, SideMessage};
use scp_words::{word_of_cause, word_of_drop, word_of_verdict};
use std::alloc::Global;

/// Adds a node's name, and the words behind it.
pub(crate) fn write_front(
    out: &mut String,
    names: &Names,
    me: NodeId,
    words: &str,
) -> Result<(), Fault>
    ensures added { OnOk result (string_bytes out.new ≡ string_bytes out.old ++ (node_name names.now me ++ words.now)) }
    ensures only_memory { IsOkUnless result Fault.NoMemory }
{
    names.write_node(out, &me)?;
    out.push_str(words)?;
    Ok(())
}

// ---- connections, and the pending stage

fn write_full(out: &mut String, line: usize) -> Result<(), Fault>
    ensures added { OnOk result (string_bytes out.new ≡ string_bytes out.old ++ full_line line) }
    ensures only_memory { IsOkUnless result Fault.NoMemory }
{
    writeln!(out, "line {line} full")?;
    Ok(())
}

fn write_discarded(out: &mut String, names: &Names, me: NodeId, conn: &ConnId) -> Result<(), Fault>
    ensures added { OnOk result (string_bytes out.new ≡ string_bytes out.old ++ discarded_line names.now me conn.now) }
    ensures only_memory { IsOkUnless result Fault.NoMemory }
{
    write_front(out, names, me, " discarded ")?;
    write_conn(out, names, conn)?;
    out.push_str("\n")?;
    Ok(())
}

fn write_opened(out: &mut String, names: &Names, me: NodeId, conn: &ConnId) -> Result<(), Fault>
    ensures added { OnOk result (string_bytes out.new ≡ string_bytes out.old ++ opened_line names.now me conn.now) }
    ensures only_memory { IsOkUnless result Fault.NoMemory }
{
    write_front(out, names, me, " opened ")?;
    write_conn(out, names, conn)?;
    out.push_str("\n")?;
    Ok(())
}

fn write_parked(
    out: &mut String,
    names: &Names,
    me: NodeId,
    conn: &ConnId,
    seq: Seq,
    why: Why,
    message: &Message,
) -> Result<(), Fault>
    ensures added { OnOk result (string_bytes out.new ≡ string_bytes out.old ++ parked_line names.now me conn.now seq why message.now) }
    ensures only_memory { IsOkUnless result Fault.NoMemory }
{
    let word = word_of_why(why);
    write_front(out, names, me, " parked ")?;
    write_place(out, names, conn, seq)?;
    write!(out, " {word} ")?;
    write_message(out, names, message)?;
    out.push_str("\n")?;
    Ok(())
}

fn write_side_line(
    out: &mut String,
    names: &Names,
    me: NodeId,
    conn: &ConnId,
    word: &str,
    message: &SideMessage,
) -> Result<(), Fault>
    ensures added { OnOk result (string_bytes out.new ≡ string_bytes out.old ++ side_line names.now me conn.now (Some word.now) message.now) }
    ensures only_memory { IsOkUnless result Fault.NoMemory }
{
    write_front(out, names, me, " side ")?;
    write_conn(out, names, conn)?;
    write!(out, " {word} ")?;
    write_side(out, names, message)?;
    out.push_str("\n")?;
    Ok(())
}

fn write_heard(
    out: &mut String,
    names: &Names,
    me: NodeId,
    conn: &ConnId,
    became: Becoming,
    message: &SideMessage,
) -> Result<(), Fault>
    ensures added { OnOk result (string_bytes out.new ≡ string_bytes out.old ++ side_line names.now me conn.now (side_word became) message.now) }
    ensures only_memory { IsOkUnless result Fault.NoMemory }
{
    match word_of_side(became) {
        Some(word) => write_side_line(out, names, me, conn, word, message),
        None => Ok(()),
    }
}

fn write_tick(out: &mut String, names: &Names, me: NodeId) -> Result<(), Fault>
    ensures added { OnOk result (string_bytes out.new ≡ string_bytes out.old ++ tick_line names.now me) }
    ensures only_memory { IsOkUnless result Fault.NoMemory }
{
    write_front(out, names, me, " tick\n")
}

fn write_missed(
    out: &mut String,
    names: &Names,
    me: NodeId,
    hash: &Hash,
    misses: u16,
) -> Result<(), Fault>
    ensures added { OnOk result (string_bytes out.new ≡ string_bytes out.old ++ missed_line names.now me hash.now misses) }
    ensures only_memory { IsOkUnless result Fault.NoMemory }
{
    write_front(out, names, me, " missed ")?;
    write!(out, "{misses} ")?;
    names.write_hash(out, hash)?;
    out.push_str("\n")?;
    Ok(())
}

// ---- the journal

fn write_took(
    out: &mut String,
    names: &Names,
    me: NodeId,
    conn: &ConnId,
    seq: Seq,
    verdict: Verdict,
    message: &Message,
) -> Result<(), Fault>
    ensures added { OnOk result (string_bytes out.new ≡ string_bytes out.old ++ took_line names.now me conn.now seq verdict message.now) }
    ensures only_memory { IsOkUnless result Fault.NoMemory }
{
    let word = word_of_verdict(verdict);
    write_front(out, names, me, " took ")?;
    write_place(out, names, conn, seq)?;
    write!(out, " {word} ")?;
    write_message(out, names, message)?;
    out.push_str("\n")?;
    Ok(())
}

fn write_conflict(
    out: &mut String,
    names: &Names,
    me: NodeId,
    conn: &ConnId,
    seq: Seq,
    standing: Option<&SharedEnvelope>,
) -> Result<(), Fault>
    ensures added { OnOk result (string_bytes out.new ≡ string_bytes out.old ++ conflict_line names.now me conn.now seq (option_map (λ e. e.now) standing.entry)) }
    ensures only_memory { IsOkUnless result Fault.NoMemory }
{
    let Some(standing) = standing else {
        return Ok(());
    };
    write_front(out, names, me, " conflict ")?;
    write_place(out, names, conn, seq)?;
    out.push_str(" ")?;
    write_envelope(out, names, standing.get())?;
    out.push_str("\n")?;
    Ok(())
}

fn write_dropped(
    out: &mut String,
    names: &Names,
    me: NodeId,
    conn: &ConnId,
    seq: Seq,
    cause: DropCause,
) -> Result<(), Fault>
    ensures added { OnOk result (string_bytes out.new ≡ string_bytes out.old ++ dropped_line names.now me conn.now seq cause) }
    ensures only_memory { IsOkUnless result Fault.NoMemory }
{
    let word = word_of_drop(cause);
    write_front(out, names, me, " dropped ")?;
    write_place(out, names, conn, seq)?;
    writeln!(out, " {word}")?;
    Ok(())
}

fn write_closed(
    out: &mut String,
    names: &Names,
    me: NodeId,
    conn: &ConnId,
    cause: Cause,
) -> Result<(), Fault>
    ensures added { OnOk result (string_bytes out.new ≡ string_bytes out.old ++ closed_line names.now me conn.now cause) }
    ensures only_memory { IsOkUnless result Fault.NoMemory }
{
    let word = word_of_cause(cause);
    write_front(out, names, me, " closed ")?;
    write_conn(out, names, conn)?;
    writeln!(out, " {word}")?;
    Ok(())
}

fn write_entry(
    out: &mut String,
    names: &Names,
    me: NodeId,
    standing: Option<&SharedEnvelope>,
    entry: &Fate,
) -> Result<(), Fault>
    ensures added { OnOk result (string_bytes out.new ≡ string_bytes out.old ++ entry_lines names.now me (option_map (λ e. e.now) standing.entry) (Some entry.now)) }
    ensures only_memory { IsOkUnless result Fault.NoMemory }
{
    match entry {
        Fate::Taken {
            conn,
            seq,
            message,
            verdict,
            ..
        } => {
            write_took(out, names, me, conn, *seq, *verdict, message)?;
            write_conflict(out, names, me, conn, *seq, standing)
        }
        Fate::Dropped { conn, seq, cause } => { write_dropped(out, names, me, conn, *seq, *cause) }
        Fate::Closed { conn, cause } => write_closed(out, names, me, conn, *cause),
    }
}

/// Adds the lines of the journal entry at this index, if there is one.
fn write_entered(
    out: &mut String,
    names: &Names,
    me: NodeId,
    journal: &[Fate],
    place: usize,
    standing: Option<&SharedEnvelope>,
) -> Result<(), Fault>
    ensures added { OnOk result (string_bytes out.new ≡ string_bytes out.old ++ entry_lines names.now me (option_map (λ e. e.now) standing.entry) (slice_get journal.now place)) }
    ensures only_memory { IsOkUnless result Fault.NoMemory }
{
    match journal.get(place) {
        Some(entry) => write_entry(out, names, me, standing, entry),
        None => Ok(()),
    }
}

// ---- the slot stage and the applier

fn write_obeyed(
    out: &mut String,
    names: &Names,
    node: &Node,
    fate: CommandFate,
    command: &Command,
) -> Result<(), Fault>
    ensures added { OnOk result (string_bytes out.new ≡ string_bytes out.old ++ command_line names.now node.now.config fate command.now) }
    ensures only_memory { IsOkUnless result Fault.NoMemory }
{
    let word = word_of_verdict(verdict_of(fate));
    write_front(out, names, node.me(), " command ")?;
    write!(out, "{word} ")?;
    write_command(out, names, node, command)?;
    out.push_str("\n")?;
    Ok(())
}

fn write_says(
    out: &mut String,
    names: &Names,
    me: NodeId,
    envelope: &SharedEnvelope,
) -> Result<(), Fault>
    ensures added { OnOk result (string_bytes out.new ≡ string_bytes out.old ++ says_line names.now me envelope.now) }
    ensures only_memory { IsOkUnless result Fault.NoMemory }
{
    write_front(out, names, me, " says ")?;
    write_envelope(out, names, envelope.get())?;
    out.push_str("\n")?;
    Ok(())
}

fn write_by_machine(out: &mut String, names: &Names, n: u32, quorum: &Quorum) -> Result<(), Fault>
    ensures added { OnOk result (string_bytes out.new ≡ string_bytes out.old ++ machine_words names.now n quorum.now) }
    ensures only_memory { IsOkUnless result Fault.NoMemory }
{
    let nodes = quorum.nodes(*out.allocator())?;
    write!(out, "machine {n} ")?;
    write_nodes(out, names, nodes.as_slice())
}

fn write_by_record(out: &mut String, names: &Names, conn: &ConnId, seq: Seq) -> Result<(), Fault>
    ensures added { OnOk result (string_bytes out.new ≡ string_bytes out.old ++ record_words names.now conn.now seq) }
    ensures only_memory { IsOkUnless result Fault.NoMemory }
{
    out.push_str("record ")?;
    write_place(out, names, conn, seq)
}

/// Adds what a decision rests on.
fn write_origin(out: &mut String, names: &Names, origin: &Origin) -> Result<(), Fault>
    ensures added { OnOk result (string_bytes out.new ≡ string_bytes out.old ++ origin_words names.now origin.now) }
    ensures only_memory { IsOkUnless result Fault.NoMemory }
{
    match origin {
        Origin::Machine { n, quorum, .. } => write_by_machine(out, names, *n, quorum),
        Origin::Named { conn, seq } => write_by_record(out, names, conn, *seq),
    }
}

fn write_decision(
    out: &mut String,
    names: &Names,
    me: NodeId,
    decision: &Decision,
) -> Result<(), Fault>
    ensures added { OnOk result (string_bytes out.new ≡ string_bytes out.old ++ decided_line names.now me (Some decision.now)) }
    ensures only_memory { IsOkUnless result Fault.NoMemory }
{
    let slot = decision.slot.0;
    write_front(out, names, me, " decided ")?;
    write!(out, "{slot} ")?;
    decision.value.write(out)?;
    out.push_str(" ")?;
    write_origin(out, names, &decision.origin)?;
    out.push_str("\n")?;
    Ok(())
}

/// Adds the line of the decision at this index, if there is one.
fn write_decided(
    out: &mut String,
    names: &Names,
    me: NodeId,
    decisions: &[SharedDecision],
    place: usize,
) -> Result<(), Fault>
    ensures added { OnOk result (string_bytes out.new ≡ string_bytes out.old ++ decided_line names.now me (slice_get decisions.now place)) }
    ensures only_memory { IsOkUnless result Fault.NoMemory }
{
    match decisions.get(place) {
        Some(decision) => write_decision(out, names, me, decision.get()),
        None => Ok(()),
    }
}

fn write_application(
    out: &mut String,
    names: &Names,
    me: NodeId,
    decision: &Decision,
) -> Result<(), Fault>
    ensures added { OnOk result (string_bytes out.new ≡ string_bytes out.old ++ applied_line names.now me (Some decision.now)) }
    ensures only_memory { IsOkUnless result Fault.NoMemory }
{
    let slot = decision.slot.0;
    write_front(out, names, me, " applied ")?;
    writeln!(out, "{slot}")?;
    Ok(())
}

/// Adds the line that the decision at this index, if there is one, was applied.
fn write_applied(
    out: &mut String,
    names: &Names,
    me: NodeId,
    applied: &[SharedDecision],
    place: usize,
) -> Result<(), Fault>
    ensures added { OnOk result (string_bytes out.new ≡ string_bytes out.old ++ applied_line names.now me (slice_get applied.now place)) }
    ensures only_memory { IsOkUnless result Fault.NoMemory }
{
    match applied.get(place) {
        Some(decision) => write_application(out, names, me, decision.get()),
        None => Ok(()),
    }
}

fn write_answers(
    out: &mut String,
    names: &Names,
    me: NodeId,
    asker: NodeId,
    slot: Slot,
    is_there: bool,
) -> Result<(), Fault>
    ensures added { OnOk result (string_bytes out.new ≡ string_bytes out.old ++ answers_line names.now me asker slot is_there) }
    ensures only_memory { IsOkUnless result Fault.NoMemory }
{
    let word = word_of_answer(is_there);
    let slot = slot.0;
    write_front(out, names, me, " answers ")?;
    names.write_node(out, &asker)?;
    writeln!(out, " {word} {slot}")?;
    Ok(())
}

// ---- what was sent

/// The nodes at the other ends of these links.
fn peers_of(alloc: Global, node: &Node, links: &[u8]) -> Result<Vec<NodeId>, Fault>
    ensures nodes { IfOk result (λ nodes. nodes.items ≡ map (peer_at node.now.config) links.now) }
    ensures only_memory { IsOkUnless result Fault.NoMemory }
{
    let mut nodes = Vec::new(alloc);
    for link in links {
        nodes.push(peer_of(node, *link))?;
    }
    Ok(nodes)
}

/// Adds the line that the same bytes were sent to each of these nodes.
fn write_sent_to(
    out: &mut String,
    names: &Names,
    me: NodeId,
    nodes: &[NodeId],
    bytes: &[u8],
) -> Result<(), Fault>
    ensures added { OnOk result (string_bytes out.new ≡ string_bytes out.old ++ sent_line names.now me nodes.now bytes.now) }
    ensures only_memory { IsOkUnless result Fault.NoMemory }
{
    write_front(out, names, me, " sent ")?;
    write_nodes(out, names, nodes)?;
    out.push_str(" ")?;
    write_sent(out, names, bytes)?;
    out.push_str("\n")?;
    Ok(())
}

/// Adds the line that the same bytes were sent to the node at the other end of each of these links.
fn write_sent_over(
    out: &mut String,
    names: &Names,
    node: &Node,
    links: &[u8],
    bytes: &[u8],
) -> Result<(), Fault>
    ensures added { OnOk result (string_bytes out.new ≡ string_bytes out.old ++ sent_line names.now node.now.config.me (map (peer_at node.now.config) links.now) bytes.now) }
    ensures only_memory { IsOkUnless result Fault.NoMemory }
{
    let nodes = peers_of(*out.allocator(), node, links)?;
    write_sent_to(out, names, node.me(), nodes.as_slice(), bytes)
}

/// The link, followed by the others.
fn with_others(alloc: Global, link: u8, others: &[u8]) -> Result<Vec<u8>, Fault>
    ensures links { IfOk result (λ links. links.items ≡ link ∷ others.now) }
    ensures only_memory { IsOkUnless result Fault.NoMemory }
{
    let mut links = Vec::new(alloc);
    links.push(link)?;
    links.extend_from_slice(others)?;
    Ok(links)
}

/// Adds the line of what was sent on this link and on the others.
fn write_sent_line(
    out: &mut String,
    names: &Names,
    node: &Node,
    link: u8,
    others: &[u8],
    bytes: &[u8],
) -> Result<(), Fault>
    ensures added { OnOk result (string_bytes out.new ≡ string_bytes out.old ++ sent_line names.now node.now.config.me (map (peer_at node.now.config) (link ∷ others.now)) bytes.now) }
    ensures only_memory { IsOkUnless result Fault.NoMemory }
{
    let links = with_others(*out.allocator(), link, others)?;
    write_sent_over(out, names, node, links.as_slice(), bytes)
}

// ---- a fact

/// The place of a fact: this line, and this node.
#[derive(Clone, Copy)]
pub struct Place<'a> {
    pub names: &'a Names,
    pub line: usize,
    pub node: &'a Node,
}

/// Adds the lines of a fact. `others` are the links on which the same was sent right after.
pub fn write_fact(
    out: &mut String,
    place: Place<'_>,
    others: &[u8],
    fact: &Fact,
) -> Result<(), Fault>
    ensures added { OnOk result (string_bytes out.new ≡ string_bytes out.old ++ fact_line place.entry.names.now place.entry.line place.entry.node.now others.now fact.now) }
    ensures only_memory { IsOkUnless result Fault.NoMemory }
{
    let Place { names, line, node } = place;
    let me = node.me();
    match fact {
        Fact::Full => write_full(out, line),
        Fact::Came(..) | Fact::Given(_) => Ok(()),
        Fact::Discarded(conn) => write_discarded(out, names, me, conn),
        Fact::Opened(conn) => write_opened(out, names, me, conn),
        Fact::Parked {
            conn,
            seq,
            why,
            message,
        } => write_parked(out, names, me, conn, *seq, *why, message),
        Fact::Heard {
            conn,
            became,
            message,
        } => write_heard(out, names, me, conn, *became, message),
        Fact::Ticked => write_tick(out, names, me),
        Fact::Missed { hash, misses } => write_missed(out, names, me, hash, *misses),
        Fact::Entered { entry, standing } => {
            let standing = standing.as_ref();
            write_entered(out, names, me, node.journal(), *entry, standing)
        }
        Fact::Obeyed(fate, command) => write_obeyed(out, names, node, *fate, command),
        Fact::Says(envelope) => write_says(out, names, me, envelope),
        Fact::Decided(at) => write_decided(out, names, me, node.decisions(), *at),
        Fact::Applied(at) => write_applied(out, names, me, node.applied(), *at),
        Fact::Answers {
            link,
            slot,
            is_there,
        } => write_answers(out, names, me, peer_of(node, *link), *slot, *is_there),
        Fact::Sent(link, bytes) => {
            write_sent_line(out, names, node, *link, others, bytes.as_slice())
        }
    }
}
