//! The lines that report an episode.
ghost use Rattle.std.specs.Prelude.{◌≡◌, ◌++◌, OnOk, length, drop, map, flat_map, string_bytes};
ghost use Rattle.sha2.specs.Sha256.{sha256};
ghost use Rattle.scp_live_lines.specs.Names.{name_at};
ghost use Rattle.scp_live_lines.specs.Fates.{fate_line};
ghost use Rattle.scp_live_lines.specs.Decisions.{decided_line, applied_line};
ghost use Rattle.scp_live.specs.Live.{sent_line, is_told, has_fate, fate_at, ignored, outcome, new_fates, new_decisions, newly_applied};

use scp_again::below::node::{Event, Fate, Node, Reply, SharedDecision};
use scp_again::below::types::{Hash, NodeId};
use scp_live_lines::{
    write_applied, write_decided, write_fate, write_ignored, write_refused, write_send,
};
use scp_turn::{Command, CommandFate, Sending};
use sha2::{Digest, Sha256};
use std::alloc::AllocError;

/// What comes after the first `count` elements.
pub fn behind<T>(all: &[T], count: usize) -> &[T]
    ensures { result.now ≡ drop count all.now }
{
    if count <= all.len() {
        &all[count..]
    } else {
        &[]
    }
}

/// The name of the peer of a link, or a dash if there is none.
pub fn name_of<'a>(names: &'a [String], link: u8) -> &'a str
    ensures { result.now ≡ name_at (map string_bytes names.now) link }
{
    match names.get(link as usize) {
        Some(name) => name.as_str(),
        None => "-",
    }
}

/// Whether the slot stage says what becomes of the command.
fn is_told(command: &Command) -> bool
    ensures { result ≡ is_told command.now }
{
    match command {
        Command::Tick => false,
        _ => true,
    }
}

/// Whether the event is a command of which the slot stage says what becomes.
fn has_fate(event: &Event) -> bool
    ensures { result ≡ has_fate event.now }
{
    match event {
        Event::Local(command) => is_told(command),
        _ => false,
    }
}

/// What became of an event's command, as the node shows it.
pub fn fate_at(node: &Node, is_command: bool) -> Option<CommandFate>
    ensures { result ≡ fate_at node.now is_command }
{
    if is_command {
        node.last_command()
    } else {
        None
    }
}

/// Reports why a command changed nothing, if so.
fn tell_ignored(text: &mut String, fate: Option<CommandFate>) -> Result<(), AllocError>
    ensures { OnOk result (string_bytes text.new ≡ string_bytes text.old ++ ignored fate) }
{
    match fate {
        Some(fate) => write_ignored(text, fate),
        None => Ok(()),
    }
}

/// Reports why an event was refused, or why its command changed nothing.
pub fn tell_outcome(
    text: &mut String,
    reply: &Reply,
    fate: Option<CommandFate>,
) -> Result<(), AllocError>
    ensures { OnOk result (string_bytes text.new ≡ string_bytes text.old ++ outcome reply.now fate) }
{
    match reply {
        Reply::Accepted => tell_ignored(text, fate),
        other => write_refused(text, other),
    }
}

/// Reports what was sent.
pub fn tell_sent(text: &mut String, names: &[String], sent: &[Sending]) -> Result<(), AllocError>
    ensures { OnOk result (string_bytes text.new ≡ string_bytes text.old ++ flat_map (sent_line (map string_bytes names.now)) sent.now) }
{
    for sending in sent {
        tell_one_sent(text, names, sending)?;
    }
    Ok(())
}

/// Reports that one message was sent.
fn tell_one_sent(text: &mut String, names: &[String], sending: &Sending) -> Result<(), AllocError>
    ensures { OnOk result (string_bytes text.new ≡ string_bytes text.old ++ sent_line (map string_bytes names.now) sending.now) }
{
    write_send(text, name_of(names, sending.link), sending.bytes.as_slice())
}

/// Reports these fates.
pub fn tell_fates(
    text: &mut String,
    names: &[String],
    peers: &[NodeId],
    fates: &[Fate],
) -> Result<(), AllocError>
    ensures { OnOk result (string_bytes text.new ≡ string_bytes text.old ++ flat_map (fate_line (map string_bytes names.now) peers.now) fates.now) }
{
    for fate in fates {
        write_fate(text, names, peers, fate)?;
    }
    Ok(())
}

/// Reports these decisions.
fn tell_decided(
    text: &mut String,
    names: &[String],
    peers: &[NodeId],
    decisions: &[SharedDecision],
) -> Result<(), AllocError>
    ensures { OnOk result (string_bytes text.new ≡ string_bytes text.old ++ flat_map (decided_line (map string_bytes names.now) peers.now) decisions.now) }
{
    for decision in decisions {
        write_decided(text, names, peers, decision.get())?;
    }
    Ok(())
}

/// Reports that these decisions are applied.
pub fn tell_applied(text: &mut String, applied: &[SharedDecision]) -> Result<(), AllocError>
    ensures { OnOk result (string_bytes text.new ≡ string_bytes text.old ++ flat_map applied_line applied.now) }
{
    for decision in applied {
        write_applied(text, decision.get())?;
    }
    Ok(())
}

/// How many fates, decisions and applied slots there are before an event, and whether it is a command with a fate.
#[derive(Clone, Copy)]
pub struct Marks {
    pub fates: usize,
    pub decisions: usize,
    pub applied: usize,
    pub is_command: bool,
}

impl Marks {
    /// The counts of a node before this event.
    pub fn of(node: &Node, event: &Event) -> Marks
        ensures fates { result.fates ≡ length node.now.ledger.journal }
        ensures decisions { result.decisions ≡ length node.now.ledger.decisions }
        ensures applied { result.applied ≡ length node.now.applier.applied }
        ensures command { result.is_command ≡ has_fate event.now }
    {
        Marks {
            fates: node.journal().len(),
            decisions: node.decisions().len(),
            applied: node.applied().len(),
            is_command: has_fate(event),
        }
    }
}

/// Reports what is new at a node since these marks: fates, decisions, applied slots.
pub fn tell_new(
    text: &mut String,
    names: &[String],
    node: &Node,
    marks: Marks,
) -> Result<(), AllocError>
    ensures { OnOk result (string_bytes text.new ≡ string_bytes text.old ++ new_fates (map string_bytes names.now) marks.fates node.now ++ new_decisions (map string_bytes names.now) marks.decisions node.now ++ newly_applied marks.applied node.now) }
{
    let peers = node.peers();
    tell_fates(text, names, peers, behind(node.journal(), marks.fates))?;
    tell_decided(
        text,
        names,
        peers,
        behind(node.decisions(), marks.decisions),
    )?;
    tell_applied(text, behind(node.applied(), marks.applied))
}

/// The digest of the text from this index on.
pub fn digest_from(text: &String, start: usize) -> Hash
    ensures { result.0 ≡ sha256 (drop start (string_bytes text.now)) }
{
    Hash(Sha256::digest(behind(text.as_bytes(), start)))
}
