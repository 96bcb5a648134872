//! A node's links, its queues, and what it didn't send.
ghost use Rattle.std.specs.Prelude.{◌≡◌, ◌++◌, true, false, OnOk, IsOkUnless, string_bytes, if◌then◌else◌};
ghost use Rattle.std.specs.List.{list_any};
ghost use Rattle.scp_turn.specs.scp_core.specs.History.{peer_at};
ghost use Rattle.scp_turn.specs.Turn.{links_of};
ghost use Rattle.scp_stand_slot.specs.scp_script.specs.Script.{opens, closes, is_open};
ghost use Rattle.scp_stand_node.specs.Links.{of_links, cause_word, cause_by, ended_by, never_line, closed_text, link_text, queue_text, link_queue_line, queued_on, queues_text, number_in, script_of, sends, why_unsent, unsent_line, unsent_text};

use crate::others::{conn_of, links, peer_of, write_me, write_peer};
use crate::stand::Lines;
use scp_stand_slot::Names;
use scp_stand_slot::below::script::Command;
use scp_turn::below::node::{Cause, Fate, Node};
use scp_turn::below::types::{ConnId, Fault, NodeId};

fn word_of_cause(cause: Cause) -> &'static str
    ensures { result.now ≡ cause_word cause }
{
    match cause {
        Cause::Malformed => "malformed",
        Cause::Link => "link",
        Cause::Spent => "spent",
        Cause::ParkedFull => "parked-full",
    }
}

/// Why the connection ended, if this entry says so.
fn cause_in(fate: &Fate, conn: &ConnId) -> Option<Cause>
    ensures { result ≡ cause_by conn.now fate.now }
{
    match fate {
        Fate::Closed { conn: of, cause } if *of == *conn => Some(*cause),
        _ => None,
    }
}

/// Why the connection ended, if it did.
fn end_of(journal: &[Fate], conn: &ConnId) -> Option<Cause>
    ensures { result ≡ ended_by conn.now journal.now }
{
    for fate in journal {
        if let Some(cause) = cause_in(fate, conn) {
            return Some(cause);
        }
    }
    None
}

/// Adds the line of a connection that ended.
fn write_closed(
    out: &mut String,
    names: &Names,
    node: &Node,
    link: u8,
    life: u32,
    end: Option<Cause>,
) -> Result<(), Fault>
    ensures added { OnOk result (string_bytes out.new ≡ string_bytes out.old ++ closed_text names.now node.now.config.me (peer_at node.now.config link) life end) }
    ensures only_memory { IsOkUnless result Fault.NoMemory }
{
    if let Some(cause) = end {
        let word = word_of_cause(cause);
        write_me(out, names, node)?;
        out.push_str(" from ")?;
        write_peer(out, names, node, link)?;
        writeln!(out, " closed {life} {word}")?;
    }
    Ok(())
}

/// Adds the line of a link that was never open.
fn write_never(out: &mut String, names: &Names, node: &Node, link: u8) -> Result<(), Fault>
    ensures added { OnOk result (string_bytes out.new ≡ string_bytes out.old ++ never_line names.now node.now.config.me (peer_at node.now.config link)) }
    ensures only_memory { IsOkUnless result Fault.NoMemory }
{
    write_me(out, names, node)?;
    out.push_str(" from ")?;
    write_peer(out, names, node, link)?;
    out.push_str(" never\n")?;
    Ok(())
}

/// Adds the line of a link that was never open, or whose last connection has ended.
fn write_link(out: &mut String, names: &Names, node: &Node, link: u8) -> Result<(), Fault>
    ensures added { OnOk result (string_bytes out.new ≡ string_bytes out.old ++ link_text names.now node.now link) }
    ensures only_memory { IsOkUnless result Fault.NoMemory }
{
    let life = node.lives(link);
    if life == 0 {
        write_never(out, names, node, link)?;
        return Ok(());
    }
    let end = end_of(node.journal(), &conn_of(node, link, life));
    write_closed(out, names, node, link, life, end)?;
    Ok(())
}

/// Adds the links that were never open, or whose last connection has ended.
pub fn write_links(out: &mut String, names: &Names, node: &Node) -> Result<(), Fault>
    ensures added { OnOk result (string_bytes out.new ≡ string_bytes out.old ++ of_links (link_text names.now node.now) (links_of node.now)) }
    ensures only_memory { IsOkUnless result Fault.NoMemory }
{
    for link in 0..links(node) {
        write_link(out, names, node, link)?;
    }
    Ok(())
}

/// Adds the line of how much waits in a queue, if anything does.
fn write_queue(
    out: &mut String,
    names: &Names,
    node: &Node,
    word: &str,
    count: usize,
) -> Result<(), Fault>
    ensures added { OnOk result (string_bytes out.new ≡ string_bytes out.old ++ queue_text names.now node.now.config.me word.now count) }
    ensures only_memory { IsOkUnless result Fault.NoMemory }
{
    if count > 0 {
        write_me(out, names, node)?;
        writeln!(out, " queued {word} {count}")?;
    }
    Ok(())
}

/// Adds the line of how much waits in the queue of a link.
fn write_on_link(
    out: &mut String,
    names: &Names,
    node: &Node,
    link: u8,
    count: usize,
) -> Result<(), Fault>
    ensures added { OnOk result (string_bytes out.new ≡ string_bytes out.old ++ link_queue_line names.now node.now.config.me (peer_at node.now.config link) count) }
    ensures only_memory { IsOkUnless result Fault.NoMemory }
{
    write_me(out, names, node)?;
    out.push_str(" queued link ")?;
    write_peer(out, names, node, link)?;
    writeln!(out, " {count}")?;
    Ok(())
}

/// The same, if anything waits there.
fn write_link_queue(out: &mut String, names: &Names, node: &Node, link: u8) -> Result<(), Fault>
    ensures added { OnOk result (string_bytes out.new ≡ string_bytes out.old ++ queued_on names.now node.now link) }
    ensures only_memory { IsOkUnless result Fault.NoMemory }
{
    let count = node.queued_on(link);
    if count > 0 {
        write_on_link(out, names, node, link, count)?;
    }
    Ok(())
}

/// Adds the lines of what is in the queues of links.
fn write_link_queues(out: &mut String, names: &Names, node: &Node) -> Result<(), Fault>
    ensures added { OnOk result (string_bytes out.new ≡ string_bytes out.old ++ of_links (queued_on names.now node.now) (links_of node.now)) }
    ensures only_memory { IsOkUnless result Fault.NoMemory }
{
    for link in 0..links(node) {
        write_link_queue(out, names, node, link)?;
    }
    Ok(())
}

/// Adds the lines of what no settle moved.
pub fn write_queues(out: &mut String, names: &Names, node: &Node) -> Result<(), Fault>
    ensures added { OnOk result (string_bytes out.new ≡ string_bytes out.old ++ queues_text names.now node.now) }
    ensures only_memory { IsOkUnless result Fault.NoMemory }
{
    write_link_queues(out, names, node)?;
    let (inbox, ready, decided) = node.queued();
    write_queue(out, names, node, "inbox", inbox)?;
    write_queue(out, names, node, "ready", ready)?;
    write_queue(out, names, node, "decided", decided)?;
    Ok(())
}

/// The number that a script has for the node with this id.
pub fn number_of(id: NodeId) -> u8
    ensures { result ≡ number_in id }
{
    id.0[0]
}

/// Whether the command sends on the link.
fn sends_on(command: &Command, from: u8, to: u8) -> bool
    ensures { result ≡ sends from to command.now }
{
    match command {
        Command::Send {
            from: at,
            to: other,
            ..
        } => from == *at && to == *other,
        _ => false,
    }
}

/// Whether the script sends on the link.
fn is_driven(commands: &[Command], from: u8, to: u8) -> bool
    ensures { result ≡ list_any (sends from to) commands.now }
{
    for command in commands {
        if sends_on(command, from, to) {
            return true;
        }
    }
    false
}

/// Whether the link is open after a command.
fn is_open_behind(command: &Command, from: u8, to: u8, before: bool) -> bool
    ensures { result ≡ (if opens from to command.now then true else (if closes from to command.now then false else before)) }
{
    match command {
        Command::Open {
            from: at,
            to: other,
        } if from == *at && to == *other => true,
        Command::Close {
            from: at,
            to: other,
        } if from == *at && to == *other => false,
        _ => before,
    }
}

/// Whether the link is open after these commands.
fn is_open_by(commands: &[Command], from: u8, to: u8) -> bool
    ensures { result ≡ is_open from to commands.now }
{
    let mut open = false;
    for command in commands {
        open = is_open_behind(command, from, to, open);
    }
    open
}

/// Why a message for another node isn't sent.
fn word_of_unsent(lines: Option<Lines<'_>>, from: u8, to: u8) -> &'static str
    ensures { result.now ≡ why_unsent (script_of lines.entry) from to }
{
    let Some(lines) = lines else {
        return "shut";
    };
    if is_driven(lines.all, from, to) {
        return "driven";
    }
    if is_open_by(lines.played, from, to) {
        return "open";
    }
    "shut"
}

/// Adds the line of what wasn't sent.
fn write_waiting(
    out: &mut String,
    names: &Names,
    node: &Node,
    link: u8,
    count: usize,
    why: &str,
) -> Result<(), Fault>
    ensures added { OnOk result (string_bytes out.new ≡ string_bytes out.old ++ unsent_line names.now node.now.config.me (peer_at node.now.config link) count why.now) }
    ensures only_memory { IsOkUnless result Fault.NoMemory }
{
    write_me(out, names, node)?;
    out.push_str(" unsent ")?;
    write_peer(out, names, node, link)?;
    writeln!(out, " {count} {why}")?;
    Ok(())
}

/// Adds the line of what wasn't sent to a node.
fn write_unsent_to(
    out: &mut String,
    names: &Names,
    lines: Option<Lines<'_>>,
    node: &Node,
    link: u8,
) -> Result<(), Fault>
    ensures added { OnOk result (string_bytes out.new ≡ string_bytes out.old ++ unsent_text names.now (script_of lines.entry) node.now link) }
    ensures only_memory { IsOkUnless result Fault.NoMemory }
{
    let count = node.waiting(link);
    if count == 0 {
        return Ok(());
    }
    let why = word_of_unsent(lines, number_of(node.me()), number_of(peer_of(node, link)));
    write_waiting(out, names, node, link, count, why)?;
    Ok(())
}

/// Adds the lines of what wasn't sent.
pub fn write_unsent(
    out: &mut String,
    names: &Names,
    lines: Option<Lines<'_>>,
    node: &Node,
) -> Result<(), Fault>
    ensures added { OnOk result (string_bytes out.new ≡ string_bytes out.old ++ of_links (unsent_text names.now (script_of lines.entry) node.now) (links_of node.now)) }
    ensures only_memory { IsOkUnless result Fault.NoMemory }
{
    for link in 0..links(node) {
        write_unsent_to(out, names, lines, node, link)?;
    }
    Ok(())
}
