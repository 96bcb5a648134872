//! The lines of a script as text.
ghost use Rattle.std.specs.Prelude.{◌≡◌, ◌++◌, OnOk, IsOkUnless, codes, string_bytes};
ghost use Rattle.scp_line.specs.scp_text.specs.Sets.{set_text};
ghost use Rattle.scp_line.specs.scp_text.specs.Values.{value_text};
ghost use Rattle.scp_line.specs.scp_wire.specs.Message.{message_reading};
ghost use Rattle.scp_trace_text.specs.Commands.{with_one};
ghost use Rattle.scp_trace_text.specs.Messages.{message_named};
ghost use Rattle.scp_trace.specs.Lines.{with_two, with_three, caps_words, send_words, line_words, line_text};
ghost use Rattle.scp_trace.specs.Traced.{line_part};

use crate::depth::Depth;
use scp_line::below::quorum::QuorumSet;
use scp_line::below::script::Command;
use scp_line::below::text::Term;
use scp_line::below::types::{Capacities, Fault, Value};
use scp_line::below::wire::{Message, decode};
use scp_stand_node::below::stand_slot::Names;
use scp_trace_text::{write_message, write_one};

/// Adds a word with two numbers after it.
fn write_two(out: &mut String, word: &str, a: u64, b: u64) -> Result<(), Fault>
    ensures added { OnOk result (string_bytes out.new ≡ string_bytes out.old ++ with_two word.now a b) }
    ensures only_memory { IsOkUnless result Fault.NoMemory }
{
    write!(out, "{word} {a} {b}")?;
    Ok(())
}

/// Adds a word with three numbers after it.
fn write_three(out: &mut String, word: &str, a: u64, b: u64, c: u64) -> Result<(), Fault>
    ensures added { OnOk result (string_bytes out.new ≡ string_bytes out.old ++ with_three word.now a b c) }
    ensures only_memory { IsOkUnless result Fault.NoMemory }
{
    write!(out, "{word} {a} {b} {c}")?;
    Ok(())
}

/// Adds the capacities of queues.
fn write_caps(out: &mut String, caps: &Capacities) -> Result<(), Fault>
    ensures added { OnOk result (string_bytes out.new ≡ string_bytes out.old ++ caps_words caps.now) }
    ensures only_memory { IsOkUnless result Fault.NoMemory }
{
    let link = caps.link;
    let inbox = caps.inbox;
    let ready = caps.ready;
    let decided = caps.decided;
    write!(out, "caps {link} {inbox} {ready} {decided}")?;
    Ok(())
}

/// Adds the words of a `set` line.
fn write_set(out: &mut String, node: u8, set: &QuorumSet) -> Result<(), Fault>
    ensures added { OnOk result (string_bytes out.new ≡ string_bytes out.old ++ (with_one (codes "set") node ++ codes " " ++ set_text set.now)) }
    ensures only_memory { IsOkUnless result Fault.NoMemory }
{
    write_one(out, "set", u64::from(node))?;
    out.push_str(" ")?;
    set.write(out)
}

/// Adds the words of a `propose` line.
fn write_proposal(out: &mut String, node: u8, slot: u64, value: &Value) -> Result<(), Fault>
    ensures added { OnOk result (string_bytes out.new ≡ string_bytes out.old ++ (with_two (codes "propose") node slot ++ codes " " ++ value_text value.now)) }
    ensures only_memory { IsOkUnless result Fault.NoMemory }
{
    write_two(out, "propose", u64::from(node), slot)?;
    out.push_str(" ")?;
    value.write(out)
}

/// Adds the words of a `send` line with its message.
fn write_sending(
    out: &mut String,
    names: &Names,
    from: u8,
    to: u8,
    message: &Message,
) -> Result<(), Fault>
    ensures added { OnOk result (string_bytes out.new ≡ string_bytes out.old ++ (with_two (codes "send") from to ++ codes " " ++ message_named names.now message.now)) }
    ensures only_memory { IsOkUnless result Fault.NoMemory }
{
    write_two(out, "send", u64::from(from), u64::from(to))?;
    out.push_str(" ")?;
    write_message(out, names, message)
}

/// Adds the words of a `send` line: its message, or why its bytes aren't one.
fn write_send(out: &mut String, names: &Names, from: u8, to: u8, bytes: &[u8]) -> Result<(), Fault>
    ensures added { OnOk result (string_bytes out.new ≡ string_bytes out.old ++ send_words names.now from to (message_reading bytes.now)) }
    ensures only_memory { IsOkUnless result Fault.NoMemory }
{
    match decode(*out.allocator(), bytes) {
        Ok(message) => write_sending(out, names, from, to, &message),
        Err(Fault::Malformed(place)) => {
            write!(out, "malformed at {place}")?;
            Ok(())
        }
        Err(Fault::TooLong) => {
            out.push_str("too-long")?;
            Ok(())
        }
        Err(fault) => Err(fault),
    }
}

/// Adds the word of a `settle` line.
fn write_settle(out: &mut String) -> Result<(), Fault>
    ensures added { OnOk result (string_bytes out.new ≡ string_bytes out.old ++ codes "settle") }
    ensures only_memory { IsOkUnless result Fault.NoMemory }
{
    out.push_str("settle")?;
    Ok(())
}

/// Adds what a line says.
fn write_words(out: &mut String, names: &Names, command: &Command) -> Result<(), Fault>
    ensures added { OnOk result (string_bytes out.new ≡ string_bytes out.old ++ line_words names.now command.now) }
    ensures only_memory { IsOkUnless result Fault.NoMemory }
{
    match command {
        Command::Caps(caps) => write_caps(out, caps),
        Command::Nodes { count, quorum } => {
            write_two(out, "nodes", u64::from(*count), u64::from(*quorum))
        }
        Command::Set { node, set } => write_set(out, *node, set),
        Command::Open { from, to } => write_two(out, "open", u64::from(*from), u64::from(*to)),
        Command::Close { from, to } => write_two(out, "close", u64::from(*from), u64::from(*to)),
        Command::Send { from, to, bytes } => {
            write_send(out, names, *from, *to, bytes.as_slice())
        }
        Command::Propose { node, slot, value } => write_proposal(out, *node, *slot, value),
        Command::Round { node, slot } => write_two(out, "round", u64::from(*node), *slot),
        Command::Timer { node, slot } => write_two(out, "timer", u64::from(*node), *slot),
        Command::Tick(node) => write_one(out, "tick", u64::from(*node)),
        Command::Ask { from, to, slot } => {
            write_three(out, "ask", u64::from(*from), u64::from(*to), *slot)
        }
        Command::Settle => write_settle(out),
        Command::Wait { node, things } => write_two(out, "wait", u64::from(*node), *things),
        Command::Report(node) => write_one(out, "report", u64::from(*node)),
    }
}

/// Adds the line which shows that the line of this number is done next.
fn write_line(out: &mut String, names: &Names, line: usize, command: &Command) -> Result<(), Fault>
    ensures added { OnOk result (string_bytes out.new ≡ string_bytes out.old ++ line_text names.now line command.now) }
    ensures only_memory { IsOkUnless result Fault.NoMemory }
{
    write!(out, "line {line} ")?;
    write_words(out, names, command)?;
    out.push_str("\n")?;
    Ok(())
}

/// Adds what is shown of the line itself, at the depth that is asked for.
pub(crate) fn write_begin(
    out: &mut String,
    depth: Depth,
    names: &Names,
    line: usize,
    command: &Command,
) -> Result<(), Fault>
    ensures added { OnOk result (string_bytes out.new ≡ string_bytes out.old ++ line_part depth names.now line command.now) }
    ensures only_memory { IsOkUnless result Fault.NoMemory }
{
    match (depth, command) {
        (Depth::Whole, _) | (Depth::Stands, Command::Report(_)) => {
            write_line(out, names, line, command)
        }
        (Depth::Stands, _) => Ok(()),
    }
}
