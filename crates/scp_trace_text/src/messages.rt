//! Connections and messages as text.
ghost use Rattle.std.specs.Prelude.{◌≡◌, ◌++◌, OnOk, IsOkUnless, string_bytes};
ghost use Rattle.scp_words.specs.scp_wire.specs.Reading.{reading_of};
ghost use Rattle.scp_stand_slot.specs.Names.{statement_text};
ghost use Rattle.scp_trace_text.specs.Messages.{conn_text, place_text, get_set_text, set_message_text, no_set_text, get_record_text, record_text, records_text, message_named, side_named, kind_text, sent_message_text, sent_text};

use crate::words::word_of_kind;
use scp_stand_slot::below::text::Term;
use scp_stand_slot::{Names, write_set, write_statement, write_values};
use scp_words::below::envelope::{Envelope, ValueList};
use scp_words::below::quorum::QuorumSet;
use scp_words::below::types::{ConnId, Fault, Hash, Seq, Slot, Value};
use scp_words::below::wire::{Message, SideMessage, decode};
use scp_words::write_hex;

/// Adds a connection.
pub(crate) fn write_conn(out: &mut String, names: &Names, conn: &ConnId) -> Result<(), Fault>
    ensures added { OnOk result (string_bytes out.new ≡ string_bytes out.old ++ conn_text names.now conn.now) }
    ensures only_memory { IsOkUnless result Fault.NoMemory }
{
    let life = conn.life;
    names.write_node(out, &conn.from)?;
    write!(out, " {life}")?;
    Ok(())
}

/// Adds a message's connection, and its number there.
pub(crate) fn write_place(
    out: &mut String,
    names: &Names,
    conn: &ConnId,
    seq: Seq,
) -> Result<(), Fault>
    ensures added { OnOk result (string_bytes out.new ≡ string_bytes out.old ++ place_text names.now conn.now seq) }
    ensures only_memory { IsOkUnless result Fault.NoMemory }
{
    let number = seq.0;
    write_conn(out, names, conn)?;
    write!(out, " {number}")?;
    Ok(())
}

fn write_get_set(out: &mut String, names: &Names, hash: &Hash) -> Result<(), Fault>
    ensures added { OnOk result (string_bytes out.new ≡ string_bytes out.old ++ get_set_text names.now hash.now) }
    ensures only_memory { IsOkUnless result Fault.NoMemory }
{
    out.push_str("getset ")?;
    names.write_hash(out, hash)
}

fn write_set_message(out: &mut String, names: &Names, set: &QuorumSet) -> Result<(), Fault>
    ensures added { OnOk result (string_bytes out.new ≡ string_bytes out.old ++ set_message_text names.now set.now) }
    ensures only_memory { IsOkUnless result Fault.NoMemory }
{
    out.push_str("set ")?;
    write_set(out, names, set)
}

fn write_no_set(out: &mut String, names: &Names, hash: &Hash) -> Result<(), Fault>
    ensures added { OnOk result (string_bytes out.new ≡ string_bytes out.old ++ no_set_text names.now hash.now) }
    ensures only_memory { IsOkUnless result Fault.NoMemory }
{
    out.push_str("noset ")?;
    names.write_hash(out, hash)
}

fn write_get_record(out: &mut String, slot: Slot) -> Result<(), Fault>
    ensures added { OnOk result (string_bytes out.new ≡ string_bytes out.old ++ get_record_text slot) }
    ensures only_memory { IsOkUnless result Fault.NoMemory }
{
    let number = slot.0;
    write!(out, "getrecord {number}")?;
    Ok(())
}

fn write_record(out: &mut String, slot: Slot, value: &Value) -> Result<(), Fault>
    ensures added { OnOk result (string_bytes out.new ≡ string_bytes out.old ++ record_text slot value.now) }
    ensures only_memory { IsOkUnless result Fault.NoMemory }
{
    let number = slot.0;
    write!(out, "record {number} ")?;
    value.write(out)
}

fn write_records(out: &mut String, first: Slot, values: &ValueList) -> Result<(), Fault>
    ensures added { OnOk result (string_bytes out.new ≡ string_bytes out.old ++ records_text first values.now) }
    ensures only_memory { IsOkUnless result Fault.NoMemory }
{
    let number = first.0;
    write!(out, "records {number}")?;
    write_values(out, " values(", values.as_slice())
}

/// Adds a statement with its signature, and its node and the hash of its set shown by their names.
pub(crate) fn write_envelope(
    out: &mut String,
    names: &Names,
    envelope: &Envelope,
) -> Result<(), Fault>
    ensures added { OnOk result (string_bytes out.new ≡ string_bytes out.old ++ statement_text names.now envelope.now) }
    ensures only_memory { IsOkUnless result Fault.NoMemory }
{
    let statement = &envelope.statement;
    write_statement(out, names, statement.node, statement.slot.0, envelope)
}

/// Adds a message, with the nodes and hashes in it shown by their names.
pub fn write_message(out: &mut String, names: &Names, message: &Message) -> Result<(), Fault>
    ensures added { OnOk result (string_bytes out.new ≡ string_bytes out.old ++ message_named names.now message.now) }
    ensures only_memory { IsOkUnless result Fault.NoMemory }
{
    match message {
        Message::Envelope(envelope) => write_envelope(out, names, envelope.get()),
        Message::GetSet(hash) => write_get_set(out, names, hash),
        Message::Set(set) => write_set_message(out, names, set),
        Message::NoSet(hash) => write_no_set(out, names, hash),
        Message::GetRecord(slot) => write_get_record(out, *slot),
        Message::Record(slot, value) => write_record(out, *slot, value),
        Message::Records { first, values } => write_records(out, *first, values),
    }
}

/// Adds a message without a number.
pub(crate) fn write_side(
    out: &mut String,
    names: &Names,
    message: &SideMessage,
) -> Result<(), Fault>
    ensures added { OnOk result (string_bytes out.new ≡ string_bytes out.old ++ side_named names.now message.now) }
    ensures only_memory { IsOkUnless result Fault.NoMemory }
{
    match message {
        SideMessage::GetSet(hash) => write_get_set(out, names, hash),
        SideMessage::Set(set) => write_set_message(out, names, set),
        SideMessage::NoSet(hash) => write_no_set(out, names, hash),
    }
}

/// Adds the kind of a statement, and its slot.
fn write_kind(out: &mut String, envelope: &Envelope) -> Result<(), Fault>
    ensures added { OnOk result (string_bytes out.new ≡ string_bytes out.old ++ kind_text envelope.now) }
    ensures only_memory { IsOkUnless result Fault.NoMemory }
{
    let kind = word_of_kind(&envelope.statement.pledges);
    let slot = envelope.statement.slot.0;
    write!(out, "{kind} {slot}")?;
    Ok(())
}

/// Adds a message that was sent.
fn write_sent_message(out: &mut String, names: &Names, message: &Message) -> Result<(), Fault>
    ensures added { OnOk result (string_bytes out.new ≡ string_bytes out.old ++ sent_message_text names.now message.now) }
    ensures only_memory { IsOkUnless result Fault.NoMemory }
{
    match message {
        Message::Envelope(envelope) => write_kind(out, envelope.get()),
        _ => write_message(out, names, message),
    }
}

/// Adds what was sent.
pub(crate) fn write_sent(out: &mut String, names: &Names, bytes: &[u8]) -> Result<(), Fault>
    ensures added { OnOk result (string_bytes out.new ≡ string_bytes out.old ++ sent_text names.now bytes.now (reading_of bytes.now)) }
    ensures only_memory { IsOkUnless result Fault.NoMemory }
{
    match decode(*out.allocator(), bytes) {
        Ok(message) => write_sent_message(out, names, &message),
        Err(Fault::NoMemory) => Err(Fault::NoMemory),
        Err(_) => {
            write_hex(out, bytes)?;
            Ok(())
        }
    }
}
