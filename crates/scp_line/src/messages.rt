//! The line that shows a message.
ghost use Rattle.std.specs.Prelude.{◌≡◌, ◌++◌, IfOk, OnOk, IsOkUnless, string_bytes, codes, flat_map};
ghost use Rattle.scp_turn.specs.scp_wire.specs.Message.{message_kind, message_value};
ghost use Rattle.scp_turn.specs.scp_xdr.specs.Kind.{Fits};
ghost use Rattle.scp_report.specs.scp_words.specs.Words.{hex_word};
ghost use Rattle.scp_line.specs.Play.{message_line, pledges_word, statement_words, value_word};

use scp_report::below::words::write_hex;
use scp_turn::below::envelope::{Pledges, Statement, ValueList};
use scp_turn::below::types::{Fault, Hash, Slot, Value};
use scp_turn::below::wire::Message;
use std::alloc::{AllocError, Global};

fn word_of_pledges(pledges: &Pledges) -> &'static str
    ensures { result.now ≡ pledges_word pledges.now }
{
    match pledges {
        Pledges::Prepare(_) => "prepare",
        Pledges::Confirm(_) => "confirm",
        Pledges::Externalize(_) => "externalize",
        Pledges::Nominate(_) => "nominate",
    }
}

/// The line of an envelope.
fn statement_line(alloc: Global, statement: &Statement) -> Result<String, AllocError>
    ensures { IfOk result (λ text. string_bytes text ≡ codes "1 envelope " ++ statement_words statement.now ++ codes "\n") }
{
    let slot = statement.slot.0;
    let word = word_of_pledges(&statement.pledges);
    let mut text = String::new(alloc);
    text.push_str("1 envelope ")?;
    write_hex(&mut text, &statement.node.0)?;
    writeln!(&mut text, " {slot} {word}")?;
    Ok(text)
}

/// The line of a message that carries a hash.
fn hash_line(alloc: Global, word: &str, hash: &Hash) -> Result<String, AllocError>
    ensures { IfOk result (λ text. string_bytes text ≡ word.now ++ hex_word hash.now.0 ++ codes "\n") }
{
    let mut text = String::new(alloc);
    text.push_str(word)?;
    write_hex(&mut text, &hash.0)?;
    text.push_str("\n")?;
    Ok(text)
}

/// The line of a request for a record.
fn request_line(alloc: Global, slot: Slot) -> Result<String, AllocError>
    ensures { IfOk result (λ text. string_bytes text ≡ message_line (Message.GetRecord slot)) }
{
    let number = slot.0;
    format!(in alloc; "5 getrecord {number}\n")
}

/// The line of a record.
fn record_line(alloc: Global, slot: Slot, value: &Value) -> Result<String, AllocError>
    ensures { IfOk result (λ text. string_bytes text ≡ message_line (Message.Record slot value.now)) }
{
    let number = slot.0;
    let mut text = String::new(alloc);
    write!(&mut text, "6 record {number} ")?;
    write_hex(&mut text, value.as_slice())?;
    text.push_str("\n")?;
    Ok(text)
}

/// Adds the values of a batch, each after a space.
fn write_values(text: &mut String, values: &[Value]) -> Result<(), AllocError>
    ensures { OnOk result (string_bytes text.new ≡ string_bytes text.old ++ flat_map value_word values.now) }
{
    for value in values {
        text.push_str(" ")?;
        write_hex(text, value.as_slice())?;
    }
    Ok(())
}

/// The line of a batch of records.
fn records_line(alloc: Global, first: Slot, values: &ValueList) -> Result<String, AllocError>
    ensures { IfOk result (λ text. string_bytes text ≡ message_line (Message.Records first values.now)) }
{
    let number = first.0;
    let mut text = String::new(alloc);
    write!(&mut text, "7 records {number}")?;
    write_values(&mut text, values.as_slice())?;
    text.push_str("\n")?;
    Ok(text)
}

/// The line that shows a message that is within its limits. The only refusal is `NoMemory`.
pub fn line_of(alloc: Global, message: &Message) -> Result<String, Fault>
    requires { Fits message_kind (message_value message.now) }
    ensures line { IfOk result (λ text. string_bytes text ≡ message_line message.now) }
    ensures only_memory { IsOkUnless result Fault.NoMemory }
{
    match message {
        Message::Envelope(envelope) => Ok(statement_line(alloc, &envelope.statement)?),
        Message::GetSet(hash) => Ok(hash_line(alloc, "2 getset ", hash)?),
        Message::Set(set) => Ok(hash_line(alloc, "3 set ", &set.hash()?)?),
        Message::NoSet(hash) => Ok(hash_line(alloc, "4 noset ", hash)?),
        Message::GetRecord(slot) => Ok(request_line(alloc, *slot)?),
        Message::Record(slot, value) => Ok(record_line(alloc, *slot, value)?),
        Message::Records { first, values } => Ok(records_line(alloc, *first, values)?),
    }
}
