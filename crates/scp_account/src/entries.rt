//! The entries of a journal as JSON.
ghost use Rattle.std.specs.Prelude.{◌≡◌, codes, IfOk, IsOkUnless};
ghost use Rattle.serde_json.specs.Data.{string, object, member, no_members};
ghost use Rattle.serde_json.specs.View.{view};
ghost use Rattle.scp_line.specs.scp_wire.specs.Lanes.{slot_of};
ghost use Rattle.scp_line.specs.scp_words.specs.Words.{verdict_word, cause_word, drop_word};
ghost use Rattle.scp_account.specs.Pieces.{beside_json, count, id_json, kind_word, pledges_kind};
ghost use Rattle.scp_account.specs.Entries.{entry_json};
ghost use Rattle.scp_account.specs.Fits.{FitsBeside, FitsEntry};

use crate::digits::{id_value, message_value, set_value};
use scp_line::below::envelope::Pledges;
use scp_line::below::ledger::{Fate, Verdict};
use scp_line::below::pending::DropCause;
use scp_line::below::quorum::SaneSet;
use scp_line::below::types::{ConnId, Fault};
use scp_line::below::wire::{Cause, Message};
use scp_line::below::words::{word_of_cause, word_of_drop, word_of_verdict};
use serde_json::{Value, json};
use std::alloc::{AllocError, Global};
use std::sync::Arc;

/// The kind of a statement.
fn word_of_pledges(pledges: &Pledges) -> &'static str
    ensures { result.now ≡ pledges_kind pledges.now }
{
    match pledges {
        Pledges::Prepare(_) => "prepare",
        Pledges::Confirm(_) => "confirm",
        Pledges::Externalize(_) => "externalize",
        Pledges::Nominate(_) => "nominate",
    }
}

/// The kind of a message; for an envelope, the kind of its statement.
fn word_of_kind(message: &Message) -> &'static str
    ensures { result.now ≡ kind_word message.now }
{
    match message {
        Message::Envelope(envelope) => word_of_pledges(&envelope.get().statement.pledges),
        Message::GetSet(_) => "getset",
        Message::Set(_) => "set",
        Message::NoSet(_) => "noset",
        Message::GetRecord(_) => "getrecord",
        Message::Record(..) => "record",
        Message::Records { .. } => "records",
    }
}

/// The slot that a message names.
fn slot_named(message: &Message) -> u64
    ensures { result ≡ slot_of message.now }
{
    match message {
        Message::Envelope(envelope) => envelope.get().statement.slot.0,
        Message::GetRecord(slot) | Message::Record(slot, _) => slot.0,
        Message::GetSet(_) | Message::Set(_) | Message::NoSet(_) | Message::Records { .. } => 0,
    }
}

/// The quorum set that came with a message, if there is one.
fn beside_value(alloc: Global, set: &Option<Arc<SaneSet>>) -> Result<Value, Fault>
    ensures value { IfOk result (λ v. view v ≡ beside_json set.now) }
    ensures only_memory { FitsBeside set.now → IsOkUnless result Fault.NoMemory }
{
    match set {
        Some(set) => set_value(alloc, set.set()),
        None => Ok(Value::Null),
    }
}

/// A message that was taken, from the parts of its entry.
fn taken_with(
    alloc: Global,
    bytes: Value,
    from: Value,
    message: &Message,
    life: u32,
    number: u64,
    set: Value,
    verdict: Verdict,
) -> Result<Value, AllocError>
    ensures { IfOk result (λ v. view v ≡ object (member (codes "bytes") (view bytes) (member (codes "fate") (string (codes "taken")) (member (codes "from") (view from) (member (codes "kind") (string (kind_word message.now)) (member (codes "life") (count life) (member (codes "message") (count number) (member (codes "set") (view set) (member (codes "slot") (count (slot_of message.now)) (member (codes "verdict") (string (verdict_word verdict)) no_members)))))))))) }
{
    let kind = word_of_kind(message);
    let slot = slot_named(message);
    let word = word_of_verdict(verdict);
    json!(in alloc; {"bytes": bytes, "fate": "taken", "from": from, "kind": kind, "life": life, "message": number, "set": set, "slot": slot, "verdict": word})
}

/// A message that was dropped.
fn dropped(alloc: Global, conn: &ConnId, number: u64, cause: DropCause) -> Result<Value, AllocError>
    ensures { IfOk result (λ v. view v ≡ object (member (codes "cause") (string (drop_word cause)) (member (codes "fate") (string (codes "dropped")) (member (codes "from") (id_json conn.now.from) (member (codes "life") (count conn.now.life) (member (codes "message") (count number) no_members)))))) }
{
    let word = word_of_drop(cause);
    let life = conn.life;
    json!(in alloc; {"cause": word, "fate": "dropped", "from": id_value(alloc, &conn.from)?, "life": life, "message": number})
}

/// The end of a connection.
fn closed(alloc: Global, conn: &ConnId, cause: Cause) -> Result<Value, AllocError>
    ensures { IfOk result (λ v. view v ≡ object (member (codes "cause") (string (cause_word cause)) (member (codes "fate") (string (codes "closed")) (member (codes "from") (id_json conn.now.from) (member (codes "life") (count conn.now.life) no_members))))) }
{
    let word = word_of_cause(cause);
    let life = conn.life;
    json!(in alloc; {"cause": word, "fate": "closed", "from": id_value(alloc, &conn.from)?, "life": life})
}

/// A message that was taken.
fn taken(
    alloc: Global,
    conn: &ConnId,
    number: u64,
    message: &Message,
    set: &Option<Arc<SaneSet>>,
    verdict: Verdict,
) -> Result<Value, Fault>
    ensures value { IfOk result (λ v. view v ≡ entry_json (Fate.Taken conn.now (record { 0 = number }) message.now set.now verdict)) }
    ensures only_memory { FitsEntry (Fate.Taken conn.now (record { 0 = number }) message.now set.now verdict) → IsOkUnless result Fault.NoMemory }
{
    let bytes = message_value(alloc, message)?;
    let from = id_value(alloc, &conn.from)?;
    let set = beside_value(alloc, set)?;
    let entry = taken_with(alloc, bytes, from, message, conn.life, number, set, verdict)?;
    Ok(entry)
}

/// An entry of a journal. `TooLong` only if its message, or the set that came with it, breaks a limit.
pub fn entry_value(alloc: Global, fate: &Fate) -> Result<Value, Fault>
    ensures value { IfOk result (λ v. view v ≡ entry_json fate.now) }
    ensures only_memory { FitsEntry fate.now → IsOkUnless result Fault.NoMemory }
{
    match fate {
        Fate::Taken {
            conn,
            seq,
            message,
            set,
            verdict,
        } => taken(alloc, conn, seq.0, message, set, *verdict),
        Fate::Dropped { conn, seq, cause } => Ok(dropped(alloc, conn, seq.0, *cause)?),
        Fate::Closed { conn, cause } => Ok(closed(alloc, conn, *cause)?),
    }
}
