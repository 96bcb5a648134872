//! The verdicts on a ledger's messages.
ghost use Rattle.std.specs.Prelude.{◌≡◌, ◌++◌, ◌∷◌, [], map, IfOk, OnOk, IsOkUnless};
ghost use Rattle.std.specs.List.{AllByRecursion};
ghost use Rattle.scp_judged.specs.Named.{set_in};
ghost use Rattle.scp_judged.specs.Certified.{IsSaneHeard};
ghost use Rattle.scp_judged.specs.Verdicts.{AreVerdicts, heard_of, heard_with};
ghost use Rattle.scp_judged.specs.inside.Newest.{KeepsLast};

use crate::newest::Newest;
use crate::sets::Sets;
use crate::verdict::{Said, Verdict, counted_set};
use scp_ledger::below::envelope::{Envelope, SharedEnvelope};
use scp_ledger::below::quorum::SaneSet;
use scp_ledger::below::types::{Fault, Slot};
use std::alloc::Global;
use std::sync::Arc;

/// A message, and the verdict on it.
#[derive(Drop)]
pub struct Message {
    pub envelope: SharedEnvelope,
    pub verdict: Verdict,
}

/// What became of a ledger's messages.
#[derive(Drop)]
pub struct Judged {
    /// All messages, in their order.
    pub messages: Vec<Message>,
    /// Those that count, in their order.
    pub counting: Vec<Said>,
}

ghost use Rattle.scp_judged.specs.inside.Judging.{TakesMessage, CountsToo};

/// What counts of a message: it shares the envelope and the quorum set.
fn said_of(envelope: &SharedEnvelope, set: &Arc<SaneSet>) -> Result<Said, Fault>
    ensures said { IfOk result (λ said. heard_of said ≡ heard_with envelope.now.statement set.now.value) }
    ensures only_memory { IsOkUnless result Fault.NoMemory }
{
    let envelope = envelope.share()?;
    let set = Arc::try_clone(set)?;
    Ok(Said { envelope, set })
}

/// Adds a message to those that count.
fn count(
    newest: &mut Newest,
    counting: &mut Vec<Said>,
    envelope: &SharedEnvelope,
    set: &Arc<SaneSet>,
) -> Result<(), Fault>
    requires { KeepsLast newest.old (map heard_of counting.old.items) }
    ensures counts { OnOk result (CountsToo (map heard_of counting.old.items) (map heard_of counting.new.items) envelope.now.statement set.now.value) }
    ensures keeps { OnOk result (KeepsLast newest.new (map heard_of counting.new.items)) }
    ensures only_memory { IsOkUnless result Fault.NoMemory }
{
    let said = said_of(envelope, set)?;
    let statement = envelope.share_statement()?;
    newest.put(statement)?;
    counting.push(said)?;
    Ok(())
}

/// Judges one message more.
fn take(
    alloc: Global,
    sets: &Sets,
    slot: Slot,
    newest: &mut Newest,
    judged: &mut Judged,
    envelope: Envelope,
) -> Result<(), Fault>
    requires { KeepsLast newest.old (map heard_of judged.old.counting.items) }
    ensures takes { OnOk result (TakesMessage (set_in sets.now) slot.0 judged.old judged.new envelope) }
    ensures keeps { OnOk result (KeepsLast newest.new (map heard_of judged.new.counting.items)) }
    ensures only_memory { IsOkUnless result Fault.NoMemory }
{
    let envelope = SharedEnvelope::new(alloc, envelope)?;
    match counted_set(sets, slot, newest, envelope.get()) {
        Ok(set) => {
            count(newest, &mut judged.counting, &envelope, set)?;
            let verdict = Verdict::Counts;
            judged.messages.push(Message { envelope, verdict })?;
            Ok(())
        }
        Err(verdict) => {
            judged.messages.push(Message { envelope, verdict })?;
            Ok(())
        }
    }
}

/// Judges the messages of the ledger of this slot, in their order, by the quorum sets that the stream named so far. The only refusal is
/// `Fault::NoMemory`. Each message costs look-ups in tables of the sets and of the nodes.
pub fn judge(
    alloc: Global,
    sets: &Sets,
    slot: Slot,
    messages: Vec<Envelope>,
) -> Result<Judged, Fault>
    ensures same { IfOk result (λ judged. map (λ m. m.envelope) judged.messages.items ≡ messages.items) }
    ensures exact { IfOk result (λ judged. AreVerdicts (set_in sets.now) slot.0 [] (map (λ e. e.statement) messages.items) (map (λ m. m.verdict) judged.messages.items) (map heard_of judged.counting.items)) }
    // What counts is sane.
    ensures sane { IfOk result (λ judged. AllByRecursion IsSaneHeard (map heard_of judged.counting.items)) }
    ensures only_memory { IsOkUnless result Fault.NoMemory }
{
    let mut newest = Newest::new(alloc);
    let mut judged = Judged {
        messages: Vec::new(alloc),
        counting: Vec::new(alloc),
    };
    for envelope in messages {
        take(alloc, sets, slot, &mut newest, &mut judged, envelope)?;
    }
    Ok(judged)
}
