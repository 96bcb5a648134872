//! Decisions, and the entries that justify them, as JSON.
ghost use Rattle.std.specs.Prelude.{◌≡◌, ◌++◌, All, List, codes, IfOk, IsOkUnless, OnOk, ℕ, flat_map, map, option_map};
ghost use Rattle.serde_json.specs.Data.{array, object, member, no_members, string};
ghost use Rattle.serde_json.specs.View.{view, items_of};
ghost use Rattle.scp_line.specs.scp_ledger.specs.declared.journal.Fate.{Fate};
ghost use Rattle.scp_account.specs.Pieces.{count, id_json, set_json};
ghost use Rattle.scp_account.specs.Decisions.{decision_json, ground, ground_of, origin_json};
ghost use Rattle.scp_account.specs.Fits.{FitsEntry, FitsOrigin, FitsOwn, FitsSet};
ghost use Rattle.scp_account.specs.inside.Spoken.{AreSpoken, FitsIf, spoken as spoken_in, spoken_at};

use crate::digits::{digits_of, id_value, own_value, set_value};
use crate::spoken::last_of;
use scp_line::below::envelope::SharedEnvelope;
use scp_line::below::ledger::{Decision, Fate, Origin, Quorum, SharedDecision};
use scp_line::below::quorum::QuorumSet;
use scp_line::below::types::{ConnId, Fault, NodeId};
use serde_json::{Value, json};
use std::alloc::{AllocError, Global};
use std::collections::BTreeMap;

/// A decision that rests on a record.
fn named(alloc: Global, conn: &ConnId, number: u64) -> Result<Value, AllocError>
    ensures { IfOk result (λ v. view v ≡ object (member (codes "from") (id_json conn.now.from) (member (codes "kind") (string (codes "record")) (member (codes "life") (count conn.now.life) (member (codes "message") (count number) no_members))))) }
{
    let life = conn.life;
    json!(in alloc; {"from": id_value(alloc, &conn.from)?, "kind": "record", "life": life, "message": number})
}

/// The entry that justifies a member's place in a certificate: a message that was taken with its set.
fn ground_value(
    alloc: Global,
    conn: &ConnId,
    number: u64,
    node: &NodeId,
    set: &QuorumSet,
) -> Result<Value, Fault>
    ensures value { IfOk result (λ v. view v ≡ object (member (codes "from") (id_json conn.now.from) (member (codes "life") (count conn.now.life) (member (codes "message") (count number) (member (codes "node") (id_json node.now) (member (codes "set") (set_json set.now) no_members)))))) }
    ensures only_memory { FitsSet set.now → IsOkUnless result Fault.NoMemory }
{
    let life = conn.life;
    let value = json!(in alloc; {
        "from": id_value(alloc, &conn.from)?,
        "life": life,
        "message": number,
        "node": id_value(alloc, node)?,
        "set": set_value(alloc, set)?
    })?;
    Ok(value)
}

/// Adds the entry that justifies a member's place in a certificate, if it is a message that was taken with its set.
fn add_ground(
    alloc: Global,
    values: &mut Vec<Value>,
    member: &NodeId,
    found: Option<&Fate>,
) -> Result<(), Fault>
    ensures added { OnOk result (map view values.new.items ≡ map view values.old.items ++ ground member.now (option_map (λ fate. fate.now) found.entry)) }
    ensures only_memory { FitsIf (option_map (λ fate. fate.now) found.entry) → IsOkUnless result Fault.NoMemory }
{
    let Some(
        Fate::Taken {
            conn,
            seq,
            set: Some(set),
            ..
        },
    ) = found
    else {
        return Ok(());
    };
    values.push(ground_value(alloc, conn, seq.0, member, set.set())?)?;
    Ok(())
}

/// Adds the entry that justifies a member's place in a certificate, unless the member is this node.
fn add_member(
    alloc: Global,
    values: &mut Vec<Value>,
    me: &NodeId,
    entries: &[&Fate],
    member: &NodeId,
) -> Result<(), Fault>
    ensures added { OnOk result ((journal : List Fate) → (slot : ℕ) → AreSpoken entries.now journal slot → map view values.new.items ≡ map view values.old.items ++ ground_of me.now journal slot member.now) }
    ensures only_memory { All FitsEntry (map (λ fate. fate.now) entries.now) → IsOkUnless result Fault.NoMemory }
{
    if *member == *me {
        return Ok(());
    }
    add_ground(alloc, values, member, last_of(entries, member))
}

/// The entries that justify a certificate: for each member except this node, the one that counts, if there is one.
fn grounds(
    alloc: Global,
    me: &NodeId,
    entries: &[&Fate],
    members: &[NodeId],
) -> Result<Value, Fault>
    ensures value { IfOk result (λ v. (journal : List Fate) → (slot : ℕ) → AreSpoken entries.now journal slot → view v ≡ array (items_of (flat_map (ground_of me.now journal slot) members.now))) }
    ensures only_memory { All FitsEntry (map (λ fate. fate.now) entries.now) → IsOkUnless result Fault.NoMemory }
{
    let mut values = Vec::new(alloc);
    for member in members {
        add_member(alloc, &mut values, me, entries, member)?;
    }
    Ok(Value::from(values))
}

/// The ids of nodes.
fn ids(alloc: Global, nodes: &[NodeId]) -> Result<Value, AllocError>
    ensures { IfOk result (λ v. view v ≡ array (items_of (map id_json nodes.now))) }
{
    let mut values = Vec::new(alloc);
    for node in nodes {
        values.push(id_value(alloc, node)?)?;
    }
    Ok(Value::from(values))
}

/// A decision that a machine made.
fn machine(
    alloc: Global,
    me: &NodeId,
    entries: &[&Fate],
    n: u32,
    quorum: &Quorum,
    own: &SharedEnvelope,
) -> Result<Value, Fault>
    ensures value { IfOk result (λ v. (journal : List Fate) → (slot : ℕ) → AreSpoken entries.now journal slot → view v ≡ origin_json me.now journal slot (Origin.Machine n quorum.now own.now)) }
    ensures only_memory { FitsOwn own.now → All FitsEntry (map (λ fate. fate.now) entries.now) → IsOkUnless result Fault.NoMemory }
{
    let members = quorum.nodes(alloc)?;
    let members = members.as_slice();
    let value = json!(in alloc; {
        "counter": n,
        "kind": "machine",
        "own": own_value(alloc, own.get())?,
        "quorum": ids(alloc, members)?,
        "rests_on": grounds(alloc, me, entries, members)?
    })?;
    Ok(value)
}

/// What a decision rests on.
fn origin_value(
    alloc: Global,
    me: &NodeId,
    entries: &[&Fate],
    origin: &Origin,
) -> Result<Value, Fault>
    ensures value { IfOk result (λ v. (journal : List Fate) → (slot : ℕ) → AreSpoken entries.now journal slot → view v ≡ origin_json me.now journal slot origin.now) }
    ensures only_memory { FitsOrigin origin.now → All FitsEntry (map (λ fate. fate.now) entries.now) → IsOkUnless result Fault.NoMemory }
{
    match origin {
        Origin::Machine { n, quorum, own } => machine(alloc, me, entries, *n, quorum, own),
        Origin::Named { conn, seq } => Ok(named(alloc, conn, seq.0)?),
    }
}

/// A decision, from the ballot statements of its slot.
fn decision_by(
    alloc: Global,
    me: &NodeId,
    entries: &[&Fate],
    decision: &Decision,
) -> Result<Value, Fault>
    ensures value { IfOk result (λ v. (journal : List Fate) → AreSpoken entries.now journal decision.now.slot.0 → view v ≡ decision_json me.now journal decision.now) }
    ensures only_memory { FitsOrigin decision.now.origin → All FitsEntry (map (λ fate. fate.now) entries.now) → IsOkUnless result Fault.NoMemory }
{
    let origin = origin_value(alloc, me, entries, &decision.origin)?;
    let slot = decision.slot.0;
    let value =
        json!(in alloc; {"origin": origin, "slot": slot, "value": digits_of(alloc, decision.value.as_slice())?})?;
    Ok(value)
}

/// A decision.
fn decision_value(
    alloc: Global,
    me: &NodeId,
    spoken: &BTreeMap<u64, Vec<&Fate>>,
    decision: &Decision,
) -> Result<Value, Fault>
    ensures value { IfOk result (λ v. (journal : List Fate) → spoken_at spoken.now decision.now.slot.0 ≡ spoken_in journal decision.now.slot.0 → view v ≡ decision_json me.now journal decision.now) }
    ensures only_memory { FitsOrigin decision.now.origin → All FitsEntry (spoken_at spoken.now decision.now.slot.0) → IsOkUnless result Fault.NoMemory }
{
    match spoken.get(&decision.slot.0) {
        Some(entries) => decision_by(alloc, me, entries.as_slice(), decision),
        None => decision_by(alloc, me, &[], decision),
    }
}

/// The decisions, in the order in which they were made.
pub fn decision_values(
    alloc: Global,
    me: &NodeId,
    spoken: &BTreeMap<u64, Vec<&Fate>>,
    decisions: &[SharedDecision],
) -> Result<Value, Fault>
    ensures value { IfOk result (λ v. (journal : List Fate) → ((slot : ℕ) → spoken_at spoken.now slot ≡ spoken_in journal slot) → view v ≡ array (items_of (map (decision_json me.now journal) decisions.now))) }
    ensures only_memory { All (λ d. FitsOrigin d.origin) decisions.now → ((slot : ℕ) → All FitsEntry (spoken_at spoken.now slot)) → IsOkUnless result Fault.NoMemory }
{
    let mut values = Vec::new(alloc);
    for decision in decisions {
        values.push(decision_value(alloc, me, spoken, decision.get())?)?;
    }
    Ok(Value::from(values))
}
