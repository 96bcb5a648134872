//! Statements as text, with nodes and the hashes of quorum sets shown by their names.
ghost use Rattle.std.specs.Prelude.{◌≡◌, ◌++◌, ◌∷◌, [], OnOk, IsOkUnless, true, false, codes, string_bytes};
ghost use Rattle.std.specs.Fmt.{decimal};
ghost use Rattle.scp_text.specs.Pieces.{listed};
ghost use Rattle.scp_text.specs.Messages.{optional_text, signature_words, nominate_words, prepare_words, confirm_words, externalize_words, pledges_words};
ghost use Rattle.scp_slot.specs.scp_envelope.specs.Kinds.{set_hash_of};
ghost use Rattle.scp_stand_slot.specs.Names.{node_name, name_of, with_names, said_as, statement_text};

use crate::names::Names;
use crate::texts::{write_ballot, write_values};
use scp_slot::below::envelope::{Confirm, Envelope, Externalize, Nominate, Pledges, Prepare};
use scp_slot::below::types::{Ballot, Fault, Hash, NodeId, Slot};
use scp_text::Term;

/// Adds a space and a term.
fn write_term<T: Term>(out: &mut String, term: &T) -> Result<(), Fault>
    ensures added { OnOk result (string_bytes out.new ≡ string_bytes out.old ++ 32 ∷ T.writes term.now) }
    ensures only_memory { IsOkUnless result Fault.NoMemory }
{
    out.push_str(" ")?;
    term.write(out)
}

/// Adds a space and a ballot under its name, or a dash for none.
fn write_optional(out: &mut String, name: &str, ballot: &Option<Ballot>) -> Result<(), Fault>
    ensures added { OnOk result (string_bytes out.new ≡ string_bytes out.old ++ 32 ∷ optional_text name.now ballot.now) }
    ensures only_memory { IsOkUnless result Fault.NoMemory }
{
    out.push_str(" ")?;
    match ballot {
        Some(ballot) => write_ballot(out, name, ballot)?,
        None => out.push_str("-")?,
    }
    Ok(())
}

/// Adds a space and `sig(HEX)`, or nothing for a signature of no bytes.
fn write_signature(out: &mut String, signature: &[u8]) -> Result<(), Fault>
    ensures added { OnOk result (string_bytes out.new ≡ string_bytes out.old ++ listed 32 false (signature_words signature.now)) }
    ensures only_memory { IsOkUnless result Fault.NoMemory }
{
    match signature {
        [] => {}
        [_, ..] => {
            let digits = hex::encode(*out.allocator(), signature)?;
            out.push_str(" sig(")?;
            out.push_str(digits.as_str())?;
            out.push_str(")")?;
        }
    }
    Ok(())
}

/// Adds the first words of a statement.
fn write_front(
    out: &mut String,
    names: &Names,
    kind: &str,
    node: NodeId,
    slot: u64,
    hash: &Hash,
) -> Result<(), Fault>
    ensures added { OnOk result (string_bytes out.new ≡ string_bytes out.old ++ listed 32 true (kind.now ∷ node_name names.now node ∷ decimal slot ∷ name_of names.now hash.now ∷ [])) }
    ensures only_memory { IsOkUnless result Fault.NoMemory }
{
    out.push_str(kind)?;
    out.push_str(" ")?;
    names.write_node(out, &node)?;
    write_term(out, &Slot(slot))?;
    out.push_str(" ")?;
    names.write_hash(out, hash)
}

fn write_nominate(out: &mut String, p: &Nominate) -> Result<(), Fault>
    ensures added { OnOk result (string_bytes out.new ≡ string_bytes out.old ++ listed 32 false (nominate_words p.now)) }
    ensures only_memory { IsOkUnless result Fault.NoMemory }
{
    write_values(out, " votes(", p.votes.as_slice())?;
    write_values(out, " accepted(", p.accepted.as_slice())
}

fn write_prepare(out: &mut String, p: &Prepare) -> Result<(), Fault>
    ensures added { OnOk result (string_bytes out.new ≡ string_bytes out.old ++ listed 32 false (prepare_words p.now)) }
    ensures only_memory { IsOkUnless result Fault.NoMemory }
{
    write_ballot(out, " ballot(", &p.ballot)?;
    write_optional(out, "prepared(", &p.prepared)?;
    write_optional(out, "prime(", &p.prepared_prime)?;
    write_term(out, &p.n_commit)?;
    write_term(out, &p.n_high)
}

fn write_confirm(out: &mut String, p: &Confirm) -> Result<(), Fault>
    ensures added { OnOk result (string_bytes out.new ≡ string_bytes out.old ++ listed 32 false (confirm_words p.now)) }
    ensures only_memory { IsOkUnless result Fault.NoMemory }
{
    write_ballot(out, " ballot(", &p.ballot)?;
    write_term(out, &p.n_prepared)?;
    write_term(out, &p.n_commit)?;
    write_term(out, &p.n_high)
}

fn write_externalize(out: &mut String, p: &Externalize) -> Result<(), Fault>
    ensures added { OnOk result (string_bytes out.new ≡ string_bytes out.old ++ listed 32 false (externalize_words p.now)) }
    ensures only_memory { IsOkUnless result Fault.NoMemory }
{
    write_ballot(out, " commit(", &p.commit)?;
    write_term(out, &p.n_high)
}

/// Adds a statement of this kind.
fn write_nominating(
    out: &mut String,
    names: &Names,
    node: NodeId,
    slot: u64,
    p: &Nominate,
) -> Result<(), Fault>
    ensures added { OnOk result (string_bytes out.new ≡ string_bytes out.old ++ listed 32 true (codes "nominate" ∷ node_name names.now node ∷ decimal slot ∷ name_of names.now p.now.set_hash ∷ nominate_words p.now)) }
    ensures only_memory { IsOkUnless result Fault.NoMemory }
{
    write_front(out, names, "nominate", node, slot, &p.set_hash)?;
    write_nominate(out, p)
}

/// Adds a statement of this kind.
fn write_preparing(
    out: &mut String,
    names: &Names,
    node: NodeId,
    slot: u64,
    p: &Prepare,
) -> Result<(), Fault>
    ensures added { OnOk result (string_bytes out.new ≡ string_bytes out.old ++ listed 32 true (codes "prepare" ∷ node_name names.now node ∷ decimal slot ∷ name_of names.now p.now.set_hash ∷ prepare_words p.now)) }
    ensures only_memory { IsOkUnless result Fault.NoMemory }
{
    write_front(out, names, "prepare", node, slot, &p.set_hash)?;
    write_prepare(out, p)
}

/// Adds a statement of this kind.
fn write_confirming(
    out: &mut String,
    names: &Names,
    node: NodeId,
    slot: u64,
    p: &Confirm,
) -> Result<(), Fault>
    ensures added { OnOk result (string_bytes out.new ≡ string_bytes out.old ++ listed 32 true (codes "confirm" ∷ node_name names.now node ∷ decimal slot ∷ name_of names.now p.now.set_hash ∷ confirm_words p.now)) }
    ensures only_memory { IsOkUnless result Fault.NoMemory }
{
    write_front(out, names, "confirm", node, slot, &p.set_hash)?;
    write_confirm(out, p)
}

/// Adds a statement of this kind.
fn write_externalizing(
    out: &mut String,
    names: &Names,
    node: NodeId,
    slot: u64,
    p: &Externalize,
) -> Result<(), Fault>
    ensures added { OnOk result (string_bytes out.new ≡ string_bytes out.old ++ listed 32 true (codes "externalize" ∷ node_name names.now node ∷ decimal slot ∷ name_of names.now p.now.set_hash ∷ externalize_words p.now)) }
    ensures only_memory { IsOkUnless result Fault.NoMemory }
{
    write_front(out, names, "externalize", node, slot, &p.set_hash)?;
    write_externalize(out, p)
}

/// Adds the words of a node's pledges in a slot, with the node and the hash of its set shown by their names.
fn write_pledges(
    out: &mut String,
    names: &Names,
    node: NodeId,
    slot: u64,
    pledges: &Pledges,
) -> Result<(), Fault>
    ensures added { OnOk result (string_bytes out.new ≡ string_bytes out.old ++ listed 32 true (with_names (node_name names.now node) (name_of names.now (set_hash_of pledges.now)) (pledges_words node (record { 0 = slot }) pledges.now))) }
    ensures only_memory { IsOkUnless result Fault.NoMemory }
{
    match pledges {
        Pledges::Nominate(p) => write_nominating(out, names, node, slot, p),
        Pledges::Prepare(p) => write_preparing(out, names, node, slot, p),
        Pledges::Confirm(p) => write_confirming(out, names, node, slot, p),
        Pledges::Externalize(p) => write_externalizing(out, names, node, slot, p),
    }
}

/// Adds a statement with its signature, as said by this node in this slot.
pub fn write_statement(
    out: &mut String,
    names: &Names,
    node: NodeId,
    slot: u64,
    envelope: &Envelope,
) -> Result<(), Fault>
    ensures added { OnOk result (string_bytes out.new ≡ string_bytes out.old ++ statement_text names.now (said_as node slot envelope.now)) }
    ensures only_memory { IsOkUnless result Fault.NoMemory }
{
    write_pledges(out, names, node, slot, &envelope.statement.pledges)?;
    write_signature(out, envelope.signature.as_slice())
}
