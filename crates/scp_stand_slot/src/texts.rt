//! Nodes, values, ballots and lists of them as text.
ghost use Rattle.std.specs.Prelude.{◌≡◌, ◌++◌, OnOk, IsOkUnless, map, true, string_bytes};
ghost use Rattle.scp_text.specs.Pieces.{listed};
ghost use Rattle.scp_text.specs.Values.{value_text};
ghost use Rattle.scp_text.specs.Messages.{ballot_text, values_text};
ghost use Rattle.scp_stand_slot.specs.Names.{node_name, nodes_text, slot_words};

use crate::names::Names;
use scp_slot::below::types::{Ballot, Fault, NodeId, Value};
use scp_text::Term;

/// Adds texts, with commas between them.
fn write_all<T: Term>(out: &mut String, terms: &[T]) -> Result<(), Fault>
    ensures added { OnOk result (string_bytes out.new ≡ string_bytes out.old ++ listed 44 true (map T.writes terms.now)) }
    ensures only_memory { IsOkUnless result Fault.NoMemory }
{
    let mut first = true;
    for term in terms {
        if !first {
            out.push_str(",")?;
        }
        term.write(out)?;
        first = false;
    }
    Ok(())
}

/// Adds the names of nodes, with commas between them.
pub(crate) fn write_each_node(
    out: &mut String,
    names: &Names,
    nodes: &[NodeId],
) -> Result<(), Fault>
    ensures added { OnOk result (string_bytes out.new ≡ string_bytes out.old ++ listed 44 true (map (node_name names.now) nodes.now)) }
    ensures only_memory { IsOkUnless result Fault.NoMemory }
{
    let mut first = true;
    for node in nodes {
        if !first {
            out.push_str(",")?;
        }
        names.write_node(out, node)?;
        first = false;
    }
    Ok(())
}

/// Adds the names of nodes, with commas between them, or a dash for none.
pub fn write_nodes(out: &mut String, names: &Names, nodes: &[NodeId]) -> Result<(), Fault>
    ensures added { OnOk result (string_bytes out.new ≡ string_bytes out.old ++ nodes_text names.now nodes.now) }
    ensures only_memory { IsOkUnless result Fault.NoMemory }
{
    match nodes {
        [] => {
            out.push_str("-")?;
            Ok(())
        }
        [_, ..] => write_each_node(out, names, nodes),
    }
}

/// Adds the words with which each line of a slot at a node begins.
pub fn write_slot_words(out: &mut String, names: &Names, me: NodeId, slot: u64) -> Result<(), Fault>
    ensures added { OnOk result (string_bytes out.new ≡ string_bytes out.old ++ slot_words names.now me slot) }
    ensures only_memory { IsOkUnless result Fault.NoMemory }
{
    names.write_node(out, &me)?;
    write!(out, " slot {slot}")?;
    Ok(())
}

/// Adds a value.
pub fn write_value(out: &mut String, value: &Value) -> Result<(), Fault>
    ensures added { OnOk result (string_bytes out.new ≡ string_bytes out.old ++ value_text value.now) }
    ensures only_memory { IsOkUnless result Fault.NoMemory }
{
    value.write(out)
}

/// Adds `NAME(VALUE,..)`; the name comes with its opening bracket.
pub fn write_values(out: &mut String, name: &str, values: &[Value]) -> Result<(), Fault>
    ensures added { OnOk result (string_bytes out.new ≡ string_bytes out.old ++ values_text name.now values.now) }
    ensures only_memory { IsOkUnless result Fault.NoMemory }
{
    out.push_str(name)?;
    write_all(out, values)?;
    out.push_str(")")?;
    Ok(())
}

/// Adds `NAME(N,VALUE)`; the name comes with its opening bracket.
pub(crate) fn write_counted(
    out: &mut String,
    name: &str,
    counter: u32,
    value: &Value,
) -> Result<(), Fault>
    ensures added { OnOk result (string_bytes out.new ≡ string_bytes out.old ++ ballot_text name.now (record { counter = counter; value = value.now })) }
    ensures only_memory { IsOkUnless result Fault.NoMemory }
{
    out.push_str(name)?;
    counter.write(out)?;
    out.push_str(",")?;
    value.write(out)?;
    out.push_str(")")?;
    Ok(())
}

/// Adds a ballot in this form.
pub(crate) fn write_ballot(out: &mut String, name: &str, ballot: &Ballot) -> Result<(), Fault>
    ensures added { OnOk result (string_bytes out.new ≡ string_bytes out.old ++ ballot_text name.now ballot.now) }
    ensures only_memory { IsOkUnless result Fault.NoMemory }
{
    write_counted(out, name, ballot.counter, ballot.value.get())
}
