//! The lines that report hints.
ghost use Rattle.std.specs.Prelude.{◌≡◌, ◌++◌, IfOk, OnOk, IsOkUnless, codes, flat_map, string_bytes};
ghost use Rattle.std.specs.Fmt.{decimal};
ghost use Rattle.scp_text.specs.Sets.{node_text};
ghost use Rattle.scp_script_hints.specs.Told.{nodes_text};
ghost use Rattle.scp_script_hints.specs.Texts.{hint_text, hints_text};

use crate::hint::Hint;
use crate::told::write_disjoint;
use scp_script::below::types::{Fault, NodeId};
use scp_text::Term;
use std::alloc::{AllocError, Global};
use std::collections::BTreeSet;

/// Adds the line of a node that a line's quorum set names, and that the script doesn't have.
fn write_unknown(out: &mut String, line: usize, node: &NodeId) -> Result<(), Fault>
    ensures added { OnOk result (string_bytes out.new ≡ string_bytes out.old ++ (codes "warn line " ++ decimal line ++ codes " unknown " ++ node_text node.now ++ codes "\n")) }
    ensures only_memory { IsOkUnless result Fault.NoMemory }
{
    write!(out, "warn line {line} unknown ")?;
    node.write(out)?;
    out.push_str("\n")?;
    Ok(())
}

/// Adds the line of a slot that is outside the window of a line's node.
fn write_outside(out: &mut String, line: usize, slot: u64) -> Result<(), AllocError>
    ensures { OnOk result (string_bytes out.new ≡ string_bytes out.old ++ (codes "warn line " ++ decimal line ++ codes " outside " ++ decimal slot ++ codes "\n")) }
{
    writeln!(out, "warn line {line} outside {slot}")
}

/// Adds the line of a link on which lines send for a node that can't speak.
fn write_muted(out: &mut String, line: usize, from: u8, to: u8) -> Result<(), AllocError>
    ensures { OnOk result (string_bytes out.new ≡ string_bytes out.old ++ (codes "warn line " ++ decimal line ++ codes " muted " ++ decimal from ++ codes " " ++ decimal to ++ codes "\n")) }
{
    writeln!(out, "warn line {line} muted {from} {to}")
}

/// Adds the line of two quorums without a common node.
fn write_apart(
    out: &mut String,
    one: &BTreeSet<NodeId>,
    other: &BTreeSet<NodeId>,
) -> Result<(), Fault>
    ensures added { OnOk result (string_bytes out.new ≡ string_bytes out.old ++ (codes "warn disjoint " ++ nodes_text one.now.keys ++ codes " | " ++ nodes_text other.now.keys ++ codes "\n")) }
    ensures only_memory { IsOkUnless result Fault.NoMemory }
{
    out.push_str("warn ")?;
    write_disjoint(out, one, other)
}

/// Adds the line of a hint.
fn write_hint(out: &mut String, hint: &Hint) -> Result<(), Fault>
    ensures added { OnOk result (string_bytes out.new ≡ string_bytes out.old ++ hint_text hint.now) }
    ensures only_memory { IsOkUnless result Fault.NoMemory }
{
    match hint {
        Hint::Unknown { line, node } => write_unknown(out, *line, node),
        Hint::Outside { line, slot } => Ok(write_outside(out, *line, *slot)?),
        Hint::Muted { line, from, to } => Ok(write_muted(out, *line, *from, *to)?),
        Hint::Disjoint { one, other } => write_apart(out, one, other),
    }
}

/// The lines that report the hints on a script, one for each.
pub fn text_of_hints(alloc: Global, hints: &[Hint]) -> Result<String, Fault>
    ensures text { IfOk result (λ text. string_bytes text ≡ hints_text hints.now) }
    ensures only_memory { IsOkUnless result Fault.NoMemory }
{
    let mut out = String::new(alloc);
    for hint in hints {
        write_hint(&mut out, hint)?;
    }
    Ok(out)
}
