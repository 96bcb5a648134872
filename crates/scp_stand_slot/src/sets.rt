//! Quorum sets as text, with the names of their nodes.
ghost use Rattle.std.specs.Prelude.{◌≡◌, ◌++◌, OnOk, IsOkUnless, codes, string_bytes};
ghost use Rattle.std.specs.Fmt.{decimal};
ghost use Rattle.scp_stand_slot.specs.Names.{set_named};

use crate::names::Names;
use crate::texts::write_each_node;
use scp_slot::below::quorum::QuorumSet;
use scp_slot::below::types::Fault;

/// Adds a threshold, and the bracket that opens behind it.
fn write_threshold(out: &mut String, threshold: u32) -> Result<(), Fault>
    ensures added { OnOk result (string_bytes out.new ≡ string_bytes out.old ++ (decimal threshold ++ codes "of(")) }
    ensures only_memory { IsOkUnless result Fault.NoMemory }
{
    write!(out, "{threshold}of(")?;
    Ok(())
}

/// Adds a quorum set. Takes a stack as deep as the set.
pub fn write_set(out: &mut String, names: &Names, set: &QuorumSet) -> Result<(), Fault>
    ensures added { OnOk result (string_bytes out.new ≡ string_bytes out.old ++ set_named names.now set.now) }
    ensures only_memory { IsOkUnless result Fault.NoMemory }
{
    write_threshold(out, set.threshold())?;
    write_each_node(out, names, set.validators())?;
    let mut first = set.validators().is_empty();
    for inner in set.inner_sets() {
        if !first {
            out.push_str(",")?;
        }
        write_set(out, names, inner)?;
        first = false;
    }
    out.push_str(")")?;
    Ok(())
}
