//! How nodes are shown.
ghost use Rattle.std.specs.Prelude.{◌≡◌, ◌++◌, OnOk, flat_map, string_bytes};
ghost use Rattle.scp_history.specs.Words.{is_number, node_text, behind_space};

use scp_strkey::below::types::NodeId;
use scp_strkey::write_address;
use std::alloc::AllocError;

/// How many bytes of an id are 0 where it is a number.
const ZEROS: usize = 31;

/// Whether the id is a number below 256: its first 31 bytes are 0.
fn is_small(node: &NodeId) -> bool
    ensures { result ≡ is_number node.now.0 }
{
    node.0[..ZEROS].iter().all(|byte| *byte == 0)
}

/// Adds a node: by its address or, where numbers are asked for and its id is one, by that.
pub fn write_node(text: &mut String, by_number: bool, node: &NodeId) -> Result<(), AllocError>
    ensures { OnOk result (string_bytes text.new ≡ string_bytes text.old ++ node_text by_number node.now) }
{
    if by_number && is_small(node) {
        let number = node.0[ZEROS];
        write!(text, "{number}")?;
        return Ok(());
    }
    write_address(text, node)
}

/// Adds a node after a space.
pub(crate) fn write_behind_space(
    text: &mut String,
    by_number: bool,
    node: &NodeId,
) -> Result<(), AllocError>
    ensures { OnOk result (string_bytes text.new ≡ string_bytes text.old ++ behind_space by_number node.now) }
{
    text.push_str(" ")?;
    write_node(text, by_number, node)
}

/// Adds nodes, a space before each.
pub(crate) fn write_nodes(
    text: &mut String,
    by_number: bool,
    nodes: &[NodeId],
) -> Result<(), AllocError>
    ensures { OnOk result (string_bytes text.new ≡ string_bytes text.old ++ flat_map (behind_space by_number) nodes.now) }
{
    for node in nodes {
        write_behind_space(text, by_number, node)?;
    }
    Ok(())
}
