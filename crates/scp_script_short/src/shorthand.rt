//! What a shorthand says.
use scp_script_text::below::types::Slot;

/// A line of text that says several lines of a script.
#[derive(Clone, Copy, PartialEq, Eq)]
pub enum Shorthand {
    /// `open all`: each of this many nodes opens its link to each other one.
    OpenAll { nodes: u32 },
    /// `rounds SLOT K`: K more rounds of the slot at each of this many nodes.
    Rounds { nodes: u32, slot: Slot, times: u32 },
    /// `catchup I J N`: node I asks node J for the slots from 1 to N.
    CatchUp { node: u32, peer: u32, until: u32 },
}
