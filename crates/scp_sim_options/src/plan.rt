//! What is simulated.
ghost use Rattle.std.specs.Prelude.{◌≡◌, ◌≢◌, ◌≤◌, ◌-◌, ◌∷◌, ◌↔◌, IsTrue, Some, true, slice_get, slice_index};

use scp_types::NODE_LIMIT;

/// A range with both ends included. If it is of time, the numbers are milliseconds.
#[derive(Clone, Copy)]
pub struct Span {
    pub from: u64,
    pub to: u64,
}

/// Which nodes propose a value for a slot: each node, the leader of its first round, or one by chance.
#[derive(Clone, Copy)]
pub enum Proposers {
    All,
    Leader,
    Random,
}

/// A node stops, and comes back as it was. Messages to it and from it in that time are lost.
#[derive(Clone, Copy)]
pub struct Crash {
    pub node: u8,
    pub span: Span,
}

/// A partition. Nodes of different sides aren't linked; nodes of side 0 are linked to all.
#[derive(Clone, Copy)]
pub struct Partition {
    pub sides: [u8; NODE_LIMIT],
    pub span: Span,
}

/// What is simulated: nodes, what becomes of their messages, and which of them are faulty.
#[derive(Drop)]
pub struct Plan {
    /// The number of nodes, from 1 to 8, and how many of them the quorum set of each needs.
    pub nodes: u8,
    pub need: u8,
    /// Lines of a script that give nodes other quorum sets.
    pub sets: String,
    /// The number of slots to close.
    pub slots: u64,
    /// The time at which the run ends, even if not all slots are closed.
    pub until: u64,
    /// The time that a message travels.
    pub delay: Span,
    /// Of a thousand messages, how many are lost, and how many come twice.
    pub drop: u16,
    pub duplicate: u16,
    /// Whether a message may overtake another on its link.
    pub reorder: bool,
    pub partitions: Vec<Partition>,
    pub crashes: Vec<Crash>,
    /// Marks of nodes, node 1 first. Nothing is heard from `silent` nodes. `equivocating` nodes say different things to different nodes.
    /// `flooding` nodes repeat what is old, and send what can't be judged.
    pub silent: [bool; NODE_LIMIT],
    pub equivocating: [bool; NODE_LIMIT],
    pub flooding: [bool; NODE_LIMIT],
    pub propose: Proposers,
}

/// Whether the node of this number is marked.
pub fn is_marked(marks: &[bool; NODE_LIMIT], node: u8) -> bool
    ensures { IsTrue result ↔ (1 ≤ node) × (slice_get marks.now (node - 1) ≡ Some true) }
{
    match usize::from(node).checked_sub(1) {
        Some(place) => matches!(marks.get(place), Some(true)),
        None => false,
    }
}

/// Marks the node of this number, if the number is in range.
pub(crate) fn mark(marks: &mut [bool; NODE_LIMIT], node: u8) {
    if let Some(place) = usize::from(node).checked_sub(1) {
        if let Some(mark) = marks.get_mut(place) {
            *mark = true;
        }
    }
}

/// Whether a partition keeps two nodes apart.
pub fn parts(partition: &Partition, one: u8, other: u8) -> bool
    // Both nodes are on a side, and not on the same one.
    ensures { IsTrue result ↔ (slice_index (0 ∷ partition.now.sides) one ≢ 0) × (slice_index (0 ∷ partition.now.sides) other ≢ 0) × (slice_index (0 ∷ partition.now.sides) one ≢ slice_index (0 ∷ partition.now.sides) other) }
{
    let (one, other) = (side_of(partition, one), side_of(partition, other));
    one != 0 && other != 0 && one != other
}

/// The side of a node; 0 if it is on no side.
fn side_of(partition: &Partition, node: u8) -> u8
    ensures { result ≡ slice_index (0 ∷ partition.now.sides) node }
{
    match usize::from(node).checked_sub(1) {
        Some(place) => match partition.sides.get(place) {
            Some(side) => *side,
            None => 0,
        },
        None => 0,
    }
}
