//! The nomination of one slot (the SCP draft, in this project's profile): what a node votes for, accepts and finds confirmed.
//!
//! What it promises for each input of a `Nominator` that isn't refused:
//! - The own statement after it is licensed by the one before it, and nothing is owed then.
//! - The own statement is emitted exactly where it is sane and newer than the one before, and it says the own lists.
//! - There are at most 7 votes and 7 accepted values. What is accepted is voted for and fully validated, and candidates are accepted.
//! - A new vote is accepted too, or there was no candidate. In the second case it is this node's proposal, and the node leads, or another
//!   leader suggests it: that leader names it and it is fully validated, or the driver extracts it from a value that the leader names.
//! - New candidates are confirmed, and if there are any, the composite is that of all candidates, ascending.
//! - The first proposal is kept. A round adds its leader, up to as many rounds as there are nodes that lead in turn.
//! - A refusal leaves the nominator failed, and from then on nothing changes.
//!
//! What it promises for its steps: by one rule, over one board, they lead from one state to exactly one board and one state.
#![tactic(auto)]

pub mod below;
mod guide;
mod heard;
mod known;
mod laws;
mod leaders;
mod lists;
mod nodes;
mod nominated;
mod nominator;
mod state;
mod values;

pub use laws::{an_input_is_a_function, the_steps_are_a_function};
pub use nodes::nodes_with;
pub use nominated::Nominated;
pub use nominator::Nominator;
