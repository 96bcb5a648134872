//! Whether the quorums of many nodes have common nodes, and what the loss of nodes does to them, by searches.
//!
//! What it promises:
//! - Two quorums that are shown are quorums, and have no common node.
//! - That each two quorums have a common node is said only if they do, whichever they are.
//! - It is unknown only where the tries that were allowed are used up. A search needs no more of them than a number that its contract
//!   says, so with that many it is never unknown.
//! - For each node all smallest sets of others whose loss halts it are found, or it is said that the tries are used up.
//! - The number of lost nodes that is said to be survived is the greatest that is, whichever nodes they are; or it is unknown, with a
//!   number below which all are survived.
//! - Common nodes are searched also beside nodes that lie: they say to each node whatever helps it.
#![tactic(auto)]

pub mod below;
mod disjoint;
mod few;
mod going;
mod halting;
mod meeting;
mod member;
mod order;
mod quest;
mod search;
mod settle;
mod sides;
mod surviving;
mod tries;
mod whole;

pub use disjoint::{disjoint_beside, disjoint_within};
pub use halting::{Halting, halting_within};
pub use meeting::Meeting;
pub use member::Member;
pub use surviving::{Survival, survived_within};
pub use tries::Tries;
pub use whole::{disjoint_quorums, smallest_halting, survived};
