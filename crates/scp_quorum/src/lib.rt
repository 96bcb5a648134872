//! Quorum sets: how they are encoded, when they are sane, which nodes satisfy and block them; and quorums.
//!
//! What it promises:
//! - a quorum set is read and written as its XDR says (RFC 4506), with at most 4 levels of inner sets.
//!   It is named by the SHA-256 (FIPS 180-4) of its encoding;
//! - sanity is decided exactly, without memory, and a set that is refused is handed back;
//! - nodes satisfy a set if they satisfy as many entries as its threshold says. They block it if no
//!   set of nodes disjoint from them satisfies it;
//! - the greatest quorum at a node inside given nodes is the union of all quorums there. `None` is
//!   answered exactly where there is no quorum.
#![tactic(auto)]

pub mod below;
mod laws;
mod quorum;
mod quorum_set;
mod sane_set;

pub use laws::{
    a_quorum_set_is_its_value, blocking_is_monotone, none_blocks_none, quorums_of_a_part,
    satisfying_is_monotone,
};
pub use quorum::{
    Marked, Places, Seat, greatest_quorum, greatest_quorum_among, greatest_quorum_by_passes,
};
pub use quorum_set::{Nodes, QuorumSet, blocked, satisfied};
pub use sane_set::SaneSet;
