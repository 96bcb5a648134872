//! The quorum sets that are there, and the hashes of those that are wanted.
//!
//! What it promises:
//! - A `SetStore` holds the local set and at most 256 others, each under its own hash. One more removes the one that was
//!   stored first. `get` gives a set with exactly the hash that it is asked for.
//! - A `Fetcher` keeps the hashes that are wanted. `want` says whether a link is to be asked: if it wasn't asked since both the
//!   hash became wanted and the link last opened. For each hash it keeps the connections that wait for it, each once, in the
//!   order of their first wait; `waiting` returns them. A connection that ended waits for nothing, and a hash for which none
//!   waits isn't wanted. The twelfth miss of a hash gives it up. Misses count from the first want, and end with the want.
//! - A refusal leaves the value as it was.
#![tactic(auto)]

mod answers;
mod fetcher;
mod laws;
mod store;
mod waiters;
mod want;

pub use answers::{Answer, Missed};
pub use fetcher::{Fetcher, MISS_LIMIT};
pub use laws::a_link_counts_as_asked_by_the_calls;
pub use store::{OTHER_SETS_LIMIT, SetStore};
pub use want::Want;
