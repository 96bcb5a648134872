//! The tests of `scp_vote`, `scp_driver`, `scp_nominate` and `scp_ballot`, by their public calls, and a second driver that keeps the
//! trait's laws.
//!
//! The scripts of `examples/slots/` show what the machine of a slot says. Here are the tests of what only a caller sees.
#![tactic(auto)]

#[cfg(test)]
mod ballot;
#[cfg(test)]
mod byte_driver;
#[cfg(test)]
mod driver;
#[cfg(test)]
mod nominate;
#[cfg(test)]
mod short;
#[cfg(test)]
mod vote;
