//! The tests of `scp_wire` and `scp_outbox`, by their public calls.
//!
//! The calls in `examples/` show what bytes are read as, where they are wrong, and the limits of
//! what is read. Here are the tests of what only a caller sees.
#![tactic(auto)]

#[cfg(test)]
mod bytes;
#[cfg(test)]
mod limits;
#[cfg(test)]
mod outbox;
#[cfg(test)]
mod reading;
#[cfg(test)]
mod short;
#[cfg(test)]
mod wire;
