//! The tests of `scp_types`, `scp_xdr`, `scp_kv` and `scp_quorum`, by their public calls: what only a caller sees. The calls in
//! examples/values.calls and examples/bytes_of_sets.calls show what bytes say, and where they are wrong; those in examples/slot.calls which ballot
//! is less, and which nodes satisfy and block a set.
#![tactic(auto)]

#[cfg(test)]
mod kv;
#[cfg(test)]
mod quorum;
#[cfg(test)]
mod twice;
#[cfg(test)]
mod types;
#[cfg(test)]
mod xdr;
