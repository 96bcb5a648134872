//! The tests of `scp_envelope`, by its public calls: what only a caller sees. The calls in examples/bytes_of_envelopes.calls show the bytes
//! of envelopes, and where they are wrong; those in examples/slot.calls which of two sane statements is newer.
#![tactic(auto)]

#[cfg(test)]
mod tests;
