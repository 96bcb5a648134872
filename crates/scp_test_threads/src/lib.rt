//! The tests of `scp_shared_outbox`, `scp_ends`, `scp_workers` and `scp_workers`, by their public calls.
#![tactic(auto)]

#[cfg(test)]
mod courier;
#[cfg(test)]
mod desk;
#[cfg(test)]
mod ends;
#[cfg(test)]
mod workers;
