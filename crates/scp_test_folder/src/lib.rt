//! Tests of `scp_live_folder` and `scp_live_head` by their public calls, and a folder in memory that keeps all it has held.
#![tactic(auto)]

#[cfg(test)]
mod applied;
#[cfg(test)]
mod content;
#[cfg(test)]
mod heads;
#[cfg(test)]
mod memory;
#[cfg(test)]
mod refused;
#[cfg(test)]
mod refusing;
#[cfg(test)]
mod starting;
#[cfg(test)]
mod switching;
