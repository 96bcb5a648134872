//! Tests of `scp_core`, for what only a node's caller sees. The calls in examples/stages.calls and examples/node.calls, and the scripts of
//! examples/, show what becomes of messages and what is sent.
#![tactic(auto)]

#[cfg(test)]
mod between;
#[cfg(test)]
mod parts;
#[cfg(test)]
mod refused;
#[cfg(test)]
mod replies;
#[cfg(test)]
mod telling;
