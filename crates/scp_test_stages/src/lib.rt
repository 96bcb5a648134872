//! Tests of the stages of a node (`scp_pending`, `scp_ledger`, `scp_apply`), for what only their caller sees. What becomes of messages, in
//! which order, which sets are asked for and what is sent is shown by examples/stages.calls and the scripts of examples/.
#![tactic(auto)]

#[cfg(test)]
mod apply;
#[cfg(test)]
mod ledger;
#[cfg(test)]
mod parts;
#[cfg(test)]
mod pending;
