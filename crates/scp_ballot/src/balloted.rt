//! What an input gives.
use scp_ballot_rules::below::envelope::SharedEnvelope;
use scp_ballot_rules::below::types::{NodeId, Value};
use std::collections::BTreeSet;

/// What one input of a balloter gives.
#[derive(Drop)]
pub struct Balloted {
    /// The own statement, if it is sane and newer than the one emitted before, without a signature.
    pub statement: Option<SharedEnvelope>,
    /// The decision, at the input that makes the own statement an EXTERNALIZE.
    pub decided: Option<Certified>,
    /// Whether the rules were stopped at their limit of 64 applications; the rest is tried at the next input.
    pub more: bool,
}

/// A decided value with its certificate.
#[derive(Drop)]
pub struct Certified {
    pub value: Value,
    /// The counter of the commit that is confirmed.
    pub n: u32,
    /// The greatest quorum at this node among the nodes that accept that commit.
    pub quorum: BTreeSet<NodeId>,
    /// The own EXTERNALIZE, without a signature.
    pub own: SharedEnvelope,
}
