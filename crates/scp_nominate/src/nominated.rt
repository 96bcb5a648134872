//! What an input gives.
use scp_vote::below::envelope::SharedEnvelope;
use scp_vote::below::types::Value;

/// What an input gives: the own statement if it is to be emitted, and the composite if the candidates grew.
#[derive(Drop)]
pub struct Nominated {
    pub statement: Option<SharedEnvelope>,
    pub composite: Option<Value>,
}
