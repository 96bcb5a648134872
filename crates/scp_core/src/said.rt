//! The own statements that a slot stage says.

use scp_theorem::below::envelope::SharedEnvelope;
use std::marker::Model;

/// Own statements for all peers, in order. Contracts see the list.
#[derive(Drop)]
pub struct SaidList(Vec<SharedEnvelope>);

impl Model for SaidList {
    ghost use Rattle.std.specs.Prelude.{List};
    ghost use Rattle.scp_theorem.specs.scp_envelope.specs.declared.statement.Envelope.{Envelope};

    ghost Value = { List Envelope };

    ghost view = { λ s. s.0.items };
}

impl SaidList {
    ghost use Rattle.std.specs.Prelude.{◌≡◌};

    /// The list of these. Moves them and takes no memory.
    pub fn new(said: Vec<SharedEnvelope>) -> SaidList
        ensures { result ≡ said.items }
    {
        SaidList(said)
    }

    /// The statements.
    pub fn as_slice(&self) -> &[SharedEnvelope]
        ensures { result.now ≡ self.now }
    {
        self.0.as_slice()
    }
}
