//! Envelopes that several lists hold.
ghost use Rattle.std.specs.Prelude.{◌≡◌, IfOk, IsOkUnless};

use crate::statement::{Envelope, Statement};
use scp_xdr::below::types::Fault;
use std::alloc::Global;
use std::marker::Model;
use std::ops::Deref;
use std::sync::Arc;

/// An envelope that several lists hold, kept once. Contracts see the envelope.
#[derive(Drop)]
pub struct SharedEnvelope(Arc<Envelope>);

impl Model for SharedEnvelope {
    ghost use Rattle.scp_envelope.specs.declared.statement.Envelope.{Envelope};

    ghost Value = { Envelope };

    ghost view = { λ s. s.0.value };
}

impl SharedEnvelope {
    /// The envelope, ready to be shared.
    pub fn new(alloc: Global, envelope: Envelope) -> Result<SharedEnvelope, Fault>
        ensures same { IfOk result (λ s. s ≡ envelope) }
        ensures only_memory { IsOkUnless result Fault.NoMemory }
    {
        Ok(SharedEnvelope(Arc::new(alloc, envelope)?))
    }

    /// Another holder of the same envelope; nothing is copied.
    pub fn share(&self) -> Result<SharedEnvelope, Fault>
        ensures same { IfOk result (λ s. s ≡ self.now) }
        ensures only_memory { IsOkUnless result Fault.NoMemory }
    {
        Ok(SharedEnvelope(Arc::try_clone(&self.0)?))
    }

    /// Another holder of it, which shows only the statement; nothing is copied.
    pub fn share_statement(&self) -> Result<SharedStatement, Fault>
        ensures same { IfOk result (λ s. s ≡ self.now.statement) }
        ensures only_memory { IsOkUnless result Fault.NoMemory }
    {
        Ok(SharedStatement(self.share()?))
    }

    /// The envelope.
    pub fn get(&self) -> &Envelope
        ensures { result.now ≡ self.now }
    {
        &*self.0
    }
}

impl Deref for SharedEnvelope {
    type Target = Envelope;

    ghost deref_gives = { λ s e. e ≡ s };

    /// The envelope.
    fn deref(&self) -> &Envelope
        ensures { result.now ≡ self.now }
    {
        self.get()
    }
}

/// The statement of an envelope that several lists hold. Contracts see the statement.
#[derive(Drop)]
pub struct SharedStatement(SharedEnvelope);

impl Model for SharedStatement {
    ghost use Rattle.scp_envelope.specs.declared.statement.Statement.{Statement};

    ghost Value = { Statement };

    ghost view = { λ s. s.0.statement };
}

impl SharedStatement {
    /// The statement.
    pub fn get(&self) -> &Statement
        ensures { result.now ≡ self.now }
    {
        &self.0.get().statement
    }
}
