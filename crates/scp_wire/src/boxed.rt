//! An envelope as a message holds it.
ghost use Rattle.std.specs.Prelude.{◌≡◌, IfOk, IsOkUnless};

use scp_envelope::{Envelope, SharedEnvelope};
use scp_quorum::below::types::Fault;
use std::alloc::Global;
use std::marker::Model;
use std::ops::Deref;

/// An envelope in a box of its own, since it is much larger than what the other messages hold; all that hold it share it.
/// Contracts see the envelope, and not where it is, so two boxes of equal envelopes are equal.
#[derive(Drop)]
pub struct BoxedEnvelope(SharedEnvelope);

impl Model for BoxedEnvelope {
    ghost use Rattle.scp_wire.specs.Boxed.{Boxed};

    ghost Value = { Boxed };

    ghost view = { λ b. record { value = b.0 } };
}

impl BoxedEnvelope {
    /// The envelope, in a box.
    pub fn new(alloc: Global, envelope: Envelope) -> Result<BoxedEnvelope, Fault>
        ensures same { IfOk result (λ b. b.value ≡ envelope) }
        ensures only_memory { IsOkUnless result Fault.NoMemory }
    {
        Ok(BoxedEnvelope(SharedEnvelope::new(alloc, envelope)?))
    }

    /// Another holder of the same envelope; nothing is copied.
    pub fn copy(&self) -> Result<BoxedEnvelope, Fault>
        ensures same { IfOk result (λ b. b ≡ self.now) }
        ensures only_memory { IsOkUnless result Fault.NoMemory }
    {
        Ok(BoxedEnvelope(self.0.share()?))
    }

    /// The envelope.
    pub fn get(&self) -> &Envelope
        ensures { result.now ≡ self.now.value }
    {
        self.0.get()
    }

    /// The box of an envelope that is shared already. Moves it, and takes no memory.
    pub fn from_shared(envelope: SharedEnvelope) -> BoxedEnvelope
        ensures same { result.value ≡ envelope }
    {
        BoxedEnvelope(envelope)
    }

    /// Another holder of the envelope, outside a message; nothing is copied.
    pub fn share(&self) -> Result<SharedEnvelope, Fault>
        ensures same { IfOk result (λ e. e ≡ self.now.value) }
        ensures only_memory { IsOkUnless result Fault.NoMemory }
    {
        self.0.share()
    }
}

impl Deref for BoxedEnvelope {
    type Target = Envelope;

    ghost deref_gives = { λ b e. e ≡ b.value };

    /// The envelope.
    fn deref(&self) -> &Envelope
        ensures { result.now ≡ self.now.value }
    {
        self.0.get()
    }
}
