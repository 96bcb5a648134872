ghost use Rattle.std.specs.Prelude.{◌≡◌, IfOk, IsOkUnless};

use scp_xdr::below::types::Fault;
use std::marker::Model;

/// A signature: bytes that are kept and not checked. The limit of 64 is that of the encoding.
#[derive(Drop)]
pub struct Signature(Vec<u8>);

impl Model for Signature {
    ghost use Rattle.std.specs.Prelude.{List, ℕ};

    ghost Value = { List ℕ };

    ghost view = { λ s. s.0.items };
}

impl Signature {
    /// The signature of these bytes. Moves them, and takes no memory.
    pub fn new(bytes: Vec<u8>) -> Signature
        ensures { result ≡ bytes.items }
    {
        Signature(bytes)
    }

    /// The signature's bytes.
    pub fn as_slice(&self) -> &[u8]
        ensures { result.now ≡ self.now }
    {
        self.0.as_slice()
    }

    /// Gives the bytes back, and takes no memory.
    pub fn into_vec(self) -> Vec<u8>
        ensures { result.items ≡ self }
    {
        let Signature(inside) = self;
        inside
    }

    /// Another signature of the same bytes, in the same allocator.
    pub(crate) fn copy(&self) -> Result<Signature, Fault>
        ensures same { IfOk result (λ signature. signature ≡ self.now) }
        ensures only_memory { IsOkUnless result Fault.NoMemory }
    {
        Ok(Signature(self.0.clone()?))
    }
}
