ghost use Rattle.std.specs.Prelude.{◌≡◌, ◌++◌, ◌<◌, ◌≤◌, ◌^◌, [], length, replicate, IfOk, IsOkUnless, if◌then◌else◌};
ghost use Rattle.scp_xdr.specs.Kind.{word, long_word, padded};
ghost use Rattle.scp_xdr.specs.Words.{Appends, Extends};

use crate::padding::padding_len;
use scp_types::Fault;
use std::alloc::Global;
use std::marker::Model;

const ZEROS: [u8; 3] = [0; 3];

/// Writes XDR (RFC 4506) at the end of its bytes. A refusal leaves them as they were, and
/// `Fault::TooLong` comes before `Fault::NoMemory`.
#[derive(Drop)]
pub struct Writer {
    bytes: Vec<u8>,
}

impl Model for Writer {
    ghost use Rattle.std.specs.Prelude.{List, ℕ};

    ghost Value = { List ℕ };

    ghost view = { λ w. w.bytes.items };
}

#[tactic(auto, using(crate::proofs::Zeros::zeros_of))]
fn put_zeros(out: &mut Vec<u8>, count: usize) -> Result<(), Fault>
    requires { count < 4 }
    ensures { Extends out.old.items out.new.items result (replicate count 0) }
{
    out.extend_from_slice(&ZEROS[..count])?;
    Ok(())
}

/// The bytes and their padding. A refusal may leave a part of them.
#[tactic(auto, unfolding(crate::specs::Kind::padded))]
fn put_padded(out: &mut Vec<u8>, bytes: &[u8]) -> Result<(), Fault>
    ensures { Extends out.old.items out.new.items result (padded bytes.now) }
{
    out.extend_from_slice(bytes)?;
    put_zeros(out, padding_len(bytes.len()))
}

/// The length, the bytes and their padding. A refusal may leave a part of them.
#[tactic(auto, unfolding(crate::specs::Kind::word))]
fn put_opaque(out: &mut Vec<u8>, bytes: &[u8]) -> Result<(), Fault>
    requires { length bytes.now < 2 ^ 32 }
    ensures { Extends out.old.items out.new.items result (word (length bytes.now) ++ padded bytes.now) }
{
    out.extend_from_slice(&(bytes.len() as u32).to_be_bytes())?;
    put_padded(out, bytes)
}

impl Writer {
    /// A writer that has written nothing. Takes no memory.
    pub fn new(alloc: Global) -> Writer
        ensures { result ≡ [] }
    {
        Writer {
            bytes: Vec::new(alloc),
        }
    }

    /// A writer that has written nothing, with room for that many bytes. The only refusal is `Fault::NoMemory`.
    pub fn with_capacity(alloc: Global, capacity: usize) -> Result<Writer, Fault>
        ensures empty { IfOk result (λ w. w ≡ []) }
        ensures only_memory { IsOkUnless result Fault.NoMemory }
    {
        Ok(Writer {
            bytes: Vec::with_capacity(alloc, capacity)?,
        })
    }

    /// What was written.
    pub fn into_vec(self) -> Vec<u8>
        ensures { result.items ≡ self }
    {
        let Writer { bytes } = self;
        bytes
    }

    /// A number in 4 bytes, big-endian (RFC 4506, section 4.2).
    #[tactic(auto, unfolding(crate::specs::Kind::word))]
    pub fn u32(&mut self, n: u32) -> Result<(), Fault>
        ensures { Appends self.old self.new result (word n) }
    {
        self.bytes.extend_from_slice(&n.to_be_bytes())?;
        Ok(())
    }

    /// A number in 8 bytes, big-endian (RFC 4506, section 4.5).
    #[tactic(auto, unfolding(crate::specs::Kind::long_word))]
    pub fn u64(&mut self, number: u64) -> Result<(), Fault>
        ensures { Appends self.old self.new result (long_word number) }
    {
        self.bytes.extend_from_slice(&number.to_be_bytes())?;
        Ok(())
    }

    /// Bytes whose count the reader knows, and their padding (RFC 4506, section 4.9).
    pub fn fixed(&mut self, bytes: &[u8]) -> Result<(), Fault>
        ensures { Appends self.old self.new result (padded bytes.now) }
    {
        let start = self.bytes.len();
        let written = put_padded(&mut self.bytes, bytes);
        if written.is_err() {
            self.bytes.truncate(start);
        }
        written
    }

    /// At most `max` bytes, after their length, and their padding (RFC 4506, section 4.10).
    pub fn opaque(&mut self, max: u32, bytes: &[u8]) -> Result<(), Fault>
        ensures within { length bytes.now ≤ max → Appends self.old self.new result (word (length bytes.now) ++ padded bytes.now) }
        ensures too_long { max < length bytes.now → (result ≡ Err Fault.TooLong) × (self.new ≡ self.old) }
    {
        if bytes.len() > max as usize {
            return Err(Fault::TooLong);
        }
        let before = self.bytes.len();
        let written = put_opaque(&mut self.bytes, bytes);
        if written.is_err() {
            self.bytes.truncate(before);
        }
        written
    }

    /// A count of at most `max` (RFC 4506, section 4.13).
    pub fn count(&mut self, max: u32, count: usize) -> Result<(), Fault>
        ensures within { count ≤ max → Appends self.old self.new result (word count) }
        ensures too_long { max < count → (result ≡ Err Fault.TooLong) × (self.new ≡ self.old) }
    {
        if count > max as usize {
            return Err(Fault::TooLong);
        }
        self.u32(count as u32)
    }

    /// 1 or 0, as before an optional (RFC 4506, sections 4.4 and 4.19).
    pub fn flag(&mut self, flag: bool) -> Result<(), Fault>
        ensures { Appends self.old self.new result (word (if flag then 1 else 0)) }
    {
        self.u32(u32::from(flag))
    }
}
