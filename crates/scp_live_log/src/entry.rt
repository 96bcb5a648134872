//! An entry of the log, and its bytes.
ghost use Rattle.std.specs.Prelude.{◌≡◌, ◌++◌, ◌∷◌, [], IfOk, OnOk};
ghost use Rattle.hex.specs.Hex.{encode_lower};
ghost use Rattle.scp_live_log.specs.Log.{chained, mark_of, spelled_entry, spelled, last_digest, batch_of};

use scp_device::below::types::Hash;
use sha2::{Digest, Sha256};
use std::alloc::{AllocError, Global};
use std::marker::Model;

/// A line that was acted on, without its line end, and the SHA-256 of what was sent for it.
#[derive(Drop)]
pub struct Entry {
    line: Vec<u8>,
    sent: Hash,
}

impl Model for Entry {
    ghost use Rattle.scp_live_log.specs.Log.{EntryView};

    ghost Value = { EntryView };

    ghost view = { λ e. record { line = e.line.items; sent = e.sent.0 } };
}

impl Entry {
    /// An entry with this line and this digest of what was sent. Takes ownership of the line.
    pub fn new(line: Vec<u8>, sent: Hash) -> Entry
        ensures { result ≡ record { line = line.items; sent = sent.0 } }
    {
        Entry { line, sent }
    }

    /// The line, without its line end.
    pub fn line(&self) -> &[u8]
        ensures { result.now ≡ self.now.line }
    {
        self.line.as_slice()
    }

    /// The SHA-256 of what was sent for the line.
    pub fn sent(&self) -> Hash
        ensures { result.0 ≡ self.now.sent }
    {
        self.sent
    }

    /// The entry's digest, which includes the digest of the entry before it.
    pub(crate) fn digest(&self, before: &Hash) -> Hash
        ensures { result.0 ≡ chained before.now.0 self.now }
    {
        let mut hasher = Sha256::new();
        hasher.update(&before.0[..]);
        hasher.update(&self.line);
        hasher.update(b"\n");
        hasher.update(&self.sent.0[..]);
        Hash(hasher.finalize())
    }
}

/// The mark of an entry: whether it is the first of its batch.
fn mark(begins: bool) -> u8
    ensures { result ≡ mark_of begins }
{
    if begins { b'+' } else { b' ' }
}

/// Adds a digest as 64 hexadecimal digits.
fn add_digest(alloc: Global, bytes: &mut Vec<u8>, digest: &Hash) -> Result<(), AllocError>
    ensures { OnOk result (bytes.new.items ≡ bytes.old.items ++ encode_lower digest.now.0) }
{
    let digits = hex::encode(alloc, &digest.0)?;
    bytes.extend_from_slice(digits.as_bytes())
}

/// Adds the mark and the line.
fn add_line(bytes: &mut Vec<u8>, begins: bool, entry: &Entry) -> Result<(), AllocError>
    ensures { OnOk result (bytes.new.items ≡ bytes.old.items ++ (mark_of begins ∷ entry.now.line ++ 10 ∷ [])) }
{
    bytes.push(mark(begins))?;
    bytes.extend_from_slice(entry.line())?;
    bytes.push(b'\n')?;
    Ok(())
}

/// Adds the two lines of an entry and returns its digest.
pub(crate) fn add_entry(
    alloc: Global,
    bytes: &mut Vec<u8>,
    before: &Hash,
    begins: bool,
    entry: &Entry,
) -> Result<Hash, AllocError>
    ensures bytes { OnOk result (bytes.new.items ≡ bytes.old.items ++ spelled_entry before.now.0 begins entry.now) }
    ensures digest { IfOk result (λ digest. digest.0 ≡ chained before.now.0 entry.now) }
{
    let digest = entry.digest(before);
    add_line(bytes, begins, entry)?;
    bytes.extend_from_slice(b"= ")?;
    add_digest(alloc, bytes, &entry.sent)?;
    bytes.push(b' ')?;
    add_digest(alloc, bytes, &digest)?;
    bytes.push(b'\n')?;
    Ok(digest)
}

/// The bytes of a batch after this digest, and the digest of its last entry.
pub(crate) fn batch_bytes(
    alloc: Global,
    before: Hash,
    entries: &[Entry],
) -> Result<(Vec<u8>, Hash), AllocError>
    ensures bytes { IfOk result (λ batch. batch.0.items ≡ spelled before.0 (batch_of entries.now)) }
    ensures digest { IfOk result (λ batch. batch.1.0 ≡ last_digest before.0 (batch_of entries.now)) }
{
    let mut bytes = Vec::new(alloc);
    let mut last = before;
    let mut begins = true;
    for entry in entries {
        last = add_entry(alloc, &mut bytes, &last, begins, entry)?;
        begins = false;
    }
    Ok((bytes, last))
}
