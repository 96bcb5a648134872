//! A log in memory. Each call takes effect at once, so a crash leaves what is there. It keeps each past content.
ghost use Rattle.std.specs.Prelude.{◌≡◌, ◌⊎◌, false, [], ◌∷◌, ◌++◌, length, drop, OnOk, OnErr};
ghost use Rattle.std.proofs.Common.{inl};
ghost use Rattle.scp_live_log.specs.Past.{HadBeen, only_bytes};

use crate::disk::EventLog;
use scp_device::below::types::Fault;
use std::alloc::{AllocError, Global};

/// A log in memory.
#[derive(Drop)]
pub struct MemoryLog {
    alloc: Global,
    bytes: Vec<u8>,
    past: Vec<Vec<u8>>,
}

impl MemoryLog {
    ghost use Rattle.scp_live_log.specs.Memory.{memory_bytes};

    /// A log of these bytes, all of them on the disk.
    pub fn new(alloc: Global, bytes: Vec<u8>) -> MemoryLog
        ensures { memory_bytes result ≡ bytes.items }
    {
        MemoryLog {
            alloc,
            bytes,
            past: Vec::new(alloc),
        }
    }

    /// All the bytes that it holds.
    pub fn bytes(&self) -> &[u8]
        ensures { result.now ≡ memory_bytes self.now }
    {
        self.bytes.as_slice()
    }
}

/// Puts other bytes in the place of those that are there, and keeps these as a past content.
fn put(
    alloc: Global,
    bytes: &mut Vec<u8>,
    past: &mut Vec<Vec<u8>>,
    next: Vec<u8>,
) -> Result<(), AllocError>
    ensures ok { OnOk result (bytes.new.items ≡ next.items) }
    ensures err { OnErr result (bytes.new.items ≡ bytes.old.items) }
    ensures past { OnOk result ((v : _) × (v.items ≡ bytes.old.items) × (past.new.items ≡ past.old.items ++ v ∷ [])) }
    ensures past_err { OnErr result (past.new.items ≡ past.old.items) }
{
    past.push(bytes.to_vec(alloc)?)?;
    *bytes = next;
    Ok(())
}

impl EventLog for MemoryLog {
    ghost holds = { λ m c. m.bytes.items ≡ c };

    ghost may_leave = { λ m c. c ≡ m.bytes.items };

    ghost moment = { λ m. length m.past.items };

    ghost left_since = { λ m t c. (c ≡ m.bytes.items) ⊎ HadBeen (drop t m.past.items) c };

    ghost faults = { λ m. 0 };

    ghost moved = { λ _. false };

    ghost counts_now = { λ m t c le now. inl now };

    ghost only_now = { λ m c left. only_bytes m.past.items m.bytes.items c left };

    fn was_moved(&self) -> bool {
        false
    }

    fn tell_torn(&self, _bytes: usize, _entries: usize) {}

    fn read(&mut self, alloc: Global) -> Result<Vec<u8>, Fault> {
        Ok(self.bytes.to_vec(alloc)?)
    }

    fn append(&mut self, bytes: &[u8]) -> Result<(), Fault> {
        let mut next = self.bytes.to_vec(self.alloc)?;
        next.extend_from_slice(bytes)?;
        Ok(put(self.alloc, &mut self.bytes, &mut self.past, next)?)
    }

    fn cut(&mut self, length: usize) -> Result<(), Fault> {
        let end = length.min(self.bytes.len());
        let next = self.bytes[..end].to_vec(self.alloc)?;
        Ok(put(self.alloc, &mut self.bytes, &mut self.past, next)?)
    }

    fn sync(&mut self) -> Result<(), Fault> {
        Ok(())
    }

    fn replace(&mut self, bytes: &[u8]) -> Result<(), Fault> {
        let next = Vec::from_slice(self.alloc, bytes)?;
        Ok(put(self.alloc, &mut self.bytes, &mut self.past, next)?)
    }
}
