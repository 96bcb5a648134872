//! A folder in memory. Each call takes effect at once, so a crash leaves what is there. It keeps each past content.
ghost use Rattle.std.specs.Prelude.{◌≡◌, length, false, OnOk, OnErr};
ghost use Rattle.std.proofs.Common.{inl};
ghost use Rattle.scp_live_head.specs.scp_live_log.specs.Disk.{Elapses};
ghost use Rattle.scp_test_folder.specs.Past.{HasBeenSince, only_content};

use crate::content::Content;
use scp_live_folder::Folder;
use scp_live_head::below::types::Fault;
use std::alloc::{AllocError, Global};

/// A folder in memory.
#[derive(Drop)]
pub struct MemoryFolder {
    alloc: Global,
    content: Content,
    past: Vec<Content>,
}

impl MemoryFolder {
    /// A folder that holds this, all of it on the disk.
    pub fn new(alloc: Global, content: Content) -> MemoryFolder
        ensures { result.content ≡ content }
    {
        MemoryFolder {
            alloc,
            content,
            past: Vec::new(alloc),
        }
    }

    /// What it holds.
    pub fn content(&self) -> &Content
        ensures { result.now ≡ self.now.content }
    {
        &self.content
    }

    /// What it has held, the first content first.
    pub fn past(&self) -> &[Content]
        ensures { result.now ≡ self.now.past.items }
    {
        self.past.as_slice()
    }

    /// Puts another content in the place of that which is there, and keeps this as a past one.
    fn put(&mut self, next: Content) -> Result<(), AllocError>
        ensures ok { OnOk result (self.new.content ≡ next) }
        ensures err { OnErr result (self.new.content ≡ self.old.content) }
        ensures time { Elapses (length self.old.past.items) (length self.new.past.items) (HasBeenSince self.old.past.items self.old.content) (HasBeenSince self.new.past.items self.new.content) (λ left. left ≡ self.new.content) }
    {
        let before = self.content.copy(self.alloc)?;
        self.past.push(before)?;
        self.content = next;
        Ok(())
    }
}

impl Folder for MemoryFolder {
    ghost holds = { λ m v. m.content ≡ v };

    ghost may_leave = { λ m left. left ≡ m.content };

    ghost moment = { λ m. length m.past.items };

    ghost left_since = { λ m. HasBeenSince m.past.items m.content };

    ghost faults = { λ m. 0 };

    ghost moved = { λ _. false };

    ghost counts_now = { λ m t left le now. inl now };

    ghost only_now = { λ m left since. only_content m.past.items m.content left since };

    fn was_moved(&self) -> bool {
        false
    }

    fn tell_torn(&self, _bytes: usize, _entries: usize) {}

    fn read(&mut self, alloc: Global) -> Result<Vec<u8>, Fault> {
        Ok(self.content.log.to_vec(alloc)?)
    }

    fn append(&mut self, bytes: &[u8]) -> Result<(), Fault> {
        let mut now = self.content.log.to_vec(self.alloc)?;
        now.extend_from_slice(bytes)?;
        let next = self.content.with_now(self.alloc, &now)?;
        Ok(self.put(next)?)
    }

    fn cut(&mut self, length: usize) -> Result<(), Fault> {
        let end = length.min(self.content.log.len());
        let now = self.content.log[..end].to_vec(self.alloc)?;
        let next = self.content.with_now(self.alloc, &now)?;
        Ok(self.put(next)?)
    }

    fn write_next(&mut self, bytes: &[u8]) -> Result<(), Fault> {
        let next = self.content.with_next(self.alloc, bytes)?;
        Ok(self.put(next)?)
    }

    fn remove_next(&mut self) -> Result<(), Fault> {
        let next = self.content.with_next(self.alloc, &[])?;
        Ok(self.put(next)?)
    }

    fn link(&mut self, epoch: u64) -> Result<(), Fault> {
        let next = self.content.linked(self.alloc, epoch)?;
        Ok(self.put(next)?)
    }

    fn unlink(&mut self, epoch: u64) -> Result<(), Fault> {
        let next = self.content.unlinked(self.alloc, epoch)?;
        Ok(self.put(next)?)
    }

    fn rename(&mut self) -> Result<(), Fault> {
        let next = self.content.renamed(self.alloc)?;
        Ok(self.put(next)?)
    }

    fn sync(&mut self) -> Result<(), Fault> {
        Ok(())
    }
}
