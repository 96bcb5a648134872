//! A folder that refuses calls.
ghost use Rattle.std.specs.Prelude.{◌≡◌, false};
ghost use Rattle.scp_live_head.specs.scp_live_log.specs.Disk.{HasCause};

use crate::memory::MemoryFolder;
use scp_live_folder::Folder;
use scp_live_head::below::types::Fault;
use std::alloc::Global;

/// A folder that does so many calls and refuses each later one. What it keeps outlives it.
#[derive(Drop)]
pub struct Refuses<'a> {
    folder: &'a mut MemoryFolder,
    calls_left: u64,
    /// Whether a refused call has its effect all the same, or half of it if it writes bytes.
    late: bool,
    failures: u64,
}

impl<'a> Refuses<'a> {
    pub fn new(folder: &'a mut MemoryFolder, calls: u64, late: bool) -> Refuses<'a> {
        Refuses {
            folder,
            calls_left: calls,
            late,
            failures: 0,
        }
    }

    fn count(&mut self) -> Result<(), Fault>
        ensures { HasCause self.old.failures self.new.failures result }
    {
        if self.calls_left == 0 {
            self.failures = self.failures.saturating_add(1);
            return Err(Fault::Device);
        }
        self.calls_left -= 1;
        Ok(())
    }
}

impl Folder for Refuses<'_> {
    ghost holds = { λ _ _. ⊥ };

    ghost may_leave = { λ _ _. ⊥ };

    ghost moment = { λ _. 0 };

    ghost left_since = { λ _ _ _. ⊥ };

    ghost faults = { λ f. f.failures };

    ghost moved = { λ _. false };

    ghost counts_now = { λ _ _ _ _ left. left };

    ghost only_now = { λ _ _ left. left };

    fn was_moved(&self) -> bool {
        false
    }

    fn tell_torn(&self, _bytes: usize, _entries: usize) {}

    fn read(&mut self, alloc: Global) -> Result<Vec<u8>, Fault> {
        self.count()?;
        self.folder.read(alloc)
    }

    fn append(&mut self, bytes: &[u8]) -> Result<(), Fault> {
        let came = self.count();
        if came.is_ok() {
            return self.folder.append(bytes);
        }
        if self.late {
            let _torn = self.folder.append(&bytes[..bytes.len() / 2]);
        }
        came
    }

    fn cut(&mut self, length: usize) -> Result<(), Fault> {
        let came = self.count();
        if came.is_ok() {
            return self.folder.cut(length);
        }
        if self.late {
            let _done = self.folder.cut(length);
        }
        came
    }

    fn write_next(&mut self, bytes: &[u8]) -> Result<(), Fault> {
        let came = self.count();
        if came.is_ok() {
            return self.folder.write_next(bytes);
        }
        if self.late {
            let _torn = self.folder.write_next(&bytes[..bytes.len() / 2]);
        }
        came
    }

    fn remove_next(&mut self) -> Result<(), Fault> {
        let came = self.count();
        if came.is_ok() {
            return self.folder.remove_next();
        }
        if self.late {
            let _done = self.folder.remove_next();
        }
        came
    }

    fn link(&mut self, epoch: u64) -> Result<(), Fault> {
        let came = self.count();
        if came.is_ok() {
            return self.folder.link(epoch);
        }
        if self.late {
            let _done = self.folder.link(epoch);
        }
        came
    }

    fn unlink(&mut self, epoch: u64) -> Result<(), Fault> {
        let came = self.count();
        if came.is_ok() {
            return self.folder.unlink(epoch);
        }
        if self.late {
            let _done = self.folder.unlink(epoch);
        }
        came
    }

    fn rename(&mut self) -> Result<(), Fault> {
        let came = self.count();
        if came.is_ok() {
            return self.folder.rename();
        }
        if self.late {
            let _done = self.folder.rename();
        }
        came
    }

    fn sync(&mut self) -> Result<(), Fault> {
        self.count()?;
        self.folder.sync()
    }
}
