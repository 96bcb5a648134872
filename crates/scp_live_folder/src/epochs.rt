//! The log of the present epoch, in a folder.
ghost use Rattle.std.specs.Prelude.{◌≡◌, ◌⊎◌, ◌+◌, ◌^◌, ◌-◌, min, ℕ, List, OnOk, OnErr};
ghost use Rattle.scp_live_log.specs.Disk.{Only, LeavesOnly, HasCause};
ghost use Rattle.scp_live_folder.specs.Folder.{FolderView};
ghost use Rattle.scp_live_folder.specs.Epochs.{switched, settled, IsStill, IsLeftOf, HasSameLogs};

use crate::folder::Folder;
use crate::steps::{prepare, settle, turn};
use scp_live_log::EventLog;
use scp_live_log::below::types::Fault;
use std::alloc::Global;

/// A folder, and the number of its present epoch, whose log is the file `now`.
#[derive(Drop)]
pub struct Epochs<D> {
    folder: D,
    epoch: u64,
}

impl<D: Folder> Epochs<D> {
    /// The log of this epoch in this folder, before `start` is called.
    pub fn new(folder: D, epoch: u64) -> Epochs<D>
        ensures folder { result.folder ≡ folder }
        ensures epoch { result.epoch ≡ epoch }
    {
        Epochs { folder, epoch }
    }

    /// The folder.
    pub fn folder(&self) -> &D
        ensures { result.now ≡ self.now.folder }
    {
        &self.folder
    }

    /// The number of the present epoch.
    pub fn epoch(&self) -> u64
        ensures { result ≡ self.now.epoch }
    {
        self.epoch
    }

    /// Makes ready a folder that a crash may have left: what was begun of a switch is taken away. To be called before anything else. Refused
    /// by `Fault::NoMemory`, or by `Fault::Device` if the disk failed.
    pub fn start(&mut self) -> Result<(), Fault>
        ensures done { OnOk result ((v : FolderView) → D.holds self.old.folder v → D.holds self.new.folder (settled self.old.epoch v) × Only (settled self.old.epoch v) (D.may_leave self.new.folder)) }
        // A crash at any moment of the call leaves the logs as they were.
        ensures any_moment { LeavesOnly D.moment D.left_since self.old.folder self.new.folder (λ left. (u : FolderView) × D.may_leave self.old.folder u × HasSameLogs u left) }
        ensures epoch { self.new.epoch ≡ self.old.epoch }
        ensures cause { HasCause (D.faults self.old.folder) (D.faults self.new.folder) result }
    {
        settle(&mut self.folder, self.epoch)
    }

    /// Ends the epoch: these bytes are the log of the next one, and the log of this one is kept under its number. Refused by
    /// `Fault::NoMemory`, or by `Fault::Device` if the disk failed. After a refusal open the folder again.
    pub fn switch(&mut self, bytes: &[u8]) -> Result<(), Fault>
        ensures done { OnOk result ((v : FolderView) → D.holds self.old.folder v → D.holds self.new.folder (switched self.old.epoch bytes.now v) × Only (switched self.old.epoch bytes.now v) (D.may_leave self.new.folder)) }
        // If all that the folder holds is on the disk, a crash at any moment of the call leaves the logs as they were, or the whole of what
        // is there behind the call.
        ensures any_moment { (v : FolderView) → D.holds self.old.folder v → Only v (D.may_leave self.old.folder) → LeavesOnly D.moment D.left_since self.old.folder self.new.folder (λ left. IsStill self.old.epoch v left ⊎ (left ≡ switched self.old.epoch bytes.now v)) }
        // The same, whatever is on the disk.
        ensures any_outcome { (v : FolderView) → D.holds self.old.folder v → LeavesOnly D.moment D.left_since self.old.folder self.new.folder (IsLeftOf self.old.epoch bytes.now v (D.may_leave self.old.folder)) }
        ensures epoch { OnOk result (self.new.epoch ≡ min (self.old.epoch + 1) (2 ^ 64 - 1)) }
        ensures same_epoch { OnErr result (self.new.epoch ≡ self.old.epoch) }
        ensures cause { HasCause (D.faults self.old.folder) (D.faults self.new.folder) result }
    {
        prepare(&mut self.folder, self.epoch, bytes)?;
        turn(&mut self.folder)?;
        self.epoch = self.epoch.saturating_add(1);
        Ok(())
    }
}

impl<D: Folder> EventLog for Epochs<D> {
    ghost holds = { λ e c. (v : FolderView) × D.holds e.folder v × (v.now ≡ c) };

    ghost may_leave = { λ e c. (v : FolderView) × D.may_leave e.folder v × (v.now ≡ c) };

    ghost moment = { λ e. D.moment e.folder };

    ghost left_since = { λ e t c. (v : FolderView) × D.left_since e.folder t v × (v.now ≡ c) };

    ghost faults = { λ e. D.faults e.folder };

    ghost moved = { λ e. D.moved e.folder };

    ghost counts_now = { λ e t c le left. (left.0, D.counts_now e.folder t left.0 le left.1, left.2) };

    ghost only_now = { λ e c left. (left.0, D.only_now e.folder left.0 left.1, left.2) };

    fn was_moved(&self) -> bool {
        self.folder.was_moved()
    }

    fn tell_torn(&self, bytes: usize, entries: usize) {
        self.folder.tell_torn(bytes, entries);
    }

    fn read(&mut self, alloc: Global) -> Result<Vec<u8>, Fault> {
        self.folder.read(alloc)
    }

    fn append(&mut self, bytes: &[u8]) -> Result<(), Fault> {
        self.folder.append(bytes)
    }

    fn cut(&mut self, length: usize) -> Result<(), Fault> {
        self.folder.cut(length)
    }

    fn sync(&mut self) -> Result<(), Fault> {
        self.folder.sync()
    }

    fn replace(&mut self, bytes: &[u8]) -> Result<(), Fault> {
        self.switch(bytes)
    }
}
