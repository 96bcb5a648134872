//! A folder as the logs of a node see it: what is in it, and what a crash may leave.
ghost use Rattle.std.specs.Prelude.{◌≡◌, ◌≤◌, ◌++◌, ℕ, Bool, List, [], length, take, IfOk, OnOk};
ghost use Rattle.scp_live_log.specs.Disk.{Only, Follows, Torn, Cut, Elapses, HasCause};
ghost use Rattle.scp_live_folder.specs.Folder.{FolderView, Same, Keeps, MayBe, with_now, with_next, linked, unlinked, renamed};

use scp_live_log::below::types::Fault;
use std::alloc::Global;

/// A folder with the logs of a node. Each call may be refused by `Fault::Device` if the disk failed, or by `Fault::NoMemory`. Until the next
/// sync a crash may lose each change of a name, and leave any bytes where some were added.
pub trait Folder {
    /// The folder holds exactly this, where that is known.
    ghost holds: { Self → FolderView → Type 0 };

    /// A crash at this moment may leave this.
    ghost may_leave: { Self → FolderView → Type 0 };

    /// The present moment, as a number that never decreases.
    ghost moment: { Self → ℕ };

    /// A crash at some moment since that one might have left this. The crash may come during a call or between two calls.
    ghost left_since: { Self → ℕ → FolderView → Type 0 };

    /// How many times the disk has failed.
    ghost faults: { Self → ℕ };

    /// Whether a call found that somebody else moved `now`, or made it longer or shorter.
    ghost moved: { Self → Bool };

    /// The same.
    fn was_moved(&self) -> bool
        ensures { result ≡ moved self.now };

    /// Reports to people, where they can be reached, that so many bytes of `now` behind so many entries were cut off.
    fn tell_torn(&self, bytes: usize, entries: usize);

    /// Reads all the bytes of `now`.
    fn read(&mut self, alloc: Global) -> Result<Vec<u8>, Fault>
        ensures bytes { IfOk result (λ bytes. (v : FolderView) → holds self.old v → bytes.items ≡ v.now) }
        ensures stays { (v : FolderView) → holds self.old v → holds self.new v }
        ensures crash { (v : FolderView) → may_leave self.new v → may_leave self.old v }
        ensures time { Elapses (moment self.old) (moment self.new) (left_since self.old) (left_since self.new) (may_leave self.new) }
        ensures cause { HasCause (faults self.old) (faults self.new) result };

    /// Adds bytes at the end of `now`.
    fn append(&mut self, bytes: &[u8]) -> Result<(), Fault>
        ensures added { OnOk result ((v : FolderView) → holds self.old v → holds self.new (with_now (v.now ++ bytes.now) v)) }
        ensures crash { Follows (Keeps (Torn (length bytes.now))) (may_leave self.old) (may_leave self.new) }
        ensures time { Elapses (moment self.old) (moment self.new) (left_since self.old) (left_since self.new) (may_leave self.new) }
        ensures cause { HasCause (faults self.old) (faults self.new) result };

    /// Cuts `now` to a length that is at most its own.
    fn cut(&mut self, length: usize) -> Result<(), Fault>
        ensures cut { OnOk result ((v : FolderView) → holds self.old v → holds self.new (with_now (take length v.now) v)) }
        ensures crash { Follows (Keeps (Cut length)) (may_leave self.old) (may_leave self.new) }
        ensures time { Elapses (moment self.old) (moment self.new) (left_since self.old) (left_since self.new) (may_leave self.new) }
        ensures cause { HasCause (faults self.old) (faults self.new) result };

    /// Makes `next`, with these bytes alone.
    fn write_next(&mut self, bytes: &[u8]) -> Result<(), Fault>
        ensures written { OnOk result ((v : FolderView) → holds self.old v → holds self.new (with_next bytes.now v)) }
        ensures crash { Follows (Keeps Same) (may_leave self.old) (may_leave self.new) }
        ensures time { Elapses (moment self.old) (moment self.new) (left_since self.old) (left_since self.new) (may_leave self.new) }
        ensures cause { HasCause (faults self.old) (faults self.new) result };

    /// Removes `next`, if it is there.
    fn remove_next(&mut self) -> Result<(), Fault>
        ensures removed { OnOk result ((v : FolderView) → holds self.old v → holds self.new (with_next [] v)) }
        ensures crash { Follows (Keeps Same) (may_leave self.old) (may_leave self.new) }
        ensures time { Elapses (moment self.old) (moment self.new) (left_since self.old) (left_since self.new) (may_leave self.new) }
        ensures cause { HasCause (faults self.old) (faults self.new) result };

    /// Gives `now` the name of this ended epoch too.
    fn link(&mut self, epoch: u64) -> Result<(), Fault>
        ensures named { OnOk result ((v : FolderView) → holds self.old v → holds self.new (linked epoch v)) }
        ensures crash { Follows (MayBe (linked epoch)) (may_leave self.old) (may_leave self.new) }
        ensures time { Elapses (moment self.old) (moment self.new) (left_since self.old) (left_since self.new) (may_leave self.new) }
        ensures cause { HasCause (faults self.old) (faults self.new) result };

    /// Takes the name of this ended epoch away from `now`, if it has it. Another file of that name stays.
    fn unlink(&mut self, epoch: u64) -> Result<(), Fault>
        ensures unnamed { OnOk result ((v : FolderView) → holds self.old v → holds self.new (unlinked epoch v)) }
        ensures crash { Follows (MayBe (unlinked epoch)) (may_leave self.old) (may_leave self.new) }
        ensures time { Elapses (moment self.old) (moment self.new) (left_since self.old) (left_since self.new) (may_leave self.new) }
        ensures cause { HasCause (faults self.old) (faults self.new) result };

    /// Makes `next` the file `now`.
    fn rename(&mut self) -> Result<(), Fault>
        ensures moved { OnOk result ((v : FolderView) → holds self.old v → holds self.new (renamed v)) }
        ensures crash { Follows (MayBe renamed) (may_leave self.old) (may_leave self.new) }
        ensures time { Elapses (moment self.old) (moment self.new) (left_since self.old) (left_since self.new) (may_leave self.new) }
        ensures cause { HasCause (faults self.old) (faults self.new) result };

    /// Once it has succeeded, a crash leaves exactly what the folder holds: bytes and names.
    fn sync(&mut self) -> Result<(), Fault>
        ensures durable { OnOk result ((v : FolderView) → holds self.old v → Only v (may_leave self.new)) }
        ensures stays { (v : FolderView) → holds self.old v → holds self.new v }
        ensures crash { (v : FolderView) → may_leave self.new v → may_leave self.old v }
        ensures time { Elapses (moment self.old) (moment self.new) (left_since self.old) (left_since self.new) (may_leave self.new) }
        ensures cause { HasCause (faults self.old) (faults self.new) result };

    /// The present moment counts among the moments since an earlier one.
    ghost counts_now: { (folder : Self) (t : ℕ) (v : FolderView) → t ≤ moment folder → may_leave folder v → left_since folder t v };

    /// Since the present moment there is no other moment.
    ghost only_now: { (folder : Self) (v : FolderView) → left_since folder (moment folder) v → may_leave folder v };
}
