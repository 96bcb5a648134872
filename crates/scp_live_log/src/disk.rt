//! A disk as the log sees it: what a read returns, and what a crash may leave.
ghost use Rattle.std.specs.Prelude.{◌≡◌, ◌≤◌, ◌++◌, ℕ, Bool, List, length, take, IfOk, OnOk};
ghost use Rattle.scp_live_log.specs.Disk.{Only, Follows, Torn, Cut, Elapses, LeavesOnly, IsEither, HasCause};

use scp_device::below::types::Fault;
use std::alloc::Global;

/// The disk that holds the log. Each call may be refused by `Fault::Device` if the disk failed, or by `Fault::NoMemory`.
pub trait EventLog {
    /// A read returns exactly these bytes, where that is known.
    ghost holds: { Self → List ℕ → Type 0 };

    /// A crash at this moment may leave these bytes.
    ghost may_leave: { Self → List ℕ → Type 0 };

    /// The present moment, as a number that never decreases.
    ghost moment: { Self → ℕ };

    /// A crash at some moment since that one might have left these bytes. The crash may come during a call or between two calls.
    ghost left_since: { Self → ℕ → List ℕ → Type 0 };

    /// How many times the disk has failed.
    ghost faults: { Self → ℕ };

    /// Whether a call found that somebody else moved the file, or made it longer or shorter.
    ghost moved: { Self → Bool };

    /// The same.
    fn was_moved(&self) -> bool
        ensures { result ≡ moved self.now };

    /// Reports to people, where they can be reached, that so many bytes behind so many entries were cut off.
    fn tell_torn(&self, bytes: usize, entries: usize);

    /// Reads all the bytes.
    fn read(&mut self, alloc: Global) -> Result<Vec<u8>, Fault>
        ensures bytes { IfOk result (λ bytes. (c : List ℕ) → holds self.old c → bytes.items ≡ c) }
        ensures stays { (c : List ℕ) → holds self.old c → holds self.new c }
        ensures crash { (c : List ℕ) → may_leave self.new c → may_leave self.old c }
        ensures time { Elapses (moment self.old) (moment self.new) (left_since self.old) (left_since self.new) (may_leave self.new) }
        ensures cause { HasCause (faults self.old) (faults self.new) result };

    /// Adds bytes at the end. Until the next sync, a crash may leave any bytes after those that were there.
    fn append(&mut self, bytes: &[u8]) -> Result<(), Fault>
        ensures added { OnOk result ((c : List ℕ) → holds self.old c → holds self.new (c ++ bytes.now)) }
        ensures crash { Follows (Torn (length bytes.now)) (may_leave self.old) (may_leave self.new) }
        ensures time { Elapses (moment self.old) (moment self.new) (left_since self.old) (left_since self.new) (may_leave self.new) }
        ensures cause { HasCause (faults self.old) (faults self.new) result };

    /// Cuts the file to a length that is at most its own.
    fn cut(&mut self, length: usize) -> Result<(), Fault>
        ensures cut { OnOk result ((c : List ℕ) → holds self.old c → holds self.new (take length c)) }
        ensures crash { Follows (Cut length) (may_leave self.old) (may_leave self.new) }
        ensures time { Elapses (moment self.old) (moment self.new) (left_since self.old) (left_since self.new) (may_leave self.new) }
        ensures cause { HasCause (faults self.old) (faults self.new) result };

    /// Once it has succeeded, a crash leaves exactly what a read returns.
    fn sync(&mut self) -> Result<(), Fault>
        ensures durable { OnOk result ((c : List ℕ) → holds self.old c → Only c (may_leave self.new)) }
        ensures stays { (c : List ℕ) → holds self.old c → holds self.new c }
        ensures crash { (c : List ℕ) → may_leave self.new c → may_leave self.old c }
        ensures time { Elapses (moment self.old) (moment self.new) (left_since self.old) (left_since self.new) (may_leave self.new) }
        ensures cause { HasCause (faults self.old) (faults self.new) result };

    /// Puts other bytes in the place of all that is there, and has them on the disk.
    fn replace(&mut self, bytes: &[u8]) -> Result<(), Fault>
        ensures replaced { OnOk result ((c : List ℕ) → holds self.old c → holds self.new bytes.now × Only bytes.now (may_leave self.new)) }
        // If all that was there is on the disk, a crash at any moment of the call leaves it or the other bytes, whole.
        ensures any_moment { (c : List ℕ) → holds self.old c → Only c (may_leave self.old) → LeavesOnly moment left_since self.old self.new (IsEither c bytes.now) }
        ensures cause { HasCause (faults self.old) (faults self.new) result };

    /// The present moment counts among the moments since an earlier one.
    ghost counts_now: { (file : Self) (t : ℕ) (c : List ℕ) → t ≤ moment file → may_leave file c → left_since file t c };

    /// Since the present moment there is no other moment.
    ghost only_now: { (file : Self) (c : List ℕ) → left_since file (moment file) c → may_leave file c };
}
