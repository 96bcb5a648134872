//! Steps of a folder. What each of them did is on the disk once it has succeeded.
ghost use Rattle.std.specs.Prelude.{◌≡◌, OnOk};
ghost use Rattle.scp_live_log.specs.Disk.{Only, LeavesOnly, HasCause};
ghost use Rattle.scp_live_folder.specs.Folder.{FolderView, MayBe, renamed};
ghost use Rattle.scp_live_folder.specs.Epochs.{settled, IsStill, HasSameLogs};
ghost use Rattle.scp_live_folder.specs.inside.Halves.{prepared};

use crate::folder::Folder;
use scp_live_log::below::types::Fault;

/// Writes the next log, and gives the present one the name of its epoch, which ends. Without the sync behind these a crash could keep the
/// rename that follows and lose them.
pub(crate) fn prepare<D: Folder>(folder: &mut D, epoch: u64, bytes: &[u8]) -> Result<(), Fault>
    ensures done { OnOk result ((v : FolderView) → D.holds folder.old v → D.holds folder.new (prepared epoch bytes.now v) × Only (prepared epoch bytes.now v) (D.may_leave folder.new)) }
    // A crash at any moment of the call leaves the logs as they were.
    ensures any_moment { LeavesOnly D.moment D.left_since folder.old folder.new (λ left. (u : FolderView) × D.may_leave folder.old u × IsStill epoch u left) }
    ensures cause { HasCause (D.faults folder.old) (D.faults folder.new) result }
{
    folder.write_next(bytes)?;
    folder.link(epoch)?;
    folder.sync()?;
    Ok(())
}

/// Puts the next log in the place of the present one.
pub(crate) fn turn<D: Folder>(folder: &mut D) -> Result<(), Fault>
    ensures done { OnOk result ((v : FolderView) → D.holds folder.old v → D.holds folder.new (renamed v) × Only (renamed v) (D.may_leave folder.new)) }
    // A crash at any moment of the call leaves the folder as it was, or as it is behind the call.
    ensures any_moment { LeavesOnly D.moment D.left_since folder.old folder.new (λ left. (u : FolderView) × D.may_leave folder.old u × MayBe renamed u left) }
    ensures cause { HasCause (D.faults folder.old) (D.faults folder.new) result }
{
    folder.rename()?;
    folder.sync()?;
    Ok(())
}

/// Makes a folder, which a crash may have left, one in which no switch was begun. The log in `now` is that of this epoch.
pub(crate) fn settle<D: Folder>(folder: &mut D, epoch: u64) -> Result<(), Fault>
    ensures done { OnOk result ((v : FolderView) → D.holds folder.old v → D.holds folder.new (settled epoch v) × Only (settled epoch v) (D.may_leave folder.new)) }
    // A crash at any moment of the call leaves the logs as they were.
    ensures any_moment { LeavesOnly D.moment D.left_since folder.old folder.new (λ left. (u : FolderView) × D.may_leave folder.old u × HasSameLogs u left) }
    ensures cause { HasCause (D.faults folder.old) (D.faults folder.new) result }
{
    folder.remove_next()?;
    folder.unlink(epoch)?;
    folder.sync()?;
    Ok(())
}
