//! Steps of the log. Each is on the disk once it has succeeded.
ghost use Rattle.std.specs.Prelude.{◌≡◌, ◌≤◌, ◌++◌, ◌⊎◌, ℕ, List, length, take, OnOk, IfErr, IsErrOf};
ghost use Rattle.scp_device.specs.Device.{Fails};
ghost use Rattle.scp_live_log.specs.Disk.{StartsWith, Only, LeavesOnly};

use crate::disk::EventLog;
use scp_device::below::types::Fault;

/// Adds bytes at the end and syncs them to the disk. If every crash before the call left a file with this front, so does a crash at any
/// moment of the call.
pub fn add<L: EventLog>(log: &mut L, bytes: &[u8]) -> Result<(), Fault>
    ensures added { OnOk result ((c : List ℕ) → L.holds log.old c → L.holds log.new (c ++ bytes.now) × Only (c ++ bytes.now) (L.may_leave log.new)) }
    ensures any_moment { (front : List ℕ) → ((c : List ℕ) → L.may_leave log.old c → StartsWith front c) → LeavesOnly L.moment L.left_since log.old log.new (StartsWith front) }
    ensures failed { IsErrOf result Fault.Device → Fails (L.faults log.old) (L.faults log.new) }
    ensures quiet { (IsErrOf result Fault.Device → ⊥) → L.faults log.new ≡ L.faults log.old }
    ensures only { IfErr result (λ fault. (fault ≡ Fault.Device) ⊎ (fault ≡ Fault.NoMemory)) }
{
    log.append(bytes)?;
    log.sync()?;
    Ok(())
}

/// Cuts the file to a length and syncs the cut to the disk. If every crash before the call left a file with this front, and the cut
/// spares it, so does a crash at any moment of the call.
pub fn cut_to<L: EventLog>(log: &mut L, end: usize) -> Result<(), Fault>
    ensures cut { OnOk result ((c : List ℕ) → L.holds log.old c → L.holds log.new (take end c) × Only (take end c) (L.may_leave log.new)) }
    ensures any_moment { (front : List ℕ) → length front ≤ end → ((c : List ℕ) → L.may_leave log.old c → StartsWith front c) → LeavesOnly L.moment L.left_since log.old log.new (StartsWith front) }
    ensures failed { IsErrOf result Fault.Device → Fails (L.faults log.old) (L.faults log.new) }
    ensures quiet { (IsErrOf result Fault.Device → ⊥) → L.faults log.new ≡ L.faults log.old }
    ensures only { IfErr result (λ fault. (fault ≡ Fault.Device) ⊎ (fault ≡ Fault.NoMemory)) }
{
    log.cut(end)?;
    log.sync()?;
    Ok(())
}
