//! Laws of a switch.
ghost use Rattle.scp_live_folder.specs.Epochs.{FindsOneEpoch};

/// Whatever a crash leaves of a switch, a start finds the old epoch or the next one, whole.
pub fn a_start_finds_one_epoch()
    ensures { FindsOneEpoch }
{}
