//! The law of the channel to the applier.
use crate::rule::Law;
use scp_ledger::Onward;

/// Each decision that is sent is for one of the 16 slots from the lowest one, from slot 1 on, without a
/// decision sent before. No decision for its own slot was sent before.
pub struct InWindow;

impl Law<Onward> for InWindow {
    ghost use Rattle.scp_ledger.specs.Onwards.{KeepsWindow};
    ghost use Rattle.scp_ends.specs.Window.{keeps_window-front};

    ghost fits = { KeepsWindow 1 };

    ghost at_first = { tt };

    ghost before = { keeps_window-front };
}
