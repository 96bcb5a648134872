//! A log that keeps nothing.
ghost use Rattle.std.specs.Prelude.{false};

use scp_again::below::types::Fault;
use scp_live_log::EventLog;
use std::alloc::Global;

/// A log that keeps nothing, for a node without a log file. All that the node received is lost when its process ends.
#[derive(Drop)]
pub struct NoLog;

impl EventLog for NoLog {
    ghost holds = { λ _ _. ⊥ };

    ghost may_leave = { λ _ _. ⊥ };

    ghost moment = { λ _. 0 };

    ghost left_since = { λ _ _ _. ⊥ };

    ghost faults = { λ _. 0 };

    ghost moved = { λ _. false };

    ghost counts_now = { λ _ _ _ _ left. left };

    ghost only_now = { λ _ _ left. left };

    fn was_moved(&self) -> bool {
        false
    }

    fn tell_torn(&self, _bytes: usize, _entries: usize) {}

    fn read(&mut self, alloc: Global) -> Result<Vec<u8>, Fault> {
        Ok(Vec::new(alloc))
    }

    fn append(&mut self, _bytes: &[u8]) -> Result<(), Fault> {
        Ok(())
    }

    fn cut(&mut self, _length: usize) -> Result<(), Fault> {
        Ok(())
    }

    fn sync(&mut self) -> Result<(), Fault> {
        Ok(())
    }

    fn replace(&mut self, _bytes: &[u8]) -> Result<(), Fault> {
        Ok(())
    }
}
