//! What was kept of one node, and what came to its slot stage.
ghost use Rattle.std.specs.Prelude.{◌≡◌, map, IfOk};
ghost use Rattle.scp_facts.specs.Taken.{happenings_at as happened_at, ticks};

use crate::happening::{Happening, Kept};
use scp_turn::below::wire::Command;
use std::alloc::{AllocError, Global};

/// What happened at the node of this number, in order. It takes time in proportion to all that was kept. It fails only if it is out of
/// memory.
pub fn happenings_at(
    alloc: Global,
    number: u8,
    kept: &[Kept],
) -> Result<Vec<&Happening>, AllocError>
    ensures { IfOk result (λ found. map (λ h. h.now) found.items ≡ happened_at number kept.now) }
{
    let mut happenings = Vec::new(alloc);
    for one in kept {
        if one.node == number {
            happenings.push(&one.happening)?;
        }
    }
    Ok(happenings)
}

/// The number of ticks that came. No slot stage takes them.
pub fn ticks_of(happenings: &[&Happening]) -> usize
    ensures { result ≡ ticks (map (λ h. h.now) happenings.now) }
{
    let mut count = 0;
    for happening in happenings {
        if matches!(*happening, Happening::Given(Command::Tick)) {
            count += 1;
        }
    }
    count
}
