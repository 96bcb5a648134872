//! A node comes to rest, and a watch is shown its steps.
ghost use Rattle.scp_turn.specs.Watch.{notes, Watched};
ghost use Rattle.scp_turn.specs.Turn.{Goes};
ghost use Rattle.scp_turn.specs.Rest.{Rests};

use crate::{Watch, turn_with};
use scp_core::Node;
use scp_core::below::driver::Application;
use scp_core::below::types::ROUND_LIMIT;

/// Brings a node to rest: turns, until one moves nothing, or 100,000; the watch is shown each step. Returns whether it came to rest.
pub fn rest<A: Application + Drop + Copy, W: Watch<A>>(node: &mut Node<A>, watch: &mut W) -> bool
    ensures { Goes A.says node.old node.new (λ a heard b. Rests A.says result a heard b × Watched A.says (notes W.notes_before W.notes_after) 1 watch.old a heard b watch.new) }
{
    for _ in 0..ROUND_LIMIT {
        if !turn_with(node, 1, watch) {
            return true;
        }
    }
    false
}
