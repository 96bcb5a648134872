//! The steps of one node among several.
ghost use Rattle.std.specs.Prelude.{◌≡◌, ◌<◌, ◌≤◌, ◌+◌, length};
ghost use Rattle.scp_core.specs.scp_types.specs.declared.limits.TheConstants.{NETWORK_LIMIT};
ghost use Rattle.scp_turn.specs.Watch.{notes};
ghost use Rattle.scp_turn.specs.Turn.{stage_events};
ghost use Rattle.scp_turn.specs.Heard.{Noted};
ghost use Rattle.scp_turn.specs.Rounds.{HearsAll};
ghost use Rattle.scp_turn.specs.Network.{IsAnswered};
ghost use Rattle.scp_turn.specs.inside.Carrying.{Acts};

use crate::{Event, KvDriver, Node, Reply, Watch, step_with};

/// One event: the node heard one more exchange, and the watch was shown it.
pub fn hear<W: Watch<KvDriver>>(
    nodes: &mut Vec<Node>,
    watch: &mut W,
    index: usize,
    event: Event,
) -> Reply
    requires few { length nodes.old.items ≤ NETWORK_LIMIT }
    requires index { index < length nodes.old.items }
    ensures { IsAnswered (Noted (notes W.notes_before W.notes_after) watch.old watch.new) nodes.old.items (index + 1) event result nodes.new.items }
{
    step_with(&mut nodes[index], index as u8 + 1, watch, event)
}

/// What the stages of a node with this many links do in its turn. Returns whether anything moved.
pub fn work_at<W: Watch<KvDriver>>(
    nodes: &mut Vec<Node>,
    watch: &mut W,
    index: usize,
    links: u8,
) -> bool
    requires few { length nodes.old.items ≤ NETWORK_LIMIT }
    requires index { index < length nodes.old.items }
    ensures { Acts (Noted (notes W.notes_before W.notes_after) watch.old watch.new) nodes.old.items nodes.new.items (HearsAll (index + 1) (stage_events links)) result }
{
    crate::work(&mut nodes[index], index as u8 + 1, watch, links)
}
