//! What waits in the outboxes goes out.
ghost use Rattle.std.specs.Prelude.{◌≡◌, ◌++◌, [], ◌∷◌, OnOk, IsOkUnless, replicate};
ghost use Rattle.scp_core.specs.declared.event.Event.TheVariants.{Drain};
ghost use Rattle.scp_turn.specs.Watch.{notes};
ghost use Rattle.scp_turn.specs.Turn.{links_of};
ghost use Rattle.scp_turn.specs.Episode.{drains_of, leaving_at};
ghost use Rattle.scp_turn.specs.inside.Draining.{Drained, GoesDraws, OthersStay};

use crate::sending::Sending;
use crate::{Watch, step_with};
use scp_core::below::driver::Application;
use scp_core::below::types::{Fault, LINK_LIMIT};
use scp_core::{Bytes, Event, Node, Reply};

/// Adds what went out over a link.
fn add(sent: &mut Vec<Sending>, link: u8, bytes: Bytes) -> Result<(), Fault>
    ensures added { OnOk result (sent.new.items ≡ sent.old.items ++ record { link = link; bytes = bytes } ∷ []) }
    ensures only_memory { IsOkUnless result Fault.NoMemory }
{
    sent.push(Sending { link, bytes })?;
    Ok(())
}

/// The next message of a link goes out. It is called only if one waits, so any other reply is reported as out of memory.
fn draw<A: Application + Drop + Copy, W: Watch<A>>(
    node: &mut Node<A>,
    link: u8,
    sent: &mut Vec<Sending>,
    watch: &mut W,
) -> Result<(), Fault>
    ensures drawn { GoesDraws A.says (notes W.notes_before W.notes_after) result watch.old node.old node.new (λ heard. Drained (Drain link ∷ []) sent.old.items sent.new.items heard) watch.new }
    ensures others { OnOk result (OthersStay link node.old node.new) }
    ensures runs { OnOk result (node.new.failed ≡ node.old.failed) }
    ensures only_memory { IsOkUnless result Fault.NoMemory }
{
    match step_with(node, 1, watch, Event::Drain(link)) {
        Reply::Sent(bytes) => add(sent, link, bytes),
        _ => Err(Fault::NoMemory),
    }
}

/// This many messages of a link go out.
fn draw_all<A: Application + Drop + Copy, W: Watch<A>>(
    node: &mut Node<A>,
    link: u8,
    count: usize,
    sent: &mut Vec<Sending>,
    watch: &mut W,
) -> Result<(), Fault>
    ensures drawn { GoesDraws A.says (notes W.notes_before W.notes_after) result watch.old node.old node.new (λ heard. Drained (replicate count (Drain link)) sent.old.items sent.new.items heard) watch.new }
    ensures others { OnOk result (OthersStay link node.old node.new) }
    ensures runs { OnOk result (node.new.failed ≡ node.old.failed) }
    ensures only_memory { IsOkUnless result Fault.NoMemory }
{
    for _ in 0..count {
        draw(node, link, sent, watch)?;
    }
    Ok(())
}

/// How many messages of a link go out now.
fn leaving<A: Application + Drop + Copy>(node: &Node<A>, link: u8) -> usize
    ensures { result ≡ leaving_at node.now link }
{
    if node.accepts(link) {
        node.waiting(link)
    } else {
        0
    }
}

/// All that waits for the peer of each open link goes out, link by link; the watch is shown each step.
pub fn drain<A: Application + Drop + Copy, W: Watch<A>>(
    node: &mut Node<A>,
    sent: &mut Vec<Sending>,
    watch: &mut W,
) -> Result<(), Fault>
    ensures drained { GoesDraws A.says (notes W.notes_before W.notes_after) result watch.old node.old node.new (λ heard. Drained (drains_of node.old (links_of node.old)) sent.old.items sent.new.items heard) watch.new }
    ensures runs { OnOk result (node.new.failed ≡ node.old.failed) }
    ensures only_memory { IsOkUnless result Fault.NoMemory }
{
    let links = node.peers().len().min(LINK_LIMIT as usize) as u8;
    for link in 0..links {
        let count = leaving(node, link);
        draw_all(node, link, count, sent, watch)?;
    }
    Ok(())
}
