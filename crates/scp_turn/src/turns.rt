//! What the stages of one node do, step by step.
ghost use Rattle.std.specs.Prelude.{◌≡◌, ◌↔◌, ◌||◌, ◌++◌, ◌∷◌, [], List, true, false};
ghost use Rattle.scp_core.specs.History.{Exchange};
ghost use Rattle.scp_core.specs.Node.{Step};
ghost use Rattle.scp_core.specs.Theorem.{LedgerTheorem};
ghost use Rattle.scp_turn.specs.Watch.{notes, Watched};
ghost use Rattle.scp_turn.specs.Turn.{Goes, IsTurn, IsStill, events_of, reader_events, stage_events};
ghost use Rattle.scp_turn.specs.Rest.{Rests};
ghost use Rattle.scp_turn.specs.inside.Acting.{Acts, IsStage};

use crate::resting::rest;
use crate::watch::{NoWatch, Watch};
use scp_core::below::driver::Application;
use scp_core::below::types::LINK_LIMIT;
use scp_core::{Event, Node, Reply};

/// One event at the node of this number; the watch is shown it before and after.
pub fn step_with<A: Application + Drop + Copy, W: Watch<A>>(
    node: &mut Node<A>,
    number: u8,
    watch: &mut W,
    event: Event,
) -> Reply
    ensures step { Step A.says node.old event result node.new }
    // What holds of a list of events holds of the list with one more.
    ensures theorem { (past : List Exchange) → LedgerTheorem A.says past node.old → LedgerTheorem A.says (past ++ (event, result) ∷ []) node.new }
    ensures noted { notes W.notes_before W.notes_after watch.old number event result node.old node.new watch.new }
{
    watch.before(number, &event, node);
    let reply = node.step(event);
    watch.after(number, &reply, node);
    reply
}

/// Whether one of the two moved something.
pub fn either(first: bool, second: bool) -> bool
    ensures { result ≡ (first || second) }
{
    first || second
}

/// One step of a stage. Returns whether it moved anything.
fn stage<A: Application + Drop + Copy, W: Watch<A>>(
    node: &mut Node<A>,
    number: u8,
    watch: &mut W,
    event: Event,
) -> bool
    requires stage { IsStage event }
    ensures { Acts A.says (notes W.notes_before W.notes_after) number watch.old node.old (event ∷ []) result node.new watch.new }
{
    matches!(step_with(node, number, watch, event), Reply::Moved)
}

/// A step of a stage that takes, and a step that puts. Returns whether anything moved.
fn take_and_put<A: Application + Drop + Copy, W: Watch<A>>(
    node: &mut Node<A>,
    number: u8,
    watch: &mut W,
    take: Event,
    put: Event,
) -> bool
    requires takes { IsStage take }
    requires puts { IsStage put }
    ensures { Acts A.says (notes W.notes_before W.notes_after) number watch.old node.old (take ∷ put ∷ []) result node.new watch.new }
{
    let took = stage(node, number, watch, take);
    let put = stage(node, number, watch, put);
    either(took, put)
}

/// What each link's reader does in a turn, in the order of the links. Returns whether anything moved.
fn read<A: Application + Drop + Copy, W: Watch<A>>(
    node: &mut Node<A>,
    number: u8,
    watch: &mut W,
    links: u8,
) -> bool
    ensures { Acts A.says (notes W.notes_before W.notes_after) number watch.old node.old (reader_events links) result node.new watch.new }
{
    let mut moved = false;
    for link in 0..links {
        let (take, put) = (Event::ReaderTake(link), Event::ReaderPut(link));
        let read = take_and_put(node, number, watch, take, put);
        moved = either(moved, read);
    }
    moved
}

/// What the pending stage and the slot stage do in a turn. Returns whether anything moved.
fn decide<A: Application + Drop + Copy, W: Watch<A>>(
    node: &mut Node<A>,
    number: u8,
    watch: &mut W,
) -> bool
    ensures { Acts A.says (notes W.notes_before W.notes_after) number watch.old node.old (Event.PendTake ∷ Event.PendPut ∷ Event.SlotTake ∷ Event.SlotPut ∷ []) result node.new watch.new }
{
    let has_pended = take_and_put(node, number, watch, Event::PendTake, Event::PendPut);
    let has_decided = take_and_put(node, number, watch, Event::SlotTake, Event::SlotPut);
    either(has_pended, has_decided)
}

/// What the stages after the readers do in a turn: the pending stage, the slot stage and the applier. Returns whether anything moved.
fn pass_on<A: Application + Drop + Copy, W: Watch<A>>(
    node: &mut Node<A>,
    number: u8,
    watch: &mut W,
) -> bool
    ensures { Acts A.says (notes W.notes_before W.notes_after) number watch.old node.old (Event.PendTake ∷ Event.PendPut ∷ Event.SlotTake ∷ Event.SlotPut ∷ Event.ApplyTake ∷ []) result node.new watch.new }
{
    let has_decided = decide(node, number, watch);
    let has_applied = stage(node, number, watch, Event::ApplyTake);
    either(has_decided, has_applied)
}

/// What the stages of the node of this number do in a turn, with a reader for each of this many links: one step each, which the watch is
/// shown. Returns whether anything moved.
pub fn work<A: Application + Drop + Copy, W: Watch<A>>(
    node: &mut Node<A>,
    number: u8,
    watch: &mut W,
    links: u8,
) -> bool
    ensures { Goes A.says node.old node.new (λ a heard b. (events_of heard ≡ stage_events links) × Watched A.says (notes W.notes_before W.notes_after) number watch.old a heard b watch.new × ((result ≡ false) ↔ IsStill heard)) }
{
    let has_read = read(node, number, watch, links);
    let has_passed = pass_on(node, number, watch);
    either(has_read, has_passed)
}

/// A turn of the node of this number: each stage does one step, which the watch is shown. Returns whether anything moved.
pub fn turn_with<A: Application + Drop + Copy, W: Watch<A>>(
    node: &mut Node<A>,
    number: u8,
    watch: &mut W,
) -> bool
    ensures { Goes A.says node.old node.new (λ a heard b. IsTurn a heard b × Watched A.says (notes W.notes_before W.notes_after) number watch.old a heard b watch.new × ((result ≡ false) ↔ IsStill heard)) }
{
    let links = node.peers().len().min(LINK_LIMIT as usize) as u8;
    work(node, number, watch, links)
}

/// A turn of a node: each stage does one step. Returns whether anything moved.
pub fn turn<A: Application + Drop + Copy>(node: &mut Node<A>) -> bool
    ensures { Goes A.says node.old node.new (λ a heard b. IsTurn a heard b × ((result ≡ false) ↔ IsStill heard)) }
{
    turn_with(node, 1, &mut NoWatch)
}

/// Brings a node to rest: turns, until one moves nothing, or 100,000. Returns whether it came to rest.
pub fn settle<A: Application + Drop + Copy>(node: &mut Node<A>) -> bool
    ensures { Goes A.says node.old node.new (Rests A.says result) }
{
    rest(node, &mut NoWatch)
}
