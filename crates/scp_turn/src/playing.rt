//! An episode.
ghost use Rattle.std.specs.Prelude.{◌≡◌, ◌⊎◌, ◌↔◌, true, false, IfOk, IfErr, OnOk, IsErrOf};
ghost use Rattle.scp_turn.specs.Watch.{notes, Watched};
ghost use Rattle.scp_turn.specs.Turn.{Goes};
ghost use Rattle.scp_turn.specs.Episode.{IsOfHost, IsEpisode, finds_full, sent_in};
ghost use Rattle.scp_turn.specs.inside.Cause.{cause_of as cause_by};
ghost use Rattle.scp_turn.specs.inside.Draining.{GoesFollowed};

use crate::draining::drain;
use crate::resting::rest;
use crate::sending::Sending;
use crate::{NoWatch, Watch, step_with};
use scp_core::below::driver::Application;
use scp_core::below::types::Fault;
use scp_core::{Event, Node, Reply, each_step_says_why_it_failed};
use std::alloc::Global;

/// What came of an event: the reply to it, and what went out.
#[derive(Drop)]
pub struct Played {
    pub reply: Reply,
    pub sent: Vec<Sending>,
}

/// The node comes to rest, and what waits goes out. Refused by `Failed` if a step failed the node.
fn follow<A: Application + Drop + Copy, W: Watch<A>>(
    node: &mut Node<A>,
    sent: &mut Vec<Sending>,
    watch: &mut W,
) -> Result<(), Fault>
    ensures followed { GoesFollowed A.says (notes W.notes_before W.notes_after) result Reply.Accepted watch.old node.old node.new sent.old.items sent.new.items watch.new }
    ensures runs { OnOk result (node.new.failed ≡ false) }
    ensures only { IfErr result (λ f. (f ≡ Fault.NoMemory) ⊎ (f ≡ Fault.Failed)) }
{
    let _calm = rest(node, watch);
    if node.has_failed() {
        return Err(Fault::Failed);
    }
    drain(node, sent, watch)
}

/// What follows after an event with this reply, at a node that ran.
fn follow_on<A: Application + Drop + Copy, W: Watch<A>>(
    node: &mut Node<A>,
    reply: &Reply,
    sent: &mut Vec<Sending>,
    watch: &mut W,
) -> Result<(), Fault>
    requires runs { node.old.failed ≡ false }
    ensures followed { GoesFollowed A.says (notes W.notes_before W.notes_after) result reply.now watch.old node.old node.new sent.old.items sent.new.items watch.new }
    ensures runs { OnOk result (node.new.failed ≡ false) }
    ensures only { IfErr result (λ f. (f ≡ Fault.NoMemory) ⊎ (f ≡ Fault.Failed)) }
{
    match reply {
        Reply::Accepted => follow(node, sent, watch),
        _ => Ok(()),
    }
}

/// Why an event isn't answered, by why its node failed, if it did.
fn cause_of(fault: Option<Fault>) -> Fault
    ensures same { result ≡ cause_by fault }
    ensures only { (result ≡ Fault.NoMemory) ⊎ (result ≡ Fault.JournalFull) }
{
    if matches!(fault, Some(Fault::JournalFull)) {
        Fault::JournalFull
    } else {
        Fault::NoMemory
    }
}

/// Plays the event, and all that follows from it; the watch is shown each step. Refused by `Failed` if the node had failed before, by
/// `JournalFull` if a step found its journal full, and by `NoMemory` if a step was out of memory; each of these two failed it. Refused by
/// `NoMemory` also if there is none for what went out. Then that isn't returned, but the watch was shown it.
pub fn play_with<A: Application + Drop + Copy, W: Watch<A>>(
    alloc: Global,
    node: &mut Node<A>,
    event: Event,
    watch: &mut W,
) -> Result<Played, Fault>
    requires { IsOfHost event }
    // What the node heard is an episode of the event, and what went out is what is returned. Also after a refusal the watch was shown each
    // step, and the ledger theorem goes on holding. It is refused by `JournalFull` exactly if a step found the journal full.
    ensures episode { Goes A.says node.old node.new (λ a heard b. IfOk result (λ played. IsEpisode A.says event played.reply a heard b × (played.sent.items ≡ sent_in heard)) × Watched A.says (notes W.notes_before W.notes_after) 1 watch.old a heard b watch.new × (IsErrOf result Fault.JournalFull ↔ (finds_full heard ≡ true))) }
    // A node that failed isn't reported to have played it.
    ensures runs { OnOk result (node.new.failed ≡ false) }
    ensures failed { IsErrOf result Fault.Failed ↔ (node.old.failed ≡ true) }
    ensures only { IfErr result (λ f. (f ≡ Fault.NoMemory) ⊎ ((f ≡ Fault.JournalFull) ⊎ (f ≡ Fault.Failed))) }
{
    each_step_says_why_it_failed::<A>();
    if node.why_failed().is_some() {
        return Err(Fault::Failed);
    }
    let reply = step_with(node, 1, watch, event);
    let mut sent = Vec::new(alloc);
    match follow_on(node, &reply, &mut sent, watch) {
        Ok(()) => Ok(Played { reply, sent }),
        Err(_) => Err(cause_of(node.why_failed())),
    }
}

/// Plays the event, and all that follows from it. Refused by `Failed` if the node had failed before. Refused by `JournalFull` if a step found
/// the journal full, and by `NoMemory` if a step ran out of memory; each of these failed the node. Also refused by `NoMemory` if there is
/// none for what went out; then that isn't returned.
pub fn play<A: Application + Drop + Copy>(
    alloc: Global,
    node: &mut Node<A>,
    event: Event,
) -> Result<Played, Fault>
    requires { IsOfHost event }
    // What the node heard is an episode of the event, and what went out is what is
    // returned. Also after a refusal the ledger theorem goes on holding.
    ensures episode { Goes A.says node.old node.new (λ a heard b. IfOk result (λ played. IsEpisode A.says event played.reply a heard b × (played.sent.items ≡ sent_in heard)) × (IsErrOf result Fault.JournalFull ↔ (finds_full heard ≡ true))) }
    // A node that failed isn't reported to have played it.
    ensures runs { OnOk result (node.new.failed ≡ false) }
    ensures failed { IsErrOf result Fault.Failed ↔ (node.old.failed ≡ true) }
    ensures only { IfErr result (λ f. (f ≡ Fault.NoMemory) ⊎ ((f ≡ Fault.JournalFull) ⊎ (f ≡ Fault.Failed))) }
{
    play_with(alloc, node, event, &mut NoWatch)
}
