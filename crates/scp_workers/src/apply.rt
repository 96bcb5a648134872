//! The applier as a worker's stage.
ghost use Rattle.std.specs.Prelude.{◌≡◌, [], false, None};
ghost use Rattle.scp_workers.specs.Working.{AreUnused};

use crate::handing::answered;
use crate::stage::{Given, Stage};
use crate::worker::{Ended, Worker};
use scp_ends::{Any, DecidedRx, InWindow, Stage as Place};
use scp_shared_outbox::Putter;
use scp_theorem::below::apply::{Applier, what_holds_of_an_applier_holds_with_one_thing_more};
use scp_theorem::below::driver::{Application, KvDriver};
use scp_theorem::below::ledger::Onward;
use scp_theorem::below::types::NodeId;
use std::alloc::Global;

/// What the last stage gives on: there is no such thing.
#[derive(Drop)]
pub enum Nothing {}

/// The worker of the applier.
pub type ApplyWorker<A = KvDriver> = Worker<Onward, InWindow, Nothing, Any, Applier<A>>;

/// What it ends with.
pub type ApplyEnded<A = KvDriver> = Ended<Onward, InWindow, Nothing, Any, Applier<A>>;

impl<A: Application> Stage<Onward, InWindow, Nothing, Any> for Applier<A> {
    ghost use Rattle.scp_workers.specs.Apply.{AppliesFrom, GivesNothing};

    ghost runs = { AppliesFrom };

    ghost rests = { GivesNothing };

    /// Takes a thing, and hands out its answer.
    fn take(&mut self, onward: Onward) -> Option<Given<Nothing>> {
        what_holds_of_an_applier_holds_with_one_thing_more();
        match Applier::take(self, onward) {
            Ok(answer) => Some(Given {
                onward: None,
                outs: answered(answer),
            }),
            Err(_) => None,
        }
    }

    /// Gives nothing: always `None`.
    fn give(&mut self) -> Option<Nothing> {
        None
    }
}

/// The worker of this node's applier, behind the slot stage. Its receiving end has received nothing yet, and `outlets[l]` is an end of link
/// l's outbox through which nothing was put yet. Takes no memory.
pub fn applier<A: Application>(
    alloc: Global,
    node: NodeId,
    outlets: Vec<Putter>,
    rx: DecidedRx,
) -> ApplyWorker<A>
    requires unused { rx.got ≡ [] }
    requires outlets { AreUnused outlets.items }
    requires one { rx.producers ≡ 1 }
    ensures ends { (result.input ≡ rx) × (result.output ≡ None) }
    ensures outlets { result.outlets ≡ outlets.items }
    ensures works { (result.failed ≡ false) × (result.cut_off ≡ false) }
{
    what_holds_of_an_applier_holds_with_one_thing_more();
    Worker::new(
        node,
        Place::Apply,
        Applier::new(alloc, 0),
        outlets,
        rx,
        1,
        None,
    )
}
