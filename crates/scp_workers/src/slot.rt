//! The slot stage, which runs the slots.
ghost use Rattle.std.specs.Prelude.{◌≡◌, ◌≤◌, ◌++◌, [], false, Some, OnOk, length, option_to_list};
ghost use Rattle.scp_workers.specs.Slot.{IsFor};
ghost use Rattle.scp_workers.specs.Working.{AreUnused};

use crate::stage::{Given, Outs, Stage};
use crate::worker::{Ended, Worker};
use scp_ends::{Any, DecidedTx, InWindow, ReadyRx, Stage as Place};
use scp_shared_outbox::Putter;
use scp_theorem::below::driver::{Driver, KvDriver};
use scp_theorem::below::ledger::{
    CommandFate, Ledger, Onward, Took, what_holds_of_a_ledger_holds_with_one_thing_more,
    what_is_given_on_keeps_the_window,
};
use scp_theorem::below::pending::Ready;
use scp_theorem::below::quorum::SaneSet;
use scp_theorem::below::types::NodeId;
use std::alloc::{AllocError, Global};
use std::sync::Arc;

/// The ledger, and what became of each command that it took, in order.
#[derive(Drop)]
pub struct SlotStage<D: Driver + Drop + Copy = KvDriver> {
    pub ledger: Ledger<D>,
    pub fates: Vec<CommandFate>,
}

/// The worker of the slot stage.
pub type SlotWorker<D = KvDriver> = Worker<Ready, Any, Onward, InWindow, SlotStage<D>>;

/// What it ends with.
pub type SlotEnded<D = KvDriver> = Ended<Ready, Any, Onward, InWindow, SlotStage<D>>;

/// Keeps what became of a command, if it was one.
fn keep(fates: &mut Vec<CommandFate>, fate: Option<CommandFate>) -> Result<(), AllocError>
    ensures { OnOk result (fates.new.items ≡ fates.old.items ++ option_to_list fate) }
{
    if let Some(fate) = fate {
        fates.push(fate)?;
    }
    Ok(())
}

impl<D: Driver + Drop + Copy> Stage<Ready, Any, Onward, InWindow> for SlotStage<D> {
    ghost use Rattle.scp_workers.specs.Slot.{JournalsFrom, HasNoneLeft};

    ghost runs = { JournalsFrom D.says };

    ghost rests = { HasNoneLeft };

    /// Takes a thing into the ledger, keeps what became of it if it is a command, and hands out what goes to peers.
    fn take(&mut self, ready: Ready) -> Option<Given<Onward>> {
        what_holds_of_a_ledger_holds_with_one_thing_more::<D>();
        what_is_given_on_keeps_the_window::<D>();
        let Ok(took) = self.ledger.take(ready) else {
            return None;
        };
        let Took {
            command,
            onward,
            outgoing,
            ..
        } = took;
        match keep(&mut self.fates, command) {
            Ok(()) => Some(Given {
                onward,
                outs: Outs::All(outgoing),
            }),
            Err(_) => None,
        }
    }

    /// Gives nothing more: what comes of a thing is given when it is taken.
    fn give(&mut self) -> Option<Onward> {
        None
    }
}

/// The worker of this node's slot stage, between the pending stage and the applier. Nothing went through either end yet. `peers[l]` is the
/// sender of link l; `outlets[l]` is an end of link l's outbox that put nothing yet. `local` is the node's own quorum set. Takes no memory.
pub fn slots<D: Driver + Drop + Copy>(
    alloc: Global,
    node: NodeId,
    local: Arc<SaneSet>,
    driver: D,
    peers: Vec<NodeId>,
    outlets: Vec<Putter>,
    rx: ReadyRx,
    tx: DecidedTx,
) -> SlotWorker<D>
    requires few { length peers.items ≤ 255 }
    requires unused { (rx.got ≡ []) × (tx.sent ≡ []) }
    requires outlets { AreUnused outlets.items }
    requires one { rx.producers ≡ 1 }
    ensures ends { (result.input ≡ rx) × (result.output ≡ Some tx) }
    ensures outlets { result.outlets ≡ outlets.items }
    ensures stage { IsFor node peers.items local.value result.first.ledger }
    ensures works { (result.failed ≡ false) × (result.cut_off ≡ false) }
{
    what_holds_of_a_ledger_holds_with_one_thing_more::<D>();
    let stage = SlotStage {
        ledger: Ledger::new(alloc, node, local, driver, peers, 0),
        fates: Vec::new(alloc),
    };
    Worker::new(node, Place::Slot, stage, outlets, rx, 1, Some(tx))
}
