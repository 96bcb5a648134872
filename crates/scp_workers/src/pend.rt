//! The pending stage, where messages wait for their quorum sets.
ghost use Rattle.std.specs.Prelude.{◌≡◌, ◌≤◌, [], false, Some, length};
ghost use Rattle.scp_theorem.specs.scp_types.specs.declared.limits.TheConstants.{NODE_LIMIT, PEER_LIMIT};
ghost use Rattle.scp_workers.specs.Pending.{IsFor};
ghost use Rattle.scp_workers.specs.Working.{AreUnused};

use crate::handing::answered;
use crate::stage::{Given, Stage};
use crate::worker::{Ended, Worker};
use scp_ends::{Any, InboxRx, ReadyTx, Stage as Place};
use scp_shared_outbox::Putter;
use scp_theorem::below::pending::{Pending, Ready, who_it_is_stays};
use scp_theorem::below::quorum::SaneSet;
use scp_theorem::below::types::NodeId;
use scp_theorem::below::wire::Inbound;
use std::alloc::Global;
use std::sync::Arc;

/// The worker of the pending stage.
pub type PendWorker = Worker<Inbound, Any, Ready, Any, Pending>;

/// What it ends with.
pub type PendEnded = Ended<Inbound, Any, Ready, Any, Pending>;

impl Stage<Inbound, Any, Ready, Any> for Pending {
    ghost use Rattle.scp_workers.specs.Pending.{PendsFrom, HasNothingReady};

    ghost runs = { PendsFrom };

    ghost rests = { HasNothingReady };

    /// Takes an item, and hands out its answer.
    fn take(&mut self, item: Inbound) -> Option<Given<Ready>> {
        who_it_is_stays();
        match Pending::take(self, item) {
            Ok(answer) => Some(Given {
                onward: None,
                outs: answered(answer),
            }),
            Err(_) => None,
        }
    }

    /// The next ready thing, if there is one.
    fn give(&mut self) -> Option<Ready> {
        self.next_ready()
    }
}

/// The worker of this node's pending stage, between its inbox, with this many producers, and the slot stage. Nothing went through
/// either yet. `peers[l]` is the sender of link l, and `outlets[l]` is an end of link l's outbox through which nothing was put
/// yet. `local` is the node's own quorum set. Takes no memory.
pub fn pending(
    alloc: Global,
    node: NodeId,
    peers: Vec<NodeId>,
    local: Arc<SaneSet>,
    outlets: Vec<Putter>,
    rx: InboxRx,
    producers: u8,
    tx: ReadyTx,
) -> PendWorker
    requires few { length peers.items ≤ PEER_LIMIT }
    requires unused { (rx.got ≡ []) × (tx.sent ≡ []) }
    requires outlets { AreUnused outlets.items }
    requires producers { (rx.producers ≡ producers) × (producers ≤ NODE_LIMIT) }
    ensures ends { (result.input ≡ rx) × (result.output ≡ Some tx) }
    ensures outlets { result.outlets ≡ outlets.items }
    ensures stage { IsFor node peers.items local.value result.first }
    ensures works { (result.failed ≡ false) × (result.cut_off ≡ false) }
{
    let stage = Pending::new(alloc, node, peers, local);
    Worker::new(node, Place::Pend, stage, outlets, rx, producers, Some(tx))
}
