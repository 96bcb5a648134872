//! The four channels of a node.
ghost use Rattle.std.specs.Prelude.{◌≡◌, ◌↔◌, ◌⊎◌, [], length, IfOk, IfErr, IsErrOf};
ghost use Rattle.scp_ends.specs.Ends.{fresh, AreFresh, IsOfSize};
ghost use Rattle.scp_ends.specs.Links.{new_link};

use crate::ends::{Done, Rx, Tx};
use crate::make::{channel, lone_channel};
use crate::rule::Any;
use crate::tail::LinkTx;
use crate::window::InWindow;
use scp_ledger::Onward;
use scp_ledger::below::pending::Ready;
use scp_ledger::below::types::{Fault, NodeId};
use scp_ledger::below::wire::{Inbound, LinkItem};
use std::alloc::Global;

/// The receiving end of a link.
pub type LinkRx = Rx<LinkItem, Any>;

/// An end of an inbox for one of its producers.
pub type InboxTx = Tx<Inbound, Any>;

/// The receiving end of an inbox.
pub type InboxRx = Rx<Inbound, Any>;

/// The sending end from the pending stage to the slot stage.
pub type ReadyTx = Tx<Ready, Any>;

/// The receiving end from the pending stage to the slot stage.
pub type ReadyRx = Rx<Ready, Any>;

/// The sending end from the slot stage to the applier.
pub type DecidedTx = Tx<Onward, InWindow>;

/// The receiving end from the slot stage to the applier.
pub type DecidedRx = Rx<Onward, InWindow>;

/// The ends of the link from one node to another. Its capacity is 1 to 1,024 items; any other is refused by `Fault::BadConfig`.
pub fn link(
    alloc: Global,
    from: NodeId,
    to: NodeId,
    capacity: usize,
) -> Result<(LinkTx, LinkRx), Fault>
    ensures ends { IfOk result (λ r. (r.0 ≡ new_link from to r.1.line) × (r.1 ≡ record { line = r.1.line; producers = 1; room = capacity; got = [] })) }
    ensures bad_config { IsErrOf result Fault.BadConfig ↔ (IsOfSize 1 capacity → ⊥) }
    ensures only { IfErr result (λ f. (f ≡ Fault.NoMemory) ⊎ (f ≡ Fault.BadConfig)) }
{
    let (tail, rx) = lone_channel::<LinkItem, Any>(alloc, capacity)?;
    Ok((LinkTx::made(from, to, tail), rx))
}

/// The ends of an inbox of 1 to 8 producers and 1 to 1,024 items; any other number is refused by `Fault::BadConfig`.
pub fn inbox(
    alloc: Global,
    producers: u8,
    capacity: usize,
) -> Result<(Vec<InboxTx>, InboxRx), Fault>
    ensures ends { IfOk result (λ r. AreFresh r.1.line r.0.items × (length r.0.items ≡ producers) × (r.1 ≡ record { line = r.1.line; producers = producers; room = capacity; got = [] })) }
    ensures bad_config { IsErrOf result Fault.BadConfig ↔ (IsOfSize producers capacity → ⊥) }
    ensures only { IfErr result (λ f. (f ≡ Fault.NoMemory) ⊎ (f ≡ Fault.BadConfig)) }
{
    channel(alloc, producers, capacity)
}

/// The ends of the channel from the pending stage to the slot stage, of 1 to 1,024 items; any other capacity is refused by `Fault::BadConfig`.
pub fn ready(alloc: Global, capacity: usize) -> Result<(ReadyTx, ReadyRx), Fault>
    ensures ends { IfOk result (λ r. (r.0 ≡ fresh r.1.line 0) × (r.1 ≡ record { line = r.1.line; producers = 1; room = capacity; got = [] })) }
    ensures bad_config { IsErrOf result Fault.BadConfig ↔ (IsOfSize 1 capacity → ⊥) }
    ensures only { IfErr result (λ f. (f ≡ Fault.NoMemory) ⊎ (f ≡ Fault.BadConfig)) }
{
    lone_channel(alloc, capacity)
}

/// The ends of the channel from the slot stage to the applier, of 1 to 1,024 items; any other capacity is refused by `Fault::BadConfig`.
pub fn decided(alloc: Global, capacity: usize) -> Result<(DecidedTx, DecidedRx), Fault>
    ensures ends { IfOk result (λ r. (r.0 ≡ fresh r.1.line 0) × (r.1 ≡ record { line = r.1.line; producers = 1; room = capacity; got = [] })) }
    ensures bad_config { IsErrOf result Fault.BadConfig ↔ (IsOfSize 1 capacity → ⊥) }
    ensures only { IfErr result (λ f. (f ≡ Fault.NoMemory) ⊎ (f ≡ Fault.BadConfig)) }
{
    lone_channel(alloc, capacity)
}
