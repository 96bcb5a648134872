//! Starting the workers of a node, each in a thread of its own.
ghost use Rattle.std.specs.Prelude.{◌≡◌, [], IfOk, IsOkUnless};
ghost use Rattle.scp_gather.specs.scp_workers.specs.Working.{Holds};
ghost use Rattle.scp_gather.specs.scp_workers.specs.Carrying as carrying;

use scp_gather::below::apply::Applier;
use scp_gather::below::driver::KvDriver;
use scp_gather::below::ends::{Any, Gate, InWindow, Law};
use scp_gather::below::ledger::Onward;
use scp_gather::below::pending::{Pending, Ready};
use scp_gather::below::shared_outbox::ends_cross_threads;
use scp_gather::below::types::Fault;
use scp_gather::below::wire::{Inbound, LinkItem};
use scp_gather::below::workers::{
    Courier, CourierEnded, Ended, Nothing, ReadingStage, SlotStage, Stage, Worker,
};
use std::snapshot::Snapshot;
use std::sync::Wait;
use std::thread::{Promise, PromisedHandle, Scope, Threads};

/// A worker's thread ends with the channel ends and the stage that its worker was given.
#[derive(Drop)]
pub struct HoldsEnds<T: Drop, L: Law<T>, U: Drop, M: Law<U>, S: Stage<T, L, U, M>>(
    Snapshot<Worker<T, L, U, M, S>>,
);

impl<T: Drop, L: Law<T>, U: Drop, M: Law<U>, S: Stage<T, L, U, M>> Promise<Ended<T, L, U, M, S>>
    for HoldsEnds<T, L, U, M, S> {
    ghost use Rattle.scp_gather.specs.scp_workers.specs.Working.{Holds};

    ghost kept_by = { λ p e. Holds p.0.value e };
}

/// The same for a courier: it ends with its link and its outbox end.
#[derive(Drop)]
pub struct HoldsCourier(Snapshot<Courier>);

impl Promise<CourierEnded> for HoldsCourier {
    ghost use Rattle.scp_gather.specs.scp_workers.specs.Carrying as carrying;

    ghost kept_by = { λ p e. carrying.Holds p.0.value e };
}

pub type WorkerThread<T, L, U, M, S> = PromisedHandle<
    Ended<T, L, U, M, S>,
    HoldsEnds<T, L, U, M, S>,
>;

pub type ReaderThread = WorkerThread<LinkItem, Any, Inbound, Any, ReadingStage>;

pub type PendThread = WorkerThread<Inbound, Any, Ready, Any, Pending>;

pub type SlotThread<A = KvDriver> = WorkerThread<Ready, Any, Onward, InWindow, SlotStage<A>>;

pub type ApplyThread<A = KvDriver> = WorkerThread<Onward, InWindow, Nothing, Any, Applier<A>>;

pub type CourierThread = PromisedHandle<CourierEnded, HoldsCourier>;

/// Starts a worker in a thread. If no thread can be made, the worker is dropped with its ends, and the fault is `NoMemory`.
pub fn start_worker<
    's,
    E,
    R: Threads + Wait + Sync,
    G: Gate + Sync,
    T: Drop + Send + 's,
    L: Law<T> + Send + 's,
    U: Drop + Send + 's,
    M: Law<U> + Send + 's,
    S: Stage<T, L, U, M> + Send + 's,
>(
    scope: &Scope<'s, E>,
    rt: &'s R,
    gate: &'s G,
    worker: Worker<T, L, U, M, S>,
) -> Result<WorkerThread<T, L, U, M, S>, Fault>
    ensures worker { IfOk result (λ h. h.promise.0.value ≡ worker) }
    ensures only_memory { IsOkUnless result Fault.NoMemory }
{
    ends_cross_threads();
    let promise = HoldsEnds(Snapshot::of(&worker));
    match scope.spawn_with(
        promise,
        move || -> Ended<T, L, U, M, S>
            ensures { Holds worker result }
        { worker.run(rt, gate) },
    ) {
        Ok(handle) => Ok(handle),
        Err(_) => Err(Fault::NoMemory),
    }
}

/// Starts a courier, which carries an outbox to a link, in a thread. The only refusal is `NoMemory`.
pub fn start_courier<'s, E, R: Threads + Wait + Sync, G: Gate + Sync>(
    scope: &Scope<'s, E>,
    rt: &'s R,
    gate: &'s G,
    worker: Courier,
) -> Result<CourierThread, Fault>
    requires unused { worker.taker.gave ≡ [] }
    ensures worker { IfOk result (λ h. h.promise.0.value ≡ worker) }
    ensures only_memory { IsOkUnless result Fault.NoMemory }
{
    ends_cross_threads();
    let promise = HoldsCourier(Snapshot::of(&worker));
    match scope.spawn_with(
        promise,
        move || -> CourierEnded
            requires { worker.taker.gave ≡ [] }
            ensures { carrying.Holds worker result }
        { worker.run(rt, gate) },
    ) {
        Ok(handle) => Ok(handle),
        Err(_) => Err(Fault::NoMemory),
    }
}
