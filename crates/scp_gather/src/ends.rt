//! What the threads of a node left.
ghost use Rattle.std.specs.Prelude.{◌≡◌};
ghost use Rattle.std.specs.List.{list_any};
ghost use Rattle.scp_gather.specs.Report.{first_failed as first_failed_of, first_so, has_failed as failed};

use scp_workers::below::driver::{Application, KvDriver};
use scp_workers::below::ends::{LinkDone, LocalDone};
use scp_workers::below::types::Stage;
use scp_workers::{ApplyEnded, PendEnded, ReaderEnded, SlotEnded};
use std::marker::Model;

/// What the workers of a node ended with: the reader and the sending end of each link, in the order of the node's peers; the ended sending
/// end of its own commands; and its three other stages.
#[derive(Drop)]
pub struct Ends<A: Application + Drop + Copy = KvDriver> {
    pub readers: Vec<ReaderEnded>,
    pub links: Vec<LinkDone>,
    pub local: LocalDone,
    pub pend: PendEnded,
    pub slot: SlotEnded<A>,
    pub apply: ApplyEnded<A>,
}

impl<A: Application + Drop + Copy> Model for Ends<A> {
    ghost use Rattle.std.specs.Coded.{codes};
    ghost use Rattle.scp_workers.specs.scp_xdr.specs.inside.TreeModel.{coded_row};
    ghost use Rattle.scp_workers.specs.scp_quorum.specs.inside.QuorumTree.{coded_level};
    ghost use Rattle.scp_workers.specs.scp_ledger.specs.inside.Coding.{machine_code};
    ghost use Rattle.scp_gather.specs.Left.{Left};

    ghost Value = { Left A };

    ghost coded = { Prim.hlevel (codes, A.code, machine_code A.code, coded_row coded_level) };

    ghost view = { λ e. record { readers = e.readers.items; links = e.links.items; local = e.local; pend = e.pend; slot = e.slot; apply = e.apply } };
}

impl<A: Application + Drop + Copy> Ends<A> {
    /// The first stage, in the order of the pipeline, whose worker failed.
    pub(crate) fn first_failed(&self) -> Option<Stage>
        ensures exact { result ≡ first_failed_of self.now }
    {
        first_failed(
            any_failed(self.readers.as_slice()),
            &self.pend,
            &self.slot,
            &self.apply,
        )
    }
}

/// The first stage, in the order of the pipeline, whose worker failed. Whether a reader failed is passed in.
pub fn first_failed<A: Application + Drop + Copy>(
    reader: bool,
    pend: &PendEnded,
    slot: &SlotEnded<A>,
    apply: &ApplyEnded<A>,
) -> Option<Stage>
    ensures exact { result ≡ first_so reader (failed pend.now) (failed slot.now) (failed apply.now) }
{
    if reader {
        return Some(Stage::Reader);
    }
    if !pend.well() {
        return Some(Stage::Pend);
    }
    if !slot.well() {
        return Some(Stage::Slot);
    }
    if !apply.well() {
        return Some(Stage::Apply);
    }
    None
}

/// Whether the worker of one of the readers failed.
fn any_failed(readers: &[ReaderEnded]) -> bool
    ensures { result ≡ list_any failed readers.now }
{
    readers.iter().any(has_failed)
}

/// Whether the reader's worker failed.
pub fn has_failed(reader: &ReaderEnded) -> bool
    ensures { result ≡ failed reader.now }
{
    !reader.well()
}
