//! The slot stage of a node: what its ledger hands out is put into the outboxes.
ghost use Rattle.std.specs.Prelude.{◌≡◌, ◌+◌, ◌↔◌, ◌≤◌, [], true, false, length, take, IfOk, OnErr, IsErrOf};
ghost use Rattle.scp_theorem.specs.scp_ledger.specs.Ledger.{IsLedger};
ghost use Rattle.scp_theorem.specs.scp_ledger.specs.Takes.{adds_entry};
ghost use Rattle.scp_theorem.specs.scp_ledger.specs.By.{RunsBy};
ghost use Rattle.scp_theorem.specs.scp_ledger.specs.Runs.{nothing_taken};
ghost use Rattle.scp_core.specs.inside.Stage.{TakesOut};

use crate::handing::hand_out_all;
use crate::said::SaidList;
use scp_theorem::below::driver::Application;
use scp_theorem::below::ledger::{
    CommandFate, Fate, JOURNAL_LIMIT, Ledger, Onward, SharedDecision,
    what_holds_of_a_ledger_holds_with_one_thing_more,
};
use scp_theorem::below::outbox::Outboxes;
use scp_theorem::below::pending::Ready;
use scp_theorem::below::quorum::SaneSet;
use scp_theorem::below::types::{Fault, NodeId};
use std::alloc::Global;
use std::marker::Model;
use std::sync::Arc;

/// What the stage gives for a thing: what goes on to the applier, what became of a command, and the own statements for all peers.
#[derive(Drop)]
pub struct Given {
    pub onward: Option<Onward>,
    pub command: Option<CommandFate>,
    pub said: SaidList,
}

/// How much of a ledger's lists is shown.
#[derive(Clone, Copy)]
pub struct Shown {
    pub journal: usize,
    pub decisions: usize,
}

/// A ledger. If a copy of what goes to all peers is refused after the ledger took its thing,
/// the stage has failed, and shows the lists as they were before.
#[derive(Drop)]
pub struct SlotStage<A: Application + Drop + Copy> {
    ledger: Ledger<A>,
    cut: Option<Shown>,
}

impl<A: Application + Drop + Copy> Model for SlotStage<A> {
    ghost use Rattle.std.specs.Coded.{codes};
    ghost use Rattle.scp_theorem.specs.scp_xdr.specs.inside.TreeModel.{coded_row};
    ghost use Rattle.scp_theorem.specs.scp_quorum.specs.inside.QuorumTree.{coded_level};
    ghost use Rattle.scp_theorem.specs.scp_ledger.specs.inside.Coding.{machine_code};
    ghost use Rattle.scp_theorem.specs.scp_ledger.specs.Seen.{LedgerView};
    ghost use Rattle.scp_core.specs.inside.Stage.{shown};

    ghost Value = { LedgerView A };

    ghost coded = { Prim.hlevel (codes, A.code, machine_code A.code, coded_row coded_level) };

    ghost view = { λ a. shown a.cut a.ledger };
}

impl<A: Application + Drop + Copy> SlotStage<A> {
    /// A slot stage that took nothing. Its first slot is the one after `before`.
    pub fn new(
        alloc: Global,
        me: NodeId,
        set: Arc<SaneSet>,
        application: A,
        peers: Vec<NodeId>,
        before: u32,
    ) -> SlotStage<A>
        requires few { length peers.items ≤ 255 }
        ensures new { result ≡ nothing_taken me set.value application peers.items (before + 1) }
        ensures known { IsLedger result }
        ensures running { RunsBy A.says result }
    {
        SlotStage {
            ledger: Ledger::new(alloc, me, set, application, peers, before),
            cut: None,
        }
    }

    /// The ledger. If the stage failed, its lists may be longer than those that are shown.
    #[tactic(auto, using(crate::proofs::Cutting::shown_same))]
    pub fn ledger(&self) -> &Ledger<A>
        ensures { self.now.failed ≡ false → result.now ≡ self.now }
    {
        &self.ledger
    }

    pub fn journal(&self) -> &[Fate]
        ensures { result.now ≡ self.now.journal }
    {
        match self.cut {
            Some(cut) => first(self.ledger.journal(), cut.journal),
            None => self.ledger.journal(),
        }
    }

    pub fn decisions(&self) -> &[SharedDecision]
        ensures { result.now ≡ self.now.decisions }
    {
        match self.cut {
            Some(cut) => first(self.ledger.decisions(), cut.decisions),
            None => self.ledger.decisions(),
        }
    }

    /// Takes a ready thing, puts what goes out to peers into the outboxes, and gives the rest of what comes of it.
    pub fn take(&mut self, ready: Ready, outboxes: &mut Outboxes) -> Result<Given, Fault>
        requires runs { self.old.failed ≡ false }
        ensures takes { IfOk result (λ given. TakesOut A.says self.old outboxes.old ready given self.new outboxes.new) }
        ensures full { IsErrOf result Fault.JournalFull ↔ ((adds_entry ready ≡ true) × (length self.old.journal ≡ JOURNAL_LIMIT)) }
        ensures read { OnErr result ((self.new.journal ≡ self.old.journal) × (self.new.decisions ≡ self.old.decisions) × (self.new.asked ≡ self.old.asked)) }
    {
        what_holds_of_a_ledger_holds_with_one_thing_more::<A>();
        let journal = self.ledger.journal().len();
        let decisions = self.ledger.decisions().len();
        let took = match self.ledger.take(ready) {
            Ok(took) => took,
            Err(fault) => return Err(fault),
        };
        let Ok(said) = hand_out_all(outboxes, took.outgoing) else {
            self.cut = Some(Shown { journal, decisions });
            return Err(Fault::NoMemory);
        };
        Ok(Given {
            onward: took.onward,
            command: took.command,
            said,
        })
    }
}

/// The first elements of a list, this many, or all if there are fewer.
fn first<T>(list: &[T], count: usize) -> &[T]
    ensures { result.now ≡ take count list.now }
{
    match list.get(..count) {
        Some(part) => part,
        None => list,
    }
}
