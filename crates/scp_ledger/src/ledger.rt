//! A ledger.
ghost use Rattle.std.specs.Prelude.{◌≡◌, ◌↔◌, ◌≤◌, ◌⊎◌, ◌+◌, ◌++◌, [], true, false, length, All, OnOk, OnErr, IfOk, IfErr, IsErrOf, option_copied};
ghost use Rattle.scp_slot.specs.scp_types.specs.declared.names.ConnId.{ConnId};
ghost use Rattle.scp_pending.specs.Line.{ready_mark};
ghost use Rattle.scp_ledger.specs.Fitting.{FitsOut};
ghost use Rattle.scp_ledger.specs.Ledger.{IsLedger, IsRunning};
ghost use Rattle.scp_ledger.specs.Marks.{marks_of};
ghost use Rattle.scp_ledger.specs.Seen.{machine_at, is_asked};
ghost use Rattle.scp_ledger.specs.Takes.{Takes, adds_entry};
ghost use Rattle.scp_ledger.specs.CommandFates.{TellsFate};

use crate::journal::{Fate, JOURNAL_LIMIT};
use crate::shared::SharedDecision;
use crate::state::State;
use crate::took::Took;
use scp_pending::Ready;
use scp_slot::SlotMachine;
use scp_slot::below::driver::Driver;
use scp_slot::below::quorum::SaneSet;
use scp_slot::below::types::{Fault, NodeId, Slot};
use std::alloc::Global;
use std::marker::Model;
use std::sync::Arc;

/// The slot stage of a node: the journal and the decisions, which grow only at their ends, and at most 16 machines, one for each undecided
/// slot that had an input. Machines check and combine values by the driver.
#[derive(Drop)]
pub struct Ledger<D: Driver + Drop + Copy> {
    state: State<D>,
    failed: bool,
}

impl<D: Driver + Drop + Copy> Model for Ledger<D> {
    ghost use Rattle.std.specs.Coded.{codes};
    ghost use Rattle.scp_slot.specs.scp_xdr.specs.inside.TreeModel.{coded_row};
    ghost use Rattle.scp_slot.specs.scp_quorum.specs.inside.QuorumTree.{coded_level};
    ghost use Rattle.scp_ledger.specs.Seen.{LedgerView};
    ghost use Rattle.scp_ledger.specs.inside.Coding.{machine_code};

    ghost Value = { LedgerView D };

    ghost coded = { Prim.hlevel (codes, D.code, machine_code D.code, coded_row coded_level) };

    ghost use Rattle.scp_ledger.specs.inside.State.{ledger_view, IsWell};

    ghost view = { ledger_view };

    ghost invariant = { IsWell D.says.level D.says.place };
}

impl<D: Driver + Drop + Copy> Ledger<D> {
    /// An empty ledger of the node `me`, whose own quorum set is `local`. `peers[l]` is the
    /// sender of link l; a link's number is a byte. Its first slot is the one after `before`, so 0
    /// is given for slot 1. Takes no memory.
    pub fn new(
        alloc: Global,
        me: NodeId,
        local: Arc<SaneSet>,
        driver: D,
        peers: Vec<NodeId>,
        before: u32,
    ) -> Ledger<D>
        requires few { length peers.items ≤ 255 }
        ensures empty { result ≡ record { me = me; local = local.value; driver = driver; peers = peers.items; first = before + 1; failed = false; journal = []; decisions = []; lowest = before + 1; asked = []; machines = [] } }
        ensures known { IsLedger result }
        ensures running { IsRunning D.says.level D.says.place result }
    {
        Ledger {
            state: State::new(alloc, me, local, driver, peers, before),
            failed: false,
        }
    }

    /// The journal's entries, in the order in which they were made.
    pub fn journal(&self) -> &[Fate]
        ensures same { result.now ≡ self.now.journal }
        ensures known { IsLedger self.now }
    {
        self.state.journal.as_slice()
    }

    /// The decisions, in the order in which they were made.
    pub fn decisions(&self) -> &[SharedDecision]
        ensures same { result.now ≡ self.now.decisions }
        ensures known { IsLedger self.now }
    {
        self.state.decisions.as_slice()
    }

    /// The slot that it began with.
    pub fn first(&self) -> u64
        ensures { result ≡ self.now.first }
    {
        self.state.before as u64 + 1
    }

    /// The lowest slot from the first one on that has no decision. It says nothing if the ledger failed.
    pub fn lowest(&self) -> u64
        ensures same { result ≡ self.now.lowest }
        ensures running { self.now.failed ≡ false → IsRunning D.says.level D.says.place self.now }
    {
        self.state.window.lowest
    }

    /// Who the node is.
    pub fn me(&self) -> NodeId
        ensures { result ≡ self.now.me }
    {
        self.state.me
    }

    /// The machine of this slot, if there is one: an undecided slot has one once it had an input.
    pub fn machine(&self, slot: Slot) -> Option<&SlotMachine<D>>
        ensures { option_copied result ≡ machine_at self.now.machines slot.0 }
    {
        self.state.machines.get(&slot.0)
    }

    /// Whether the link was asked for the record of a slot.
    pub fn was_asked(&self, link: u8, slot: Slot) -> bool
        ensures { result ≡ is_asked self.now.asked (record { link = link; slot = slot }) }
    {
        self.state.was_asked(link, slot)
    }

    /// The journal alone, when nothing more will be taken. Takes no memory.
    pub fn into_journal(self) -> Vec<Fate>
        ensures same { result.items ≡ self.journal }
    {
        let Ledger { state, failed: _ } = self;
        let State { journal, .. } = state;
        journal
    }

    /// Takes one thing. It adds the entry, with the verdict on a message, runs the machine of an open
    /// slot, and returns what goes on to the applier and out to peers.
    /// Refused by `JournalFull` where one more entry would exceed the limit; the ledger is as before then. Refused by `NoMemory`, which
    /// leaves it failed. A ledger that failed before refuses by `Failed`, and doesn't change.
    /// The time grows with the message's length, the work of the slot's machine, and the logarithm of what was asked for.
    pub fn take(&mut self, ready: Ready) -> Result<Took, Fault>
        // `Takes` says the entry, the verdict, the machine, the decision and the answer.
        ensures takes { IfOk result (λ took. Takes D.says.level D.says.extracted D.says.combined D.says.place self.old ready took self.new) }
        // What became of a command.
        ensures tells { IfOk result (λ took. TellsFate D.says.level self.old ready took) }
        // What goes out fits a link.
        ensures fits { IfOk result (λ took. All FitsOut took.outgoing) }
        // For each connection, the journal gained exactly what the thing says of it.
        ensures marks { OnOk result ((c : ConnId) → marks_of c self.new.journal ≡ marks_of c self.old.journal ++ ready_mark c ready) }
        // Failed or not: at most one decision per slot, and each has its certificate over the journal, or the record that named it.
        ensures known { IsLedger self.new }
        // Unless it failed: the lowest slot is the least from the first one on without a decision, and each machine's board is that of the
        // journal.
        ensures running { self.new.failed ≡ false → IsRunning D.says.level D.says.place self.new }
        ensures first { self.new.first ≡ self.old.first }
        // When each refusal comes, and what it leaves.
        ensures failed { IsErrOf result Fault.Failed ↔ (self.old.failed ≡ true) }
        ensures same { self.old.failed ≡ true → self.new ≡ self.old }
        ensures full { IsErrOf result Fault.JournalFull ↔ ((self.old.failed ≡ false) × (adds_entry ready ≡ true) × (length self.old.journal ≡ JOURNAL_LIMIT)) }
        ensures kept { IsErrOf result Fault.JournalFull → self.new ≡ self.old }
        ensures no_memory { IsErrOf result Fault.NoMemory → self.new.failed ≡ true }
        ensures read { OnErr result ((self.new.journal ≡ self.old.journal) × (self.new.decisions ≡ self.old.decisions) × (self.new.asked ≡ self.old.asked)) }
        ensures only { IfErr result (λ f. (f ≡ Fault.NoMemory) ⊎ ((f ≡ Fault.Failed) ⊎ (f ≡ Fault.JournalFull))) }
    {
        if self.failed {
            return Err(Fault::Failed);
        }
        if is_entry(&ready) && self.state.journal.len() == JOURNAL_LIMIT {
            return Err(Fault::JournalFull);
        }
        match self.state.take(ready) {
            Ok(took) => {
                let _ = took.outgoing.as_slice();
                Ok(took)
            }
            Err(_) => {
                self.failed = true;
                Err(Fault::NoMemory)
            }
        }
    }
}

fn is_entry(ready: &Ready) -> bool
    ensures { result ≡ adds_entry ready.now }
{
    !matches!(ready, Ready::Local(_))
}
