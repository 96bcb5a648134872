//! The ballots of one node in one slot.
ghost use Rattle.std.specs.Prelude.{◌≡◌, ◌≢◌, ◌⊎◌, true, false, IfOk, IfErr, OnOk, OnErr, IsOkUnless};
ghost use Rattle.std.specs.Option.{option_map};

use crate::balloted::Balloted;
use crate::machine::Machine;
use scp_ballot_rules::below::envelope::{SharedEnvelope, Statement};
use scp_ballot_rules::below::quorum::SaneSet;
use scp_ballot_rules::below::types::{Fault, NodeId, Slot, Value};
use scp_ballot_rules::below::vote::Board;
use std::alloc::Global;
use std::marker::Model;
use std::sync::Arc;

/// The ballots of one node in one slot (the SCP draft, in this project's profile). After a refusal it has failed, and
/// answers `Fault::Failed` from then on.
#[derive(Drop)]
pub struct Balloter {
    machine: Machine,
    failed: bool,
}

impl Model for Balloter {
    ghost use Rattle.scp_ballot.specs.View.{BalloterView};

    ghost Value = { BalloterView };

    ghost use Rattle.std.specs.Coded.{codes};
    ghost use Rattle.scp_ballot_rules.specs.scp_vote.specs.contracts.board.Board as board;
    ghost use Rattle.scp_ballot_rules.specs.contracts.state.State as state;

    ghost coded = { Prim.hlevel (codes, board.the_row.coded, state.the_row.coded) };

    ghost use Rattle.scp_ballot.specs.inside.Balloter.{balloter_view, IsWell};

    ghost view = { balloter_view };

    ghost invariant = { IsWell };
}

impl Balloter {
    ghost use Rattle.scp_ballot.specs.Balloting.{ballots, Begins, Advances, TakesValue, MakesFirst, HasBallot, KeepsOthers, HearsOnly, RaisesCounter};
    ghost use Rattle.scp_ballot.specs.Outcome.{BeginsBlank, ComposesExactly, HearsExactly, TimesExactly};

    /// A balloter for this node and its set, that has heard and said nothing.
    pub fn new(alloc: Global, me: NodeId, slot: Slot, local: Arc<SaneSet>) -> Balloter
        ensures begins { Begins me slot.0 local.value (ballots result) }
        ensures blank { BeginsBlank (ballots result) }
    {
        Balloter {
            machine: Machine::new(alloc, me, slot, local),
            failed: false,
        }
    }

    /// The newest ballot statements that it heard, and its own.
    pub fn board(&self) -> &Board
        ensures { result.now ≡ self.now.board }
    {
        &self.machine.board
    }

    /// The statement that was emitted last, if there is one. Of its node and slot no clause speaks.
    pub fn emitted(&self) -> Option<&Statement>
        ensures { option_map (λ s. s.now.pledges) result ≡ self.now.emitted }
    {
        match &self.machine.emitted {
            Some(statement) => Some(statement.get()),
            None => None,
        }
    }

    /// Takes a composite from nomination. While the own statement is a PREPARE, the composite is kept, and makes the first
    /// ballot if there is none. Refused by `Failed` if an earlier call was refused, else by `NoMemory`.
    pub fn candidate(&mut self, value: Value) -> Result<Balloted, Fault>
        ensures advances { IfOk result (λ given. Advances (ballots self.old) (ballots self.new) given) }
        ensures exact { IfOk result (λ given. ComposesExactly value (ballots self.old) (ballots self.new) given) }
        ensures composite { OnOk result (TakesValue value (ballots self.old) (ballots self.new)) }
        ensures first { OnOk result (MakesFirst value (ballots self.old) (ballots self.new)) }
        ensures ballot { OnOk result (HasBallot (ballots self.new)) }
        ensures others { OnOk result (KeepsOthers (ballots self.old).board (ballots self.new).board) }
        ensures refused { IfErr result (λ f. ((f ≡ Fault.Failed) × ((ballots self.old).failed ≡ true)) ⊎ ((f ≡ Fault.NoMemory) × ((ballots self.old).failed ≡ false))) }
        ensures working { OnOk result (((ballots self.old).failed ≡ false) × ((ballots self.new).failed ≡ false)) }
        ensures failed { OnErr result ((ballots self.new).failed ≡ true) }
        ensures same { (ballots self.old).failed ≡ true → self.new ≡ self.old }
    {
        if self.failed {
            return Err(Fault::Failed);
        }
        self.failed = true;
        let given = self.machine.candidate(value)?;
        self.failed = false;
        Ok(given)
    }

    /// Takes another node's ballot statement, with the quorum set that was delivered with it; that it is newer is for the
    /// caller to test. A statement of this node, of another slot or of nomination, or one after the decision, isn't put on
    /// the board. Refused by `Failed` if an earlier call was refused, else by `NoMemory`.
    pub fn take(
        &mut self,
        envelope: SharedEnvelope,
        delivered: Arc<SaneSet>,
    ) -> Result<Balloted, Fault>
        ensures advances { IfOk result (λ given. Advances (ballots self.old) (ballots self.new) given) }
        ensures exact { IfOk result (λ given. HearsExactly envelope delivered.value (ballots self.old) (ballots self.new) given) }
        ensures ballot { OnOk result (HasBallot (ballots self.old) → HasBallot (ballots self.new)) }
        ensures composite { OnOk result ((ballots self.new).composite ≡ (ballots self.old).composite) }
        ensures others { OnOk result (HearsOnly (ballots self.old) (ballots self.new) envelope delivered.value) }
        ensures refused { IfErr result (λ f. ((f ≡ Fault.Failed) × ((ballots self.old).failed ≡ true)) ⊎ ((f ≡ Fault.NoMemory) × ((ballots self.old).failed ≡ false))) }
        ensures working { OnOk result (((ballots self.old).failed ≡ false) × ((ballots self.new).failed ≡ false)) }
        ensures failed { OnErr result ((ballots self.new).failed ≡ true) }
        ensures same { (ballots self.old).failed ≡ true → self.new ≡ self.old }
    {
        if self.failed {
            return Err(Fault::Failed);
        }
        self.failed = true;
        let given = self.machine.take(envelope, delivered)?;
        self.failed = false;
        Ok(given)
    }

    /// A timer went off. While the own statement stays a PREPARE, or stays a CONFIRM, the counter of its ballot is raised, unless it was 0
    /// or the greatest. Refused by `Failed` if an earlier call was refused, else by `NoMemory`.
    pub fn timer(&mut self) -> Result<Balloted, Fault>
        ensures advances { IfOk result (λ given. Advances (ballots self.old) (ballots self.new) given) }
        ensures exact { IfOk result (λ given. TimesExactly (ballots self.old) (ballots self.new) given) }
        ensures ballot { OnOk result (HasBallot (ballots self.old) → HasBallot (ballots self.new)) }
        ensures composite { OnOk result ((ballots self.new).composite ≡ (ballots self.old).composite) }
        ensures raises { OnOk result (RaisesCounter (ballots self.old) (ballots self.new)) }
        ensures others { OnOk result (KeepsOthers (ballots self.old).board (ballots self.new).board) }
        ensures refused { IfErr result (λ f. ((f ≡ Fault.Failed) × ((ballots self.old).failed ≡ true)) ⊎ ((f ≡ Fault.NoMemory) × ((ballots self.old).failed ≡ false))) }
        ensures working { OnOk result (((ballots self.old).failed ≡ false) × ((ballots self.new).failed ≡ false)) }
        ensures failed { OnErr result ((ballots self.new).failed ≡ true) }
        ensures same { (ballots self.old).failed ≡ true → self.new ≡ self.old }
    {
        if self.failed {
            return Err(Fault::Failed);
        }
        self.failed = true;
        let given = self.machine.timer()?;
        self.failed = false;
        Ok(given)
    }
}
