//! The nominator of one slot.
ghost use Rattle.std.specs.Prelude.{◌≡◌, ◌≢◌, ◌⊎◌, ◌↔◌, ◌<◌, ◌≤◌, ◌+◌, None, true, false, length, IfOk, IfErr, OnOk, OnErr, IsSome, is_some, IsOkUnless, IsTrue, Contains, option_copied};
ghost use Rattle.std.specs.Option.{ForSome};
ghost use Rattle.scp_driver.specs.Driver.{IsFull};
ghost use Rattle.scp_nominate.specs.Heard.{heard};
ghost use Rattle.scp_nominate.specs.Owed.{OwesNothing};
ghost use Rattle.scp_nominate.specs.Steps.{own_lists};
ghost use Rattle.scp_vote.specs.Board.{kind_of_pledges, counted_of_other, KeepsOwn};
ghost use Rattle.scp_vote.specs.declared.claim.StatementKind.TheVariants.{Nomination};

use crate::guide::Guide;
use crate::nodes::{add_leader, nodes_with};
use crate::nominated::Nominated;
use crate::state::State;
use scp_driver::Driver;
use scp_vote::Board;
use scp_vote::below::envelope::SharedEnvelope;
use scp_vote::below::quorum::SaneSet;
use scp_vote::below::types::{Fault, NodeId, Slot, Value};
use std::alloc::Global;
use std::sync::Arc;

/// What one node votes for, accepts and finds confirmed in one slot, with its driver. After a refusal it has failed, and
/// answers `Fault::Failed` from then on.
#[derive(Drop)]
pub struct Nominator<D: Driver + Drop> {
    guide: Guide<D>,
    state: State,
    nodes: Vec<NodeId>,
    rounds: u64,
    failed: bool,
}

impl<D: Driver + Drop> Nominator<D> {
    ghost use Rattle.std.specs.List.Sorted.{IsStrictlySortedBy};
    ghost use Rattle.scp_vote.specs.scp_quorum.specs.NodeSet.{node_cmp};
    ghost use Rattle.scp_vote.specs.scp_types.specs.declared.names.NodeId.{NodeId};
    ghost use Rattle.scp_nominate.specs.Turns.{Leads};
    ghost use Rattle.scp_nominate.specs.State.{IsAtRest};
    ghost use Rattle.scp_nominate.specs.inside.State.{IsSettling, IsOwnOf};
    ghost use Rattle.scp_nominate.specs.Nomination.{nomination, driver_of, board_of, own, Advances, HasOwnLists, SaysItsLists, VotesWell, KeepsMaking, KeepsOthers, Hears, IsSound, IsPaid, Begins, first_of, ComesFrom, ComesFromHearing};

    /// A nominator that has heard nothing, in round 1. The only refusal is `Fault::NoMemory`.
    pub fn new(
        alloc: Global,
        me: NodeId,
        slot: Slot,
        local: Arc<SaneSet>,
        driver: D,
    ) -> Result<Nominator<D>, Fault>
        ensures begins { IfOk result (λ made. Begins me slot.0 local.value (nomination made)) }
        ensures driver { IfOk result (λ made. driver_of made ≡ driver) }
        ensures sound { IfOk result (λ made. IsSound D.says.level D.says.place made) }
        ensures only_memory { IsOkUnless result Fault.NoMemory }
    {
        let nodes = nodes_with(me, local.set())?;
        let mut leaders = Vec::new(alloc);
        add_leader(&driver, slot, 1, nodes.as_slice(), &mut leaders)?;
        let guide = Guide {
            driver,
            slot,
            leaders,
            proposal: None,
        };
        Ok(Nominator {
            guide,
            state: State::new(alloc, me, local)?,
            nodes,
            rounds: 1,
            failed: false,
        })
    }

    /// The driver that it was made with.
    pub fn driver(&self) -> &D
        ensures same { result.now ≡ driver_of self.now }
    {
        &self.guide.driver
    }

    /// The newest nominations that it heard, and its own.
    pub fn board(&self) -> &Board
        ensures same { result.now ≡ board_of self.now }
        ensures view { heard result.now ≡ (nomination self.now).board }
    {
        &self.state.board
    }

    /// The leaders of the rounds so far, ascending. No clause speaks of them once the nominator has failed.
    pub fn leaders(&self) -> &[NodeId]
        ensures leaders { IsSound D.says.level D.says.place self.now → (nomination self.now).failed ≡ false → (node : NodeId) → Contains result.now node ↔ Leads (D.says.place (driver_of self.now) (nomination self.now).slot) (nomination self.now).nodes (nomination self.now).rounds node }
        ensures ascending { IsSound D.says.level D.says.place self.now → (nomination self.now).failed ≡ false → IsStrictlySortedBy node_cmp result.now }
    {
        self.guide.leaders.as_slice()
    }

    /// How many rounds there were.
    pub fn rounds(&self) -> u64
        ensures { result ≡ (nomination self.now).rounds }
    {
        self.rounds
    }

    /// The proposal that was kept, if any.
    pub fn proposal(&self) -> Option<&Value>
        ensures { option_copied result ≡ (nomination self.now).proposal }
    {
        self.guide.proposal.as_ref()
    }

    /// The values that were found confirmed, ascending by bytes.
    pub fn candidates(&self) -> &[Value]
        ensures { result.now ≡ (nomination self.now).lists.candidates }
    {
        self.state.lists.candidates.as_slice()
    }

    /// Whether a proposal was kept.
    pub fn has_proposal(&self) -> bool
        ensures exact { IsTrue result ↔ IsSome (nomination self.now).proposal }
    {
        self.guide.proposal.is_some()
    }

    /// Whether there were as many rounds as there are nodes that lead in turn, so that no more rounds are added.
    pub fn is_last_round(&self) -> bool
        ensures exact { IsTrue result ↔ (length (nomination self.now).nodes ≤ (nomination self.now).rounds) }
    {
        self.rounds >= self.nodes.len() as u64
    }

    /// This node proposes the value. The first proposal is kept, and a later one changes nothing. Refused by `Failed` if an
    /// earlier call was refused, else by `NoMemory`.
    pub fn propose(&mut self, value: Value) -> Result<Nominated, Fault>
        requires sound { IsSound D.says.level D.says.place self.old }
        ensures advances { IfOk result (λ given. Advances (D.says.combined (driver_of self.old) (nomination self.old).slot) (own (nomination self.old)) (nomination self.old).lists (nomination self.new) given) }
        ensures proposal { OnOk result ((nomination self.new).proposal ≡ first_of (nomination self.old).proposal value) }
        ensures later { OnOk result (IsSome (nomination self.old).proposal → self.new ≡ self.old) }
        ensures rounds { OnOk result ((nomination self.new).rounds ≡ (nomination self.old).rounds) }
        ensures others { OnOk result (KeepsOthers (nomination self.old).board (nomination self.new).board) }
        ensures making { OnOk result (KeepsMaking (nomination self.old) (nomination self.new)) }
        ensures driver { OnOk result (driver_of self.new ≡ driver_of self.old) }
        ensures stands { OnOk result (SaysItsLists (nomination self.new)) }
        ensures counted { OnOk result (KeepsOwn (nomination self.new).board) }
        ensures lists { OnOk result (HasOwnLists D.says.level self.new) }
        ensures votes { OnOk result (VotesWell D.says.level D.says.extracted D.says.place (nomination self.old).lists self.new) }
        ensures exact { OnOk result ((nomination self.old).proposal ≡ None → ComesFrom D.says.level D.says.extracted D.says.place (nomination self.old) (nomination self.old).board self.new) }
        ensures paid { OnOk result (IsPaid D.says.level D.says.place self.new) }
        ensures refused { IfErr result (λ f. ((f ≡ Fault.Failed) × ((nomination self.old).failed ≡ true)) ⊎ ((f ≡ Fault.NoMemory) × ((nomination self.old).failed ≡ false))) }
        ensures working { OnOk result (((nomination self.old).failed ≡ false) × ((nomination self.new).failed ≡ false)) }
        ensures failed { OnErr result ((nomination self.new).failed ≡ true) }
        ensures same { (nomination self.old).failed ≡ true → self.new ≡ self.old }
        ensures sound { IsSound D.says.level D.says.place self.new }
    {
        if self.failed {
            return Err(Fault::Failed);
        }
        if self.guide.proposal.is_some() {
            return Ok(nothing());
        }
        self.failed = true;
        self.guide.proposal = Some(value);
        let given = self.state.advance(&self.guide)?;
        self.failed = false;
        Ok(given)
    }

    /// Takes another node's NOMINATE, with the quorum set that was delivered with it; that it is newer is for the caller
    /// to test. Refused by `Failed` if an earlier call was refused, else by `NoMemory`.
    pub fn take(
        &mut self,
        envelope: SharedEnvelope,
        delivered: Arc<SaneSet>,
    ) -> Result<Nominated, Fault>
        requires sound { IsSound D.says.level D.says.place self.old }
        requires nominate { kind_of_pledges envelope.statement.pledges ≡ Nomination }
        requires other { envelope.statement.node ≢ (nomination self.old).board.me }
        ensures advances { IfOk result (λ given. Advances (D.says.combined (driver_of self.old) (nomination self.old).slot) (own (nomination self.old)) (nomination self.old).lists (nomination self.new) given) }
        ensures proposal { OnOk result ((nomination self.new).proposal ≡ (nomination self.old).proposal) }
        ensures rounds { OnOk result ((nomination self.new).rounds ≡ (nomination self.old).rounds) }
        ensures others { OnOk result (Hears (nomination self.old).board (nomination self.new).board envelope.statement.node envelope.statement.pledges (counted_of_other envelope.statement.node envelope.statement.pledges delivered.value)) }
        ensures making { OnOk result (KeepsMaking (nomination self.old) (nomination self.new)) }
        ensures driver { OnOk result (driver_of self.new ≡ driver_of self.old) }
        ensures stands { OnOk result (SaysItsLists (nomination self.new)) }
        ensures counted { OnOk result (KeepsOwn (nomination self.new).board) }
        ensures lists { OnOk result (HasOwnLists D.says.level self.new) }
        ensures votes { OnOk result (VotesWell D.says.level D.says.extracted D.says.place (nomination self.old).lists self.new) }
        ensures exact { OnOk result (ComesFromHearing D.says.level D.says.extracted D.says.place (nomination self.old) envelope delivered.value self.new) }
        ensures paid { OnOk result (IsPaid D.says.level D.says.place self.new) }
        ensures refused { IfErr result (λ f. ((f ≡ Fault.Failed) × ((nomination self.old).failed ≡ true)) ⊎ ((f ≡ Fault.NoMemory) × ((nomination self.old).failed ≡ false))) }
        ensures working { OnOk result (((nomination self.old).failed ≡ false) × ((nomination self.new).failed ≡ false)) }
        ensures failed { OnErr result ((nomination self.new).failed ≡ true) }
        ensures same { (nomination self.old).failed ≡ true → self.new ≡ self.old }
        ensures sound { IsSound D.says.level D.says.place self.new }
    {
        if self.failed {
            return Err(Fault::Failed);
        }
        self.failed = true;
        self.state.hear(&self.guide, envelope, delivered)?;
        let given = self.state.advance(&self.guide)?;
        self.failed = false;
        Ok(given)
    }

    /// Adds one round and its leader, up to as many rounds as there are nodes that lead in turn; after that nothing changes.
    /// Refused by `Failed` if an earlier call was refused, else by `NoMemory`.
    pub fn round(&mut self) -> Result<Nominated, Fault>
        requires sound { IsSound D.says.level D.says.place self.old }
        ensures advances { IfOk result (λ given. Advances (D.says.combined (driver_of self.old) (nomination self.old).slot) (own (nomination self.old)) (nomination self.old).lists (nomination self.new) given) }
        ensures proposal { OnOk result ((nomination self.new).proposal ≡ (nomination self.old).proposal) }
        ensures more { OnOk result ((nomination self.old).rounds < length (nomination self.old).nodes → (nomination self.new).rounds ≡ (nomination self.old).rounds + 1) }
        ensures beyond { OnOk result (length (nomination self.old).nodes ≤ (nomination self.old).rounds → self.new ≡ self.old) }
        ensures others { OnOk result (KeepsOthers (nomination self.old).board (nomination self.new).board) }
        ensures making { OnOk result (KeepsMaking (nomination self.old) (nomination self.new)) }
        ensures driver { OnOk result (driver_of self.new ≡ driver_of self.old) }
        ensures stands { OnOk result (SaysItsLists (nomination self.new)) }
        ensures counted { OnOk result (KeepsOwn (nomination self.new).board) }
        ensures lists { OnOk result (HasOwnLists D.says.level self.new) }
        ensures votes { OnOk result (VotesWell D.says.level D.says.extracted D.says.place (nomination self.old).lists self.new) }
        ensures exact { OnOk result ((nomination self.old).rounds < length (nomination self.old).nodes → ComesFrom D.says.level D.says.extracted D.says.place (nomination self.old) (nomination self.old).board self.new) }
        ensures paid { OnOk result (IsPaid D.says.level D.says.place self.new) }
        ensures refused { IfErr result (λ f. ((f ≡ Fault.Failed) × ((nomination self.old).failed ≡ true)) ⊎ ((f ≡ Fault.NoMemory) × ((nomination self.old).failed ≡ false))) }
        ensures working { OnOk result (((nomination self.old).failed ≡ false) × ((nomination self.new).failed ≡ false)) }
        ensures failed { OnErr result ((nomination self.new).failed ≡ true) }
        ensures same { (nomination self.old).failed ≡ true → self.new ≡ self.old }
        ensures sound { IsSound D.says.level D.says.place self.new }
    {
        if self.failed {
            return Err(Fault::Failed);
        }
        if self.rounds >= self.nodes.len() as u64 {
            return Ok(nothing());
        }
        self.failed = true;
        self.rounds += 1;
        let nodes = self.nodes.as_slice();
        let guide = &mut self.guide;
        add_leader(
            &guide.driver,
            guide.slot,
            self.rounds,
            nodes,
            &mut guide.leaders,
        )?;
        let given = self.state.advance(&self.guide)?;
        self.failed = false;
        Ok(given)
    }
}

/// Neither a statement nor a composite.
fn nothing() -> Nominated
    ensures statement { result.statement ≡ None }
    ensures composite { result.composite ≡ None }
{
    Nominated {
        statement: None,
        composite: None,
    }
}
