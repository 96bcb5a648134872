//! The machine of one slot.
ghost use Rattle.std.specs.Prelude.{◌≡◌, ◌⊎◌, true, false, IfOk, IfErr, OnOk, OnErr, IsOkUnless};

use crate::output::{SlotInput, SlotOutput};
use crate::state::State;
use scp_ballot::Balloter;
use scp_nominate::Nominator;
use scp_nominate::below::driver::Driver;
use scp_nominate::below::quorum::SaneSet;
use scp_nominate::below::types::{Fault, NodeId, Slot};
use std::alloc::Global;
use std::sync::Arc;

/// What a node knows and says of one slot, with its driver. After a refusal it has failed, and answers `Fault::Failed` from then
/// on. Its state is on the heap, so that a map of machines moves only handles.
#[derive(Drop)]
pub struct SlotMachine<D: Driver + Drop> {
    state: Box<State<D>>,
    failed: bool,
}

impl<D: Driver + Drop> SlotMachine<D> {
    ghost use Rattle.scp_nominate.specs.Nomination.{nomination, driver_of as driver_of_nominator};
    ghost use Rattle.scp_ballot.specs.Balloting.{ballots};
    ghost use Rattle.scp_slot.specs.Slot.{slot_view, driver_of, nominator_of, balloter_of, Begins, IsRunning, IsSound, OwesNoVote, VotesWell};
    ghost use Rattle.scp_slot.specs.Takes.{Takes, Decides, IsOfSlot, NominatesExactly};
    ghost use Rattle.scp_slot.specs.Limits.{KeepsLimits};

    /// The machine of a slot of which nothing was heard or said. The only refusal is `Fault::NoMemory`.
    pub fn new(
        alloc: Global,
        me: NodeId,
        slot: Slot,
        set: Arc<SaneSet>,
        driver: D,
    ) -> Result<SlotMachine<D>, Fault>
        ensures begins { IfOk result (λ made. Begins me slot.0 set.value (slot_view made)) }
        ensures driver { IfOk result (λ made. driver_of made ≡ driver) }
        ensures running { IfOk result (λ made. IsRunning (slot_view made)) }
        ensures sound { IfOk result (λ made. IsSound D.says.level D.says.place made) }
        ensures only_memory { IsOkUnless result Fault.NoMemory }
    {
        let state = State::new(alloc, me, slot, set, driver)?;
        let boxed = Box::new(alloc, state)?;
        Ok(SlotMachine {
            state: boxed,
            failed: false,
        })
    }

    /// The slot.
    pub fn slot(&self) -> Slot
        ensures same { result.0 ≡ (slot_view self.now).slot }
    {
        self.state.slot
    }

    /// The nomination of the slot.
    pub fn nominator(&self) -> &Nominator<D>
        ensures same { result.now ≡ nominator_of self.now }
        ensures view { nomination result.now ≡ (slot_view self.now).nomination }
        ensures driver { driver_of_nominator result.now ≡ driver_of self.now }
    {
        &self.state.nominator
    }

    /// The ballots of the slot.
    pub fn balloter(&self) -> &Balloter
        ensures same { result.now ≡ balloter_of self.now }
        ensures view { ballots result.now ≡ (slot_view self.now).ballots }
    {
        &self.state.balloter
    }

    /// Whether this machine has decided the slot.
    pub fn is_decided(&self) -> bool
        ensures same { result ≡ (slot_view self.now).decided }
    {
        self.state.decided
    }

    /// Takes one input; an envelope is of this slot, and comes with the quorum set that it names. An envelope's verdict is the
    /// first that fits: own, bad statement, bad value, stale, else fresh. Only fresh inputs and timers are taken in, and after
    /// the decision nothing changes. Refused by `Failed` if an earlier call was refused, else by `NoMemory`.
    pub fn input(&mut self, input: SlotInput) -> Result<SlotOutput, Fault>
        requires sound { IsSound D.says.level D.says.place self.old }
        requires of_slot { IsOfSlot (slot_view self.old).slot input }
        // The verdict, what is taken in, and what is given.
        ensures takes { IfOk result (λ out. Takes (D.says.level (driver_of self.old) (slot_view self.old).slot) (D.says.combined (driver_of self.old) (slot_view self.old).nomination.slot) input (slot_view self.old) out (slot_view self.new)) }
        // A decision comes once, with its certificate.
        ensures decides { IfOk result (λ out. Decides (slot_view self.old) out (slot_view self.new)) }
        // The boards show the newest fresh envelopes, and the ballots owe nothing on them, unless there is more.
        ensures running { OnOk result (IsRunning (slot_view self.new)) }
        // What is emitted, and what is in a decision, keeps the limits of a link.
        ensures fits { IfOk result (λ out. KeepsLimits out) }
        // Each new vote has its reason.
        ensures votes { OnOk result (VotesWell D.says.level D.says.extracted D.says.place (slot_view self.old) self.new) }
        // The votes, the accepted values and the candidates are those that the steps of nomination lead to.
        ensures nominates { OnOk result (NominatesExactly D.says.level D.says.extracted D.says.place (slot_view self.old) input self.new) }
        // Nomination owes nothing.
        ensures owed { OnOk result (OwesNoVote D.says.level D.says.place self.new) }
        ensures driver { OnOk result (driver_of self.new ≡ driver_of self.old) }
        ensures refused { IfErr result (λ f. ((f ≡ Fault.Failed) × ((slot_view self.old).failed ≡ true)) ⊎ ((f ≡ Fault.NoMemory) × ((slot_view self.old).failed ≡ false))) }
        ensures whole { OnOk result (((slot_view self.old).failed ≡ false) × ((slot_view self.new).failed ≡ false)) }
        ensures failed { OnErr result ((slot_view self.new).failed ≡ true) }
        ensures same { (slot_view self.old).failed ≡ true → self.new ≡ self.old }
        ensures sound { IsSound D.says.level D.says.place self.new }
    {
        if self.failed {
            return Err(Fault::Failed);
        }
        self.failed = true;
        let out = self.state.enter(input)?;
        self.failed = false;
        Ok(out)
    }
}
