//! What a ledger keeps, and what it does while it runs.
ghost use Rattle.std.specs.Prelude.{◌≡◌, ◌↔◌, ◌<◌, ◌≤◌, ◌+◌, ◌++◌, ◌∷◌, [], ℕ, true, false, cond, IsTrue, OnOk, OnErr, IfOk, IfSome, IfNone, IsSomeAnd, IsOkUnless, Some, None, option_to_list, option_map, length};
ghost use Rattle.std.specs.BTreeMap as tree;
ghost use Rattle.std.specs.Ordering.{nat_cmp};
ghost use Rattle.std.specs.Option.{ForSome};
ghost use Rattle.scp_slot.specs.scp_envelope.specs.Short.{IsShortValue};
ghost use Rattle.scp_pending.specs.scp_wire.specs.Carried.{is_carried};
ghost use Rattle.scp_pending.specs.scp_wire.specs.Fitting.{IsFitting};
ghost use Rattle.scp_pending.specs.scp_wire.specs.Sets.{IsSetOf};
ghost use Rattle.scp_slot.specs.Slot.{slot_view, driver_of, IsSound as IsSlotSound, IsRunning as IsSlotRunning, VotesWell};
ghost use Rattle.scp_slot.specs.Limits.{KeepsLimits};
ghost use Rattle.scp_slot.specs.Takes.{IsOfSlot, Takes as SlotTakes, Decides as SlotDecides, NominatesExactly};
ghost use Rattle.scp_ledger.specs.Seen.{machine_at, is_asked};
ghost use Rattle.scp_ledger.specs.Decisions.{is_decided, named_by};
ghost use Rattle.scp_ledger.specs.Verdicts.{IsOpen, BehindWindow, BehindAlready, IsRecordVerdict, IsAskVerdict, link_of as place_of_link};
ghost use Rattle.scp_ledger.specs.inside.Window.{IsWindow};
ghost use Rattle.scp_ledger.specs.inside.Entering.{entries_of as entries_with};
ghost use Rattle.scp_ledger.specs.Takes.{verdict_from as verdict_as, decision_of as decided_by, HasAscendingNodes};
ghost use Rattle.scp_ledger.specs.inside.FateBy.{fate_by as fate_as};
ghost use Rattle.scp_slot.specs.scp_ballot.specs.Balloting.{HasCounter};
ghost use Rattle.scp_slot.specs.scp_vote.specs.Seen.{seen};
ghost use Rattle.scp_slot.specs.scp_vote.specs.declared.claim.StatementKind.TheVariants.{Balloting};

use crate::journal::{Asking, Decision, Fate, JOURNAL_LIMIT, Origin, Verdict};
use crate::lists::{add, link_of, to_all_peers};
use crate::quorum::Quorum;
use crate::shared::SharedDecision;
use crate::took::{CommandFate, Onward, Outgoing, OutgoingList, Took};
use crate::window::Window;
use scp_pending::below::wire::{BoxedEnvelope, Command, Message};
use scp_pending::{Delivery, Ready};
use scp_slot::below::driver::Driver;
use scp_slot::below::envelope::Pledges;
use scp_slot::below::quorum::SaneSet;
use scp_slot::below::types::{ConnId, Fault, NodeId, Seq, Slot, Value};
use scp_slot::below::vote::{Board, StatementKind};
use scp_slot::{Certified, SlotInput, SlotMachine, SlotOutput, Verdict as Found};
use std::alloc::Global;
use std::collections::{BTreeMap, BTreeSet};
use std::sync::Arc;

/// The journal and the decisions, which grow only at their ends, the machines of undecided slots, and what was asked for.
#[derive(Drop)]
pub struct State<D: Driver + Drop + Copy> {
    pub alloc: Global,
    pub me: NodeId,
    pub local: Arc<SaneSet>,
    pub driver: D,
    pub peers: Vec<NodeId>,
    /// The last slot before the first one: 0 where that is slot 1.
    pub before: u32,
    pub journal: Vec<Fate>,
    pub decisions: Vec<SharedDecision>,
    pub window: Window,
    pub machines: BTreeMap<u64, SlotMachine<D>>,
    pub asked: BTreeSet<Asking>,
}

impl<D: Driver + Drop + Copy> State<D> {
    ghost use Rattle.scp_ledger.specs.Takes.{Takes, TakesMessage, TakesCommand, adds_entry, RunsAt, Passes, TakesEnvelope, TakesRecord, TakesAsk, Asks, Forwards, Decides, Commands, decided_onward, to_peers};
    ghost use Rattle.scp_ledger.specs.inside.Entering.{Enters, IsQuiet};
    ghost use Rattle.scp_ledger.specs.inside.FateBy.{IsIdleTimer};
    ghost use Rattle.scp_ledger.specs.CommandFates.{IsProposalFate, IsRoundFate, IsTimerFate, IsAskFate, TellsCommand, TellsFate};
    ghost use Rattle.scp_slot.specs.declared.output.SlotInput.TheVariants.{Propose, Round, Timer};
    ghost use Rattle.scp_ledger.specs.inside.State.{state_view, IsSound, IsTakenOut, Ran, KeepsRest, Leaves, IsMade};
    ghost use Rattle.scp_ledger.specs.Ledger.{HasMachines};

    /// The state of a ledger that took nothing; its first slot is the one after `before`.
    pub fn new(
        alloc: Global,
        me: NodeId,
        local: Arc<SaneSet>,
        driver: D,
        peers: Vec<NodeId>,
        before: u32,
    ) -> State<D>
        requires few { length peers.items ≤ 255 }
        ensures empty { state_view false result ≡ record { me = me; local = local.value; driver = driver; peers = peers.items; first = before + 1; failed = false; journal = []; decisions = []; lowest = before + 1; asked = []; machines = [] } }
        ensures sound { IsSound D.says.level D.says.place result }
    {
        State {
            alloc,
            me,
            local,
            driver,
            peers,
            before,
            journal: Vec::new(alloc),
            decisions: Vec::new(alloc),
            window: Window::new(alloc, before as u64 + 1),
            machines: BTreeMap::new(alloc),
            asked: BTreeSet::new(alloc),
        }
    }

    // ---- which slots are open

    /// Why a slot isn't open to envelopes and commands, if it isn't.
    fn shut(&self, slot: Slot) -> Option<Verdict>
        requires window { IsWindow (self.now.before + 1) self.now.decisions.items self.now.window }
        ensures shut { IfSome result (BehindWindow self.now.window.lowest self.now.decisions.items slot.0 (λ _. ⊥)) }
        ensures not_open { IfSome result (λ _. ¬ (IsOpen self.now.window.lowest self.now.decisions.items slot.0)) }
        ensures is_open { IfNone result (IsOpen self.now.window.lowest self.now.decisions.items slot.0) }
    {
        if slot.0 < self.window.lowest {
            Some(Verdict::OldSlot)
        } else if self.window.is_far(slot) {
            Some(Verdict::FarSlot)
        } else if self.window.is_ahead(slot) {
            Some(Verdict::Already)
        } else {
            None
        }
    }

    /// Why a slot isn't open to records and asks, if it isn't.
    fn shut_to_records(&self, slot: Slot) -> Option<Verdict>
        requires window { IsWindow (self.now.before + 1) self.now.decisions.items self.now.window }
        ensures shut { IfSome result (BehindAlready self.now.window.lowest self.now.decisions.items slot.0 (λ _. ⊥)) }
        ensures is_open { IfNone result (IsOpen self.now.window.lowest self.now.decisions.items slot.0) }
    {
        if slot.0 < self.window.lowest || self.window.is_ahead(slot) {
            Some(Verdict::Already)
        } else if self.window.is_far(slot) {
            Some(Verdict::FarSlot)
        } else {
            None
        }
    }

    pub fn was_asked(&self, link: u8, slot: Slot) -> bool
        ensures { result ≡ is_asked self.now.asked.keys (record { link = link; slot = slot }) }
    {
        self.asked.contains(&Asking { link, slot })
    }

    /// The verdict on a record of a slot that came over a link.
    fn record_verdict(&self, link: u8, slot: Slot) -> Verdict
        requires window { IsWindow (self.now.before + 1) self.now.decisions.items self.now.window }
        ensures right { IsRecordVerdict (state_view false self.now) link slot result }
        ensures is_open { result ≡ Verdict.Decided → IsOpen self.now.window.lowest self.now.decisions.items slot.0 }
        ensures not_fresh { ¬ (result ≡ Verdict.Fresh) }
    {
        if let Some(verdict) = self.shut_to_records(slot) {
            verdict
        } else if self.was_asked(link, slot) {
            Verdict::Decided
        } else {
            Verdict::Unasked
        }
    }

    /// The verdict on a command to ask a link for a slot.
    fn ask_verdict(&self, link: u8, slot: Slot) -> Verdict
        requires window { IsWindow (self.now.before + 1) self.now.decisions.items self.now.window }
        ensures right { IsAskVerdict (state_view false self.now) link slot result }
    {
        if let Some(verdict) = self.shut_to_records(slot) {
            verdict
        } else if self.was_asked(link, slot) {
            Verdict::Idle
        } else {
            Verdict::Fresh
        }
    }

    // ---- the machine of a slot

    /// A machine that has heard and said nothing.
    fn new_machine(&self, slot: Slot) -> Result<SlotMachine<D>, Fault>
        ensures made { IfOk result (IsMade D.says.level D.says.place self.now slot) }
        ensures only_memory { IsOkUnless result Fault.NoMemory }
    {
        let local = Arc::try_clone(&self.local)?;
        let machine = SlotMachine::new(self.alloc, self.me, slot, local, self.driver)?;
        Ok(machine)
    }

    /// Runs the slot's machine on an input in its place, so no machine is moved. Drops the machine if it decides.
    fn run(&mut self, slot: Slot, input: SlotInput) -> Result<SlotOutput, Fault>
        requires sound { IsSound D.says.level D.says.place self.old }
        requires is_open { IsOpen self.old.window.lowest self.old.decisions.items slot.0 }
        requires of_slot { IsOfSlot slot.0 input }
        ensures ran { IfOk result (λ out. Ran D.says.level D.says.extracted D.says.combined D.says.place self.old slot input out self.new) }
        ensures fits { IfOk result KeepsLimits }
        ensures same { self.new ≡ record self.old { machines = self.new.machines } }
        ensures only_memory { IsOkUnless result Fault.NoMemory }
    {
        let out = match self.machines.get_mut(&slot.0) {
            Some(machine) => enter(machine, input)?,
            None => return self.start(slot, input),
        };
        if out.decided.is_some() {
            self.give_up(slot);
        }
        Ok(out)
    }

    /// Makes the slot's machine and runs it on its first input.
    fn start(&mut self, slot: Slot, input: SlotInput) -> Result<SlotOutput, Fault>
        requires sound { IsSound D.says.level D.says.place self.old }
        requires is_open { IsOpen self.old.window.lowest self.old.decisions.items slot.0 }
        requires of_slot { IsOfSlot slot.0 input }
        requires none { machine_at self.old.machines.entries slot.0 ≡ None }
        ensures ran { IfOk result (λ out. Ran D.says.level D.says.extracted D.says.combined D.says.place self.old slot input out self.new) }
        ensures fits { IfOk result KeepsLimits }
        ensures same { self.new ≡ record self.old { machines = self.new.machines } }
        ensures only_memory { IsOkUnless result Fault.NoMemory }
    {
        let mut machine = self.new_machine(slot)?;
        let out = enter(&mut machine, input)?;
        self.keep(slot, machine, out.decided.is_some())?;
        Ok(out)
    }

    /// Keeps a slot's machine, unless it is done.
    fn keep(&mut self, slot: Slot, machine: SlotMachine<D>, is_done: bool) -> Result<(), Fault>
        ensures put { OnOk result ((s : ℕ) → machine_at self.new.machines.entries s ≡ cond (cond is_done false (tree.is_at (nat_cmp slot.0) s)) (Some machine) (machine_at self.old.machines.entries s)) }
        ensures same { self.new ≡ record self.old { machines = self.new.machines } }
        ensures only_memory { IsOkUnless result Fault.NoMemory }
    {
        if is_done {
            return Ok(());
        }
        self.put_back(slot, machine)
    }

    fn put_back(&mut self, slot: Slot, machine: SlotMachine<D>) -> Result<(), Fault>
        ensures put { OnOk result (tree.Updates nat_cmp self.old.machines self.new.machines slot.0 (Some machine)) }
        ensures same { self.new ≡ record self.old { machines = self.new.machines } }
        ensures only_memory { IsOkUnless result Fault.NoMemory }
    {
        let old = self.machines.insert(slot.0, machine)?;
        drop(old);
        Ok(())
    }

    fn give_up(&mut self, slot: Slot)
        ensures machines { (s : ℕ) → machine_at self.new.machines.entries s ≡ cond (tree.is_at (nat_cmp slot.0) s) None (machine_at self.old.machines.entries s) }
        ensures same { self.new ≡ record self.old { machines = self.new.machines } }
    {
        let old = self.machines.remove(&slot.0);
        drop(old);
    }

    // ---- entries and decisions

    /// Adds an entry and does nothing else.
    fn pass(&mut self, verdict: Option<Verdict>, fate: Fate) -> Result<Took, Fault>
        ensures verdict { IfOk result (λ took. took.verdict ≡ verdict) }
        ensures untold { IfOk result (λ took. took.command ≡ None) }
        ensures onward { IfOk result (λ took. took.onward ≡ None) }
        ensures outgoing { IfOk result (λ took. took.outgoing ≡ []) }
        ensures journal { OnOk result (self.new.journal.items ≡ self.old.journal.items ++ fate ∷ []) }
        ensures decisions { self.new.decisions.items ≡ self.old.decisions.items }
        ensures rest { KeepsRest self.old self.new }
        ensures window { self.new.window ≡ self.old.window }
        ensures err { OnErr result (self.new.journal.items ≡ self.old.journal.items) }
        ensures only_memory { IsOkUnless result Fault.NoMemory }
    {
        let outgoing = OutgoingList::new(Vec::new(self.alloc));
        add(&mut self.journal, &mut self.decisions, Some(fate), None)?;
        Ok(Took {
            verdict,
            command: None,
            onward: None,
            outgoing,
        })
    }

    /// Adds an entry that has no fresh statement and decides nothing.
    fn pass_entry(&mut self, verdict: Option<Verdict>, fate: Fate) -> Result<Took, Fault>
        requires sound { IsSound D.says.level D.says.place self.old }
        requires room { length self.old.journal.items < JOURNAL_LIMIT }
        requires quiet { IsQuiet fate }
        ensures passes { IfOk result (λ took. Passes (state_view false self.old) verdict (fate ∷ []) took (state_view false self.new)) }
        ensures untold { IfOk result (λ took. took.command ≡ None) }
        ensures sound { OnOk result (IsSound D.says.level D.says.place self.new) }
        ensures err { OnErr result (Leaves self.old self.new) }
        ensures only_memory { IsOkUnless result Fault.NoMemory }
    {
        self.pass(verdict, fate)
    }

    /// Answers a command that does nothing.
    fn pass_command(&self, verdict: Option<Verdict>) -> Took
        ensures passes { Passes (state_view false self.now) verdict [] result (state_view false self.now) }
        ensures verdict { result.verdict ≡ verdict }
        ensures untold { result.command ≡ None }
    {
        Took {
            verdict,
            command: None,
            onward: None,
            outgoing: OutgoingList::new(Vec::new(self.alloc)),
        }
    }

    /// Keeps what came of an input to a slot's machine: the decision, if there is one, and the entry, if there is one.
    fn settle(&mut self, slot: Slot, out: SlotOutput, fate: Option<Fate>) -> Result<Took, Fault>
        requires fits { KeepsLimits out }
        requires window { IsWindow (self.old.before + 1) self.old.decisions.items self.old.window }
        requires is_open { IsOpen self.old.window.lowest self.old.decisions.items slot.0 }
        ensures verdict { IfOk result (λ took. took.verdict ≡ Some (verdict_as out.verdict)) }
        ensures untold { IfOk result (λ took. took.command ≡ None) }
        ensures onward { IfOk result (λ took. took.onward ≡ option_map decided_onward (decided_by slot out.decided)) }
        ensures outgoing { IfOk result (λ took. took.outgoing ≡ to_peers out.emitted) }
        ensures journal { OnOk result (self.new.journal.items ≡ self.old.journal.items ++ option_to_list fate) }
        ensures decisions { OnOk result (self.new.decisions.items ≡ self.old.decisions.items ++ option_to_list (decided_by slot out.decided)) }
        ensures window { OnOk result (IsWindow (self.new.before + 1) self.new.decisions.items self.new.window) }
        ensures rest { KeepsRest self.old self.new }
        ensures err { OnErr result (Leaves self.old self.new) }
        ensures only_memory { IsOkUnless result Fault.NoMemory }
    {
        let SlotOutput {
            verdict,
            emitted,
            decided,
            ..
        } = out;
        let outgoing = to_all_peers(self.alloc, emitted)?;
        let onward = self.conclude_some(slot, decided, fate)?;
        Ok(Took {
            verdict: Some(verdict_from(verdict)),
            command: None,
            onward,
            outgoing,
        })
    }

    fn conclude_some(
        &mut self,
        slot: Slot,
        decided: Option<Certified>,
        fate: Option<Fate>,
    ) -> Result<Option<Onward>, Fault>
        requires short { ForSome decided (λ d. IsShortValue d.value) }
        requires window { IsWindow (self.old.before + 1) self.old.decisions.items self.old.window }
        requires is_open { IsOpen self.old.window.lowest self.old.decisions.items slot.0 }
        ensures onward { IfOk result (λ onward. onward ≡ option_map decided_onward (decided_by slot decided)) }
        ensures journal { OnOk result (self.new.journal.items ≡ self.old.journal.items ++ option_to_list fate) }
        ensures decisions { OnOk result (self.new.decisions.items ≡ self.old.decisions.items ++ option_to_list (decided_by slot decided)) }
        ensures window { OnOk result (IsWindow (self.new.before + 1) self.new.decisions.items self.new.window) }
        ensures rest { KeepsRest self.old self.new }
        ensures err { OnErr result (Leaves self.old self.new) }
        ensures only_memory { IsOkUnless result Fault.NoMemory }
    {
        match decided {
            Some(certified) => {
                let decision = certified_decision(self.alloc, slot, certified)?;
                Ok(Some(self.conclude(decision, fate)?))
            }
            None => self.conclude_none(fate),
        }
    }

    fn conclude_none(&mut self, fate: Option<Fate>) -> Result<Option<Onward>, Fault>
        requires window { IsWindow (self.old.before + 1) self.old.decisions.items self.old.window }
        ensures onward { IfOk result (λ onward. onward ≡ None) }
        ensures journal { OnOk result (self.new.journal.items ≡ self.old.journal.items ++ option_to_list fate) }
        ensures decisions { self.new.decisions.items ≡ self.old.decisions.items }
        ensures window { IsWindow (self.new.before + 1) self.new.decisions.items self.new.window }
        ensures rest { KeepsRest self.old self.new }
        ensures err { OnErr result (Leaves self.old self.new) }
        ensures only_memory { IsOkUnless result Fault.NoMemory }
    {
        add(&mut self.journal, &mut self.decisions, fate, None)?;
        Ok(None)
    }

    /// Adds a decision of an open slot, with its entry, and finds the new lowest undecided slot.
    fn conclude(&mut self, decision: SharedDecision, fate: Option<Fate>) -> Result<Onward, Fault>
        requires window { IsWindow (self.old.before + 1) self.old.decisions.items self.old.window }
        requires is_open { IsOpen self.old.window.lowest self.old.decisions.items decision.slot.0 }
        ensures onward { IfOk result (λ onward. onward ≡ decided_onward decision) }
        ensures journal { OnOk result (self.new.journal.items ≡ self.old.journal.items ++ option_to_list fate) }
        ensures decisions { OnOk result (self.new.decisions.items ≡ self.old.decisions.items ++ decision ∷ []) }
        ensures window { OnOk result (IsWindow (self.new.before + 1) self.new.decisions.items self.new.window) }
        ensures rest { KeepsRest self.old self.new }
        ensures err { OnErr result (Leaves self.old self.new) }
        ensures only_memory { IsOkUnless result Fault.NoMemory }
    {
        let onward = decision.share()?;
        self.window.decide(decision.get().slot)?;
        add(&mut self.journal, &mut self.decisions, fate, Some(decision))?;
        Ok(Onward::Decided(onward))
    }

    // ---- what is taken

    /// Takes an input of an open slot, and adds the entry that its verdict gives.
    fn take_input(
        &mut self,
        slot: Slot,
        input: SlotInput,
        entering: Option<Entering>,
    ) -> Result<Took, Fault>
        requires sound { IsSound D.says.level D.says.place self.old }
        requires room { length self.old.journal.items + length (option_to_list entering) ≤ JOURNAL_LIMIT }
        requires is_open { IsOpen self.old.window.lowest self.old.decisions.items slot.0 }
        requires of_slot { IsOfSlot slot.0 input }
        requires entry { Enters input entering }
        ensures ran { IfOk result (λ took. (verdict : Verdict) × RunsAt D.says.level D.says.extracted D.says.combined D.says.place (state_view false self.old) slot input (entries_with entering verdict) took (state_view false self.new) × (took.verdict ≡ Some verdict)) }
        ensures untold { IfOk result (λ took. took.command ≡ None) }
        ensures sound { OnOk result (IsSound D.says.level D.says.place self.new) }
        ensures err { OnErr result (Leaves self.old self.new) }
        ensures only_memory { IsOkUnless result Fault.NoMemory }
    {
        let out = self.run(slot, input)?;
        let verdict = verdict_from(out.verdict);
        let fate = entry_with(entering, verdict);
        self.settle(slot, out, fate)
    }

    fn take_envelope(
        &mut self,
        conn: ConnId,
        seq: Seq,
        envelope: BoxedEnvelope,
        set: Arc<SaneSet>,
    ) -> Result<Took, Fault>
        requires sound { IsSound D.says.level D.says.place self.old }
        requires room { length self.old.journal.items < JOURNAL_LIMIT }
        requires its_set { IsSetOf (Message.Envelope envelope) (Some set.value) }
        ensures takes { IfOk result (λ took. TakesEnvelope D.says.level D.says.extracted D.says.combined D.says.place (state_view false self.old) conn seq envelope (Some set.value) took (state_view false self.new)) }
        ensures untold { IfOk result (λ took. took.command ≡ None) }
        ensures sound { OnOk result (IsSound D.says.level D.says.place self.new) }
        ensures err { OnErr result (Leaves self.old self.new) }
        ensures only_memory { IsOkUnless result Fault.NoMemory }
    {
        let slot = slot_of(&envelope);
        if let Some(verdict) = self.shut(slot) {
            return self.pass_entry(
                Some(verdict),
                Fate::Taken {
                    conn,
                    seq,
                    message: Message::Envelope(envelope),
                    set: Some(set),
                    verdict,
                },
            );
        }
        let input = SlotInput::Envelope(envelope.share()?, Arc::try_clone(&set)?);
        let entering = Entering {
            conn,
            seq,
            envelope,
            set,
        };
        self.take_input(slot, input, Some(entering))
    }

    fn take_request(
        &mut self,
        conn: ConnId,
        seq: Seq,
        slot: Slot,
        set: Option<Arc<SaneSet>>,
    ) -> Result<Took, Fault>
        requires sound { IsSound D.says.level D.says.place self.old }
        requires room { length self.old.journal.items < JOURNAL_LIMIT }
        requires its_set { IsSetOf (Message.GetRecord slot) (option_map (λ s. s.value) set) }
        ensures takes { IfOk result (λ took. Forwards (state_view false self.old) conn seq slot set took (state_view false self.new)) }
        ensures untold { IfOk result (λ took. took.command ≡ None) }
        ensures sound { OnOk result (IsSound D.says.level D.says.place self.new) }
        ensures err { OnErr result (Leaves self.old self.new) }
        ensures only_memory { IsOkUnless result Fault.NoMemory }
    {
        let link = link_of(self.peers.as_slice(), &conn);
        let took = self.pass_entry(
            Some(Verdict::Forwarded),
            Fate::Taken {
                conn,
                seq,
                message: Message::GetRecord(slot),
                set,
                verdict: Verdict::Forwarded,
            },
        )?;
        Ok(Took {
            verdict: took.verdict,
            command: None,
            onward: Some(Onward::Asked { link, slot }),
            outgoing: took.outgoing,
        })
    }

    fn take_record(
        &mut self,
        conn: ConnId,
        seq: Seq,
        slot: Slot,
        value: Value,
        set: Option<Arc<SaneSet>>,
    ) -> Result<Took, Fault>
        requires sound { IsSound D.says.level D.says.place self.old }
        requires room { length self.old.journal.items < JOURNAL_LIMIT }
        requires its_set { IsSetOf (Message.Record slot value) (option_map (λ s. s.value) set) }
        requires fits { IsFitting (Message.Record slot value) }
        ensures takes { IfOk result (λ took. TakesRecord (state_view false self.old) conn seq slot value set took (state_view false self.new)) }
        ensures untold { IfOk result (λ took. took.command ≡ None) }
        ensures sound { OnOk result (IsSound D.says.level D.says.place self.new) }
        ensures err { OnErr result (Leaves self.old self.new) }
        ensures only_memory { IsOkUnless result Fault.NoMemory }
    {
        let link = link_of(self.peers.as_slice(), &conn);
        let verdict = self.record_verdict(link, slot);
        if is_deciding(verdict) {
            return self.decide_by_record(conn, seq, slot, value, set);
        }
        self.pass_entry(
            Some(verdict),
            Fate::Taken {
                conn,
                seq,
                message: Message::Record(slot, value),
                set,
                verdict,
            },
        )
    }

    fn decide_by_record(
        &mut self,
        conn: ConnId,
        seq: Seq,
        slot: Slot,
        value: Value,
        set: Option<Arc<SaneSet>>,
    ) -> Result<Took, Fault>
        requires sound { IsSound D.says.level D.says.place self.old }
        requires room { length self.old.journal.items < JOURNAL_LIMIT }
        requires its_set { IsSetOf (Message.Record slot value) (option_map (λ s. s.value) set) }
        requires fits { IsFitting (Message.Record slot value) }
        requires is_open { IsOpen self.old.window.lowest self.old.decisions.items slot.0 }
        requires asked { is_asked self.old.asked.keys (record { link = place_of_link self.old.peers.items conn; slot = slot }) ≡ true }
        ensures verdict { IfOk result (λ took. took.verdict ≡ Some Verdict.Decided) }
        ensures decides { IfOk result (λ took. Decides (state_view false self.old) conn seq slot value set took (state_view false self.new)) }
        ensures untold { IfOk result (λ took. took.command ≡ None) }
        ensures sound { OnOk result (IsSound D.says.level D.says.place self.new) }
        ensures err { OnErr result (Leaves self.old self.new) }
        ensures only_memory { IsOkUnless result Fault.NoMemory }
    {
        let decision = named_decision(self.alloc, conn, seq, slot, &value)?;
        self.give_up(slot);
        let fate = Fate::Taken {
            conn,
            seq,
            message: Message::Record(slot, value),
            set,
            verdict: Verdict::Decided,
        };
        let onward = self.conclude(decision, Some(fate))?;
        Ok(Took {
            verdict: Some(Verdict::Decided),
            command: None,
            onward: Some(onward),
            outgoing: OutgoingList::new(Vec::new(self.alloc)),
        })
    }

    fn take_command(&mut self, slot: Slot, input: SlotInput) -> Result<Took, Fault>
        requires sound { IsSound D.says.level D.says.place self.old }
        requires entry { Enters input None }
        requires of_slot { IsOfSlot slot.0 input }
        ensures takes { IfOk result (λ took. Commands D.says.level D.says.extracted D.says.combined D.says.place (state_view false self.old) slot input took (state_view false self.new)) }
        ensures sound { OnOk result (IsSound D.says.level D.says.place self.new) }
        ensures err { OnErr result (Leaves self.old self.new) }
        ensures only_memory { IsOkUnless result Fault.NoMemory }
    {
        if let Some(verdict) = self.shut(slot) {
            return Ok(self.pass_command(Some(verdict)));
        }
        self.take_input(slot, input, None)
    }

    fn take_proposal(&mut self, slot: Slot, value: Value) -> Result<Took, Fault>
        requires sound { IsSound D.says.level D.says.place self.old }
        ensures takes { IfOk result (λ took. Commands D.says.level D.says.extracted D.says.combined D.says.place (state_view false self.old) slot (Propose value) took (state_view false self.new)) }
        ensures tells { IfOk result (λ took. IsSomeAnd took.command (IsProposalFate D.says.level (state_view false self.old) slot value)) }
        ensures sound { OnOk result (IsSound D.says.level D.says.place self.new) }
        ensures err { OnErr result (Leaves self.old self.new) }
        ensures only_memory { IsOkUnless result Fault.NoMemory }
    {
        let took = self.take_command(slot, SlotInput::Propose(value))?;
        Ok(told(took, CommandFate::ProposedBefore, CommandFate::Proposed))
    }

    fn take_round(&mut self, slot: Slot) -> Result<Took, Fault>
        requires sound { IsSound D.says.level D.says.place self.old }
        ensures takes { IfOk result (λ took. Commands D.says.level D.says.extracted D.says.combined D.says.place (state_view false self.old) slot (Round) took (state_view false self.new)) }
        ensures tells { IfOk result (λ took. IsSomeAnd took.command (IsRoundFate (state_view false self.old) slot)) }
        ensures sound { OnOk result (IsSound D.says.level D.says.place self.new) }
        ensures err { OnErr result (Leaves self.old self.new) }
        ensures only_memory { IsOkUnless result Fault.NoMemory }
    {
        let took = self.take_command(slot, SlotInput::Round)?;
        Ok(told(took, CommandFate::NoRoundLeft, CommandFate::RoundAdded))
    }

    fn take_timer(&mut self, slot: Slot) -> Result<Took, Fault>
        requires sound { IsSound D.says.level D.says.place self.old }
        ensures takes { IfOk result (λ took. Commands D.says.level D.says.extracted D.says.combined D.says.place (state_view false self.old) slot (Timer) took (state_view false self.new)) }
        ensures tells { IfOk result (λ took. IsSomeAnd took.command (IsTimerFate (state_view false self.old) slot took.outgoing)) }
        ensures sound { OnOk result (IsSound D.says.level D.says.place self.new) }
        ensures err { OnErr result (Leaves self.old self.new) }
        ensures only_memory { IsOkUnless result Fault.NoMemory }
    {
        let idle = self.idle_timer(slot);
        let took = self.take_command(slot, SlotInput::Timer)?;
        Ok(told(took, idle, CommandFate::BallotMoved))
    }

    /// What became of a timer after which no statement goes out.
    fn idle_timer(&self, slot: Slot) -> CommandFate
        ensures { IsIdleTimer (machine_at self.now.machines.entries slot.0) result }
    {
        match self.machines.get(&slot.0) {
            Some(machine) => idle_timer_of(has_ballot(machine.balloter().board())),
            None => CommandFate::NoBallot,
        }
    }

    fn take_ask(&mut self, link: u8, slot: Slot) -> Result<Took, Fault>
        requires sound { IsSound D.says.level D.says.place self.old }
        ensures takes { IfOk result (λ took. TakesAsk (state_view false self.old) link slot took (state_view false self.new)) }
        ensures tells { IfOk result (λ took. IsSomeAnd took.command (IsAskFate (state_view false self.old) link slot)) }
        ensures sound { OnOk result (IsSound D.says.level D.says.place self.new) }
        ensures err { OnErr result (Leaves self.old self.new) }
        ensures only_memory { IsOkUnless result Fault.NoMemory }
    {
        let took = self.ask_or_pass(link, slot)?;
        Ok(told(took, CommandFate::AskedBefore, CommandFate::Asked))
    }

    fn ask_or_pass(&mut self, link: u8, slot: Slot) -> Result<Took, Fault>
        requires sound { IsSound D.says.level D.says.place self.old }
        ensures takes { IfOk result (λ took. TakesAsk (state_view false self.old) link slot took (state_view false self.new)) }
        ensures sound { OnOk result (IsSound D.says.level D.says.place self.new) }
        ensures err { OnErr result (Leaves self.old self.new) }
        ensures only_memory { IsOkUnless result Fault.NoMemory }
    {
        let verdict = self.ask_verdict(link, slot);
        if !is_fresh(verdict) {
            return Ok(self.pass_command(Some(verdict)));
        }
        self.ask(link, slot)
    }

    fn ask(&mut self, link: u8, slot: Slot) -> Result<Took, Fault>
        requires sound { IsSound D.says.level D.says.place self.old }
        ensures verdict { IfOk result (λ took. took.verdict ≡ Some Verdict.Fresh) }
        ensures asks { IfOk result (λ took. Asks (state_view false self.old) link slot took (state_view false self.new)) }
        ensures sound { OnOk result (IsSound D.says.level D.says.place self.new) }
        ensures err { OnErr result (Leaves self.old self.new) }
        ensures only_memory { IsOkUnless result Fault.NoMemory }
    {
        let mut outgoing = Vec::new(self.alloc);
        outgoing.push(Outgoing::To(link, Message::GetRecord(slot)))?;
        self.asked.insert(Asking { link, slot })?;
        Ok(Took {
            verdict: Some(Verdict::Fresh),
            command: None,
            onward: None,
            outgoing: OutgoingList::new(outgoing),
        })
    }

    /// Takes one thing, for which the journal has room. A refusal keeps the journal, the
    /// decisions and what was asked for. Nothing else may be used after it.
    pub fn take(&mut self, ready: Ready) -> Result<Took, Fault>
        requires sound { IsSound D.says.level D.says.place self.old }
        requires room { adds_entry ready ≡ true → length self.old.journal.items < JOURNAL_LIMIT }
        ensures takes { IfOk result (λ took. Takes D.says.level D.says.extracted D.says.combined D.says.place (state_view false self.old) ready took (state_view false self.new)) }
        ensures tells { IfOk result (λ took. TellsFate D.says.level (state_view false self.old) ready took) }
        ensures sound { OnOk result (IsSound D.says.level D.says.place self.new) }
        ensures err { OnErr result (Leaves self.old self.new) }
        ensures only_memory { IsOkUnless result Fault.NoMemory }
    {
        match ready {
            Ready::Deliver(delivery) => self.deliver(delivery),
            Ready::Dropped { conn, seq, cause } => {
                self.pass_entry(None, Fate::Dropped { conn, seq, cause })
            }
            Ready::Closed { conn, cause } => self.pass_entry(None, Fate::Closed { conn, cause }),
            Ready::Local(command) => self.command(command),
        }
    }

    fn deliver(&mut self, delivery: Delivery) -> Result<Took, Fault>
        requires sound { IsSound D.says.level D.says.place self.old }
        requires room { length self.old.journal.items < JOURNAL_LIMIT }
        ensures takes { IfOk result (λ took. TakesMessage D.says.level D.says.extracted D.says.combined D.says.place (state_view false self.old) delivery.conn delivery.seq delivery.message delivery.set took (state_view false self.new)) }
        ensures untold { IfOk result (λ took. took.command ≡ None) }
        ensures sound { OnOk result (IsSound D.says.level D.says.place self.new) }
        ensures err { OnErr result (Leaves self.old self.new) }
        ensures only_memory { IsOkUnless result Fault.NoMemory }
    {
        let (conn, seq, message, set) = delivery.into_parts();
        match message {
            Message::Envelope(envelope) => match set {
                Some(set) => self.take_envelope(conn, seq, envelope, set),
                // not reached, since an envelope has its set
                None => Ok(self.pass_command(None)),
            },
            Message::GetRecord(slot) => self.take_request(conn, seq, slot, set),
            Message::Record(slot, value) => self.take_record(conn, seq, slot, value, set),
            // not reached, since these aren't delivered
            Message::GetSet(_) | Message::Set(_) | Message::NoSet(_) | Message::Records { .. } => {
                Ok(self.pass_command(None))
            }
        }
    }

    fn command(&mut self, command: Command) -> Result<Took, Fault>
        requires sound { IsSound D.says.level D.says.place self.old }
        ensures takes { IfOk result (λ took. TakesCommand D.says.level D.says.extracted D.says.combined D.says.place (state_view false self.old) command took (state_view false self.new)) }
        ensures tells { IfOk result (λ took. TellsCommand D.says.level (state_view false self.old) command took) }
        ensures sound { OnOk result (IsSound D.says.level D.says.place self.new) }
        ensures err { OnErr result (Leaves self.old self.new) }
        ensures only_memory { IsOkUnless result Fault.NoMemory }
    {
        match command {
            Command::Propose(slot, value) => self.take_proposal(slot, value),
            Command::Round(slot) => self.take_round(slot),
            Command::Timer(slot) => self.take_timer(slot),
            Command::Tick => Ok(self.pass_command(None)),
            Command::Ask(link, slot) => self.take_ask(link, slot),
        }
    }
}

fn slot_of(envelope: &BoxedEnvelope) -> Slot
    ensures { result ≡ envelope.now.value.statement.slot }
{
    envelope.get().statement.slot
}

fn is_fresh(verdict: Verdict) -> bool
    ensures { IsTrue result ↔ (verdict ≡ Verdict.Fresh) }
{
    verdict == Verdict::Fresh
}

fn is_deciding(verdict: Verdict) -> bool
    ensures { IsTrue result ↔ (verdict ≡ Verdict.Decided) }
{
    verdict == Verdict::Decided
}

/// What came of a command, with the fate that its verdict gives: `idle` if nothing changed, `fresh` if something did.
fn told(took: Took, idle: CommandFate, fresh: CommandFate) -> Took
    ensures { result ≡ record took { command = Some (fate_as took.verdict idle fresh) } }
{
    let command = Some(fate_by(took.verdict, idle, fresh));
    Took {
        verdict: took.verdict,
        command,
        onward: took.onward,
        outgoing: took.outgoing,
    }
}

fn fate_by(verdict: Option<Verdict>, idle: CommandFate, fresh: CommandFate) -> CommandFate
    ensures { result ≡ fate_as verdict idle fresh }
{
    match verdict {
        Some(Verdict::OldSlot) => CommandFate::OldSlot,
        Some(Verdict::FarSlot) => CommandFate::FarSlot,
        Some(Verdict::Already) => CommandFate::Decided,
        Some(Verdict::BadValue) => CommandFate::BadValue,
        Some(Verdict::Idle) => idle,
        _ => fresh,
    }
}

fn idle_timer_of(has_ballot: bool) -> CommandFate
    ensures with { IsTrue has_ballot → result ≡ CommandFate.BallotStays }
    ensures without { ¬ (IsTrue has_ballot) → result ≡ CommandFate.NoBallot }
{
    if has_ballot {
        CommandFate::BallotStays
    } else {
        CommandFate::NoBallot
    }
}

/// Whether there is an own ballot statement that is no PREPARE of counter 0.
fn has_ballot(board: &Board) -> bool
    ensures { IsTrue result ↔ IsSomeAnd ((seen Balloting board.now).statement (seen Balloting board.now).me) HasCounter }
{
    match board.own(StatementKind::Balloting) {
        Some(envelope) => has_counter(&envelope.get().statement.pledges),
        None => false,
    }
}

fn has_counter(pledges: &Pledges) -> bool
    ensures { IsTrue result ↔ HasCounter pledges.now }
{
    match pledges {
        Pledges::Prepare(prepare) => prepare.ballot.counter != 0,
        Pledges::Confirm(_) | Pledges::Externalize(_) => true,
        Pledges::Nominate(_) => false,
    }
}

/// Gives an input to a machine. Each refusal is reported as out of memory.
fn enter<D: Driver + Drop + Copy>(
    machine: &mut SlotMachine<D>,
    input: SlotInput,
) -> Result<SlotOutput, Fault>
    requires sound { IsSlotSound D.says.level D.says.place machine.old }
    requires of_slot { IsOfSlot (slot_view machine.old).slot input }
    ensures takes { IfOk result (λ out. SlotTakes (D.says.level (driver_of machine.old) (slot_view machine.old).slot) (D.says.combined (driver_of machine.old) (slot_view machine.old).nomination.slot) input (slot_view machine.old) out (slot_view machine.new)) }
    ensures decides { IfOk result (λ out. SlotDecides (slot_view machine.old) out (slot_view machine.new)) }
    ensures ascending { IfOk result (λ out. ForSome out.decided HasAscendingNodes) }
    ensures nominates { OnOk result (NominatesExactly D.says.level D.says.extracted D.says.place (slot_view machine.old) input machine.new) }
    ensures votes { OnOk result (VotesWell D.says.level D.says.extracted D.says.place (slot_view machine.old) machine.new) }
    ensures fits { IfOk result KeepsLimits }
    ensures running { OnOk result (IsSlotRunning (slot_view machine.new)) }
    ensures driver { OnOk result (driver_of machine.new ≡ driver_of machine.old) }
    ensures sound { IsSlotSound D.says.level D.says.place machine.new }
    ensures only_memory { IsOkUnless result Fault.NoMemory }
{
    match machine.input(input) {
        Ok(out) => {
            see_that_it_ascends(&out.decided);
            Ok(out)
        }
        Err(_) => Err(Fault::NoMemory),
    }
}

/// Does nothing when it runs. Its contract says that a certificate's nodes ascend, since those of a set do.
fn see_that_it_ascends(decided: &Option<Certified>)
    ensures { ForSome decided.now HasAscendingNodes }
{
    if let Some(certified) = decided {
        let _ = certified.quorum.len();
    }
}

/// The ledger's verdict for what a machine found.
fn verdict_from(found: Found) -> Verdict
    ensures { result ≡ verdict_as found }
{
    match found {
        Found::Fresh => Verdict::Fresh,
        Found::Stale => Verdict::Stale,
        Found::Own => Verdict::Own,
        Found::BadStatement => Verdict::BadStatement,
        Found::BadValue => Verdict::BadValue,
        Found::Idle => Verdict::Idle,
    }
}

/// An envelope that enters the journal with its verdict.
#[derive(Drop)]
pub struct Entering {
    pub conn: ConnId,
    pub seq: Seq,
    pub envelope: BoxedEnvelope,
    pub set: Arc<SaneSet>,
}

fn entry_with(entering: Option<Entering>, verdict: Verdict) -> Option<Fate>
    ensures { option_to_list result ≡ entries_with entering verdict }
{
    match entering {
        Some(e) => Some(Fate::Taken {
            conn: e.conn,
            seq: e.seq,
            message: Message::Envelope(e.envelope),
            set: Some(e.set),
            verdict,
        }),
        None => None,
    }
}

/// The decision that a record names.
fn named_decision(
    alloc: Global,
    conn: ConnId,
    seq: Seq,
    slot: Slot,
    value: &Value,
) -> Result<SharedDecision, Fault>
    requires fits { IsFitting (Message.Record slot value.now) }
    ensures same { IfOk result (λ d. d ≡ named_by conn seq slot value.now) }
    ensures only_memory { IsOkUnless result Fault.NoMemory }
{
    let value = value.copy()?;
    let origin = Origin::Named { conn, seq };
    SharedDecision::new(
        alloc,
        Decision {
            slot,
            value,
            origin,
        },
    )
}

/// The decision of a slot's machine.
fn certified_decision(
    alloc: Global,
    slot: Slot,
    certified: Certified,
) -> Result<SharedDecision, Fault>
    requires short { IsShortValue certified.value }
    ensures same { IfOk result (λ d. decided_by slot (Some certified) ≡ Some d) }
    ensures only_memory { IsOkUnless result Fault.NoMemory }
{
    let Certified {
        value,
        n,
        quorum,
        own,
    } = certified;
    let origin = Origin::Machine {
        n,
        quorum: Quorum::new(quorum),
        own,
    };
    SharedDecision::new(
        alloc,
        Decision {
            slot,
            value,
            origin,
        },
    )
}
