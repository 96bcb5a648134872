//! The parts of a slot's machine, and what each input does to them.
ghost use Rattle.std.specs.Prelude.{◌≡◌, ◌≢◌, ◌⊎◌, ◌↔◌, ◌≤◌, None, true, false, length, is_some, IsTrue, IsSome, IfOk, IfErr, OnOk, IsOkUnless};
ghost use Rattle.std.specs.Option.{ForSome, option_map};
ghost use Rattle.scp_nominate.specs.scp_driver.specs.Driver.{IsFull};
ghost use Rattle.scp_nominate.specs.scp_envelope.specs.Sane.{IsSane};
ghost use Rattle.scp_nominate.specs.scp_envelope.specs.declared.statement.Statement.{Statement};
ghost use Rattle.scp_nominate.specs.scp_vote.specs.Board.{kind_of_pledges};
ghost use Rattle.scp_nominate.specs.Nomination as nominate;
ghost use Rattle.scp_ballot.specs.Balloting as ballot;
ghost use Rattle.scp_ballot.specs.Outcome.{BeginsBlank};
ghost use Rattle.scp_slot.specs.Judged.{HasInvalid, IsBehind};
ghost use Rattle.scp_slot.specs.inside.Judged.{IsJudged};
ghost use Rattle.scp_slot.specs.Newest.{newest_of};
ghost use Rattle.scp_slot.specs.Takes.{quiet, Cases};
ghost use Rattle.scp_nominate.specs.scp_vote.specs.declared.claim.StatementKind.TheVariants.{Nomination, Balloting};
ghost use Rattle.scp_slot.specs.declared.output.SlotInput.TheVariants.{Propose, Round, Timer, Envelope as Enveloped};

use crate::judging::has_invalid;
use crate::newest::{Heard, Newest};
use crate::output::{Emitted, SlotInput, SlotOutput, Verdict};
use scp_ballot::{Balloted, Balloter};
use scp_nominate::below::driver::{Driver, Level};
use scp_nominate::below::envelope::{Pledges, SharedEnvelope, Statement, newer};
use scp_nominate::below::quorum::SaneSet;
use scp_nominate::below::types::{Fault, NodeId, Slot, Value};
use scp_nominate::below::vote::{StatementKind, kind_of_pledges};
use scp_nominate::{Nominated, Nominator};
use std::alloc::Global;
use std::sync::Arc;

/// Nomination, ballots, and the newest statements of the other nodes.
#[derive(Drop)]
pub(crate) struct State<D: Driver + Drop> {
    pub(crate) me: NodeId,
    pub(crate) slot: Slot,
    pub(crate) nominator: Nominator<D>,
    pub(crate) balloter: Balloter,
    pub(crate) newest: Newest,
    /// Whether the own ballot statement is an EXTERNALIZE.
    pub(crate) decided: bool,
    /// Whether the last call of the ballots stopped its rules at their limit.
    pub(crate) more: bool,
}

impl<D: Driver + Drop> State<D> {
    ghost use Rattle.scp_slot.specs.Slot.{view_of, Begins, IsWorking};
    ghost use Rattle.scp_slot.specs.Takes.{PassesOn, Candidate, Enters, TakesInput, Takes, HearsFresh, HearsNomination, HearsBallot, IsOfSlot, NominatesBy};

    /// The parts of a machine that has heard and said nothing.
    pub(crate) fn new(
        alloc: Global,
        me: NodeId,
        slot: Slot,
        set: Arc<SaneSet>,
        driver: D,
    ) -> Result<State<D>, Fault>
        ensures begins { IfOk result (λ made. Begins me slot.0 set.value (view_of made false)) }
        ensures driver { IfOk result (λ made. nominate.driver_of made.nominator ≡ driver) }
        ensures sound { IfOk result (λ made. nominate.IsSound D.says.level D.says.place made.nominator) }
        ensures blank { IfOk result (λ made. BeginsBlank (ballot.ballots made.balloter)) }
        ensures only_memory { IsOkUnless result Fault.NoMemory }
    {
        let shared = set.clone()?;
        let nominator = Nominator::new(alloc, me, slot, shared, driver)?;
        let balloter = Balloter::new(alloc, me, slot, set);
        Ok(State {
            me,
            slot,
            nominator,
            balloter,
            newest: Newest::new(alloc),
            decided: false,
            more: false,
        })
    }

    /// Only the verdict, and nothing else.
    fn quiet(&self, verdict: Verdict) -> SlotOutput
        ensures { result ≡ quiet verdict self.now.more }
    {
        SlotOutput::quiet(verdict, self.more)
    }

    /// Whether the statement is of this node.
    fn is_own(&self, statement: &Statement) -> bool
        ensures { IsTrue result ↔ (statement.now.node ≡ self.now.me) }
    {
        statement.node == self.me
    }

    /// Whether the value is fully validated.
    fn is_full(&self, value: &Value) -> bool
        ensures { IsTrue result ↔ IsFull (D.says.level (nominate.driver_of self.now.nominator)) self.now.slot.0 value.now }
    {
        self.nominator.driver().validate(self.slot, value) == Level::FullyValidated
    }

    /// Whether the pledges are a ballot statement's, with an invalid value.
    fn has_invalid(&self, pledges: &Pledges) -> bool
        ensures { IsTrue result ↔ HasInvalid (D.says.level (nominate.driver_of self.now.nominator) self.now.slot.0) pledges.now }
    {
        has_invalid(self.nominator.driver(), self.slot, pledges)
    }

    /// Whether there is a newest statement of the same node and kind, and this one isn't newer.
    fn is_behind(&self, statement: &Statement) -> bool
        ensures { IsTrue result ↔ IsBehind (newest_of self.now.newest (kind_of_pledges statement.now.pledges) statement.now.node) statement.now }
    {
        match self.newest.last(statement) {
            Some(heard) => !newer(heard.statement.get(), statement),
            None => false,
        }
    }

    /// The verdict on an envelope's statement: the first that fits.
    fn judge(&self, statement: &Statement) -> Verdict
        ensures { IsJudged (D.says.level (nominate.driver_of self.now.nominator) self.now.slot.0) self.now.me (newest_of self.now.newest (kind_of_pledges statement.now.pledges) statement.now.node) statement.now result }
    {
        if self.is_own(statement) {
            Verdict::Own
        } else if !statement.sane() {
            Verdict::BadStatement
        } else if self.has_invalid(&statement.pledges) {
            Verdict::BadValue
        } else if self.is_behind(statement) {
            Verdict::Stale
        } else {
            Verdict::Fresh
        }
    }

    /// What the ballots give, with what nomination emits.
    fn balloted(
        &mut self,
        verdict: Verdict,
        nomination: Option<SharedEnvelope>,
        given: Balloted,
    ) -> SlotOutput
        ensures out { result ≡ record { verdict = verdict; emitted = record { nomination = nomination; ballot = given.statement }; decided = given.decided; more = given.more } }
        ensures new { self.new ≡ record self.old { more = given.more; decided = is_some given.decided } }
    {
        self.more = given.more;
        self.decided = given.decided.is_some();
        SlotOutput {
            verdict,
            emitted: Emitted {
                nomination,
                ballot: given.statement,
            },
            decided: given.decided,
            more: given.more,
        }
    }

    /// Gives a composite to the ballots as their candidate.
    fn offer(
        &mut self,
        nomination: Option<SharedEnvelope>,
        value: Value,
    ) -> Result<SlotOutput, Fault>
        requires working { (ballot.ballots self.old.balloter).failed ≡ false }
        ensures passes { IfOk result (λ out. Candidate value (view_of self.old false) out (view_of self.new false)) }
        ensures emitted { IfOk result (λ out. out.emitted.nomination ≡ nomination) }
        ensures verdict { IfOk result (λ out. out.verdict ≡ Verdict.Fresh) }
        ensures rest { OnOk result (self.new ≡ record self.old { balloter = self.new.balloter; more = self.new.more; decided = self.new.decided }) }
        ensures only_memory { IsOkUnless result Fault.NoMemory }
    {
        let given = self.balloter.candidate(value)?;
        Ok(self.balloted(Verdict::Fresh, nomination, given))
    }

    /// Passes the composite of nomination on to the ballots, if there is one.
    fn pass_on(&mut self, given: Nominated) -> Result<SlotOutput, Fault>
        requires working { (ballot.ballots self.old.balloter).failed ≡ false }
        ensures passes { IfOk result (λ out. PassesOn given.composite (view_of self.old false) out (view_of self.new false)) }
        ensures emitted { IfOk result (λ out. out.emitted.nomination ≡ given.statement) }
        ensures verdict { IfOk result (λ out. out.verdict ≡ Verdict.Fresh) }
        ensures rest { OnOk result (self.new ≡ record self.old { balloter = self.new.balloter; more = self.new.more; decided = self.new.decided }) }
        ensures only_memory { IsOkUnless result Fault.NoMemory }
    {
        let Nominated {
            statement,
            composite,
        } = given;
        match composite {
            Some(value) => {
                let out = self.offer(statement, value)?;
                Ok(out)
            }
            None => Ok(SlotOutput {
                verdict: Verdict::Fresh,
                emitted: Emitted {
                    nomination: statement,
                    ballot: None,
                },
                decided: None,
                more: self.more,
            }),
        }
    }

    /// This node proposes a value.
    fn propose(&mut self, value: Value) -> Result<SlotOutput, Fault>
        requires working { IsWorking D.says.level D.says.place self.old }
        ensures takes { IfOk result (λ out. TakesInput (D.says.level (nominate.driver_of self.old.nominator) self.old.slot.0) (D.says.combined (nominate.driver_of self.old.nominator) (nominate.nomination self.old.nominator).slot) (Propose value) (view_of self.old false) out (view_of self.new false)) }
        ensures driver { OnOk result (nominate.driver_of self.new.nominator ≡ nominate.driver_of self.old.nominator) }
        ensures sound { OnOk result (nominate.IsSound D.says.level D.says.place self.new.nominator) }
        ensures votes { OnOk result (nominate.VotesWell D.says.level D.says.extracted D.says.place (nominate.nomination self.old.nominator).lists self.new.nominator) }
        ensures nominates { OnOk result (NominatesBy D.says.level D.says.extracted D.says.place (nominate.nomination self.old.nominator) (Propose value) self.new.nominator) }
        ensures only_memory { IsOkUnless result Fault.NoMemory }
    {
        if !self.is_full(&value) {
            return Ok(self.quiet(Verdict::BadValue));
        }
        if self.nominator.has_proposal() {
            return Ok(self.quiet(Verdict::Idle));
        }
        let given = self.nominator.propose(value)?;
        let out = self.pass_on(given)?;
        Ok(out)
    }

    /// One more round of nomination.
    fn round(&mut self) -> Result<SlotOutput, Fault>
        requires working { IsWorking D.says.level D.says.place self.old }
        ensures takes { IfOk result (λ out. TakesInput (D.says.level (nominate.driver_of self.old.nominator) self.old.slot.0) (D.says.combined (nominate.driver_of self.old.nominator) (nominate.nomination self.old.nominator).slot) (Round) (view_of self.old false) out (view_of self.new false)) }
        ensures driver { OnOk result (nominate.driver_of self.new.nominator ≡ nominate.driver_of self.old.nominator) }
        ensures sound { OnOk result (nominate.IsSound D.says.level D.says.place self.new.nominator) }
        ensures votes { OnOk result (nominate.VotesWell D.says.level D.says.extracted D.says.place (nominate.nomination self.old.nominator).lists self.new.nominator) }
        ensures nominates { OnOk result (NominatesBy D.says.level D.says.extracted D.says.place (nominate.nomination self.old.nominator) (Round) self.new.nominator) }
        ensures only_memory { IsOkUnless result Fault.NoMemory }
    {
        if self.nominator.is_last_round() {
            return Ok(self.quiet(Verdict::Idle));
        }
        let given = self.nominator.round()?;
        let out = self.pass_on(given)?;
        Ok(out)
    }

    /// The ballot timer ran out.
    fn timer(&mut self) -> Result<SlotOutput, Fault>
        requires working { IsWorking D.says.level D.says.place self.old }
        ensures takes { IfOk result (λ out. TakesInput (D.says.level (nominate.driver_of self.old.nominator) self.old.slot.0) (D.says.combined (nominate.driver_of self.old.nominator) (nominate.nomination self.old.nominator).slot) (Timer) (view_of self.old false) out (view_of self.new false)) }
        ensures driver { OnOk result (nominate.driver_of self.new.nominator ≡ nominate.driver_of self.old.nominator) }
        ensures sound { OnOk result (nominate.IsSound D.says.level D.says.place self.new.nominator) }
        ensures votes { OnOk result (nominate.VotesWell D.says.level D.says.extracted D.says.place (nominate.nomination self.old.nominator).lists self.new.nominator) }
        ensures nominates { OnOk result (NominatesBy D.says.level D.says.extracted D.says.place (nominate.nomination self.old.nominator) (Timer) self.new.nominator) }
        ensures only_memory { IsOkUnless result Fault.NoMemory }
    {
        let given = self.balloter.timer()?;
        let verdict = changed(&given.statement);
        Ok(self.balloted(verdict, None, given))
    }

    /// Puts the statement with its set in the place of the newest of its node and kind.
    fn note(&mut self, envelope: &SharedEnvelope, set: &Arc<SaneSet>) -> Result<(), Fault>
        ensures enters { OnOk result (Enters envelope.now set.now (view_of self.old false) (view_of self.new false)) }
        ensures rest { OnOk result (self.new ≡ record self.old { newest = self.new.newest }) }
        ensures only_memory { IsOkUnless result Fault.NoMemory }
    {
        let statement = envelope.share_statement()?;
        let shared = set.clone()?;
        self.newest.put(Heard {
            statement,
            set: shared,
        })?;
        Ok(())
    }

    /// Takes a fresh NOMINATE.
    fn take_nomination(
        &mut self,
        envelope: SharedEnvelope,
        set: Arc<SaneSet>,
    ) -> Result<SlotOutput, Fault>
        requires kind { kind_of_pledges envelope.statement.pledges ≡ Nomination }
        requires other { envelope.statement.node ≢ self.old.me }
        requires working { IsWorking D.says.level D.says.place self.old }
        ensures takes { IfOk result (λ out. HearsNomination (D.says.combined (nominate.driver_of self.old.nominator) (nominate.nomination self.old.nominator).slot) envelope set (view_of self.old false) out (view_of self.new false)) }
        ensures driver { OnOk result (nominate.driver_of self.new.nominator ≡ nominate.driver_of self.old.nominator) }
        ensures sound { OnOk result (nominate.IsSound D.says.level D.says.place self.new.nominator) }
        ensures votes { OnOk result (nominate.VotesWell D.says.level D.says.extracted D.says.place (nominate.nomination self.old.nominator).lists self.new.nominator) }
        ensures nominates { OnOk result (NominatesBy D.says.level D.says.extracted D.says.place (nominate.nomination self.old.nominator) (Enveloped envelope set) self.new.nominator) }
        ensures only_memory { IsOkUnless result Fault.NoMemory }
    {
        self.note(&envelope, &set)?;
        let given = self.nominator.take(envelope, set)?;
        let out = self.pass_on(given)?;
        Ok(out)
    }

    /// Takes a fresh ballot statement.
    fn take_ballot(
        &mut self,
        envelope: SharedEnvelope,
        set: Arc<SaneSet>,
    ) -> Result<SlotOutput, Fault>
        requires kind { kind_of_pledges envelope.statement.pledges ≡ Balloting }
        requires other { envelope.statement.node ≢ self.old.me }
        requires of_slot { envelope.statement.slot.0 ≡ self.old.slot.0 }
        requires undecided { self.old.decided ≡ false }
        requires working { IsWorking D.says.level D.says.place self.old }
        ensures takes { IfOk result (λ out. HearsBallot envelope set (view_of self.old false) out (view_of self.new false)) }
        ensures driver { OnOk result (nominate.driver_of self.new.nominator ≡ nominate.driver_of self.old.nominator) }
        ensures sound { OnOk result (nominate.IsSound D.says.level D.says.place self.new.nominator) }
        ensures votes { OnOk result (nominate.VotesWell D.says.level D.says.extracted D.says.place (nominate.nomination self.old.nominator).lists self.new.nominator) }
        ensures nominates { OnOk result (NominatesBy D.says.level D.says.extracted D.says.place (nominate.nomination self.old.nominator) (Enveloped envelope set) self.new.nominator) }
        ensures only_memory { IsOkUnless result Fault.NoMemory }
    {
        self.note(&envelope, &set)?;
        let given = self.balloter.take(envelope, set)?;
        Ok(self.balloted(Verdict::Fresh, None, given))
    }

    /// Takes a fresh envelope.
    fn take(&mut self, envelope: SharedEnvelope, set: Arc<SaneSet>) -> Result<SlotOutput, Fault>
        requires other { envelope.statement.node ≢ self.old.me }
        requires of_slot { envelope.statement.slot.0 ≡ self.old.slot.0 }
        requires undecided { self.old.decided ≡ false }
        requires working { IsWorking D.says.level D.says.place self.old }
        ensures takes { IfOk result (λ out. HearsFresh (D.says.combined (nominate.driver_of self.old.nominator) (nominate.nomination self.old.nominator).slot) envelope set (view_of self.old false) out (view_of self.new false)) }
        ensures driver { OnOk result (nominate.driver_of self.new.nominator ≡ nominate.driver_of self.old.nominator) }
        ensures sound { OnOk result (nominate.IsSound D.says.level D.says.place self.new.nominator) }
        ensures votes { OnOk result (nominate.VotesWell D.says.level D.says.extracted D.says.place (nominate.nomination self.old.nominator).lists self.new.nominator) }
        ensures nominates { OnOk result (NominatesBy D.says.level D.says.extracted D.says.place (nominate.nomination self.old.nominator) (Enveloped envelope set) self.new.nominator) }
        ensures only_memory { IsOkUnless result Fault.NoMemory }
    {
        match kind_of_pledges(&envelope.get().statement.pledges) {
            StatementKind::Nomination => {
                let out = self.take_nomination(envelope, set)?;
                Ok(out)
            }
            StatementKind::Balloting => {
                let out = self.take_ballot(envelope, set)?;
                Ok(out)
            }
        }
    }

    /// Takes an envelope of the slot, if it is fresh.
    fn hear(&mut self, envelope: SharedEnvelope, set: Arc<SaneSet>) -> Result<SlotOutput, Fault>
        requires of_slot { envelope.statement.slot.0 ≡ self.old.slot.0 }
        requires undecided { self.old.decided ≡ false }
        requires working { IsWorking D.says.level D.says.place self.old }
        ensures takes { IfOk result (λ out. TakesInput (D.says.level (nominate.driver_of self.old.nominator) self.old.slot.0) (D.says.combined (nominate.driver_of self.old.nominator) (nominate.nomination self.old.nominator).slot) (Enveloped envelope set) (view_of self.old false) out (view_of self.new false)) }
        ensures driver { OnOk result (nominate.driver_of self.new.nominator ≡ nominate.driver_of self.old.nominator) }
        ensures sound { OnOk result (nominate.IsSound D.says.level D.says.place self.new.nominator) }
        ensures votes { OnOk result (nominate.VotesWell D.says.level D.says.extracted D.says.place (nominate.nomination self.old.nominator).lists self.new.nominator) }
        ensures nominates { OnOk result (NominatesBy D.says.level D.says.extracted D.says.place (nominate.nomination self.old.nominator) (Enveloped envelope set) self.new.nominator) }
        ensures only_memory { IsOkUnless result Fault.NoMemory }
    {
        let verdict = self.judge(&envelope.get().statement);
        if !is_fresh(verdict) {
            return Ok(self.quiet(verdict));
        }
        let out = self.take(envelope, set)?;
        Ok(out)
    }

    /// Takes one input before the decision.
    fn enter_undecided(&mut self, input: SlotInput) -> Result<SlotOutput, Fault>
        requires undecided { self.old.decided ≡ false }
        requires of_slot { IsOfSlot self.old.slot.0 input }
        requires working { IsWorking D.says.level D.says.place self.old }
        ensures takes { IfOk result (λ out. TakesInput (D.says.level (nominate.driver_of self.old.nominator) self.old.slot.0) (D.says.combined (nominate.driver_of self.old.nominator) (nominate.nomination self.old.nominator).slot) (input) (view_of self.old false) out (view_of self.new false)) }
        ensures driver { OnOk result (nominate.driver_of self.new.nominator ≡ nominate.driver_of self.old.nominator) }
        ensures sound { OnOk result (nominate.IsSound D.says.level D.says.place self.new.nominator) }
        ensures votes { OnOk result (nominate.VotesWell D.says.level D.says.extracted D.says.place (nominate.nomination self.old.nominator).lists self.new.nominator) }
        ensures nominates { OnOk result (NominatesBy D.says.level D.says.extracted D.says.place (nominate.nomination self.old.nominator) input self.new.nominator) }
        ensures only_memory { IsOkUnless result Fault.NoMemory }
    {
        match input {
            SlotInput::Propose(value) => self.propose(value),
            SlotInput::Round => self.round(),
            SlotInput::Timer => self.timer(),
            SlotInput::Envelope(envelope, set) => self.hear(envelope, set),
        }
    }

    /// Takes one input; after the decision nothing changes.
    pub(crate) fn enter(&mut self, input: SlotInput) -> Result<SlotOutput, Fault>
        requires of_slot { IsOfSlot self.old.slot.0 input }
        requires working { IsWorking D.says.level D.says.place self.old }
        ensures takes { IfOk result (λ out. Takes (D.says.level (nominate.driver_of self.old.nominator) self.old.slot.0) (D.says.combined (nominate.driver_of self.old.nominator) (nominate.nomination self.old.nominator).slot) (input) (view_of self.old false) out (view_of self.new false)) }
        ensures driver { OnOk result (nominate.driver_of self.new.nominator ≡ nominate.driver_of self.old.nominator) }
        ensures working { OnOk result (IsWorking D.says.level D.says.place self.new) }
        ensures votes { OnOk result (nominate.VotesWell D.says.level D.says.extracted D.says.place (nominate.nomination self.old.nominator).lists self.new.nominator) }
        ensures nominates { OnOk result (NominatesBy D.says.level D.says.extracted D.says.place (nominate.nomination self.old.nominator) input self.new.nominator) }
        ensures only_memory { IsOkUnless result Fault.NoMemory }
    {
        if self.decided {
            return Ok(self.quiet(Verdict::Idle));
        }
        let out = self.enter_undecided(input)?;
        Ok(out)
    }
}

/// Whether the verdict is fresh.
fn is_fresh(verdict: Verdict) -> bool
    ensures { IsTrue result ↔ (verdict ≡ Verdict.Fresh) }
{
    verdict == Verdict::Fresh
}

/// Fresh if there is a statement, else idle.
fn changed(statement: &Option<SharedEnvelope>) -> Verdict
    ensures { Cases (IsSome statement.now) (result ≡ Verdict.Fresh) (result ≡ Verdict.Idle) }
{
    match statement {
        Some(_) => Verdict::Fresh,
        None => Verdict::Idle,
    }
}
