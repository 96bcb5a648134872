//! What the machine gives after an input: the statement to emit, and the decision.
ghost use Rattle.std.specs.Prelude.{◌≡◌, ◌≢◌, ◌⊎◌, ◌↔◌, [], Option, Some, None, IsSome, IsSomeAnd, IsTrue, IfOk, IfSome, IfNone, OnOk, IsOkUnless};
ghost use Rattle.std.specs.Option.{ForSome};
ghost use Rattle.scp_ballot_rules.specs.scp_envelope.specs.Sane.{IsSane};
ghost use Rattle.scp_ballot_rules.specs.scp_envelope.specs.Newer.{IsNewer};
ghost use Rattle.scp_ballot_rules.specs.scp_envelope.specs.declared.statement.Statement.{Statement};
ghost use Rattle.scp_ballot_rules.specs.Ready.{IsReady};
ghost use Rattle.scp_ballot_rules.specs.Own.{counter_of};
ghost use Rattle.scp_ballot_rules.specs.declared.state.Phase.TheVariants.{Externalize};
ghost use Rattle.scp_ballot_rules.specs.inside.Rules.{IsChange};
ghost use Rattle.scp_ballot_rules.specs.Owed.{OwesNothing};
ghost use Rattle.scp_ballot_rules.specs.scp_quorum.specs.NodeSet.{is_in};
ghost use Rattle.scp_ballot_rules.specs.scp_vote.specs.Board.{Certificate, Confirmed};
ghost use Rattle.scp_ballot_rules.specs.scp_vote.specs.declared.claim.Claim.TheVariants.{Committed};
ghost use Rattle.scp_ballot_rules.specs.Told.{ballots_on};
ghost use Rattle.scp_ballot.specs.inside.Machine.{IsAtRest, IsSettled, IsOwnStatement, IsConfirmedAt};

use crate::balloted::{Balloted, Certified};
use crate::machine::{Machine, unsigned};
use scp_ballot_rules::below::envelope::{SharedEnvelope, SharedStatement, Statement, newer};
use scp_ballot_rules::below::types::{Ballot, Fault, NodeId, SharedValue};
use scp_ballot_rules::below::vote::{Board, Claim};
use scp_ballot_rules::{Phase, State, counter};
use std::collections::BTreeSet;

/// Whether the statement is newer than the one emitted before, if there was one. That one is kept for this test, which
/// then needs no fact about the rules.
fn is_newer(before: &Option<SharedStatement>, own: &Statement) -> bool
    ensures { IsTrue result ↔ ForSome before.now (λ s. IsNewer s own.now) }
{
    match before {
        Some(before) => newer(before.get(), own),
        None => true,
    }
}

/// Whether the own statement is sane, and newer than the one emitted before.
fn is_worth(before: &Option<SharedStatement>, own: &Statement) -> bool
    ensures { IsTrue result ↔ (IsSane own.now.pledges × ForSome before.now (λ s. IsNewer s own.now)) }
{
    own.sane() && is_newer(before, own)
}

/// The certificate of the commit: the greatest quorum at this node among the nodes that accept it.
fn certificate(
    board: &Board,
    n: u32,
    value: &SharedValue,
) -> Result<Option<BTreeSet<NodeId>>, Fault>
    ensures found { IfOk result (λ found. IfSome found (λ nodes. Certificate (ballots_on board.now) (Committed n n value.now) (is_in nodes))) }
    ensures none { IfOk result (λ found. IfNone found (Confirmed (ballots_on board.now) (Committed n n value.now) → ⊥)) }
    ensures only_memory { IsOkUnless result Fault.NoMemory }
{
    let claim = Claim::Committed(n, n, value.share()?);
    let found = board.certificate(&claim)?;
    Ok(found)
}

impl Machine {
    ghost use Rattle.scp_ballot.specs.inside.Gives.{Emits, IsCertifiedAt, Decides, Gives};

    /// The own statement, if it is to be emitted; it is then the last one emitted.
    fn emit(&mut self) -> Result<Option<SharedEnvelope>, Fault>
        ensures emits { IfOk result (λ found. Emits self.old self.new found) }
        ensures only_memory { IsOkUnless result Fault.NoMemory }
    {
        let own = self.own(&self.state)?;
        if !is_worth(&self.emitted, &own) {
            return Ok(None);
        }
        let envelope = SharedEnvelope::new(self.alloc, unsigned(self.alloc, own))?;
        let kept = envelope.share_statement()?;
        self.emitted = Some(kept);
        Ok(Some(envelope))
    }

    /// The decision on the low end's value, with its certificate.
    fn certify(&self, low: &Ballot) -> Result<Option<Certified>, Fault>
        ensures certified { IfOk result (λ found. IfSome found (λ d. IsCertifiedAt self.now low.now d)) }
        ensures none { IfOk result (λ found. IfNone found (Confirmed (ballots_on self.now.board) (Committed (counter_of self.now.state.high) (counter_of self.now.state.high) low.now.value) → ⊥)) }
        ensures only_memory { IsOkUnless result Fault.NoMemory }
    {
        let n = counter(&self.state.high);
        match certificate(&self.board, n, &low.value)? {
            Some(quorum) => {
                let statement = self.own(&self.state)?;
                let value = low.value.get().copy()?;
                let own = SharedEnvelope::new(self.alloc, unsigned(self.alloc, statement))?;
                Ok(Some(Certified {
                    value,
                    n,
                    quorum,
                    own,
                }))
            }
            None => Ok(None),
        }
    }

    /// The decision, in the phase Externalize.
    fn decision(&self) -> Result<Option<Certified>, Fault>
        requires ready { IsReady self.now.state }
        requires phase { self.now.state.phase ≡ Externalize }
        requires confirmed { IsConfirmedAt (ballots_on self.now.board) self.now.state }
        ensures certified { IfOk result (λ found. IsSomeAnd found (λ d. IsSomeAnd self.now.state.low (λ low. IsCertifiedAt self.now low d))) }
        ensures only_memory { IsOkUnless result Fault.NoMemory }
    {
        match &self.state.low {
            Some(low) => {
                let found = self.certify(low)?;
                Ok(found)
            }
            None => Ok(None),
        }
    }

    /// The decision, if the phase has become Externalize.
    fn decided(&self, before: Phase) -> Result<Option<Certified>, Fault>
        requires ready { IsReady self.now.state }
        requires confirmed { (before ≡ Externalize → ⊥) → IsConfirmedAt (ballots_on self.now.board) self.now.state }
        ensures decides { IfOk result (λ found. Decides before self.now found) }
        ensures only_memory { IsOkUnless result Fault.NoMemory }
    {
        if before == Phase::Externalize || self.state.phase != Phase::Externalize {
            return Ok(None);
        }
        let found = self.decision()?;
        Ok(found)
    }

    /// Settles. Returns what is to be emitted and what is decided.
    pub(crate) fn advance(&mut self, first: Option<State>) -> Result<Balloted, Fault>
        requires rest { IsAtRest self.old }
        requires first { IfSome first (λ next. IsChange (ballots_on self.old.board) self.old.state next) }
        ensures gives { IfOk result (λ given. Gives self.old first self.new given) }
        ensures only_memory { IsOkUnless result Fault.NoMemory }
    {
        let before = self.state.phase;
        let more = self.settle(first)?;
        let decided = self.decided(before)?;
        let statement = self.emit()?;
        Ok(Balloted {
            statement,
            decided,
            more,
        })
    }
}
