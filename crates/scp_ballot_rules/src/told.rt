//! What the board shows of ballots.
ghost use Rattle.std.specs.Prelude.{◌≡◌, ◌↔◌, IsTrue, IfOk, OnOk, OnErr, IsOkUnless};
ghost use Rattle.scp_vote.specs.Board.{kind_of, kind_of_pledges, PutsCounted, IsNewBoard, KeepsOwn};
ghost use Rattle.scp_vote.specs.scp_quorum.specs.Sane.{IsSane};
ghost use Rattle.scp_vote.specs.Seen.{seen};
ghost use Rattle.scp_vote.specs.declared.claim.StatementKind.TheVariants.{Balloting};
ghost use Rattle.scp_vote.specs.declared.claim.Claim.TheVariants.{Prepared, Committed};
ghost use Rattle.scp_ballot_rules.specs.Told.{ballots_on};
ghost use Rattle.scp_ballot_rules.specs.inside.Told.{Reached};

use scp_vote::below::envelope::SharedEnvelope;
use scp_vote::below::quorum::{QuorumSet, SaneSet};
use scp_vote::below::types::{Ballot, Fault, NodeId, SharedValue};
use scp_vote::{Board, Claim};
use std::alloc::Global;
use std::sync::Arc;

/// The stages of federated voting on a claim.
#[derive(Clone, Copy, PartialEq, Eq)]
pub(crate) enum Stage {
    Acceptance,
    Confirmation,
}

/// A board without statements.
pub fn new_board(alloc: Global, me: NodeId, local: Arc<SaneSet>) -> Board
    ensures { IsNewBoard me local.value (ballots_on result) }
{
    Board::new(alloc, me, local)
}

/// Puts a ballot statement on the board.
pub fn put_ballot(
    board: &mut Board,
    envelope: SharedEnvelope,
    delivered: Arc<SaneSet>,
) -> Result<(), Fault>
    requires ballot { kind_of_pledges envelope.statement.pledges ≡ Balloting }
    ensures put { OnOk result (PutsCounted (ballots_on board.old) (ballots_on board.new) envelope.statement.node envelope.statement.pledges delivered.value) }
    ensures only_memory { IsOkUnless result Fault.NoMemory }
{
    board.put(envelope, delivered)
}

/// Whether the claim has reached the stage of voting.
fn reached(board: &Board, stage: Stage, claim: &Claim) -> Result<bool, Fault>
    ensures exact { IfOk result (λ yes. IsTrue yes ↔ Reached stage (seen (kind_of claim.now) board.now) claim.now) }
    ensures only_memory { IsOkUnless result Fault.NoMemory }
{
    match stage {
        Stage::Acceptance => board.accepted(claim),
        Stage::Confirmation => board.confirmed(claim),
    }
}

/// Whether `prepare` of the ballot has reached the stage of voting.
pub(crate) fn reached_prepared(board: &Board, stage: Stage, ballot: &Ballot) -> Result<bool, Fault>
    ensures exact { IfOk result (λ yes. IsTrue yes ↔ Reached stage (ballots_on board.now) (Prepared ballot.now)) }
    ensures only_memory { IsOkUnless result Fault.NoMemory }
{
    let claim = Claim::Prepared(ballot.copy()?);
    reached(board, stage, &claim)
}

/// Whether `commit(n, value)` has reached the stage of voting, for all n from the low counter to the high one together.
pub(crate) fn reached_commit(
    board: &Board,
    stage: Stage,
    low: u32,
    high: u32,
    value: &SharedValue,
) -> Result<bool, Fault>
    ensures exact { IfOk result (λ yes. IsTrue yes ↔ Reached stage (ballots_on board.now) (Committed low high value.now)) }
    ensures only_memory { IsOkUnless result Fault.NoMemory }
{
    let claim = Claim::Committed(low, high, value.share()?);
    reached(board, stage, &claim)
}

/// This node.
pub fn me_of(board: &Board) -> NodeId
    ensures me { result ≡ (ballots_on board.now).me }
    ensures own { KeepsOwn (ballots_on board.now) }
{
    board.me()
}

/// This node's quorum set.
pub fn local_of(board: &Board) -> &Arc<SaneSet>
    ensures { result.now.value ≡ (ballots_on board.now).local }
{
    board.local()
}

/// This node's quorum set.
pub fn local_set(board: &Board) -> &QuorumSet
    ensures value { result.now ≡ (ballots_on board.now).local }
    ensures sane { IsSane (ballots_on board.now).local }
{
    local_of(board).set()
}
