//! The nomination part of a board.
ghost use Rattle.std.specs.Prelude.{◌≡◌, OnOk, IsOkUnless};
ghost use Rattle.std.specs.Option.{option_map};
ghost use Rattle.scp_vote.specs.Board.{kind_of_pledges, PutsCounted, IsNewBoard};
ghost use Rattle.scp_vote.specs.declared.claim.StatementKind.TheVariants.{Nomination};
ghost use Rattle.scp_nominate.specs.Heard.{heard};

use scp_vote::below::envelope::SharedEnvelope;
use scp_vote::below::quorum::SaneSet;
use scp_vote::below::types::{Fault, NodeId};
use scp_vote::{Board, StatementKind};
use std::alloc::Global;
use std::sync::Arc;

/// A board without statements.
pub(crate) fn new_board(alloc: Global, me: NodeId, local: Arc<SaneSet>) -> Board
    ensures { IsNewBoard me local.value (heard result) }
{
    Board::new(alloc, me, local)
}

/// This node.
pub(crate) fn me_of(board: &Board) -> NodeId
    ensures { result ≡ (heard board.now).me }
{
    board.me()
}

/// This node's quorum set.
pub(crate) fn local_of(board: &Board) -> &Arc<SaneSet>
    ensures { result.now.value ≡ (heard board.now).local }
{
    board.local()
}

/// The node's newest NOMINATE.
pub(crate) fn statement_of<'a>(board: &'a Board, node: &NodeId) -> Option<&'a SharedEnvelope>
    ensures { option_map (λ e. e.now.statement.pledges) result ≡ (heard board.now).statement node.now }
{
    board.statement(StatementKind::Nomination, node)
}

/// Puts a NOMINATE on the board.
pub(crate) fn put_nominate(
    board: &mut Board,
    envelope: SharedEnvelope,
    delivered: Arc<SaneSet>,
) -> Result<(), Fault>
    requires nominate { kind_of_pledges envelope.statement.pledges ≡ Nomination }
    ensures put { OnOk result (PutsCounted (heard board.old) (heard board.new) envelope.statement.node envelope.statement.pledges delivered.value) }
    ensures only_memory { IsOkUnless result Fault.NoMemory }
{
    board.put(envelope, delivered)
}
