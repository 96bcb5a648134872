//! The newest statement of each node and kind, for the verdict on a later one.
ghost use Rattle.std.specs.Prelude.{◌≡◌, ◌↔◌, None, Some, OnOk, IsOkUnless, IsTrue, option_copied};
ghost use Rattle.std.specs.BTreeMap as node_map;
ghost use Rattle.scp_ledger.specs.scp_types.specs.declared.names.NodeId.{NodeId};
ghost use Rattle.scp_ledger.specs.scp_quorum.specs.NodeSet.{node_cmp};
ghost use Rattle.scp_ledger.specs.scp_vote.specs.Board.{kind_of_pledges};
ghost use Rattle.scp_ledger.specs.scp_vote.specs.declared.claim.StatementKind.{StatementKind};

use scp_ledger::below::envelope::{SharedStatement, Statement, newer};
use scp_ledger::below::types::{Fault, NodeId};
use scp_ledger::below::vote::{StatementKind, kind_of_pledges};
use std::alloc::Global;
use std::collections::BTreeMap;

/// The newest statement of each node, of nominations and of ballot statements.
#[derive(Drop)]
pub(crate) struct Newest {
    nominations: BTreeMap<NodeId, SharedStatement>,
    ballots: BTreeMap<NodeId, SharedStatement>,
}

impl Newest {
    ghost use Rattle.scp_judged.specs.inside.Newest.{newest_in, Enters};
    ghost use Rattle.scp_judged.specs.Verdicts.{IsNext};

    /// Nothing was said.
    pub(crate) fn new(alloc: Global) -> Newest
        ensures { (kind : StatementKind) (v : NodeId) → newest_in result kind v ≡ None }
    {
        Newest {
            nominations: BTreeMap::new(alloc),
            ballots: BTreeMap::new(alloc),
        }
    }

    /// The newest of the node and kind of this statement.
    fn last(&self, statement: &Statement) -> Option<&SharedStatement>
        ensures { option_copied result ≡ newest_in self.now (kind_of_pledges statement.now.pledges) statement.now.node }
    {
        match kind_of_pledges(&statement.pledges) {
            StatementKind::Nomination => self.nominations.get(&statement.node),
            StatementKind::Balloting => self.ballots.get(&statement.node),
        }
    }

    /// Whether the statement is newer than the newest of its node and kind, if there is one.
    pub(crate) fn precedes(&self, statement: &Statement) -> bool
        ensures { IsTrue result ↔ IsNext (newest_in self.now) statement.now }
    {
        match self.last(statement) {
            Some(last) => newer(last.get(), statement),
            None => true,
        }
    }

    /// Puts the statement in the place of the newest of its node and kind. A refusal leaves all as it was.
    pub(crate) fn put(&mut self, statement: SharedStatement) -> Result<(), Fault>
        ensures put { OnOk result (Enters self.old self.new statement) }
        ensures only_memory { IsOkUnless result Fault.NoMemory }
    {
        let node = statement.get().node;
        match kind_of_pledges(&statement.get().pledges) {
            StatementKind::Nomination => put_at(&mut self.nominations, node, statement),
            StatementKind::Balloting => put_at(&mut self.ballots, node, statement),
        }
    }
}

/// Makes the statement the node's newest.
fn put_at(
    map: &mut BTreeMap<NodeId, SharedStatement>,
    node: NodeId,
    statement: SharedStatement,
) -> Result<(), Fault>
    ensures put { OnOk result (node_map.Updates node_cmp map.old map.new node (Some statement)) }
    ensures only_memory { IsOkUnless result Fault.NoMemory }
{
    let old = map.insert(node, statement)?;
    drop(old);
    Ok(())
}
