//! The newest fresh statement of each other node and kind, with its quorum set.
ghost use Rattle.std.specs.Prelude.{◌≡◌, Some, None, OnOk, IsOkUnless, option_copied};
ghost use Rattle.std.specs.BTreeMap as node_map;
ghost use Rattle.scp_nominate.specs.scp_quorum.specs.NodeSet.{node_cmp};
ghost use Rattle.scp_nominate.specs.scp_types.specs.declared.names.NodeId.{NodeId};
ghost use Rattle.scp_nominate.specs.scp_vote.specs.Board.{kind_of_pledges};
ghost use Rattle.scp_nominate.specs.scp_vote.specs.declared.claim.StatementKind.{StatementKind};

use scp_nominate::below::envelope::{SharedStatement, Statement};
use scp_nominate::below::quorum::SaneSet;
use scp_nominate::below::types::{Fault, NodeId};
use scp_nominate::below::vote::{StatementKind, kind_of_pledges};
use std::alloc::Global;
use std::collections::BTreeMap;
use std::sync::Arc;

/// A statement of another node, with the quorum set that came with it.
#[derive(Drop)]
pub struct Heard {
    pub statement: SharedStatement,
    pub set: Arc<SaneSet>,
}

/// For each other node the newest fresh statement of each kind, kept besides the boards: for the verdict on a later one, and
/// for the set that came with it. Both share the envelope.
#[derive(Drop)]
pub(crate) struct Newest {
    nominations: BTreeMap<NodeId, Heard>,
    ballots: BTreeMap<NodeId, Heard>,
}

impl Newest {
    ghost use Rattle.scp_slot.specs.Newest.{newest_of};
    ghost use Rattle.scp_slot.specs.inside.Newest.{Enters};

    /// Nothing was heard.
    pub(crate) fn new(alloc: Global) -> Newest
        ensures { (kind : StatementKind) (v : NodeId) → newest_of result kind v ≡ None }
    {
        Newest {
            nominations: BTreeMap::new(alloc),
            ballots: BTreeMap::new(alloc),
        }
    }

    /// The newest of the node and kind of this statement.
    pub(crate) fn last(&self, statement: &Statement) -> Option<&Heard>
        ensures { option_copied result ≡ newest_of self.now (kind_of_pledges statement.now.pledges) statement.now.node }
    {
        match kind_of_pledges(&statement.pledges) {
            StatementKind::Nomination => self.nominations.get(&statement.node),
            StatementKind::Balloting => self.ballots.get(&statement.node),
        }
    }

    /// Puts the statement in the place of the newest of its node and kind.
    pub(crate) fn put(&mut self, heard: Heard) -> Result<(), Fault>
        ensures put { OnOk result (Enters self.old self.new heard) }
        ensures only_memory { IsOkUnless result Fault.NoMemory }
    {
        let node = heard.statement.get().node;
        match kind_of_pledges(&heard.statement.get().pledges) {
            StatementKind::Nomination => put_at(&mut self.nominations, node, heard),
            StatementKind::Balloting => put_at(&mut self.ballots, node, heard),
        }
    }
}

/// Makes the statement the node's newest.
fn put_at(map: &mut BTreeMap<NodeId, Heard>, node: NodeId, heard: Heard) -> Result<(), Fault>
    ensures put { OnOk result (node_map.Updates node_cmp map.old map.new node (Some heard)) }
    ensures only_memory { IsOkUnless result Fault.NoMemory }
{
    let old = map.insert(node, heard)?;
    drop(old);
    Ok(())
}
