//! Whether a quorum has reached a counter.
ghost use Rattle.std.specs.Prelude.{◌≡◌, ◌≤◌, ◌↔◌, IsTrue, IfOk, IsOkUnless};
ghost use Rattle.scp_nominate.specs.scp_quorum.specs.Quorum.{set_of};
ghost use Rattle.scp_nominate.specs.scp_vote.specs.Seen.{seen};
ghost use Rattle.scp_nominate.specs.scp_vote.specs.declared.claim.StatementKind.TheVariants.{Balloting};
ghost use Rattle.scp_ballot.specs.scp_ballot_rules.specs.Owed.{counter_in};
ghost use Rattle.scp_slot.specs.Timers.{HasQuorumFrom};
ghost use Rattle.scp_slot.specs.inside.Sets.{AreSetsFrom};

use scp_ballot::below::ballot_rules::counter_of_pledges;
use scp_nominate::below::quorum::{SaneSet, greatest_quorum};
use scp_nominate::below::types::{Fault, NodeId};
use scp_nominate::below::vote::{Board, Entry, StatementKind};
use std::alloc::{AllocError, Global};
use std::collections::BTreeMap;
use std::sync::Arc;

/// Whether the statement has this counter or a higher one.
fn has_come(entry: &Entry, counter: u32) -> bool
    ensures { IsTrue result ↔ counter ≤ counter_in entry.now.envelope.statement.pledges }
{
    counter <= counter_of_pledges(&entry.envelope.get().statement.pledges)
}

/// The counted sets of the nodes whose ballot statement has this counter or a higher one.
#[tactic(auto, using(crate::proofs::Sets::putting_start))]
fn sets_from(
    alloc: Global,
    board: &Board,
    counter: u32,
) -> Result<BTreeMap<NodeId, Arc<SaneSet>>, AllocError>
    ensures { IfOk result (λ sets. AreSetsFrom (seen Balloting board.now) counter (set_of sets)) }
{
    let mut sets = BTreeMap::new(alloc);
    for (node, entry) in board.statements(StatementKind::Balloting) {
        if has_come(entry, counter) {
            let set = Arc::try_clone(&entry.counted)?;
            sets.insert(*node, set)?;
        }
    }
    Ok(sets)
}

/// Whether a quorum at this node is among the nodes whose ballot statement has this counter or a higher one. Each node counts by the set that
/// is counted for it (the SCP draft: the timer of a ballot runs from then on). The only refusal is `Fault::NoMemory`. Costs one search for
/// the greatest quorum among these nodes.
pub fn has_quorum_at(alloc: Global, board: &Board, counter: u32) -> Result<bool, Fault>
    ensures exact { IfOk result (λ yes. IsTrue yes ↔ HasQuorumFrom (seen Balloting board.now) counter) }
    ensures only_memory { IsOkUnless result Fault.NoMemory }
{
    let sets = sets_from(alloc, board, counter)?;
    let me = board.me();
    let found = greatest_quorum(alloc, me, &sets)?;
    Ok(found.is_some())
}
