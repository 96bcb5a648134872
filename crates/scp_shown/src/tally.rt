//! Who says a value, and for whom it is certified and backed.
ghost use Rattle.std.specs.Prelude.{◌≡◌, map, IfOk, IsOkUnless};
ghost use Rattle.std.specs.List.{AllByRecursion};
ghost use Rattle.scp_history.specs.scp_judged.specs.Verdicts.{heard_of};
ghost use Rattle.scp_history.specs.scp_judged.specs.Certified.{IsSaneHeard};
ghost use Rattle.scp_shown.specs.inside.Tallying.{IsTally, counted};

use crate::parts::{Parts, by_backed, by_certified};
use crate::spoken::sayers;
use scp_history::below::judged::Said;
use scp_history::below::types::{Fault, NodeId, Value};
use scp_history::{Counts, StatementWord};
use std::alloc::Global;

/// Those who say a value last, by their statement; those who externalize it, by whether it is certified for them; all nodes, by whether they
/// are backed; and those who aren't and externalize it.
#[derive(Drop)]
pub(crate) struct Tally {
    pub(crate) externalize: Vec<NodeId>,
    pub(crate) confirm: Vec<NodeId>,
    pub(crate) prepare: Vec<NodeId>,
    pub(crate) certified: Parts,
    pub(crate) backed: Parts,
    pub(crate) unbacked: Vec<NodeId>,
}

/// The tally of a value among these nodes.
pub(crate) fn tally_of(
    alloc: Global,
    joined: &[Said],
    nodes: &[NodeId],
    value: &Value,
) -> Result<Tally, Fault>
    requires { AllByRecursion IsSaneHeard (map heard_of joined.now) }
    ensures tally { IfOk result (λ tally. IsTally (map heard_of joined.now) nodes.now value.now tally) }
    ensures only_memory { IsOkUnless result Fault.NoMemory }
{
    let externalize = sayers(alloc, joined, StatementWord::Externalize, value, nodes)?;
    let confirm = sayers(alloc, joined, StatementWord::Confirm, value, nodes)?;
    let prepare = sayers(alloc, joined, StatementWord::Prepare, value, nodes)?;
    let certified = by_certified(alloc, joined, externalize.as_slice())?;
    let backed = by_backed(alloc, joined, value, nodes)?;
    let others = backed.fails.as_slice();
    let unbacked = sayers(alloc, joined, StatementWord::Externalize, value, others)?;
    Ok(Tally {
        externalize,
        confirm,
        prepare,
        certified,
        backed,
        unbacked,
    })
}

/// The numbers of a tally.
pub(crate) fn counts_by(tally: &Tally) -> Counts
    ensures { result ≡ counted tally.now }
{
    Counts {
        externalize: tally.externalize.len(),
        confirm: tally.confirm.len(),
        prepare: tally.prepare.len(),
        certified: tally.certified.holds.len(),
        backed: tally.backed.holds.len(),
    }
}
