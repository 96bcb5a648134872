//! Who says what, by the last ballot statements.
ghost use Rattle.std.specs.Prelude.{◌≡◌, ◌↔◌, map, Some, IfOk, OnOk, IsOkUnless, IsTrue};
ghost use Rattle.std.specs.Option.{option_map};
ghost use Rattle.scp_history.specs.scp_judged.specs.Verdicts.{heard_of};
ghost use Rattle.scp_shown.specs.Spoken.{spoken_in, spoken_last, AreSayers};
ghost use Rattle.scp_shown.specs.inside.Adding.{AddsIf};

use scp_history::StatementWord;
use scp_history::below::envelope::Pledges;
use scp_history::below::judged::{Said, last_ballot};
use scp_history::below::types::{Fault, NodeId, SharedValue, Value};
use std::alloc::{AllocError, Global};

/// Which ballot statement says which value.
fn spoken_by(pledges: &Pledges) -> Option<(StatementWord, &SharedValue)>
    ensures { option_map (λ s. (s.0, s.1.now)) result ≡ spoken_in pledges.now }
{
    match pledges {
        Pledges::Prepare(p) => Some((StatementWord::Prepare, &p.ballot.value)),
        Pledges::Confirm(p) => Some((StatementWord::Confirm, &p.ballot.value)),
        Pledges::Externalize(p) => Some((StatementWord::Externalize, &p.commit.value)),
        Pledges::Nominate(_) => None,
    }
}

/// What a node says last. Goes over what is heard.
pub(crate) fn last_spoken(joined: &[Said], node: NodeId) -> Option<(StatementWord, &SharedValue)>
    ensures { option_map (λ s. (s.0, s.1.now)) result ≡ spoken_last (map heard_of joined.now) node }
{
    match last_ballot(joined, node) {
        Some(said) => spoken_by(&said.envelope.get().statement.pledges),
        None => None,
    }
}

/// Whether the node says the value last by this statement.
fn does_say(joined: &[Said], word: StatementWord, value: &Value, node: NodeId) -> bool
    ensures { IsTrue result ↔ (spoken_last (map heard_of joined.now) node ≡ Some (word, value.now)) }
{
    match last_spoken(joined, node) {
        Some((said, other)) => said == word && other.get() == value,
        None => false,
    }
}

/// Adds the node where it is asked for.
pub(crate) fn add_where(
    nodes: &mut Vec<NodeId>,
    node: NodeId,
    is_asked: bool,
) -> Result<(), AllocError>
    ensures { OnOk result (AddsIf is_asked node nodes.old.items nodes.new.items) }
{
    if !is_asked {
        return Ok(());
    }
    nodes.push(node)?;
    Ok(())
}

/// Those of the nodes who say the value last by this statement, in their order.
pub(crate) fn sayers(
    alloc: Global,
    joined: &[Said],
    word: StatementWord,
    value: &Value,
    nodes: &[NodeId],
) -> Result<Vec<NodeId>, Fault>
    ensures those { IfOk result (λ those. AreSayers (map heard_of joined.now) word value.now nodes.now those.items) }
    ensures only_memory { IsOkUnless result Fault.NoMemory }
{
    let mut found = Vec::new(alloc);
    for node in nodes {
        let is_asked = does_say(joined, word, value, *node);
        add_where(&mut found, *node, is_asked)?;
    }
    Ok(found)
}
