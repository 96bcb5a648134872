//! The lines of a value.
ghost use Rattle.std.specs.Prelude.{◌≡◌, ◌++◌, map, List, IfOk, OnOk, IsOkUnless};
ghost use Rattle.std.specs.List.{AllByRecursion};
ghost use Rattle.scp_history.specs.scp_judged.specs.Verdicts.{heard_of};
ghost use Rattle.scp_history.specs.scp_judged.specs.Certified.{IsSaneHeard};
ghost use Rattle.scp_history.specs.declared.line.Line.{Line as OneLine};
ghost use Rattle.scp_shown.specs.ValueLines.{if_any, AreValueLines};
ghost use Rattle.scp_shown.specs.Sides.{AreCertified};

use crate::parts::Parts;
use crate::tally::{Tally, counts_by, tally_of};
use scp_history::below::judged::Said;
use scp_history::below::types::{Fault, NodeId, SharedValue};
use scp_history::{Line, NodeList};
use std::alloc::{AllocError, Global};

/// Adds the line of those for whom it isn't certified, if there are any.
fn add_uncertified(lines: &mut Vec<Line>, ledger: u32, nodes: Vec<NodeId>) -> Result<(), AllocError>
    ensures { OnOk result (lines.new.items ≡ lines.old.items ++ if_any (λ vs. Line.Uncertified ledger vs) nodes.items) }
{
    if nodes.is_empty() {
        return Ok(());
    }
    lines.push(Line::Uncertified {
        ledger,
        nodes: NodeList::new(nodes),
    })?;
    Ok(())
}

/// Adds the line of those who aren't backed, if there are any.
fn add_unbacked(lines: &mut Vec<Line>, ledger: u32, nodes: Vec<NodeId>) -> Result<(), AllocError>
    ensures { OnOk result (lines.new.items ≡ lines.old.items ++ if_any (λ vs. Line.Unbacked ledger vs) nodes.items) }
{
    if nodes.is_empty() {
        return Ok(());
    }
    lines.push(Line::Unbacked {
        ledger,
        nodes: NodeList::new(nodes),
    })?;
    Ok(())
}

/// Those for whom it is certified, those for whom it isn't, and those who aren't backed.
fn nodes_by(tally: Tally) -> (Vec<NodeId>, Vec<NodeId>, Vec<NodeId>)
    ensures certified { result.0.items ≡ tally.certified.holds.items }
    ensures uncertified { result.1.items ≡ tally.certified.fails.items }
    ensures unbacked { result.2.items ≡ tally.unbacked.items }
{
    let Tally {
        externalize: _,
        confirm: _,
        prepare: _,
        certified,
        backed: _,
        unbacked,
    } = tally;
    let Parts { holds, fails } = certified;
    (holds, fails, unbacked)
}

/// Adds the lines of a value. Returns those for whom it is certified. The only refusal is `Fault::NoMemory`.
pub(crate) fn add_value_lines(
    alloc: Global,
    lines: &mut Vec<Line>,
    ledger: u32,
    joined: &[Said],
    nodes: &[NodeId],
    value: &SharedValue,
) -> Result<Vec<NodeId>, Fault>
    requires { AllByRecursion IsSaneHeard (map heard_of joined.now) }
    ensures added { OnOk result ((more : List OneLine) × AreValueLines ledger (map heard_of joined.now) nodes.now value.now more × (lines.new.items ≡ lines.old.items ++ more)) }
    ensures certified { IfOk result (λ certified. AreCertified (map heard_of joined.now) nodes.now value.now certified.items) }
    ensures only_memory { IsOkUnless result Fault.NoMemory }
{
    let tally = tally_of(alloc, joined, nodes, value.get())?;
    let counts = counts_by(&tally);
    let value = value.share()?;
    lines.push(Line::Value {
        ledger,
        value,
        counts,
    })?;
    let (certified, uncertified, unbacked) = nodes_by(tally);
    add_uncertified(lines, ledger, uncertified)?;
    add_unbacked(lines, ledger, unbacked)?;
    Ok(certified)
}
