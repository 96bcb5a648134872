//! What a slot's machine needs for its next step, as lines.
ghost use Rattle.std.specs.Prelude.{◌≡◌, ◌++◌, OnOk, IsOkUnless, flat_map, string_bytes};
ghost use Rattle.scp_stand_slot.specs.Names.{nodes_text};
ghost use Rattle.scp_stand_slot.specs.Machine.{step_word, claim_text, who_text, missing_text, need_text};

use crate::names::Names;
use crate::texts::{write_counted, write_nodes, write_slot_words, write_value};
use scp_slot::below::types::{Fault, NodeId};
use scp_slot::below::vote::Claim;
use scp_stand_needs::{Need, Step};

fn word_of(step: Step) -> &'static str
    ensures { result.now ≡ step_word step }
{
    match step {
        Step::AcceptNominated => "accept-nominated",
        Step::ConfirmNominated => "confirm-nominated",
        Step::AcceptPrepared => "accept-prepared",
        Step::ConfirmPrepared => "confirm-prepared",
        Step::AcceptCommit => "accept-commit",
        Step::ConfirmCommit => "confirm-commit",
    }
}

/// Adds a claim.
fn write_claim(out: &mut String, claim: &Claim) -> Result<(), Fault>
    ensures added { OnOk result (string_bytes out.new ≡ string_bytes out.old ++ claim_text claim.now) }
    ensures only_memory { IsOkUnless result Fault.NoMemory }
{
    match claim {
        Claim::Nominated(value) => write_value(out, value),
        Claim::Prepared(ballot) => {
            write_counted(out, "ballot(", ballot.counter, ballot.value.get())
        }
        Claim::Committed(low, _, value) => write_counted(out, "commit(", *low, value.get()),
    }
}

/// Adds a word and nodes.
fn write_list(out: &mut String, names: &Names, word: &str, nodes: &[NodeId]) -> Result<(), Fault>
    ensures added { OnOk result (string_bytes out.new ≡ string_bytes out.old ++ word.now ++ nodes_text names.now nodes.now) }
    ensures only_memory { IsOkUnless result Fault.NoMemory }
{
    out.push_str(word)?;
    write_nodes(out, names, nodes)
}

/// Adds the nodes that vote for the claim, and those that accept it.
fn write_who(out: &mut String, names: &Names, need: &Need) -> Result<(), Fault>
    ensures added { OnOk result (string_bytes out.new ≡ string_bytes out.old ++ who_text names.now need.now) }
    ensures only_memory { IsOkUnless result Fault.NoMemory }
{
    write_list(out, names, " votes ", need.votes.as_slice())?;
    write_list(out, names, " accepts ", need.accepts.as_slice())
}

/// Adds the nodes that are lacking, those that are against the claim, and those that are short.
fn write_missing(out: &mut String, names: &Names, need: &Need) -> Result<(), Fault>
    ensures added { OnOk result (string_bytes out.new ≡ string_bytes out.old ++ missing_text names.now need.now) }
    ensures only_memory { IsOkUnless result Fault.NoMemory }
{
    write_list(out, names, " lacks ", need.lacks.as_slice())?;
    write_list(out, names, " against ", need.against.as_slice())?;
    write_list(out, names, " short ", need.short.as_slice())
}

/// Adds the line of a need, for the node with this id.
fn write_need(
    out: &mut String,
    names: &Names,
    me: NodeId,
    slot: u64,
    need: &Need,
) -> Result<(), Fault>
    ensures added { OnOk result (string_bytes out.new ≡ string_bytes out.old ++ need_text names.now me slot need.now) }
    ensures only_memory { IsOkUnless result Fault.NoMemory }
{
    let word = word_of(need.step);
    write_slot_words(out, names, me, slot)?;
    write!(out, " needs {word} ")?;
    write_claim(out, &need.claim)?;
    write_who(out, names, need)?;
    write_missing(out, names, need)?;
    out.push_str("\n")?;
    Ok(())
}

/// Adds the lines of needs.
pub(crate) fn write_needs(
    out: &mut String,
    names: &Names,
    me: NodeId,
    slot: u64,
    needs: &[Need],
) -> Result<(), Fault>
    ensures added { OnOk result (string_bytes out.new ≡ string_bytes out.old ++ flat_map (need_text names.now me slot) needs.now) }
    ensures only_memory { IsOkUnless result Fault.NoMemory }
{
    for need in needs {
        write_need(out, names, me, slot, need)?;
    }
    Ok(())
}
