//! What values need to become candidates of the nomination.
ghost use Rattle.std.specs.Prelude.{◌≡◌, ◌↔◌, ℕ, List, IsTrue, IsSome, Contains, IfOk, OnOk, IsOkUnless};
ghost use Rattle.std.specs.BTreeSet.{contains};
ghost use Rattle.scp_ballot_rules.specs.scp_envelope.specs.Ballots.{value_cmp};
ghost use Rattle.scp_kv.specs.Op.{ops_in};
ghost use Rattle.scp_ballot_rules.specs.scp_vote.specs.declared.claim.Claim.TheVariants.{Nominated};
ghost use Rattle.scp_ballot_rules.specs.scp_vote.specs.declared.claim.StatementKind.TheVariants.{Nomination};
ghost use Rattle.scp_ballot_rules.specs.scp_vote.specs.declared.claim.Support.TheVariants.{VotesOrAccepts};
ghost use Rattle.scp_ballot_rules.specs.scp_vote.specs.Claims.{Stands};
ghost use Rattle.scp_ballot_rules.specs.scp_vote.specs.Seen.{seen};
ghost use Rattle.scp_stand_needs.specs.Needs.{IsNamed, IsNominationDue, AreNominationNeeds};
ghost use Rattle.scp_stand_needs.specs.inside.Found.{Adds, IsNeedFor};

use crate::steps::{Need, Step, add, next};
use scp_ballot_rules::below::envelope::Pledges;
use scp_ballot_rules::below::vote::{Board, Claim, StatementKind};
use scp_kv::below::types::{Fault, NodeId, Value};
use scp_kv::is_ops;
use std::alloc::Global;
use std::collections::BTreeSet;

/// Adds the value, if it is an operation list and not in the set yet.
fn add_value(values: &mut BTreeSet<Value>, value: &Value) -> Result<(), Fault>
    ensures added { OnOk result (Adds (λ v. (value.now ≡ v) × IsSome (ops_in v)) values.old values.new) }
    ensures only_memory { IsOkUnless result Fault.NoMemory }
{
    if !is_ops(value) {
        return Ok(());
    }
    values.insert(value.copy()?)?;
    Ok(())
}

/// Adds these values, if they are operation lists and not in the set yet.
fn add_values(values: &mut BTreeSet<Value>, more: &[Value]) -> Result<(), Fault>
    ensures added { OnOk result (Adds (λ v. Contains more.now v × IsSome (ops_in v)) values.old values.new) }
    ensures only_memory { IsOkUnless result Fault.NoMemory }
{
    for value in more {
        add_value(values, value)?;
    }
    Ok(())
}

/// Adds the operation lists that the pledges vote for or accept.
fn add_named(values: &mut BTreeSet<Value>, pledges: &Pledges) -> Result<(), Fault>
    ensures added { OnOk result (Adds (λ v. Stands VotesOrAccepts (Nominated v) pledges.now × IsSome (ops_in v)) values.old values.new) }
    ensures only_memory { IsOkUnless result Fault.NoMemory }
{
    if let Pledges::Nominate(nominate) = pledges {
        add_values(values, nominate.votes.as_slice())?;
        add_values(values, nominate.accepted.as_slice())?;
    }
    Ok(())
}

/// The operation lists that nominations on the board name, ascending.
fn nominated(alloc: Global, board: &Board) -> Result<BTreeSet<Value>, Fault>
    ensures named { IfOk result (λ values. (v : List ℕ) → IsTrue (contains value_cmp values v) ↔ IsNamed (seen Nomination board.now) v) }
    ensures only_memory { IsOkUnless result Fault.NoMemory }
{
    let mut values = BTreeSet::new(alloc);
    for (node, entry) in board.statements(StatementKind::Nomination) {
        let _ = node;
        add_named(&mut values, &entry.envelope.get().statement.pledges)?;
    }
    Ok(values)
}

/// What a value that is named needs to be accepted or confirmed as nominated.
fn of_value(
    alloc: Global,
    members: &[NodeId],
    board: &Board,
    value: &Value,
) -> Result<Option<Need>, Fault>
    requires named { IsNamed (seen Nomination board.now) value.now }
    ensures next { IfOk result (IsNeedFor board.now members.now (IsNominationDue (seen Nomination board.now)) value.now) }
    ensures only_memory { IsOkUnless result Fault.NoMemory }
{
    let claim = Claim::Nominated(value.copy()?);
    next(
        alloc,
        members,
        board,
        Step::AcceptNominated,
        Step::ConfirmNominated,
        claim,
    )
}

/// For each value that nominations name: what it needs to be accepted as nominated, or, once it is accepted, to be confirmed.
pub fn needs_of_nomination(
    alloc: Global,
    members: &[NodeId],
    board: &Board,
) -> Result<Vec<Need>, Fault>
    ensures needs { IfOk result (λ needs. AreNominationNeeds board.now members.now needs.items) }
    ensures only_memory { IsOkUnless result Fault.NoMemory }
{
    let values = nominated(alloc, board)?;
    let mut needs = Vec::new(alloc);
    for value in &values {
        let need = of_value(alloc, members, board, value)?;
        add(&mut needs, need)?;
    }
    Ok(needs)
}
