//! Which statement stands in the way of a stale one.
ghost use Rattle.std.specs.Prelude.{◌≡◌, IfOk, option_copied};
ghost use Rattle.scp_facts.specs.Standing.{same_ballot as ballots_alike, same_ballots as both_alike, same_values as values_alike, same_prepare as prepares_alike, same_confirm as confirms_alike, same_externalize as externalizes_alike, same_nominate as nominates_alike, same_pledges as pledges_alike, same_statement as statements_alike, is_newer as newer_by, in_the_way as way_by};
ghost use Rattle.scp_facts.specs.Facts.{stands_at as stands_by, standing as standing_in, way_of as way_by_message, way_of_entry as way_by_entry};

use scp_turn::below::driver::KvDriver;
use scp_turn::below::envelope::{
    Confirm, Envelope, Externalize, Nominate, Pledges, Prepare, SharedEnvelope, Statement, newer,
};
use scp_turn::below::slot::SlotMachine;
use scp_turn::below::types::{Ballot, Fault, NodeId, Value};
use scp_turn::below::vote::{StatementKind, kind_of_pledges};
use scp_turn::below::wire::Message;
use scp_turn::{Fate, Node, Verdict};

fn same_ballot(one: &Ballot, other: &Ballot) -> bool
    ensures { result ≡ ballots_alike one.now other.now }
{
    one.counter == other.counter && one.value == other.value
}

fn same_ballots(one: &Option<Ballot>, other: &Option<Ballot>) -> bool
    ensures { result ≡ both_alike one.now other.now }
{
    match (one, other) {
        (None, None) => true,
        (Some(one), Some(other)) => same_ballot(one, other),
        (None, Some(_)) | (Some(_), None) => false,
    }
}

fn same_values(one: &[Value], other: &[Value]) -> bool
    ensures { result ≡ values_alike one.now other.now }
{
    one == other
}

fn same_prepare(one: &Prepare, other: &Prepare) -> bool
    ensures { result ≡ prepares_alike one.now other.now }
{
    one.set_hash == other.set_hash
        && same_ballot(&one.ballot, &other.ballot)
        && same_ballots(&one.prepared, &other.prepared)
        && same_ballots(&one.prepared_prime, &other.prepared_prime)
        && one.n_commit == other.n_commit
        && one.n_high == other.n_high
}

fn same_confirm(one: &Confirm, other: &Confirm) -> bool
    ensures { result ≡ confirms_alike one.now other.now }
{
    same_ballot(&one.ballot, &other.ballot)
        && one.n_prepared == other.n_prepared
        && one.n_commit == other.n_commit
        && one.n_high == other.n_high
        && one.set_hash == other.set_hash
}

fn same_externalize(one: &Externalize, other: &Externalize) -> bool
    ensures { result ≡ externalizes_alike one.now other.now }
{
    same_ballot(&one.commit, &other.commit)
        && one.n_high == other.n_high
        && one.set_hash == other.set_hash
}

fn same_nominate(one: &Nominate, other: &Nominate) -> bool
    ensures { result ≡ nominates_alike one.now other.now }
{
    one.set_hash == other.set_hash
        && same_values(one.votes.as_slice(), other.votes.as_slice())
        && same_values(one.accepted.as_slice(), other.accepted.as_slice())
}

fn same_pledges(one: &Pledges, other: &Pledges) -> bool
    ensures { result ≡ pledges_alike one.now other.now }
{
    match (one, other) {
        (Pledges::Prepare(one), Pledges::Prepare(other)) => same_prepare(one, other),
        (Pledges::Confirm(one), Pledges::Confirm(other)) => same_confirm(one, other),
        (Pledges::Externalize(one), Pledges::Externalize(other)) => same_externalize(one, other),
        (Pledges::Nominate(one), Pledges::Nominate(other)) => same_nominate(one, other),
        _ => false,
    }
}

/// Whether one node says the same of one slot in both.
pub fn same_statement(one: &Statement, other: &Statement) -> bool
    ensures { result ≡ statements_alike one.now other.now }
{
    one.node == other.node && one.slot == other.slot && same_pledges(&one.pledges, &other.pledges)
}

/// Whether the second is newer than the first.
fn is_newer(old: &Statement, new: &Statement) -> bool
    ensures { result ≡ newer_by old.now new.now }
{
    newer(old, new)
}

/// The statement that stands, shared, where it is neither the same as the one that came nor newer.
fn in_the_way(
    came: &Envelope,
    standing: Option<&SharedEnvelope>,
) -> Result<Option<SharedEnvelope>, Fault>
    ensures { IfOk result (λ way. way ≡ way_by came.now (option_copied standing.entry)) }
{
    let Some(standing) = standing else {
        return Ok(None);
    };
    let statement = &standing.get().statement;
    if same_statement(&came.statement, statement) || is_newer(&came.statement, statement) {
        return Ok(None);
    }
    Ok(Some(standing.share()?))
}

/// The newest statement of this kind and node on the machine's boards.
fn stands_at<'a>(
    machine: &'a SlotMachine<KvDriver>,
    kind: StatementKind,
    who: &NodeId,
) -> Option<&'a SharedEnvelope>
    ensures { option_copied result ≡ stands_by kind who.now machine.now }
{
    match kind {
        StatementKind::Nomination => machine.nominator().board().statement(kind, who),
        StatementKind::Balloting => machine.balloter().board().statement(kind, who),
    }
}

/// The newest statement of the node, the slot and the kind of this one, where the slot has a machine.
fn standing<'a>(node: &'a Node, came: &Envelope) -> Option<&'a SharedEnvelope>
    ensures { option_copied result ≡ standing_in node.now came.now }
{
    if node.has_failed() {
        return None;
    }
    let statement = &came.statement;
    match node.ledger().machine(statement.slot) {
        Some(machine) => {
            stands_at(
                machine,
                kind_of_pledges(&statement.pledges),
                &statement.node,
            )
        }
        None => None,
    }
}

/// What stands in the way of a message with this verdict.
fn way_of(node: &Node, message: &Message, verdict: Verdict) -> Result<Option<SharedEnvelope>, Fault>
    ensures { IfOk result (λ way. way ≡ way_by_message node.now message.now verdict) }
{
    match (message, verdict) {
        (Message::Envelope(envelope), Verdict::Stale) => {
            let came = envelope.get();
            in_the_way(came, standing(node, came))
        }
        _ => Ok(None),
    }
}

/// What stands in the way of what became an entry.
pub(crate) fn way_of_entry(
    node: &Node,
    fate: Option<&Fate>,
) -> Result<Option<SharedEnvelope>, Fault>
    ensures { IfOk result (λ way. way ≡ way_by_entry node.now (option_copied fate.entry)) }
{
    match fate {
        Some(
            Fate::Taken {
                message,
                verdict,
                ..
            },
        ) => way_of(node, message, *verdict),
        Some(Fate::Dropped { .. } | Fate::Closed { .. }) | None => Ok(None),
    }
}
