//! Whether two nodes say the same of the open slots.
ghost use Rattle.std.specs.Prelude.{◌≡◌, ◌↔◌, ◌+◌, ◌<◌, ℕ, false, IsTrue, option_map, option_copied, nat_eq, ◌&&◌};
ghost use Rattle.scp_again.specs.scp_types.specs.declared.limits.TheConstants.{WINDOW};
ghost use Rattle.scp_again.specs.scp_nominate.specs.Nomination.{own};
ghost use Rattle.scp_again.specs.scp_slot.specs.Slot.{slot_view};
ghost use Rattle.scp_again.specs.scp_ledger.specs.Seen.{machine_at};
ghost use Rattle.scp_again.specs.scp_outbox.specs.Handing.{waiting_at};
ghost use Rattle.scp_again.specs.scp_apply.specs.Applier.{next_of};
ghost use Rattle.scp_turn.specs.Turn.{links_of};
ghost use Rattle.scp_epoch.specs.Epoch.{StandsLike};
ghost use Rattle.scp_epoch.specs.Saying.{decision_at, nominated_by, balloted_by, SaySame, SaysTheSame};
ghost use Rattle.scp_epoch.specs.inside.Alike.{same_decision as decision_alike, same_decisions as decisions_alike, same_machine as machine_alike, same_at as alike_at};

use crate::alike::{same_own, same_said};
use crate::carrying::count_links;
use scp_again::below::envelope::{SharedEnvelope, Statement};
use scp_again::below::ledger::{Decision, SharedDecision};
use scp_again::below::node::Application;
use scp_again::below::slot::SlotMachine;
use scp_again::below::types::{Slot, WINDOW};
use scp_again::below::vote::StatementKind;
use scp_turn::Node;

/// The decision of a slot, if it is among these.
fn decision_of(decisions: &[SharedDecision], slot: u64) -> Option<&SharedDecision>
    ensures { option_copied result ≡ decision_at decisions.now slot }
{
    decisions
        .iter()
        .find(|decision| decision.get().slot.0 == slot)
}

/// Whether two decisions have the same value, and the same own EXTERNALIZE.
fn same_decision(one: &Decision, other: &Decision) -> bool
    ensures { result ≡ decision_alike one.now other.now }
{
    one.value == other.value && same_own(&one.origin, &other.origin)
}

/// The same of decisions that may be there.
fn same_decisions(one: Option<&SharedDecision>, other: Option<&SharedDecision>) -> bool
    ensures { result ≡ decisions_alike (option_copied one.entry) (option_copied other.entry) }
{
    match (one, other) {
        (None, None) => true,
        (Some(one), Some(other)) => same_decision(one.get(), other.get()),
        (None, Some(_)) | (Some(_), None) => false,
    }
}

/// The statement of an envelope, if there is one.
fn statement_of(envelope: Option<&SharedEnvelope>) -> Option<&Statement>
    ensures { option_map (λ s. s.now.pledges) result ≡ option_map (λ e. e.now.statement.pledges) envelope.entry }
{
    match envelope {
        Some(envelope) => Some(&envelope.get().statement),
        None => None,
    }
}

/// The own nomination that a machine emitted last: the one on its board.
fn nominated<A: Application + Drop + Copy>(machine: &SlotMachine<A>) -> Option<&Statement>
    ensures { option_map (λ s. s.now.pledges) result ≡ own (slot_view machine.now).nomination }
{
    statement_of(machine.nominator().board().own(StatementKind::Nomination))
}

/// The ballot statement that a machine emitted last.
fn balloted<A: Application + Drop + Copy>(machine: &SlotMachine<A>) -> Option<&Statement>
    ensures { option_map (λ s. s.now.pledges) result ≡ (slot_view machine.now).ballots.emitted }
{
    machine.balloter().emitted()
}

/// The own nomination that a slot's machine emitted last, if there is a machine.
fn nominated_at<A: Application + Drop + Copy>(
    machine: Option<&SlotMachine<A>>,
) -> Option<&Statement>
    ensures { option_map (λ s. s.now.pledges) result ≡ nominated_by (option_copied machine.entry) }
{
    match machine {
        Some(machine) => nominated(machine),
        None => None,
    }
}

/// The ballot statement that a slot's machine emitted last, if there is a machine.
fn balloted_at<A: Application + Drop + Copy>(machine: Option<&SlotMachine<A>>) -> Option<&Statement>
    ensures { option_map (λ s. s.now.pledges) result ≡ balloted_by (option_copied machine.entry) }
{
    match machine {
        Some(machine) => balloted(machine),
        None => None,
    }
}

/// Whether the machines of a slot, if there are any, emitted the same last.
fn same_machine<A: Application + Drop + Copy>(
    one: Option<&SlotMachine<A>>,
    other: Option<&SlotMachine<A>>,
) -> bool
    ensures { result ≡ machine_alike (option_copied one.entry) (option_copied other.entry) }
{
    same_said(nominated_at(one), nominated_at(other))
        && same_said(balloted_at(one), balloted_at(other))
}

/// The machine of a slot, if it has one.
fn machine_of<A: Application + Drop + Copy>(node: &Node<A>, slot: u64) -> Option<&SlotMachine<A>>
    requires runs { node.now.failed ≡ false }
    ensures { option_copied result ≡ machine_at node.now.ledger.machines slot }
{
    node.ledger().machine(Slot(slot))
}

/// Whether two nodes say the same of a slot.
fn same_at<A: Application + Drop + Copy>(old: &Node<A>, new: &Node<A>, slot: u64) -> bool
    requires runs { old.now.failed ≡ false }
    requires runs_too { new.now.failed ≡ false }
    ensures { result ≡ alike_at old.now.ledger new.now.ledger slot }
{
    let one = decision_of(old.decisions(), slot);
    let other = decision_of(new.decisions(), slot);
    same_decisions(one, other) && same_machine(machine_of(old, slot), machine_of(new, slot))
}

/// Whether two nodes say the same of each of the 16 slots after this one.
fn same_open<A: Application + Drop + Copy>(old: &Node<A>, new: &Node<A>, before: u32) -> bool
    requires runs { old.now.failed ≡ false }
    requires runs_too { new.now.failed ≡ false }
    ensures { IsTrue result ↔ SaySame WINDOW (before + 1) old.now.ledger new.now.ledger }
{
    for ahead in 0..WINDOW {
        if !same_at(old, new, before as u64 + 1 + ahead) {
            return false;
        }
    }
    true
}

/// The lowest slot of which a node has no decision.
fn lowest_of<A: Application + Drop + Copy>(node: &Node<A>) -> u64
    requires runs { node.now.failed ≡ false }
    ensures { result ≡ node.now.ledger.lowest }
{
    node.ledger().lowest()
}

/// Whether the slot after this one is the lowest undecided one of both nodes.
fn same_lowest<A: Application + Drop + Copy>(old: &Node<A>, new: &Node<A>, before: u32) -> bool
    requires runs { old.now.failed ≡ false }
    requires runs_too { new.now.failed ≡ false }
    ensures { result ≡ (nat_eq old.now.ledger.lowest (before + 1) && nat_eq new.now.ledger.lowest (before + 1)) }
{
    let first = before as u64 + 1;
    lowest_of(old) == first && lowest_of(new) == first
}

/// Whether the slot after this one is the lowest undecided one of both nodes, and both say the same of each of the 16 open slots. Each of these
/// slots costs a walk over the decisions of both.
fn says_the_same<A: Application + Drop + Copy>(old: &Node<A>, new: &Node<A>, before: u32) -> bool
    requires runs { old.now.failed ≡ false }
    requires runs_too { new.now.failed ≡ false }
    ensures { IsTrue result ↔ SaysTheSame (before + 1) old.now.ledger new.now.ledger }
{
    if !same_lowest(old, new, before) {
        return false;
    }
    same_open(old, new, before)
}

/// Whether nothing waits to go out of a node, to the peer of any of its links.
fn is_quiet<A: Application + Drop + Copy>(node: &Node<A>) -> bool
    ensures { IsTrue result ↔ ((link : ℕ) → link < links_of node.now → waiting_at node.now.outboxes link ≡ 0) }
{
    let links = count_links(node);
    for link in 0..links {
        if node.waiting(link) > 0 {
            return false;
        }
    }
    true
}

/// Whether a new node stands like an old one: both say the same of each open slot, of which the first is the slot after this one, and nothing
/// waits to go out of the new one.
pub fn stands_like<A: Application + Drop + Copy>(old: &Node<A>, new: &Node<A>, before: u32) -> bool
    requires runs { old.now.failed ≡ false }
    requires runs_too { new.now.failed ≡ false }
    requires next { before + 1 ≡ next_of old.now.applier }
    ensures { IsTrue result ↔ StandsLike old.now new.now }
{
    if !says_the_same(old, new, before) {
        return false;
    }
    is_quiet(new)
}
