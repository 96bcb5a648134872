//! What is concluded when every thread of a node has ended.
ghost use Rattle.std.specs.Prelude.{◌≡◌, ◌↔◌, ◌⊎◌, ℕ, List, None, Some, false, true, IfOk, IfErr, IsErrOf, IsOkUnless, OnOk, length, map, slice_get};
ghost use Rattle.std.specs.List.{AllByRecursion};
ghost use Rattle.std.specs.List.Sorted.{IsStrictlySortedBy};
ghost use Rattle.scp_workers.specs.scp_types.specs.declared.fault.Stage.{Stage};
ghost use Rattle.scp_workers.specs.scp_types.specs.declared.names.NodeId.{NodeId};
ghost use Rattle.scp_workers.specs.scp_quorum.specs.QuorumTree.{QuorumTree};
ghost use Rattle.scp_workers.specs.scp_wire.specs.declared.link.Inbound.{Inbound};
ghost use Rattle.scp_workers.specs.scp_wire.specs.Shape.{HasShape};
ghost use Rattle.scp_workers.specs.scp_pending.specs.declared.ready.Ready.{Ready};
ghost use Rattle.scp_workers.specs.scp_pending.specs.Messages.{AreParked, message_cmp};
ghost use Rattle.scp_workers.specs.scp_pending.specs.Pends.{Pends};
ghost use Rattle.scp_workers.specs.scp_ends.specs.Links.{LinkEnd};
ghost use Rattle.scp_workers.specs.scp_apply.specs.Applied.{made_of};
ghost use Rattle.scp_workers.specs.Reading.{ReaderEnd};
ghost use Rattle.scp_gather.specs.Node.{IsNode, IsReadOut, EndWell};
ghost use Rattle.scp_gather.specs.Headline.{IsReportHeadlined};
ghost use Rattle.scp_gather.specs.Sending.{ArePutOut};
ghost use Rattle.scp_gather.specs.Report.{IsJoined, AreJoinedTo, AreJoined, first_failed, IsReportOf, AreFatesOf, AreCame, AreKept, keeps_by};
ghost use Rattle.scp_gather.specs.inside.Kept.{kept_by};

use crate::ends::Ends;
use crate::laws::{what_ends_well_is_gathered, what_is_reported_keeps_the_headline};
use scp_workers::below::apply::Applier;
use scp_workers::below::driver::{Application, KvDriver};
use scp_workers::below::ends::{InboxRx, LinkDone};
use scp_workers::below::ledger::{CommandFate, Fate, Ledger, SharedDecision};
use scp_workers::below::pending::{Pending, each_command_passes_once};
use scp_workers::below::shared_outbox::Outlets;
use scp_workers::below::types::Fault;
use scp_workers::below::wire::{Carried, LinkItem};
use scp_workers::{ReaderEnded, ReadingStage, SlotStage};

/// What became of all that was sent to a node, and what it did.
#[derive(Drop)]
pub struct NodeReport<A: Application = KvDriver> {
    /// The journal: the fates of messages and the ends of connections.
    pub journal: Vec<Fate>,
    /// The messages that wait for their quorum sets, ascending by sender, life and number.
    pub parked: Vec<Carried>,
    /// The decisions that were applied, those of the slots 1, 2, ..
    pub applied: Vec<SharedDecision>,
    /// The state that their values make.
    pub state: A::State,
    /// What became of its own commands, except ticks, in order.
    pub commands: Vec<CommandFate>,
    /// What came over each of its links, in the order of its peers, if it was to be kept.
    pub came: Vec<Option<Vec<LinkItem>>>,
}

/// What is reported of a node, and the ends by which its stages put into its links' outboxes.
#[derive(Drop)]
pub struct Gathering<A: Application = KvDriver> {
    pub report: NodeReport<A>,
    pub outlets: Outlets,
}

/// Takes back what a link and its reader left, and gives what the reader kept.
fn take_back(inbox: &mut InboxRx, reader: ReaderEnded, link: LinkDone) -> Option<Vec<LinkItem>>
    requires joined { IsJoined inbox.old.line link reader }
    requires well { reader.well ≡ true }
    ensures same { inbox.new ≡ inbox.old }
    ensures read_out { IsReadOut inbox.old link reader }
    ensures kept { result ≡ kept_by reader }
{
    let (mut rx, done, _, stage) = reader.into_parts();
    let Some(done) = done else { unreachable!() };
    link.return_to(&mut rx);
    inbox.take_back(done);
    let ReadingStage { kept, .. } = stage;
    kept
}

/// Takes back what each link and its reader left, and gives what each reader kept, in order.
fn take_each_back(
    inbox: &mut InboxRx,
    readers: Vec<ReaderEnded>,
    links: Vec<LinkDone>,
) -> Result<Vec<Option<Vec<LinkItem>>>, Fault>
    requires joined { AreJoinedTo inbox.old.line links.items readers.items }
    requires well { AllByRecursion (λ r. r.well ≡ true) readers.items }
    ensures same { inbox.new ≡ inbox.old }
    ensures read_out { OnOk result ((l : ℕ) → (k : LinkEnd) → slice_get links.items l ≡ Some k → (r : ReaderEnd) → slice_get readers.items l ≡ Some r → IsReadOut inbox.old k r) }
    ensures kept { IfOk result (λ came. length links.items ≡ length readers.items → came.items ≡ map kept_by readers.items) }
    ensures only_memory { IsOkUnless result Fault.NoMemory }
{
    let mut came = Vec::new(*readers.allocator());
    let mut tails = links.into_iter();
    for reader in readers {
        let Some(link) = tails.next() else {
            return Ok(came);
        };
        came.push(take_back(inbox, reader, link))?;
    }
    Ok(came)
}

/// What a node's stages left: each stage, what became of the commands, what the readers kept, and the ends by which they put into the outboxes.
#[derive(Drop)]
struct Stages<A: Application + Drop + Copy> {
    pending: Pending,
    ledger: Ledger<A>,
    applier: Applier<A>,
    commands: Vec<CommandFate>,
    came: Vec<Option<Vec<LinkItem>>>,
    outlets: Outlets,
}

/// Takes all ends back, and gives what the stages left.
fn settle<A: Application + Drop + Copy>(ends: Ends<A>) -> Result<Stages<A>, Fault>
    requires joined { AreJoined ends }
    requires well { first_failed ends ≡ None }
    ensures parts { IfOk result (λ s. (s.pending ≡ ends.pend.stage) × (s.ledger ≡ ends.slot.stage.ledger) × (s.applier ≡ ends.apply.stage) × (s.commands.items ≡ ends.slot.stage.fates.items)) }
    ensures outlets { IfOk result (λ s. (s.outlets.pend.items ≡ ends.pend.outlets) × (s.outlets.slot.items ≡ ends.slot.outlets) × (s.outlets.apply.items ≡ ends.apply.outlets)) }
    ensures ended { OnOk result (EndWell A.says ends) }
    ensures kept { IfOk result (λ s. length ends.links ≡ length ends.readers → s.came.items ≡ map kept_by ends.readers) }
    ensures only_memory { IsOkUnless result Fault.NoMemory }
{
    let Ends {
        readers,
        links,
        local,
        pend,
        slot,
        apply,
    } = ends;
    let (mut inbox, given, replies, pending) = pend.into_parts();
    let came = take_each_back(&mut inbox, readers, links)?;
    local.return_to(&mut inbox);
    let (mut ready, onward, said, slots) = slot.into_parts();
    let Some(given) = given else { unreachable!() };
    ready.take_back(given);
    let (mut decided, _, answers, applier) = apply.into_parts();
    let Some(onward) = onward else { unreachable!() };
    decided.take_back(onward);
    let SlotStage { ledger, fates } = slots;
    Ok(Stages {
        pending,
        ledger,
        applier,
        commands: fates,
        came,
        outlets: Outlets {
            pend: replies,
            slot: said,
            apply: answers,
        },
    })
}

/// The report that the stages give.
fn told<A: Application + Drop + Copy>(
    pending: Pending,
    ledger: Ledger<A>,
    applier: Applier<A>,
    commands: Vec<CommandFate>,
    came: Vec<Option<Vec<LinkItem>>>,
) -> Result<NodeReport<A>, Fault>
    requires { applier.failed ≡ false }
    ensures journal { IfOk result (λ r. r.journal.items ≡ ledger.journal) }
    ensures parked { IfOk result (λ r. (me : NodeId) → (peers : List NodeId) → (taken : List Inbound) → (given : List Ready) → Pends me peers taken given pending → AreParked pending r.parked.items) }
    ensures ascending { IfOk result (λ r. (me : NodeId) → (peers : List NodeId) → (taken : List Inbound) → (given : List Ready) → Pends me peers taken given pending → HasShape me peers taken → IsStrictlySortedBy message_cmp r.parked.items) }
    ensures applied { IfOk result (λ r. (r.applied.items ≡ applier.applied) × (r.state ≡ made_of (A.begins applier.base) A.after applier.applied)) }
    ensures commands { IfOk result (λ r. r.commands.items ≡ commands.items) }
    ensures came { IfOk result (λ r. r.came.items ≡ came.items) }
    ensures only_memory { IsOkUnless result Fault.NoMemory }
{
    let parked = pending.into_parked()?;
    let (applied, state) = applier.into_applied();
    let Some(state) = state else { unreachable!() };
    Ok(NodeReport {
        journal: ledger.into_journal(),
        parked,
        applied,
        state,
        commands,
        came,
    })
}

/// What became of all that was sent to a node over its links, and what it did, if each of its workers ended well. Refused by `Refused` with
/// the first stage, in the order of the pipeline, whose worker failed; else by `NoMemory`.
pub fn gather<A: Application + Drop + Copy>(ends: Ends<A>) -> Result<Gathering<A>, Fault>
    requires joined { AreJoined ends }
    ensures theorem { (me : NodeId) → (set : QuorumTree) → (peers : List NodeId) → IsNode me set peers ends → IfOk result (λ r. IsReportOf A.says me set peers ends r.report.journal.items r.report.parked.items r.report.applied.items) }
    // The headline, which says what matters most of that, and what the state is.
    ensures headline { (me : NodeId) → (set : QuorumTree) → (peers : List NodeId) → IsNode me set peers ends → IfOk result (λ r. IsReportHeadlined A.first A.after me set peers ends r.report) }
    // The state is what the application makes of the applied values, one after another.
    ensures state { IfOk result (λ r. r.report.state ≡ made_of A.first A.after r.report.applied.items) }
    // What became of the node's own commands.
    ensures commands { (me : NodeId) → (set : QuorumTree) → (peers : List NodeId) → IsNode me set peers ends → IfOk result (λ r. AreFatesOf A.says me set peers ends r.report.commands.items) }
    // What came over each of its links, if that was to be kept.
    ensures came { (me : NodeId) → (set : QuorumTree) → (peers : List NodeId) → IsNode me set peers ends → IfOk result (λ r. AreCame ends r.report.came.items) }
    ensures kept { (me : NodeId) → (set : QuorumTree) → (peers : List NodeId) → IsNode me set peers ends → IfOk result (λ r. AreKept (map keeps_by ends.readers) r.report.came.items) }
    // What its stages put into its links' outboxes, by ends that are given back.
    ensures put { (me : NodeId) → (set : QuorumTree) → (peers : List NodeId) → IsNode me set peers ends → IfOk result (λ r. ArePutOut A.says me set peers ends) }
    ensures outlets { IfOk result (λ r. (r.outlets.pend.items ≡ ends.pend.outlets) × (r.outlets.slot.items ≡ ends.slot.outlets) × (r.outlets.apply.items ≡ ends.apply.outlets)) }
    ensures refused { (s : Stage) → IsErrOf result (Fault.Refused s) ↔ (first_failed ends ≡ Some s) }
    ensures only { IfErr result (λ f. (f ≡ Fault.NoMemory) ⊎ ((s : Stage) × (f ≡ Fault.Refused s))) }
{
    if let Some(stage) = ends.first_failed() {
        return Err(Fault::Refused(stage));
    }
    what_ends_well_is_gathered::<A>();
    what_is_reported_keeps_the_headline::<A>();
    each_command_passes_once();
    let Stages {
        pending,
        ledger,
        applier,
        commands,
        came,
        outlets,
    } = settle(ends)?;
    let report = told(pending, ledger, applier, commands, came)?;
    Ok(Gathering { report, outlets })
}
