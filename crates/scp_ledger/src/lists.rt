//! Functions over a ledger's lists.
ghost use Rattle.std.specs.Prelude.{◌≡◌, ◌<◌, ◌≤◌, ◌++◌, ◌∷◌, [], OnOk, OnErr, IfOk, IfSome, IsOkUnless, Some, None, All, option_to_list, map, length, position, vec_len};
ghost use Rattle.std.specs.Vec.{vec_capacity};
ghost use Rattle.std.specs.Option.{ForSome};
ghost use Rattle.scp_pending.specs.scp_wire.specs.Connections.{same_node};
ghost use Rattle.scp_ledger.specs.Verdicts.{link_of};
ghost use Rattle.scp_slot.specs.scp_envelope.specs.Short.{IsShort};
ghost use Rattle.scp_ledger.specs.Fitting.{FitsOut};
ghost use Rattle.scp_ledger.specs.Takes.{to_all, to_peers};

use crate::journal::Fate;
use crate::shared::SharedDecision;
use crate::took::{Outgoing, OutgoingList};
use scp_pending::below::wire::what_fits_a_link;
use scp_slot::Emitted;
use scp_slot::below::envelope::{SharedEnvelope, a_short_envelope_fits};
use scp_slot::below::types::{ConnId, Fault, NodeId};
use std::alloc::Global;

/// The link of a connection: the place of its sender among the peers. If the sender is no peer, it is the number of peers, which is no link.
pub fn link_of(peers: &[NodeId], conn: &ConnId) -> u8
    requires few { length peers.now ≤ 255 }
    ensures { result ≡ link_of peers.now conn.now }
{
    match place_of(peers, &conn.from) {
        Some(place) => place as u8,
        None => peers.len() as u8,
    }
}

fn place_of(peers: &[NodeId], node: &NodeId) -> Option<usize>
    ensures found { result ≡ position (λ peer. same_node peer node.now) peers.now }
    ensures within { IfSome result (λ place. place < length peers.now) }
{
    peers.iter().position(|peer| *peer == *node)
}

/// Adds an entry and a decision, if there are any. A refusal leaves both lists as they were.
pub fn add(
    journal: &mut Vec<Fate>,
    decisions: &mut Vec<SharedDecision>,
    fate: Option<Fate>,
    decision: Option<SharedDecision>,
) -> Result<(), Fault>
    ensures journal { OnOk result (journal.new.items ≡ journal.old.items ++ option_to_list fate) }
    ensures decisions { OnOk result (decisions.new.items ≡ decisions.old.items ++ option_to_list decision) }
    ensures journal_kept { OnErr result (journal.new.items ≡ journal.old.items) }
    ensures decisions_kept { OnErr result (decisions.new.items ≡ decisions.old.items) }
    ensures only_memory { IsOkUnless result Fault.NoMemory }
{
    journal.reserve(1)?;
    decisions.reserve(1)?;
    add_entry(journal, fate);
    add_decision(decisions, decision);
    Ok(())
}

fn add_entry(journal: &mut Vec<Fate>, fate: Option<Fate>)
    requires room { vec_len journal.old < vec_capacity journal.old }
    ensures { journal.new.items ≡ journal.old.items ++ option_to_list fate }
{
    if let Some(fate) = fate {
        journal.push_reserved(fate);
    }
}

fn add_decision(decisions: &mut Vec<SharedDecision>, decision: Option<SharedDecision>)
    requires room { vec_len decisions.old < vec_capacity decisions.old }
    ensures { decisions.new.items ≡ decisions.old.items ++ option_to_list decision }
{
    if let Some(decision) = decision {
        decisions.push_reserved(decision);
    }
}

/// The own statements, for all peers.
pub fn to_all_peers(alloc: Global, emitted: Emitted) -> Result<OutgoingList, Fault>
    requires nomination { ForSome emitted.nomination IsShort }
    requires ballot { ForSome emitted.ballot IsShort }
    ensures same { IfOk result (λ all. all ≡ to_peers emitted) }
    ensures only_memory { IsOkUnless result Fault.NoMemory }
{
    let Emitted { nomination, ballot } = emitted;
    let mut all = Vec::new(alloc);
    push_some(&mut all, nomination)?;
    push_some(&mut all, ballot)?;
    Ok(OutgoingList::new(all))
}

fn push_some(all: &mut Vec<Outgoing>, envelope: Option<SharedEnvelope>) -> Result<(), Fault>
    requires short { ForSome envelope IsShort }
    requires fits { All FitsOut all.old.items }
    ensures fits { OnOk result (All FitsOut all.new.items) }
    ensures same { OnOk result (all.new.items ≡ all.old.items ++ map to_all (option_to_list envelope)) }
    ensures only_memory { IsOkUnless result Fault.NoMemory }
{
    if let Some(envelope) = envelope {
        let one = to_each(envelope);
        all.push(one)?;
    }
    Ok(())
}

/// An own statement for each peer. It is short, so it fits a link.
fn to_each(envelope: SharedEnvelope) -> Outgoing
    requires short { IsShort envelope }
    ensures same { result ≡ to_all envelope }
    ensures fits { FitsOut result }
{
    a_short_envelope_fits(envelope.get());
    what_fits_a_link();
    Outgoing::ToAll(envelope)
}
