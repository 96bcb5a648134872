//! Short envelopes keep the limits of their kind.
//!
//! A `let _name = ..` that nothing uses shows the prover the range of that number.
ghost use Rattle.std.specs.Prelude.{◌≡◌, ◌<◌, ◌^◌, length, option_map};
ghost use Rattle.std.specs.Option.{ForSome};
ghost use Rattle.scp_xdr.specs.Kind.{optional, Fits};
ghost use Rattle.scp_xdr.specs.Shared.{ballot_kind, ballot_value};
ghost use Rattle.scp_envelope.specs.Kinds.{prepare_kind, prepare_value, confirm_kind, confirm_value, externalize_kind, externalize_value, nominate_kind, nominate_value, pledges_kind, pledges_value, envelope_kind, envelope_value};
ghost use Rattle.scp_envelope.specs.Short.{IsShortValue, SaysOnly, HasShortLists, IsShort};

use crate::statement::{Confirm, Envelope, Externalize, Nominate, Pledges, Prepare};
use scp_xdr::below::types::{Ballot, Hash, NodeId, Slot};

fn see_hash(hash: Hash)
    ensures { length hash.0 ≡ 32 }
{}

fn see_node(node: NodeId)
    ensures { length node.0 ≡ 32 }
{}

fn see_slot(slot: Slot)
    ensures { slot.0 < 2 ^ 64 }
{}

fn see_ballot(ballot: &Ballot)
    ensures { IsShortValue ballot.now.value → Fits ballot_kind (ballot_value ballot.now) }
{
    let _counter = ballot.counter;
}

fn see_some(ballot: &Option<Ballot>)
    ensures { ForSome ballot.now (λ x. IsShortValue x.value) → Fits (optional ballot_kind) (option_map ballot_value ballot.now) }
{
    match ballot {
        Some(ballot) => see_ballot(ballot),
        None => {}
    }
}

fn see_prepare(prepare: &Prepare)
    ensures { SaysOnly IsShortValue (Pledges.Prepare prepare.now) → Fits prepare_kind (prepare_value prepare.now) }
{
    let _commit = prepare.n_commit;
    let _high = prepare.n_high;
    see_hash(prepare.set_hash);
    see_ballot(&prepare.ballot);
    see_some(&prepare.prepared);
    see_some(&prepare.prepared_prime);
}

fn see_confirm(confirm: &Confirm)
    ensures { SaysOnly IsShortValue (Pledges.Confirm confirm.now) → Fits confirm_kind (confirm_value confirm.now) }
{
    let _prepared = confirm.n_prepared;
    let _commit = confirm.n_commit;
    let _high = confirm.n_high;
    see_hash(confirm.set_hash);
    see_ballot(&confirm.ballot);
}

fn see_externalize(externalize: &Externalize)
    ensures { SaysOnly IsShortValue (Pledges.Externalize externalize.now) → Fits externalize_kind (externalize_value externalize.now) }
{
    let _high = externalize.n_high;
    see_hash(externalize.set_hash);
    see_ballot(&externalize.commit);
}

fn see_nominate(nominate: &Nominate)
    ensures { SaysOnly IsShortValue (Pledges.Nominate nominate.now) → HasShortLists (Pledges.Nominate nominate.now) → Fits nominate_kind (nominate_value nominate.now) }
{
    see_hash(nominate.set_hash);
}

fn see_pledges(pledges: &Pledges)
    ensures { SaysOnly IsShortValue pledges.now → HasShortLists pledges.now → Fits pledges_kind (pledges_value pledges.now) }
{
    match pledges {
        Pledges::Prepare(prepare) => see_prepare(prepare),
        Pledges::Confirm(confirm) => see_confirm(confirm),
        Pledges::Externalize(externalize) => see_externalize(externalize),
        Pledges::Nominate(nominate) => see_nominate(nominate),
    }
}

/// The law that a short envelope keeps the limits of its kind, in each of its values, lists and numbers. Does nothing.
pub fn a_short_envelope_fits(envelope: &Envelope)
    ensures { IsShort envelope.now → Fits envelope_kind (envelope_value envelope.now) }
{
    see_node(envelope.statement.node);
    see_slot(envelope.statement.slot);
    see_pledges(&envelope.statement.pledges);
}
