//! Which messages count, and why others don't.
ghost use Rattle.std.specs.Prelude.{◌≡◌, ◌≢◌, Some, IfOk, IfErr};
ghost use Rattle.scp_ledger.specs.scp_envelope.specs.Kinds.{set_hash_of};
ghost use Rattle.scp_ledger.specs.scp_quorum.specs.Sane.{IsSane};
ghost use Rattle.scp_judged.specs.Named.{set_in};
ghost use Rattle.scp_judged.specs.inside.Newest.{newest_in};

use crate::newest::Newest;
use crate::sets::{Known, Sets};
use scp_ledger::below::envelope::{Envelope, SharedEnvelope};
use scp_ledger::below::quorum::SaneSet;
use scp_ledger::below::types::{Hash, Slot};
use std::sync::Arc;

/// Whether a message counts, and why it doesn't. The first that fits is told.
#[derive(Clone, Copy, Debug, PartialEq, Eq)]
pub enum Verdict {
    /// It counts.
    Counts,
    /// Its slot isn't the ledger's.
    OtherSlot,
    /// Its pledges aren't sane.
    Insane,
    /// Its hash names no quorum set so far.
    MissingSet,
    /// The quorum set that it names isn't sane.
    BadSet,
    /// An earlier one of its node and kind counts, and it isn't newer.
    NotNewer,
}

/// A message that counts, with the quorum set that it names.
#[derive(Drop)]
pub struct Said {
    pub envelope: SharedEnvelope,
    pub set: Arc<SaneSet>,
}

ghost use Rattle.scp_judged.specs.Verdicts.{IsVerdict};
ghost use Rattle.scp_judged.specs.inside.Lacking.{LacksSet};

/// The sane quorum set that a message names by this hash, or why there is none.
fn named_set<'s>(sets: &'s Sets, hash: &Hash) -> Result<&'s Arc<SaneSet>, Verdict>
    ensures found { IfOk result (λ set. set_in sets.now hash.now ≡ Some set.now.value) }
    ensures sane { IfOk result (λ set. IsSane set.now.value) }
    ensures lacks { IfErr result (λ verdict. LacksSet (set_in sets.now hash.now) verdict) }
{
    match sets.get(hash) {
        None => Err(Verdict::MissingSet),
        Some(Known::Insane(_)) => Err(Verdict::BadSet),
        Some(Known::Sane(set)) => {
            // Shows the prover that it is sane.
            let _tree = set.set();
            Ok(set)
        }
    }
}

/// The quorum set of a message that counts, or why it doesn't count.
pub(crate) fn counted_set<'s>(
    sets: &'s Sets,
    slot: Slot,
    newest: &Newest,
    envelope: &Envelope,
) -> Result<&'s Arc<SaneSet>, Verdict>
    ensures counts { IfOk result (λ set. IsVerdict (set_in sets.now) slot.0 (newest_in newest.now) envelope.now.statement Verdict.Counts) }
    ensures set { IfOk result (λ set. set_in sets.now (set_hash_of envelope.now.statement.pledges) ≡ Some set.now.value) }
    ensures not { IfErr result (λ verdict. verdict ≢ Verdict.Counts) }
    ensures why { IfErr result (λ verdict. IsVerdict (set_in sets.now) slot.0 (newest_in newest.now) envelope.now.statement verdict) }
{
    let statement = &envelope.statement;
    if statement.slot != slot {
        return Err(Verdict::OtherSlot);
    }
    if !statement.sane() {
        return Err(Verdict::Insane);
    }
    let set = match named_set(sets, &envelope.set_hash()) {
        Ok(set) => set,
        Err(why) => return Err(why),
    };
    if !newest.precedes(statement) {
        return Err(Verdict::NotNewer);
    }
    Ok(set)
}
