//! An event of a host.
ghost use Rattle.std.specs.Prelude.{◌≡◌, ◌⊎◌, ◌↔◌, false, true, IfOk, IfErr, OnOk, IsErrOf, string_bytes};
ghost use Rattle.scp_stand_node.specs.scp_turn.specs.Kv.{Goes, Watched};
ghost use Rattle.scp_stand_node.specs.scp_turn.specs.Watch.{notes};
ghost use Rattle.scp_stand_node.specs.scp_turn.specs.Episode.{IsOfHost, finds_full};
ghost use Rattle.scp_live.specs.Live.{IsTold};

use scp_live::Live;
use scp_stand_node::below::turn::{Event, KvDriver, Watch};
use scp_stand_node::below::types::{Fault, Hash};

/// A full journal if that is the fault, otherwise out of memory.
fn full_or_memory(fault: Fault) -> Fault
    ensures full { (result ≡ Fault.JournalFull) ↔ (fault ≡ Fault.JournalFull) }
    ensures only { (result ≡ Fault.NoMemory) ⊎ (result ≡ Fault.JournalFull) }
{
    if matches!(fault, Fault::JournalFull) {
        Fault::JournalFull
    } else {
        Fault::NoMemory
    }
}

/// Plays the event and all that follows from it, as `Live::act_with` does; the watch is shown each step. Refused by `JournalFull`
/// exactly if a step found the journal full, otherwise by `NoMemory`.
pub fn act<V: Watch<KvDriver>>(
    live: &mut Live,
    event: Event,
    text: &mut String,
    watch: &mut V,
) -> Result<Hash, Fault>
    requires { IsOfHost event }
    ensures told { Goes live.old.node live.new.node (λ _ heard _. Watched (notes V.notes_before V.notes_after) 1 watch.old live.old.node heard live.new.node watch.new × (IfOk result (λ hash. IsTold event live.old.names live.old.timers live.new.timers live.old.node heard live.new.node (string_bytes text.old) (string_bytes text.new) hash.0) × (IsErrOf result Fault.JournalFull ↔ (finds_full heard ≡ true)))) }
    ensures names { live.new.names ≡ live.old.names }
    ensures nodes { live.new.nodes ≡ live.old.nodes }
    ensures runs { OnOk result (live.new.node.failed ≡ false) }
    ensures only { IfErr result (λ f. (f ≡ Fault.NoMemory) ⊎ (f ≡ Fault.JournalFull)) }
{
    match live.act_with(event, text, watch) {
        Ok(hash) => Ok(hash),
        Err(fault) => Err(full_or_memory(fault)),
    }
}
