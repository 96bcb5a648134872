//! An event, and the lines that report what it did.
ghost use Rattle.std.specs.Prelude.{◌≡◌, ◌⊎◌, ◌++◌, ◌↔◌, false, true, IfOk, IfErr, OnOk, IsErrOf, IsOkUnless, map, flat_map, string_bytes};
ghost use Rattle.sha2.specs.Sha256.{sha256};
ghost use Rattle.scp_again.specs.scp_types.specs.declared.fault.Fault.{Fault};
ghost use Rattle.scp_turn.specs.Kv.{Goes, Watched};
ghost use Rattle.scp_turn.specs.Watch.{notes};
ghost use Rattle.scp_turn.specs.Episode.{IsOfHost, finds_full};
ghost use Rattle.scp_live_lines.specs.Timers.{changes};
ghost use Rattle.scp_live.specs.Live.{IsTold, AreTimersOf, fate_at, outcome, sent_line, new_fates, new_decisions, newly_applied};

use crate::telling::{Marks, digest_from, fate_at, tell_new, tell_outcome, tell_sent};
use scp_again::below::node::{Event, KvDriver, Node, Timer, timers};
use scp_again::below::types::{Fault, Hash};
use scp_live_lines::write_changes;
use scp_turn::{CommandFate, Played, Watch, play_with};
use std::alloc::Global;

/// Reports the reply, or why the command changed nothing, and what was sent. Returns the digest of the lines of what was sent.
fn tell_played(
    text: &mut String,
    names: &[String],
    played: &Played,
    fate: Option<CommandFate>,
) -> Result<Hash, Fault>
    ensures told { OnOk result (string_bytes text.new ≡ string_bytes text.old ++ outcome played.now.reply fate ++ flat_map (sent_line (map string_bytes names.now)) played.now.sent.items) }
    ensures digest { IfOk result (λ hash. hash.0 ≡ sha256 (flat_map (sent_line (map string_bytes names.now)) played.now.sent.items)) }
    ensures only_memory { IsOkUnless result Fault.NoMemory }
{
    tell_outcome(text, &played.reply, fate)?;
    let start = text.len();
    tell_sent(text, names, played.sent.as_slice())?;
    Ok(digest_from(text, start))
}

/// Reports what is new at a node since these marks, and the timers that no longer run or run from now on. Keeps the timers that run now.
fn tell_rest(
    alloc: Global,
    text: &mut String,
    names: &[String],
    node: &Node,
    marks: Marks,
    running: &mut Vec<Timer>,
) -> Result<(), Fault>
    requires { node.now.failed ≡ false }
    ensures told { OnOk result (string_bytes text.new ≡ string_bytes text.old ++ (new_fates (map string_bytes names.now) marks.fates node.now ++ new_decisions (map string_bytes names.now) marks.decisions node.now ++ newly_applied marks.applied node.now) ++ changes running.old.items running.new.items) }
    ensures timers { OnOk result (AreTimersOf node.now running.new.items) }
    ensures only_memory { IsOkUnless result Fault.NoMemory }
{
    tell_new(text, names, node, marks)?;
    let now = timers(alloc, node.ledger())?;
    write_changes(text, running.as_slice(), now.as_slice())?;
    *running = now;
    Ok(())
}

/// Reports what an event did, and returns the digest of the lines of what was sent.
fn tell(
    alloc: Global,
    text: &mut String,
    names: &[String],
    node: &Node,
    marks: Marks,
    played: &Played,
    running: &mut Vec<Timer>,
) -> Result<Hash, Fault>
    requires { node.now.failed ≡ false }
    ensures told { OnOk result (string_bytes text.new ≡ (string_bytes text.old ++ outcome played.now.reply (fate_at node.now marks.is_command) ++ flat_map (sent_line (map string_bytes names.now)) played.now.sent.items) ++ (new_fates (map string_bytes names.now) marks.fates node.now ++ new_decisions (map string_bytes names.now) marks.decisions node.now ++ newly_applied marks.applied node.now) ++ changes running.old.items running.new.items) }
    ensures digest { IfOk result (λ hash. hash.0 ≡ sha256 (flat_map (sent_line (map string_bytes names.now)) played.now.sent.items)) }
    ensures timers { OnOk result (AreTimersOf node.now running.new.items) }
    ensures only_memory { IsOkUnless result Fault.NoMemory }
{
    let fate = fate_at(node, marks.is_command);
    let hash = tell_played(text, names, played, fate)?;
    tell_rest(alloc, text, names, node, marks, running)?;
    Ok(hash)
}

/// Plays the event and reports all that it did; the watch is shown each step. Refused by `Failed` exactly if the node had failed before, and
/// by `JournalFull` exactly if a step found the journal full.
pub fn act_with<W: Watch<KvDriver>>(
    alloc: Global,
    node: &mut Node,
    names: &[String],
    running: &mut Vec<Timer>,
    event: Event,
    text: &mut String,
    watch: &mut W,
) -> Result<Hash, Fault>
    requires { IsOfHost event }
    ensures told { Goes node.old node.new (λ a heard b. IfOk result (λ hash. IsTold event (map string_bytes names.now) running.old.items running.new.items a heard b (string_bytes text.old) (string_bytes text.new) hash.0) × Watched (notes W.notes_before W.notes_after) 1 watch.old a heard b watch.new × (IsErrOf result Fault.JournalFull ↔ (finds_full heard ≡ true))) }
    ensures timers { OnOk result (AreTimersOf node.new running.new.items) }
    ensures runs { OnOk result (node.new.failed ≡ false) }
    ensures failed { IsErrOf result Fault.Failed ↔ (node.old.failed ≡ true) }
    ensures only { IfErr result (λ f. (f ≡ Fault.NoMemory) ⊎ ((f ≡ Fault.JournalFull) ⊎ (f ≡ Fault.Failed))) }
{
    let marks = Marks::of(node, &event);
    match play_with(alloc, node, event, watch) {
        Ok(played) => tell(alloc, text, names, node, marks, &played, running),
        Err(fault) => Err(fault),
    }
}
