//! How the entries of a log are played again.
ghost use Rattle.std.specs.Prelude.{◌≡◌, ◌⊎◌, ◌↔◌, ◌<◌, ℕ, true, IfOk, IfErr, IfSome, IfNone, OnOk, Err, length};
ghost use Rattle.scp_again.specs.scp_types.specs.declared.fault.Fault.{Fault};
ghost use Rattle.scp_live_log.specs.declared.kept.LogFault.TheVariants.{Damaged, Failed};
ghost use Rattle.scp_live_log.specs.declared.wanted.Unfit.{Unfit};
ghost use Rattle.scp_turn.specs.Kv.{Goes, Watched};
ghost use Rattle.scp_turn.specs.Watch.{notes};
ghost use Rattle.scp_live_lines.specs.declared.asked.Asked.TheVariants as asked;
ghost use Rattle.scp_live_lines.specs.Says.{Says};
ghost use Rattle.scp_turn.specs.Episode.{IsOfHost, finds_full};
ghost use Rattle.scp_live.specs.Replays.{IsReplayed, AreReplayed, SaysNoEvent, IsUnfit, IsUnfitAt, IsPlayFault};
ghost use Rattle.scp_live.specs.inside.Replaying.{IsReplayFault};
ghost use Rattle.scp_live.specs.Living.{IsLive};

use crate::live::Live;
use scp_again::below::node::{Event, KvDriver};
use scp_again::below::types::Fault;
use scp_live_lines::{Asked, WordFault, read_line};
use scp_live_log::{Entry, LogFault, Unfit};
use scp_turn::Watch;
use std::alloc::{AllocError, Global};

/// The event that a line says, if it says one.
pub fn event_in(alloc: Global, live: &Live, line: &[u8]) -> Result<Option<Event>, AllocError>
    ensures says { IfOk result (λ found. IfSome found (λ event. Says live.now.names line.now (asked.Event event))) }
    ensures host { IfOk result (λ found. IfSome found IsOfHost) }
    ensures none { IfOk result (λ found. IfNone found (SaysNoEvent live.now.names line.now)) }
{
    let said = match read_line(alloc, live.names(), line) {
        Ok(said) => said,
        Err(WordFault::Bad(_)) => return Ok(None),
        Err(WordFault::NoMemory) => return Err(AllocError),
    };
    match said {
        Asked::Event(event) => Ok(Some(event)),
        _ => Ok(None),
    }
}

/// The event that the line of an entry says. If it says none, the entry at this index is damaged.
fn event_of(alloc: Global, live: &Live, entry: &Entry, place: usize) -> Result<Event, LogFault>
    ensures says { IfOk result (λ event. Says live.now.names entry.now.line (asked.Event event)) }
    ensures host { IfOk result IsOfHost }
    ensures unsaid { result ≡ Err (Damaged place Unfit.NoEvent) → SaysNoEvent live.now.names entry.now.line }
    ensures only { IfErr result (λ f. (f ≡ Failed Fault.NoMemory) ⊎ (f ≡ Damaged place Unfit.NoEvent)) }
{
    let found = match event_in(alloc, live, entry.line()) {
        Ok(found) => found,
        Err(_) => return Err(LogFault::Failed(Fault::NoMemory)),
    };
    match found {
        Some(event) => Ok(event),
        None => Err(LogFault::Damaged(place, Unfit::NoEvent)),
    }
}

/// Plays an entry again; the watch is shown each step. The entry is damaged if its line says no event, or if something else is sent for
/// it. Refused by `JournalFull` exactly if a step found the journal full.
fn replay_entry<W: Watch<KvDriver>>(
    alloc: Global,
    live: &mut Live,
    entry: &Entry,
    place: usize,
    watch: &mut W,
) -> Result<(), LogFault>
    requires live { IsLive live.old.node }
    ensures replayed { Goes live.old.node live.new.node (λ _ heard _. (OnOk result (IsReplayed entry.now live.old heard live.new) × ((why : Unfit) → result ≡ Err (Damaged place why) → IsUnfit why entry.now live.old heard live.new) × ((result ≡ Err (Failed Fault.JournalFull)) ↔ (finds_full heard ≡ true))) × Watched (notes W.notes_before W.notes_after) 1 watch.old live.old.node heard live.new.node watch.new) }
    ensures live { OnOk result (IsLive live.new.node) }
    ensures only { IfErr result (IsReplayFault place) }
{
    let event = match event_of(alloc, live, entry, place) {
        Ok(event) => event,
        Err(fault) => return Err(fault),
    };
    let mut told = String::new(alloc);
    let sent = match live.act_with(event, &mut told, watch) {
        Ok(sent) => sent,
        Err(fault) => return Err(LogFault::Failed(fault)),
    };
    if sent == entry.sent() {
        Ok(())
    } else {
        Err(LogFault::Damaged(place, Unfit::SendsOtherwise))
    }
}

/// Plays the entries of a log again, in order; the watch is shown each step. Refused by `Damaged` for the first entry that can't be
/// played: its line says no event, or something else is sent for it now. Refused by `Failed` with `Fault::JournalFull` exactly if a step
/// found the journal full, and with `Fault::NoMemory`.
pub fn replay<W: Watch<KvDriver>>(
    alloc: Global,
    live: &mut Live,
    entries: &[Entry],
    watch: &mut W,
) -> Result<(), LogFault>
    requires live { IsLive live.old.node }
    ensures replayed { Goes live.old.node live.new.node (λ _ heard _. (OnOk result (AreReplayed entries.now live.old heard live.new) × ((n : ℕ) (why : Unfit) → result ≡ Err (Damaged n why) → IsUnfitAt entries.now n why live.old heard live.new) × ((result ≡ Err (Failed Fault.JournalFull)) ↔ (finds_full heard ≡ true))) × Watched (notes W.notes_before W.notes_after) 1 watch.old live.old.node heard live.new.node watch.new) }
    ensures live { OnOk result (IsLive live.new.node) }
    ensures damaged { (n : ℕ) (why : Unfit) → result ≡ Err (Damaged n why) → n < length entries.now }
    ensures only { IfErr result IsPlayFault }
{
    for (place, entry) in entries.iter().enumerate() {
        match replay_entry(alloc, live, entry, place, watch) {
            Ok(()) => {}
            Err(fault) => return Err(fault),
        }
    }
    Ok(())
}
