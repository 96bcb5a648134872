//! How a node starts with a log.
ghost use Rattle.std.specs.Prelude.{◌≡◌, ◌⊎◌, ◌↔◌, ◌<◌, ◌+◌, ◌++◌, ◌∷◌, [], ℕ, List, true, false, take, drop, IfOk, IfErr, IfSome, IfNone, OnOk, IsErrOf, codes, if◌then◌else◌};
ghost use Rattle.std.specs.Bool.{OnFalse, OnTrue};
ghost use Rattle.scp_stand_node.specs.scp_device.specs.Device.{Fails};
ghost use Rattle.scp_live.specs.scp_live_lines.specs.declared.asked.Asked.TheVariants as asked;
ghost use Rattle.scp_live.specs.scp_live_lines.specs.Says.{Says};
ghost use Rattle.scp_stand_node.specs.scp_turn.specs.Episode.{IsOfHost, finds_full};
ghost use Rattle.scp_stand_node.specs.scp_core.specs.Node.{accepts_at, room_at};
ghost use Rattle.scp_stand_node.specs.scp_turn.specs.Turn.{links_of};
ghost use Rattle.scp_stand_node.specs.scp_turn.specs.Kv.{Goes, Watched};
ghost use Rattle.scp_stand_node.specs.scp_turn.specs.Watch.{notes};
ghost use Rattle.scp_batches.specs.scp_live_log.specs.Kept.{IsSettled};
ghost use Rattle.scp_batches.specs.scp_live_log.specs.Log.{IsLine, Marked, batch_of};
ghost use Rattle.scp_live_process.specs.Closing as shut;
ghost use Rattle.scp_live_process.specs.Ending.{IsStartFault, StaysKept};
ghost use Rattle.scp_live_process.specs.Starting.{IsRestarted};
ghost use Rattle.scp_live_process.specs.inside.Batches.{StaysDurable};
ghost use Rattle.scp_live_process.specs.inside.Replaying.{AddsClose, AddsCloses};
ghost use Rattle.scp_live.specs.Living.{IsLive};

use crate::batch::Batch;
use scp_batches::below::live_log::{Entry, EventLog, Kept, LogFault, Wanted};
use scp_live::{Live, event_in, name_of, replay};
use scp_stand_node::below::turn::{Event, KvDriver, Watch};
use scp_stand_node::below::types::Fault;
use std::alloc::{AllocError, Global};

/// The line that closes the connection to a peer.
fn closing(alloc: Global, name: &str) -> Result<Vec<u8>, AllocError>
    ensures { IfOk result (λ line. line.items ≡ codes "close " ++ name.now) }
{
    let mut line = Vec::from_slice(alloc, b"close ")?;
    line.extend_from_slice(name.as_bytes())?;
    Ok(line)
}

/// Where the first line ends, if it ends.
fn line_end(bytes: &[u8]) -> Option<usize>
    ensures found { IfSome result (λ n. bytes.now ≡ take n bytes.now ++ 10 ∷ drop (n + 1) bytes.now) }
    ensures none { IfNone result (IsLine bytes.now) }
{
    bytes.iter().position(|byte| *byte == b'\n')
}

/// Whether these bytes contain no line end.
fn is_line(bytes: &[u8]) -> bool
    ensures yes { OnTrue result (IsLine bytes.now) }
    ensures no { OnFalse result ((n : ℕ) × (bytes.now ≡ take n bytes.now ++ 10 ∷ drop (n + 1) bytes.now)) }
{
    match line_end(bytes) {
        Some(_) => false,
        None => true,
    }
}

/// The event that a line for closing a connection says. Refused by `BadConfig` if it can't be the line of an event.
fn event_of(alloc: Global, live: &Live, line: &[u8]) -> Result<Event, Fault>
    ensures says { IfOk result (λ event. Says live.now.names line.now (asked.Event event)) }
    ensures host { IfOk result IsOfHost }
    ensures line { OnOk result (IsLine line.now) }
    ensures unsaid { IsErrOf result Fault.BadConfig → shut.IsNoEventLine live.now.names line.now }
    ensures only { IfErr result (λ f. (f ≡ Fault.NoMemory) ⊎ (f ≡ Fault.BadConfig)) }
{
    if !is_line(line) {
        return Err(Fault::BadConfig);
    }
    let found = match event_in(alloc, live, line) {
        Ok(found) => found,
        Err(_) => return Err(Fault::NoMemory),
    };
    match found {
        Some(event) => Ok(event),
        None => Err(Fault::BadConfig),
    }
}

/// Closes the connection of a link: plays the event that its `close` line says, and adds its entry.
fn close<V: Watch<KvDriver>>(
    batch: &mut Batch,
    live: &mut Live,
    link: u8,
    watch: &mut V,
) -> Result<(), Fault>
    requires live { IsLive live.old.node }
    ensures closed { Goes live.old.node live.new.node (λ _ heard _. Watched (notes V.notes_before V.notes_after) 1 watch.old live.old.node heard live.new.node watch.new × (OnOk result (AddsClose link live.old heard live.new batch.old batch.new × (live.new.names ≡ live.old.names)) × (IsErrOf result Fault.JournalFull ↔ (finds_full heard ≡ true)))) }
    ensures live { OnOk result (IsLive live.new.node) }
    ensures unsaid { IsErrOf result Fault.BadConfig → shut.IsNoEventLine live.old.names (shut.close_line live.old.names link) }
    ensures only { IfErr result (λ f. (f ≡ Fault.NoMemory) ⊎ ((f ≡ Fault.JournalFull) ⊎ (f ≡ Fault.BadConfig))) }
{
    let line = match closing(batch.alloc(), name_of(live.names(), link)) {
        Ok(line) => line,
        Err(_) => return Err(Fault::NoMemory),
    };
    let event = match event_of(batch.alloc(), live, line.as_slice()) {
        Ok(event) => event,
        Err(fault) => return Err(fault),
    };
    match batch.play(live, event, line, watch) {
        Ok(()) => Ok(()),
        Err(fault) => Err(fault),
    }
}

/// Closes the connections of these links, in order.
fn close_all<V: Watch<KvDriver>>(
    batch: &mut Batch,
    live: &mut Live,
    links: Vec<u8>,
    watch: &mut V,
) -> Result<(), Fault>
    requires live { IsLive live.old.node }
    ensures closed { Goes live.old.node live.new.node (λ _ heard _. Watched (notes V.notes_before V.notes_after) 1 watch.old live.old.node heard live.new.node watch.new × (OnOk result (AddsCloses links.items live.old heard live.new batch.old batch.new) × (IsErrOf result Fault.JournalFull ↔ (finds_full heard ≡ true)))) }
    ensures live { OnOk result (IsLive live.new.node) }
    ensures unsaid { IsErrOf result Fault.BadConfig → shut.HasNoCloseLine live.old.names links.items }
    ensures only { IfErr result (λ f. (f ≡ Fault.NoMemory) ⊎ ((f ≡ Fault.JournalFull) ⊎ (f ≡ Fault.BadConfig))) }
{
    for link in links {
        match close(batch, live, link, watch) {
            Ok(()) => {}
            Err(fault) => return Err(fault),
        }
    }
    Ok(())
}

/// Adds a link if it is open and has room.
fn add_open(links: &mut Vec<u8>, live: &Live, link: u8) -> Result<(), AllocError>
    ensures { OnOk result (links.new.items ≡ links.old.items ++ (if accepts_at live.now.node link then link ∷ [] else [])) }
{
    if !live.is_open(link) {
        return Ok(());
    }
    links.push(link)?;
    Ok(())
}

/// The links that are open and have room, in order.
fn open_links(alloc: Global, live: &Live) -> Result<Vec<u8>, AllocError>
    ensures { IfOk result (λ links. links.items ≡ shut.open_links live.now.node (links_of live.now.node)) }
{
    let mut links = Vec::new(alloc);
    for link in 0..live.links() {
        add_open(&mut links, live, link)?;
    }
    Ok(links)
}

/// Whether this link may be open: it takes messages, or has no room for one.
fn is_maybe_open(live: &Live, link: u8) -> bool
    requires live { IsLive live.now.node }
    ensures some { OnTrue result ((accepts_at live.now.node link ≡ true) ⊎ (room_at live.now.node link ≡ 0)) }
    ensures none { OnFalse result (shut.is_open_at live.now.node link ≡ false) }
{
    if live.is_open(link) {
        return true;
    }
    let room = live.node().room(link);
    if room == 0 {
        return true;
    }
    false
}

/// Whether a link may be open.
fn may_be_open(live: &Live) -> bool
    requires live { IsLive live.now.node }
    ensures some { OnTrue result (shut.MayBeOpen live.now.node) }
    ensures none { OnFalse result ((l : ℕ) → l < links_of live.now.node → shut.is_open_at live.now.node l ≡ false) }
{
    for link in 0..live.links() {
        if is_maybe_open(live, link) {
            return true;
        }
    }
    false
}

/// Closes all connections that are open, since none outlives the process, and keeps these events. Returns their entries. Refused by
/// `JournalFull` exactly if a step found the journal full, by `Device` if the disk failed, by `NoMemory`, by `BadConfig` if the `close` line of
/// an open link can't be the line of an event, or by `AlreadyOpen` if a link may be open still.
fn close_links<L: EventLog, V: Watch<KvDriver>>(
    alloc: Global,
    live: &mut Live,
    kept: &mut Kept<L>,
    watch: &mut V,
) -> Result<Vec<Entry>, Fault>
    requires live { IsLive live.old.node }
    ensures closed { Goes live.old.node live.new.node (λ _ heard _. Watched (notes V.notes_before V.notes_after) 1 watch.old live.old.node heard live.new.node watch.new × (IfOk result (λ closes. shut.AreClosed closes.items live.old heard live.new) × (IsErrOf result Fault.JournalFull ↔ (finds_full heard ≡ true)))) }
    ensures live { OnOk result (IsLive live.new.node) }
    ensures kept { IfOk result (λ closes. (header : List ℕ) (ms : List Marked) → IsSettled L.holds L.may_leave header ms kept.old → IsSettled L.holds L.may_leave header (ms ++ batch_of closes.items) kept.new) }
    ensures stays { StaysDurable L.holds L.may_leave kept.old kept.new }
    ensures device { IsErrOf result Fault.Device → Fails (L.faults kept.old.log) (L.faults kept.new.log) }
    ensures hidden { IsErrOf result Fault.NoMemory → L.faults kept.new.log ≡ L.faults kept.old.log }
    ensures unsaid { IsErrOf result Fault.BadConfig → shut.HasNoCloseLine live.old.names (shut.open_links live.old.node (links_of live.old.node)) × (kept.new ≡ kept.old) }
    ensures still { IsErrOf result Fault.AlreadyOpen → shut.MayBeOpen live.new.node }
    ensures only { IfErr result (λ f. (f ≡ Fault.NoMemory) ⊎ ((f ≡ Fault.JournalFull) ⊎ ((f ≡ Fault.Device) ⊎ ((f ≡ Fault.BadConfig) ⊎ (f ≡ Fault.AlreadyOpen))))) }
{
    let links = match open_links(alloc, live) {
        Ok(links) => links,
        Err(_) => return Err(Fault::NoMemory),
    };
    let mut batch = Batch::new(alloc);
    match close_all(&mut batch, live, links, watch) {
        Ok(()) => {}
        Err(fault) => return Err(fault),
    }
    let (text, closes) = batch.into_parts();
    match kept.keep(alloc, closes.as_slice(), text) {
        Ok(_) => {}
        Err(fault) => return Err(fault),
    }
    if may_be_open(live) {
        return Err(Fault::AlreadyOpen);
    }
    Ok(closes)
}

/// What a start found in its log.
#[derive(Clone, Copy, Debug, PartialEq, Eq)]
pub struct Restarted {
    /// How many events the log has now.
    pub count: usize,
    /// How many bytes of its file were cut off.
    pub torn: usize,
    /// How many events are before these.
    pub behind: usize,
}

/// Plays what the log says again, and then closes all connections that are open, since none outlives the process. The watch is shown
/// each step. Returns how many events the log has then, and what was cut off. Refused by `Another` for the log of another configuration,
/// by `Unbegun` if its first line is torn and no new log is wanted, and by `Count` if it has another count of events than is wanted.
/// Refused by `Damaged` if the entry at that index doesn't fit the ones before it or says no event, or if something else is sent for it.
/// Refused by `Failed` if the disk failed or memory ran out, and with `JournalFull` exactly if a step found the journal full. After a
/// refusal, too, all that was kept is in the log.
pub fn restart<L: EventLog, V: Watch<KvDriver>>(
    alloc: Global,
    live: &mut Live,
    kept: &mut Kept<L>,
    header: &[u8],
    wanted: Wanted,
    watch: &mut V,
) -> Result<Restarted, LogFault>
    requires live { IsLive live.old.node }
    requires line { ¬ (IsLine header.now) }
    ensures restarted { Goes live.old.node live.new.node (λ _ heard _. Watched (notes V.notes_before V.notes_after) 1 watch.old live.old.node heard live.new.node watch.new × (IfOk result (IsRestarted L.holds L.may_leave wanted header.now kept.old kept.new live.old heard live.new) × IfErr result (IsStartFault L.holds L.may_leave L.faults wanted header.now kept.old kept.new live.old heard live.new) × (IsErrOf result (LogFault.Failed Fault.JournalFull) ↔ (finds_full heard ≡ true)))) }
    ensures live { OnOk result (IsLive live.new.node) }
    // Even after a refusal, all that was kept is in the log.
    ensures stays { StaysKept L.holds L.may_leave header.now kept.old kept.new }
{
    let found = match kept.recover(alloc, header, wanted) {
        Ok(found) => found,
        Err(fault) => return Err(fault),
    };
    let entries = found.entries;
    let behind = entries.len();
    kept.log().tell_torn(found.torn, behind);
    match replay(alloc, live, entries.as_slice(), watch) {
        Ok(()) => {}
        Err(fault) => return Err(fault),
    }
    let closes = match close_links(alloc, live, kept, watch) {
        Ok(closes) => closes,
        Err(fault) => return Err(LogFault::Failed(fault)),
    };
    Ok(Restarted {
        count: behind + closes.len(),
        torn: found.torn,
        behind,
    })
}
