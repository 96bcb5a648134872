//! The stage that reads a link.
ghost use Rattle.std.specs.Prelude.{◌≡◌, ◌∷◌, ◌++◌, [], false, List, Some, IfOk, IfSome, OnOk, is_some};
ghost use Rattle.scp_theorem.specs.scp_wire.specs.declared.link.LinkItem.{LinkItem};

use crate::stage::{Given, Outs, Stage};
use crate::worker::{Ended, Worker};
use scp_ends::{Any, InboxTx, LinkRx, Stage as Place};
use scp_theorem::below::types::{Fault, NodeId};
use scp_theorem::below::wire::{Inbound, LinkItem, LinkReader};
use std::alloc::Global;

/// The reader of a link: it takes the link's items, and gives what each is read as.
#[derive(Drop)]
pub struct ReadingStage {
    pub alloc: Global,
    pub reader: LinkReader,
    /// A copy of each item that it took, in order, if they are to be kept.
    pub kept: Option<Vec<LinkItem>>,
}

/// The worker that reads a link.
pub type ReaderWorker = Worker<LinkItem, Any, Inbound, Any, ReadingStage>;

/// What it ends with.
pub type ReaderEnded = Ended<LinkItem, Any, Inbound, Any, ReadingStage>;

/// Where a reader keeps what it takes, before it took anything; `None` if it keeps nothing. Takes no memory.
fn nothing_kept(alloc: Global, keeps: bool) -> Option<Vec<LinkItem>>
    ensures none { IfSome result (λ items. items.items ≡ []) }
    ensures keeps { is_some result ≡ keeps }
{
    if keeps { Some(Vec::new(alloc)) } else { None }
}

/// Another item that equals this one. Copies its bytes.
fn copy(item: &LinkItem) -> Result<LinkItem, Fault>
    ensures same { IfOk result (λ copied. copied ≡ item.now) }
{
    match item {
        LinkItem::Opened(conn) => Ok(LinkItem::Opened(*conn)),
        LinkItem::Bytes(conn, bytes) => Ok(LinkItem::Bytes(*conn, bytes.copy()?)),
        LinkItem::Closed(conn) => Ok(LinkItem::Closed(*conn)),
    }
}

/// Keeps a copy of an item, if items are to be kept.
fn keep(kept: &mut Option<Vec<LinkItem>>, item: &LinkItem) -> Result<(), Fault>
    ensures kept { OnOk result ((took : List LinkItem) → IfSome kept.old (λ items. items.items ≡ took) → IfSome kept.new (λ items. items.items ≡ took ++ item.now ∷ [])) }
    ensures same { is_some kept.new ≡ is_some kept.old }
{
    if let Some(items) = kept {
        items.push(copy(item)?)?;
    }
    Ok(())
}

impl Stage<LinkItem, Any, Inbound, Any> for ReadingStage {
    ghost use Rattle.scp_workers.specs.Reading.{Reads, HasNoRest};

    ghost runs = { Reads };

    ghost rests = { HasNoRest };

    /// Reads an item, and gives the first thing that it is read as. Keeps a copy of the item first, if items are to be kept.
    fn take(&mut self, item: LinkItem) -> Option<Given<Inbound>> {
        if keep(&mut self.kept, &item).is_err() {
            return None;
        }
        match self.reader.take(self.alloc, item) {
            Ok(onward) => Some(Given {
                onward,
                outs: Outs::Nothing,
            }),
            Err(_) => None,
        }
    }

    /// The next thing that is left of a batch, if any.
    fn give(&mut self) -> Option<Inbound> {
        self.reader.rest()
    }
}

/// The worker of this node that reads the link of this number, between the link and the inbox. Nothing went through either end yet. If
/// `keeps` is set, its stage keeps a copy of each item that it takes. Takes no memory.
pub fn reader(
    alloc: Global,
    node: NodeId,
    link: u8,
    rx: LinkRx,
    tx: InboxTx,
    keeps: bool,
) -> ReaderWorker
    requires unused { (rx.got ≡ []) × (tx.sent ≡ []) }
    requires one { rx.producers ≡ 1 }
    ensures ends { (result.input ≡ rx) × (result.output ≡ Some tx) }
    ensures outlets { result.outlets ≡ [] }
    ensures works { (result.failed ≡ false) × (result.cut_off ≡ false) }
    ensures keeps { is_some result.first.kept ≡ keeps }
{
    let stage = ReadingStage {
        alloc,
        reader: LinkReader::new(alloc),
        kept: nothing_kept(alloc, keeps),
    };
    let place = Place::Reader(link);
    Worker::new(node, place, stage, Vec::new(alloc), rx, 1, Some(tx))
}
