//! The receiving ends of a node's links.
ghost use Rattle.std.specs.Prelude.{◌≡◌, ◌≢◌, ◌-◌, ◌∷◌, [], ◌⊎◌, length, Some, None, IsSome, false, true, IfOk, slice_get, slice_set, replicate, IsOkUnless, MatchOption, option_copied};
ghost use Rattle.scp_core.specs.Node.{new_link, link_accepts, has_read};
ghost use Rattle.scp_core.specs.inside.Links.{Opens, Sends, Closes, Reads, OnLinks, Gives, Puts};
ghost use Rattle.scp_core.specs.inside.Stops.{told};

use crate::event::Reply;
use crate::queue;
use crate::stop::Stop;
use circular_buffer::HeapCircularBuffer;
use scp_theorem::below::types::{Fault, NodeId};
use scp_theorem::below::wire::{Bytes, Inbound, LinkItem, LinkReader, Tail};
use std::alloc::Global;
use std::marker::Model;

/// A link. Its hand has what its reader read of the last item and didn't put yet: the first
/// thing of that; the rest of a batch is still with the reader.
#[derive(Drop)]
pub struct Link {
    tail: Tail,
    queue: HeapCircularBuffer<LinkItem>,
    reader: LinkReader,
    hand: Option<Inbound>,
}

impl Model for Link {
    ghost use Rattle.std.specs.Prelude.{◌≡◌, [], ◌++◌, None, option_to_list};
    ghost use Rattle.std.specs.Coded.{codes};
    ghost use Rattle.scp_theorem.specs.scp_xdr.specs.inside.TreeModel.{coded_row};
    ghost use Rattle.scp_theorem.specs.scp_quorum.specs.inside.QuorumTree.{coded_level};
    ghost use Rattle.scp_core.specs.Node.{LinkView};

    ghost Value = { LinkView };

    ghost coded = { Prim.hlevel (codes, coded_row coded_level) };

    ghost view = { λ a. record { life = a.tail.life; is_open = a.tail.is_open; queue = a.queue.items; room = a.queue.capacity; reader = a.reader.at; hand = option_to_list a.hand ++ a.reader.rest } };

    ghost invariant = { λ a. a.hand ≡ None → a.reader.rest ≡ [] };
}

impl Link {
    pub fn new(alloc: Global, room: usize) -> Result<Link, Fault>
        ensures new { IfOk result (λ k. k ≡ new_link room) }
        ensures only_memory { IsOkUnless result Fault.NoMemory }
    {
        Ok(Link {
            tail: Tail::new(),
            queue: HeapCircularBuffer::with_capacity(alloc, room)?,
            reader: LinkReader::new(alloc),
            hand: None,
        })
    }

    /// How often it was opened.
    pub fn life(&self) -> u32
        ensures { result ≡ self.now.life }
    {
        self.tail.life()
    }

    /// How many items its queue can still take.
    pub fn room(&self) -> usize
        ensures { result ≡ self.now.room - length self.now.queue }
    {
        self.queue.capacity() - self.queue.len()
    }

    /// How many items wait in its queue.
    pub fn queued(&self) -> usize
        ensures { result ≡ length self.now.queue }
    {
        self.queue.len()
    }

    /// What its reader takes next.
    pub fn next_item(&self) -> Option<&LinkItem>
        ensures { option_copied result ≡ slice_get self.now.queue 0 }
    {
        self.queue.front()
    }

    /// Whether its reader holds something.
    pub fn has_read(&self) -> bool
        ensures { result ≡ has_read self.now }
    {
        self.hand.is_some()
    }

    /// Whether what is sent on it would be accepted: it is open, and its queue has room.
    pub fn accepts(&self) -> bool
        ensures { result ≡ link_accepts self.now }
    {
        self.tail.is_open() && !queue::is_full(&self.queue)
    }

    fn open(&mut self, from: NodeId, to: NodeId) -> Reply
        ensures { Opens from to self.old result self.new }
    {
        let next = match self.tail.opening(from, to) {
            Ok(next) => next,
            Err(Fault::AlreadyOpen) => return Reply::AlreadyOpen,
            Err(_) => return Reply::LivesSpent,
        };
        if queue::is_full(&self.queue) {
            return Reply::Full;
        }
        self.tail = next.tail;
        queue::put(&mut self.queue, next.item);
        Reply::Accepted
    }

    fn send(&mut self, from: NodeId, to: NodeId, bytes: Bytes) -> Reply
        ensures { Sends from to bytes self.old result self.new }
    {
        let Ok(next) = self.tail.carrying(from, to, bytes) else {
            return Reply::NotOpen;
        };
        if queue::is_full(&self.queue) {
            return Reply::Full;
        }
        self.tail = next.tail;
        queue::put(&mut self.queue, next.item);
        Reply::Accepted
    }

    fn close(&mut self, from: NodeId, to: NodeId) -> Reply
        ensures { Closes from to self.old result self.new }
    {
        let Ok(next) = self.tail.closing(from, to) else {
            return Reply::NotOpen;
        };
        if queue::is_full(&self.queue) {
            return Reply::Full;
        }
        self.tail = next.tail;
        queue::put(&mut self.queue, next.item);
        Reply::Accepted
    }

    fn read(&mut self, alloc: Global) -> Reply
        ensures { Reads self.old result self.new }
    {
        if self.hand.is_some() {
            return Reply::Blocked;
        }
        let Some(item) = queue::next(&mut self.queue) else {
            return Reply::Idle;
        };
        match self.reader.take(alloc, item) {
            Ok(got) => {
                self.hand = got;
                Reply::Moved
            }
            Err(_) => Reply::NoMemory,
        }
    }

    /// Takes the first thing out of the hand if there is room for it; then the next one is the first.
    fn give(&mut self, is_full: bool) -> Result<Inbound, Stop>
        ensures { Gives self.old is_full (told result) self.new }
    {
        if self.hand.is_none() {
            return Err(Stop::Idle);
        }
        if is_full {
            return Err(Stop::Blocked);
        }
        match self.hand.take() {
            Some(item) => {
                self.hand = self.reader.rest();
                Ok(item)
            }
            None => Err(Stop::Idle),
        }
    }
}

pub fn open(links: &mut Vec<Link>, link: u8, from: NodeId, to: NodeId) -> Reply
    ensures { OnLinks (Opens from to) links.old.items link result links.new.items }
{
    match links.get_mut(link as usize) {
        None => Reply::NoLink,
        Some(link) => link.open(from, to),
    }
}

pub fn send(links: &mut Vec<Link>, link: u8, from: NodeId, to: NodeId, bytes: Bytes) -> Reply
    ensures { OnLinks (Sends from to bytes) links.old.items link result links.new.items }
{
    match links.get_mut(link as usize) {
        None => Reply::NoLink,
        Some(link) => link.send(from, to, bytes),
    }
}

pub fn close(links: &mut Vec<Link>, link: u8, from: NodeId, to: NodeId) -> Reply
    ensures { OnLinks (Closes from to) links.old.items link result links.new.items }
{
    match links.get_mut(link as usize) {
        None => Reply::NoLink,
        Some(link) => link.close(from, to),
    }
}

/// The link's reader takes an item. If it runs out of memory, the item is gone.
pub fn read(alloc: Global, links: &mut Vec<Link>, link: u8) -> Reply
    ensures { OnLinks Reads links.old.items link result links.new.items }
{
    match links.get_mut(link as usize) {
        None => Reply::NoLink,
        Some(link) => link.read(alloc),
    }
}

/// Takes the first thing out of the reader's hand, unless there is no such link, nothing in the hand, or no room for it.
pub fn give(links: &mut Vec<Link>, link: u8, is_full: bool) -> Result<Inbound, Stop>
    ensures { Puts links.old.items link is_full (told result) links.new.items }
{
    match links.get_mut(link as usize) {
        None => Err(Stop::NoLink),
        Some(link) => link.give(is_full),
    }
}

/// This many links that were never open.
pub fn new_links(alloc: Global, count: usize, room: usize) -> Result<Vec<Link>, Fault>
    ensures new { IfOk result (λ links. links.items ≡ replicate count (new_link room)) }
    ensures only_memory { IsOkUnless result Fault.NoMemory }
{
    let mut links = Vec::new(alloc);
    for _ in 0..count {
        links.push(Link::new(alloc, room)?)?;
    }
    Ok(links)
}
