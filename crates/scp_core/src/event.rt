//! What happens at a node, and what it answers.
ghost use Rattle.std.specs.Prelude.{◌≡◌, IfOk, IsOkUnless};

use scp_theorem::below::types::Fault;
use scp_theorem::below::wire::{Bytes, Command};

/// What happens at a node: one step of one link's tail, or of one stage. Links are numbered in the order of the peers they come from.
#[derive(Drop)]
pub enum Event {
    /// The peer opens the link: its next life, a new connection, begins.
    Open(u8),
    /// The peer sends these bytes on the open link.
    Send(u8, Bytes),
    /// The peer closes the open link.
    Close(u8),
    /// A local command enters the inbox.
    Local(Command),
    /// The link's reader takes the next item of the link's queue. What it reads comes into its hand; for a batch, its records.
    ReaderTake(u8),
    /// The first of what is in the reader's hand goes into the inbox.
    ReaderPut(u8),
    /// The next ready thing of the pending stage comes into its hand. If there is none, the stage takes the next item of the inbox first.
    PendTake,
    /// What is in the pending stage's hand goes into the ready queue.
    PendPut,
    /// The slot stage takes the next ready thing. What goes on to the applier comes into its hand.
    SlotTake,
    /// What is in the slot stage's hand goes into the decided queue.
    SlotPut,
    /// The applier takes what is next in the decided queue.
    ApplyTake,
    /// What is next in the link's outbox is sent to the peer of the link.
    Drain(u8),
}

impl Event {
    /// An event that equals this one. It copies a send's bytes and a proposal's value. The only refusal is `Fault::NoMemory`.
    pub fn copy(&self) -> Result<Event, Fault>
        ensures same { IfOk result (λ copied. copied ≡ self.now) }
        ensures only_memory { IsOkUnless result Fault.NoMemory }
    {
        Ok(match self {
            Event::Open(link) => Event::Open(*link),
            Event::Send(link, bytes) => Event::Send(*link, bytes.copy()?),
            Event::Close(link) => Event::Close(*link),
            Event::Local(command) => Event::Local(command.copy()?),
            Event::ReaderTake(link) => Event::ReaderTake(*link),
            Event::ReaderPut(link) => Event::ReaderPut(*link),
            Event::PendTake => Event::PendTake,
            Event::PendPut => Event::PendPut,
            Event::SlotTake => Event::SlotTake,
            Event::SlotPut => Event::SlotPut,
            Event::ApplyTake => Event::ApplyTake,
            Event::Drain(link) => Event::Drain(*link),
        })
    }
}

/// What a node answers to an event. If several fit, it is the first in this order: `Failed`, `NoLink`, the event's own in the order of the
/// stages' documentation, and `NoMemory` last. It can't be copied or compared, since `Sent` has the bytes: match on it.
#[derive(Drop)]
pub enum Reply {
    /// The event was taken at the tail of a link, or into the inbox.
    Accepted,
    /// The stage did its step.
    Moved,
    /// These bytes are sent: they encode a link message.
    Sent(Bytes),
    /// There is nothing to take, nothing in the hand to put, or nothing to send.
    Idle,
    /// The hand is in use, or the next queue is full.
    Blocked,
    /// The queue of the link, or the inbox, is full.
    Full,
    /// The link isn't open.
    NotOpen,
    /// The link is open already.
    AlreadyOpen,
    /// The link was opened 65,535 times already.
    LivesSpent,
    /// There is no such link.
    NoLink,
    /// The node failed before.
    Failed,
    /// The journal has 1,000,000 entries; the node has failed.
    JournalFull,
    /// The node is out of memory, and has failed.
    NoMemory,
}
