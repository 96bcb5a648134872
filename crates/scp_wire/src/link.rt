//! What travels over a link.

use crate::carried::Carried;
use crate::side::SideMessage;
use scp_quorum::below::types::{ConnId, Fault, Slot, Value};
use std::marker::Model;

/// Bytes as they came over a link; nothing is known about them.
#[derive(Debug, Drop)]
pub struct Bytes(Vec<u8>);

impl Model for Bytes {
    ghost use Rattle.std.specs.Prelude.{List, ℕ};

    ghost Value = { List ℕ };

    ghost view = { λ b. b.0.items };
}

impl Bytes {
    ghost use Rattle.std.specs.Prelude.{◌≡◌, IfOk, IsOkUnless};

    /// These bytes. Moves them, and takes no memory.
    pub fn new(bytes: Vec<u8>) -> Bytes
        ensures { result ≡ bytes.items }
    {
        Bytes(bytes)
    }

    /// The bytes as a slice.
    pub fn as_slice(&self) -> &[u8]
        ensures { result.now ≡ self.now }
    {
        self.0.as_slice()
    }

    /// Equal bytes, in the same allocator. The only refusal is `Fault::NoMemory`.
    pub fn copy(&self) -> Result<Bytes, Fault>
        ensures same { IfOk result (λ copied. copied ≡ self.now) }
        ensures only_memory { IsOkUnless result Fault.NoMemory }
    {
        let alloc = *self.0.allocator();
        Ok(Bytes(Vec::from_slice(alloc, &self.0)?))
    }
}

/// What travels over a link, in order. Each life of the link is a connection of its own.
#[derive(Drop)]
pub enum LinkItem {
    /// The connection begins.
    Opened(ConnId),
    /// Bytes were sent on it.
    Bytes(ConnId, Bytes),
    /// The sender closed it.
    Closed(ConnId),
}

/// Why a connection ended.
#[derive(Clone, Copy, Debug, PartialEq, Eq)]
pub enum Cause {
    /// Bytes came that are no message.
    Malformed,
    /// The link was closed.
    Link,
    /// A message came after 1,000,000 carried ones.
    Spent,
    /// 65 of its messages would have waited for quorum sets. Only the receiving node ends a connection with this cause; a reader never does.
    ParkedFull,
}

/// What a node's host tells it to do; it doesn't come over a link.
#[derive(Drop)]
pub enum Command {
    /// Time went on: each wanted quorum set was missed once more.
    Tick,
    /// A value for the nomination of the slot.
    Propose(Slot, Value),
    /// One more round of the slot's nomination.
    Round(Slot),
    /// The slot's ballot timer ran out.
    Timer(Slot),
    /// The slot's record is to be requested over the link with this number.
    Ask(u8, Slot),
}

impl Command {
    ghost use Rattle.std.specs.Prelude.{◌≡◌, IfOk, IsOkUnless};

    /// Another command that equals this one. Copies a proposal's bytes. The only refusal is `Fault::NoMemory`.
    pub fn copy(&self) -> Result<Command, Fault>
        ensures same { IfOk result (λ copied. copied ≡ self.now) }
        ensures only_memory { IsOkUnless result Fault.NoMemory }
    {
        match self {
            Command::Tick => Ok(Command::Tick),
            Command::Propose(slot, value) => Ok(Command::Propose(*slot, value.copy()?)),
            Command::Round(slot) => Ok(Command::Round(*slot)),
            Command::Timer(slot) => Ok(Command::Timer(*slot)),
            Command::Ask(link, slot) => Ok(Command::Ask(*link, *slot)),
        }
    }
}

/// What reaches a node's inbox: what a reader makes of a link's items, and local commands.
#[derive(Drop)]
pub enum Inbound {
    /// The connection begins.
    Opened(ConnId),
    /// A message that is numbered on its connection.
    Carried(Carried),
    /// A message that asks for a quorum set, or answers such a message; it has no number.
    Side { conn: ConnId, message: SideMessage },
    /// The connection ended.
    Closed { conn: ConnId, cause: Cause },
    /// A local command.
    Local(Command),
}
