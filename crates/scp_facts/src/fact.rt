//! What the steps of a node tell.

use scp_turn::CommandFate;
use scp_turn::below::envelope::SharedEnvelope;
use scp_turn::below::pending::{Becoming, Why};
use scp_turn::below::types::{ConnId, Hash, Seq, Slot};
use scp_turn::below::wire::{Bytes, Command, Message, SideMessage};
use std::marker::Model;

/// One thing that a step of a node tells. Links are numbered as the peers they come from. The facts of one step stand in the order of these.
#[derive(Drop)]
pub enum Fact {
    /// What a line's event goes to was full: the queue of a link, or the inbox.
    Full,
    /// The peer sent these bytes on this connection, which is open.
    Came(ConnId, Bytes),
    /// This command came into the inbox.
    Given(Command),
    /// Something of a connection that had ended was discarded: bytes that a reader took, or a message that reached the pending stage.
    Discarded(ConnId),
    /// The connection began at the pending stage.
    Opened(ConnId),
    /// The message of this number on its connection didn't go through the pending stage.
    Parked {
        conn: ConnId,
        seq: Seq,
        why: Why,
        message: Message,
    },
    /// A message without a number came to the pending stage on an open connection.
    Heard {
        conn: ConnId,
        became: Becoming,
        message: SideMessage,
    },
    /// Time passed at the pending stage.
    Ticked,
    /// A wanted hash was missed so many times by now.
    Missed {
        hash: Hash,
        misses: u16,
    },
    /// The journal has an entry at this place, from 0 on. Of an envelope that is stale: the statement that stands for its node, slot and
    /// kind, where that is neither the same statement nor newer.
    Entered {
        entry: usize,
        standing: Option<SharedEnvelope>,
    },
    /// The slot stage took this command, and this became of it.
    Obeyed(CommandFate, Command),
    /// An own statement for all peers.
    Says(SharedEnvelope),
    /// The decision at this place was made, from 0 on.
    Decided(usize),
    /// What stands at this place of the applied list was applied, from 0 on.
    Applied(usize),
    /// A request of this link's peer for the record of the slot came to the applier; there is one to send, or none.
    Answers {
        link: u8,
        slot: Slot,
        is_there: bool,
    },
    /// These bytes were sent to the peer of this link.
    Sent(u8, Bytes),
}

/// A fact of the node of this number.
#[derive(Drop)]
pub struct Told {
    pub node: u8,
    pub fact: Fact,
}

/// What is told of a script, in its order: the number of the line that is done next, or what its nodes did.
#[derive(Drop)]
pub enum Telling {
    Line(usize),
    Of(Told),
}

/// Facts in their order. Contracts see the list.
#[derive(Drop)]
pub struct FactList(Vec<Fact>);

impl Model for FactList {
    ghost use Rattle.std.specs.Prelude.{List};
    ghost use Rattle.std.specs.Coded.{codes};
    ghost use Rattle.scp_turn.specs.scp_xdr.specs.inside.TreeModel.{coded_row};
    ghost use Rattle.scp_turn.specs.scp_quorum.specs.inside.QuorumTree.{coded_level};
    ghost use Rattle.scp_facts.specs.declared.fact.Fact.{Fact};

    ghost Value = { List Fact };

    ghost coded = { Prim.hlevel (codes, coded_row coded_level) };

    ghost view = { λ f. f.0.items };
}

impl FactList {
    ghost use Rattle.std.specs.Prelude.{◌≡◌};

    /// The list of these. Moves them and takes no memory.
    pub fn new(facts: Vec<Fact>) -> FactList
        ensures { result ≡ facts.items }
    {
        FactList(facts)
    }

    /// Gives the facts back. Takes no memory.
    pub fn into_vec(self) -> Vec<Fact>
        ensures { result.items ≡ self }
    {
        let FactList(inside) = self;
        inside
    }
}
