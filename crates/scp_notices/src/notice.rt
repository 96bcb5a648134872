//! The notices of a script that was played.

use scp_line::below::node::CommandFate;
use scp_line::below::types::Value;
use std::marker::Model;

/// Numbers of nodes, from 1 on. Contracts see the list.
#[derive(Drop)]
pub struct Numbers(Vec<u8>);

impl Model for Numbers {
    ghost use Rattle.std.specs.Prelude.{List, ℕ};

    ghost Value = { List ℕ };

    ghost view = { λ n. n.0.items };
}

impl Numbers {
    ghost use Rattle.std.specs.Prelude.{◌≡◌};

    /// Takes over these numbers, and needs no memory.
    pub fn new(numbers: Vec<u8>) -> Numbers
        ensures { result ≡ numbers.items }
    {
        Numbers(numbers)
    }

    /// The numbers, as a slice.
    pub fn as_slice(&self) -> &[u8]
        ensures { result.now ≡ self.now }
    {
        self.0.as_slice()
    }
}

/// Nodes that applied the same value for a slot.
#[derive(Drop)]
pub struct Side {
    /// Their numbers, ascending.
    pub nodes: Numbers,
    /// The value.
    pub value: Value,
}

/// Nodes, grouped by the value that they applied for a slot. Contracts see the list.
#[derive(Drop)]
pub struct Sides(Vec<Side>);

impl Model for Sides {
    ghost use Rattle.std.specs.Prelude.{List};
    ghost use Rattle.scp_notices.specs.declared.notice.Side.{Side};

    ghost Value = { List Side };

    ghost view = { λ s. s.0.items };
}

impl Sides {
    ghost use Rattle.std.specs.Prelude.{◌≡◌};

    /// Takes over these sides, and needs no memory.
    pub fn new(sides: Vec<Side>) -> Sides
        ensures { result ≡ sides.items }
    {
        Sides(sides)
    }

    /// The sides, as a slice.
    pub fn as_slice(&self) -> &[Side]
        ensures { result.now ≡ self.now }
    {
        self.0.as_slice()
    }
}

/// What would otherwise pass in silence in a run of a script. Lines are those of the script's text, from 1 on. Nodes and peers are named by
/// their numbers, from 1 on.
#[derive(Drop)]
pub enum Notice {
    /// The nodes didn't come to rest in this line: its settle was cut off after this number of rounds, each of which moved something.
    Unsettled { line: usize, rounds: u32 },
    /// The `wait` in this line gave up, in threads.
    GaveUp { line: usize },
    /// Nodes applied different values for this slot.
    Disagree { slot: u64, sides: Sides },
    /// The command in this line did nothing.
    Ignored { line: usize, why: CommandFate },
    /// This number of the node's own statements for the peer were replaced by newer ones, or dropped, before they were sent.
    Overwritten { node: u8, peer: u8, count: u64 },
    /// A script that was played in threads has no `wait` line, so its reports depend on when its threads ended.
    NoWait,
}
