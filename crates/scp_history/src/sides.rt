//! The sides of a split. Contracts see the list alone, and not the memory that it is in.
ghost use Rattle.std.specs.Prelude.{◌≡◌};

use crate::side::Side;
use std::marker::Model;

/// Values, each with the nodes for which it is certified.
#[derive(Drop)]
pub struct SideList(Vec<Side>);

impl Model for SideList {
    ghost use Rattle.std.specs.Prelude.{List};
    ghost use Rattle.scp_history.specs.declared.side.Side.{Side as OneSide};

    ghost Value = { List OneSide };

    ghost view = { λ n. n.0.items };
}

impl SideList {
    /// The list of these sides. Takes no memory.
    pub fn new(sides: Vec<Side>) -> SideList
        ensures { result ≡ sides.items }
    {
        SideList(sides)
    }

    /// The sides.
    pub fn as_slice(&self) -> &[Side]
        ensures { result.now ≡ self.now }
    {
        self.0.as_slice()
    }
}
