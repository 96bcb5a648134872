ghost use Rattle.std.specs.Prelude.{nat_eq};
ghost use Rattle.std.specs.Cmp.Lexicographic.{pointwise};

use crate::bytes::same_32;

/// A node, by the 32 bytes of its Ed25519 public key, ordered by these bytes.
#[derive(Clone, Copy, Debug, Eq, PartialOrd, Ord)]
pub struct NodeId(pub [u8; 32]);

impl PartialEq for NodeId {
    ghost use Rattle.std.specs.Cmp.Rules.{comparing};
    ghost use Rattle.std.proofs.Common.{rules};

    ghost eq = { λ x y. pointwise nat_eq x.0 y.0 };

    ghost laws = { Prim.search (comparing, rules) };

    fn eq(&self, other: &NodeId) -> bool {
        same_32(&self.0, &other.0)
    }
}

/// A SHA-256 digest (FIPS 180-4), ordered by its bytes.
#[derive(Clone, Copy, Debug, Eq, PartialOrd, Ord)]
pub struct Hash(pub [u8; 32]);

impl PartialEq for Hash {
    ghost use Rattle.std.specs.Cmp.Rules.{comparing};
    ghost use Rattle.std.proofs.Common.{rules};

    ghost eq = { λ x y. pointwise nat_eq x.0 y.0 };

    ghost laws = { Prim.search (comparing, rules) };

    fn eq(&self, other: &Hash) -> bool {
        same_32(&self.0, &other.0)
    }
}

/// The number of a slot, from 1 on; 0 names no slot that can be decided.
#[derive(Clone, Copy, Debug, PartialEq, Eq, PartialOrd, Ord)]
pub struct Slot(pub u64);

/// The number of a carried message on its connection: 0, 1, 2, ..
#[derive(Clone, Copy, PartialEq, Eq, PartialOrd, Ord)]
pub struct Seq(pub u64);

/// One life of the link from one node to another: a connection. Ordered by sender, receiver and life.
#[derive(Clone, Copy, PartialEq, Eq, PartialOrd, Ord)]
pub struct ConnId {
    /// The node that sends on it.
    pub from: NodeId,
    /// The node that receives on it.
    pub to: NodeId,
    /// Which opening of the link this is, from 1 on.
    pub life: u32,
}
