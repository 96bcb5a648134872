//! What becomes of a wanted hash.

/// What a miss does. A miss is that a node said it has no set with the hash, or that time went on.
#[derive(Clone, Copy, PartialEq, Eq)]
pub enum Missed {
    /// The hash isn't wanted.
    Unwanted,
    /// It is still wanted.
    Waiting,
    /// This was the twelfth miss, and the hash isn't wanted anymore.
    GaveUp,
}

/// What happens when a set comes.
#[derive(Clone, Copy, PartialEq, Eq)]
pub enum Answer {
    /// Its hash isn't wanted.
    Unwanted,
    /// Its hash was wanted, and the set is sane.
    Sane,
    /// Its hash was wanted, and the set isn't sane.
    Insane,
}
