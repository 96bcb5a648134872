//! What becomes of an item that the pending stage takes.

/// Why a message doesn't pass through.
#[derive(Clone, Copy, PartialEq, Eq)]
pub enum Why {
    /// The quorum set that it names isn't there, and its sender is asked for the set now.
    Asks,
    /// The quorum set that it names isn't there; its sender was asked for it before.
    Waits,
    /// It waits for nothing itself, but something of its lane is parked.
    Behind,
    /// As many messages of its connection are parked as may be: all of them are dropped, and this one too.
    Over,
}

/// What would become of an item if it were taken next.
#[derive(Clone, Copy, PartialEq, Eq)]
pub enum Becoming {
    /// Nothing changes, or this isn't shown: a beginning that opens no connection, an end, and a command other than a Tick.
    Nothing,
    /// A message, with a number or without one, of a connection that isn't open.
    Discarded,
    /// The connection begins.
    Opens,
    /// A numbered message waits for nothing, and leaves at once.
    Goes,
    /// A numbered message is parked, or is one too many to be parked.
    Parks(Why),
    /// A request for a quorum set is answered.
    Answered,
    /// A wanted quorum set came, and is sane.
    Stored,
    /// A wanted quorum set came, and isn't sane.
    BadSet,
    /// A wanted hash is missed once more.
    Missed,
    /// A quorum set that isn't wanted, or news that there is none with a hash that isn't wanted.
    Unwanted,
    /// Time went on.
    Ticks,
}
