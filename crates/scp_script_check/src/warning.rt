//! The warnings of a script.

use scp_nominate::below::types::NodeId;

/// What in a script hardly does what it was written for.
#[derive(Clone, Copy, PartialEq, Eq)]
pub enum Warning {
    /// The bytes of this line's `send` encode no message, from this place on: they end their connection.
    Malformed {
        line: usize,
        place: usize,
    },
    /// The bytes of this line's `send` are over a limit, and end their connection too.
    TooLong {
        line: usize,
    },
    /// This line is the first `send` on a link whose sender speaks. Over the whole script, the sender's own messages don't travel there.
    Driven {
        line: usize,
        from: u8,
        to: u8,
    },
    /// This line proposes a value that is no operation list.
    BadValue {
        line: usize,
    },
    /// This line is the first proposal of an operation list for a slot that no proposer leads, in as many rounds as its `round` lines
    /// reach. `leader` leads the first round.
    Unled {
        line: usize,
        slot: u64,
        leader: NodeId,
    },
    /// This line is the first that acts after the last `settle` or `wait`.
    Unsettled {
        line: usize,
    },
    /// Node `from` speaks and node `to` has it in its quorum set, but no line opens this link. The script doesn't alone speak for `to`.
    Unopened {
        from: u8,
        to: u8,
    },
    /// No report is asked for.
    Unreported,
}
