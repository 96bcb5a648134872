//! Why a stage gives nothing.
ghost use Rattle.std.specs.Prelude.{◌≡◌};
ghost use Rattle.scp_core.specs.inside.Stops.{reply_of};

use crate::event::Reply;

/// Why a stage gives nothing: the replies that carry nothing, so a result of giving stays a few bytes.
#[derive(Clone, Copy)]
pub enum Stop {
    NoLink,
    Idle,
    Blocked,
    NoMemory,
}

impl Stop {
    /// What a node answers then.
    pub fn reply(self) -> Reply
        ensures { result ≡ reply_of self }
    {
        match self {
            Stop::NoLink => Reply::NoLink,
            Stop::Idle => Reply::Idle,
            Stop::Blocked => Reply::Blocked,
            Stop::NoMemory => Reply::NoMemory,
        }
    }
}
