ghost use Rattle.std.specs.Prelude.{◌≡◌};
ghost use Rattle.scp_types.specs.declared.fault.Fault.TheVariants.{NoMemory};

use std::alloc::{AllocError, AllocFailed};
use thiserror::Error;

/// The stage of the pipeline that a refusal names.
#[derive(Clone, Copy, Debug, PartialEq, Eq)]
pub enum Stage {
    /// A reader of a link.
    Reader,
    /// The stage where messages wait for their quorum sets.
    Pend,
    /// The stage that runs the slots.
    Slot,
    /// The applier.
    Apply,
}

/// Why a call was refused. Each reason has its number, which programs print, and its text.
#[derive(Clone, Copy, Debug, PartialEq, Eq, Error)]
pub enum Fault {
    /// 1: out of memory; the allocator refused to allocate.
    #[error("no memory")]
    NoMemory,
    /// 2: the bytes encode nothing; what is wrong is at this offset from their start.
    #[error("malformed at {0}")]
    Malformed(usize),
    /// 3: a length, a count, a depth or a whole encoding is over its limit.
    #[error("too long")]
    TooLong,
    /// 4: a quorum set that is encoded well, but isn't sane.
    #[error("insane quorum set")]
    Insane,
    /// 5: the queue or ring has no room.
    #[error("full")]
    Full,
    /// 6: no connection is open on the link.
    #[error("not open")]
    NotOpen,
    /// 7: a connection is open on the link.
    #[error("already open")]
    AlreadyOpen,
    /// 8: the link was opened as often as it can be.
    #[error("lives spent")]
    LivesSpent,
    /// 9: no node can be set up with this configuration.
    #[error("bad configuration")]
    BadConfig,
    /// 10: an earlier refusal left the value failed.
    #[error("failed")]
    Failed,
    /// 11: the journal has no room for one more entry.
    #[error("journal full")]
    JournalFull,
    /// 12: the script is refused at this line, counted from 1.
    #[error("bad script at line {0}")]
    BadScript(usize),
    /// 13: this stage of a node failed.
    #[error("refused by a stage")]
    Refused(Stage),
    /// 14: a read or a write of the input or the output failed.
    #[error("device")]
    Device,
}

impl Fault {
    ghost use Rattle.scp_types.specs.Fault.{number_of};

    /// The number of the refusal, from 1 to 14.
    pub fn number(self) -> u8
        ensures { result ≡ number_of self }
    {
        match self {
            Fault::NoMemory => 1,
            Fault::Malformed(_) => 2,
            Fault::TooLong => 3,
            Fault::Insane => 4,
            Fault::Full => 5,
            Fault::NotOpen => 6,
            Fault::AlreadyOpen => 7,
            Fault::LivesSpent => 8,
            Fault::BadConfig => 9,
            Fault::Failed => 10,
            Fault::JournalFull => 11,
            Fault::BadScript(_) => 12,
            Fault::Refused(_) => 13,
            Fault::Device => 14,
        }
    }
}

impl From<AllocError> for Fault {
    ghost from_gives = { λ _ e. e ≡ NoMemory };

    fn from(_e: AllocError) -> Fault {
        Fault::NoMemory
    }
}

impl<T: Drop> From<AllocFailed<T>> for Fault {
    ghost from_gives = { λ _ e. e ≡ NoMemory };

    fn from(_e: AllocFailed<T>) -> Fault {
        Fault::NoMemory
    }
}
