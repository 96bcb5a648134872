//! Why a file isn't read.
ghost use Rattle.std.specs.Prelude.{◌≡◌};
ghost use Rattle.scp_quorum_files.specs.declared.fault.FileFault.TheVariants.{NoMemory};

use std::alloc::{AllocError, AllocFailed};

/// Why a file isn't read. A place counts from 0.
#[derive(Clone, Copy, Debug, Drop)]
pub enum FileFault {
    /// Memory ran out.
    NoMemory,
    /// The text isn't JSON.
    Text,
    /// The document has no list of nodes where one is expected.
    Nodes,
    /// The node at this place of the list has no name, or its quorum set can't be read.
    Node(usize),
    /// The node at this place has the name of an earlier one.
    Twice(usize),
    /// The organisation at this place can't be read, or there is no list of organisations where one is expected.
    Organisation(usize),
}

impl From<AllocError> for FileFault {
    ghost from_gives = { λ _ e. e ≡ NoMemory };

    fn from(_e: AllocError) -> FileFault {
        FileFault::NoMemory
    }
}

impl<T: Drop> From<AllocFailed<T>> for FileFault {
    ghost from_gives = { λ _ e. e ≡ NoMemory };

    fn from(_e: AllocFailed<T>) -> FileFault {
        FileFault::NoMemory
    }
}
