//! Why a configuration can't be read.
ghost use Rattle.std.specs.Prelude.{◌≡◌};
ghost use Rattle.scp_live_config.specs.declared.fault.ConfigFault.TheVariants.{NoMemory};

use crate::wrong::Wrong;
use std::alloc::{AllocError, AllocFailed};

/// Why a configuration can't be read.
#[derive(Debug, Drop)]
pub enum ConfigFault {
    /// Memory ran out.
    NoMemory,
    /// The text isn't TOML: the line, counted from 1, and the reason.
    Text { line: usize, words: String },
    /// A value isn't what is expected at its key.
    Wrong(Wrong),
}

impl From<AllocError> for ConfigFault {
    ghost from_gives = { λ _ e. e ≡ NoMemory };

    fn from(_e: AllocError) -> ConfigFault {
        ConfigFault::NoMemory
    }
}

impl<T: Drop> From<AllocFailed<T>> for ConfigFault {
    ghost from_gives = { λ _ e. e ≡ NoMemory };

    fn from(_e: AllocFailed<T>) -> ConfigFault {
        ConfigFault::NoMemory
    }
}
