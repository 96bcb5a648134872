//! The folder of a node whose life is a chain of epochs: the log of the present epoch and those of ended ones.
//!
//! What it promises:
//! - a crash at any moment of a switch leaves the log of the epoch that ends, or that of the next one, each whole;
//! - the log of an ended epoch stays, under the number of its epoch;
//! - once a switch has succeeded, all of it is on the disk;
//! - a start takes away what was begun of a switch, and loses nothing of any log.
//!
//! These promises hold for a disk that behaves as `Folder` says. We don't claim that a folder of the system does.
#![tactic(auto)]

mod epochs;
mod folder;
mod laws;
mod steps;
mod system;

pub use epochs::Epochs;
pub use folder::Folder;
pub use laws::a_start_finds_one_epoch;
pub use system::SystemFolder;
