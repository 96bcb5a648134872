//! Keeps events and digests on a disk that may crash: a node's input, before any output about it is written.
//!
//! What it promises:
//! - once a call that keeps entries has succeeded, they are on the disk, in order, after everything kept before;
//! - a crash at any moment, even during a call, leaves a file that begins with everything kept before;
//! - reading a file returns exactly the whole entries at its front whose digests fit;
//! - an entry's digest covers the digest before it, its line, and what was sent for it;
//! - a torn end is cut off, and the cut is on the disk before anything is added; how many bytes that were is returned;
//! - a torn first line is written again where a new log is wanted, and is refused elsewhere;
//! - a log with fewer entries than are wanted is refused and left unchanged, and so is one with entries where a new one is wanted;
//! - a file that neither begins with the first line nor is a prefix of it is refused and left unchanged;
//! - a file is also refused if a batch begins after something that doesn't fit.
//!
//! These promises hold for a disk that behaves as `EventLog` says. We don't claim that a file does. No clause of the library says which
//! bytes reach the system, so only the failures of a `FileLog` are known, and whether it found that its file was moved.
#![tactic(auto)]

pub mod below;
mod disk;
mod entry;
mod file;
mod kept;
mod memory;
mod reading;
mod steps;
mod wanted;

pub use disk::EventLog;
pub use entry::Entry;
pub use file::FileLog;
pub use kept::{Durable, Kept, LogFault, Recovered};
pub use memory::MemoryLog;
pub use reading::{begins_with, read_digest};
pub use steps::{add, cut_to};
pub use wanted::{Unfit, Wanted};
