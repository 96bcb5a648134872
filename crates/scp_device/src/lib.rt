//! Where a script is read from and where a text is written: the process's input and output, memory, and devices that fail; and how a
//! bad word of a text is told.
//!
//! What it promises:
//! - a script is read whole, up to its limit, and a text is written whole, in one piece or in parts;
//! - a read that fails leaves what is to be read, and a write that fails what was written;
//! - of the process's input and output the bytes are those of its handle, where these are known;
//! - a bad word of a text is told by its line, its place in it, and what was expected there, in words;
//! - a device that fails is told as one, and a device for tests fails from just the call that it is told.
//!
//! Not claimed: anything of the bytes of a process's own handles. There these clauses say which calls failed, and no more.
#![tactic(auto)]

mod bad;
pub mod below;
mod device;
mod parts;

pub use bad::{BadLine, BadWord, Expected, ReadFault, WordFault};
pub use device::{
    FailsAt, MemoryIn, MemoryOut, Process, ReportOut, ScriptIn, read_script, write_text,
};
pub use parts::{write_bad_word, write_numbered, write_parts};
