//! What crates above take of those that this one is built on: a module for each, by its name without `scp_`.

pub mod types {
    pub use scp_wire::below::types::{Fault, NODE_LIMIT, NodeId, WINDOW};
}

pub mod quorum {
    pub use scp_wire::below::quorum::{QuorumSet, satisfied};
}

pub mod wire {
    pub use scp_wire::{Bytes, Message, decode};
}

pub mod device {
    pub use scp_device::{
        BadLine, BadWord, FailsAt, MemoryIn, MemoryOut, Process, ReadFault, ReportOut, ScriptIn,
        WordFault, read_script, write_numbered, write_text,
    };
}
