//! What crates above take of those that this one is built on: a module for each, by its name without `scp_`.

pub mod types {
    pub use scp_kv::below::types::{
        Fault, NODE_LIMIT, SCRIPT_LIMIT, Slot, VALUE_LIMIT, Value, WINDOW,
    };
}

pub mod xdr {
    pub use scp_kv::below::xdr::{decode, encode, what_is_written_is_read_back};
}

pub mod quorum {
    pub use scp_wire::below::quorum::QuorumSet;
}

pub mod envelope {
    pub use scp_wire::below::envelope::{Envelope, Signature, Statement, decode, encode};
}

pub mod wire {
    pub use scp_wire::{BoxedEnvelope, Bytes, Message, decode, encode};
}

pub mod device {
    pub use scp_device::{
        BadLine, BadWord, Expected, ReadFault, ReportOut, ScriptIn, WordFault, read_script,
        write_text,
    };
}
