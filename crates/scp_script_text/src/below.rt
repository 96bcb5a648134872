//! What crates above take of those that this one is built on: a module for each, by its name without `scp_`.

pub mod types {
    pub use scp_text::below::types::{
        Fault, NODE_LIMIT, SCRIPT_LIMIT, Slot, VALUE_LIMIT, Value, WINDOW,
    };
}

pub mod xdr {
    pub use scp_text::below::xdr::{decode, encode};
}

pub mod quorum {
    pub use scp_text::below::quorum::QuorumSet;
}

pub mod envelope {
    pub use scp_text::below::envelope::{Envelope, Signature, Statement, decode, encode};
}

pub mod wire {
    pub use scp_text::below::wire::{BoxedEnvelope, Bytes, Message, decode, encode};
}

pub mod device {
    pub use scp_text::below::device::{
        BadLine, BadWord, Expected, ReadFault, ReportOut, ScriptIn, WordFault, read_script,
        write_text,
    };
}

pub mod text {
    pub use scp_text::{
        BadLine, BadWord, Expected, Term, WordFault, message_of, set_of, text_of, text_of_set,
        text_of_value, value_of, words,
    };
}
