//! What crates above take of those that this one is built on: a module for each, by its name without `scp_`.

pub mod types {
    pub use scp_xdr::below::types::{
        Ballot, Fault, Hash, NODE_LIMIT, NodeId, SCRIPT_LIMIT, SharedValue, Slot, VALUE_LIMIT,
        Value, WINDOW,
    };
}

pub mod xdr {
    pub use scp_xdr::{
        Reader, Writer, Xdr, array_fits, decode, encode, encode_within, pass_array, read_array,
        spend_array, what_is_written_is_read_back, write_array,
    };
}
