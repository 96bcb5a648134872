//! What crates above take of those that this one is built on: a module for each, by its name without `scp_`.

pub mod types {
    pub use scp_xdr::below::types::{
        Ballot, CAPACITY_LIMIT, CARRIED_LIMIT, Capacities, ConnId, Fault, Hash, LIFE_LIMIT,
        LINK_LIMIT, NETWORK_LIMIT, NODE_LIMIT, NodeId, PEER_LIMIT, ROUND_LIMIT, SCRIPT_LIMIT, Seq,
        SharedValue, Slot, Stage, VALUE_LIMIT, Value, WINDOW,
    };
}

pub mod xdr {
    pub use scp_xdr::{
        Reader, Writer, Xdr, array_fits, check, decode, encode, encode_within,
        no_spelling_begins_another, numbered_fits, optional_fits, pass_array, pass_numbered,
        pass_optional, read_array, read_numbered, read_optional, spend_array, spend_optional,
        spend_u32, spend_u64, write_array, write_numbered, write_optional,
    };
}
