//! What crates above take of those that this one is built on: a module for each, by its name without `scp_`.

pub mod types {
    pub use scp_wire::below::types::{
        Ballot, CAPACITY_LIMIT, CARRIED_LIMIT, Capacities, ConnId, Fault, Hash, LIFE_LIMIT,
        LINK_LIMIT, NETWORK_LIMIT, NODE_LIMIT, NodeId, PEER_LIMIT, ROUND_LIMIT, SCRIPT_LIMIT, Seq,
        SharedValue, Slot, Stage, Value, WINDOW,
    };
}

pub mod quorum {
    pub use scp_wire::below::quorum::{QuorumSet, SaneSet};
}

pub mod envelope {
    pub use scp_wire::below::envelope::{
        Confirm, Envelope, Externalize, Nominate, Pledges, Prepare, SharedEnvelope, Signature,
        Statement, ValueList, encode, newer, newer_is_an_order,
    };
}

pub mod wire {
    pub use scp_wire::{
        BoxedEnvelope, Bytes, Carried, Cause, Command, FittingMessage, Inbound, LinkItem,
        LinkReader, Message, SideMessage, Tail, a_beginning_keeps_the_shape,
        a_lane_follows_what_was_sent, decode, each_number_names_its_message, encode,
        is_side_message, link_of, parts_say_what_the_whole_says, peer_at,
        reading_of_is_what_is_spelt, what_fits_a_link, what_is_read_grows_with_the_items,
        what_is_read_is_what_was_sent, what_is_read_keeps_the_shape, what_is_spelt_is_read,
    };
}
