//! What crates above take of those that this one is built on: a module for each, by its name without `scp_`.

pub mod types {
    pub use scp_gather::below::types::{Fault, NODE_LIMIT, NodeId, Slot};
}

pub mod driver {
    pub use scp_gather::below::driver::KvDriver;
}

pub mod wire {
    pub use scp_gather::below::wire::{Bytes, Command};
}

pub mod outbox {
    pub use scp_gather::below::outbox::Mark;
}

pub mod theorem {
    pub use scp_gather::below::theorem::what_is_handed_out_may_be_sent;
}

pub mod ends {
    pub use scp_gather::below::ends::{Gate, Moment, Open, Place, Stage};
}

pub mod shared_outbox {
    pub use scp_gather::below::shared_outbox::{
        Made, Marker, Outlets, Putter, Taker, link_of, make_all, peer_at, take_all_back,
    };
}

pub mod gather {
    pub use scp_gather::{
        NodeReport, what_is_carried_is_sent_out, what_is_read_is_the_senders_own,
        what_is_reported_keeps_the_headline,
    };
}
