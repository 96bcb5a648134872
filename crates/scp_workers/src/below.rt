//! What crates above take of those that this one is built on: a module for each, by its name without `scp_`.

pub mod types {
    pub use scp_theorem::below::types::{
        Capacities, ConnId, Fault, Hash, NODE_LIMIT, NodeId, Slot, Stage,
    };
}

pub mod quorum {
    pub use scp_theorem::below::quorum::{QuorumSet, SaneSet};
}

pub mod driver {
    pub use scp_theorem::below::driver::{Application, Driver, KvDriver};
}

pub mod wire {
    pub use scp_theorem::below::wire::{
        Bytes, Carried, Cause, Command, FittingMessage, Inbound, LinkItem, Message, decode,
        each_number_names_its_message, parts_say_what_the_whole_says, reading_of_is_what_is_spelt,
        what_is_read_is_what_was_sent, what_is_read_keeps_the_shape, what_is_spelt_is_read,
    };
}

pub mod outbox {
    pub use scp_theorem::below::outbox::{Mark, Out};
}

pub mod pending {
    pub use scp_theorem::below::pending::{
        Pending, Ready, each_command_passes_once, no_message_is_lost_or_overtaken,
        what_has_nothing_ready_is_settled, what_is_parked_came,
    };
}

pub mod ledger {
    pub use scp_theorem::below::ledger::{CommandFate, Fate, Ledger, Onward, SharedDecision};
}

pub mod apply {
    pub use scp_theorem::below::apply::Applier;
}

pub mod theorem {
    pub use scp_theorem::{
        what_is_handed_out_may_be_sent, what_keeps_the_ledger_keeps_the_headline,
        what_ran_keeps_the_ledger,
    };
}

pub mod ends {
    pub use scp_ends::{
        Any, DecidedRx, DecidedTx, Gate, InWindow, InboxRx, InboxTx, Item, Law, LinkDone, LinkRx,
        LinkTx, LocalDone, LocalTx, Moment, NotSent, Open, Place, ReadyRx, ReadyTx, Stage, decided,
        inbox, link, ready,
    };
}

pub mod shared_outbox {
    pub use scp_shared_outbox::{
        Made, Marker, Outlets, Putter, Taker, ends_cross_threads, link_of, make, make_all, peer_at,
        statements_are_given_in_order, take_all_back, take_back, what_is_given_was_put,
    };
}
