//! What crates above take of those that this one is built on: a module for each, by its name without `scp_`.

pub mod types {
    pub use scp_workers::below::types::{Capacities, Fault, NODE_LIMIT, NodeId, Slot, Stage};
}

pub mod quorum {
    pub use scp_workers::below::quorum::{QuorumSet, SaneSet};
}

pub mod driver {
    pub use scp_workers::below::driver::{Application, KvDriver};
}

pub mod wire {
    pub use scp_workers::below::wire::{Bytes, Command, Inbound, LinkItem};
}

pub mod outbox {
    pub use scp_workers::below::outbox::Mark;
}

pub mod pending {
    pub use scp_workers::below::pending::{Pending, Ready};
}

pub mod ledger {
    pub use scp_workers::below::ledger::Onward;
}

pub mod apply {
    pub use scp_workers::below::apply::Applier;
}

pub mod theorem {
    pub use scp_workers::below::theorem::what_is_handed_out_may_be_sent;
}

pub mod ends {
    pub use scp_workers::below::ends::{
        Any, DecidedRx, DecidedTx, Gate, InWindow, InboxRx, InboxTx, Law, LinkDone, LinkRx, LinkTx,
        LocalDone, LocalTx, Moment, NotSent, Open, Place, ReadyRx, ReadyTx, Stage, decided, inbox,
        link, ready,
    };
}

pub mod shared_outbox {
    pub use scp_workers::below::shared_outbox::{
        Made, Marker, Outlets, Putter, Taker, ends_cross_threads, link_of, make_all, peer_at,
        take_all_back,
    };
}

pub mod workers {
    pub use scp_workers::{
        ApplyEnded, ApplyWorker, Courier, CourierEnded, Ended, Nothing, PendEnded, PendWorker,
        ReaderEnded, ReaderWorker, ReadingStage, SlotEnded, SlotStage, SlotWorker, Stage, Worker,
        applier, pending, reader, slots,
    };
}
