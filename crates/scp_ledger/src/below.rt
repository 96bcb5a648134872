//! What crates above take of those that this one is built on: a module for each, by its name without `scp_`.

pub mod types {
    pub use scp_slot::below::types::{
        Ballot, CAPACITY_LIMIT, ConnId, Fault, Hash, NODE_LIMIT, NodeId, Seq, SharedValue, Slot,
        Value, WINDOW,
    };
}

pub mod quorum {
    pub use scp_slot::below::quorum::{QuorumSet, SaneSet, greatest_quorum};
}

pub mod envelope {
    pub use scp_slot::below::envelope::{
        Confirm, Envelope, Externalize, Nominate, Pledges, Prepare, SharedEnvelope,
        SharedStatement, Signature, Statement, ValueList, newer,
    };
}

pub mod kv {
    pub use scp_slot::below::kv::{KvState, ops_in_finds_the_list};
}

pub mod vote {
    pub use scp_slot::below::vote::{Board, Claim, StatementKind, kind_of_pledges};
}

pub mod driver {
    pub use scp_slot::below::driver::{Application, Driver, KvDriver, Level, place_of};
}

pub mod nominate {
    pub use scp_slot::below::nominate::{an_input_is_a_function, nodes_with};
}

pub mod ballot_rules {
    pub use scp_slot::below::ballot_rules::the_rules_are_a_function;
}

pub mod slot {
    pub use scp_slot::{SlotMachine, Timer};
}

pub mod wire {
    pub use scp_pending::below::wire::{
        BoxedEnvelope, Bytes, Carried, Cause, Command, FittingMessage, Inbound, LinkItem, Message,
        Next, SideMessage, Tail, a_beginning_keeps_the_shape, decode,
    };
}

pub mod fetch {
    pub use scp_pending::below::fetch::Want;
}

pub mod pending {
    pub use scp_pending::{
        Becoming, DropCause, Pending, Ready, Why, each_command_keeps_its_place,
        each_command_passes_once, each_connection_ends_by_its_cause, each_fate_has_its_cause,
        no_lane_delays_another, no_message_is_lost_or_overtaken, nothing_is_of_a_stranger,
        the_last_sets_are_stored, what_has_nothing_ready_is_settled,
        what_is_live_is_so_by_its_place, what_is_parked_came, what_is_replied_was_asked_for,
        who_it_is_stays,
    };
}
