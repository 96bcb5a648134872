//! What crates above take of those that this one is built on: a module for each, by its name without `scp_`.

pub mod types {
    pub use scp_outbox::below::types::{
        Ballot, CAPACITY_LIMIT, Capacities, ConnId, Fault, Hash, LIFE_LIMIT, LINK_LIMIT,
        NETWORK_LIMIT, NODE_LIMIT, NodeId, PEER_LIMIT, ROUND_LIMIT, SCRIPT_LIMIT, Seq, SharedValue,
        Slot, Stage, Value, WINDOW,
    };
}

pub mod quorum {
    pub use scp_outbox::below::quorum::{QuorumSet, SaneSet};
}

pub mod envelope {
    pub use scp_outbox::below::envelope::{
        Confirm, Envelope, Externalize, Nominate, Pledges, Prepare, SharedEnvelope, Signature,
        Statement, ValueList, encode, newer, newer_is_an_order,
    };
}

pub mod kv {
    pub use scp_apply::below::kv::KvState;
}

pub mod vote {
    pub use scp_apply::below::vote::{StatementKind, kind_of_pledges};
}

pub mod driver {
    pub use scp_apply::below::driver::{Application, Driver, KvDriver, Level, place_of};
}

pub mod nominate {
    pub use scp_apply::below::nominate::{an_input_is_a_function, nodes_with};
}

pub mod ballot_rules {
    pub use scp_apply::below::ballot_rules::the_rules_are_a_function;
}

pub mod slot {
    pub use scp_apply::below::slot::{SlotMachine, Timer};
}

pub mod wire {
    pub use scp_outbox::below::wire::{
        BoxedEnvelope, Bytes, Carried, Cause, Command, FittingMessage, Inbound, LinkItem,
        LinkReader, Message, SideMessage, Tail, a_beginning_keeps_the_shape, decode,
        each_number_names_its_message, encode, link_of, parts_say_what_the_whole_says,
        reading_of_is_what_is_spelt, what_fits_a_link, what_is_read_grows_with_the_items,
        what_is_read_is_what_was_sent, what_is_read_keeps_the_shape, what_is_spelt_is_read,
    };
}

pub mod outbox {
    pub use scp_outbox::{
        Mark, Out, Outboxes, what_is_given_was_handed_out, what_is_sent_was_handed_out,
    };
}

pub mod fetch {
    pub use scp_apply::below::fetch::Want;
}

pub mod pending {
    pub use scp_apply::below::pending::{
        Becoming, DropCause, Pending, Ready, Why, each_command_passes_once,
        no_message_is_lost_or_overtaken, nothing_is_of_a_stranger, the_last_sets_are_stored,
        what_has_nothing_ready_is_settled, what_is_parked_came, what_is_replied_was_asked_for,
        who_it_is_stays,
    };
}

pub mod ledger {
    pub use scp_apply::below::ledger::{
        CommandFate, Decision, Fate, JOURNAL_LIMIT, LAST_SLOT, Ledger, Onward, Origin, Outgoing,
        OutgoingList, Quorum, SharedDecision, Took, Verdict, a_beginning_keeps_the_window, timers,
        what_holds_of_a_ledger_holds_with_one_thing_more, what_is_given_on_keeps_the_window,
    };
}

pub mod apply {
    pub use scp_apply::{
        Applier, the_next_decision_can_be_taken,
        what_holds_of_an_applier_holds_with_one_thing_more, what_is_applied_is_a_function,
    };
}
