//! What crates above take of those that this one is built on: a module for each, by its name without `scp_`.

pub mod types {
    pub use scp_ledger::below::types::{
        Ballot, ConnId, Fault, Hash, NodeId, Seq, SharedValue, Slot, Value,
    };
}

pub mod quorum {
    pub use scp_ledger::below::quorum::{QuorumSet, SaneSet};
}

pub mod envelope {
    pub use scp_ledger::below::envelope::{
        Envelope, Externalize, Nominate, Pledges, Signature, Statement, ValueList,
    };
}

pub mod kv {
    pub use scp_ledger::below::kv::{KvState, ops_in_finds_the_list};
}

pub mod vote {
    pub use scp_ledger::below::vote::{StatementKind, kind_of_pledges};
}

pub mod driver {
    pub use scp_ledger::below::driver::{Application, Driver, KvDriver, Level, place_of};
}

pub mod nominate {
    pub use scp_ledger::below::nominate::{an_input_is_a_function, nodes_with};
}

pub mod ballot_rules {
    pub use scp_ledger::below::ballot_rules::the_rules_are_a_function;
}

pub mod slot {
    pub use scp_ledger::below::slot::{SlotMachine, Timer};
}

pub mod wire {
    pub use scp_ledger::below::wire::{
        BoxedEnvelope, Carried, Cause, Command, FittingMessage, Inbound, Message, SideMessage,
    };
}

pub mod fetch {
    pub use scp_ledger::below::fetch::Want;
}

pub mod pending {
    pub use scp_ledger::below::pending::{
        Becoming, DropCause, Pending, Ready, Why, each_command_keeps_its_place,
        each_command_passes_once, each_connection_ends_by_its_cause, each_fate_has_its_cause,
        no_lane_delays_another, no_message_is_lost_or_overtaken, nothing_is_of_a_stranger,
        the_last_sets_are_stored, what_has_nothing_ready_is_settled,
        what_is_live_is_so_by_its_place, what_is_parked_came, what_is_replied_was_asked_for,
        who_it_is_stays,
    };
}

pub mod ledger {
    pub use scp_ledger::{
        CommandFate, Decision, Fate, JOURNAL_LIMIT, LAST_SLOT, Ledger, Onward, Origin, Outgoing,
        OutgoingList, Quorum, SharedDecision, Took, Verdict, a_beginning_keeps_the_window, timers,
        what_holds_of_a_ledger_holds_with_one_thing_more, what_is_given_on_keeps_the_window,
    };
}
