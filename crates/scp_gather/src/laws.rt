//! Laws of the definitions: each is the contract of a function that does nothing.
ghost use Rattle.scp_gather.specs.Count.{HoldsAtMost};
ghost use Rattle.scp_gather.specs.Gathered.{WhatEndsWellIsGathered};
ghost use Rattle.scp_gather.specs.Headline.{ReportsKeepHeadline};

use scp_workers::below::driver::Driver;
use scp_workers::below::pending::{
    no_message_is_lost_or_overtaken, what_has_nothing_ready_is_settled, what_is_parked_came,
};
use scp_workers::below::theorem::{
    what_keeps_the_ledger_keeps_the_headline, what_ran_keeps_the_ledger,
};
use scp_workers::below::wire::{
    each_number_names_its_message, parts_say_what_the_whole_says, reading_of_is_what_is_spelt,
    what_is_read_is_what_was_sent, what_is_read_keeps_the_shape,
};

/// If every worker of a node ended well, and each channel kept each producer's order, nothing is left in a queue or a hand. The ledger
/// theorem holds of what was sent to the node and of what its stages made of it.
pub fn what_ends_well_is_gathered<D: Driver + Drop + Copy>()
    ensures { WhatEndsWellIsGathered D.says }
{
    what_ran_keeps_the_ledger::<D>();
    what_is_read_keeps_the_shape();
    what_is_read_is_what_was_sent();
    parts_say_what_the_whole_says();
    each_number_names_its_message();
    no_message_is_lost_or_overtaken();
    what_is_parked_came();
    what_has_nothing_ready_is_settled();
}

/// The headline holds of a node's report, and of what went over the node's links.
pub fn what_is_reported_keeps_the_headline<D: Driver + Drop + Copy>()
    ensures headline { ReportsKeepHeadline D.says }
{
    what_keeps_the_ledger_keeps_the_headline::<D>();
}

/// At each moment a node whose stages run in threads holds at most this much. Its channels hold what they have room for; a reader's hand
/// holds up to 32 records of a batch, each other worker's hand one thing. At most 64 messages for each open connection are parked or leave,
/// and one more that was just taken. At most 16 decisions are buffered.
pub fn a_node_holds_so_much()
    ensures { HoldsAtMost }
{
    reading_of_is_what_is_spelt();
}
