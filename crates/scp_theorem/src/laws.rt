//! Laws of the definitions, each the contract of a function that does nothing.
ghost use Rattle.scp_theorem.specs.Kept.{RanKeepsLedger};
ghost use Rattle.scp_theorem.specs.Runs.{NothingSentRan};

use scp_apply::below::driver::Driver;
use scp_apply::below::pending::{
    each_command_keeps_its_place, each_command_passes_once, each_connection_ends_by_its_cause,
    each_fate_has_its_cause, no_lane_delays_another, no_message_is_lost_or_overtaken,
    nothing_is_of_a_stranger, what_is_live_is_so_by_its_place, what_is_parked_came,
};
use scp_outbox::below::wire::{
    a_beginning_keeps_the_shape, a_lane_follows_what_was_sent, each_number_names_its_message,
    parts_say_what_the_whole_says, what_is_read_is_what_was_sent, what_is_read_keeps_the_shape,
};

/// The ledger theorem holds under three conditions. Each link carries what its tail may send. Each stage took in order what the one before it
/// gave, except what is still between them. Each stage is, for what it took and gave, as its calls promise.
pub fn what_ran_keeps_the_ledger<D: Driver + Drop + Copy>()
    ensures { RanKeepsLedger D.says.level D.says.extracted D.says.combined D.says.place }
{
    what_is_read_keeps_the_shape();
    what_is_read_is_what_was_sent();
    a_beginning_keeps_the_shape();
    parts_say_what_the_whole_says();
    each_number_names_its_message();
    a_lane_follows_what_was_sent();
    no_message_is_lost_or_overtaken();
    each_connection_ends_by_its_cause();
    each_fate_has_its_cause();
    each_command_passes_once();
    each_command_keeps_its_place();
    no_lane_delays_another();
    nothing_is_of_a_stranger();
    what_is_live_is_so_by_its_place();
    what_is_parked_came();
}

/// `Ran` can be met. A node to which nothing was sent meets it, whoever the node and its peers are, if its stages
/// are as their calls promise when they took and gave nothing.
pub fn there_are_runs<D: Driver + Drop + Copy>()
    ensures { NothingSentRan D.says.level D.says.extracted D.says.combined D.says.place }
{}
