//! Laws of the definitions. Each is the contract of a function that does nothing.
ghost use Rattle.scp_live.specs.Episodes.{SameEventsSameEpisodes, FurtherEventsGoOn};
ghost use Rattle.scp_live.specs.Lines.{LinesSayOneThing};

use scp_again::below::node::{
    KvDriver, what_holds_of_a_past_holds_with_one_step_more, what_two_runs_reply_is_the_same,
};
use scp_again::what_is_sent_once_more_never_goes_back;

/// The same events give the same episodes. Take two runs of one configuration, each from the newly made node on, that receive the same
/// events. If neither leaves the node failed, both have the same exchanges, and leave nodes that show the same.
pub fn the_same_events_give_the_same_episodes()
    ensures { SameEventsSameEpisodes }
{
    what_two_runs_reply_is_the_same::<KvDriver>();
    what_holds_of_a_past_holds_with_one_step_more::<KvDriver>();
}

/// Further events go on from where a run ended. Take two runs of one configuration, each from the newly made node on, of which the later
/// one receives the events of the earlier one, and then more. If neither leaves the node failed, the later one received and replied all
/// that the earlier one did, and then more. Over no link it goes back, also where what was sent is sent once more.
pub fn further_events_go_on()
    ensures { FurtherEventsGoOn }
{
    what_is_sent_once_more_never_goes_back::<KvDriver>();
    what_two_runs_reply_is_the_same::<KvDriver>();
    what_holds_of_a_past_holds_with_one_step_more::<KvDriver>();
}

/// If no two links have the same name, a line asks for at most one thing.
pub fn a_line_says_one_thing()
    ensures { LinesSayOneThing }
{}
