//! Laws of the definitions. Each is the contract of a function that does nothing.
ghost use Rattle.scp_live_process.specs.Laws.{KeptIsPlayed, LogsMakeOneNode, LogsGoOn};

use scp_live::{
    a_line_says_one_thing, further_events_go_on, the_same_events_give_the_same_episodes,
};
use scp_stand_node::below::turn::{KvDriver, each_node_holds_its_ledger};

/// What the node did while it answered lines is a replay of what is kept of these lines.
pub fn what_is_kept_is_what_was_played()
    ensures { KeptIsPlayed }
{}

/// A log determines the node. Two runs that played the same entries and still run received and replied the same, and their nodes show
/// the same.
pub fn what_a_log_says_makes_one_node()
    ensures { LogsMakeOneNode }
{
    the_same_events_give_the_same_episodes();
    a_line_says_one_thing();
}

/// A log that has grown goes on with the same node. A later life of the node, which plays all entries that an earlier one played, and then
/// more, received and replied all that the earlier one did, and then more. So over each link it takes nothing back, also where what was sent is
/// sent once more.
pub fn what_a_log_says_goes_on()
    ensures { LogsGoOn }
{
    further_events_go_on();
    a_line_says_one_thing();
    each_node_holds_its_ledger::<KvDriver>();
}
