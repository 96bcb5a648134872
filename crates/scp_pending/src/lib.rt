//! Messages that wait for their quorum sets.
//!
//! What it promises:
//! - In each lane of a connection, what was given and then what is held is what came, in order: whole up to the first end, or a
//!   front if too much waited. An envelope is given with the sane set whose hash it names.
//! - A lane that waits delays no other: what waits for nothing, and finds nothing of its lane parked, is given at once.
//! - A message is lost only by its set, which isn't sane or was missed twelve times, or by the end of its connection.
//! - A hash is wanted exactly while something that is parked waits for it. `waiting` returns the connections that wait, each
//!   once, in the order of their first message that waits.
//! - Only connections of its links are ever open, given or held. Besides the local set, the last 256 sets that were wanted and
//!   came are stored, each sane. What is replied was asked for.
//! - If memory is refused, the stage has failed: it answers that, and gives nothing more.
//! - `becoming` says what would become of an item that is taken next, by the same rules, and changes nothing.
//!
//! A set, a twelfth miss and a Tick look only into the queues of those connections that wait for the hash.
#![tactic(auto)]

mod becoming;
pub mod below;
mod laws;
mod parked;
mod pending;
mod queue;
mod ready;

pub use becoming::{Becoming, Why};
pub use laws::{
    a_hash_is_wanted_while_something_waits, each_command_keeps_its_place, each_command_passes_once,
    each_connection_ends_by_its_cause, each_fate_has_its_cause, few_are_parked,
    no_lane_delays_another, no_message_is_lost_or_overtaken, nothing_is_of_a_stranger,
    the_last_sets_are_stored, the_tests_of_a_set_tell, what_has_nothing_ready_is_settled,
    what_holds_of_a_stage_holds_with_one_call_more, what_is_live_is_so_by_its_place,
    what_is_parked_came, what_is_replied_was_asked_for, who_it_is_stays, who_waits_is_listed,
    who_waits_stands_in_order,
};
pub use pending::{PARKED_LIMIT, Pending};
pub use ready::{Delivery, DropCause, Ready};
