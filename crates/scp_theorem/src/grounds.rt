//! The law of what goes out: the contract of a function that does nothing.
ghost use Rattle.scp_theorem.specs.Laws.{HandedOutMayGo};

use crate::laws::what_ran_keeps_the_ledger;
use scp_apply::below::driver::Driver;
use scp_apply::below::pending::{
    each_command_passes_once, nothing_is_of_a_stranger, what_is_replied_was_asked_for,
    who_it_is_stays,
};

/// All that a node's stages hand out for a link may be sent over it. Only the slot stage hands out
/// statements, each newer than those of its slot and kind before it.
pub fn what_is_handed_out_may_be_sent<D: Driver + Drop + Copy>()
    ensures { HandedOutMayGo D.says }
{
    who_it_is_stays();
    nothing_is_of_a_stranger();
    what_is_replied_was_asked_for();
    each_command_passes_once();
    what_ran_keeps_the_ledger::<D>();
}
