//! Laws of the definitions, each the contract of a function that does nothing.
ghost use Rattle.scp_turn.specs.Laws.{StillIsAtRest};
ghost use Rattle.scp_turn.specs.inside.InTurn.{NoneAreInTurn, StepsTakeInTurn};
ghost use Rattle.scp_turn.specs.Taking.{MoreIsTakenInTurn, AllIsTakenInTurn};

use scp_core::below::driver::Driver;
use scp_core::below::pending::each_command_passes_once;
use scp_core::below::wire::what_is_read_keeps_the_shape;
use scp_core::what_holds_of_a_past_holds_with_one_step_more;

/// A turn that moves nothing leaves the node as it was, with nothing in any queue or hand.
pub fn what_is_still_is_at_rest<D: Driver + Drop + Copy>()
    ensures { StillIsAtRest D.says }
{}

/// The slot stage takes the commands that the node was given one after another, in the order given: with each step those that it took are the
/// first of those that were given, and of a node that runs the others wait in its queues, hands and stages. A Tick is none of them.
pub fn each_step_takes_commands_in_turn<D: Driver + Drop + Copy>()
    ensures none { NoneAreInTurn D.says }
    ensures step { StepsTakeInTurn D.says }
{
    each_command_passes_once();
    what_is_read_keeps_the_shape();
}

/// The commands that a node's slot stage took in a run are the first of those that the node was given, each once, in the order given; those that
/// are left wait in that order, where the node runs. So the fate that a node shows as its k-th is that of the k-th command that it was given.
/// Ticks aren't counted: they go no further than the pending stage.
pub fn each_command_is_taken_in_its_turn<D: Driver + Drop + Copy>()
    ensures more { MoreIsTakenInTurn D.says }
    ensures run { AllIsTakenInTurn D.says }
{
    what_holds_of_a_past_holds_with_one_step_more::<D>();
    each_step_takes_commands_in_turn::<D>();
}
