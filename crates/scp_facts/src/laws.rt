//! Laws of the definitions, each the contract of a function that does nothing.
ghost use Rattle.scp_facts.specs.InTurn.{NodeIsKeptInTurn};
ghost use Rattle.scp_facts.specs.Keeping.{KeptIsWhatHappened, StepIsKept};
ghost use Rattle.scp_facts.specs.Standing.{NewerIsTold};
ghost use Rattle.scp_facts.specs.Watching.{StepIsTold, ToldIsWhatHappened};

use scp_turn::{KvDriver, each_command_is_taken_in_its_turn};

/// What a watch that didn't lack memory told of a step is what happened in it, and it didn't lack memory before.
pub fn a_step_is_told_as_it_happened()
    ensures { StepIsTold }
{}

/// What a watch told of the steps of a node, as long as it didn't lack memory, is what happened in them, in their order.
pub fn what_is_told_is_what_happened()
    ensures { ToldIsWhatHappened }
{}

/// If a watch never ran out of memory, what it kept of a step is what happened in it. The same holds for the steps of a node, in their order.
pub fn what_is_kept_is_what_happened()
    ensures step { StepIsKept }
    ensures steps { KeptIsWhatHappened }
{}

/// Each fate that is kept is that of its own command. The commands that were kept as taken are the first of those that came into the node's
/// inbox, each once, in their order. The others wait.
pub fn each_fate_kept_is_of_its_command()
    ensures { NodeIsKeptInTurn }
{
    each_command_is_taken_in_its_turn::<KvDriver>();
}

/// The test of which statement is newer passes just the newer statements.
pub fn the_test_of_newer_tells()
    ensures { NewerIsTold }
{}
