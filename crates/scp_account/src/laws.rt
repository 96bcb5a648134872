//! Laws of the definitions. Each is the contract of a function that does nothing.
ghost use Rattle.scp_account.specs.InTurn.{ScriptIsKeptInTurn};
ghost use Rattle.scp_account.specs.Laws.{CountsTheNewest};
ghost use Rattle.scp_account.specs.Run.{RunIsKept};

use scp_facts::what_is_kept_is_what_happened;
use scp_line::each_fate_is_of_its_command;

/// The entry that an account names to justify a member's place in a certificate is the one that counts. Its statement, with the set that
/// came with it, is the newest that was fresh. The headline uses the same one to say what a certificate is.
pub fn what_counts_is_the_newest()
    ensures { CountsTheNewest }
{}

/// If a watch of the steps of a script's run never ran out of memory, what it kept is what happened in them, in their order.
pub fn a_run_is_kept_as_it_happened()
    ensures { RunIsKept }
{
    what_is_kept_is_what_happened();
}

/// Each fate that is kept of a script's run is that of its own command. The commands that were kept as taken by a node are the first of those
/// that the lines give it, each once, in their order. The others wait.
pub fn each_fate_of_a_script_is_of_its_command()
    ensures { ScriptIsKeptInTurn }
{
    each_fate_is_of_its_command();
}
