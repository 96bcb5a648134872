//! Laws of the definitions. Each is the contract of a function that does nothing.
ghost use Rattle.scp_line.specs.Commands.{LinesAreGiven, FatesAreOfTheirLines, ReportedAreOfTheirLines};
ghost use Rattle.scp_line.specs.Headlines.{PlayingKeepsHeadlines, ReportingKeepsHeadlines};
ghost use Rattle.scp_line.specs.Laws.{LinesHaveRoom};

use scp_turn::{
    KvDriver, each_command_is_taken_in_its_turn, each_node_holds_its_headline,
    each_node_holds_its_ledger,
};

/// The capacities that a script's lines give the queues of its nodes are in range.
pub fn a_script_has_room()
    ensures room { LinesHaveRoom }
{}

/// The headline holds for the nodes of a script: for those that played its commands, by what they heard, and for those that ran in threads,
/// by what is reported of them.
pub fn what_is_played_keeps_the_headlines()
    ensures played { PlayingKeepsHeadlines }
    ensures reported { ReportingKeepsHeadlines }
{
    each_node_holds_its_ledger::<KvDriver>();
    each_node_holds_its_headline::<KvDriver>();
}

/// A command's fate is that of its own line. The commands that a script's node was given are those of its lines, in their order, but for the
/// ticks. Those that its slot stage took are the first of these, each once and in that order; the others wait. So its k-th fate is that of its
/// k-th line. In threads no command is left, where the nodes are reported.
pub fn each_fate_is_of_its_command()
    ensures given { LinesAreGiven }
    ensures played { FatesAreOfTheirLines }
    ensures reported { ReportedAreOfTheirLines }
{
    each_command_is_taken_in_its_turn::<KvDriver>();
}
