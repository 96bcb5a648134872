//! The player of scripts.
ghost use Rattle.std.specs.Prelude.{◌≡◌, ◌<◌, [], All, OnOk, IfErr, get_or, length};
ghost use Rattle.scp_report.specs.scp_script.specs.Script.{AreAdmitted};
ghost use Rattle.scp_report.specs.scp_script.specs.Nodes.{NamesNodes};
ghost use Rattle.scp_line.specs.Nodes.{AreMade};
ghost use Rattle.scp_line.specs.Player.{lining, IsRun, IsStoppedBy};

use crate::nodes::act_with;
use crate::playing::PlayFault;
use crate::watch::LineWatch;
use scp_report::below::script::Command;
use scp_turn::Network;

/// The number of the line at which a script stopped, and the reason.
#[derive(Clone, Copy, PartialEq, Eq)]
pub struct Stopped {
    pub line: usize,
    pub fault: PlayFault,
}

/// The number of the line at this place.
fn line_at(lines: &[usize], index: usize) -> usize
    requires { index < length lines.now }
    ensures { result ≡ get_or lines.now index result }
{
    lines[index]
}

/// Plays the commands of a script, one after the other, with nodes that are as they were made. `lines` has the number of each command's line,
/// which the watch is given. Refused as `act_with` refuses, with the number of the line that wasn't done.
pub fn play_lines<W: LineWatch>(
    network: &mut Network,
    watch: &mut W,
    commands: &[Command],
    lines: &[usize],
) -> Result<(), Stopped>
    requires names { All NamesNodes commands.now }
    requires admitted { AreAdmitted [] commands.now }
    requires made { AreMade commands.now network.old }
    requires count { length lines.now ≡ length commands.now }
    // All lines were done, in one run, and the watch noted each of them.
    ensures played { OnOk result (IsRun (lining W.notes_begin W.notes_end W.notes_before W.notes_after) commands.now lines.now network.new watch.old watch.new) }
    // A line wasn't done, after those before it were, and the watch noted the steps that its nodes still did. Or memory ran out.
    ensures stopped { IfErr result (IsStoppedBy (lining W.notes_begin W.notes_end W.notes_before W.notes_after) commands.now lines.now network.new watch.old watch.new) }
{
    let mut index = 0;
    for command in commands {
        let line = line_at(lines, index);
        watch.begin_line(line, command, network.nodes());
        let calm = match act_with(network, watch, command) {
            Ok(calm) => calm,
            Err(fault) => return Err(Stopped { line, fault }),
        };
        watch.end_line(line, command, calm, network.nodes());
        index += 1;
    }
    Ok(())
}
