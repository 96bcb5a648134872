//! The notices that both ways to run a script have, from the records of its nodes.
ghost use Rattle.std.specs.Prelude.{◌≡◌, ◌≤◌, ◌++◌, All, OnOk, IsOkUnless, length, map};
ghost use Rattle.scp_line.specs.scp_types.specs.declared.limits.TheConstants.{NODE_LIMIT};
ghost use Rattle.scp_line.specs.scp_apply.specs.Applied.{AreInOrder};
ghost use Rattle.scp_line.specs.scp_script.specs.Nodes.{NamesNodes};
ghost use Rattle.scp_line.specs.scp_report.specs.Report.{view_of};
ghost use Rattle.scp_notices.specs.Nodes.{nodes_notices};
ghost use Rattle.scp_notices.specs.inside.Seen.{applied_in};

use crate::commands::{Told, add_ignored};
use crate::disagreeing::add_disagreements;
use crate::lost::add_lost;
use crate::notice::Notice;
use scp_line::Report;
use scp_line::below::script::Command;
use scp_line::below::types::Fault;

/// Adds the notices of nodes with these records, whose slot stages reported this of their commands: lines whose commands did nothing, slots
/// for which nodes applied different values, links whose own statements were lost.
pub fn add_nodes(
    out: &mut Vec<Notice>,
    commands: &[Command],
    lines: &[usize],
    told: &[Told],
    reports: &[Report<'_>],
) -> Result<(), Fault>
    requires names { All NamesNodes commands.now }
    requires count { length lines.now ≡ length commands.now }
    requires few { length reports.now ≤ NODE_LIMIT }
    requires in_order { All (λ report. AreInOrder 1 (applied_in report)) reports.now }
    ensures added { OnOk result (out.new.items ≡ out.old.items ++ nodes_notices commands.now lines.now told.now (map view_of reports.now)) }
    ensures only_memory { IsOkUnless result Fault.NoMemory }
{
    add_ignored(out, commands, lines, told)?;
    add_disagreements(out, reports)?;
    add_lost(out, commands, reports)?;
    Ok(())
}
