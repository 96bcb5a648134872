//! Own statements that were replaced or dropped before they were sent.
ghost use Rattle.std.specs.Prelude.{◌≡◌, ◌≤◌, ◌++◌, ◌||◌, OnOk, length, map};
ghost use Rattle.std.specs.List.{list_any};
ghost use Rattle.scp_line.specs.scp_types.specs.declared.limits.TheConstants.{NODE_LIMIT};
ghost use Rattle.scp_script_check.specs.Nodes.{sends_on as sends_it};
ghost use Rattle.scp_notices.specs.Lost.{is_silent, lost_to, lost_on, lost_of, all_lost};
ghost use Rattle.scp_notices.specs.inside.Seen.{lost_in};

use crate::notice::Notice;
use scp_line::Report;
use scp_line::below::script::Command;
use scp_line::below::turn::link_of;
use scp_script_check::is_scripted;
use std::alloc::AllocError;

/// The number of own statements that a node lost for the peer of a link.
fn lost_over(report: &Report<'_>, link: u8) -> u64
    ensures { result ≡ lost_in report.now link }
{
    match report.links.get(usize::from(link)) {
        Some(lost) => lost.overwritten,
        None => 0,
    }
}

/// Whether a `send` line names the link from a node to another.
fn is_driven(commands: &[Command], from: u8, to: u8) -> bool
    ensures { result ≡ list_any (sends_it from to) commands.now }
{
    for command in commands {
        if let Command::Send {
            from: sender,
            to: receiver,
            ..
        } = command
            && *sender == from
            && *receiver == to
        {
            return true;
        }
    }
    false
}

/// Whether nothing that a node says to another is meant to go out.
fn is_mute(commands: &[Command], from: u8, to: u8) -> bool
    ensures { result ≡ is_silent commands.now from to }
{
    is_driven(commands, from, to) || is_scripted(commands, to)
}

/// The number of own statements of one node for another that were lost, by the numbers of both.
fn lost(reports: &[Report<'_>], from: u8, to: u8) -> u64
    requires from { 1 ≤ from }
    ensures { result ≡ lost_to (map lost_in reports.now) from to }
{
    match reports.get(usize::from(from - 1)) {
        Some(report) => lost_over(report, link_of(to, from)),
        None => 0,
    }
}

/// Adds a notice, if own statements of one node for another were lost, though they were meant to go out.
fn add_link(
    out: &mut Vec<Notice>,
    commands: &[Command],
    reports: &[Report<'_>],
    node: u8,
    peer: u8,
) -> Result<(), AllocError>
    requires node { 1 ≤ node }
    ensures { OnOk result (out.new.items ≡ out.old.items ++ lost_on commands.now (map lost_in reports.now) node peer) }
{
    if node == peer || is_mute(commands, node, peer) {
        return Ok(());
    }
    let count = lost(reports, node, peer);
    if count > 0 {
        out.push(Notice::Overwritten { node, peer, count })?;
    }
    Ok(())
}

/// Adds a notice for each other node for which this one lost own statements.
fn add_node(
    out: &mut Vec<Notice>,
    commands: &[Command],
    reports: &[Report<'_>],
    node: u8,
) -> Result<(), AllocError>
    requires node { 1 ≤ node }
    requires few { length reports.now ≤ NODE_LIMIT }
    ensures { OnOk result (out.new.items ≡ out.old.items ++ lost_of commands.now (map lost_in reports.now) node) }
{
    for index in 0..reports.len() {
        add_link(out, commands, reports, node, index as u8 + 1)?;
    }
    Ok(())
}

/// Adds a notice for each pair of nodes, the first of which lost own statements for the second that were meant to go out, in the order of
/// their numbers.
pub fn add_lost(
    out: &mut Vec<Notice>,
    commands: &[Command],
    reports: &[Report<'_>],
) -> Result<(), AllocError>
    requires few { length reports.now ≤ NODE_LIMIT }
    ensures { OnOk result (out.new.items ≡ out.old.items ++ all_lost commands.now (map lost_in reports.now)) }
{
    for index in 0..reports.len() {
        add_node(out, commands, reports, index as u8 + 1)?;
    }
    Ok(())
}
