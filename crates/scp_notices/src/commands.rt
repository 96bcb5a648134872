//! What became of the commands of a script, line by line.
ghost use Rattle.std.specs.Prelude.{◌≡◌, ◌<◌, ◌++◌, ◌∷◌, [], List, All, IfOk, OnOk, get_or, length};
ghost use Rattle.scp_line.specs.scp_script.specs.Nodes.{NamesNodes};
ghost use Rattle.scp_line.specs.scp_script.specs.declared.command.Command.{Command};
ghost use Rattle.scp_notices.specs.Ignoring.{teller, does_nothing, fates_at, fate_behind, ignored_by, ignored};
ghost use Rattle.scp_notices.specs.inside.Queues.{AreQueues, TakesFrom, TakesAt};

use crate::notice::Notice;
use scp_line::below::node::CommandFate;
use scp_line::below::script::Command;
use scp_line::below::types::NODE_LIMIT;
use std::alloc::{AllocError, Global};

/// What became of a command that the slot stage of the node of this number took.
#[derive(Clone, Copy, PartialEq, Eq)]
pub struct Told {
    pub node: u8,
    pub fate: CommandFate,
}

/// What was reported at one node, in its order, and how much of it belongs to the lines so far.
#[derive(Drop)]
struct Queue {
    fates: Vec<CommandFate>,
    taken: usize,
}

/// The node whose slot stage reports what becomes of the command; `None` if no slot stage does.
fn teller_of(command: &Command) -> Option<u8>
    ensures { result ≡ teller command.now }
{
    match command {
        Command::Propose { node, .. } => Some(*node),
        Command::Round { node, .. } => Some(*node),
        Command::Timer { node, .. } => Some(*node),
        Command::Ask { from, .. } => Some(*from),
        _ => None,
    }
}

/// Whether the command did nothing.
fn is_idle(fate: CommandFate) -> bool
    ensures { result ≡ does_nothing fate }
{
    match fate {
        CommandFate::Proposed
        | CommandFate::RoundAdded
        | CommandFate::BallotMoved
        | CommandFate::Asked => false,
        _ => true,
    }
}

/// What was reported at the node of this number.
fn fates_of(alloc: Global, told: &[Told], number: u8) -> Result<Vec<CommandFate>, AllocError>
    ensures { IfOk result (λ fates. fates.items ≡ fates_at number told.now) }
{
    let mut fates = Vec::new(alloc);
    for one in told {
        if one.node == number {
            fates.push(one.fate)?;
        }
    }
    Ok(fates)
}

/// What was reported at each node; nothing of it belongs to a line yet.
fn queues(alloc: Global, told: &[Told]) -> Result<Vec<Queue>, AllocError>
    ensures { IfOk result (λ queues. AreQueues told.now [] queues.items) }
{
    let mut queues = Vec::new(alloc);
    for index in 0..NODE_LIMIT {
        let fates = fates_of(alloc, told, index as u8 + 1)?;
        queues.push(Queue { fates, taken: 0 })?;
    }
    Ok(queues)
}

/// The next report of a node, if there is one.
fn next(queue: &mut Queue) -> Option<CommandFate>
    ensures { TakesFrom queue.old result queue.new }
{
    let fate = *queue.fates.get(queue.taken)?;
    queue.taken += 1;
    Some(fate)
}

/// The next report of the node at this place, if there is one.
fn next_at(queues: &mut Vec<Queue>, place: usize) -> Option<CommandFate>
    requires place { place < length queues.old.items }
    ensures { TakesAt queues.old.items place result queues.new.items }
{
    next(&mut queues[place])
}

/// What became of a line's command, after those before it, if its node took it.
#[tactic(auto, using(crate::proofs::Queues::none_taken, crate::proofs::Queues::one_taken))]
fn fate_of(queues: &mut Vec<Queue>, command: &Command) -> Option<CommandFate>
    requires names { NamesNodes command.now }
    requires count { length queues.old.items ≡ NODE_LIMIT }
    ensures { (told : List Told) (before : List Command) → AreQueues told before queues.old.items → (result ≡ fate_behind told before command.now) × AreQueues told (before ++ command.now ∷ []) queues.new.items }
{
    match teller_of(command) {
        Some(number) => next_at(queues, usize::from(number - 1)),
        None => None,
    }
}

/// Adds a notice, if a line's command did nothing.
fn add_line(out: &mut Vec<Notice>, line: usize, fate: Option<CommandFate>) -> Result<(), AllocError>
    ensures { OnOk result (out.new.items ≡ out.old.items ++ ignored_by line fate) }
{
    if let Some(why) = fate
        && is_idle(why)
    {
        out.push(Notice::Ignored { line, why })?;
    }
    Ok(())
}

/// The number of the line at this place.
fn line_at(lines: &[usize], index: usize) -> usize
    requires { index < length lines.now }
    ensures { result ≡ get_or lines.now index result }
{
    lines[index]
}

/// Adds a notice for each line whose command did nothing, from what the slot stages reported. The time grows with the number of commands plus
/// the number of reports.
pub fn add_ignored(
    out: &mut Vec<Notice>,
    commands: &[Command],
    lines: &[usize],
    told: &[Told],
) -> Result<(), AllocError>
    requires names { All NamesNodes commands.now }
    requires count { length lines.now ≡ length commands.now }
    ensures { OnOk result (out.new.items ≡ out.old.items ++ ignored told.now lines.now commands.now) }
{
    let mut queues = queues(*out.allocator(), told)?;
    let mut index = 0;
    for command in commands {
        let fate = fate_of(&mut queues, command);
        add_line(out, line_at(lines, index), fate)?;
        index += 1;
    }
    Ok(())
}
