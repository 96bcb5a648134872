//! Which links the script drives, how the lines leave the links, and the marks that lines leave in outboxes.
ghost use Rattle.std.specs.Prelude.{◌≡◌, ◌≤◌, ◌<◌, length, map, IfOk, IsOkUnless};
ghost use Rattle.scp_threaded_node.specs.scp_types.specs.declared.limits.TheConstants.{NODE_LIMIT};
ghost use Rattle.scp_threaded_node.specs.scp_shared_outbox.specs.Places.{AreTwoOf};
ghost use Rattle.scp_threaded_node.specs.scp_shared_outbox.specs.Table.{AreRows, desk_of};
ghost use Rattle.scp_script.specs.Script.{opens, closes, lives, is_open};
ghost use Rattle.scp_threaded_script.specs.Lines.{sends, is_driven};
ghost use Rattle.scp_threaded_script.specs.inside.Outlets.{AreSameMarkers};
ghost use Rattle.scp_threaded_script.specs.Reported.{stood_on};

use crate::gate::MOST_YIELDS;
use scp_script::Command;
use scp_threaded_node::Stood;
use scp_threaded_node::below::outbox::Mark;
use scp_threaded_node::below::shared_outbox::{Marker, Outlets, Putter, link_of};
use scp_threaded_node::below::types::Fault;
use std::alloc::Global;
use std::sync::Wait;
use std::thread;

/// Whether the line sends on the link.
fn sends(command: &Command, from: u8, to: u8) -> bool
    ensures { result ≡ sends from to command.now }
{
    match command {
        Command::Send { from: a, to: b, .. } => *a == from && *b == to,
        _ => false,
    }
}

/// Whether the script drives the link, so that it alone sends on it: a `send` line names the link.
pub fn is_driven(commands: &[Command], from: u8, to: u8) -> bool
    ensures { result ≡ is_driven commands.now from to }
{
    commands.iter().any(|command| sends(command, from, to))
}

/// Whether the line opens the link.
fn opens(command: &Command, from: u8, to: u8) -> bool
    ensures { result ≡ opens from to command.now }
{
    match command {
        Command::Open { from: a, to: b } => *a == from && *b == to,
        _ => false,
    }
}

/// Whether the line closes the link.
fn closes(command: &Command, from: u8, to: u8) -> bool
    ensures { result ≡ closes from to command.now }
{
    match command {
        Command::Close { from: a, to: b } => *a == from && *b == to,
        _ => false,
    }
}

/// The number of times that the lines open the link.
fn lives_of(commands: &[Command], from: u8, to: u8) -> usize
    ensures { result ≡ lives from to commands.now }
{
    commands
        .iter()
        .filter(
            |command| -> bool
                ensures { result ≡ opens from to command.now.now }
            { opens(command, from, to) },
        )
        .count()
}

/// Whether the lines leave the link open.
fn is_left_open(commands: &[Command], from: u8, to: u8) -> bool
    ensures { result ≡ is_open from to commands.now }
{
    let mut open = false;
    for command in commands {
        if opens(command, from, to) {
            open = true;
        } else if closes(command, from, to) {
            open = false;
        }
    }
    open
}

/// How the lines leave the link: how often it was opened, and whether it is open.
pub fn stood_of(commands: &[Command], from: u8, to: u8) -> Stood
    ensures { result ≡ stood_on commands.now from to }
{
    Stood {
        lives: lives_of(commands, from, to),
        is_open: is_left_open(commands, from, to),
    }
}

/// Leaves a mark, if there is room. Returns whether there was.
fn is_left<R: Wait>(rt: &R, marker: &mut Marker, mark: Mark) -> bool
    ensures { marker.new.desk ≡ marker.old.desk }
{
    match marker.mark(rt, mark) {
        Ok(()) => true,
        Err(_) => false,
    }
}

/// Leaves a mark. If there is no room, it yields and tries again, at most 1,000,000 times. The only refusal is `Full`.
fn leave<R: Wait>(rt: &R, marker: &mut Marker, mark: Mark) -> Result<(), Fault>
    ensures same { marker.new.desk ≡ marker.old.desk }
    ensures only { IsOkUnless result Fault.Full }
{
    for _ in 0..MOST_YIELDS {
        if is_left(rt, marker, mark) {
            return Ok(());
        }
        thread::yield_now();
    }
    Err(Fault::Full)
}

/// Leaves a mark in the outbox at this place, as `leave` does.
fn leave_in<R: Wait>(rt: &R, row: &mut Vec<Marker>, place: usize, mark: Mark) -> Result<(), Fault>
    requires place { place < length row.old.items }
    ensures same { map desk_of row.new.items ≡ map desk_of row.old.items }
    ensures only { IsOkUnless result Fault.Full }
{
    leave(rt, &mut row[place], mark)
}

/// Leaves a mark in the outbox whose messages go from one node to another, as `leave` does.
pub fn leave_at<R: Wait>(
    rt: &R,
    markers: &mut Vec<Vec<Marker>>,
    from: u8,
    to: u8,
    mark: Mark,
) -> Result<(), Fault>
    requires rows { AreRows (length markers.old.items) markers.old.items }
    requires two { AreTwoOf (length markers.old.items) from to }
    requires few { length markers.old.items ≤ NODE_LIMIT }
    ensures same { AreSameMarkers markers.old.items markers.new.items }
    ensures only { IsOkUnless result Fault.Full }
{
    let place = usize::from(link_of(from, to));
    leave_in(rt, &mut markers[usize::from(to - 1)], place, mark)
}

/// Leaves the last mark, as soon as there is room.
fn stop<R: Wait>(rt: &R, marker: &mut Marker)
    ensures { marker.new.desk ≡ marker.old.desk }
{
    for _ in rt.forever() {
        if is_left(rt, marker, Mark::Stop) {
            return;
        }
        thread::yield_now();
    }
}

/// Stops what comes to a node from each other one.
fn stop_to<R: Wait>(rt: &R, row: &mut Vec<Marker>)
    ensures { map desk_of row.new.items ≡ map desk_of row.old.items }
{
    for marker in row.iter_mut() {
        stop(rt, marker);
    }
}

/// Stops what goes from each node to each other one, whether a courier carries it or not.
pub fn stop_all<R: Wait>(rt: &R, markers: &mut Vec<Vec<Marker>>)
    ensures { AreSameMarkers markers.old.items markers.new.items }
{
    for row in markers.iter_mut() {
        stop_to(rt, row);
    }
}

/// The number of own statements that were lost on each link of a node, as its outboxes count them.
fn losses_of<R: Wait>(rt: &R, alloc: Global, putters: &[Putter]) -> Result<Vec<u64>, Fault>
    ensures count { IfOk result (λ losses. length losses.items ≡ length putters.now) }
    ensures only_memory { IsOkUnless result Fault.NoMemory }
{
    let mut losses = Vec::new(alloc);
    for putter in putters {
        losses.push(putter.overwritten(rt))?;
    }
    Ok(losses)
}

/// The same for each node. The only refusal is `NoMemory`.
pub fn all_losses<R: Wait>(rt: &R, alloc: Global, all: &[Outlets]) -> Result<Vec<Vec<u64>>, Fault>
    ensures count { IfOk result (λ losses. length losses.items ≡ length all.now) }
    ensures only_memory { IsOkUnless result Fault.NoMemory }
{
    let mut losses = Vec::new(alloc);
    for outlets in all {
        losses.reserve(1)?;
        losses.push_reserved(losses_of(rt, alloc, outlets.slot.as_slice())?);
    }
    Ok(losses)
}
