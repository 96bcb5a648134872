//! Which nodes have turns of their own, and can't speak.
ghost use Rattle.std.specs.Prelude.{◌≡◌};
ghost use Rattle.std.specs.List.{list_any};
ghost use Rattle.scp_script_hints.specs.Hints.{turns_at, wakes, is_mute};

use scp_script::Command;

/// Whether the command is a `round`, `timer` or `tick` line's of the node.
fn is_turn(command: &Command, node: u8) -> bool
    ensures { result ≡ turns_at node command.now }
{
    match command {
        Command::Round { node: at, .. } => *at == node,
        Command::Timer { node: at, .. } => *at == node,
        Command::Tick(at) => *at == node,
        _ => false,
    }
}

/// Whether the node has turns of its own.
fn has_turns(commands: &[Command], node: u8) -> bool
    ensures { result ≡ list_any (turns_at node) commands.now }
{
    for command in commands {
        if is_turn(command, node) {
            return true;
        }
    }
    false
}

/// Whether the node may say something by the command.
fn starts(command: &Command, node: u8) -> bool
    ensures { result ≡ wakes node command.now }
{
    match command {
        Command::Open { to, .. } => *to == node,
        Command::Propose { node: at, .. } => *at == node,
        Command::Ask { from, .. } => *from == node,
        _ => false,
    }
}

/// Whether the node may say something.
fn is_woken(commands: &[Command], node: u8) -> bool
    ensures { result ≡ list_any (wakes node) commands.now }
{
    for command in commands {
        if starts(command, node) {
            return true;
        }
    }
    false
}

/// Whether the node has turns of its own, and nothing lets it speak.
pub fn is_quiet(commands: &[Command], node: u8) -> bool
    ensures { result ≡ is_mute commands.now node }
{
    has_turns(commands, node) && !is_woken(commands, node)
}
