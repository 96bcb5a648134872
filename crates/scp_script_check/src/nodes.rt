//! What the commands of a script say of its nodes and links.
ghost use Rattle.std.specs.Prelude.{◌≡◌};
ghost use Rattle.std.specs.List.{list_any};
ghost use Rattle.scp_script.specs.Script.{opens};
ghost use Rattle.scp_script_check.specs.Nodes.{opens_to, starts_it, speaks_in, is_own, sends_for, is_scripted_in, reports};

use scp_script::Command;

/// Whether the command opens a link to the node.
fn opens_link_to(command: &Command, node: u8) -> bool
    ensures { result ≡ opens_to node command.now }
{
    match command {
        Command::Open { to, .. } => *to == node,
        _ => false,
    }
}

/// Whether one of the commands opens a link to the node.
fn hears(commands: &[Command], node: u8) -> bool
    ensures { result ≡ list_any (opens_to node) commands.now }
{
    for command in commands {
        if opens_link_to(command, node) {
            return true;
        }
    }
    false
}

/// Whether the command makes its node speak.
fn starts(command: &Command, node: u8) -> bool
    ensures { result ≡ starts_it node command.now }
{
    match command {
        Command::Propose { node: at, .. } => *at == node,
        Command::Ask { from, .. } => *from == node,
        _ => false,
    }
}

/// Whether one of the commands makes the node speak.
fn is_started(commands: &[Command], node: u8) -> bool
    ensures { result ≡ list_any (starts_it node) commands.now }
{
    for command in commands {
        if starts(command, node) {
            return true;
        }
    }
    false
}

/// Whether the node speaks: a link to it is opened, or it proposes or asks.
pub fn speaks(commands: &[Command], node: u8) -> bool
    ensures { result ≡ speaks_in node commands.now }
{
    if hears(commands, node) {
        return true;
    }
    is_started(commands, node)
}

/// Whether it is a command of the node itself.
fn belongs(command: &Command, node: u8) -> bool
    ensures { result ≡ is_own node command.now }
{
    match command {
        Command::Propose { node: at, .. } => *at == node,
        Command::Round { node: at, .. } => *at == node,
        Command::Timer { node: at, .. } => *at == node,
        Command::Tick(at) => *at == node,
        Command::Ask { from, .. } => *from == node,
        _ => false,
    }
}

/// Whether one of the commands is the node's own.
fn is_commanded(commands: &[Command], node: u8) -> bool
    ensures { result ≡ list_any (is_own node) commands.now }
{
    for command in commands {
        if belongs(command, node) {
            return true;
        }
    }
    false
}

/// Whether the command sends for the node.
fn sends(command: &Command, node: u8) -> bool
    ensures { result ≡ sends_for node command.now }
{
    match command {
        Command::Send { from, .. } => *from == node,
        _ => false,
    }
}

/// Whether one of the commands sends for the node.
fn is_sent_for(commands: &[Command], node: u8) -> bool
    ensures { result ≡ list_any (sends_for node) commands.now }
{
    for command in commands {
        if sends(command, node) {
            return true;
        }
    }
    false
}

/// Whether the script alone speaks for the node: lines send in its name, no link to it is opened, and it has no command of its own.
pub fn is_scripted(commands: &[Command], node: u8) -> bool
    ensures { result ≡ is_scripted_in node commands.now }
{
    if !is_sent_for(commands, node) {
        return false;
    }
    if hears(commands, node) {
        return false;
    }
    !is_commanded(commands, node)
}

/// Whether the command opens the link.
fn opens_link(command: &Command, from: u8, to: u8) -> bool
    ensures { result ≡ opens from to command.now }
{
    match command {
        Command::Open {
            from: at,
            to: other,
        } => from == *at && to == *other,
        _ => false,
    }
}

/// Whether one of the commands opens the link.
pub fn is_opened(commands: &[Command], from: u8, to: u8) -> bool
    ensures { result ≡ list_any (opens from to) commands.now }
{
    for command in commands {
        if opens_link(command, from, to) {
            return true;
        }
    }
    false
}

/// Whether the command asks for a report.
fn asks_report(command: &Command) -> bool
    ensures { result ≡ reports command.now }
{
    match command {
        Command::Report(_) => true,
        _ => false,
    }
}

/// Whether a report is asked for.
pub fn is_reported(commands: &[Command]) -> bool
    ensures { result ≡ list_any reports commands.now }
{
    for command in commands {
        if asks_report(command) {
            return true;
        }
    }
    false
}
