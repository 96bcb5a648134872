//! The help of all commands, as one page of the manual.

use crate::commands::{Known, known_commands, parsed};
use std::alloc::{AllocError, Global};

/// The help that these words ask for.
fn help_by(alloc: Global, version: &str, words: &[&str]) -> Result<String, AllocError> {
    match parsed(alloc, version, words) {
        Ok(_) => Ok(String::new(alloc)),
        Err(error) => match error.to_string(alloc) {
            Ok(text) => Ok(text),
            Err(_) => Err(AllocError),
        },
    }
}

/// A text as it stands in a page of the manual (groff_man(7)): no line of it is a request.
fn escaped(alloc: Global, text: &str) -> Result<String, AllocError> {
    let text = text.replace(alloc, "\\", "\\e")?;
    let text = text.as_str().replace(alloc, "-", "\\-")?;
    let text = text.as_str().replace(alloc, "\n.", "\n\\&.")?;
    text.as_str().replace(alloc, "\n'", "\n\\&'")
}

/// Adds a help, line by line as it is.
fn add_help(out: &mut String, version: &str, words: &[&str]) -> Result<(), AllocError> {
    let alloc = *out.allocator();
    let help = help_by(alloc, version, words)?;
    let text = escaped(alloc, help.as_str())?;
    out.push_str(".nf\n")?;
    out.push_str(text.as_str())?;
    out.push_str(".fi\n")
}

/// Adds the part of a command.
fn add_command(out: &mut String, version: &str, command: &Known) -> Result<(), AllocError> {
    let name = command.entry.name;
    out.push_str(".SS bowls ")?;
    if command.parent.is_empty() {
        out.push_str(name)?;
        out.push_str("\n")?;
        return add_help(out, version, &["bowls", name, "--help"]);
    }
    out.push_str(command.parent)?;
    out.push_str(" ")?;
    out.push_str(name)?;
    out.push_str("\n")?;
    add_help(out, version, &["bowls", command.parent, name, "--help"])
}

fn add_commands(out: &mut String, version: &str, commands: &[Known]) -> Result<(), AllocError> {
    for command in commands {
        add_command(out, version, command)?;
    }
    Ok(())
}

/// The page of the manual: the help of the program, and then that of each command.
pub fn manual(alloc: Global, version: &str) -> Result<String, AllocError> {
    let commands = known_commands(alloc)?;
    let mut out = String::new(alloc);
    out.push_str(
        ".TH BOWLS 1\n.SH NAME\nbowls \\- plays and checks scripts of nodes, and runs a node\n.SH SYNOPSIS\n.B bowls\n.I COMMAND\n.SH DESCRIPTION\n",
    )?;
    add_help(&mut out, version, &["bowls", "--help"])?;
    out.push_str(".SH COMMANDS\n")?;
    add_commands(&mut out, version, commands.as_slice())?;
    out.push_str(".SS bowls node\n")?;
    add_help(&mut out, version, &["bowls", "node", "--help"])?;
    Ok(out)
}
