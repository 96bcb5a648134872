//! The lines of a script that say what happens.
ghost use Rattle.std.specs.Prelude.{◌≡◌, ◌++◌, [], true, IfOk, OnOk, codes, string_bytes};
ghost use Rattle.hex.specs.Hex.{IsBytes};
ghost use Rattle.scp_script_check.specs.scp_script_text.specs.Lines.{digits_of};
ghost use Rattle.scp_line.specs.scp_script.specs.Nodes.{NamesNodes};
ghost use Rattle.scp_line.specs.scp_script.specs.Script.{begins};
ghost use Rattle.scp_sim.specs.inside.Lines.{line_of, IsInRange, IsDoneText};

use scp_line::below::script::Command;
use std::alloc::{AllocError, Global};
use std::marker::Model;

/// Bytes in hexadecimal digits, or `-` for no bytes.
fn write_digits(alloc: Global, text: &mut String, bytes: &[u8]) -> Result<(), AllocError>
    ensures { OnOk result (string_bytes text.new ≡ string_bytes text.old ++ digits_of bytes.now) }
{
    if bytes.is_empty() {
        return text.push_str("-");
    }
    let digits = hex::encode(alloc, bytes)?;
    text.push_str(digits.as_str())
}

/// Adds the line of a command, without its line end. Adds nothing for `caps`, `nodes` and `set`.
fn write_line(alloc: Global, text: &mut String, command: &Command) -> Result<(), AllocError>
    ensures { OnOk result (string_bytes text.new ≡ string_bytes text.old ++ line_of command.now) }
{
    match command {
        Command::Open { from, to } => write!(text, "open {from} {to}"),
        Command::Close { from, to } => write!(text, "close {from} {to}"),
        Command::Send { from, to, bytes } => {
            write!(text, "send {from} {to} ")?;
            write_digits(alloc, text, bytes.as_slice())
        }
        Command::Propose { node, slot, value } => {
            write!(text, "propose {node} {slot} ")?;
            write_digits(alloc, text, value.as_slice())
        }
        Command::Round { node, slot } => write!(text, "round {node} {slot}"),
        Command::Timer { node, slot } => write!(text, "timer {node} {slot}"),
        Command::Tick(node) => write!(text, "tick {node}"),
        Command::Ask { from, to, slot } => write!(text, "ask {from} {to} {slot}"),
        Command::Settle => text.push_str("settle"),
        Command::Report(node) => write!(text, "report {node}"),
        Command::Wait { node, things } => write!(text, "wait {node} {things}"),
        Command::Caps(_) | Command::Nodes { .. } | Command::Set { .. } => Ok(()),
    }
}

/// The line of a command, with its line end.
fn line(alloc: Global, command: &Command) -> Result<String, AllocError>
    ensures { IfOk result (λ line. string_bytes line ≡ line_of command.now ++ codes "\n") }
{
    let mut text = String::new(alloc);
    write_line(alloc, &mut text, command)?;
    text.push_str("\n")?;
    Ok(text)
}

/// What is in memory as bytes is bytes.
fn are_bytes(bytes: &[u8])
    ensures { IsBytes bytes.now }
{}

/// The numbers and bytes of a command are in range.
fn see(command: &Command)
    ensures { IsInRange command.now }
{
    match command {
        Command::Send { bytes, .. } => are_bytes(bytes.as_slice()),
        Command::Propose { slot, value, .. } => {
            let _slot = *slot;
            are_bytes(value.as_slice());
        }
        Command::Round { slot, .. } | Command::Timer { slot, .. } | Command::Ask { slot, .. } => {
            let _slot = *slot;
        }
        Command::Wait { things, .. } => {
            let _things = *things;
        }
        Command::Caps(_)
        | Command::Nodes { .. }
        | Command::Set { .. }
        | Command::Open { .. }
        | Command::Close { .. }
        | Command::Tick(_)
        | Command::Settle
        | Command::Report(_) => {}
    }
}

/// What happened, as the lines of a script.
#[derive(Drop)]
pub struct Happened {
    text: String,
}

impl Model for Happened {
    ghost use Rattle.std.specs.Prelude.{List, ℕ, string_bytes};
    ghost use Rattle.scp_sim.specs.inside.Lines.{IsDoneText};

    ghost Value = { List ℕ };

    ghost view = { λ h. string_bytes h.text };

    ghost invariant = { λ h. IsDoneText (string_bytes h.text) };
}

impl Happened {
    /// Nothing happened yet.
    #[tactic(auto, using(crate::proofs::Happened::none_done))]
    pub fn new(alloc: Global) -> Happened
        ensures { result ≡ [] }
    {
        Happened {
            text: String::new(alloc),
        }
    }

    /// Adds the line of a command.
    pub fn add(&mut self, alloc: Global, command: &Command) -> Result<(), AllocError>
        requires names { NamesNodes command.now }
        requires begun { begins command.now ≡ true }
        ensures { OnOk result (self.new ≡ self.old ++ (line_of command.now ++ codes "\n")) }
    {
        see(command);
        let line = line(alloc, command)?;
        self.text.push_str(line.as_str())
    }

    /// The lines.
    pub fn text(&self) -> &str
        ensures text { result.now ≡ self.now }
        ensures done { IsDoneText result.now }
    {
        self.text.as_str()
    }
}
