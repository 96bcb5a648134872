//! Scripts that people give: in hex digits, as text, and with shorthands.
ghost use Rattle.std.specs.Prelude.{◌≡◌, ◌≢◌, ℕ, List, [], All, map, IfOk, IfErr};
ghost use Rattle.scp_script_hints.specs.scp_script.specs.Script.{AreAdmitted};
ghost use Rattle.scp_script_hints.specs.scp_script.specs.Nodes.{NamesNodes};
ghost use Rattle.scp_notices.specs.scp_script_check.specs.Lines.{IsSaid};
ghost use Rattle.scp_command.specs.Given.{IsGiven, placed, bad_of, stop_of};
ghost use Rattle.scp_command.specs.Causes.{IsNoScript};
ghost use Rattle.scp_command.specs.inside.Given.{read_failure, unread_script, IsStartFault};

use scp_convert::below::prompt::{Failure, Stop};
use scp_notices::PlayFault;
use scp_notices::below::script_check::{Script, read};
use scp_script_short::below::device::{BadLine, ReadFault};
use scp_script_short::below::types::{Fault, SCRIPT_LIMIT};
use scp_script_short::{Expanded, expand};
use std::alloc::{AllocError, Global};

/// A script whose shorthands were expanded into their lines.
#[derive(Drop)]
pub struct Given {
    /// Its lines, each with the line of the input from which it comes.
    pub expanded: Expanded,
    /// Its bytes.
    pub text: Vec<u8>,
}

/// The script that an input is. Refused if its shorthands weigh too much, or if it is out of memory.
pub fn given_by(alloc: Global, text: &[u8]) -> Result<Given, Failure>
    ensures given { IfOk result (IsGiven text.now) }
    ensures cause { IfErr result (IsStartFault text.now) }
{
    let expanded = match expand(alloc, text) {
        Ok(expanded) => expanded,
        Err(Fault::TooLong) => return Err(Failure::TooLong(SCRIPT_LIMIT)),
        Err(_) => return Err(Failure::NoMemory),
    };
    match expanded.lines.script(alloc) {
        Ok(text) => Ok(Given { expanded, text }),
        Err(_) => Err(Failure::NoMemory),
    }
}

/// The failure of a text that can't be read.
pub fn failure_of(fault: ReadFault) -> Failure
    ensures { result ≡ read_failure fault }
{
    match fault {
        ReadFault::NoMemory => Failure::NoMemory,
        ReadFault::Bad(bad) => Failure::Word(bad),
        ReadFault::BadAt(line) => Failure::Line(line),
    }
}

/// The line of the input from which a line of the expanded script comes.
pub fn place_of(expanded: &Expanded, line: usize) -> usize
    ensures { result ≡ placed expanded.now.lines line }
{
    match expanded.lines.place_of(line) {
        Some(place) => place,
        None => line,
    }
}

/// The failure of the first bad line.
fn of_bad(expanded: &Expanded, bad: BadLine) -> Failure
    ensures { result ≡ bad_of expanded.now bad }
{
    let line = place_of(expanded, bad.line);
    match expanded.refused {
        Some(refused) if refused.line <= line => Failure::Word(refused),
        _ => Failure::Word(BadLine { line, bad: bad.bad }),
    }
}

/// The failure of a script that can't be read.
pub fn of_unread(expanded: &Expanded, fault: ReadFault) -> Failure
    ensures { result ≡ unread_script expanded.now fault }
{
    match fault {
        ReadFault::NoMemory => Failure::NoMemory,
        ReadFault::Bad(bad) => of_bad(expanded, bad),
        ReadFault::BadAt(line) => Failure::Line(place_of(expanded, line)),
    }
}

/// The failure of a play that was stopped, at this line if it is known.
pub fn of_play(line: Option<usize>, fault: PlayFault) -> Failure
    ensures stop { fault.fault ≢ Fault.NoMemory → result ≡ stop_of line fault }
    ensures memory { fault.fault ≡ Fault.NoMemory → result ≡ Failure.NoMemory }
{
    match fault.fault {
        Fault::NoMemory => Failure::NoMemory,
        other => Failure::Stopped(Stop {
            line,
            node: fault.node,
            fault: other,
        }),
    }
}

/// The lines of the input from which these lines of the expanded script come.
fn placed_lines(
    alloc: Global,
    expanded: &Expanded,
    lines: &[usize],
) -> Result<Vec<usize>, AllocError>
    ensures { IfOk result (λ out. out.items ≡ map (placed expanded.now.lines) lines.now) }
{
    let mut out = Vec::new(alloc);
    for line in lines {
        out.push(place_of(expanded, *line))?;
    }
    Ok(out)
}

/// The same commands, each with the line of the input from which it comes.
fn placed_script(alloc: Global, expanded: &Expanded, script: Script) -> Result<Script, AllocError>
    ensures commands { IfOk result (λ out. out.commands.items ≡ script.commands.items) }
    ensures lines { IfOk result (λ out. out.lines.items ≡ map (placed expanded.now.lines) script.lines.items) }
{
    let Script { commands, lines } = script;
    let lines = placed_lines(alloc, expanded, lines.as_slice())?;
    Ok(Script { commands, lines })
}

/// The commands of a script, each with the line of the input from which it comes.
pub fn commands_of(alloc: Global, given: &Given) -> Result<Script, Failure>
    ensures said { IfOk result (λ script. (lines : List ℕ) × IsSaid given.now.text.items script.commands.items lines × (script.lines.items ≡ map (placed given.now.expanded.lines) lines)) }
    ensures names { IfOk result (λ script. All NamesNodes script.commands.items) }
    ensures admitted { IfOk result (λ script. AreAdmitted [] script.commands.items) }
    ensures cause { (input : List ℕ) → IsGiven input given.now → IfErr result (IsNoScript input) }
{
    match read(alloc, given.text.as_slice()) {
        Ok(script) => match placed_script(alloc, &given.expanded, script) {
            Ok(script) => Ok(script),
            Err(_) => Err(Failure::NoMemory),
        },
        Err(fault) => Err(of_unread(&given.expanded, fault)),
    }
}
