//! Reading a script.
ghost use Rattle.std.specs.Prelude.{◌≡◌, ◌⊎◌, [], All, IfOk, IfErr, OnOk, IsErrOf};
ghost use Rattle.scp_script.specs.Script.{commands_in, IsScript, IsScriptFault, HasNoBadLine, HasSetLine};
ghost use Rattle.scp_script.specs.Nodes.{NamesNodes};

use crate::command::Command;
use crate::judging::first_bad_line;
use crate::reading::Reading;
use crate::words::lines;
use scp_wire::below::types::Fault;
use std::alloc::Global;

/// Reads a script, line by line.
fn read(alloc: Global, text: &[u8]) -> Result<Vec<Command>, Fault>
    ensures script { OnOk result (IsScript text.now) }
    ensures commands { IfOk result (λ commands. commands.items ≡ commands_in text.now) }
    ensures nodes { IfOk result (λ commands. All NamesNodes commands.items) }
    ensures cause { IfErr result (IsScriptFault text.now) }
{
    let mut reading = Reading::new(alloc);
    let lines = lines(alloc, text)?;
    for (index, line) in lines.iter().enumerate() {
        if !reading.read_line(alloc, *line)? {
            return Err(Fault::BadScript(index + 1));
        }
    }
    Ok(reading.into_commands())
}

/// Reads a script, and returns its commands in their order. `BadScript` names the first bad line, from 1 on. It takes time in proportion
/// to the text. A bad line before the first `set` line is reported without taking memory.
pub fn parse(alloc: Global, text: &[u8]) -> Result<Vec<Command>, Fault>
    // The text is a script.
    ensures script { OnOk result (IsScript text.now) }
    // So it has no bad line.
    ensures no_bad_line { OnOk result (HasNoBadLine text.now) }
    // The commands are those that the text says.
    ensures commands { IfOk result (λ commands. commands.items ≡ commands_in text.now) }
    // Each command names nodes from 1 to 8.
    ensures nodes { IfOk result (λ commands. All NamesNodes commands.items) }
    // Otherwise memory ran out, or the line with this number is the first bad one.
    ensures cause { IfErr result (IsScriptFault text.now) }
    // Out of memory is reported only for a text without a bad line, or with a `set` line, since to judge its quorum set takes memory.
    ensures memory_last { IsErrOf result Fault.NoMemory → HasNoBadLine text.now ⊎ HasSetLine text.now }
{
    match first_bad_line(alloc, text) {
        Some(line) => Err(Fault::BadScript(line)),
        None => read(alloc, text),
    }
}
