//! A script, line by line, in hex digits or as text.
ghost use Rattle.std.specs.Prelude.{◌≡◌, ◌∷◌, ◌++◌, [], map, take, not, All, IfOk, IfErr, OnOk, if◌then◌else◌};
ghost use Rattle.std.specs.List.{list_any};
ghost use Rattle.scp_script.specs.scp_device.specs.declared.bad.WordFault.TheVariants.{Bad};
ghost use Rattle.scp_script_text.specs.declared.script.Form.TheVariants.{Hex};
ghost use Rattle.scp_script_text.specs.Scripts.{lines_of, carries as does_carry, IsLineOf, IsNoLineOf};
ghost use Rattle.scp_script.specs.Script.{AreAdmitted, IsBadLine};
ghost use Rattle.scp_script.specs.Nodes.{NamesNodes};
ghost use Rattle.scp_script.specs.Reading.{IsReading};
ghost use Rattle.scp_script.specs.scp_device.specs.declared.bad.ReadFault.TheVariants.{NoMemory};
ghost use Rattle.scp_script_check.specs.Lines.{IsSaid, IsBad, IsReason, IsNotRead};
ghost use Rattle.scp_script_check.specs.inside.Lines.{IsPlaced, IsTaken, IsFound, bad_line_of};

use scp_nominate::below::types::Fault;
use scp_script::below::device::{BadLine, BadWord, ReadFault, WordFault};
use scp_script::below::wire::Bytes;
use scp_script::{Command, Reading, odd_bytes, parse, skipped};
use scp_script_text::{Form, carries, line_in};
use std::alloc::{AllocError, Global};

/// The commands of a script, and the number of each one's line, from 1 on.
#[derive(Drop)]
pub struct Script {
    pub commands: Vec<Command>,
    pub lines: Vec<usize>,
}

/// The lines of a text.
fn lines<'a>(alloc: Global, text: &'a [u8]) -> Result<Vec<&'a [u8]>, AllocError>
    ensures { IfOk result (λ lines. map (λ line. line.now) lines.items ≡ lines_of text.entry.now) }
{
    text.split(|byte| *byte == b'\n').collect(alloc)
}

/// Why a line can't be in hex digits: its bytes, else a word of its text.
fn no_digits(
    alloc: Global,
    before: &Reading,
    line: &[u8],
    bad: BadWord,
) -> Result<Option<BadWord>, ReadFault>
    requires refused { IsNoLineOf Hex line.now (Bad bad) }
    ensures reason { IfOk result (IsReason before.now.commands.items line.now) }
    ensures only_memory { IfErr result (λ e. e ≡ NoMemory) }
{
    match odd_bytes(alloc, line)? {
        Some(odd) => Ok(Some(odd)),
        None => Ok(Some(bad)),
    }
}

/// Why a line with these hex digits may not follow what was read.
fn no_place(
    alloc: Global,
    before: &Reading,
    line: &[u8],
    digits: &[u8],
) -> Result<Option<BadWord>, ReadFault>
    requires reading { IsReading before.now }
    requires digits { IsLineOf Hex line.now digits.now }
    ensures reason { IfOk result (IsReason before.now.commands.items line.now) }
    ensures only_memory { IfErr result (λ e. e ≡ NoMemory) }
{
    if let Some(odd) = odd_bytes(alloc, line)? {
        return Ok(Some(odd));
    }
    Ok(before.why(alloc, digits)?)
}

/// Takes in the hex digits of a line. Returns whether it holds a command, or why it is bad.
fn take_digits(
    alloc: Global,
    reading: &mut Reading,
    line: &[u8],
    digits: &[u8],
) -> Result<Result<bool, Option<BadWord>>, ReadFault>
    requires reading { IsReading reading.old }
    requires digits { IsLineOf Hex line.now digits.now }
    ensures taken { IfOk result (λ r. IfOk r (λ holds. IsTaken reading.old line.now holds reading.new)) }
    ensures bad { IfOk result (λ r. IfErr r (λ reason. IsBad reading.old.commands.items line.now)) }
    ensures reason { IfOk result (λ r. IfErr r (λ reason. IsReason reading.old.commands.items line.now reason)) }
    ensures only_memory { IfErr result (λ e. e ≡ NoMemory) }
{
    if reading.read_line(alloc, digits)? {
        return Ok(Ok(!skipped(digits)));
    }
    Ok(Err(no_place(alloc, reading, line, digits)?))
}

/// Takes in a line. Returns whether it holds a command, or why it is bad.
fn take_line(
    alloc: Global,
    reading: &mut Reading,
    line: &[u8],
) -> Result<Result<bool, Option<BadWord>>, ReadFault>
    requires reading { IsReading reading.old }
    ensures taken { IfOk result (λ r. IfOk r (λ holds. IsTaken reading.old line.now holds reading.new)) }
    ensures bad { IfOk result (λ r. IfErr r (λ reason. IsBad reading.old.commands.items line.now)) }
    ensures reason { IfOk result (λ r. IfErr r (λ reason. IsReason reading.old.commands.items line.now reason)) }
    ensures only_memory { IfErr result (λ e. e ≡ NoMemory) }
{
    match line_in(alloc, Form::Hex, line) {
        Ok(digits) => take_digits(alloc, reading, line, digits.as_slice()),
        Err(WordFault::NoMemory) => Err(ReadFault::NoMemory),
        Err(WordFault::Bad(bad)) => Ok(Err(no_digits(alloc, reading, line, bad)?)),
    }
}

/// Takes in the line with this number, from 1 on. Returns whether it holds a command, or why it is bad.
fn take_placed(
    alloc: Global,
    reading: &mut Reading,
    line: &[u8],
    number: usize,
) -> Result<bool, ReadFault>
    requires reading { IsReading reading.old }
    ensures taken { IfOk result (λ holds. IsTaken reading.old line.now holds reading.new) }
    ensures refused { IfErr result (IsPlaced reading.old.commands.items line.now number) }
{
    match take_line(alloc, reading, line)? {
        Ok(holds) => Ok(holds),
        Err(Some(bad)) => Err(ReadFault::Bad(BadLine { line: number, bad })),
        Err(None) => Err(ReadFault::BadAt(number)),
    }
}

/// Adds a line's number, where the line holds a command.
fn note(numbers: &mut Vec<usize>, holds: bool, number: usize) -> Result<(), AllocError>
    ensures { OnOk result (numbers.new.items ≡ (if holds then numbers.old.items ++ number ∷ [] else numbers.old.items)) }
{
    if holds {
        numbers.push(number)?;
    }
    Ok(())
}

/// Reads the lines of a script, one after the other.
#[tactic(auto, using(crate::proofs::Taken::nothing_taken, crate::proofs::Taken::all_said, crate::proofs::Taken::all_named, crate::proofs::Taken::all_admitted))]
fn read_lines(alloc: Global, text: &[u8]) -> Result<Script, ReadFault>
    ensures said { IfOk result (λ script. IsSaid text.now script.commands.items script.lines.items) }
    ensures nodes { IfOk result (λ script. All NamesNodes script.commands.items) }
    ensures admitted { IfOk result (λ script. AreAdmitted [] script.commands.items) }
    ensures cause { IfErr result (IsFound text.now) }
{
    let mut reading = Reading::new(alloc);
    let mut numbers = Vec::new(alloc);
    let lines = lines(alloc, text)?;
    for (index, line) in lines.iter().enumerate() {
        let holds = match take_placed(alloc, &mut reading, *line, index + 1) {
            Ok(holds) => holds,
            Err(fault) => return Err(fault),
        };
        note(&mut numbers, holds, index + 1)?;
    }
    let commands = reading.into_commands();
    Ok(Script {
        commands,
        lines: numbers,
    })
}

/// The bad line that a reading reported.
fn bad_line<T: Drop>(read: Result<T, Fault>) -> Option<usize>
    ensures { result ≡ bad_line_of read }
{
    match read {
        Err(Fault::BadScript(line)) => Some(line),
        _ => None,
    }
}

/// Whether none of the first `count` lines carries a message, a value or a quorum set.
fn are_bare(text: &[u8], count: usize) -> bool
    ensures { result ≡ not (list_any does_carry (take count (lines_of text.now))) }
{
    let mut left = count;
    for line in text.split(|byte| *byte == b'\n') {
        if left == 0 {
            return true;
        }
        if carries(line) {
            return false;
        }
        left -= 1;
    }
    true
}

/// What is reported of a text whose first bad line, as a script in hex digits, is this one.
fn told_at(text: &[u8], line: usize) -> ReadFault
    requires { IsBadLine text.now line }
    ensures { IsNotRead text.now result }
{
    if are_bare(text, line) {
        return ReadFault::BadAt(line);
    }
    ReadFault::NoMemory
}

/// What is reported of a text when out of memory: its first bad line, if no line up to it carries something.
fn without_memory(alloc: Global, text: &[u8]) -> ReadFault
    ensures { IsNotRead text.now result }
{
    match bad_line(parse(alloc, text)) {
        Some(line) => told_at(text, line),
        None => ReadFault::NoMemory,
    }
}

/// Reads a script. Returns its commands in their order, or an error with its first bad line. It takes time in proportion to the text.
pub fn read(alloc: Global, text: &[u8]) -> Result<Script, ReadFault>
    // No line is bad, and these are the commands and their lines.
    ensures said { IfOk result (λ script. IsSaid text.now script.commands.items script.lines.items) }
    // Each command names nodes from 1 to 8, and may follow those before it.
    ensures nodes { IfOk result (λ script. All NamesNodes script.commands.items) }
    ensures admitted { IfOk result (λ script. AreAdmitted [] script.commands.items) }
    // Otherwise the first bad line is reported, or memory ran out. Then that line's number alone is reported if that takes no memory.
    ensures cause { IfErr result (IsNotRead text.now) }
{
    match read_lines(alloc, text) {
        Ok(script) => Ok(script),
        Err(ReadFault::NoMemory) => Err(without_memory(alloc, text)),
        Err(fault) => Err(fault),
    }
}
