//! Scripts in their other form, and scripts of one slot.
ghost use Rattle.std.specs.Prelude.{◌≡◌, ◌≤◌, ◌⊎◌, ℕ, List, IfOk, IfErr, false, length, string_bytes};
ghost use Rattle.scp_script_short.specs.Hexing.{IsNotHexed};
ghost use Rattle.scp_script_short.specs.scp_script_text.specs.Scripts.{IsScriptOf};
ghost use Rattle.scp_script_slot.specs.declared.script.Script.{Script as SlotScript};
ghost use Rattle.scp_script_slot.specs.Answers.{IsPlayed};
ghost use Rattle.scp_script_slot.specs.Serving.{IsScriptFault};
ghost use Rattle.scp_command.specs.Given.{IsAtLine};
ghost use Rattle.scp_command.specs.Answers.{IsJust, IsSlotAnswer, Answers};
ghost use Rattle.scp_command.specs.Converting.{lines_of};
ghost use Rattle.scp_command.specs.Causes.{IsNoSlotDigits, IsNoHexBy, Fails};

use crate::answer::Answer;
use scp_convert::below::prompt::{Failure, Task};
use scp_script_short::below::device::{BadLine, BadWord, ReadFault};
use scp_script_short::below::script_text::{Form, Kind, is_slot_script, rewrite};
use scp_script_short::below::types::{Fault, SCRIPT_LIMIT};
use scp_script_short::{HexError, hex};
use scp_script_slot::{play, read_slot_script, reason_of};
use std::alloc::Global;

/// Why a script isn't written in hex digits.
fn of_hex(error: HexError) -> Failure
    ensures { (input : List ℕ) → IsNotHexed input error → IsNoHexBy false input result }
{
    match error {
        HexError::NoMemory => Failure::NoMemory,
        HexError::TooLong => Failure::TooLong(SCRIPT_LIMIT),
        HexError::Short(bad) => Failure::Word(bad),
        HexError::Text(bad) => Failure::Word(bad),
    }
}

/// The form in hex digits of a script of one slot.
fn slot_digits(alloc: Global, text: &[u8]) -> Result<Vec<u8>, Failure>
    ensures written { IfOk result (λ digits. IsScriptOf Kind.Slot Form.Hex text.now digits.items) }
    ensures cause { IfErr result (IsNoSlotDigits text.now) }
{
    match rewrite(alloc, Kind::Slot, Form::Hex, text) {
        Ok(digits) => Ok(digits),
        Err(ReadFault::Bad(bad)) => Err(Failure::Word(bad)),
        Err(_) => Err(Failure::NoMemory),
    }
}

/// A script with hex digits in place of text.
pub fn in_digits(alloc: Global, text: &[u8]) -> Result<Answer, Failure>
    ensures answer { IfOk result (Answers Task.Hex text.now) }
    ensures cause { IfErr result (Fails Task.Hex text.now) }
{
    if is_slot_script(text) {
        let digits = slot_digits(alloc, text)?;
        return Ok(Answer::of_bytes(alloc, digits));
    }
    match hex(alloc, text) {
        Ok(digits) => Ok(Answer::of_bytes(alloc, digits)),
        Err(error) => Err(of_hex(error)),
    }
}

/// A script of one slot with text in place of hex digits.
fn slot_as_text(alloc: Global, text: &[u8]) -> Result<Answer, Failure>
    ensures answer { IfOk result (λ answer. (out : List ℕ) × IsScriptOf Kind.Slot Form.Text text.now out × IsJust out answer) }
    ensures cause { IfErr result (λ failure. failure ≡ Failure.NoMemory) }
{
    match rewrite(alloc, Kind::Slot, Form::Text, text) {
        Ok(out) => Ok(Answer::of_bytes(alloc, out)),
        Err(_) => Err(Failure::NoMemory),
    }
}

/// A script with text in place of hex digits.
pub fn as_text(alloc: Global, text: &[u8]) -> Result<Answer, Failure>
    ensures answer { IfOk result (Answers Task.Text text.now) }
    ensures cause { IfErr result (Fails Task.Text text.now) }
{
    if is_slot_script(text) {
        return slot_as_text(alloc, text);
    }
    match rewrite(alloc, Kind::Nodes, Form::Text, text) {
        Ok(out) => Ok(Answer::of_bytes(alloc, out)),
        Err(ReadFault::Bad(bad)) => Err(Failure::Word(bad)),
        Err(_) => Err(Failure::NoMemory),
    }
}

/// What a slot's machine answers to the script of one slot, in hex digits. `Fault::BadScript` names the first bad line. Every other refusal
/// is out of memory.
pub fn played_slot(alloc: Global, digits: &[u8]) -> Result<String, Fault>
    ensures answer { IfOk result (λ text. (script : SlotScript) × IsPlayed script (string_bytes text)) }
    ensures cause { IfErr result (IsScriptFault digits.now) }
{
    let script = read_slot_script(alloc, digits)?;
    match play(alloc, script) {
        Ok(answers) => Ok(answers),
        Err(_) => Err(Fault::NoMemory),
    }
}

/// The number of words of a line of a text.
fn count_of_words(text: &[u8], line: usize) -> usize {
    match text
        .split(|byte| *byte == b'\n')
        .nth(line.saturating_sub(1))
    {
        Some(line) => line.split(|byte| *byte == b' ').count(),
        None => 0,
    }
}

/// The place in the input of a word of the hex digits. As text an envelope has more words, and the set comes after it.
fn place_in_input(input: &[u8], digits: &[u8], line: usize, word: usize) -> usize {
    let more = count_of_words(input, line).saturating_sub(count_of_words(digits, line));
    if word > 2 {
        word.saturating_add(more)
    } else {
        word
    }
}

/// The failure of a bad line of a script of one slot: its first bad word, or the line alone if memory ran out for that.
fn of_slot_line(alloc: Global, input: &[u8], digits: &[u8], line: usize) -> Failure
    ensures { IsAtLine line result }
{
    match reason_of(alloc, digits, line) {
        Ok(bad) => {
            let word = place_in_input(input, digits, line, bad.word);
            Failure::Word(BadLine {
                line,
                bad: BadWord { word, ..bad },
            })
        }
        Err(_) => Failure::Line(line),
    }
}

/// Why a script of one slot isn't played.
fn of_slot(alloc: Global, input: &[u8], digits: &[u8], fault: Fault) -> Failure
    ensures { IsScriptFault digits.now fault → (result ≡ Failure.NoMemory) ⊎ ((line : ℕ) × (1 ≤ line) × (line ≤ length (lines_of digits.now)) × IsAtLine line result) }
{
    match fault {
        Fault::BadScript(line) => of_slot_line(alloc, input, digits, line),
        _ => Failure::NoMemory,
    }
}

/// What a slot's machine answers to the script of one slot, in hex digits or as text.
pub fn slot(alloc: Global, text: &[u8]) -> Result<Answer, Failure>
    ensures answer { IfOk result (IsSlotAnswer text.now) }
    ensures cause { IfErr result (Fails Task.Slot text.now) }
{
    let digits = slot_digits(alloc, text)?;
    let digits = digits.as_slice();
    match played_slot(alloc, digits) {
        Ok(answers) => Ok(Answer::of_text(alloc, answers)),
        Err(fault) => Err(of_slot(alloc, text, digits, fault)),
    }
}
