//! Scripts with shorthand, in hex digits.
ghost use Rattle.std.specs.Prelude.{◌≡◌, IfOk, IfErr};
ghost use Rattle.scp_script_short.specs.declared.hexing.HexError.TheVariants.{NoMemory};
ghost use Rattle.scp_script_short.specs.Hexing.{AreDigits, IsHexedFrom, IsNotHexedFrom, IsHexed, IsNotHexed};
ghost use Rattle.scp_script_short.specs.inside.Hexing.{IsPlaced, IsTold, IsRefusedAmong, IsFirstTold};

use crate::expanded::{Expanded, expand};
use crate::placed::{PlacedLine, PlacedLines};
use scp_script_text::below::types::Fault;
use scp_script_text::{BadLine, Form, ReadFault, WordFault, line_in};
use std::alloc::{AllocError, Global};

/// Why a script isn't written in hex digits. Lines are those of the script that was given.
#[derive(Clone, Copy, Debug, PartialEq, Eq)]
pub enum HexError {
    /// Out of memory.
    NoMemory,
    /// Its shorthands weigh more than `LINE_LIMIT`.
    TooLong,
    /// A shorthand is refused at a word.
    Short(BadLine),
    /// A message, a value or a quorum set is refused at a word.
    Text(BadLine),
}

impl From<AllocError> for HexError {
    ghost from_gives = { λ _ e. e ≡ NoMemory };

    fn from(_e: AllocError) -> HexError {
        HexError::NoMemory
    }
}

/// A line in hex digits, or its refusal with its place.
fn hex_line(alloc: Global, placed: &PlacedLine) -> Result<PlacedLine, ReadFault>
    ensures written { IfOk result (IsPlaced placed.now) }
    ensures refused { IfErr result (IsTold placed.now) }
{
    let place = placed.place;
    match line_in(alloc, Form::Hex, placed.line.as_slice()) {
        Ok(line) => Ok(PlacedLine { place, line }),
        Err(WordFault::NoMemory) => Err(ReadFault::NoMemory),
        Err(WordFault::Bad(bad)) => Err(ReadFault::Bad(BadLine { line: place, bad })),
    }
}

/// Each of the lines in hex digits, or the first that is refused.
fn hex_lines(alloc: Global, lines: &[PlacedLine]) -> Result<PlacedLines, ReadFault>
    ensures written { IfOk result (AreDigits lines.now) }
    ensures refused { IfErr result (IsRefusedAmong lines.now) }
{
    let mut written = Vec::new(alloc);
    for placed in lines {
        let line = match hex_line(alloc, placed) {
            Ok(line) => line,
            Err(error) => return Err(error),
        };
        written.push(line)?;
    }
    Ok(PlacedLines::new(written))
}

/// What is reported of a refused text: the shorthand that was refused before it, if any, else the text.
fn first_told(refused: Option<BadLine>, text: BadLine) -> HexError
    ensures { IsFirstTold refused text result }
{
    match refused {
        Some(short) => {
            if short.line < text.line {
                HexError::Short(short)
            } else {
                HexError::Text(text)
            }
        }
        None => HexError::Text(text),
    }
}

/// An expanded script in hex digits.
fn hex_expanded(alloc: Global, expanded: &Expanded) -> Result<Vec<u8>, HexError>
    ensures written { IfOk result (λ digits. IsHexedFrom expanded.now digits.items) }
    ensures refused { IfErr result (IsNotHexedFrom expanded.now) }
{
    let lines = match hex_lines(alloc, expanded.lines.as_slice()) {
        Ok(lines) => lines,
        Err(ReadFault::Bad(text)) => return Err(first_told(expanded.refused, text)),
        Err(_) => return Err(HexError::NoMemory),
    };
    if let Some(short) = expanded.refused {
        return Err(HexError::Short(short));
    }
    Ok(lines.script(alloc)?)
}

/// The script with its shorthands expanded and with what its lines carry in hex digits, as the programs for the fixed form read it. A
/// refusal reports the first line that can't be written so, by its number in the script that was given.
pub fn hex(alloc: Global, script: &[u8]) -> Result<Vec<u8>, HexError>
    // No shorthand is refused, and each line of the expanded script is in hex digits.
    ensures written { IfOk result (λ digits. IsHexed script.now digits.items) }
    // Otherwise the first refused line is reported, with its first bad word and what was expected there. Or memory ran out, or the
    // shorthands weigh too much.
    ensures refused { IfErr result (IsNotHexed script.now) }
{
    match expand(alloc, script) {
        Ok(expanded) => hex_expanded(alloc, &expanded),
        Err(Fault::TooLong) => Err(HexError::TooLong),
        Err(_) => Err(HexError::NoMemory),
    }
}
