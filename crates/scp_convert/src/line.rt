//! A line that is converted, or refused.
ghost use Rattle.std.specs.Prelude.{◌≡◌, IfOk, string_bytes};
ghost use Rattle.scp_convert.specs.Kinds.{IsShown};
ghost use Rattle.scp_convert.specs.Words.{IsDecodedAs, IsEncodedAs, IsMadeOf, written_by};
ghost use Rattle.scp_convert.specs.Refusals.{IsNotDecodedAs, IsNotEncodedAs, IsNotMade};
ghost use Rattle.scp_convert.specs.Outcomes.{IsOutcome};
ghost use Rattle.scp_convert.specs.inside.Made.{IsMade, IsRefusalOf, IsNotShown};

use crate::bytes::{bytes_of_word, word_of_bytes};
use crate::decoding::shown;
use crate::encoding::{Unsaid, said};
use crate::objects::made_line;
use crate::refusal::Refusal;
use scp_prompt::{Coding, Conversion, Kind, Way};
use scp_script_text::below::types::Fault;
use std::alloc::{AllocError, Global};

/// What a line comes to.
#[derive(Drop)]
pub enum Outcome {
    /// This is written of it.
    Text(String),
    /// It is refused.
    Refused(Refusal),
}

/// The refusal that reports a fault of bytes, or that it is out of memory.
fn of_fault(fault: Fault) -> Result<Refusal, AllocError>
    ensures { IfOk result (IsRefusalOf fault) }
{
    match fault {
        Fault::TooLong => Ok(Refusal::TooLong),
        Fault::Malformed(place) => Ok(Refusal::Malformed(place)),
        _ => Err(AllocError),
    }
}

/// What bytes come to.
#[tactic(auto, using(crate::proofs::Made::not_shown))]
fn of_bytes(alloc: Global, kind: Kind, bytes: &[u8]) -> Result<Outcome, AllocError>
    ensures { IfOk result (IsMade (IsShown kind bytes.now) (IsNotShown kind bytes.now)) }
{
    match shown(alloc, kind, bytes) {
        Ok(text) => Ok(Outcome::Text(text)),
        Err(fault) => match of_fault(fault) {
            Ok(refusal) => Ok(Outcome::Refused(refusal)),
            Err(_) => Err(AllocError),
        },
    }
}

/// What a word of bytes comes to.
#[tactic(auto, using(crate::proofs::Made::of_word))]
fn decoded(alloc: Global, kind: Kind, coding: Coding, word: &[u8]) -> Result<Outcome, AllocError>
    ensures { IfOk result (IsMade (IsDecodedAs kind coding word.now) (IsNotDecodedAs kind coding word.now)) }
{
    match bytes_of_word(alloc, kind, coding, word)? {
        Some(bytes) => of_bytes(alloc, kind, bytes.as_slice()),
        None => Ok(Outcome::Refused(Refusal::NoBytes)),
    }
}

/// What a text comes to.
fn encoded(alloc: Global, kind: Kind, coding: Coding, text: &[u8]) -> Result<Outcome, AllocError>
    ensures { IfOk result (IsMade (IsEncodedAs kind coding text.now) (IsNotEncodedAs kind text.now)) }
{
    match said(alloc, kind, text) {
        Ok(bytes) => {
            let word = word_of_bytes(alloc, kind, coding, bytes.as_slice())?;
            Ok(Outcome::Text(word))
        }
        Err(Unsaid::Refused(refusal)) => Ok(Outcome::Refused(refusal)),
        Err(Unsaid::NoMemory) => Err(AllocError),
    }
}

/// What is made of a line, one way.
fn made(
    alloc: Global,
    way: Way,
    kind: Kind,
    coding: Coding,
    line: &[u8],
) -> Result<Outcome, AllocError>
    ensures { IfOk result (IsMade (IsMadeOf way kind coding line.now) (IsNotMade way kind coding line.now)) }
{
    match way {
        Way::Decode => decoded(alloc, kind, coding, line),
        Way::Encode => encoded(alloc, kind, coding, line),
    }
}

/// What is written of what was made of the line of this number.
fn written(
    alloc: Global,
    conversion: Conversion,
    place: usize,
    made: String,
) -> Result<String, AllocError>
    ensures { IfOk result (λ text. string_bytes text ≡ written_by conversion.json conversion.way conversion.kind place (string_bytes made)) }
{
    if conversion.json {
        return made_line(alloc, conversion.way, conversion.kind, place, made);
    }
    Ok(made)
}

/// Converts the line of this number, from 1 on, or refuses it. It takes time in proportion to the line.
pub fn converted(
    alloc: Global,
    conversion: Conversion,
    place: usize,
    line: &[u8],
) -> Result<Outcome, AllocError>
    // The text is that of what the line says; else the line is refused by its first bad word, or by the first fault of its bytes.
    ensures { IfOk result (IsOutcome conversion place line.now) }
{
    match made(
        alloc,
        conversion.way,
        conversion.kind,
        conversion.coding,
        line,
    )? {
        Outcome::Text(made) => {
            let text = written(alloc, conversion, place, made)?;
            Ok(Outcome::Text(text))
        }
        Outcome::Refused(refusal) => Ok(Outcome::Refused(refusal)),
    }
}
