//! Finds the first bad line of a text without taking memory.
ghost use Rattle.std.specs.Prelude.{◌⊎◌, ◌==◌, List, IfSome, IsNone, map};
ghost use Rattle.scp_script.specs.declared.command.Command.{Command};
ghost use Rattle.scp_script.specs.Reading.{Knows};
ghost use Rattle.std.specs.List.{slice_split};
ghost use Rattle.scp_script.specs.Script.{IsBadLine, HasNoBadLine, HasSetLine};
ghost use Rattle.scp_script.specs.inside.Judging.{IsPlace, IsPlaceOfWords};

use crate::known::Known;
use crate::line::{bare_command, is_set};
use crate::words::{ascii, few_words, skipped};
use std::alloc::Global;

/// What is found out about a line that follows others.
#[derive(Clone, Copy)]
pub enum Place {
    /// It may stand there.
    Stands,
    /// It is bad there.
    Bad,
    /// It is a `set` line. To judge its quorum set takes memory.
    Set,
}

/// Takes in the words of a line.
fn take_words(alloc: Global, known: &mut Known, words: &[&str]) -> Place
    ensures { (before : List Command) → Knows known.old before → IsPlaceOfWords before (map (λ word. word.now) words.now) result known.new }
{
    if is_set(words) {
        return Place::Set;
    }
    let Some(command) = bare_command(alloc, words) else {
        return Place::Bad;
    };
    if known.take(&command) {
        return Place::Stands;
    }
    Place::Bad
}

/// Takes in the text of a line that isn't skipped.
fn take_text(alloc: Global, known: &mut Known, text: &str) -> Place
    ensures { (before : List Command) → Knows known.old before → IsPlaceOfWords before (slice_split (λ byte. byte == 32) text.now) result known.new }
{
    match few_words(text) {
        Some(words) => take_words(alloc, known, words.as_slice()),
        None => Place::Bad,
    }
}

/// Takes in a line.
fn take_line(alloc: Global, known: &mut Known, line: &[u8]) -> Place
    ensures { (before : List Command) → Knows known.old before → IsPlace before line.now result known.new }
{
    let Some(text) = ascii(line) else {
        return Place::Bad;
    };
    if skipped(line) {
        return Place::Stands;
    }
    take_text(alloc, known, text)
}

/// The number of the first bad line, from 1 on, if that line comes before the first `set` line. It takes no memory.
pub fn first_bad_line(alloc: Global, text: &[u8]) -> Option<usize>
    ensures bad { IfSome result (IsBadLine text.now) }
    ensures none { IsNone result → HasNoBadLine text.now ⊎ HasSetLine text.now }
{
    let mut known = Known::new();
    let mut number = 0;
    for line in text.split(|byte| *byte == b'\n') {
        number += 1;
        match take_line(alloc, &mut known, line) {
            Place::Stands => {}
            Place::Bad => return Some(number),
            Place::Set => return None,
        }
    }
    None
}
