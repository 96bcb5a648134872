//! What a line asks for.
ghost use Rattle.std.specs.Prelude.{◌≡◌, ◌∷◌, true, IfOk, IsErrOf, map, string_bytes};
ghost use Rattle.scp_script.specs.Reasons.{parts_of};
ghost use Rattle.scp_live_lines.specs.Says.{Says, SaysInWords, has_bytes};
ghost use Rattle.scp_live_lines.specs.Bad.{at_word, IsWrongBehind, IsWrongIn, IsFirstBad};
ghost use Rattle.scp_live_lines.specs.Verbs.{form_of};
ghost use Rattle.scp_live_lines.specs.Results.{IfBad};
ghost use Rattle.scp_live_lines.specs.inside.Forms.{word_of, takes_bytes};

use crate::asked::Asked;
use crate::bad::judged;
use crate::forms::{nothing, one_peer, one_slot, peer_and_bytes, peer_and_slot, slot_and_value};
use crate::verb::{Verb, verb_of};
use crate::words::{ascii, first_words};
use scp_core::{Command, Event};
use scp_script::{BadWord, Expected, WordFault, skipped};
use std::alloc::Global;

/// What a line with this first word asks for, by the words after it.
fn read_behind(
    alloc: Global,
    names: &[String],
    verb: Verb,
    rest: &[&str],
) -> Result<Asked, WordFault>
    ensures read { IfOk result (SaysInWords (map string_bytes names.now) (word_of verb ∷ map (λ word. word.now) rest.now)) }
    ensures bad { IfBad result (IsWrongBehind (map string_bytes names.now) (form_of verb) (map (λ word. word.now) rest.now) 2) }
    ensures memory { IsErrOf result WordFault.NoMemory → takes_bytes verb ≡ true }
{
    match verb {
        Verb::Open => Ok(Asked::Event(Event::Open(one_peer(names, rest)?))),
        Verb::Close => Ok(Asked::Event(Event::Close(one_peer(names, rest)?))),
        Verb::Recv => {
            let (link, bytes) = peer_and_bytes(alloc, names, rest)?;
            Ok(Asked::Event(Event::Send(link, bytes)))
        }
        Verb::Propose => {
            let (slot, value) = slot_and_value(alloc, rest)?;
            Ok(Asked::Event(Event::Local(Command::Propose(slot, value))))
        }
        Verb::Round => Ok(Asked::Event(Event::Local(Command::Round(one_slot(rest)?)))),
        Verb::Timer => Ok(Asked::Event(Event::Local(Command::Timer(one_slot(rest)?)))),
        Verb::Ballot => Ok(Asked::Event(Event::Local(Command::Timer(one_slot(rest)?)))),
        Verb::Tick => {
            nothing(rest)?;
            Ok(Asked::Event(Event::Local(Command::Tick)))
        }
        Verb::Ask => {
            let (link, slot) = peer_and_slot(names, rest)?;
            Ok(Asked::Event(Event::Local(Command::Ask(link, slot))))
        }
        Verb::Again => Ok(Asked::Again(one_peer(names, rest)?)),
        Verb::State => {
            nothing(rest)?;
            Ok(Asked::State)
        }
        Verb::Report => {
            nothing(rest)?;
            Ok(Asked::Report)
        }
        Verb::Stand => {
            nothing(rest)?;
            Ok(Asked::Stand)
        }
        Verb::Applied => Ok(Asked::Applied(one_slot(rest)?)),
    }
}

/// The refusal of a first word that means nothing.
fn no_verb() -> WordFault
    ensures { result ≡ WordFault.Bad (at_word 1 Expected.AHostVerb) }
{
    WordFault::Bad(BadWord {
        word: 1,
        expected: Expected::AHostVerb,
    })
}

/// What the words of a line ask for.
fn read_words(alloc: Global, names: &[String], words: &[&str]) -> Result<Asked, WordFault>
    ensures read { IfOk result (SaysInWords (map string_bytes names.now) (map (λ word. word.now) words.now)) }
    ensures bad { IfBad result (IsWrongIn (map string_bytes names.now) (map (λ word. word.now) words.now)) }
    ensures memory { IsErrOf result WordFault.NoMemory → (asked : Asked) → SaysInWords (map string_bytes names.now) (map (λ word. word.now) words.now) asked → has_bytes asked ≡ true }
{
    let [first, rest @ ..] = words else {
        return Err(no_verb());
    };
    match verb_of(*first) {
        Some(verb) => read_behind(alloc, names, verb, rest),
        None => Err(no_verb()),
    }
}

/// What the text of a line asks for, if the line isn't skipped.
fn read_text(alloc: Global, names: &[String], text: &str) -> Result<Asked, WordFault>
    ensures read { IfOk result (SaysInWords (map string_bytes names.now) (parts_of text.now)) }
    ensures bad { IfBad result (IsWrongIn (map string_bytes names.now) (parts_of text.now)) }
    ensures memory { IsErrOf result WordFault.NoMemory → (asked : Asked) → SaysInWords (map string_bytes names.now) (parts_of text.now) asked → has_bytes asked ≡ true }
{
    let words = first_words(text);
    read_words(alloc, names, words.as_slice())
}

/// What a line asks for, with these names of the links. The line comes without its line feed. The call takes time in proportion to the
/// line and the names. It takes memory for the bytes that the line carries, or to report its first bad word.
pub fn read_line(alloc: Global, names: &[String], line: &[u8]) -> Result<Asked, WordFault>
    // What is returned is what the line says.
    ensures read { IfOk result (Says (map string_bytes names.now) line.now) }
    // A refused line says nothing.
    ensures says_nothing { IfBad result (λ refusal. (asked : Asked) → ¬ (Says (map string_bytes names.now) line.now asked)) }
    // A line is refused for its first bad word.
    ensures bad { IfBad result (IsFirstBad (map string_bytes names.now) line.now) }
    // A line that says something without bytes is never refused because memory ran out.
    ensures memory { IsErrOf result WordFault.NoMemory → (asked : Asked) → Says (map string_bytes names.now) line.now asked → has_bytes asked ≡ true }
{
    let Some(text) = ascii(line) else {
        let foreign = BadWord {
            word: 1,
            expected: Expected::Ascii,
        };
        return Err(judged(alloc, line, foreign));
    };
    if skipped(line) {
        return Ok(Asked::Nothing);
    }
    match read_text(alloc, names, text) {
        Ok(asked) => Ok(asked),
        Err(WordFault::Bad(found)) => Err(judged(alloc, line, found)),
        Err(WordFault::NoMemory) => Err(WordFault::NoMemory),
    }
}
