//! A script that is being read.
ghost use Rattle.std.specs.Prelude.{◌≡◌, ◌++◌, ◌∷◌, ◌↔◌, [], ℕ, List, All, None, IfOk, IsOkUnless, IsSomeAnd, IsTrue, map};
ghost use Rattle.scp_script.specs.Words.{words_of, link_in};
ghost use Rattle.scp_script.specs.Reasons.{link_fault_by, IsPlacedFault, IsWordFault, IsLineFault};
ghost use Rattle.scp_script.specs.Script.{command_in, Admits};
ghost use Rattle.scp_script.specs.Nodes.{NamesNodes};
ghost use Rattle.scp_script.specs.Reading.{IsReading, TakesWords, OnTrueOk, OnFalseOk, Stands};

use crate::bytes::{blank_bytes, foreign_bytes};
use crate::command::Command;
use crate::known::Known;
use crate::line::command_from;
use crate::reason::{Verb, kinds_of, misplaced, verb_of, word_at, wrong_word};
use crate::words::{ascii, link, skipped, words};
use scp_device::{BadWord, Expected};
use scp_wire::below::types::{Fault, LIFE_LIMIT};
use std::alloc::{AllocError, Global};

/// What was read of a script so far.
#[derive(Drop)]
pub struct Reading {
    commands: Vec<Command>,
    known: Known,
}

impl Reading {
    /// Nothing was read.
    pub fn new(alloc: Global) -> Reading
        ensures commands { result.commands.items ≡ [] }
        ensures reading { IsReading result }
    {
        Reading {
            commands: Vec::new(alloc),
            known: Known::new(),
        }
    }

    /// The commands that were read.
    pub fn into_commands(self) -> Vec<Command>
        ensures { result ≡ self.commands }
    {
        let Reading { commands, .. } = self;
        commands
    }

    /// Adds a command if it may stand here, and returns whether it may.
    fn add(&mut self, command: Command) -> Result<bool, AllocError>
        requires names { NamesNodes command }
        requires reading { IsReading self.old }
        ensures good { IfOk result (λ good. IsTrue good ↔ Admits self.old.commands.items command) }
        ensures added { OnTrueOk result (self.new.commands.items ≡ self.old.commands.items ++ command ∷ []) }
        ensures reading { OnTrueOk result (IsReading self.new) }
        ensures same { OnFalseOk result (self.new ≡ self.old) }
    {
        if !self.known.take(&command) {
            return Ok(false);
        }
        self.commands.push(command)?;
        Ok(true)
    }

    /// Takes in the words of a line if they may stand here, and returns whether they may.
    fn read_words(&mut self, alloc: Global, words: &[&str]) -> Result<bool, Fault>
        requires reading { IsReading self.old }
        ensures good { IfOk result (λ good. IsTrue good ↔ IsSomeAnd (command_in (map (λ word. word.now) words.now)) (Admits self.old.commands.items)) }
        ensures taken { OnTrueOk result (TakesWords self.old (map (λ word. word.now) words.now) self.new) }
        ensures same { OnFalseOk result (self.new ≡ self.old) }
        ensures only_memory { IsOkUnless result Fault.NoMemory }
    {
        match command_from(alloc, words)? {
            Some(command) => Ok(self.add(command)?),
            None => Ok(false),
        }
    }

    /// Takes in a line, and returns whether it may stand here. If it may not, nothing changes. The only error is `NoMemory`.
    pub fn read_line(&mut self, alloc: Global, line: &[u8]) -> Result<bool, Fault>
        requires reading { IsReading self.old }
        ensures good { IfOk result (λ good. IsTrue good ↔ Stands self.old.commands.items line.now) }
        ensures taken { OnTrueOk result (TakesWords self.old (words_of line.now) self.new) }
        ensures same { OnFalseOk result (self.new ≡ self.old) }
        ensures only_memory { IsOkUnless result Fault.NoMemory }
    {
        let Some(text) = ascii(line) else {
            return Ok(false);
        };
        if skipped(line) {
            return Ok(true);
        }
        let words = words(alloc, text)?;
        self.read_words(alloc, words.as_slice())
    }

    /// What was expected of the link between two nodes, if a line with this first word may not name it.
    fn no_link(&self, verb: Verb, from: &str, to: &str) -> Option<Expected>
        requires reading { IsReading self.now }
        ensures { result ≡ link_fault_by verb (link_in from.now to.now) self.now.commands.items }
    {
        let (from, to) = link(from, to)?;
        let link = self.known.links.get(from, to);
        match verb {
            Verb::Open if link.is_open => Some(Expected::AClosedLink),
            Verb::Open if link.lives >= LIFE_LIMIT => Some(Expected::FewerLives),
            Verb::Close | Verb::Send if !link.is_open => Some(Expected::AnOpenLink),
            _ => None,
        }
    }

    /// The first bad word of a line with this first word, which comes in the right order; then its link.
    fn bad_word(&self, alloc: Global, verb: Verb, words: &[&str]) -> Result<Option<BadWord>, Fault>
        requires reading { IsReading self.now }
        ensures found { IfOk result (IsPlacedFault None verb self.now.commands.items (map (λ word. word.now) words.now)) }
        ensures only_memory { IsOkUnless result Fault.NoMemory }
    {
        if let Some(refusal) = wrong_word(alloc, kinds_of(verb), self.known.count, words)? {
            return Ok(Some(refusal));
        }
        match self.no_link(verb, word_at(words, 1), word_at(words, 2)) {
            Some(expected) => Ok(Some(BadWord { word: 2, expected })),
            None => Ok(None),
        }
    }

    /// The first bad word of a line of these words.
    fn why_words(&self, alloc: Global, words: &[&str]) -> Result<Option<BadWord>, Fault>
        requires reading { IsReading self.now }
        ensures found { IfOk result (IsWordFault self.now.commands.items (map (λ word. word.now) words.now)) }
        ensures only_memory { IsOkUnless result Fault.NoMemory }
    {
        let Some(verb) = verb_of(word_at(words, 0)) else {
            let expected = Expected::AVerb;
            return Ok(Some(BadWord { word: 1, expected }));
        };
        if let Some(expected) = misplaced(verb, self.known.count, self.known.has_begun) {
            return Ok(Some(BadWord { word: 1, expected }));
        }
        self.bad_word(alloc, verb, words)
    }

    /// The first bad word of a line that may not stand here, or `None` if no word is bad. Its bytes are judged first, then what its words
    /// say, from left to right, then its link. The only error is `NoMemory`.
    pub fn why(&self, alloc: Global, line: &[u8]) -> Result<Option<BadWord>, Fault>
        requires reading { IsReading self.now }
        ensures found { IfOk result (IsLineFault self.now.commands.items line.now) }
        ensures only_memory { IsOkUnless result Fault.NoMemory }
    {
        let Some(text) = ascii(line) else {
            return Ok(foreign_bytes(alloc, line)?);
        };
        if skipped(line) {
            return Ok(None);
        }
        if let Some(refusal) = blank_bytes(alloc, line)? {
            return Ok(Some(refusal));
        }
        let words = words(alloc, text)?;
        self.why_words(alloc, words.as_slice())
    }
}
