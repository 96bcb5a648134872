//! The answers to the lines of a batch, and what is kept of the lines.
ghost use Rattle.std.specs.Prelude.{◌≡◌, ◌⊎◌, ◌↔◌, ◌++◌, ◌∷◌, [], true, IfErr, OnOk, IsErrOf, IsOkUnless, All, length, string_bytes};
ghost use Rattle.hex.specs.Hex.{IsBytes};
ghost use Rattle.scp_batches.specs.scp_live_log.specs.Log.{IsEntry, IsLine};
ghost use Rattle.scp_stand_node.specs.scp_turn.specs.Kv.{Goes, Watched};
ghost use Rattle.scp_stand_node.specs.scp_turn.specs.Watch.{notes};
ghost use Rattle.scp_stand_node.specs.scp_turn.specs.Episode.{IsOfHost, finds_full};
ghost use Rattle.scp_live.specs.scp_live_lines.specs.Replies.{refused_line, ok_line};
ghost use Rattle.scp_stand_node.specs.scp_core.specs.declared.event.Reply.TheVariants.{JournalFull};
ghost use Rattle.scp_live_process.specs.Answers.{IsPlayed, IsTaken, bad_line, Replies};
ghost use Rattle.scp_live_process.specs.Adding.{Adds, TellsMore, Asks};
ghost use Rattle.scp_live.specs.Living.{IsLive};

use crate::acting::act;
use crate::stand::tell_stand;
use crate::telling::write_bad;
use scp_batches::below::live_log::Entry;
use scp_live::Live;
use scp_live::below::live_lines::{Asked, write_ok, write_turned_away};
use scp_stand_node::below::turn::{Event, KvDriver, Watch};
use scp_stand_node::below::types::{Fault, Hash};
use std::alloc::Global;
use std::marker::Model;
use std::mem;

/// The text that was written so far, and the entries that are to be kept.
#[derive(Drop)]
pub struct Batch {
    alloc: Global,
    text: String,
    entries: Vec<Entry>,
}

impl Model for Batch {
    ghost use Rattle.std.specs.Prelude.{All, string_bytes};
    ghost use Rattle.scp_batches.specs.scp_live_log.specs.Log.{IsEntry};
    ghost use Rattle.scp_live_process.specs.Adding.{BatchView};

    ghost Value = { BatchView };

    ghost view = { λ b. record { text = string_bytes b.text; entries = b.entries.items } };

    ghost invariant = { λ b. All IsEntry b.entries.items };
}

/// What is in memory as bytes is bytes.
fn are_bytes(bytes: &[u8])
    ensures { IsBytes bytes.now }
{}

/// The entry of a line and of the digest of what was sent for it.
fn entry_of(line: Vec<u8>, sent: Hash) -> Entry
    requires line { IsLine line.items }
    ensures is { result ≡ record { line = line.items; sent = sent.0 } }
    ensures entry { IsEntry result }
{
    are_bytes(&sent.0);
    Entry::new(line, sent)
}

impl Batch {
    /// An empty batch: no text, and no entry to be kept.
    pub fn new(alloc: Global) -> Batch
        ensures { result ≡ record { text = []; entries = [] } }
    {
        Batch {
            alloc,
            text: String::new(alloc),
            entries: Vec::new(alloc),
        }
    }

    /// Where its memory comes from.
    pub fn alloc(&self) -> Global {
        self.alloc
    }

    /// The text, and the entries to be kept.
    pub fn into_parts(self) -> (String, Vec<Entry>)
        ensures text { string_bytes result.0 ≡ self.text }
        ensures entries { result.1.items ≡ self.entries }
        ensures are { All IsEntry result.1.items }
    {
        (self.text, self.entries)
    }

    /// How many entries are to be kept.
    pub fn count(&self) -> usize
        ensures { result ≡ length self.now.entries }
    {
        self.entries.len()
    }

    /// Takes out what the batch has so far, and leaves an empty one.
    pub fn take_out(&mut self) -> Batch
        ensures taken { result ≡ self.old }
        ensures empty { self.new ≡ record { text = []; entries = [] } }
    {
        let empty = Batch::new(self.alloc);
        mem::replace(self, empty)
    }

    /// Adds a text.
    pub fn add(&mut self, text: &str) -> Result<(), Fault>
        ensures told { OnOk result (TellsMore (λ told. told ≡ text.now) self.old self.new) }
        ensures only_memory { IsOkUnless result Fault.NoMemory }
    {
        self.text.push_str(text)?;
        Ok(())
    }

    /// Adds an entry.
    fn keep(&mut self, entry: Entry) -> Result<(), Fault>
        requires { IsEntry entry }
        ensures kept { OnOk result (self.new ≡ record self.old { entries = self.old.entries ++ entry ∷ [] }) }
        ensures only_memory { IsOkUnless result Fault.NoMemory }
    {
        self.entries.push(entry)?;
        Ok(())
    }

    /// Plays an event that a line says, and adds the lines that report it, and its entry. The watch is shown each step.
    pub fn play<V: Watch<KvDriver>>(
        &mut self,
        live: &mut Live,
        event: Event,
        line: Vec<u8>,
        watch: &mut V,
    ) -> Result<(), Fault>
        requires live { IsLive live.old.node }
        requires host { IsOfHost event }
        requires line { IsLine line.items }
        ensures played { Goes live.old.node live.new.node (λ _ heard _. Watched (notes V.notes_before V.notes_after) 1 watch.old live.old.node heard live.new.node watch.new × (OnOk result (Adds (IsPlayed event line.items) live.old heard live.new self.old self.new) × (IsErrOf result Fault.JournalFull ↔ (finds_full heard ≡ true)))) }
        ensures live { OnOk result (IsLive live.new.node) }
        ensures only { IfErr result (λ f. (f ≡ Fault.NoMemory) ⊎ (f ≡ Fault.JournalFull)) }
    {
        match act(live, event, &mut self.text, watch) {
            Ok(sent) => self.keep(entry_of(line, sent)),
            Err(fault) => Err(fault),
        }
    }

    /// Adds the line of an event that is turned away.
    fn turn_away(&mut self) -> Result<(), Fault>
        ensures told { OnOk result (TellsMore (λ told. told ≡ refused_line JournalFull) self.old self.new) }
        ensures only_memory { IsOkUnless result Fault.NoMemory }
    {
        write_turned_away(&mut self.text)?;
        Ok(())
    }

    /// Plays an event that a line says, or turns it away, if it is a peer's and the journal is nearly full. Adds the lines that report it.
    /// The watch is shown each step.
    pub fn take<V: Watch<KvDriver>>(
        &mut self,
        live: &mut Live,
        event: Event,
        line: Vec<u8>,
        watch: &mut V,
    ) -> Result<(), Fault>
        requires live { IsLive live.old.node }
        requires host { IsOfHost event }
        requires line { IsLine line.items }
        ensures taken { Goes live.old.node live.new.node (λ _ heard _. Watched (notes V.notes_before V.notes_after) 1 watch.old live.old.node heard live.new.node watch.new × (OnOk result (Adds (IsTaken event line.items) live.old heard live.new self.old self.new) × (IsErrOf result Fault.JournalFull ↔ (finds_full heard ≡ true)))) }
        ensures live { OnOk result (IsLive live.new.node) }
        ensures only { IfErr result (λ f. (f ≡ Fault.NoMemory) ⊎ (f ≡ Fault.JournalFull)) }
    {
        if live.turns_away(&event) {
            self.turn_away()
        } else {
            self.play(live, event, line, watch)
        }
    }

    /// Adds the answer to a question.
    pub fn reply(&mut self, live: &Live, asked: &Asked) -> Result<(), Fault>
        requires live { IsLive live.now.node }
        requires question { Asks asked.now }
        ensures told { OnOk result (TellsMore (Replies asked.now live.now) self.old self.new) }
        ensures only { IfErr result (λ f. (f ≡ Fault.NoMemory) ⊎ (f ≡ Fault.TooLong)) }
    {
        match asked {
            Asked::Event(_) | Asked::Nothing => Ok(()),
            Asked::Again(link) => live.again(*link, &mut self.text),
            Asked::State => Ok(live.state(&mut self.text)?),
            Asked::Report => Ok(live.report(&mut self.text)?),
            Asked::Stand => tell_stand(self.alloc, live, &mut self.text),
            Asked::Applied(slot) => Ok(live.applied(*slot, &mut self.text)?),
        }
    }

    /// Adds the line that reports a bad line.
    pub fn bad(&mut self, number: u64, word: usize, expected: &str) -> Result<(), Fault>
        ensures told { OnOk result (TellsMore (λ told. told ≡ bad_line number word expected.now) self.old self.new) }
        ensures only_memory { IsOkUnless result Fault.NoMemory }
    {
        write_bad(&mut self.text, number, word, expected)?;
        Ok(())
    }

    /// Adds the line that ends an answer.
    pub fn ok(&mut self, number: u64) -> Result<(), Fault>
        ensures told { OnOk result (TellsMore (λ told. told ≡ ok_line number) self.old self.new) }
        ensures only_memory { IsOkUnless result Fault.NoMemory }
    {
        write_ok(&mut self.text, number)?;
        Ok(())
    }
}
