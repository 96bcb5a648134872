//! What a script for the state machine of one slot says.
ghost use Rattle.std.specs.Prelude.{IsOkUnless, IfErr};
ghost use Rattle.scp_script_slot.specs.Serving.{IsScriptFault};

use crate::words::{ascii, envelope, is_skipped, lines, node, number, sane_set, value, words};
use scp_slot::SlotInput;
use scp_slot::below::envelope::SharedEnvelope;
use scp_slot::below::quorum::SaneSet;
use scp_slot::below::types::{Fault, NodeId, Slot};
use std::alloc::Global;
use std::sync::Arc;

/// The machine's node, its slot, and its own quorum set.
#[derive(Drop)]
pub struct Setup {
    pub me: NodeId,
    pub slot: Slot,
    pub set: Arc<SaneSet>,
}

/// A script: the machine, if there is one, and its inputs in their order.
#[derive(Drop)]
pub struct Script {
    pub setup: Option<Setup>,
    pub inputs: Vec<SlotInput>,
}

/// The machine of a `slot` line.
fn machine_of(alloc: Global, me: &str, slot: &str, set: &str) -> Result<Option<Setup>, Fault>
    ensures only_memory { IsOkUnless result Fault.NoMemory }
{
    let Some(me) = node(alloc, me)? else {
        return Ok(None);
    };
    let Some(slot) = number(alloc, slot)? else {
        return Ok(None);
    };
    let Some(set) = sane_set(alloc, set)? else {
        return Ok(None);
    };
    Ok(Some(Setup {
        me,
        slot: Slot(slot),
        set,
    }))
}

/// The input of an `envelope` line of this slot, if its quorum set has the hash that the envelope names.
fn enveloped(alloc: Global, slot: Slot, word: &str, set: &str) -> Result<Option<SlotInput>, Fault>
    ensures only_memory { IsOkUnless result Fault.NoMemory }
{
    let Some(envelope) = envelope(alloc, word)? else {
        return Ok(None);
    };
    let Some(set) = sane_set(alloc, set)? else {
        return Ok(None);
    };
    if envelope.statement.slot != slot || envelope.set_hash() != set.hash() {
        return Ok(None);
    }
    let shared = SharedEnvelope::new(alloc, envelope)?;
    Ok(Some(SlotInput::Envelope(shared, set)))
}

/// The input of a `propose` line.
fn proposed(alloc: Global, word: &str) -> Result<Option<SlotInput>, Fault>
    ensures only_memory { IsOkUnless result Fault.NoMemory }
{
    match value(alloc, word)? {
        Some(value) => Ok(Some(SlotInput::Propose(value))),
        None => Ok(None),
    }
}

/// The input that the words of a line say.
fn input_of(alloc: Global, slot: Slot, words: &[&str]) -> Result<Option<SlotInput>, Fault>
    ensures only_memory { IsOkUnless result Fault.NoMemory }
{
    match words {
        ["round"] => Ok(Some(SlotInput::Round)),
        ["timer"] => Ok(Some(SlotInput::Timer)),
        ["propose", word] => proposed(alloc, *word),
        ["envelope", word, set] => enveloped(alloc, slot, *word, *set),
        _ => Ok(None),
    }
}

/// The machine that the words of the first line say.
fn setup_of(alloc: Global, words: &[&str]) -> Result<Option<Setup>, Fault>
    ensures only_memory { IsOkUnless result Fault.NoMemory }
{
    match words {
        ["slot", me, slot, set] => machine_of(alloc, *me, *slot, *set),
        _ => Ok(None),
    }
}

impl Script {
    /// Adds the input that the words say, and returns whether they say one.
    fn add(&mut self, alloc: Global, slot: Slot, words: &[&str]) -> Result<bool, Fault>
        ensures only_memory { IsOkUnless result Fault.NoMemory }
    {
        match input_of(alloc, slot, words)? {
            Some(input) => {
                self.inputs.push(input)?;
                Ok(true)
            }
            None => Ok(false),
        }
    }

    /// Takes in the machine that the words say, and returns whether they say one.
    fn begin(&mut self, alloc: Global, words: &[&str]) -> Result<bool, Fault>
        ensures only_memory { IsOkUnless result Fault.NoMemory }
    {
        match setup_of(alloc, words)? {
            Some(setup) => {
                self.setup = Some(setup);
                Ok(true)
            }
            None => Ok(false),
        }
    }

    /// The slot, once a line has said it.
    fn slot(&self) -> Option<Slot> {
        match &self.setup {
            Some(setup) => Some(setup.slot),
            None => None,
        }
    }

    /// Takes in a line, and returns whether it may stand here.
    fn read_line(&mut self, alloc: Global, line: &[u8]) -> Result<bool, Fault>
        ensures only_memory { IsOkUnless result Fault.NoMemory }
    {
        let Some(text) = ascii(line) else {
            return Ok(false);
        };
        if is_skipped(line) {
            return Ok(true);
        }
        let words = words(alloc, text)?;
        match self.slot() {
            Some(slot) => self.add(alloc, slot, words.as_slice()),
            None => self.begin(alloc, words.as_slice()),
        }
    }
}

/// Reads a script. `Fault::BadScript` names the first bad line, from 1 on. The only other error is `Fault::NoMemory`.
pub fn read_slot_script(alloc: Global, text: &[u8]) -> Result<Script, Fault>
    ensures cause { IfErr result (IsScriptFault text.now) }
{
    let mut script = Script {
        setup: None,
        inputs: Vec::new(alloc),
    };
    let lines = lines(alloc, text)?;
    for (index, line) in lines.iter().enumerate() {
        if !script.read_line(alloc, *line)? {
            return Err(Fault::BadScript(index + 1));
        }
    }
    Ok(script)
}
