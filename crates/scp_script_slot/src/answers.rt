//! What the state machine of one slot answers to the inputs of a script, as text.
ghost use Rattle.std.specs.Prelude.{◌≡◌, ◌↔◌, ◌++◌, IsTrue, IfOk, OnOk, string_bytes, flat_map, codes};
ghost use Rattle.scp_slot.specs.Slot.{IsSound, slot_view, driver_of};
ghost use Rattle.scp_slot.specs.Takes.{IsOfSlot};
ghost use Rattle.scp_script_slot.specs.Answers.{verdict_word, hex_word, node_word, emitted_line, decided_line, more_text, decided_text, IsEnvelopeLine, IsEmitted, IsOutput, IsAnswer, Answers, IsPlayed};
ghost use Rattle.scp_script_slot.specs.inside.Answers.{Appends};

use crate::script::{Script, Setup};
use scp_slot::below::ballot::Certified;
use scp_slot::below::driver::{Driver, KvDriver};
use scp_slot::below::envelope::{Envelope, SharedEnvelope, encode};
use scp_slot::below::types::{Fault, NodeId, Slot};
use scp_slot::{SlotInput, SlotMachine, SlotOutput, Verdict};
use std::alloc::Global;
use std::collections::BTreeSet;

/// The verdict's word.
fn word_of(verdict: Verdict) -> &'static str
    ensures { result.now ≡ verdict_word verdict }
{
    match verdict {
        Verdict::Fresh => "fresh",
        Verdict::Stale => "stale",
        Verdict::Own => "own",
        Verdict::BadStatement => "bad-statement",
        Verdict::BadValue => "bad-value",
        Verdict::Idle => "idle",
    }
}

/// Writes bytes in lower-case hex digits, or a dash for no bytes.
#[tactic(auto, using(crate::proofs::Answering::hex_of_none, crate::proofs::Answering::hex_of_some))]
fn write_digits(out: &mut String, bytes: &[u8]) -> Result<(), Fault>
    ensures { OnOk result (string_bytes out.new ≡ string_bytes out.old ++ hex_word bytes.now) }
{
    if bytes.is_empty() {
        out.push_str("-")?;
        return Ok(());
    }
    let digits = hex::encode(*out.allocator(), bytes)?;
    out.push_str(digits.as_str())?;
    Ok(())
}

/// Writes the line of an emitted envelope's bytes.
fn write_bytes(out: &mut String, bytes: &[u8]) -> Result<(), Fault>
    ensures { OnOk result (string_bytes out.new ≡ string_bytes out.old ++ emitted_line bytes.now) }
{
    out.push_str("emit ")?;
    write_digits(out, bytes)?;
    out.push_str("\n")?;
    Ok(())
}

/// Writes the line of an emitted envelope.
fn write_envelope(out: &mut String, envelope: &Envelope) -> Result<(), Fault>
    ensures { OnOk result (Appends (IsEnvelopeLine envelope.now) (string_bytes out.old) (string_bytes out.new)) }
{
    let bytes = encode(*out.allocator(), envelope)?;
    write_bytes(out, bytes.as_slice())?;
    Ok(())
}

/// Writes the line of an emitted envelope, if there is one.
fn write_emitted(out: &mut String, envelope: &Option<SharedEnvelope>) -> Result<(), Fault>
    ensures { OnOk result (Appends (IsEmitted envelope.now) (string_bytes out.old) (string_bytes out.new)) }
{
    match envelope {
        Some(envelope) => {
            write_envelope(out, envelope.get())?;
            Ok(())
        }
        None => Ok(()),
    }
}

/// Writes the nodes of a quorum, ascending.
fn write_quorum(out: &mut String, quorum: &BTreeSet<NodeId>) -> Result<(), Fault>
    ensures { OnOk result (string_bytes out.new ≡ string_bytes out.old ++ flat_map node_word quorum.now.keys) }
{
    for node in quorum {
        out.push_str(" ")?;
        write_digits(out, &node.0)?;
    }
    Ok(())
}

/// Writes the line of a decision.
fn write_decided(out: &mut String, decided: &Certified) -> Result<(), Fault>
    ensures { OnOk result (string_bytes out.new ≡ string_bytes out.old ++ decided_line decided.now) }
{
    let n = decided.n;
    out.push_str("decided ")?;
    write_digits(out, decided.value.as_slice())?;
    write!(out, " {n}")?;
    write_quorum(out, &decided.quorum)?;
    out.push_str("\n")?;
    Ok(())
}

/// Writes the line of a decision, if there is one.
fn write_decision(out: &mut String, decided: &Option<Certified>) -> Result<(), Fault>
    ensures { OnOk result (string_bytes out.new ≡ string_bytes out.old ++ decided_text decided.now) }
{
    match decided {
        Some(decided) => {
            write_decided(out, decided)?;
            Ok(())
        }
        None => Ok(()),
    }
}

/// Writes the line `more` if rules are left.
fn write_more(out: &mut String, more: bool) -> Result<(), Fault>
    ensures { OnOk result (string_bytes out.new ≡ string_bytes out.old ++ more_text more) }
{
    if more {
        out.push_str("more\n")?;
    }
    Ok(())
}

/// Writes the verdict's line.
fn write_verdict(out: &mut String, verdict: Verdict) -> Result<(), Fault>
    ensures { OnOk result (string_bytes out.new ≡ string_bytes out.old ++ (verdict_word verdict ++ codes "\n")) }
{
    out.push_str(word_of(verdict))?;
    out.push_str("\n")?;
    Ok(())
}

/// Writes the lines of an output.
fn write_output(out: &mut String, output: &SlotOutput) -> Result<(), Fault>
    ensures { OnOk result (Appends (IsOutput output.now) (string_bytes out.old) (string_bytes out.new)) }
{
    write_verdict(out, output.verdict)?;
    write_emitted(out, &output.emitted.nomination)?;
    write_emitted(out, &output.emitted.ballot)?;
    write_decision(out, &output.decided)?;
    write_more(out, output.more)?;
    Ok(())
}

/// Whether the input is of this slot, as each input of a script is.
fn fits(slot: Slot, input: &SlotInput) -> bool
    ensures { IsTrue result ↔ IsOfSlot slot.0 input.now }
{
    match input {
        SlotInput::Envelope(envelope, _) => envelope.get().statement.slot == slot,
        _ => true,
    }
}

/// Writes that the input isn't taken after the decision.
fn write_done(out: &mut String) -> Result<(), Fault>
    ensures { OnOk result (string_bytes out.new ≡ string_bytes out.old ++ codes "done\n") }
{
    out.push_str("done\n")?;
    Ok(())
}

/// Gives an input to the machine and writes its answer, which is `done` after the decision.
fn answer<D: Driver + Drop>(
    machine: &mut SlotMachine<D>,
    input: SlotInput,
    out: &mut String,
) -> Result<(), Fault>
    requires sound { IsSound D.says.level D.says.place machine.old }
    ensures answer { OnOk result (Appends (λ text. IsAnswer (D.says.level (driver_of machine.old)) (D.says.combined (driver_of machine.old)) input (slot_view machine.old) text (slot_view machine.new)) (string_bytes out.old) (string_bytes out.new)) }
    ensures driver { OnOk result (driver_of machine.new ≡ driver_of machine.old) }
    ensures sound { IsSound D.says.level D.says.place machine.new }
{
    if machine.is_decided() {
        write_done(out)?;
        return Ok(());
    }
    if !fits(machine.slot(), &input) {
        return Err(Fault::BadConfig);
    }
    let output = machine.input(input)?;
    write_output(out, &output)?;
    Ok(())
}

/// The machine's answers to the inputs.
fn answers<D: Driver + Drop>(
    alloc: Global,
    driver: D,
    setup: Setup,
    inputs: Vec<SlotInput>,
) -> Result<String, Fault>
    ensures { IfOk result (λ text. Answers (D.says.level driver) (D.says.combined driver) setup inputs.items (string_bytes text)) }
{
    let Setup { me, slot, set } = setup;
    let mut machine = SlotMachine::new(alloc, me, slot, set, driver)?;
    let mut out = String::new(alloc);
    for input in inputs {
        answer(&mut machine, input, &mut out)?;
    }
    Ok(out)
}

/// The answers of a machine with the driver for operation lists to the script's inputs, in their order; no text if the script sets up no
/// machine.
pub fn play(alloc: Global, script: Script) -> Result<String, Fault>
    ensures played { IfOk result (λ text. IsPlayed script (string_bytes text)) }
{
    let Script { setup, inputs } = script;
    match setup {
        Some(setup) => answers(alloc, KvDriver, setup, inputs),
        None => Ok(String::new(alloc)),
    }
}
