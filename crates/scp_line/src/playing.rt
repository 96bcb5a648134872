//! Playing a script, checking a script, showing a message.
ghost use Rattle.std.specs.Prelude.{◌≡◌, ◌≢◌, ◌++◌, IsOkUnless, ◌⊎◌, ◌<◌, ◌≤◌, ℕ, List, length, IfOk, IfErr, IfSome, OnOk, IsErrOf, Some, Err, string_bytes, codes};
ghost use Rattle.scp_turn.specs.scp_types.specs.declared.fault.Fault.TheVariants.{BadScript};
ghost use Rattle.scp_turn.specs.scp_wire.specs.Reading.{reading_of};
ghost use Rattle.scp_turn.specs.scp_wire.specs.Message.{message_kind, message_value, message_reading};
ghost use Rattle.scp_turn.specs.scp_xdr.specs.Kind.{Fits};
ghost use Rattle.scp_turn.specs.scp_xdr.specs.Words.{IsReadingFault};
ghost use Rattle.scp_report.specs.scp_device.specs.Device.{Gains, GainsPart, Fails, IsAll};
ghost use Rattle.scp_report.specs.scp_script.specs.Script.{IsScript, IsBadLine, HasNoBadLine, HasSetLine, commands_in};
ghost use Rattle.scp_line.specs.Headlines.{AreHeadlined};
ghost use Rattle.scp_line.specs.Outcome.{IsCheckFault, IsPlayFault};
ghost use Rattle.scp_line.specs.Play.{AreReports, Stops, Overflows, IsShown, IsUnread, IsNamed};

use crate::laws::what_is_played_keeps_the_headlines;
use crate::messages::line_of;
use crate::nodes::{new_network, play_alone, played_reports};
use scp_report::below::device::{ReportOut, ScriptIn, read_script, write_text};
use scp_report::below::script::{bytes_of, parse};
use scp_turn::below::types::{Fault, SCRIPT_LIMIT};
use scp_turn::below::wire::{Message, decode};
use scp_turn::{KvDriver, each_node_holds_its_ledger};
use std::alloc::Global;

/// Why a call was refused, and the number of the node that the fault line names, or 0.
#[derive(Clone, Copy, Debug, PartialEq, Eq)]
pub struct PlayFault {
    pub fault: Fault,
    pub node: u8,
}

impl From<Fault> for PlayFault {
    ghost from_gives = { λ fault result. result ≡ record { fault = fault; node = 0 } };

    fn from(fault: Fault) -> PlayFault {
        PlayFault { fault, node: 0 }
    }
}

/// All that a script prints.
fn played(alloc: Global, text: &[u8]) -> Result<String, PlayFault>
    ensures script { OnOk result (IsScript text.now) }
    ensures reports { IfOk result (λ printed. AreReports text.now (string_bytes printed)) }
    ensures headline { IfOk result (λ printed. AreHeadlined text.now (string_bytes printed)) }
    ensures device { IfErr result (λ e. e.fault ≢ Fault.Device) }
    ensures short { IfErr result (λ e. e.fault ≢ Fault.TooLong) }
    ensures memory { IfErr result (λ e. e.fault ≡ Fault.NoMemory → HasNoBadLine text.now ⊎ HasSetLine text.now) }
    ensures line { IfErr result (λ e. (line : ℕ) → e.fault ≡ BadScript line → IsBadLine text.now line) }
    ensures named { IfErr result (λ e. IsNamed e.node e.fault) }
    ensures stops { IfErr result (λ e. e.fault ≡ Fault.Failed → IsScript text.now × Stops (commands_in text.now) e.node) }
    ensures full { IfErr result (λ e. e.fault ≡ Fault.Full → IsScript text.now × Overflows (commands_in text.now)) }
    ensures cause { IfErr result (λ e. IsPlayFault e.fault) }
{
    let script = parse(alloc, text)?;
    let commands = script.as_slice();
    let mut network = new_network(alloc, commands)?;
    play_alone(alloc, &mut network, commands)?;
    each_node_holds_its_ledger::<KvDriver>();
    what_is_played_keeps_the_headlines();
    match played_reports(alloc, network.nodes(), commands) {
        Ok(printed) => Ok(printed),
        Err(error) => Err(PlayFault::from(Fault::from(error))),
    }
}

/// Plays a script, one step after another: reads it whole, does what its lines say, and then writes the reports that they ask for. All text
/// is made before the first byte is written.
/// The time grows with the script's length times the logarithm of the number of connections and keys.
/// Refused as `check` refuses; by `Failed`, which names the node that failed; and by `Full`, where a queue had no room for a line's event
/// even after a settle.
pub fn play<R: ScriptIn, W: ReportOut>(
    alloc: Global,
    reader: &mut R,
    writer: &mut W,
) -> Result<(), PlayFault>
    // What was read is a script of at most 1,048,576 bytes, and what was written is its reports.
    ensures reports { OnOk result ((script text : List ℕ) × IsAll (R.left reader.old) script × (length script ≤ SCRIPT_LIMIT) × IsScript script × AreReports script text × Gains (W.written writer.old) text (W.written writer.new)) }
    // The headline holds for each reported node; it says what matters most.
    ensures headline { OnOk result ((script text : List ℕ) × IsAll (R.left reader.old) script × AreHeadlined script text × Gains (W.written writer.old) text (W.written writer.new)) }
    // `Device` is returned only where the reader failed, and then nothing was written, or where the writer failed.
    ensures device { IfErr result (λ e. e.fault ≡ Fault.Device →
        (Fails (R.failures reader.old) (R.failures reader.new) × (writer.new ≡ writer.old)) ⊎ Fails (W.failures writer.old) (W.failures writer.new)) }
    // `TooLong` is returned only for a script over the limit.
    ensures too_long { IfErr result (λ e. e.fault ≡ Fault.TooLong → IfSome (R.left reader.old) (λ all. SCRIPT_LIMIT < length all)) }
    // Out of memory is returned only where nothing was read, or for a text within the limit that has no bad line or has a `set` line.
    ensures memory { IfErr result (λ e. e.fault ≡ Fault.NoMemory → (reader.new ≡ reader.old) ⊎ IfSome (R.left reader.old) (λ all. (length all ≤ SCRIPT_LIMIT) × (HasNoBadLine all ⊎ HasSetLine all))) }
    // `BadScript` names the first bad line of a text within the limit.
    ensures line { IfErr result (λ e. (line : ℕ) → e.fault ≡ BadScript line → IfSome (R.left reader.old) (λ all. (length all ≤ SCRIPT_LIMIT) × IsBadLine all line)) }
    // No other fault is returned.
    ensures cause { IfErr result (λ e. IsPlayFault e.fault) }
    // A node is named exactly where it failed.
    ensures named { IfErr result (λ e. IsNamed e.node e.fault) }
    // `Failed` is returned only where that node failed at a line of a script, after the lines before it were done.
    ensures stops { IfErr result (λ e. e.fault ≡ Fault.Failed → IfSome (R.left reader.old) (λ all. (length all ≤ SCRIPT_LIMIT) × IsScript all × Stops (commands_in all) e.node)) }
    // `Full` is returned only where a line's event found a full queue, and that queue was full even after a settle.
    ensures full { IfErr result (λ e. e.fault ≡ Fault.Full → IfSome (R.left reader.old) (λ all. (length all ≤ SCRIPT_LIMIT) × IsScript all × Overflows (commands_in all))) }
    // After any refusal but `Device` nothing was written.
    ensures untouched { IfErr result (λ e. e.fault ≢ Fault.Device → writer.new ≡ writer.old) }
    // After a refusal nothing was written, or a first part of the reports.
    ensures part { IfErr result (λ e. (writer.new ≡ writer.old) ⊎ ((script text : List ℕ) × IsAll (R.left reader.old) script × IsScript script × AreReports script text × GainsPart (W.written writer.old) text (W.written writer.new))) }
    // A failure is reported only as `Device`, and no call is made after one.
    ensures hidden { IfErr result (λ e. e.fault ≢ Fault.Device → R.failures reader.new ≡ R.failures reader.old) }
    ensures stopped { IfErr result (λ e. (writer.new ≡ writer.old) ⊎ Fails (W.failures writer.old) (W.failures writer.new)) }
    ensures kept { OnOk result ((R.failures reader.new ≡ R.failures reader.old) × (W.failures writer.new ≡ W.failures writer.old)) }
{
    let script = read_script(alloc, reader)?;
    let text = played(alloc, script.as_slice())?;
    Ok(write_text(writer, text.as_str())?)
}

/// Reads a script and writes `ok` if it is one. It refuses the same lines as `play`, in the same way.
/// Refused by `TooLong` over 1,048,576 bytes, by `BadScript` with the number of the first bad line, by `Device` where the reader or the
/// writer failed, and by `NoMemory`.
pub fn check<R: ScriptIn, W: ReportOut>(
    alloc: Global,
    reader: &mut R,
    writer: &mut W,
) -> Result<(), PlayFault>
    // What was read is a script of at most 1,048,576 bytes.
    ensures script { OnOk result ((script : List ℕ) × IsAll (R.left reader.old) script × (length script ≤ SCRIPT_LIMIT) × IsScript script) }
    // `ok` was written.
    ensures ok { OnOk result (Gains (W.written writer.old) (codes "ok\n") (W.written writer.new)) }
    ensures device { IfErr result (λ e. e.fault ≡ Fault.Device →
        (Fails (R.failures reader.old) (R.failures reader.new) × (writer.new ≡ writer.old)) ⊎ Fails (W.failures writer.old) (W.failures writer.new)) }
    ensures too_long { IfErr result (λ e. e.fault ≡ Fault.TooLong → IfSome (R.left reader.old) (λ all. SCRIPT_LIMIT < length all)) }
    // Out of memory is returned only where nothing was read, or for a text within the limit that has no bad line or has a `set` line.
    ensures memory { IfErr result (λ e. e.fault ≡ Fault.NoMemory → (reader.new ≡ reader.old) ⊎ IfSome (R.left reader.old) (λ all. (length all ≤ SCRIPT_LIMIT) × (HasNoBadLine all ⊎ HasSetLine all))) }
    // `BadScript` names the first bad line of a text within the limit.
    ensures line { IfErr result (λ e. (line : ℕ) → e.fault ≡ BadScript line → IfSome (R.left reader.old) (λ all. (length all ≤ SCRIPT_LIMIT) × IsBadLine all line)) }
    // No other fault is returned.
    ensures cause { IfErr result (λ e. IsCheckFault e.fault) }
    ensures named { IfErr result (λ e. e.node ≡ 0) }
    ensures untouched { IfErr result (λ e. e.fault ≢ Fault.Device → writer.new ≡ writer.old) }
    // After a refusal nothing was written, or a first part of `ok`.
    ensures part { IfErr result (λ e. (writer.new ≡ writer.old) ⊎ GainsPart (W.written writer.old) (codes "ok\n") (W.written writer.new)) }
    // A failure is reported only as `Device`, and no call is made after one.
    ensures hidden { IfErr result (λ e. e.fault ≢ Fault.Device → R.failures reader.new ≡ R.failures reader.old) }
    ensures stopped { IfErr result (λ e. (writer.new ≡ writer.old) ⊎ Fails (W.failures writer.old) (W.failures writer.new)) }
    ensures kept { OnOk result ((R.failures reader.new ≡ R.failures reader.old) × (W.failures writer.new ≡ W.failures writer.old)) }
{
    let script = read_script(alloc, reader)?;
    let _commands = parse(alloc, script.as_slice())?;
    Ok(write_text(writer, "ok\n")?)
}

/// The message that the bytes encode. It returns what `decode` returns; its contract says so in the words of this crate.
fn read_message(alloc: Global, bytes: &[u8]) -> Result<Message, Fault>
    ensures reading { IfOk result (λ message. reading_of bytes.now ≡ Some message) }
    ensures fits { IfOk result (λ message. Fits message_kind (message_value message)) }
    ensures first { IfErr result (λ fault. fault ≢ Fault.NoMemory → message_reading bytes.now ≡ Err fault) }
    ensures cause { IfErr result (λ fault. fault ≢ Fault.NoMemory → IsReadingFault fault) }
{
    match decode(alloc, bytes) {
        Ok(message) => Ok(message),
        Err(fault) => Err(fault),
    }
}

/// The line that shows the message that the hex digits encode.
fn shown(alloc: Global, hex: &str) -> Result<String, Fault>
    ensures message { IfOk result (λ text. IsShown hex.now (string_bytes text)) }
    ensures unread { IfErr result (λ fault. fault ≢ Fault.NoMemory → IsUnread hex.now fault) }
    ensures device { IfErr result (λ fault. fault ≢ Fault.Device) }
    ensures named { IfErr result (λ fault. IsNamed 0 fault) }
{
    let Some(bytes) = bytes_of(alloc, hex)? else {
        return Err(Fault::Malformed(0));
    };
    let message = read_message(alloc, bytes.as_slice())?;
    line_of(alloc, &message)
}

/// Shows the message that the hex digits encode, in one line. Refused by `Malformed(0)` where the word isn't hex digits, by the first fault
/// of its bytes, by `Device` where the writer failed, and by `NoMemory`.
pub fn show<W: ReportOut>(alloc: Global, hex: &str, writer: &mut W) -> Result<(), PlayFault>
    // The line is that of the message that the hex digits encode.
    ensures message { OnOk result ((text : List ℕ) × IsShown hex.now text × Gains (W.written writer.old) text (W.written writer.new)) }
    // `Malformed` at 0 where the word isn't hex digits; else the fault of its bytes.
    ensures unread { IfErr result (λ e. e.fault ≢ Fault.NoMemory → e.fault ≢ Fault.Device → IsUnread hex.now e.fault) }
    ensures device { IfErr result (λ e. e.fault ≡ Fault.Device → Fails (W.failures writer.old) (W.failures writer.new)) }
    ensures named { IfErr result (λ e. (e.node ≡ 0) × IsNamed e.node e.fault) }
    ensures untouched { IfErr result (λ e. e.fault ≢ Fault.Device → writer.new ≡ writer.old) }
    // After a refusal nothing was written, or a first part of the line.
    ensures part { IfErr result (λ e. (writer.new ≡ writer.old) ⊎ ((text : List ℕ) × IsShown hex.now text × GainsPart (W.written writer.old) text (W.written writer.new))) }
    ensures stopped { IfErr result (λ e. (writer.new ≡ writer.old) ⊎ Fails (W.failures writer.old) (W.failures writer.new)) }
    ensures kept { OnOk result (W.failures writer.new ≡ W.failures writer.old) }
{
    let text = shown(alloc, hex)?;
    Ok(write_text(writer, text.as_str())?)
}
