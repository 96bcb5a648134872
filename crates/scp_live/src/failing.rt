//! What is written about a node that can't begin, or that failed.
ghost use Rattle.std.specs.Prelude.{◌≡◌, ◌≢◌, ◌⊎◌, ◌++◌, codes, OnOk, OnErr, IfOk, string_bytes};
ghost use Rattle.std.specs.Fmt.{decimal};
ghost use Rattle.scp_again.specs.scp_types.specs.declared.fault.Fault.TheVariants.{NoMemory};
ghost use Rattle.scp_report.specs.scp_device.specs.Device.{Gains, GainsPart, Fails};
ghost use Rattle.scp_live_log.specs.declared.kept.LogFault.TheVariants.{Damaged, Failed};
ghost use Rattle.scp_live_config.specs.Texts.{fault_text};
ghost use Rattle.scp_live.specs.Failing as words;

use itoa::Buffer;
use scp_again::below::types::Fault;
use scp_live_config::{ConfigFault, write_fault};
use scp_live_log::{LogFault, Unfit, Wanted};
use scp_report::below::device::{ReportOut, write_text};
use std::alloc::{AllocError, Global};

/// This text, the text of a fault, and a line end.
fn line_behind(alloc: Global, front: &str, fault: &ConfigFault) -> Result<String, AllocError>
    ensures { IfOk result (λ line. string_bytes line ≡ front.now ++ fault_text fault.now ++ codes "\n") }
{
    let mut line = String::from_str(alloc, front)?;
    write_fault(&mut line, fault)?;
    line.push_str("\n")?;
    Ok(line)
}

/// The line that says why a configuration isn't read: `fault 9 KEY: expected WORDS`, or `fault 12 line NUMBER: WORDS` for a text that
/// isn't TOML.
fn config_line(alloc: Global, fault: &ConfigFault) -> Result<String, AllocError>
    ensures line { IfOk result (λ line. string_bytes line ≡ words.config_line fault.now) }
    ensures status { OnOk result (words.config_status fault.now ≡ 1) }
{
    match fault {
        ConfigFault::NoMemory => Err(AllocError),
        ConfigFault::Text { .. } => line_behind(alloc, "fault 12 ", fault),
        ConfigFault::Wrong(_) => line_behind(alloc, "fault 9 ", fault),
    }
}

/// Writes why a configuration isn't read, or that there is no memory for that. Returns the status: 1, or 3 if memory ran out or the
/// writer failed.
pub fn refuse<W: ReportOut>(alloc: Global, fault: &ConfigFault, writer: &mut W) -> u8
    ensures status { result ≢ 0 }
    ensures told { words.IsReported (words.config_line fault.now) (words.config_status fault.now) (record { failures = W.failures writer.old; written = W.written writer.old }) (record { failures = W.failures writer.new; written = W.written writer.new }) result ⊎ words.IsReported (words.fault_line (Failed NoMemory)) 3 (record { failures = W.failures writer.old; written = W.written writer.old }) (record { failures = W.failures writer.new; written = W.written writer.new }) result }
{
    match config_line(alloc, fault) {
        Ok(line) => match write_text(writer, line.as_str()) {
            Ok(()) => 1,
            Err(_) => 3,
        },
        Err(_) => fail(LogFault::Failed(Fault::NoMemory), writer),
    }
}

/// The line of a log at which the entry with this index begins. From 2^64 - 1 on, all have that number.
#[tactic(auto, using(crate::proofs::Reporting::two_lines))]
fn log_line(place: usize) -> u64
    ensures { result ≡ words.log_line place }
{
    (place as u64).saturating_mul(2).saturating_add(2)
}

/// Writes two texts, one after the other. The one refusal is `Fault::Device`, if the writer failed.
fn write_both<W: ReportOut>(writer: &mut W, front: &str, back: &str) -> Result<(), Fault>
    ensures whole { OnOk result (Gains (W.written writer.old) (front.now ++ back.now) (W.written writer.new)) }
    ensures part { OnErr result (GainsPart (W.written writer.old) (front.now ++ back.now) (W.written writer.new)) }
    ensures raised { OnErr result (Fails (W.failures writer.old) (W.failures writer.new)) }
    ensures kept { OnOk result (W.failures writer.new ≡ W.failures writer.old) }
{
    write_text(writer, front)?;
    write_text(writer, back)
}

/// Writes a number in decimal digits between two texts, without memory. The one refusal is `Fault::Device`, if the writer failed.
fn write_number<W: ReportOut>(
    writer: &mut W,
    front: &str,
    number: u64,
    back: &str,
) -> Result<(), Fault>
    ensures whole { OnOk result (Gains (W.written writer.old) (front.now ++ decimal number ++ back.now) (W.written writer.new)) }
    ensures part { OnErr result (GainsPart (W.written writer.old) (front.now ++ decimal number ++ back.now) (W.written writer.new)) }
    ensures raised { OnErr result (Fails (W.failures writer.old) (W.failures writer.new)) }
    ensures kept { OnOk result (W.failures writer.new ≡ W.failures writer.old) }
{
    let mut buffer = Buffer::new();
    let digits = buffer.format(number);
    write_both(writer, front, digits)?;
    write_text(writer, back)
}

/// The end of the line of an entry that doesn't fit.
fn unfit_end(why: Unfit) -> &'static str
    ensures { result.now ≡ words.unfit_end why }
{
    match why {
        Unfit::Chain => ": the chain doesn't fit\n",
        Unfit::NoEvent => ": the line says no event\n",
        Unfit::SendsOtherwise => ": something else is sent\n",
    }
}

/// The line of a log with so many entries, where at least so many are wanted, written without memory.
fn write_least<W: ReportOut>(writer: &mut W, count: u64, least: u64) -> Result<(), Fault>
    ensures whole { OnOk result (Gains (W.written writer.old) ((codes "fault 9 log has " ++ decimal count ++ codes " events, expected at least ") ++ (codes "" ++ decimal least ++ codes "\n")) (W.written writer.new)) }
    ensures part { OnErr result (GainsPart (W.written writer.old) ((codes "fault 9 log has " ++ decimal count ++ codes " events, expected at least ") ++ (codes "" ++ decimal least ++ codes "\n")) (W.written writer.new)) }
    ensures raised { OnErr result (Fails (W.failures writer.old) (W.failures writer.new)) }
    ensures kept { OnOk result (W.failures writer.new ≡ W.failures writer.old) }
{
    write_number(
        writer,
        "fault 9 log has ",
        count,
        " events, expected at least ",
    )?;
    write_number(writer, "", least, "\n")
}

/// The line of a log with so many entries, where another count is wanted, written without memory.
fn write_count<W: ReportOut>(writer: &mut W, count: usize, wanted: Wanted) -> Result<(), Fault>
    ensures whole { OnOk result (Gains (W.written writer.old) (words.count_line count wanted) (W.written writer.new)) }
    ensures part { OnErr result (GainsPart (W.written writer.old) (words.count_line count wanted) (W.written writer.new)) }
    ensures raised { OnErr result (Fails (W.failures writer.old) (W.failures writer.new)) }
    ensures kept { OnOk result (W.failures writer.new ≡ W.failures writer.old) }
{
    match wanted {
        Wanted::AtLeast(least) => write_least(writer, count as u64, least as u64),
        Wanted::New => {
            let back = " events, expected none\n";
            write_number(writer, "fault 9 log has ", count as u64, back)
        }
    }
}

/// The line of an entry that doesn't fit, written without memory.
fn write_damaged<W: ReportOut>(writer: &mut W, place: usize, why: Unfit) -> Result<(), Fault>
    ensures whole { OnOk result (Gains (W.written writer.old) (words.fault_line (Damaged place why)) (W.written writer.new)) }
    ensures part { OnErr result (GainsPart (W.written writer.old) (words.fault_line (Damaged place why)) (W.written writer.new)) }
    ensures raised { OnErr result (Fails (W.failures writer.old) (W.failures writer.new)) }
    ensures kept { OnOk result (W.failures writer.new ≡ W.failures writer.old) }
{
    write_number(
        writer,
        "fault 12 log line ",
        log_line(place),
        unfit_end(why),
    )
}

/// The line of a fault, written without memory.
fn write_fault_line<W: ReportOut>(fault: LogFault, writer: &mut W) -> Result<(), Fault>
    ensures whole { OnOk result (Gains (W.written writer.old) (words.fault_line fault) (W.written writer.new)) }
    ensures part { OnErr result (GainsPart (W.written writer.old) (words.fault_line fault) (W.written writer.new)) }
    ensures raised { OnErr result (Fails (W.failures writer.old) (W.failures writer.new)) }
    ensures kept { OnOk result (W.failures writer.new ≡ W.failures writer.old) }
{
    match fault {
        LogFault::Another => write_text(writer, "fault 9 log of another configuration\n"),
        LogFault::Unbegun => write_text(writer, "fault 9 log isn't begun: --new begins it\n"),
        LogFault::Count(count, wanted) => write_count(writer, count, wanted),
        LogFault::Damaged(place, why) => write_damaged(writer, place, why),
        LogFault::Moved => write_text(writer, "fault 14 log was moved\n"),
        LogFault::Failed(fault) => {
            write_number(writer, "fault ", u64::from(fault.number()), "\n")
        }
    }
}

/// The status of a fault.
fn status_of(fault: LogFault) -> u8
    ensures is { result ≡ words.fault_status fault }
    ensures some { result ≢ 0 }
{
    match fault {
        LogFault::Another | LogFault::Unbegun | LogFault::Count(_, _) | LogFault::Damaged(_, _) =>
            1,
        LogFault::Moved | LogFault::Failed(_) => 3,
    }
}

/// Writes why a node didn't start, or didn't serve its host to the end. Returns the status: 1 if the log doesn't fit, 3 if a call
/// failed, as the writing of this line may.
pub fn fail<W: ReportOut>(fault: LogFault, writer: &mut W) -> u8
    ensures status { result ≢ 0 }
    ensures told { words.IsReported (words.fault_line fault) (words.fault_status fault) (record { failures = W.failures writer.old; written = W.written writer.old }) (record { failures = W.failures writer.new; written = W.written writer.new }) result }
{
    match write_fault_line(fault, writer) {
        Ok(()) => status_of(fault),
        Err(_) => 3,
    }
}
