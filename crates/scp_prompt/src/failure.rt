//! Why a command failed, and how the failure is reported.
ghost use Rattle.std.specs.Prelude.{◌≡◌, ◌++◌, ◌≤◌, ℕ, List, [], OnOk, OnErr, codes};
ghost use Rattle.std.specs.Fmt.{decimal};
ghost use Rattle.scp_device.specs.Device.{Gains, Fails};
ghost use Rattle.scp_device.specs.Expected.{number_text};
ghost use Rattle.scp_prompt.specs.Failing.{stop_front, stop_number, stop_back, stage_text, stage_word, stop_end, status_of, settled_stop, settled_line, counted_line, IsToldLine};

use crate::places::{Place, write_behind, write_place};
use itoa::Buffer;
use scp_device::below::types::{Fault, Stage};
use scp_device::{BadLine, ReportOut, write_bad_word, write_numbered, write_text};
use std::alloc::Global;

/// What stopped a play.
#[derive(Clone, Copy)]
pub struct Stop {
    /// The line, from 1 on, if it is known.
    pub line: Option<usize>,
    /// The node that failed, or 0.
    pub node: u8,
    /// Why the node failed, or what had no room.
    pub fault: Fault,
}

/// Why a command failed.
#[derive(Clone, Copy)]
pub enum Failure {
    /// A word of the input is refused.
    Word(BadLine),
    /// This line, from 1 on, is refused.
    Line(usize),
    /// The input has more bytes than this.
    TooLong(usize),
    /// A play was stopped.
    Stopped(Stop),
    /// Memory ran out.
    NoMemory,
    /// The input couldn't be read.
    Unread,
    /// The output couldn't be written.
    Unwritten,
}

/// The exit status of a failure: 1 for a script or a message, 3 for anything else.
pub fn status(failure: &Failure) -> u8
    ensures { result ≡ status_of failure.now }
{
    match failure {
        Failure::Word(_) | Failure::Line(_) | Failure::TooLong(_) => 1,
        Failure::Stopped(_) | Failure::NoMemory | Failure::Unread | Failure::Unwritten => 3,
    }
}

/// A number in decimal digits, or nothing if there is none.
fn digits_of<'a>(buffer: &'a mut Buffer, number: Option<u64>) -> &'a str
    ensures { result.now ≡ number_text number }
{
    match number {
        Some(number) => buffer.format(number),
        None => "",
    }
}

// ---- the lines in the fixed form

/// The words after the node in the line, in the fixed form, of a stage that failed.
fn end_of_stage(stage: Stage) -> &'static str
    ensures { result.now ≡ codes " " ++ stage_word stage ++ codes "\n" }
{
    match stage {
        Stage::Reader => " reader\n",
        Stage::Pend => " pend\n",
        Stage::Slot => " slot\n",
        Stage::Apply => " apply\n",
    }
}

/// Writes the line, in the fixed form, of what stopped a play.
fn write_settled_stop<W: ReportOut>(writer: &mut W, node: u8, fault: Fault) -> Result<(), Fault>
    ensures whole { OnOk result (Gains (W.written writer.old) (settled_stop node fault) (W.written writer.new)) }
    ensures raised { OnErr result (Fails (W.failures writer.old) (W.failures writer.new)) }
    ensures kept { OnOk result (W.failures writer.new ≡ W.failures writer.old) }
{
    let number = u64::from(node);
    match fault {
        Fault::Failed => write_numbered(writer, "fault 10 node ", number, "\n"),
        Fault::Refused(stage) => {
            write_numbered(writer, "fault 13 node ", number, end_of_stage(stage))
        }
        _ => write_numbered(writer, "fault ", u64::from(fault.number()), "\n"),
    }
}

/// Writes the line, in the fixed form, of a bad word.
fn write_settled_word<W: ReportOut>(writer: &mut W, bad: &BadLine) -> Result<(), Fault>
    ensures whole { OnOk result (Gains (W.written writer.old) (settled_line (Failure.Word bad.now)) (W.written writer.new)) }
    ensures raised { OnErr result (Fails (W.failures writer.old) (W.failures writer.new)) }
    ensures kept { OnOk result (W.failures writer.new ≡ W.failures writer.old) }
{
    let mut buffer = Buffer::new();
    let expected = bad.bad.expected;
    let end = digits_of(&mut buffer, expected.number());
    let word = bad.bad.word as u64;
    write_bad_word(writer, bad.line as u64, word, expected.words(), end)
}

/// Writes the line of a failure in the fixed form. It takes no memory. The only refusal is `Fault::Device`, if the writer failed.
pub fn write_settled<W: ReportOut>(writer: &mut W, failure: &Failure) -> Result<(), Fault>
    ensures whole { OnOk result (Gains (W.written writer.old) (settled_line failure.now) (W.written writer.new)) }
    ensures raised { OnErr result (Fails (W.failures writer.old) (W.failures writer.new)) }
    ensures kept { OnOk result (W.failures writer.new ≡ W.failures writer.old) }
{
    match failure {
        Failure::Word(bad) => write_settled_word(writer, bad),
        Failure::Line(line) => write_numbered(writer, "fault 12 line ", *line as u64, "\n"),
        Failure::TooLong(_) => write_text(writer, "fault 3\n"),
        Failure::Stopped(stop) => write_settled_stop(writer, stop.node, stop.fault),
        Failure::NoMemory => write_text(writer, "fault 1\n"),
        Failure::Unread | Failure::Unwritten => write_text(writer, "fault 14\n"),
    }
}

// ---- the lines for people

/// Writes a name, a colon, and a number between two texts.
fn write_counted<W: ReportOut>(
    writer: &mut W,
    name: &str,
    front: &str,
    number: u64,
    back: &str,
) -> Result<(), Fault>
    ensures whole { OnOk result (Gains (W.written writer.old) (counted_line name.now (front.now ++ decimal number ++ back.now)) (W.written writer.new)) }
    ensures raised { OnErr result (Fails (W.failures writer.old) (W.failures writer.new)) }
    ensures kept { OnOk result (W.failures writer.new ≡ W.failures writer.old) }
{
    let mut buffer = Buffer::new();
    let digits = buffer.format(number);
    write_behind(writer, name, &[": ", front, digits, back, "\n"])
}

/// The words before the number in the line of what stopped a play.
fn front_of(fault: Fault) -> &'static str
    ensures { result.now ≡ stop_front fault }
{
    match fault {
        Fault::Failed | Fault::Refused(_) => "node ",
        _ => "fault ",
    }
}

/// The node that failed, or the fault's number.
fn number_of(node: u8, fault: Fault) -> u64
    ensures { result ≡ stop_number node fault }
{
    match fault {
        Fault::Failed | Fault::Refused(_) => u64::from(node),
        _ => u64::from(fault.number()),
    }
}

/// The words for the stage of a node that failed.
fn text_of_stage(stage: Stage) -> &'static str
    ensures { result.now ≡ stage_text stage }
{
    match stage {
        Stage::Reader => " failed in a reader of its links",
        Stage::Pend => " failed where messages wait for quorum sets",
        Stage::Slot => " failed in its slots",
        Stage::Apply => " failed in its applier",
    }
}

/// The words after the number.
fn back_of(fault: Fault) -> &'static str
    ensures { result.now ≡ stop_back fault }
{
    match fault {
        Fault::Failed => " failed: memory ran out, or its journal is full",
        Fault::Refused(stage) => text_of_stage(stage),
        Fault::Full => ": a queue had no room, also after a settle",
        Fault::NotOpen => ": a link stood otherwise than the lines say",
        _ => "",
    }
}

/// Writes the line of what stopped a play at a line.
fn write_stop_at<W: ReportOut>(
    writer: &mut W,
    name: &str,
    line: usize,
    stop: &Stop,
) -> Result<(), Fault>
    ensures whole { OnOk result (Gains (W.written writer.old) (counted_line (name.now ++ codes ":" ++ decimal line) (stop_front stop.now.fault ++ decimal (stop_number stop.now.node stop.now.fault) ++ stop_back stop.now.fault)) (W.written writer.new)) }
    ensures raised { OnErr result (Fails (W.failures writer.old) (W.failures writer.new)) }
    ensures kept { OnOk result (W.failures writer.new ≡ W.failures writer.old) }
{
    let mut line_buffer = Buffer::new();
    let mut buffer = Buffer::new();
    let line = line_buffer.format(line);
    let digits = buffer.format(number_of(stop.node, stop.fault));
    let front = front_of(stop.fault);
    write_behind(
        writer,
        name,
        &[":", line, ": ", front, digits, back_of(stop.fault), "\n"],
    )
}

/// Writes the line of what stopped a play.
fn write_stop<W: ReportOut>(writer: &mut W, name: &str, stop: &Stop) -> Result<(), Fault>
    ensures whole { OnOk result (Gains (W.written writer.old) (stop_end name.now stop.now) (W.written writer.new)) }
    ensures raised { OnErr result (Fails (W.failures writer.old) (W.failures writer.new)) }
    ensures kept { OnOk result (W.failures writer.new ≡ W.failures writer.old) }
{
    match stop.line {
        Some(line) => write_stop_at(writer, name, line, stop),
        None => {
            let number = number_of(stop.node, stop.fault);
            write_counted(
                writer,
                name,
                front_of(stop.fault),
                number,
                back_of(stop.fault),
            )
        }
    }
}

/// Writes the line which reports that an input's line is refused.
fn write_line_at<W: ReportOut>(writer: &mut W, name: &str, line: usize) -> Result<(), Fault>
    ensures whole { OnOk result (Gains (W.written writer.old) (counted_line (name.now ++ codes ":" ++ decimal line) (codes "the line is refused")) (W.written writer.new)) }
    ensures raised { OnErr result (Fails (W.failures writer.old) (W.failures writer.new)) }
    ensures kept { OnOk result (W.failures writer.new ≡ W.failures writer.old) }
{
    let mut buffer = Buffer::new();
    let digits = buffer.format(line);
    write_behind(writer, name, &[":", digits, ": the line is refused\n"])
}

/// Writes the line of a bad word.
fn write_word<W: ReportOut>(
    alloc: Global,
    writer: &mut W,
    name: &str,
    text: &[u8],
    bad: &BadLine,
) -> Result<(), Fault>
    ensures whole { OnOk result ((line : List ℕ) × IsToldLine name.now text.now [] (Failure.Word bad.now) line × Gains (W.written writer.old) line (W.written writer.new)) }
    ensures raised { OnErr result (Fails (W.failures writer.old) (W.failures writer.new)) }
    ensures kept { OnOk result (W.failures writer.new ≡ W.failures writer.old) }
{
    let place = Place {
        name,
        line: bad.line,
        word: bad.bad.word,
    };
    let mut buffer = Buffer::new();
    let expected = bad.bad.expected;
    let end = digits_of(&mut buffer, expected.number());
    write_place(alloc, writer, text, &place, expected.words(), end)
}

/// Writes the line that shows people a failure of the input with this name and these bytes. `why` says why a stream failed. The only refusal
/// is `Fault::Device`, if the writer failed.
pub fn write_failure<W: ReportOut>(
    alloc: Global,
    writer: &mut W,
    name: &str,
    text: &[u8],
    why: &str,
    failure: &Failure,
) -> Result<(), Fault>
    ensures whole { OnOk result ((line : List ℕ) × IsToldLine name.now text.now why.now failure.now line × Gains (W.written writer.old) line (W.written writer.new)) }
    ensures raised { OnErr result (Fails (W.failures writer.old) (W.failures writer.new)) }
    ensures kept { OnOk result (W.failures writer.new ≡ W.failures writer.old) }
{
    match failure {
        Failure::Word(bad) => write_word(alloc, writer, name, text, bad),
        Failure::Line(line) => write_line_at(writer, name, *line),
        Failure::TooLong(limit) => {
            write_counted(writer, name, "it has more than ", *limit as u64, " bytes")
        }
        Failure::Stopped(stop) => write_stop(writer, name, stop),
        Failure::NoMemory => write_behind(writer, name, &[": memory ran out\n"]),
        Failure::Unread => write_behind(writer, name, &[": ", why, "\n"]),
        Failure::Unwritten => write_behind(writer, "<stdout>", &[": ", why, "\n"]),
    }
}
