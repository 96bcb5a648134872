//! A text in parts, which takes no memory to be put together.
ghost use Rattle.std.specs.Prelude.{◌≡◌, ◌++◌, codes, flat_map, OnOk, OnErr, IfErr};
ghost use Rattle.std.specs.Fmt.{decimal};
ghost use Rattle.scp_device.specs.Device.{Gains, Fails};

use crate::device::{ReportOut, write_text};
use itoa::Buffer;
use scp_types::Fault;

/// Writes the parts, one behind the other, without memory. The one refusal is `Fault::Device`, where the writer failed: then the
/// parts before and some of the next were written.
pub fn write_parts<W: ReportOut>(writer: &mut W, parts: &[&str]) -> Result<(), Fault>
    ensures whole { OnOk result (Gains (W.written writer.old) (flat_map (λ part. part.now) parts.now) (W.written writer.new)) }
    ensures cause { IfErr result (λ fault. fault ≡ Fault.Device) }
    ensures raised { OnErr result (Fails (W.failures writer.old) (W.failures writer.new)) }
    ensures kept { OnOk result (W.failures writer.new ≡ W.failures writer.old) }
{
    for part in parts {
        write_text(writer, *part)?;
    }
    Ok(())
}

/// Writes a number in decimal digits between two texts, without memory, and is refused as `write_parts` is.
pub fn write_numbered<W: ReportOut>(
    writer: &mut W,
    front: &str,
    number: u64,
    back: &str,
) -> Result<(), Fault>
    ensures whole { OnOk result (Gains (W.written writer.old) (front.now ++ decimal number ++ back.now) (W.written writer.new)) }
    ensures cause { IfErr result (λ fault. fault ≡ Fault.Device) }
    ensures raised { OnErr result (Fails (W.failures writer.old) (W.failures writer.new)) }
    ensures kept { OnOk result (W.failures writer.new ≡ W.failures writer.old) }
{
    let mut buffer = Buffer::new();
    let digits = buffer.format(number);
    write_parts(writer, &[front, digits, back])
}

/// Writes the line that tells a bad word of a script, by the numbers of its line and of the word, and what was expected there, in two
/// texts. It takes no memory, and is refused as `write_parts` is.
pub fn write_bad_word<W: ReportOut>(
    writer: &mut W,
    line: u64,
    word: u64,
    expected: &str,
    end: &str,
) -> Result<(), Fault>
    ensures whole { OnOk result (Gains (W.written writer.old) (codes "fault 12 line " ++ decimal line ++ codes " at " ++ decimal word ++ codes ": " ++ (expected.now ++ end.now) ++ codes "\n") (W.written writer.new)) }
    ensures cause { IfErr result (λ fault. fault ≡ Fault.Device) }
    ensures raised { OnErr result (Fails (W.failures writer.old) (W.failures writer.new)) }
    ensures kept { OnOk result (W.failures writer.new ≡ W.failures writer.old) }
{
    let mut line_buffer = Buffer::new();
    let mut word_buffer = Buffer::new();
    let line = line_buffer.format(line);
    let word = word_buffer.format(word);
    write_parts(
        writer,
        &[
            "fault 12 line ",
            line,
            " at ",
            word,
            ": ",
            expected,
            end,
            "\n",
        ],
    )
}
