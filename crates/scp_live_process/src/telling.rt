//! The lines that report bad lines, and the line that reports a torn end.
ghost use Rattle.std.specs.Prelude.{◌≡◌, ◌++◌, OnOk, string_bytes};
ghost use Rattle.scp_live_process.specs.Answers.{bad_line};
ghost use Rattle.scp_live_process.specs.Starting as start;

use std::alloc::AllocError;

/// Adds the line that reports a bad line: `bad NUMBER WORD expected WORDS`.
pub fn write_bad(
    text: &mut String,
    number: u64,
    word: usize,
    expected: &str,
) -> Result<(), AllocError>
    ensures { OnOk result (string_bytes text.new ≡ string_bytes text.old ++ bad_line number word expected.now) }
{
    writeln!(text, "bad {number} {word} expected {expected}")
}

/// Adds the line that reports a torn end, if bytes were cut off: `torn BYTES EVENTS`.
pub fn write_torn(text: &mut String, bytes: usize, events: usize) -> Result<(), AllocError>
    ensures { OnOk result (string_bytes text.new ≡ string_bytes text.old ++ start.torn_line bytes events) }
{
    if bytes == 0 {
        return Ok(());
    }
    writeln!(text, "torn {bytes} {events}")
}
