//! The text of a report.
ghost use Rattle.std.specs.Prelude.{◌≡◌, ◌++◌, OnOk, string_bytes};
ghost use Rattle.scp_ledgers.specs.Report.{report_text};

use scp_shown::below::history::{Line, write_line};
use std::alloc::AllocError;

/// Adds the text of a report with these lines. A node is shown by its address or, where numbers are asked for and the first 31 bytes of its id are
/// 0, by the last one.
pub fn write_report(text: &mut String, by_number: bool, lines: &[Line]) -> Result<(), AllocError>
    ensures { OnOk result (string_bytes text.new ≡ string_bytes text.old ++ report_text by_number lines.now) }
{
    for line in lines {
        write_line(text, by_number, line)?;
    }
    Ok(())
}
