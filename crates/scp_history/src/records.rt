//! The lines of an archive's records.
ghost use Rattle.std.specs.Prelude.{◌≡◌, ◌+◌, ◌++◌, length, OnOk};
ghost use Rattle.scp_history.specs.Records.{unread_line, unread_lines, cut_line, archive_lines};

use crate::line::Line;
use scp_audit::{Archive, Record};
use std::alloc::AllocError;

/// Adds the line of a record, if it isn't read.
fn add_unread(
    lines: &mut Vec<Line>,
    file: usize,
    number: usize,
    found: &Record,
) -> Result<(), AllocError>
    ensures { OnOk result (lines.new.items ≡ lines.old.items ++ unread_line file number found.now) }
{
    match found {
        Record::Ledger(_) => Ok(()),
        Record::Unread(why) => {
            lines.push(Line::Unread {
                file,
                number,
                why: *why,
            })?;
            Ok(())
        }
    }
}

/// Adds the lines of the records that aren't read.
fn add_unread_lines(
    lines: &mut Vec<Line>,
    file: usize,
    records: &[Record],
) -> Result<(), AllocError>
    ensures { OnOk result (lines.new.items ≡ lines.old.items ++ unread_lines file 1 records.now) }
{
    for (at, found) in records.iter().enumerate() {
        add_unread(lines, file, at + 1, found)?;
    }
    Ok(())
}

/// Adds the line of an archive that is cut, if it is. The number is that of the record that it ends within.
fn add_cut(
    lines: &mut Vec<Line>,
    file: usize,
    records: &[Record],
    is_cut: bool,
) -> Result<(), AllocError>
    ensures { OnOk result (lines.new.items ≡ lines.old.items ++ cut_line file (length records.now + 1) is_cut) }
{
    if !is_cut {
        return Ok(());
    }
    let number = records.len() + 1;
    lines.push(Line::Cut { file, number })?;
    Ok(())
}

/// Adds the lines of an archive of these records.
fn add_lines_of(
    lines: &mut Vec<Line>,
    file: usize,
    records: &[Record],
    is_cut: bool,
) -> Result<(), AllocError>
    ensures { OnOk result (lines.new.items ≡ lines.old.items ++ (unread_lines file 1 records.now ++ cut_line file (length records.now + 1) is_cut)) }
{
    add_unread_lines(lines, file, records)?;
    add_cut(lines, file, records, is_cut)
}

/// Adds the lines of the archive with this number: its records that aren't read, and whether it is cut.
pub fn add_archive_lines(
    lines: &mut Vec<Line>,
    file: usize,
    archive: &Archive,
) -> Result<(), AllocError>
    ensures { OnOk result (lines.new.items ≡ lines.old.items ++ archive_lines file archive.now) }
{
    add_lines_of(lines, file, archive.records.as_slice(), archive.is_cut)
}
