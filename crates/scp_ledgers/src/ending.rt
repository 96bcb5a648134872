//! The line at the end of a report.
ghost use Rattle.std.specs.Prelude.{◌≡◌, ◌++◌, OnOk};
ghost use Rattle.std.specs.List.{list_any};
ghost use Rattle.scp_ledgers.specs.Report.{is_alarm, is_for_all, last_from, end_lines};

use scp_shown::below::history::{Line, Sums};
use std::alloc::AllocError;

/// Whether the line says that a ledger isn't certified for all.
fn alarms(line: &Line) -> bool
    ensures { result ≡ is_alarm line.now }
{
    matches!(line, Line::Uncertified { .. } | Line::Split { .. })
}

/// Whether a line says that a ledger isn't certified for all.
fn has_alarm(lines: &[Line]) -> bool
    ensures { result ≡ list_any is_alarm lines.now }
{
    lines.iter().any(|line| alarms(line))
}

/// Whether a ledger of these lines is certified for all.
pub(crate) fn are_for_all(lines: &[Line]) -> bool
    ensures { result ≡ is_for_all lines.now }
{
    !has_alarm(lines)
}

/// The last of these numbers.
fn last_of(first: u32, rest: &[u32]) -> u32
    ensures { result ≡ last_from first rest.now }
{
    match rest.last() {
        Some(last) => *last,
        None => first,
    }
}

/// Adds the line at the end, if there are ledgers. Of them this many are certified for all.
pub(crate) fn add_end(
    lines: &mut Vec<Line>,
    numbers: &[u32],
    certified: usize,
) -> Result<(), AllocError>
    ensures { OnOk result (lines.new.items ≡ lines.old.items ++ end_lines numbers.now certified) }
{
    let Some((first, rest)) = numbers.split_first() else {
        return Ok(());
    };
    let last = last_of(*first, rest);
    let between = last.saturating_sub(*first) as usize;
    lines.push(Line::End(Sums {
        first: *first,
        last,
        missing: between.saturating_sub(rest.len()) as u32,
        ledgers: numbers.len(),
        certified,
    }))?;
    Ok(())
}
