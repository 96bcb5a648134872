//! The lines of a report.
ghost use Rattle.std.specs.Prelude.{◌≡◌, ◌+◌, ◌++◌, ◌∷◌, [], ℕ, List, map, length, filter, flat_map, cond, IfOk, OnOk, IsOkUnless};
ghost use Rattle.scp_shown.specs.scp_history.specs.declared.line.Line.{Line as OneLine};
ghost use Rattle.scp_shown.specs.LedgerLines.{AreLedgerLines};
ghost use Rattle.scp_ledgers.specs.Report.{record_lines, AreEach, is_for_all, IsReport};
ghost use Rattle.scp_ledgers.specs.inside.Grouped.{entries_at};

use crate::ending::{add_end, are_for_all};
use crate::entries::{numbers_in, parts_of};
use crate::grouped::grouped;
use crate::span::Span;
use scp_shown::below::audit::Archive;
use scp_shown::below::history::{Line, add_archive_lines};
use scp_shown::below::types::Fault;
use scp_shown::{Part, ledger_lines};
use std::alloc::{AllocError, Global};
use std::collections::BTreeMap;

/// Adds the lines of the records that aren't read.
fn add_records(lines: &mut Vec<Line>, archives: &[Archive]) -> Result<(), AllocError>
    ensures { OnOk result (lines.new.items ≡ lines.old.items ++ record_lines 1 archives.now) }
{
    for (at, archive) in archives.iter().enumerate() {
        add_archive_lines(lines, at + 1, archive)?;
    }
    Ok(())
}

/// The lines of a ledger, by its entries among those that are grouped.
fn lines_of(
    alloc: Global,
    grouped: &BTreeMap<u32, Vec<Part<'_>>>,
    number: u32,
) -> Result<Vec<Line>, Fault>
    ensures lines { IfOk result (λ lines. AreLedgerLines number (entries_at grouped.now number) lines.items) }
    ensures only_memory { IsOkUnless result Fault.NoMemory }
{
    match grouped.get(&number) {
        Some(parts) => ledger_lines(alloc, number, parts.as_slice()),
        None => ledger_lines(alloc, number, &[]),
    }
}

/// Adds a number, if it is asked for.
fn add_number(certified: &mut Vec<u32>, number: u32, is_certified: bool) -> Result<(), AllocError>
    ensures { OnOk result (certified.new.items ≡ certified.old.items ++ cond is_certified (number ∷ []) []) }
{
    if !is_certified {
        return Ok(());
    }
    certified.push(number)?;
    Ok(())
}

/// Adds the lines of a ledger, and its number to those that are certified for all, if it is.
fn add_ledger(
    alloc: Global,
    lines: &mut Vec<Line>,
    certified: &mut Vec<u32>,
    grouped: &BTreeMap<u32, Vec<Part<'_>>>,
    number: u32,
) -> Result<(), Fault>
    ensures added { OnOk result ((here : List OneLine) × AreLedgerLines number (entries_at grouped.now number) here × (lines.new.items ≡ lines.old.items ++ here) × (certified.new.items ≡ certified.old.items ++ cond (is_for_all here) (number ∷ []) [])) }
    ensures only_memory { IsOkUnless result Fault.NoMemory }
{
    let mut here = lines_of(alloc, grouped, number)?;
    let is_certified = are_for_all(here.as_slice());
    add_number(certified, number, is_certified)?;
    lines.append(&mut here)?;
    Ok(())
}

/// Adds the lines of each of these ledgers. Returns the numbers of those that are certified for all.
fn add_ledgers(
    alloc: Global,
    lines: &mut Vec<Line>,
    grouped: &BTreeMap<u32, Vec<Part<'_>>>,
    numbers: &[u32],
) -> Result<Vec<u32>, Fault>
    ensures added { IfOk result (λ certified. (each : List (List OneLine)) × AreEach (entries_at grouped.now) numbers.now each × (lines.new.items ≡ lines.old.items ++ flat_map (λ (l : List OneLine). l) each) × (length certified.items ≡ length (filter is_for_all each))) }
    ensures only_memory { IsOkUnless result Fault.NoMemory }
{
    let mut certified = Vec::new(alloc);
    for number in numbers {
        add_ledger(alloc, lines, &mut certified, grouped, *number)?;
    }
    Ok(certified)
}

/// The lines of a report on these archives: those of the records that aren't read, those of each ledger that is shown, ascending, and the last one. The
/// only refusal is `Fault::NoMemory`.
pub(crate) fn report(alloc: Global, span: Span, archives: &[Archive]) -> Result<Vec<Line>, Fault>
    ensures report { IfOk result (λ lines. IsReport span archives.now lines.items) }
    ensures only_memory { IsOkUnless result Fault.NoMemory }
{
    let parts = parts_of(alloc, span, archives)?;
    let entries = parts.as_slice();
    let list = numbers_in(alloc, entries)?;
    let numbers = list.as_slice();
    let grouped = grouped(alloc, entries)?;
    let mut lines = Vec::new(alloc);
    add_records(&mut lines, archives)?;
    let certified = add_ledgers(alloc, &mut lines, &grouped, numbers)?;
    add_end(&mut lines, numbers, certified.len())?;
    Ok(lines)
}
