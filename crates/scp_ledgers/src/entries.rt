//! The entries of archives.
ghost use Rattle.std.specs.Prelude.{◌≡◌, ◌++◌, ◌∷◌, [], cond, map, flat_map, IfOk, OnOk};
ghost use Rattle.std.specs.BTreeSet.{keys};
ghost use Rattle.scp_shown.specs.Parts.{entry_of};
ghost use Rattle.scp_ledgers.specs.Entries.{is_within, record_entries, entries_of, numbers_of};

use crate::span::Span;
use scp_shown::Part;
use scp_shown::below::audit::{Archive, Ledger, Record};
use std::alloc::{AllocError, Global};
use std::collections::BTreeSet;

/// Whether the ledger is one of those that are shown.
fn is_shown(span: Span, ledger: &Ledger) -> bool
    ensures { result ≡ is_within span ledger.now }
{
    span.first <= ledger.number && ledger.number <= span.last
}

/// Adds an entry, if its ledger is shown.
fn add_entry<'a>(
    parts: &mut Vec<Part<'a>>,
    span: Span,
    file: usize,
    ledger: &'a Ledger,
) -> Result<(), AllocError>
    ensures { OnOk result (map entry_of parts.new.items ≡ map entry_of parts.old.items ++ cond (is_within span ledger.now) ((file, ledger.now) ∷ []) []) }
{
    if !is_shown(span, ledger) {
        return Ok(());
    }
    parts.push(Part { file, ledger })?;
    Ok(())
}

/// Adds the entry that a record is, if its ledger is shown.
fn add_record<'a>(
    parts: &mut Vec<Part<'a>>,
    span: Span,
    file: usize,
    found: &'a Record,
) -> Result<(), AllocError>
    ensures { OnOk result (map entry_of parts.new.items ≡ map entry_of parts.old.items ++ record_entries span file found.now) }
{
    match found {
        Record::Ledger(ledger) => add_entry(parts, span, file, ledger),
        Record::Unread(_) => Ok(()),
    }
}

/// Adds the entries among an archive's records whose ledgers are shown.
fn add_records<'a>(
    parts: &mut Vec<Part<'a>>,
    span: Span,
    file: usize,
    records: &'a [Record],
) -> Result<(), AllocError>
    ensures { OnOk result (map entry_of parts.new.items ≡ map entry_of parts.old.items ++ flat_map (record_entries span file) records.now) }
{
    for found in records {
        add_record(parts, span, file, found)?;
    }
    Ok(())
}

/// The entries of the ledgers that are shown, in the order of the archives and of their records. It fails only if it is out of memory.
pub(crate) fn parts_of<'a>(
    alloc: Global,
    span: Span,
    archives: &'a [Archive],
) -> Result<Vec<Part<'a>>, AllocError>
    ensures { IfOk result (λ parts. map entry_of parts.items ≡ entries_of span archives.now) }
{
    let mut parts = Vec::new(alloc);
    for (at, archive) in archives.iter().enumerate() {
        add_records(&mut parts, span, at + 1, archive.records.as_slice())?;
    }
    Ok(parts)
}

/// The numbers of the ledgers of these entries.
fn set_of_numbers(alloc: Global, parts: &[Part<'_>]) -> Result<BTreeSet<u32>, AllocError>
    ensures { IfOk result (λ numbers. keys numbers ≡ numbers_of (map entry_of parts.now)) }
{
    let mut numbers = BTreeSet::new(alloc);
    for part in parts {
        numbers.insert(part.ledger.number)?;
    }
    Ok(numbers)
}

/// The numbers of a set, ascending.
fn list_of(alloc: Global, numbers: &BTreeSet<u32>) -> Result<Vec<u32>, AllocError>
    ensures { IfOk result (λ list. list.items ≡ keys numbers.now) }
{
    let mut list = Vec::new(alloc);
    for number in numbers {
        list.push(*number)?;
    }
    Ok(list)
}

/// The numbers of the ledgers of these entries, ascending, each once. It fails only if it is out of memory.
pub(crate) fn numbers_in(alloc: Global, parts: &[Part<'_>]) -> Result<Vec<u32>, AllocError>
    ensures { IfOk result (λ numbers. numbers.items ≡ numbers_of (map entry_of parts.now)) }
{
    let numbers = set_of_numbers(alloc, parts)?;
    list_of(alloc, &numbers)
}
