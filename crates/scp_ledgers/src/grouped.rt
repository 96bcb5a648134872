//! Entries, grouped by their ledgers.
ghost use Rattle.std.specs.Prelude.{◌≡◌, ◌++◌, ◌∷◌, [], ℕ, map, nat_eq, OnOk, IfOk, if◌then◌else◌};
ghost use Rattle.scp_shown.specs.Parts.{entry_of};
ghost use Rattle.scp_ledgers.specs.Entries.{of_ledger};
ghost use Rattle.scp_ledgers.specs.inside.Grouped.{entries_at};

use scp_shown::Part;
use std::alloc::{AllocError, Global};
use std::collections::BTreeMap;

/// Takes out the entries of a ledger.
fn take_parts<'a>(
    alloc: Global,
    grouped: &mut BTreeMap<u32, Vec<Part<'a>>>,
    number: u32,
) -> Vec<Part<'a>>
    ensures parts { map entry_of result.items ≡ entries_at grouped.old number }
    ensures others { (other : ℕ) → entries_at grouped.new other ≡ (if nat_eq number other then [] else entries_at grouped.old other) }
{
    match grouped.remove(&number) {
        Some(parts) => parts,
        None => Vec::new(alloc),
    }
}

/// Puts entries in as those of a ledger.
fn put_parts<'a>(
    grouped: &mut BTreeMap<u32, Vec<Part<'a>>>,
    number: u32,
    parts: Vec<Part<'a>>,
) -> Result<(), AllocError>
    ensures { OnOk result ((other : ℕ) → entries_at grouped.new other ≡ (if nat_eq number other then map entry_of parts.entry.items else entries_at grouped.old other)) }
{
    grouped.insert(number, parts)?;
    Ok(())
}

/// Adds an entry to those of a ledger.
fn add_to<'a>(
    alloc: Global,
    grouped: &mut BTreeMap<u32, Vec<Part<'a>>>,
    number: u32,
    part: Part<'a>,
) -> Result<(), AllocError>
    ensures { OnOk result ((other : ℕ) → entries_at grouped.new other ≡ (if nat_eq number other then entries_at grouped.old number ++ entry_of part.entry ∷ [] else entries_at grouped.old other)) }
{
    let mut parts = take_parts(alloc, grouped, number);
    parts.push(part)?;
    put_parts(grouped, number, parts)
}

/// Adds an entry to those of its ledger.
fn sort_in<'a>(
    alloc: Global,
    grouped: &mut BTreeMap<u32, Vec<Part<'a>>>,
    part: Part<'a>,
) -> Result<(), AllocError>
    ensures { OnOk result ((n : ℕ) → entries_at grouped.new n ≡ (if nat_eq part.entry.ledger.now.number n then entries_at grouped.old n ++ entry_of part.entry ∷ [] else entries_at grouped.old n)) }
{
    add_to(alloc, grouped, part.ledger.number, part)
}

/// The entries of each ledger, in their order. It fails only if it is out of memory.
pub(crate) fn grouped<'a>(
    alloc: Global,
    parts: &[Part<'a>],
) -> Result<BTreeMap<u32, Vec<Part<'a>>>, AllocError>
    ensures { IfOk result (λ grouped. (n : ℕ) → entries_at grouped n ≡ of_ledger (map entry_of parts.now) n) }
{
    let mut grouped = BTreeMap::new(alloc);
    for part in parts {
        sort_in(alloc, &mut grouped, *part)?;
    }
    Ok(grouped)
}
