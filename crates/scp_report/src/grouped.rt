//! The entries of a journal, grouped by connection.
ghost use Rattle.std.specs.Prelude.{◌≡◌, ◌++◌, ◌∷◌, [], map, OnOk, IfOk, if◌then◌else◌};
ghost use Rattle.std.specs.Ordering.{is_eq};
ghost use Rattle.scp_core.specs.scp_types.specs.declared.names.ConnId.{ConnId};
ghost use Rattle.scp_core.specs.scp_types.specs.Order.{conn_cmp};
ghost use Rattle.scp_core.specs.scp_theorem.specs.Fates.{conn_of};
ghost use Rattle.scp_report.specs.Json.{fates_on};
ghost use Rattle.scp_report.specs.inside.Grouped.{fates_at};

use crate::settled::conn_of_fate;
use scp_core::Fate;
use scp_core::below::types::ConnId;
use std::alloc::{AllocError, Global};
use std::collections::BTreeMap;

/// Takes out the entries of a connection.
fn take_fates<'a>(
    alloc: Global,
    grouped: &mut BTreeMap<ConnId, Vec<&'a Fate>>,
    conn: ConnId,
) -> Vec<&'a Fate>
    ensures fates { map (λ fate. fate.now) result.items ≡ fates_at grouped.old conn }
    ensures others { (other : ConnId) → fates_at grouped.new other ≡ (if is_eq (conn_cmp conn other) then [] else fates_at grouped.old other) }
{
    match grouped.remove(&conn) {
        Some(fates) => fates,
        None => Vec::new(alloc),
    }
}

/// Puts entries in as those of a connection.
fn put_fates<'a>(
    grouped: &mut BTreeMap<ConnId, Vec<&'a Fate>>,
    conn: ConnId,
    fates: Vec<&'a Fate>,
) -> Result<(), AllocError>
    ensures { OnOk result ((other : ConnId) → fates_at grouped.new other ≡ (if is_eq (conn_cmp conn other) then map (λ fate. fate.now) fates.entry.items else fates_at grouped.old other)) }
{
    grouped.insert(conn, fates)?;
    Ok(())
}

/// Adds an entry to those of its connection.
fn sort_in<'a>(
    alloc: Global,
    grouped: &mut BTreeMap<ConnId, Vec<&'a Fate>>,
    fate: &'a Fate,
) -> Result<(), AllocError>
    ensures { OnOk result ((conn : ConnId) → fates_at grouped.new conn ≡ (if is_eq (conn_cmp (conn_of fate.now) conn) then fates_at grouped.old (conn_of fate.now) ++ fate.now ∷ [] else fates_at grouped.old conn)) }
{
    let conn = conn_of_fate(fate);
    let mut fates = take_fates(alloc, grouped, conn);
    fates.push(fate)?;
    put_fates(grouped, conn, fates)?;
    Ok(())
}

/// The entries of each connection, in one pass over the journal.
pub fn grouped<'a>(
    alloc: Global,
    journal: &'a [Fate],
) -> Result<BTreeMap<ConnId, Vec<&'a Fate>>, AllocError>
    ensures { IfOk result (λ grouped. (conn : ConnId) → fates_at grouped conn ≡ fates_on journal.now conn) }
{
    let mut grouped = BTreeMap::new(alloc);
    for fate in journal {
        sort_in(alloc, &mut grouped, fate)?;
    }
    Ok(grouped)
}
