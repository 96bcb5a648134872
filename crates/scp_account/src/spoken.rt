//! The ballot statements that were taken as fresh, sorted by slot.
ghost use Rattle.std.specs.Prelude.{◌≡◌, ◌++◌, ◌∷◌, [], ℕ, filter, map, nat_eq, option_map, IfOk, OnOk, if◌then◌else◌};
ghost use Rattle.scp_line.specs.scp_ledger.specs.Journal.{fresh_heard};
ghost use Rattle.scp_account.specs.Spoken.{last_of as last};
ghost use Rattle.scp_account.specs.inside.Spoken.{ballot_in, is_in_slot, is_its, spoken, spoken_at};

use scp_line::below::envelope::{Pledges, Statement};
use scp_line::below::ledger::{Fate, Verdict};
use scp_line::below::types::NodeId;
use scp_line::below::wire::Message;
use std::alloc::{AllocError, Global};
use std::collections::BTreeMap;

/// The statement of an entry, if it is a ballot statement that was taken as fresh.
fn fresh_ballot(fate: &Fate) -> Option<&Statement>
    ensures { option_map (λ s. s.now) result ≡ ballot_in (fresh_heard fate.now) }
{
    let Fate::Taken {
        message: Message::Envelope(envelope),
        set: Some(_),
        verdict: Verdict::Fresh,
        ..
    } = fate
    else {
        return None;
    };
    let statement = &envelope.get().statement;
    match statement.pledges {
        Pledges::Nominate(_) => None,
        _ => Some(statement),
    }
}

/// Takes the entries of a slot out of the map.
fn take_entries<'a>(
    alloc: Global,
    spoken: &mut BTreeMap<u64, Vec<&'a Fate>>,
    slot: u64,
) -> Vec<&'a Fate>
    ensures entries { map (λ fate. fate.now) result.items ≡ spoken_at spoken.old slot }
    ensures others { (other : ℕ) → spoken_at spoken.new other ≡ (if nat_eq slot other then [] else spoken_at spoken.old other) }
{
    match spoken.remove(&slot) {
        Some(entries) => entries,
        None => Vec::new(alloc),
    }
}

/// Puts entries into the map as those of a slot.
fn put_entries<'a>(
    spoken: &mut BTreeMap<u64, Vec<&'a Fate>>,
    slot: u64,
    entries: Vec<&'a Fate>,
) -> Result<(), AllocError>
    ensures { OnOk result ((other : ℕ) → spoken_at spoken.new other ≡ (if nat_eq slot other then map (λ fate. fate.now) entries.entry.items else spoken_at spoken.old other)) }
{
    spoken.insert(slot, entries)?;
    Ok(())
}

/// Adds an entry to those of a slot.
fn add_to<'a>(
    alloc: Global,
    spoken: &mut BTreeMap<u64, Vec<&'a Fate>>,
    slot: u64,
    fate: &'a Fate,
) -> Result<(), AllocError>
    ensures { OnOk result ((other : ℕ) → spoken_at spoken.new other ≡ (if nat_eq slot other then spoken_at spoken.old slot ++ fate.now ∷ [] else spoken_at spoken.old other)) }
{
    let mut entries = take_entries(alloc, spoken, slot);
    entries.push(fate)?;
    put_entries(spoken, slot, entries)
}

/// Adds an entry to those of its slot, if it is a ballot statement that was taken as fresh.
fn sort_in<'a>(
    alloc: Global,
    spoken: &mut BTreeMap<u64, Vec<&'a Fate>>,
    fate: &'a Fate,
) -> Result<(), AllocError>
    ensures { OnOk result ((slot : ℕ) → spoken_at spoken.new slot ≡ (if is_in_slot slot (fresh_heard fate.now) then spoken_at spoken.old slot ++ fate.now ∷ [] else spoken_at spoken.old slot)) }
{
    match fresh_ballot(fate) {
        Some(statement) => add_to(alloc, spoken, statement.slot.0, fate),
        None => Ok(()),
    }
}

/// The entries of each slot, in one pass over the journal.
pub fn spoken_in<'a>(
    alloc: Global,
    journal: &'a [Fate],
) -> Result<BTreeMap<u64, Vec<&'a Fate>>, AllocError>
    ensures { IfOk result (λ found. (slot : ℕ) → spoken_at found slot ≡ spoken journal.now slot) }
{
    let mut spoken = BTreeMap::new(alloc);
    for fate in journal {
        sort_in(alloc, &mut spoken, fate)?;
    }
    Ok(spoken)
}

/// Whether the entry is a ballot statement of this node that was taken as fresh.
fn is_of(entry: &Fate, node: &NodeId) -> bool
    ensures { result ≡ is_its node.now (fresh_heard entry.now) }
{
    match fresh_ballot(entry) {
        Some(statement) => statement.node.cmp(node).is_eq(),
        None => false,
    }
}

/// The last of these entries that is a statement of this node.
pub fn last_of<'a>(entries: &[&'a Fate], node: &NodeId) -> Option<&'a Fate>
    ensures { option_map (λ fate. fate.now) result ≡ last (filter (λ fate. is_its node.now (fresh_heard fate)) (map (λ fate. fate.now) entries.now)) }
{
    let mut last = None;
    for entry in entries {
        if is_of(*entry, node) {
            last = Some(*entry);
        }
    }
    last
}
