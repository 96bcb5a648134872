//! The statements of one kind: each node's newest, its seat, and the groups of nodes that share a quorum set.
ghost use Rattle.std.specs.Prelude.{◌≡◌, ◌≢◌, ◌≤◌, ◌<◌, ℕ, IfOk, IfSome, OnOk, OnErr, Some, cond, get_or, set, length, true, false};
ghost use Rattle.std.proofs.Props.{props};
ghost use Rattle.scp_quorum.specs.Places.{set_of_group};
ghost use Rattle.scp_vote.specs.inside.Seats.{AreSeated, KeepsSets, IsUnused, IsPlaceFor, IsPutAt, place_in};

use crate::statements::Entry;
use scp_envelope::SharedEnvelope;
use scp_quorum::below::types::{Hash, NodeId};
use scp_quorum::{Places, SaneSet, Seat};
use std::alloc::{AllocError, Global};
use std::collections::BTreeMap;
use std::sync::Arc;

/// Each node's newest statement of one kind. Each of these nodes has a seat, and nodes whose counted sets are equal share
/// a group, which has the set once. A group without a seat stays until a new set takes its place. So there is at most one
/// group more than seats, however often the same nodes put statements.
#[derive(Drop)]
pub(crate) struct Table {
    pub(crate) entries: BTreeMap<NodeId, Entry>,
    pub(crate) seats: Vec<Seat>,
    /// The set of each group.
    pub(crate) sets: Vec<Arc<SaneSet>>,
    /// The group that a set may have, by the set's hash.
    groups: BTreeMap<Hash, usize>,
    pub ghost seated: { AreSeated entries seats.items sets.items } by { Prim.hlevel props },
}

impl Table {
    ghost use Rattle.std.specs.Prelude.{◌≡◌, ℕ, [], OnOk, OnErr};
    ghost use Rattle.scp_vote.specs.inside.Statements.{Enters};

    /// A table without statements.
    pub(crate) fn new(alloc: Global) -> Table
        ensures { result.entries.entries ≡ [] }
    {
        Table {
            entries: BTreeMap::new(alloc),
            seats: Vec::new(alloc),
            sets: Vec::new(alloc),
            groups: BTreeMap::new(alloc),
        }
    }

    /// Puts the envelope, with the set that counts for it, in the place of its node's last one.
    pub(crate) fn put(
        &mut self,
        alloc: Global,
        envelope: SharedEnvelope,
        counted: Arc<SaneSet>,
    ) -> Result<(), AllocError>
        ensures entered { OnOk result ((place : ℕ) × Enters self.old.entries self.new.entries (record { envelope = envelope; counted = counted; place = place })) }
        ensures refused { OnErr result (self.new.entries.entries ≡ self.old.entries.entries) }
    {
        let node = envelope.get().statement.node;
        let place = place_for(&self.entries, &node, self.seats.len());
        let group = group_of(
            alloc,
            &self.seats,
            &mut self.sets,
            &mut self.groups,
            &counted,
        )?;
        put_at(&mut self.seats, place, Seat { node, group })?;
        let entry = Entry {
            envelope,
            counted,
            place,
        };
        if let Err(refused) = self.entries.insert(node, entry) {
            self.seats.truncate(place);
            return Err(AllocError::from(refused));
        }
        Ok(())
    }
}

impl Places for Table {
    ghost place = { λ table. place_in table.entries };

    fn place_of(&self, node: &NodeId) -> Option<usize> {
        match self.entries.get(node) {
            Some(entry) => Some(entry.place),
            None => None,
        }
    }
}

/// The place of the node's seat: its own, or else the one after all seats.
fn place_for(entries: &BTreeMap<NodeId, Entry>, node: &NodeId, seats: usize) -> usize
    ensures { IsPlaceFor entries.now seats node.now result }
{
    match entries.get(node) {
        Some(entry) => entry.place,
        None => seats,
    }
}

/// The group that has this set: the one that is found by its hash, or else a new one.
fn group_of(
    alloc: Global,
    seats: &[Seat],
    sets: &mut Vec<Arc<SaneSet>>,
    groups: &mut BTreeMap<Hash, usize>,
    set: &Arc<SaneSet>,
) -> Result<usize, AllocError>
    ensures kept { KeepsSets seats.now sets.old.items sets.new.items }
    ensures group { IfOk result (λ g. set_of_group sets.new.items g ≡ Some set.now.value) }
{
    if let Some(group) = known_group(sets, groups, set) {
        return Ok(group);
    }
    let group = free_group(alloc, seats, sets.len())?;
    let shared = set.clone()?;
    forget_group(sets, groups, group);
    put_at(sets, group, shared)?;
    groups.insert(set.hash(), group)?;
    Ok(group)
}

/// The group that is found by the hash of this set, if it has this set. The hash alone doesn't show it.
fn known_group(
    sets: &[Arc<SaneSet>],
    groups: &BTreeMap<Hash, usize>,
    set: &SaneSet,
) -> Option<usize>
    ensures { IfSome result (λ g. set_of_group sets.now g ≡ Some set.now) }
{
    let group = *groups.get(&set.hash())?;
    let found = sets.get(group)?;
    if found.is_same(set) {
        Some(group)
    } else {
        None
    }
}

/// Removes the hash of this group's set from the table of hashes.
fn forget_group(sets: &[Arc<SaneSet>], groups: &mut BTreeMap<Hash, usize>, group: usize) {
    if let Some(set) = sets.get(group) {
        groups.remove(&set.hash());
    }
}

/// A group without a seat, or else the one after all groups. Goes over all seats.
fn free_group(alloc: Global, seats: &[Seat], groups: usize) -> Result<usize, AllocError>
    ensures within { IfOk result (λ g. g ≤ groups) }
    ensures unused { IfOk result (IsUnused seats.now groups) }
{
    let mut used = vec![in alloc; false; groups]?;
    for seat in seats {
        mark(&mut used, seat.group, true);
    }
    Ok(first_unmarked(&used))
}

/// The first place that isn't marked, or else the one after all.
fn first_unmarked(marks: &[bool]) -> usize
    ensures within { result ≤ length marks.now }
    ensures unmarked { get_or marks.now result false ≡ false }
{
    for (place, marked) in marks.iter().enumerate() {
        if !*marked {
            return place;
        }
    }
    marks.len()
}

/// Marks the place if `holds` is true and there is such a place.
pub(crate) fn mark(marks: &mut [bool], place: usize, holds: bool)
    ensures marked { marks.new ≡ cond holds (set marks.old place true) marks.old }
    ensures len { length marks.new ≡ length marks.old }
{
    if holds && place < marks.len() {
        marks[place] = true;
    }
}

/// Puts the item in the place of the one that is there, or after all items.
fn put_at<T: Drop>(items: &mut Vec<T>, place: usize, item: T) -> Result<(), AllocError>
    requires { place ≤ length items.old.items }
    ensures put { OnOk result (IsPutAt items.old.items items.new.items place item) }
    ensures refused { OnErr result (items.new.items ≡ items.old.items) }
{
    if place < items.len() {
        items[place] = item;
    } else {
        items.push(item)?;
    }
    Ok(())
}
