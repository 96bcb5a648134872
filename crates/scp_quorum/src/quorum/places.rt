//! The greatest quorum among nodes that are known by their places, over borrowed sets.
ghost use Rattle.std.specs.Prelude.{◌≡◌, ◌↔◌, ◌<◌, ℕ, Option, Bool, true, false, get_or, length, count_by, IfOk, OnOk, IsTrue, IsOkUnless};
ghost use Rattle.std.specs.Bool.{OnFalse, OnTrue};
ghost use Rattle.scp_xdr.specs.scp_types.specs.declared.names.NodeId.{NodeId};
ghost use Rattle.scp_quorum.specs.Quorum.{IsWithin, IsGreatestQuorum, HasNoQuorum, SatisfyThemselves};
ghost use Rattle.scp_quorum.specs.inside.Quorum.{KeepsQuorums};
ghost use Rattle.scp_quorum.specs.Places.{marked, only, shared_set};
ghost use Rattle.scp_quorum.specs.inside.Marks.{AreVerdicts, kept_at};

use crate::quorum_set::Nodes;
use crate::sane_set::SaneSet;
use scp_xdr::below::types::{Fault, NodeId};
use std::alloc::{AllocError, Global};
use std::sync::Arc;

/// A node, and the place of the group of nodes with which it shares one quorum set.
#[derive(Clone, Copy, Drop)]
pub struct Seat {
    pub node: NodeId,
    pub group: usize,
}

/// Gives the place of a node in a list.
pub trait Places {
    /// The place of each node that has one.
    ghost place: { Self → NodeId → Option ℕ };

    /// The place of the node.
    fn place_of(&self, node: &NodeId) -> Option<usize>
        ensures { result ≡ place self.now node.now };
}

/// The nodes whose place is marked.
#[derive(Drop)]
pub struct Marked<'a, P> {
    pub places: &'a P,
    pub marks: &'a [bool],
}

impl<P: Places> Nodes for Marked<'_, P> {
    ghost members = { λ nodes. marked (P.place nodes.places.now) nodes.marks.now };

    fn has(&self, node: &NodeId) -> bool {
        match self.places.place_of(node) {
            Some(place) => *self.marks.get(place).unwrap_or(&false),
            None => false,
        }
    }
}

/// Whether there is a quorum at `me` inside the marked nodes, where a node's set is that of the group of its seat. If so,
/// exactly the nodes of the greatest such quorum, which is the union of all of them, stay marked (the SCP draft); else the marks
/// mean nothing. Takes memory for a Boolean a set; the only refusal is `Fault::NoMemory`, after which the marks mean nothing.
/// Each pass asks each set once, however many nodes share it. There is at most one pass more than there are marked nodes.
pub fn greatest_quorum_among<P: Places>(
    alloc: Global,
    places: &P,
    seats: &[Seat],
    sets: &[Arc<SaneSet>],
    me: &NodeId,
    marks: &mut [bool],
) -> Result<bool, Fault>
    ensures found { IfOk result (λ yes. OnTrue yes (IsGreatestQuorum (only (marked (P.place places.now) marks.old) (shared_set (P.place places.now) seats.now sets.now)) me.now (marked (P.place places.now) marks.new))) }
    ensures none { IfOk result (λ yes. OnFalse yes (HasNoQuorum (only (marked (P.place places.now) marks.old) (shared_set (P.place places.now) seats.now sets.now)) me.now)) }
    ensures len { length marks.new ≡ length marks.old }
    ensures only_memory { IsOkUnless result Fault.NoMemory }
{
    while prune(alloc, places, seats, sets, marks)? {}
    Ok(Marked { places, marks }.has(me))
}

/// Unmarks each node whose set the marked nodes don't satisfy. Returns whether there was one.
fn prune<P: Places>(
    alloc: Global,
    places: &P,
    seats: &[Seat],
    sets: &[Arc<SaneSet>],
    marks: &mut [bool],
) -> Result<bool, AllocError>
    ensures within { OnOk result (IsWithin (marked (P.place places.now) marks.new) (marked (P.place places.now) marks.old)) }
    ensures kept { OnOk result (KeepsQuorums (shared_set (P.place places.now) seats.now sets.now) (marked (P.place places.now) marks.old) (marked (P.place places.now) marks.new)) }
    ensures settled { IfOk result (λ removed. OnFalse removed (SatisfyThemselves (shared_set (P.place places.now) seats.now sets.now) (marked (P.place places.now) marks.new))) }
    ensures fewer { IfOk result (λ removed. OnTrue removed (count_by (λ b. b) marks.new < count_by (λ b. b) marks.old)) }
    ensures len { length marks.new ≡ length marks.old }
{
    let verdicts = judge(alloc, sets, &Marked { places, marks })?;
    Ok(unmark(seats, &verdicts, marks))
}

/// For each set, whether the nodes satisfy it.
fn judge<N: Nodes>(alloc: Global, sets: &[Arc<SaneSet>], nodes: &N) -> Result<Vec<bool>, AllocError>
    ensures { IfOk result (λ verdicts. AreVerdicts (N.members nodes.now) sets.now verdicts.items) }
{
    let mut verdicts = Vec::with_capacity(alloc, sets.len())?;
    for set in sets {
        verdicts.push(set.set().is_satisfied_by(nodes))?;
    }
    Ok(verdicts)
}

/// Unmarks the places whose group has a bad verdict. Returns whether there was one.
fn unmark(seats: &[Seat], verdicts: &[bool], marks: &mut [bool]) -> bool
    ensures within { (p : ℕ) → get_or marks.new p false ≡ true → get_or marks.old p false ≡ true }
    ensures others { (p : ℕ) → get_or marks.old p false ≡ true → kept_at seats.now verdicts.now p ≡ true → get_or marks.new p false ≡ true }
    ensures none { OnFalse result ((p : ℕ) → get_or marks.old p false ≡ true → kept_at seats.now verdicts.now p ≡ true) }
    ensures same { OnFalse result (marks.new ≡ marks.old) }
    ensures fewer { OnTrue result (count_by (λ b. b) marks.new < count_by (λ b. b) marks.old) }
    ensures len { length marks.new ≡ length marks.old }
{
    let mut removed = false;
    for place in 0..marks.len() {
        if marks[place] && !is_kept(seats, verdicts, place) {
            marks[place] = false;
            removed = true;
        }
    }
    removed
}

/// Whether the group of the seat at this place has a good verdict.
fn is_kept(seats: &[Seat], verdicts: &[bool], place: usize) -> bool
    ensures { result ≡ kept_at seats.now verdicts.now place }
{
    match seats.get(place) {
        Some(seat) => *verdicts.get(seat.group).unwrap_or(&false),
        None => false,
    }
}
