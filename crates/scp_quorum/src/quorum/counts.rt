//! How far each quorum set is from not being satisfied any more, counted down as nodes are removed.
//!
//! The counts only say where to look: nothing is promised of them, and whoever follows them tests the
//! set. A set falls here when its count says that it isn't satisfied any more.

use super::groups::{Group, has_member};
use super::table::NodeTable;
use crate::quorum_set::QuorumSet;
use scp_xdr::below::types::NodeId;
use std::alloc::{AllocError, Global};
use std::collections::BTreeSet;

/// A quorum set as the counts see it.
#[derive(Clone, Copy, Drop)]
struct Margin {
    /// How many of its entries may still fall; `None` once it has fallen itself.
    spare: Option<usize>,
    within: Within,
}

/// What falls, or is lowered, when a set falls.
#[derive(Clone, Copy, Drop)]
enum Within {
    /// The set is that of the group at this place.
    Group(usize),
    /// The set is an entry of the set with the margin at this place.
    Margin(usize),
}

/// One naming of a node by a set, with the naming of the same node before it.
#[derive(Clone, Copy, Drop)]
struct Naming {
    margin: usize,
    next: Option<usize>,
}

/// The counts of all sets, and what names each node.
#[derive(Drop)]
pub(crate) struct Counts {
    /// The nodes that remain.
    nodes: NodeTable,
    /// The last naming of each of these nodes.
    last_namings: Vec<Option<usize>>,
    namings: Vec<Naming>,
    margins: Vec<Margin>,
    /// The groups whose set has fallen, and which weren't returned yet.
    fallen: Vec<usize>,
}

impl Counts {
    /// The counts for the groups that have a member among the nodes that remain.
    pub(crate) fn of(
        alloc: Global,
        groups: &[Group<'_>],
        remaining: &BTreeSet<NodeId>,
    ) -> Result<Counts, AllocError> {
        let nodes = NodeTable::of(alloc, remaining)?;
        let last_namings = vec![in alloc; None; nodes.len()]?;
        let mut counts = Counts {
            nodes,
            last_namings,
            namings: Vec::new(alloc),
            margins: Vec::new(alloc),
            fallen: Vec::new(alloc),
        };
        for (index, group) in groups.iter().enumerate() {
            if has_member(group, remaining) {
                counts.add_set(group.set.set(), Within::Group(index))?;
            }
        }
        Ok(counts)
    }

    /// A group whose set has fallen; each is returned once.
    pub(crate) fn next_fallen(&mut self) -> Option<usize> {
        self.fallen.pop()
    }

    /// Lowers the counts of the sets that name these nodes.
    pub(crate) fn lower_for_all(&mut self, nodes: &[NodeId]) -> Result<(), AllocError> {
        for node in nodes {
            self.lower_for(node)?;
        }
        Ok(())
    }

    fn lower_for(&mut self, node: &NodeId) -> Result<(), AllocError> {
        let mut place = self.last_naming(node);
        for _ in 0..self.namings.len() {
            let Some(naming) = self.naming(place) else {
                break;
            };
            self.lower(naming.margin)?;
            place = naming.next;
        }
        Ok(())
    }

    fn last_naming(&self, node: &NodeId) -> Option<usize> {
        let place = self.nodes.place_of(node)?;
        *self.last_namings.get(place)?
    }

    fn naming(&self, place: Option<usize>) -> Option<Naming> {
        self.namings.get(place?).copied()
    }

    /// Adds a set with its entries.
    fn add_set(&mut self, set: &QuorumSet, within: Within) -> Result<(), AllocError> {
        let entries = set
            .validators()
            .len()
            .saturating_add(set.inner_sets().len());
        let margin = self.margins.len();
        let spare = Some(entries.saturating_sub(set.threshold() as usize));
        self.margins.push(Margin { spare, within })?;
        self.add_validators(set.validators(), margin)?;
        for inner in set.inner_sets() {
            self.add_set(inner, Within::Margin(margin))?;
        }
        Ok(())
    }

    fn add_validators(&mut self, validators: &[NodeId], margin: usize) -> Result<(), AllocError> {
        for validator in validators {
            match self.nodes.place_of(validator) {
                Some(node) => self.add_naming(node, margin)?,
                None => self.lower(margin)?,
            }
        }
        Ok(())
    }

    fn add_naming(&mut self, node: usize, margin: usize) -> Result<(), AllocError> {
        let place = self.namings.len();
        if let Some(last) = self.last_namings.get_mut(node) {
            let next = last.replace(place);
            self.namings.push(Naming { margin, next })?;
        }
        Ok(())
    }

    /// Lowers a count; if its set falls, also the count of the set around it, and so on.
    fn lower(&mut self, margin: usize) -> Result<(), AllocError> {
        let mut place = margin;
        for _ in 0..self.margins.len() {
            match self.lower_one(place) {
                Some(Within::Margin(around)) => place = around,
                Some(Within::Group(group)) => {
                    self.fallen.push(group)?;
                    return Ok(());
                }
                None => return Ok(()),
            }
        }
        Ok(())
    }

    /// Lowers a count. Returns what the set is within, if the set falls by that.
    fn lower_one(&mut self, place: usize) -> Option<Within> {
        let margin = self.margins.get_mut(place)?;
        let spare = margin.spare?;
        margin.spare = spare.checked_sub(1);
        if spare == 0 {
            Some(margin.within)
        } else {
            None
        }
    }
}
