//! What is told of a run while it goes on.

use crate::pace::Far;
use crate::world::World;
use scp_again::below::types::Value;

impl<'a> World<'a> {
    /// The value that a node applied at this place.
    fn applied_value(&self, number: u8, place: usize) -> Option<&Value> {
        let index = usize::from(number).checked_sub(1)?;
        match self.network.nodes().get(index)?.applied().get(place) {
            Some(decision) => Some(&decision.get().value),
            None => None,
        }
    }

    /// Whether two nodes applied different values at this place.
    fn differ(&self, one: u8, other: u8, place: usize) -> bool {
        match (
            self.applied_value(one, place),
            self.applied_value(other, place),
        ) {
            (Some(one), Some(other)) => !(one == other),
            _ => false,
        }
    }

    /// Whether a judged node applied another value than this one at this place.
    fn is_split_at(&self, number: u8, place: usize) -> bool {
        for other in 1..=self.plan.nodes {
            if self.is_judged(other) && self.differ(number, other, place) {
                return true;
            }
        }
        false
    }

    /// The first place from this one on at which a judged node applied another value than this one.
    fn split_from(&self, number: u8, from: usize) -> Option<usize> {
        for place in from..self.applied_of(number) {
            if self.is_split_at(number, place) {
                return Some(place);
            }
        }
        None
    }

    /// Notes the first slot for which judged nodes applied different values, if it is one that this actor has applied since.
    pub fn compare(&mut self, who: usize) {
        if self.split.is_some() {
            return;
        }
        let Some(actor) = self.actors.as_slice().get(who) else {
            return;
        };
        let (number, from) = (actor.number, actor.applied);
        if actor.twin.is_none() && self.is_judged(number) {
            self.split = match self.split_from(number, from) {
                Some(place) => Some((place as u64).saturating_add(1)),
                None => None,
            };
        }
    }

    /// How many slots all judged nodes applied.
    fn closed(&self) -> u64 {
        let mut closed = self.plan.slots;
        for number in 1..=self.plan.nodes {
            if self.is_judged(number) {
                closed = closed.min(self.applied_of(number) as u64);
            }
        }
        closed
    }

    /// How far the run is.
    pub fn far(&self) -> Far {
        Far {
            time: self.now,
            closed: self.closed(),
            sent: self.counts.sent,
            split: self.split,
        }
    }
}
