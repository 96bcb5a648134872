//! The ends by which the stages of a node put into its outboxes.
use crate::Putter;

/// The ends by which a node's three stages put into the outboxes of its links. Each stage has one for each link, at the link's place.
#[derive(Drop)]
pub struct Outlets {
    /// The pending stage's.
    pub pend: Vec<Putter>,
    /// The slot stage's.
    pub slot: Vec<Putter>,
    /// The applier's.
    pub apply: Vec<Putter>,
}
