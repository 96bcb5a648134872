//! The links between nodes.

use scp_again::below::types::{Fault, NODE_LIMIT};
use std::alloc::Global;

/// A link from one node to another.
#[derive(Clone, Copy, PartialEq, Eq)]
pub struct Link {
    pub is_open: bool,
    /// How many times it was opened.
    pub life: u64,
    /// When the last message on it arrives.
    pub last: u64,
    /// Whether anything was ever sent on it.
    pub is_used: bool,
}

/// The links between the nodes of a script.
#[derive(Drop)]
pub struct Links(Vec<Link>);

/// A link that was never open.
const NONE: Link = Link {
    is_open: false,
    life: 0,
    last: 0,
    is_used: false,
};

/// How many numbers are told apart: those of nodes, and 0.
const NUMBERS: usize = NODE_LIMIT + 1;

/// The index of the link from one node to another.
fn place_of(from: u8, to: u8) -> usize {
    usize::from(from) * NUMBERS + usize::from(to)
}

impl Links {
    /// The links, none of which is open.
    pub fn new(alloc: Global) -> Result<Links, Fault> {
        let mut links = Vec::with_capacity(alloc, NUMBERS * NUMBERS)?;
        for _ in 0..NUMBERS * NUMBERS {
            links.push(NONE)?;
        }
        Ok(Links(links))
    }

    /// The link from one node to another.
    pub fn get(&self, from: u8, to: u8) -> Link {
        match self.0.get(place_of(from, to)) {
            Some(link) => *link,
            None => NONE,
        }
    }

    /// Replaces the link from one node to another.
    pub fn put(&mut self, from: u8, to: u8, link: Link) {
        if let Some(place) = self.0.get_mut(place_of(from, to)) {
            *place = link;
        }
    }
}
