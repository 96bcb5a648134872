//! Which links are open, and how often each was opened.
ghost use Rattle.std.specs.Prelude.{◌≡◌, ◌+◌, ◌∷◌, [], ◌++◌, ℕ, List, false, true, if◌then◌else◌};
ghost use Rattle.scp_script.specs.declared.links.Link.{Link};
ghost use Rattle.scp_script.specs.Script.{is_link};
ghost use Rattle.scp_script.specs.Nodes.{IsSmall};
ghost use Rattle.scp_script.specs.Reading.{at, place, no_link, KnowsLinks};

use scp_wire::below::types::NODE_LIMIT;

/// What is known of a link.
#[derive(Clone, Copy)]
pub struct Link {
    pub is_open: bool,
    pub lives: u32,
}

/// The number of links that are told apart: a list for each node that a script can have, of as many.
pub const PLACES: usize = NODE_LIMIT * NODE_LIMIT;

/// What is known of each link: first of the links from node 1, then of those from node 2, and so on.
#[derive(Clone, Copy)]
pub struct Links([Link; PLACES]);

/// The index of the link in the table.
fn place(from: u8, to: u8) -> usize
    requires from { IsSmall from }
    requires to { IsSmall to }
    ensures { result ≡ place from to }
{
    usize::from(from - 1) * NODE_LIMIT + usize::from(to - 1)
}

impl Links {
    /// No link was opened.
    pub fn new() -> Links
        ensures { KnowsLinks result [] }
    {
        Links([Link {
            is_open: false,
            lives: 0,
        }; PLACES])
    }

    /// What is known of a link.
    pub fn get(&self, from: u8, to: u8) -> Link
        requires from { IsSmall from }
        requires to { IsSmall to }
        ensures { result ≡ at self.now from to }
    {
        self.0[place(from, to)]
    }

    /// Replaces what is known of a link.
    pub fn put(&mut self, from: u8, to: u8, link: Link)
        requires from { IsSmall from }
        requires to { IsSmall to }
        ensures { (from2 to2 : ℕ) → IsSmall from2 → IsSmall to2 → at self.new from2 to2 ≡ (if is_link from2 to2 from to then link else at self.old from2 to2) }
    {
        self.0[place(from, to)] = link;
    }
}
