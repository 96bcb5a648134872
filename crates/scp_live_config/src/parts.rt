//! What a host takes from a configuration.
ghost use Rattle.std.specs.Prelude.{◌≡◌, map, IfOk, string_bytes};

use crate::settings::{Named, Settings};
use scp_quorum::below::types::NodeId;
use std::alloc::{AllocError, Global};

/// The ids of these nodes.
fn ids_of(alloc: Global, identities: &[Named]) -> Result<Vec<NodeId>, AllocError>
    ensures { IfOk result (λ ids. ids.items ≡ map (λ identity. identity.id) identities.now) }
{
    let mut ids = Vec::with_capacity(alloc, identities.len())?;
    for identity in identities {
        ids.push(identity.id())?;
    }
    Ok(ids)
}

/// The names of these nodes.
fn names_of(alloc: Global, identities: &[Named]) -> Result<Vec<String>, AllocError>
    ensures { IfOk result (λ names. map string_bytes names.items ≡ map (λ identity. identity.name) identities.now) }
{
    let mut names = Vec::with_capacity(alloc, identities.len())?;
    for identity in identities {
        names.push(String::from_str(alloc, identity.name())?)?;
    }
    Ok(names)
}

impl Settings {
    /// The ids of the peers, in the order of the links.
    pub fn peer_ids(&self, alloc: Global) -> Result<Vec<NodeId>, AllocError>
        ensures { IfOk result (λ ids. ids.items ≡ map (λ peer. peer.id) self.now.peers.items) }
    {
        ids_of(alloc, &self.peers)
    }

    /// The names of the peers, in the order of the links.
    pub fn link_names(&self, alloc: Global) -> Result<Vec<String>, AllocError>
        ensures { IfOk result (λ names. map string_bytes names.items ≡ map (λ peer. peer.name) self.now.peers.items) }
    {
        names_of(alloc, &self.peers)
    }
}
