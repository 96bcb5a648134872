//! The settings that a configuration gives.
ghost use Rattle.std.specs.Prelude.{◌≡◌, IfOk, string_bytes};

use scp_quorum::SaneSet;
use scp_quorum::below::types::{Capacities, NodeId};
use std::alloc::{AllocError, Global};
use std::marker::Model;

/// A name of a node, and its id.
#[derive(Drop)]
pub struct Named {
    name: String,
    id: NodeId,
}

impl Model for Named {
    ghost use Rattle.std.specs.Prelude.{string_bytes};
    ghost use Rattle.scp_live_config.specs.Names.{Identity};

    ghost Value = { Identity };

    ghost view = { λ n. record { name = string_bytes n.name; id = n.id } };
}

impl Named {
    /// The node with this name and this id. Takes ownership of the name.
    pub fn new(name: String, id: NodeId) -> Named
        ensures { result ≡ record { name = string_bytes name; id = id } }
    {
        Named { name, id }
    }

    /// The name.
    pub fn name(&self) -> &str
        ensures { result.now ≡ self.now.name }
    {
        self.name.as_str()
    }

    /// The id.
    pub fn id(&self) -> NodeId
        ensures { result ≡ self.now.id }
    {
        self.id
    }

    /// A copy in memory of its own.
    pub fn copy(&self, alloc: Global) -> Result<Named, AllocError>
        ensures { IfOk result (λ copied. copied ≡ self.now) }
    {
        let name = String::from_str(alloc, self.name.as_str())?;
        Ok(Named { name, id: self.id })
    }
}

/// The settings that a configuration gives.
#[derive(Drop)]
pub struct Settings {
    /// The names of all nodes in `NODES`, in the order of its keys.
    pub names: Vec<Named>,
    /// The node itself.
    pub node: Named,
    /// Its peers, in the order of its links.
    pub peers: Vec<Named>,
    /// Its quorum set.
    pub set: SaneSet,
    /// The capacities of its queues.
    pub capacities: Capacities,
}
