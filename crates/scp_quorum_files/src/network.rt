//! The nodes of a network that was read, by their names.

use scp_quorum_search::Member;
use scp_quorum_search::below::types::NodeId;

/// A node by its name.
#[derive(Drop)]
pub struct Named {
    pub name: String,
    pub id: NodeId,
}

/// An organisation, and the nodes that it runs.
#[derive(Drop)]
pub struct Organisation {
    pub name: String,
    pub nodes: Vec<NodeId>,
}

/// The nodes of a network, by their names, and their quorum sets.
#[derive(Drop)]
pub struct Network {
    /// Each node once, in the order in which the names come first: those of the document's nodes, and then those that quorum sets name
    /// besides.
    pub nodes: Vec<Named>,
    /// The nodes that have a quorum set, in the order of the document.
    pub members: Vec<Member>,
    /// The keys that aren't known, each as often as it comes.
    pub strays: Vec<String>,
    /// The organisations, in the order of the document.
    pub organisations: Vec<Organisation>,
}
