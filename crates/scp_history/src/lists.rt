//! Nodes in lines. Contracts see the list alone, and not the memory that it is in.
ghost use Rattle.std.specs.Prelude.{◌≡◌};

use scp_strkey::below::types::NodeId;
use std::marker::Model;

/// Nodes, in the order in which a line has them.
#[derive(Drop)]
pub struct NodeList(Vec<NodeId>);

impl Model for NodeList {
    ghost use Rattle.std.specs.Prelude.{List};
    ghost use Rattle.scp_strkey.specs.scp_types.specs.declared.names.NodeId.{NodeId as Node};

    ghost Value = { List Node };

    ghost view = { λ n. n.0.items };
}

impl NodeList {
    /// The list of these nodes. Takes no memory.
    pub fn new(nodes: Vec<NodeId>) -> NodeList
        ensures { result ≡ nodes.items }
    {
        NodeList(nodes)
    }

    /// The nodes.
    pub fn as_slice(&self) -> &[NodeId]
        ensures { result.now ≡ self.now }
    {
        self.0.as_slice()
    }
}
