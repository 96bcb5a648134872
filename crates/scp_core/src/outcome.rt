//! What a run leaves.

use crate::event::Reply;
use crate::node::Node;
use scp_theorem::below::driver::{Application, KvDriver};

/// The replies to a list of events, in order, and the node that the events left.
#[derive(Drop)]
pub struct Run<A: Application + Drop + Copy = KvDriver> {
    pub replies: Vec<Reply>,
    pub node: Node<A>,
}
