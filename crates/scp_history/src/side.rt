//! A side of a split.

use crate::lists::NodeList;
use scp_strkey::below::types::SharedValue;

/// A value, and the nodes for which it is certified.
#[derive(Drop)]
pub struct Side {
    pub value: SharedValue,
    pub nodes: NodeList,
}
