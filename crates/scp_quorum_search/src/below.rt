//! What crates above take of those that this one is built on: a module for each, by its name without `scp_`.

pub mod types {
    pub use scp_quorum::below::types::NodeId;
}

pub mod quorum {
    pub use scp_quorum::QuorumSet;
}
