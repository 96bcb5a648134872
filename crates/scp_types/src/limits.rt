//! The limits that several crates name (this project's profile).

/// The most bytes of a value.
pub const VALUE_LIMIT: usize = 4_096;

/// The most messages that one connection carries: their numbers are below it.
pub const CARRIED_LIMIT: u64 = 1_000_000;

/// The most lives of a link: it can be opened this often.
pub const LIFE_LIMIT: u32 = 65_535;

/// The most items that a queue may be made for.
pub const CAPACITY_LIMIT: u16 = 1_024;

/// The most peers of a node that runs in threads, and of one that isn't made for many peers, such as a script's.
pub const PEER_LIMIT: usize = 7;

/// The most nodes of a script: a node and its peers.
pub const NODE_LIMIT: usize = 8;

/// The most links of any node, one from each of its peers: whatever has a place for each link has as many.
pub const LINK_LIMIT: u8 = 100;

/// The most nodes of any network, a node and its peers: whatever has a place for each node has as many.
pub const NETWORK_LIMIT: u8 = 101;

/// The number of slots that are open at a time: the lowest one without a decision, and those after it.
pub const WINDOW: u64 = 16;

/// The most turns of a node, and the most rounds of a network, in which one `settle` brings it to rest.
pub const ROUND_LIMIT: u32 = 100_000;

/// The most bytes of a script.
pub const SCRIPT_LIMIT: usize = 1_048_576;
