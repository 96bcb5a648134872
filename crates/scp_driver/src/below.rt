//! What crates above take of those that this one is built on: a module for each, by its name without `scp_`.

pub mod kv {
    pub use scp_kv::{KvState, is_ops, ops_in_finds_the_list};
}
