//! What crates above take of those that this one is built on: a module for each, by its name without `scp_`.

pub mod node {
    pub use scp_turn::below::node::{Command, Decision, Fate, Node, SharedDecision};
}

pub mod turn {
    pub use scp_turn::{
        Command, CommandFate, Decision, Event, Fate, KvDriver, Node, Origin, Reply, SharedDecision,
        Verdict, Watch,
    };
}
