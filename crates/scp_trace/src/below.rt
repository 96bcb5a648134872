//! What crates above take of those that this one is built on: a module for each, by its name without `scp_`.

pub mod types {
    pub use scp_line::below::types::{ConnId, Fault, NodeId};
}

pub mod node {
    pub use scp_line::below::node::{Node, Origin};
}

pub mod turn {
    pub use scp_line::below::turn::{Event, KvDriver, Network, Node, Reply, Watch};
}

pub mod script {
    pub use scp_line::below::script::{Command, count_of_nodes};
}

pub mod script_check {
    pub use scp_script_check::{ReadFault, Script, read};
}

pub mod stand_slot {
    pub use scp_stand_node::below::stand_slot::Names;
}

pub mod facts {
    pub use scp_trace_text::below::facts::{
        Fact, FactWatch, Telling, Told, a_step_is_told_as_it_happened,
    };
}
