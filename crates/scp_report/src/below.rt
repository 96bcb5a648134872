//! What crates above take of those that this one is built on: a module for each, by its name without `scp_`.

pub mod device {
    pub use scp_script::below::device::{
        FailsAt, MemoryIn, MemoryOut, Process, ReportOut, ScriptIn, read_script, write_numbered,
        write_text,
    };
}

pub mod script {
    pub use scp_script::{
        Command, bytes_of, capacities_of, count_of_nodes, id_from, parse, peers_of_node,
        set_of_node,
    };
}

pub mod words {
    pub use scp_words::{
        word_of_cause, word_of_drop, word_of_fate, word_of_verdict, write_hex, write_numbers,
    };
}

pub mod text {
    pub use scp_text::{Term, message_of, value_of};
}
