//! What crates above take of those that this one is built on: a module for each, by its name without `scp_`.

pub mod types {
    pub use scp_script_short::below::types::SCRIPT_LIMIT;
}

pub mod prompt {
    pub use scp_convert::below::prompt::{
        Asked, Cause, Conversion, ConversionAsked, Failure, HistoryAsked, LONG_LIMIT, LogAsked,
        NodeAsked, NodeTask, QuorumsAsked, SimAsked, Source, Stream, Task, Unasked, Unopened,
        Wanted, Way, read_within, read_words, status, write_bytes, write_failure, write_settled,
    };
}
