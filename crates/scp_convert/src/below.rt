//! What crates above take of those that this one is built on: a module for each, by its name without `scp_`.

pub mod prompt {
    pub use scp_prompt::{
        Asked, Cause, Conversion, ConversionAsked, Failure, HistoryAsked, LONG_LIMIT, LogAsked,
        Mode, NodeAsked, NodeTask, QuorumsAsked, Shape, SimAsked, Source, Stop, Stream, Task,
        Unasked, Unopened, Wanted, Way, read_within, read_words, status, write_bytes,
        write_failure, write_settled,
    };
}
