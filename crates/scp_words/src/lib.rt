//! The words that reports use: what became of a message or a command, why a connection ended, numbers, and bytes.
//!
//! What it promises:
//! - Each verdict, each cause of a dropped message, each cause of a connection's end and each fate of a command has one word.
//! - Numbers have commas between them.
//! - Bytes are written as two lower-case digits each, and no bytes as a dash.
#![tactic(auto)]

pub mod below;
mod digits;
mod numbers;
mod words;

pub use digits::write_hex;
pub use numbers::write_numbers;
pub use words::{word_of_cause, word_of_drop, word_of_fate, word_of_verdict};
