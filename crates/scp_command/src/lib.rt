//! The commands of the program that people run, and what each writes where.
//!
//! What it promises:
//! - What a command makes of its input is written to the output. Nothing is written there for a command that failed, unless the output itself
//!   failed.
//! - A failure is reported once, on the stream of errors, by one line with its place or its cause, and by its status. The status is 1 for a
//!   script or a message, and 3 for a node, memory, a file or a stream.
//! - The status of a run with notices is 4. The notices are written to the stream of errors, unless they are to be left out.
//! - `serve_plain` reports the same failures on the output, in the fixed form.
//! - `convert` converts each line of an input, or reports its refusal, on the stream of errors, and reads on. Then its status is 1.
//!
//! Not claimed: which words ask for what.
#![tactic(auto)]

mod answer;
pub mod below;
mod converting;
mod forms;
mod given;
mod looks;
mod plain;
mod runs;
mod serving;

pub use answer::Answer;
pub use converting::{ConversionOrder, RefusedLine, convert};
pub use plain::serve_plain;
pub use serving::{Order, serve};
