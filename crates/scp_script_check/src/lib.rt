//! What is wrong with a script: its first bad line, or what in it hardly does what it was written for.
//!
//! What it promises:
//! - A script is refused only if it has a bad line, in hex digits or as text, or when memory ran out.
//! - The first bad line is reported with its first bad word and what was expected there.
//! - If memory runs out, the number of that line alone may be reported, or out of memory. Out of memory is reported only for some texts:
//!   no line is bad, or some line is a `set` line, or the first bad line or one before it carries a message or a value.
//! - For a script without a bad line, each warning is reported exactly if its definition holds. Those of lines come first, in their
//!   order.
#![tactic(auto)]

pub mod below;
mod linting;
mod nodes;
mod proposals;
mod reading;
mod text;
mod turns;
mod warned;
mod warning;

pub use linting::lint;
pub use nodes::is_scripted;
pub use reading::{Script, read};
pub use scp_script::below::device::{BadLine, BadWord, ReadFault};
pub use text::text_of_warnings;
pub use warned::warnings;
pub use warning::Warning;
