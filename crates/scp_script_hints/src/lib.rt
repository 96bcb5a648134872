//! Hints on the lines of a script that look like mistakes, beside the warnings of `check`. Also the report on the quorums of a script's
//! nodes, and on what the loss of nodes does to them.
//!
//! What it promises:
//! - Each hint on a script is reported exactly if its definition holds. Those on lines come first, in their order.
//! - There are three hints on lines. A quorum set names a node that the script doesn't have. A command is for a slot outside its node's
//!   window, whatever the nodes do. Or lines send on a link for a node that has turns of its own and that nothing lets speak. The check
//!   doesn't warn that such a link is driven.
//! - It is reported that two quorums have no node in common, with two that have none, exactly if there are any.
//! - The text of hints is a line for each.
//! - For each node the smallest sets of others whose loss halts it are all shown, and each that is shown is one.
//! - The number of lost nodes that is reported as survived is the greatest that is survived whichever nodes they are.
//! - The lines on a script's quorums report exactly these facts of the quorum sets that its nodes have.
#![tactic(auto)]

mod apart;
mod before;
pub mod below;
mod hint;
mod lines;
mod nodes;
mod text;
mod told;

pub use hint::Hint;
pub use lines::hints;
pub use text::text_of_hints;
pub use told::{apart_text, quorums_text};
