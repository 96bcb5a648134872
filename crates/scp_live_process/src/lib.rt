//! A node as a process: lines of a host come in, and their effects go out. A log brings the node back. The node also writes its trace,
//! its status and its account.
//!
//! What it promises:
//! - each line of the input is answered in order, whatever the sizes of the reads: an event by the lines that report it, a question by
//!   its answer, any other line by its first bad word;
//! - what a peer does is turned away, and isn't kept, where the journal is nearly full; all else goes on;
//! - nothing is written about an event that isn't kept: the events of all lines that one read brought are kept at once, each with the
//!   digest of what was sent for it; then the answers are written;
//! - a node starts only with the log that is wanted: a new one, or one with at least so many events. What was torn off its end is reported to
//!   the host before the node's state;
//! - a node that starts with a log plays each entry again, and is refused if something else is sent for one of them. Then it closes each
//!   link that is open, by the event of its `close` line, and no link is open;
//! - with any status other than 0, what was written is a beginning of the answers, about events that are kept. The last line says why the
//!   node ended, and that is so: a device failed, the journal is full, the log or the configuration doesn't fit, or memory ran out;
//! - what the node did while it answered lines is a replay of what is kept of these lines; nodes that replay the same and still run show
//!   the same, and a node whose log has grown goes on from there, and goes back over no link, also where it sends once more;
//! - a node that is traced behaves like one that isn't; if it ends with status 0, all that happened in its steps is written to its trace
//!   (`run_traced`);
//! - its trace and its status show each node by the name that the configuration gives it, whatever the ids are;
//! - the ledger theorem holds of the node for all that it received and replied;
//! - an account is determined by a node that played what the log says, and by all that happened in its steps; the ledger theorem holds of
//!   that node too (`account_node`).
//!
//! We don't claim that memory did run out where that is reported, that a file is a disk as `EventLog` says, that anything comes in or goes out in time, or that peers agree.
#![tactic(auto)]

mod accounting;
mod acting;
mod answer;
mod batch;
pub mod below;
mod laws;
mod process;
mod serving;
mod stand;
mod starting;
mod telling;
mod tracing;

pub use accounting::account_node;
pub use answer::answer as answer_line;
pub use batch::Batch;
pub use laws::{
    what_a_log_says_goes_on, what_a_log_says_makes_one_node, what_is_kept_is_what_was_played,
};
pub use process::run_node;
pub use serving::serve;
pub use starting::{Restarted, restart};
pub use telling::write_torn;
pub use tracing::run_traced;
