//! Plays a script, and gives a notice of what would otherwise pass in silence.
//!
//! What `run` promises:
//! - The script is played one line after the other, by nodes that are returned at the end.
//! - Its notices are exactly these, in this order: lines that were cut off before the nodes came to rest, lines whose commands did nothing,
//!   slots for which nodes applied different values, and links that lost own statements unsent. Within a kind they are in the order of the
//!   lines, the slots or the links.
//! - If a line isn't done, its number and the reason are returned.
//!
//! What `run_in_threads` promises:
//! - The reports are those of a script's nodes whose stages ran in threads.
//! - There is a notice for each `wait` line that gave up, and one if there is no `wait` line. The other notices are of commands that did
//!   nothing, of slots for which nodes applied different values, and of links whose own statements were lost.
//! - If they are asked to keep it, the reports have what came over each link.
//!
//! Not claimed: which `wait` lines give up in threads, and how many statements are lost. The notices have what the waits and the outboxes
//! answered.
#![tactic(auto)]

pub mod below;
mod commands;
mod disagreeing;
mod lost;
mod nodes;
mod notice;
mod playing;
mod text;
mod threads;
mod watch;

pub use notice::{Notice, Numbers, Side, Sides};
pub use playing::{Ran, RunFault, Watched, run, run_watched};
pub use scp_line::{PlayFault, line_of_fault, what_is_played_keeps_the_headlines};
pub use text::text_of_notices;
pub use threads::{RanInThreads, run_in_threads};
