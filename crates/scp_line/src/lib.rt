//! Scripts for up to eight linked nodes: plays them, and writes the reports that they ask for. `scp_report` makes these, from the record of
//! each node.
//!
//! What it promises:
//! - `play` writes one report for each `report` line, in the order of the lines. Its nodes have the quorum sets that the script gives them,
//!   and accepted exactly the events that the script says. The ledger theorem holds of each node for these. All text is made before the first
//!   byte is written.
//! - `play_lines` plays a script with a watch of its lines and steps. What the watch noted is one run of all the lines; or of those before
//!   the line that wasn't done, with the reason why it wasn't.
//! - At each `settle`, and where a line's event finds a full queue, each node does whole rounds until a round moves nothing, or 100,000
//!   rounds.
//! - `reports_left` gives the records of a script's nodes whose stages ran in threads, from what these left.
//! - `play_in_threads` and `play_gated` write the reports of nodes whose stages ran in threads. The ledger theorem holds of each node for
//!   what was sent to it, and nothing is left in a channel. The nodes had the commands of the script. A link that a `send` line names carried
//!   exactly the items of the script; each other link carried exactly what the sender's outbox gave.
//! - The commands that a node's slot stage took are those of the script's lines, in their order, so each fate is that of its own line
//!   (`each_fate_is_of_its_command`).
//! - `Failed` names a node that failed at a line. `Full` comes only where a line's queue was full even after a settle.
//! - `check` refuses the scripts that `play` can't read, at the same line. `show` writes the line of the message that the hex digits encode.
//! - Exactly a failure of the reader or the writer is reported as `Device`.
//!
//! Not claimed: what a process's own reader and writer read and write. Their bytes are known only for readers and writers in memory.
#![tactic(auto)]

pub mod below;
mod laws;
mod left;
mod messages;
mod nodes;
mod outcome;
mod player;
mod playing;
mod threads;
mod watch;

pub use laws::{
    a_script_has_room, each_fate_is_of_its_command, what_is_played_keeps_the_headlines,
};
pub use left::{reports_left, sets_of};
pub use nodes::{act, new_network, played_reports};
pub use outcome::{line_of_fault, status};
pub use player::{Stopped, play_lines};
pub use playing::{PlayFault, check, play, show};
pub use scp_report::below::device::{
    FailsAt, MemoryIn, MemoryOut, Process, ReportOut, ScriptIn, read_script, write_text,
};
pub use scp_report::{LinkReport, Parked, Report, reports_of, write_settled};
pub use scp_threaded_script::Ran;
pub use threads::{play_gated, play_in_threads, run_in_threads};
pub use watch::{Both, LineWatch, Nobody, Steps};
