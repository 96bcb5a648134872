//! Scripts as they are played, in lines: each line, what its steps did, and where nodes stand.
//!
//! What it promises, for the whole depth:
//! - The script is played one line after the other. Each line is shown, then exactly what each of its steps did, in their order. After a
//!   `report` line comes where that node stands.
//! - After the last line comes where each node stands that wasn't reported after the last line that acts, and for which the script doesn't
//!   speak alone. Then come the script's warnings.
//! - Where a node stands is shown for nodes that played exactly the lines so far and hold their ledgers.
//! - If a line isn't done, the trace shows all up to there, with what the nodes did of that line, and why it wasn't done.
//! - Of a script with a bad line nothing is shown but its first bad line.
//!
//! If only where nodes stand is asked for, exactly the `report` lines, where nodes stand, and the warnings are shown. It is the same run, and
//! its lines are the same.
//!
//! `write_end` and `write_warnings` are parts of it, for callers that show more of a run.
#![tactic(auto)]

pub mod below;
mod depth;
mod ending;
mod lines;
mod playing;
mod standing;
mod tracing;

pub use depth::Depth;
pub use ending::write_end;
pub use playing::{Traced, trace, write_warnings};
pub use scp_line::{LineWatch, PlayFault, Stopped, a_script_has_room, new_network, play_lines};
pub use scp_trace_text::{Scene, write_told};
pub use standing::Playing;
