//! The lines of a live node: what a line of its host asks for, and what the node writes.
//!
//! What it promises of lines that come in:
//! - `read_line` returns what the line says, with the names of the links;
//! - a line that says nothing is refused for its first bad word, with what was expected there;
//! - a line that says something without bytes is never refused because memory ran out.
//!
//! What it promises of lines that go out:
//! - each call adds exactly its lines to the end of the text, and leaves the rest as it is;
//! - a peer is written by the name at the index of its id, and an id of no peer by a dash;
//! - when timers change, those that no longer run are written first, and then those that run from now on;
//! - if no two peers are the same, each is written by its own name;
//! - a host can read back from the `send` lines of a text what was sent: the peers, the bytes, and their order.
//!
//! A call that writes is refused only by a failed allocation. Then the text may end with part of the line.
#![tactic(auto)]

mod asked;
mod bad;
mod decisions;
mod fates;
mod forms;
mod laws;
mod names;
mod reading;
mod replies;
mod sent;
mod state;
mod timers;
mod verb;
mod words;

pub use asked::Asked;
pub use decisions::{write_applied, write_decided};
pub use fates::write_fate;
pub use laws::{
    a_peer_is_told_by_its_name, lines_are_read_in_order, only_send_lines_are_read,
    sent_lines_come_back,
};
pub use reading::read_line;
pub use replies::{write_ignored, write_ok, write_refused, write_turned_away};
pub use scp_script::{BadWord, WordFault};
pub use sent::{write_again, write_send};
pub use state::{
    is_nearly_full, write_applied_count, write_idle, write_journal, write_key, write_link,
    write_lowest, write_warning,
};
pub use timers::{write_changes, write_running};
