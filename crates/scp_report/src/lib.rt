//! The one record of a node, and the reports that are made of it, for people and for programs.
//!
//! What it promises:
//! - `Report` has all that reports, accounts and notices show of a node: of one that takes one step after another, in a script or live
//!   (`report_of`), and of one whose stages ran in threads (`reports_left` of `scp_line`).
//! - `settled_report` gives the reports that the lines of a script ask for, in the order of the lines, in the fixed form.
//! - `text_report` gives the same reports, except that values and keys are as people write them.
//! - `json_report` gives the same reports as one JSON document. For each node it has its connections with their fates, the slots that it
//!   applied and its state, with values and keys as hex digits and as text.
//! - The connections of a report ascend, and are exactly those with entries or parked messages.
#![tactic(auto)]

mod applied;
pub mod below;
mod connections;
mod document;
mod grouped;
mod node;
mod report;
mod reports;
mod settled;
mod text;
mod waiting;

pub use node::{report_of, reports_of};
pub use report::{LinkReport, Parked, Report};
pub use reports::{json_report, settled_report, text_report};
pub use settled::{connections_are_those_with_entries, write_settled};
