//! The report of a handmade journal.

use scp_live_process::below::line::{Report, write_settled};
use scp_live_process::below::node::{Cause, Fate};
use scp_live_process::below::quorum::QuorumSet;
use scp_live_process::below::types::{ConnId, NodeId};
use std::alloc::Global;
use std::process::Abort;
use std::test::Fail;

const REPORT: &str =
    "# before\nnode 1\nconn 2 1\nclosed link\nconn 2 2\nclosed malformed\nconn 2 3\nclosed spent\nend\n";

/// The end of a life of the link from node 2 to node 1.
fn closed(life: u32, cause: Cause) -> Fate {
    let conn = ConnId {
        from: NodeId([2; 32]),
        to: NodeId([1; 32]),
        life,
    };
    Fate::Closed { conn, cause }
}

/// What is shown of a handmade node: its quorum set, and its journal.
#[derive(Drop)]
struct Handmade {
    set: QuorumSet,
    journal: [Fate; 3],
}

impl Handmade {
    /// The record of the node, to which nothing else happened.
    fn report(&self, alloc: Global) -> Report<'_> {
        Report {
            node: 1,
            me: NodeId([1; 32]),
            set: &self.set,
            links: Vec::new(alloc),
            journal: self.journal.as_slice(),
            parked: Vec::new(alloc),
            decisions: &[],
            applied: &[],
            state: None,
            messages: &[],
            commands: &[],
            came: &[],
        }
    }
}

#[test]
fn each_cause_of_an_end_is_reported(rt: HostRuntime) -> Result<(), Fail> {
    let node = Handmade {
        set: QuorumSet::of_nodes(1, Vec::new(rt.alloc())),
        journal: [
            closed(1, Cause::Link),
            closed(2, Cause::Malformed),
            closed(3, Cause::Spent),
        ],
    };
    let report = node.report(rt.alloc());
    let mut text = String::from_str(rt.alloc(), "# before\n")?;
    write_settled(&mut text, &report)?;
    assert_eq!(rt; text.as_str(), REPORT);
    Ok(())
}
